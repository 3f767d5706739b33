//! The deterministic core: a state machine over events that one caller drives, over the law of rcu_world_law.
//!
//! # What is proved
//!
//! - The core's code makes exactly the step of the machine for each event, or changes nothing and hands the job
//!   back, skipped exactly where the event isn't enabled; while a processor is Offloaded, a claim of its own is
//!   skipped.
//! - A Stamp that follows directly on a done Accept is never refused for want of memory.
//! - `run` gives one answer for each event.
//! - A turn call is the list of events that the rules name.
//! - `quiescent` answers Memory only where the report is owed, `poll` only where the barrier may pass, `shut`
//!   only where some processor isn't shut, `driver_turn` only where a processor that is away owes a report,
//!   `leave` only where its bypass list isn't empty.
//! - At `close`, the history is followed by a `Shut` for each processor that has none and then by `Back` marks
//!   alone, and it is closed.
//! - The records are those of the `Ran` marks, numbered 0, 1, 2, .., each receipt given by its job, with the
//!   stamps and the sights of the machine's runs, each sight at least `snap` of the stamp.
//! - The jobs handed back are those of the `Back` marks.
//! - On want of memory the world comes back unchanged.
//! - By `World::step` (`step`, `offloaded`, `ready`, `sure`, `kept`), `run` (`ok`, `err`), `history` (`all`,
//!   `lawful`), `close` (`marks`, `closed`, `ran`, `runs`, `back`, `reports`, `err`), `called` of `call_rcu`
//!   and `call_rcu_lazy` (`CallsAs` in `specs/Calls.antt`), and `events` of `quiescent`, `tick`, `driver_turn`,
//!   `group_turn`, `hand_turn`, `offload`, `deoffload`, `shut`, `barrier`, `poll`, `leave`, `come_back`; what
//!   stays over each of these (`StaysWorld` in `specs/Stays.antt`); `err_owes` of `quiescent`, `err_enabled` of
//!   `poll`, `shut`, `driver_turn` and `leave`; `lists`, `group_lists`, `has_group`, `has_hand`, `is_away`,
//!   `is_at_rest`.
#![tactic(auto)]

mod acceptance;
mod barrier_events;
mod barriers;
mod board_events;
mod boards;
mod calls;
mod claims;
mod conditions;
mod control;
mod cores;
mod driver;
mod end;
mod events;
mod group_turn;
mod groups;
mod looks;
mod modes;
mod moves;
mod poll;
mod presence;
mod presence_events;
mod shown;
mod turns;
mod worlds;

pub use events::{Answer, Event};
pub use worlds::World;
