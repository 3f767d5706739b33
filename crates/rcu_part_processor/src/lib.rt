//! A processor: it accepts, reports, opens barriers, polls, runs its own list in its tick, and may be away.
//!
//! Its calls stand in docs/specification/surface.md, "rcu_parts"; each is the list of steps that
//! docs/specification/rules.md, "The calls, step by step" has for it, and nothing else. `rcu_parts` hands on
//! `Processor`, `RunningProcessor`, `Away` and `Reading`; what takes a processor apart is for its `close`.
//!
//! # What is proved
//!
//! - A processor accepts a job under its old count, and the callback is placed as the rules say.
//! - `Limit` exactly at the limit, `Memory` only where the list that the callback goes to has no room, which an
//!   empty bypass list always has, `Closed` only where the exchange read an odd word; nothing is accepted then,
//!   the job comes back, lists and counts are as before.
//! - Between calls what was accepted is what was claimed and put on the lane, in some order, and then what the
//!   lists hold.
//! - A tick looks once, advances and accelerates the own list by the number seen, and asks for what it then
//!   waits for.
//! - An offloadable processor's tick then reads once what it is asked and takes its bit of the urge word once,
//!   releases its bypass list where the rules say so, and changes its mode as asked; it becomes Local only
//!   where all that it ever put on its lane has run.
//! - Then the first callbacks that are done run, each under a claim won in the call, at most `blimit`, and it
//!   says why it ran no more; in a tick that begins or ends in Offloaded none runs.
//! - A begin is such a tick up to its first claim, whose callback's job it hands out; a finish adds exactly
//!   that claim's record and ends it.
//! - In between the callback counts as claimed, and a call or a report does what it does between callbacks.
//! - A claim by which a begin hands a job out, and its finish, are one run of a tick's runs, and follow what
//!   the tick ran before at the same look.
//! - How many calls are left is the limit less what was accepted.
//! - It is the same part of its open after each call, and after its loop, which leaves what was accepted.
//! - By `Processor::call_rcu`, `call_rcu_lazy` (`ok`, `err`, `refused`, `full`, `sound`), `quiescent`
//!   (`reports`), `tick` (`ticks`, `fresh`, `local`, `none`, `few`, `sound`), `begin` (`runs`, `stops`,
//!   `counts`, `keyed`, `sound`), `RunningProcessor::finish` (`finishes`, `sound`), `call_rcu`,
//!   `call_rcu_lazy`, `quiescent`, `lists`; `barrier` (`opens`, `own`), `left`, `is_halted` (`reads`),
//!   `run`, `lists`, `new`; `ticks_in_two_steps` (`one`, `more`); the ghost fields `lawful` (`IsLawful` and
//!   `IsRunningProcessor` in specs/Lawful.antt).
//! - Records that are left are taken out once, in order, and nothing else changes.
//! - By `take_records` (`taken`, `only`).
#![tactic(auto)]

mod acceptance;
mod away;
mod barrier;
mod begin;
mod call;
mod claim;
mod in_place;
mod in_place_begin;
mod in_place_calls;
mod laws;
mod limits;
mod poll;
mod processor;
mod recorded;
mod report;
mod run;
mod running_processor;
mod tick;

pub use away::{Away, AwayState};
pub use in_place::{ProcessorInPlace, ProcessorInPlaceState};
pub use laws::ticks_in_two_steps;
pub use processor::{Processor, ProcessorState, into_state};
pub use report::Reading;
pub use running_processor::{RunningProcessor, RunningProcessorState};
