//! The lists that a processor, a group and a hand hold in private, each with its ends of lanes.
//!
//! Of a group these are the lists that it keeps for one member, of a hand a batch. Nothing here names a board or a
//! thread: what a step saw comes in as a plain number.
//!
//! The rules stand in docs/specification/rules.md, "Bypass lists", "Groups", "Modes" and "The calls, step by step".
//!
//! # What is proved
//!
//! - What the running parts hold in private.
//! - A processor's new callback is behind all that it put on its lane and holds; each tick's release, switch
//!   and look is the one that the rules name, and nothing is lost or gets ahead, also where a lane finds no
//!   room.
//! - A processor becomes Local only where the turn word is past all that it ever put on its lane.
//! - What a group drew of a member is what it put on, then what waits, its list, and the drawn batch, in order;
//!   it draws at most 64 batches in a turn and gives at most `blimit` callbacks.
//! - An own list of up to sixteen is always poured, and up to sixteen are always loaded, as they want no
//!   memory.
//! - What a hand drew is what was taken, and then what it holds.
//! - By `ProcessorLists::place` (`takes`, `places`), `release` (`releases`, `places`), `look` (`list`,
//!   `wanted`, `needed`), `take` (`taken`, `graced`), `switch` (`off`, `on`, `places`), `settle` (`settled`,
//!   `local`); `MemberLists::take_in` (`takes`: `most_batches` in its specs), `look`, `give` (`gives`, `some`),
//!   `into_parts` (`order`); `places_in_a_batch` (`sixteen`); `Held::fetch` (`drawn`, `held`, `taken`), `take`
//!   (`taken`).
#![tactic(auto)]

mod block_views;
mod hand;
mod lane_ends;
mod laws;
mod limits;
mod looks;
mod member_lists;
mod modes;
mod placement;
mod processor_lists;
mod relay;
mod sends;
mod views;

pub use hand::Held;
pub use lane_ends::{Inlet, Outlet};
pub use laws::places_in_a_batch;
pub use limits::LaneLimits;
pub use member_lists::{MOST_BATCHES, MemberLists};
pub use processor_lists::ProcessorLists;
