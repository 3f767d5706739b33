//! A runtime as parts, each for a thread of its own: `open` makes them, `close` says what became of each callback.
//!
//! No part takes a lock. In between a processor accepts and reports, its group waits for it, and its hand runs for it
//! (docs/specification/surface.md, "rcu_parts"). Each part has a crate of its own below; a user names this one alone.
//!
//! # What is proved
//!
//! - All parts of a runtime; it hands on the types of the crates of each part, and those of `rcu_part_control`.
//! - `open` makes all parts of a new board or none: exactly the offloadable processors are Offloaded and have a
//!   hand, each group with an offloadable member is there with its members, all lists are empty, and no step
//!   was made.
//! - `close` finds all its room first.
//! - Then it answers for each processor the records numbered 0 to m - 1 and the jobs of the numbers from m on,
//!   which together are the accepted list, and how many grace periods it passed.
//! - One of these, of each processor, lies between each record's stamp and the sight by which it ran, and was
//!   passed by a report in it or by being away.
//! - That is so of any parts of one open; where jobs are sound the jobs that come back have the accepted keys,
//!   and each receipt is as its job gives it.
//! - On want of memory the parts are as before, and `again` tries again.
//! - By `open` (`opened`, `one`, `sound`), `close`, `again` (`accounts`, `closes`, `left`), `same_parts`,
//!   `drained` (`stays`, `none_back`).
//! - An open with a choice of what is kept.
//! - Parts that keep all answer all records.
//! - By `open_with` (`opened`), `records_of_all` (`opened`, `stays`, `accounts`, `closes`).
#![tactic(auto)]

mod closing;
mod ends;
mod laws;
mod opening;
mod parts;
mod room;
mod seats;

pub use closing::{AllClosing, Closing, close};
pub use laws::{drained, records_of_all, same_parts};
pub use opening::{open, open_with};
pub use parts::{AllParts, Parts};
pub use rcu_part_control::{Barrier, Control, Driver, ReadsTurns};
pub use rcu_part_group::{Group, GroupMember, GroupMembers};
pub use rcu_part_hand::{Hand, HandInPlace, RunningHand};
pub use rcu_part_order::Kept;
pub use rcu_part_processor::{Away, Processor, ProcessorInPlace, Reading, RunningProcessor};
pub use rcu_part_steps::{Begins, ClaimedCallback};
