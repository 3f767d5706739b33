//! A group (rcuog): it takes what its members release, waits for grace periods, and gives what is done to their hands.
//!
//! Its rules stand in docs/specification/surface.md, "rcu_parts", and docs/specification/rules.md, "The calls, step by
//! step". `rcu_parts` hands on `Group`, `GroupMember` and `GroupMembers`; what takes a group apart is for its `close`.
//!
//! # What is proved
//!
//! - A group's turn joins what it drew of each member to that member's list, looks once, asks once at most, for
//!   the greatest number that a list then waits for, and gives up to `blimit` done callbacks of each member as
//!   one batch, a batch that waited included.
//! - Where that is a batch of up to sixteen, no want of memory keeps it back.
//! - By `Group::turn` (`turn`, `few`, `places`, `needed`, `fresh`), `lists`, `is_halted` (`view`, `members`),
//!   `run`, `new`, `number`; `IsLawfulGroup` in specs/GroupLaw.antt.
#![tactic(auto)]

mod group;
mod members;
mod run;
mod turn;

pub use group::{Group, into_parts};
pub use members::{GroupMember, GroupMembers};
