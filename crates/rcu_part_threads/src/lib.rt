//! The threads of the parts of one kind: each gives back the part that it was given.
//!
//! Those of the driver, the groups and the hands run until the runtime is halted; those of the processors call with
//! their jobs, and then run until a barrier with all tickets has passed. Each starts with the promise of what it gives
//! back. The crate names the parts alone, and neither `open` nor `close`, so it is proved beside `rcu_parts`.
//!
//! # What is proved
//!
//! - Each thread gives back the part that it was given, by the promise that it was started with, once it saw
//!   the halt word set.
//! - Jobs are dealt in rounds.
//! - A processor calls with each of its own in turn, at the moments 0, 1, .., and reports and ticks after each.
//! - Each call's answer comes back, a refused job in its own, refused for a reason that its processor shows
//!   afterwards.
//! - The tickets are those of the processor's next numbers, in order.
//! - Of processors that had accepted nothing before, all that they accepted has run once the barrier with all
//!   tickets has passed.
//! - Control opens that barrier, reads turn words until it has passed, and sets the halt word; it shuts and
//!   switches nothing.
//! - By `start_groups`, `start_hands`, `start_driver`, `join_driver`, `join_all` (`kept`, `why`), `deal`
//!   (`dealt`), `call_all` (`turns`), `run_processors` (`ran`, `answered`, `control`).
#![tactic(auto)]

mod answer;
mod callers;
mod crew;
mod fault;
mod processors;
mod promises;
mod runs;
mod shares;
mod threads;

pub use answer::Answer;
pub use callers::Answered;
pub use crew::{Crew, join_all};
pub use fault::ThreadsFault;
pub use processors::run_processors;
pub use promises::{RunningDriver, RunningGroup, RunningHand, Stays};
pub use shares::{Caller, deal};
pub use threads::{join_driver, start_driver, start_groups, start_hands};
