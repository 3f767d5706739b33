//! All parts of one open in threads of their own, from the first call to the end.
//!
//! The program's `threads` runs so (docs/specification/program.md, "threads"). What each thread gives back is the part
//! that it was given, by the promise that it was started with. Who runs processors in another way starts and joins the
//! threads of the other parts by the same calls (`start_driver`, `start_groups`, `start_hands`, `join_driver`,
//! `join_all`), which `rcu_part_threads` has.
//!
//! # What is proved
//!
//! - All parts of one open in threads of their own.
//! - What is closed are the parts that were opened, and the answer is what `close` promises of them.
//! - Jobs are dealt in rounds, and each call's answer comes back, a refused job in its own.
//! - Where nothing had been accepted before, no job is handed back, the tickets of processor p are those of its
//!   numbers 0, 1, .., a job is refused only at the limit, for want of memory or where its processor saw that
//!   it was shut, and what ran on each processor, in order, are by their keys those of its jobs that were
//!   accepted.
//! - By `run_in_threads` (`closes`, `ran`, `all`, `refused`).
#![tactic(auto)]

mod ended;
mod threads;

pub use ended::ThreadsEnd;
pub use rcu_part_threads::{
    Answer, Crew, RunningDriver, RunningGroup, RunningHand, Stays, ThreadsFault, join_all,
    join_driver, start_driver, start_groups, start_hands,
};
pub use threads::run_in_threads;
