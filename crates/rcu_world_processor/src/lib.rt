//! One processor of the core: where its callbacks are, what ran, and its words.
//!
//! Callbacks are in its own list, in its group's, in the batch of its hand, or between these. Contracts see it as the
//! law's `Cpu` (docs/specification/tables.md, "Places of a callback").
//!
//! # What is proved
//!
//! - Each step of one processor on the list types (a look, a batch that moves on, a claim, a switch, a tick's
//!   release) is what the machine of `rcu_world_law` does to its `Cpu`, or changes nothing for want of memory;
//!   an empty list is poured without.
//! - `accelerate` is called where the law's `MayAccelerate` holds.
//! - `drain` takes out the jobs of all places, in order, and `into_records` gives the records as they are.
//! - By `step` of each method of `WorldProcessor` that changes it, by `Makes` and `MakesIfOk` in
//!   `specs/Makes.antt`, over `seen`; `none` of `heed`, `drain` (`keys`, `records`) and `into_records`.
#![tactic(auto)]

mod batches;
mod bypass;
mod call;
mod claims;
mod counts;
mod drain;
mod end;
mod looks;
mod modes;
mod moves;
mod presence;
mod processor;
mod shown;
mod tick;
mod waits;

pub use processor::WorldProcessor;
