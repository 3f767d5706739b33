//! A script over the core: each command is a turn call of one `World`, and prints the line of what that call answers. The
//! program `rcuo` runs its scripts over the running parts, and `rcu_world_program` over the core by this crate; both must write the
//! same (docs/specification/program.md, "replay").
//!
//! # What is proved
//!
//! - A script over the core: each command makes the events of its call, with its own job, and writes the line
//!   of the answer that the call gave.
//! - The text of a whole run is what its commands print, one after another, each call with the next of the
//!   jobs, and then the totals of what the core's `close` gives.
//! - By `replay` (`prints`, by `Replays` in `specs/Scripts.antt`), `perform` (`prints`) with its definitions in
//!   `specs/Printed.antt` and `specs/Outcomes.antt`; each command (`tells`, or `answers` where it may fail: by
//!   `TellsAs` and `AnswersAs` in `specs/Answers.antt`).
#![tactic(auto)]

mod commands;
mod script;

pub use script::{answer, replay};
