//! A script over the running parts: each command is one call of one part, and prints the line of what that call answers. The
//! program `rcuo` runs its scripts by this crate; `rcu_world_replay` runs them over the deterministic core, and both must write
//! the same (docs/specification/program.md, "replay").
//!
//! # What is proved
//!
//! - A script over the running parts: each command is one call of one part, with its own job.
//! - By `perform` (`prints`), with `specs/Printed.antt`.
//! - No other part changes, and the parts stay those of one open, each processor here or away.
//! - By `perform_all` (`kept`), with `specs/Presences.antt`.
//! - What is written is the line of the answer that the call gave; for `show` the lines of all lists.
//! - By `perform` (`prints`), with `specs/Outcomes.antt`.
//! - A barrier stays open until a poll passes it or another is opened.
//! - By `perform` (`prints`), with `specs/Outcomes.antt`.
//! - A whole run prints what its commands print, one after another, each call with the next of the jobs.
//! - By `replay` (`prints`), by `Replays` in `specs/Scripts.antt`.
//! - Then each processor that is away comes back, the parts are closed, and the totals are printed.
//! - By `replay` (`prints`), by `Replays` in `specs/Scripts.antt`.
//! - A run ends early for a failed write or for want of memory alone.
//! - By `replay` (`prints`).
#![tactic(auto)]

mod commands;
mod parts;
mod presence;
mod script;

pub use script::replay;
