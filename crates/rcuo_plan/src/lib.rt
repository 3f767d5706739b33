//! What a run of the program `rcuo` is to do: its subcommand, its setup, and the versions of the route table.
//!
//! The words of the command line name the subcommand, and the calls of the setup retire the versions
//! (docs/specification/program.md). The crate names no part of the runtime, so it is proved beside the parts.
//!
//! # What is proved
//!
//! - The one word `replay` or `threads` isn't refused but for want of memory, and the plan names it; at most
//!   1048577 bytes of setup are read; the setup is the one of the bytes read.
//! - As many versions are retired as the run has calls, each with the routes that the calls before it set; for
//!   no other reason than want of memory are they not made.
//! - By `read_plan` (`taken`, `named`, `most`, `exact`), `versions` (`many`, `versions`).
#![tactic(auto)]

mod plan;
mod retired;

pub use plan::{Plan, Refusal, Subcommand, read_plan};
pub use retired::versions;
