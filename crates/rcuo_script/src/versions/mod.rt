//! The versions of the route table that the calls of a run retire.
//!
//! docs/specification/program.md, "Route table", has their rules.

mod retired;
mod table;

pub use retired::{versions_by_rounds, versions_by_script};
pub use table::{Retired, Version};
