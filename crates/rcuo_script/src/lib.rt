//! What all runs of a script share: the setup that is read, commands, the versions that calls retire, lines and faults.
//!
//! Of a setup a bounded number of bytes is read, a piece at a time (docs/specification/program.md, "Command line"). Which
//! commands take a job, and what each line says, stands in docs/specification/tables.md, "Script commands and what they
//! print" and "Fault lines". The versions of the route table stand in docs/specification/program.md, "Route table".
//!
//! # What is proved
//!
//! - The bytes of the line of each command's answer, of the totals and of each fault are those of the tables; a
//!   call line has a job, the first that is left, and no other command has one.
//! - What writes fails for a failed write or for want of memory, and for nothing else.
//! - At most 1048577 bytes of setup are read, and the setup is the one of the bytes read.
//! - By `write_line`, `write_lists`, `write_totals` (`writes`, `why`), `write_fault`, `route_of`, `job_for`
//!   (`job`, `first`); `setup_of` (`most`, `exact`).
//! - As many versions of the route table are retired as a script has call lines, or as the rounds of `threads`
//!   have calls.
//! - Version `v` has the routes of the setup with those of the first `v` calls set in order, where a name that
//!   is there keeps its place, and its key is `v` times 65536 plus how many they are; by that modulus the key
//!   is the number of routes that it holds.
//! - All versions that are made, version 0 and the last one too, take at most the budget of a run, where each
//!   route counts as 128 bytes and those of its name.
//! - For no other reason than want of memory are they not made, as the type of the error says.
//! - By `versions_by_script`, `versions_by_rounds` (`many`, `versions`, `within`), the ghost field `promised` of
//!   `Retired`, `added_bytes`.
#![tactic(auto)]

mod calls;
mod fault;
mod lines;
mod read;
mod setup;
mod versions;

pub use calls::{is_show, job_for, route_of};
pub use fault::{Fault, write_fault};
pub use lines::{Line, Verb, write_line, write_lists, write_text, write_totals};
pub use setup::{MOST_READ, setup_of};
pub use versions::{Retired, Version, versions_by_rounds, versions_by_script};
