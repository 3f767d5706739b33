//! The setup of a run, read from a text: a TOML document of limits, routes and a script.
//!
//! What is accepted, and which fault is named, stands in docs/specification/tables.md: "Setup keys", "CPU list",
//! "Names and hops", "Order of tests", "Fault lines" and "Script commands and what they print".
//!
//! # What is proved
//!
//! - A setup, a CPU list and a script line are accepted exactly as the tables say, and the first fault in the
//!   order of tests is named; want of memory may stand in place of any answer.
//! - A fault shows itself as its fault line.
//! - By `read_setup`, `script_line`, `cpu_list` (`answer`, `bits`, `within`, `memory`); the ghost output of
//!   `SetupFault`'s `Display` (`setup_fault_text` in specs/Faults.antt).
#![tactic(auto)]

mod arrays;
mod fault;
mod keys;
mod limits;
mod line;
mod list;
mod numbers;
mod read;
mod setup;
mod words;

pub use fault::{Key, SetupFault};
pub use limits::{
    HOP_DIGITS, MOMENT_DIGITS, MOST_BYTES, MOST_CALLS, MOST_LINES, MOST_ROUTES, NAME_LENGTH,
    NUM_DIGITS, PLACE_DIGITS,
};
pub use line::{Command, script_line};
pub use list::cpu_list;
pub use read::read_setup;
pub use setup::Setup;
