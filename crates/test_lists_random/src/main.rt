//! Drives a list of segments through random steps, beside a plain labelled list, and compares all that they show.
//!
//! That is each answer, length and number (docs/specification/definitions.md, "Labelled list").
//!
//! With no argument it prints `10000 steps agree`, or ends with status 1 at the first step that differs. With any
//! argument it measures what a round of calls costs on short and on long lists.
#![tactic(auto)]

mod cost;
mod model;
mod steps;

use std::process::ExitCode;
use std::{env, io};

fn main(rt: HostRuntime) -> io::Result<ExitCode> {
    if env::args(&rt)?.nth(1).is_some() {
        cost::measure(&rt)?;
        return Ok(ExitCode::SUCCESS);
    }
    match steps::first_difference(rt.alloc())? {
        None => {
            println!(rt; "{} steps agree", steps::STEPS)?;
            Ok(ExitCode::SUCCESS)
        }
        Some(step) => {
            println!(rt; "step {step} differs")?;
            Ok(ExitCode::FAILURE)
        }
    }
}
