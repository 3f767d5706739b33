//! The scenario of a setup's text.

use crate::growth::{Broken, Growth, Refusals, stands};
use rcu_setup::{Command, Setup, SetupFault, read_setup, script_line};
use std::alloc::Global;

const TEXT: &str =
    "processors = 2\nnocbs = \"1\"\nroutes = [\"a=1\", \"b=2\"]\nscript = [\"call 0 0 a 1\", \"lazy 1 0 c 2\"]\n";

const UNKNOWN_KEY: &str = "cpus = 1\nprocessors = 2\n";

const BAD_LINE: &str = "processors = 2\nscript = [\"show\", \"shown\"]\n";

const NO_TOML: &str = "processors = 2\nroutes = [\"a=1\", \n";

/// A line of a script.
const LINE: &str = "call 1 5 abc 7";

/// Each text with the test of its answer.
static TEXTS: [(&str, Expected); 4] = [
    (TEXT, Expected::Setup),
    (UNKNOWN_KEY, Expected::UnknownKey),
    (BAD_LINE, Expected::BadLine),
    (NO_TOML, Expected::NotToml),
];

/// What a text gives where there is memory.
#[derive(Clone, Copy)]
enum Expected {
    Setup,
    UnknownKey,
    BadLine,
    NotToml,
}

/// Whether they are the routes of `TEXT`.
fn are_routes(routes: &[(String, u32)]) -> bool {
    match routes {
        [(a, first), (b, second)] => {
            a.as_str() == "a" && b.as_str() == "b" && (*first, *second) == (1, 2)
        }
        _ => false,
    }
}

/// Whether they are the calls of `TEXT`.
fn are_calls(script: &[Command]) -> bool {
    match script {
        [Command::Call { name: a, .. }, Command::Lazy { name: c, .. }] => {
            a.as_str() == "a" && c.as_str() == "c"
        }
        _ => false,
    }
}

/// Whether it is the setup of `TEXT`.
fn is_whole(setup: &Setup) -> bool {
    are_routes(setup.routes.as_slice())
        && are_calls(setup.script.as_slice())
        && (setup.shape.processors, setup.shape.offloadable) == (2, 0b10)
}

/// Whether an answer is the expected one.
fn is_expected(expected: Expected, answer: &Result<Setup, SetupFault>) -> bool {
    match (expected, answer) {
        (Expected::Setup, Ok(setup)) => is_whole(setup),
        (Expected::UnknownKey, Err(SetupFault::UnknownKey(key))) => key.as_str() == "cpus",
        (Expected::BadLine, Err(SetupFault::BadLine(line))) => *line == 2,
        (Expected::NotToml, Err(SetupFault::NotToml)) => true,
        _ => false,
    }
}

/// Reads a text. Whether the answer is the expected one; None where memory was wanted.
fn reads(alloc: Global, text: &str, expected: Expected) -> Option<bool> {
    match &read_setup(alloc, text) {
        Err(SetupFault::Memory) => None,
        answer => Some(is_expected(expected, answer)),
    }
}

/// Reads a text, again where memory was wanted.
fn read(
    alloc: Global,
    refusals: &mut Refusals,
    text: &str,
    expected: Expected,
) -> Result<(), Broken> {
    let mut answer = reads(alloc, text, expected);
    if answer.is_none() {
        refusals.note(Growth::ReadSetup)?;
        answer = reads(alloc, text, expected);
    }
    stands(answer == Some(true), Growth::ReadSetup, "another answer")
}

/// Whether it is the call that `LINE` says.
fn is_line(command: &Command) -> bool {
    match command {
        Command::Call {
            cpu,
            moment,
            name,
            hop,
        } => (*cpu, *moment, *hop) == (1, 5, 7) && name.as_str() == "abc",
        _ => false,
    }
}

/// Reads the line of a script. Whether it is what it says; None where memory was wanted.
fn reads_line(alloc: Global) -> Option<bool> {
    match &script_line(alloc, LINE) {
        Ok(command) => Some(is_line(command)),
        Err(SetupFault::Memory) => None,
        Err(_) => Some(false),
    }
}

/// Reads a line of a script, again where memory was wanted.
fn read_line(alloc: Global, refusals: &mut Refusals) -> Result<(), Broken> {
    let mut answer = reads_line(alloc);
    if answer.is_none() {
        refusals.note(Growth::ScriptLine)?;
        answer = reads_line(alloc);
    }
    stands(answer == Some(true), Growth::ScriptLine, "another answer")
}

/// The scenario: a text that is a setup, texts with faults, a line of a script.
pub fn play_setup(alloc: Global) -> Result<Refusals, Broken> {
    let mut refusals = Refusals::new();
    for (text, expected) in &TEXTS {
        read(alloc, &mut refusals, text, *expected)?;
    }
    read_line(alloc, &mut refusals)?;
    Ok(refusals)
}
