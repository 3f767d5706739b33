//! Makes the calls that may want memory, scenario after scenario, and checks what stands where it was refused.
//!
//! The first word may name one scenario. Each says which growth was refused, if one was, and that what the
//! specification says stood after it (docs/specification/surface.md, "After want of memory").
//! `tests/program/test_growth.py` runs each scenario with each of its allocations refused in turn. With `--flaws` it
//! makes no call: each check is handed steps that it must refuse, and what it says of them is written.
//!
//! # What is proved
//!
//! - A program for checking alone: scenarios of calls that may want memory.
//! - That it is safe and returns.
//! - That a check passes just where what it asks for holds, and else says so, with the growth after which it
//!   didn't stand.
//! - That one growth at most is noted as refused, and the first one is.
//! - What is read of the lists that are shown.
//! - That at the end, where nothing is said to be at fault, each callback that a processor accepted ran or was
//!   handed back, once and in its place.
//! - What it finds is tested, and so is that each check refuses what it must (`--flaws`).
//! - By `stands` (`ok`, `broken`, `named`), `Refusals::note` (`once`, `noted`, `first`, `stays`), the checks of
//!   `checks` (`broken`), `check_closed` (`local`, `offloadable`, by `EndsWhole` in `specs/Ends.antt`).
#![tactic(auto)]

mod checks;
mod flawed;
mod growth;
mod lanes;
mod lists;
mod machine;
mod parts;
mod script;
mod setup;
mod status;
mod steps;
mod work;
mod worlds;

use flawed::tell_flawed;
use growth::{Fault, Refusals};
use lanes::{play_board, play_lanes};
use lists::play_lists;
use parts::play_parts;
use setup::play_setup;
use status::play_status;
use std::alloc::Global;
use std::io;
use std::process::ExitCode;
use worlds::play_world;

/// A scenario, by the types or the crate whose calls it makes.
#[derive(Clone, Copy)]
enum Scenario {
    Lists,
    Lanes,
    Board,
    World,
    Parts,
    Setup,
    Status,
}

static SCENARIOS: [Scenario; 7] = [
    Scenario::Lists,
    Scenario::Lanes,
    Scenario::Board,
    Scenario::World,
    Scenario::Parts,
    Scenario::Setup,
    Scenario::Status,
];

impl Scenario {
    fn name(self) -> &'static str {
        match self {
            Scenario::Lists => "lists",
            Scenario::Lanes => "lanes",
            Scenario::Board => "board",
            Scenario::World => "world",
            Scenario::Parts => "parts",
            Scenario::Setup => "setup",
            Scenario::Status => "status",
        }
    }

    fn play(self, alloc: Global) -> Result<Refusals, Fault> {
        match self {
            Scenario::Lists => Ok(play_lists(alloc)?),
            Scenario::Lanes => Ok(play_lanes(alloc)?),
            Scenario::Board => Ok(play_board(alloc)?),
            Scenario::World => play_world(alloc),
            Scenario::Parts => Ok(play_parts(alloc)?),
            Scenario::Setup => Ok(play_setup(alloc)?),
            Scenario::Status => play_status(alloc),
        }
    }
}

/// Plays a scenario and says how it ended. Answers whether all stood.
fn run_one(rt: &HostRuntime, alloc: Global, scenario: Scenario) -> io::Result<bool> {
    let name = scenario.name();
    match scenario.play(alloc) {
        Ok(refusals) => match refusals.first() {
            Some(growth) => println!(rt; "{name}: refused at {growth}")?,
            None => println!(rt; "{name}: nothing refused")?,
        },
        Err(Fault::Own) => println!(rt; "{name}: refused at a list of its own")?,
        Err(fault) => {
            eprintln!(rt; "{name}: {fault}")?;
            return Ok(false);
        }
    }
    Ok(true)
}

/// Plays the scenario of this name, or all. Answers whether there was one, and all stood.
fn run_named(rt: &HostRuntime, word: Option<&str>) -> io::Result<bool> {
    let (mut is_there, mut all_stood) = (false, true);
    for scenario in &SCENARIOS {
        if word.is_none() || word == Some(scenario.name()) {
            is_there = true;
            all_stood &= run_one(rt, rt.alloc(), *scenario)?;
        }
    }
    if !is_there {
        eprintln!(rt; "there is no such scenario")?;
    }
    Ok(is_there && all_stood)
}

/// Does what the first word says. Answers whether all stood.
fn run(rt: &HostRuntime) -> io::Result<bool> {
    let first = std::env::args(rt)?.skip(1).next();
    match first.as_deref() {
        Some("--flaws") => tell_flawed(rt).map(|()| true),
        word => run_named(rt, word),
    }
}

fn main(rt: HostRuntime) -> ExitCode {
    match run(&rt) {
        Ok(true) => ExitCode::SUCCESS,
        Ok(false) => ExitCode::FAILURE,
        Err(_) => {
            let _ = eprintln!(rt; "the words can't be had, or nothing can be written");
            ExitCode::FAILURE
        }
    }
}
