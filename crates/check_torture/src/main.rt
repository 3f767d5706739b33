//! Drives all parts in threads by random steps, after the kernel's rcutorture, and checks that no promise is broken.
//!
//! The steps are calls, read sections, reports, ticks, switches and barriers. It prints one line of counters.
//!
//! It ends with status 0 where no error was met, 1 where one was or where it could not run, and 2 where the words of the
//! command line were refused.
//!
//! # What is proved
//!
//! - A program for checking: all parts of one open in threads, driven by random steps.
//! - Each processor's thread gives back the same processor, which accepted as many callbacks as there are keys;
//!   what is closed are the parts that were opened, and the answer is what `close` promises of them.
//! - The checks of the records' numbers, waits and receipts, and of a barrier's count, say just what they name,
//!   and where the keys pass they are those of the records and then those of the jobs.
//! - A read section is counted by what it saw, a call by its kind, a report and a barrier by what they
//!   answered, a drain where it was one, a run ends in the way that is its turn, the processors' shares are
//!   equal but for what is left over, the counters add up, and the line has their bytes.
//! - Of words that are refused, want of memory is said as that, and every other error as it is.
//! - That each check notes its flaw is tested.
//! - By `drive` (`Keeps`), `run_to_end` (`ClosesSame`), `are_numbered`, `are_ready`, `are_given`, `are_keyed`,
//!   `counts_own`, `saw`, `Actor::call` (`accepted`, `once`), `report`, `open_barrier`, `drain` (`told`, `stays`,
//!   `many`), `Plan::ending`, `Plan::share` (`first`, `others`), `Plan::shape`, `Counters::add`, `line`, the
//!   conversion of clap's error into a `Refusal` (`from_gives`: `Refuses` in specs/Words.antt).
#![tactic(auto)]

ghost use Rattle.std.specs.Prelude.{◌≡◌};
ghost use Rattle.check_torture.specs.declared.Fault.TheVariants.{CannotRun, Refused, Write};

mod actors;
mod acts;
mod chance;
mod checks;
mod counters;
mod flaw;
mod history;
mod line;
mod meet;
mod one_run;
mod plan;
mod retire;
mod shared;
mod steerer;
mod versions;

use counters::Counters;
use flaw::{Flaw, Flaws};
use line::line;
use meet::meet_all;
use one_run::{Report, run_once};
use plan::{Plan, Refusal, read_plan};
use rcu_threads::ThreadsFault;
use std::alloc::{AllocError, Global};
use std::io;
use std::process::ExitCode;
use std::rt::Clock;
use std::sync::Wait;
use std::thread::Threads;

/// Why the program can't end with its line.
#[derive(Drop)]
enum Fault {
    /// The words of the command line were refused.
    Refused(Refusal),
    /// A thread could not be made, or want of memory.
    CannotRun,
    /// The line could not be written.
    Write(io::Error),
}

impl From<Refusal> for Fault {
    ghost from_gives = { λ refusal fault. fault ≡ Refused refusal };

    fn from(refusal: Refusal) -> Fault {
        Fault::Refused(refusal)
    }
}

impl From<ThreadsFault> for Fault {
    ghost from_gives = { λ _ fault. fault ≡ CannotRun };

    fn from(_fault: ThreadsFault) -> Fault {
        Fault::CannotRun
    }
}

impl From<AllocError> for Fault {
    ghost from_gives = { λ _ fault. fault ≡ CannotRun };

    fn from(_error: AllocError) -> Fault {
        Fault::CannotRun
    }
}

impl From<io::Error> for Fault {
    ghost from_gives = { λ error fault. fault ≡ Write error };

    fn from(error: io::Error) -> Fault {
        Fault::Write(error)
    }
}

/// The words of the command line after the program's name.
fn words(rt: &HostRuntime) -> Result<Vec<String>, Refusal> {
    match std::env::args(rt) {
        Ok(given) => Ok(given.skip(1).collect(rt.alloc())?),
        Err(error) if error.kind() == io::ErrorKind::OutOfMemory => Err(Refusal::Memory),
        Err(_) => Err(Refusal::NoText),
    }
}

/// What the words of the command line ask for.
fn given_plan(host: &HostRuntime) -> Result<Plan, Refusal> {
    let words = words(host)?;
    read_plan(host.alloc(), words.as_slice())
}

/// A run of a plan, or in its place each flaw, met on purpose.
fn run_or_meet<R: Threads + Wait + Clock + Copy + Send + 'static>(
    rt: &R,
    alloc: Global,
    plan: &Plan,
    run: u64,
) -> Result<Report, ThreadsFault> {
    if !plan.flawed {
        return run_once(rt, alloc, plan, run);
    }
    match meet_all(alloc) {
        Ok(report) => Ok(report),
        Err(_) => Err(ThreadsFault::Memory),
    }
}

/// All runs of a plan: what they counted.
fn run_all<R: Threads + Wait + Clock + Copy + Send + 'static>(
    rt: &R,
    alloc: Global,
    plan: &Plan,
    flaws: &Flaws,
) -> Result<Counters, ThreadsFault> {
    let mut counters = Counters::NONE;
    for run in 0..plan.runs {
        let report = run_or_meet(rt, alloc, plan, run)?;
        counters.add(&report.counters);
        flaws.add(&report.shared.flaws);
    }
    Ok(counters)
}

/// Prints the line of so many runs.
fn print_line(
    host: &HostRuntime,
    runs: u64,
    counters: &Counters,
    errors: u64,
) -> Result<(), Fault> {
    let line = line(host.alloc(), runs, counters, errors)?;
    Ok(host.print(&line)?)
}

/// Says how often each flaw was met, if it was.
fn tell_flaws(rt: &impl Eprint, flaws: &Flaws) -> io::Result<()> {
    for flaw in Flaw::ALL {
        let times = flaws.count(flaw);
        if times > 0 {
            eprintln!(rt; "error: {} ({times} times)", flaw.text())?;
        }
    }
    Ok(())
}

/// Runs a plan, notes the flaws that are met, and prints the line.
fn run_and_print<R: Threads + Wait + Clock + Copy + Send + 'static>(
    host: &HostRuntime,
    rt: &R,
    plan: &Plan,
    flaws: &Flaws,
) -> Result<(), Fault> {
    let counters = run_all(rt, host.alloc(), plan, flaws)?;
    print_line(host, plan.runs, &counters, flaws.sum())?;
    Ok(tell_flaws(host, flaws)?)
}

/// Runs what the words say, and prints the line. Answers whether no error was met.
fn run<R: Threads + Wait + Clock + Copy + Send + 'static>(
    host: &HostRuntime,
    rt: &R,
) -> Result<bool, Fault> {
    let plan = given_plan(host)?;
    let flaws = Flaws::new(host.alloc())?;
    run_and_print(host, rt, &plan, &flaws)?;
    Ok(flaws.sum() == 0)
}

/// Says why the program ends without its line.
fn tell(rt: &impl Eprint, fault: &Fault) -> io::Result<()> {
    let text = match fault {
        Fault::Refused(Refusal::Words(error)) => return rt.eprint(error),
        Fault::Write(error) => return eprintln!(rt; "error: {error}"),
        Fault::Refused(Refusal::NoText) => "a word of the command line is no text",
        Fault::Refused(Refusal::TooMany) => {
            "there are at most 32 processors, each of which accepts at most 1000000 callbacks"
        }
        Fault::Refused(Refusal::Memory) | Fault::CannotRun => {
            "no memory, or a thread can't be made"
        }
    };
    eprintln!(rt; "error: {text}")
}

/// The status with which the program ends once that is told.
fn status(fault: &Fault) -> u8 {
    match fault {
        Fault::Refused(Refusal::Memory) | Fault::CannotRun | Fault::Write(_) => 1,
        Fault::Refused(Refusal::Words(_) | Refusal::NoText | Refusal::TooMany) => 2,
    }
}

fn main(rt: HostRuntime) -> ExitCode {
    match run(&rt, &rt) {
        Ok(true) => ExitCode::SUCCESS,
        Ok(false) => ExitCode::FAILURE,
        Err(fault) if tell(&rt, &fault).is_ok() => ExitCode::from(status(&fault)),
        Err(_) => ExitCode::FAILURE,
    }
}
