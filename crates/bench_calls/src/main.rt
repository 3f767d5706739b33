//! Measures what a call costs its thread, how many callbacks run a second, and how long a single one waits.
//!
//! The callbacks are those of the running parts, and are counted until a barrier has passed. `tools/bench` runs it
//! beside a peer.
//!
//! With `--times` it prints the times, in nanoseconds: of calls one line, of waiting a line for each callback. Without it
//! it says how many callbacks ran, of how many calls, which is the same in each run. With `--idle` all parts wait in threads
//! of their own while one job sleeps; tools/idle measures what processor time each thread takes.
//!
//! # What is proved
//!
//! - A program for measuring alone.
//! - That it is safe and returns, and that the runtime that it opens is there where the words are within the
//!   limits, has as many processors and the limits that they say, all of them offloadable or none, and groups
//!   of as many as they say or as are usual.
//! - That a processor ticks after as many calls, and its moment rises after as many ticks, as the words say.
//! - That a boxed job is no plain one.
//! - And that each call has a place among the times.
//! - By `Plan::shape` (`some`, `threads`, `stride`, `usual`, `limits`, `local`, `offloaded`), `Pace::call`
//!   (`due`, `again`, `counted`, `stays`), `Pace::tick` (`rises`, `counted`, `stays`), `Work::new` (`plain`,
//!   `boxed`), `wait_times`.
#![tactic(auto)]

ghost use Rattle.std.specs.Prelude.{◌≡◌};
ghost use Rattle.bench_calls.specs.declared.Fault.TheVariants.{CannotRun, Refused, Write};

mod beside;
mod calls;
mod figures;
mod helper;
mod idle;
mod jobs;
mod latency;
mod plan;

use figures::{Figures, measure};
use idle::{Sleep, run_idle};
use jobs::Work;
use latency::wait_times;
use plan::{Plan, Refusal, read_plan};
use rcu_parts::{Parts, open};
use std::alloc::AllocError;
use std::io;
use std::process::ExitCode;
use std::rt::Clock;
use std::sync::Wait;
use std::thread::Threads;
use std::time::Duration;

/// Why the program can't end with its figures.
#[derive(Drop)]
enum Fault {
    /// The words of the command line were refused.
    Refused(Refusal),
    /// The numbers are outside a runtime's limits.
    NoShape,
    /// A thread could not be made, or want of memory.
    CannotRun,
    /// The figures could not be written.
    Write(io::Error),
}

impl From<Refusal> for Fault {
    ghost from_gives = { λ refusal fault. fault ≡ Refused refusal };

    fn from(refusal: Refusal) -> Fault {
        Fault::Refused(refusal)
    }
}

impl From<AllocError> for Fault {
    ghost from_gives = { λ _ fault. fault ≡ CannotRun };

    fn from(_error: AllocError) -> Fault {
        Fault::CannotRun
    }
}

impl From<io::Error> for Fault {
    ghost from_gives = { λ error fault. fault ≡ Write error };

    fn from(error: io::Error) -> Fault {
        Fault::Write(error)
    }
}

/// The words of the command line after the program's name.
fn words(rt: &HostRuntime) -> Result<Vec<String>, Refusal> {
    match std::env::args(rt) {
        Ok(given) => Ok(given.skip(1).collect(rt.alloc())?),
        Err(error) if error.kind() == io::ErrorKind::OutOfMemory => Err(Refusal::Memory),
        Err(_) => Err(Refusal::NoText),
    }
}

/// Prints what calls took, or how many callbacks ran.
fn print_figures(rt: &impl Print, plan: &Plan, figures: &Figures) -> io::Result<()> {
    let Figures {
        ran,
        called,
        own,
        whole,
    } = figures;
    if plan.times {
        println!(rt; "ran {ran} called_ns {called} own_ns {own} whole_ns {whole}")
    } else {
        println!(rt; "ran {ran} of {}", plan.calls.saturating_mul(plan.threads))
    }
}

/// Prints how long each callback waited, or how many ran.
fn print_times(rt: &impl Print, plan: &Plan, times: &[u64]) -> io::Result<()> {
    if !plan.times {
        let ran = times.iter().filter(|time| **time > 0).count();
        return println!(rt; "ran {ran} of {}", plan.calls);
    }
    for time in times {
        println!(rt; "{time}")?;
    }
    Ok(())
}

/// What the words of the command line ask for.
fn given_plan(host: &HostRuntime) -> Result<Plan, Refusal> {
    let words = words(host)?;
    read_plan(host.alloc(), words.as_slice())
}

/// Measures how long each callback waits, and prints it.
fn run_latency<R: Threads + Wait + Clock + Copy + Send + 'static>(
    host: &HostRuntime,
    rt: &R,
    parts: Parts<Work>,
    plan: &Plan,
) -> Result<(), Fault> {
    let times = wait_times(host, rt, host.alloc(), parts, plan)?;
    Ok(print_times(host, plan, times.as_slice())?)
}

/// Measures what calls take, and prints it.
fn run_calls<R: Threads + Wait + Clock + Copy + Send + 'static>(
    host: &HostRuntime,
    rt: &R,
    parts: Parts<Work>,
    plan: &Plan,
) -> Result<(), Fault> {
    let Some(figures) = measure(rt, host.alloc(), parts, *plan) else {
        return Err(Fault::CannotRun);
    };
    Ok(print_figures(host, plan, &figures)?)
}

/// Runs all parts while the only job sleeps, and prints how many callbacks ran.
fn rest<R: Threads + Wait + Clock + Copy + Send + 'static>(
    host: &HostRuntime,
    rt: &R,
    milliseconds: u64,
) -> Result<(), Fault> {
    let job = Sleep {
        clock: *host,
        time: Duration::from_millis(milliseconds),
    };
    let ran = run_idle(rt, host.alloc(), job)?;
    Ok(println!(host; "ran {ran} of 1")?)
}

/// Runs what the words say.
fn run<R: Threads + Wait + Clock + Copy + Send + 'static>(
    host: &HostRuntime,
    rt: &R,
) -> Result<(), Fault> {
    let plan = given_plan(host)?;
    if let Some(milliseconds) = plan.idle {
        return rest(host, rt, milliseconds);
    }
    let Some(shape) = plan.shape() else {
        return Err(Fault::NoShape);
    };
    let parts = open::<Work>(host.alloc(), &shape.for_parts())?;
    if plan.latency {
        run_latency(host, rt, parts, &plan)
    } else {
        run_calls(host, rt, parts, &plan)
    }
}

/// Says why the program ends without its figures.
fn tell(rt: &impl Eprint, fault: &Fault) -> io::Result<()> {
    let text = match fault {
        Fault::Refused(Refusal::Words(error)) => return rt.eprint(error),
        Fault::Write(error) => return eprintln!(rt; "error: {error}"),
        Fault::Refused(Refusal::NoText) => "a word of the command line is no text",
        Fault::NoShape => "a runtime has 1 to 32 processors, and limits of at most 1000000",
        Fault::Refused(Refusal::Memory) | Fault::CannotRun => {
            "no memory, or a thread can't be made"
        }
    };
    eprintln!(rt; "error: {text}")
}

/// The status with which the program ends once that is told.
fn status(fault: &Fault) -> u8 {
    match fault {
        Fault::Refused(Refusal::Memory) | Fault::CannotRun | Fault::Write(_) => 1,
        Fault::Refused(Refusal::Words(_) | Refusal::NoText) | Fault::NoShape => 2,
    }
}

fn main(rt: HostRuntime) -> ExitCode {
    match run(&rt, &rt) {
        Ok(()) => ExitCode::SUCCESS,
        Err(fault) if tell(&rt, &fault).is_ok() => ExitCode::from(status(&fault)),
        Err(_) => ExitCode::FAILURE,
    }
}
