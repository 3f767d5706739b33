//! The program `rcuo`: it replays a script of calls, turns and reports over a runtime, or runs one in threads.
//!
//! Of a replay it prints what each call answers. docs/specification/program.md has its surface.
//!
//! # What is proved
//!
//! - Each job answers the number of routes that its version held, as its key promises.
//! - What `threads` prints is the totals of what was closed, of the parts that were opened, with no job handed
//!   back.
//! - By `threads` (`prints`).
#![tactic(auto)]

ghost use Rattle.std.specs.Prelude.{◌≡◌};

mod threaded;

use rcu_jobs::BoxedJob;
use rcuo_plan::{Plan, Refusal, Subcommand, read_plan, versions};
use rcuo_replay::replay;
use rcuo_script::{Fault, Retired, write_fault};
use std::io;
use std::process::ExitCode;
use std::rt::Clock;
use std::sync::Wait;
use std::thread::Threads;
use threaded::threads;

/// Why the words of the command line can't be read.
fn unread(error: &io::Error) -> Refusal {
    match error.kind() {
        io::ErrorKind::OutOfMemory => Refusal::Fault(Fault::memory()),
        _ => Refusal::NoText,
    }
}

/// The words of the command line after the program's name.
fn words(rt: &HostRuntime) -> Result<Vec<String>, Refusal> {
    let given = match std::env::args(rt) {
        Ok(given) => given,
        Err(error) => return Err(unread(&error)),
    };
    let mut words = Vec::new(rt.alloc());
    for word in given.skip(1) {
        words.push(word)?;
    }
    Ok(words)
}

/// Does what the plan says. Each version that is retired makes a job, which owns it, drops it, and answers how many routes it
/// held; jobs are made where they are handed on, since a function that gave boxed closures back could promise nothing of them.
/// `rt` is the runtime of `host`, by what threads need of it.
fn perform<R: Threads + Wait + Clock + Copy + Send + 'static>(
    host: &HostRuntime,
    rt: &R,
    plan: &Plan,
) -> Result<(), Fault> {
    let alloc = host.alloc();
    let mut jobs = Vec::new(alloc);
    for Retired { key, table } in versions(alloc, plan)? {
        let routes = table.len() as u64;
        let call: Box<dyn FnOnce() -> u64 + Send> = Box::new(
            alloc,
            move || -> u64
                ensures { result ≡ routes }
            {
                drop(table);
                routes
            },
        )?;
        jobs.push(BoxedJob::<65536>::new(key, call))?;
    }
    let mut writer = io::writer(host);
    match plan.subcommand {
        Subcommand::Replay => replay(alloc, &plan.setup, jobs, &mut writer),
        Subcommand::Threads => threads(rt, alloc, plan, jobs, &mut writer),
    }
}

/// What the words and the setup ask for.
fn asked(host: &HostRuntime) -> Result<Plan, Refusal> {
    let words = words(host)?;
    read_plan(host.alloc(), words.as_slice(), &mut host.stdin())
}

/// Does what the words and the setup say.
fn run<R: Threads + Wait + Clock + Copy + Send + 'static>(
    host: &HostRuntime,
    rt: &R,
) -> Result<(), Refusal> {
    let plan = asked(host)?;
    Ok(perform(host, rt, &plan)?)
}

/// Says why the program refused, and gives its status.
fn refuse(host: &HostRuntime, refusal: &Refusal) -> ExitCode {
    match refusal {
        Refusal::Words(error) => {
            let _ = host.eprint(error);
            ExitCode::from(2)
        }
        Refusal::NoText => {
            let _ = host.eprint("error: a word of the command line is no text\n");
            ExitCode::from(2)
        }
        Refusal::Fault(fault) => {
            let _ = write_fault(fault, &mut host.stderr());
            ExitCode::from(1)
        }
    }
}

fn main(rt: HostRuntime) -> ExitCode {
    match run(&rt, &rt) {
        Ok(()) => ExitCode::SUCCESS,
        Err(refusal) => refuse(&rt, &refusal),
    }
}
