//! The program with which `rcuo replay` is compared: the same script over the deterministic core.
//!
//! It is for checking alone: it reads a setup from standard input, and prints, word for word, what `rcuo replay` prints
//! over the running parts (docs/specification/program.md). It looks at no words of the command line.
//!
//! # What is proved
//!
//! - A program for checking alone: it reads a setup from standard input and replays its script over the core,
//!   with a job for each call line as in `rcuo`.
//! - That both programs write the same is tested, and not proved.
//! - By `setup_of`, `versions_by_script` and `replay` of the crates below it.
#![tactic(auto)]

ghost use Rattle.std.specs.Prelude.{◌≡◌};

use rcu_jobs::BoxedJob;
use rcu_world_replay::replay;
use rcuo_script::{Fault, Retired, setup_of, versions_by_script, write_fault};
use std::io;
use std::process::ExitCode;

/// Replays the script of the setup on standard input. Each version that it retires makes a job, which owns it, drops it,
/// and answers how many routes it held.
fn run(host: &HostRuntime) -> Result<(), Fault> {
    let alloc = host.alloc();
    let setup = setup_of(alloc, &mut host.stdin())?;
    let mut jobs = Vec::new(alloc);
    for Retired { key, table } in versions_by_script(alloc, &setup)? {
        let routes = table.len() as u64;
        let call: Box<dyn FnOnce() -> u64 + Send> = Box::new(
            alloc,
            move || -> u64
                ensures { result ≡ routes }
            {
                drop(table);
                routes
            },
        )?;
        jobs.push(BoxedJob::<65536>::new(key, call))?;
    }
    replay(alloc, &setup, jobs, &mut io::writer(host))
}

fn main(rt: HostRuntime) -> ExitCode {
    match run(&rt) {
        Ok(()) => ExitCode::SUCCESS,
        Err(fault) => {
            let _ = write_fault(&fault, &mut rt.stderr());
            ExitCode::from(1)
        }
    }
}
