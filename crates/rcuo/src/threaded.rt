//! `rcuo threads`: all parts in threads of their own, and the totals.

ghost use Rattle.std.specs.Prelude.{◌≡◌, ◌*◌, IfErr, OnOk, false, vec_len};
ghost use Rattle.std.specs.Io.KnownBytes.{Appends};
ghost use Rattle.rcu_jobs.specs.Promised.{Promised};
ghost use Rattle.rcuo_script.specs.Faults.{IsFaultOfOutput, IsWantOfMemory};
ghost use Rattle.rcuo_script.specs.Lines.{whole_totals};
ghost use Rattle.rcuo_script.specs.Scripts.{Writes};
ghost use Rattle.rcuo_script.specs.declared.fault.Fault.TheVariants.{CannotRun};
ghost use Rattle.rcuo.specs.Totals.{IsFaultOfThreads, RunsInThreads};

use rcu_jobs::{BoxedJob, Closed};
use rcu_parts::open;
use rcu_threads::{ThreadsFault, run_in_threads};
use rcuo_plan::Plan;
use rcuo_script::{Fault, write_totals};
use std::alloc::Global;
use std::io::Write;
use std::rt::Clock;
use std::sync::Wait;
use std::thread::Threads;

/// Gives each processor `calls` jobs, in rounds, and runs all parts in threads of their own until a barrier has passed that
/// was opened with all tickets. Then it closes the runtime and prints the totals, without the reports. Each job has run, or was
/// refused, and is dropped then.
///
/// # Errors
///
/// A thread can't be made, or the barrier is refused; want of memory; the fault of a failed write. All threads that were
/// started have ended.
pub fn threads<R: Threads + Wait + Clock + Copy + Send + 'static, W: Write>(
    rt: &R,
    alloc: Global,
    plan: &Plan,
    jobs: Vec<BoxedJob<65536>>,
    writer: &mut W,
) -> Result<(), Fault>
    requires jobs { vec_len jobs ≡ plan.now.setup.calls * plan.now.setup.shape.processors }
    ensures prints { OnOk result (Writes (W.contents writer.old) (W.contents writer.new)
        (RunsInThreads (λ job. job.key) (Promised 65536) plan.now.setup jobs.items)) }
    ensures why { IfErr result IsFaultOfThreads }
{
    let parts = open(alloc, &plan.setup.shape.for_parts())?;
    match run_in_threads(rt, alloc, parts, jobs) {
        Ok(ended) => print_totals(alloc, &ended.closed, writer),
        Err(fault) => Err(not_run(fault)),
    }
}

/// The fault of a runtime that was not run in threads.
fn not_run(fault: ThreadsFault) -> Fault
    ensures memory { fault ≡ ThreadsFault.Memory → IsWantOfMemory result }
    ensures threads { fault ≡ ThreadsFault.CannotRun → result ≡ CannotRun }
    ensures why { IsFaultOfThreads result }
{
    match fault {
        ThreadsFault::Memory => Fault::memory(),
        ThreadsFault::CannotRun => Fault::CannotRun,
    }
}

/// Writes the totals, without the reports. (A function of its own, where the job's type is all that there is to look at: that it
/// may be sent is then found at once.)
fn print_totals<W: Write>(
    alloc: Global,
    closed: &Closed<BoxedJob<65536>>,
    writer: &mut W,
) -> Result<(), Fault>
    ensures writes { OnOk result (Appends (W.contents writer.old) (W.contents writer.new)
        (whole_totals false closed.now)) }
    ensures why { IfErr result IsFaultOfOutput }
{
    write_totals(alloc, closed, false, writer)
}
