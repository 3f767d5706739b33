//! A run in threads for programs that give up where it can't be made.

ghost use Rattle.std.specs.Prelude.{◌≡◌, IfErr, IfOk, length, vec_len};
ghost use Rattle.rcu_parts.specs.OneOpen.{processors_in};
ghost use Rattle.rcu_runtime.specs.Runtimes.{Continues, IsDrained};
ghost use Rattle.rcu_runtime.specs.Settled.{HasRunAll};
ghost use Rattle.rcu_runtime_threads.specs.Faults.{IsOfRun};
ghost use Rattle.rcu_runtime_threads.specs.Runs.{ComeBack, KeepsUnbegun};
ghost use Rattle.rcu_runtime_threads.specs.Says.{AreSameWorkers, HaveEndedAs};
ghost use Rattle.rcu_runtime_threads.specs.Steers.{RunsControl};

use crate::run::Ending;
use crate::steering::Steering;
use crate::worked::{Worked, run_workers};
use crate::worker::Worker;
use rcu_jobs::Job;
use rcu_runtime::{AnyFault, Runtime};
use std::alloc::Global;
use std::rt::Clock;
use std::sync::Wait;
use std::thread::Threads;

/// Runs a runtime in threads as [`run_workers`] does. Where the run isn't made as it was asked for, the runtime and the
/// workers are let go.
///
/// # Errors
///
/// Those of `run_workers`.
pub fn run_or_drop<
    J: Job<Receipt = S> + 'static,
    W: Worker<J> + 'static,
    R: Threads + Wait + Clock + Copy + Send + 'static,
    S: Send + Drop + 'static,
    G: Steering,
>(
    rt: &R,
    alloc: Global,
    runtime: Runtime<J>,
    workers: Vec<W>,
    steering: &mut G,
    ending: Ending,
) -> Result<Worked<J, W>, AnyFault>
    ensures fault { IfErr result
        (IsOfRun (length (processors_in runtime)) (vec_len workers) ending) }
    ensures number { IfOk result (λ _. vec_len workers ≡ length (processors_in runtime)) }
    ensures continues { IfOk result (λ worked. Continues runtime worked.runtime) }
    ensures workers { IfOk result (λ worked. ComeBack workers worked.workers worked.ends) }
    ensures unbegun { IfOk result (λ worked. KeepsUnbegun workers worked.workers worked.ends) }
    ensures names { IfOk result (λ worked. AreSameWorkers W.name_of workers worked.workers) }
    ensures ended { IfOk result (λ worked. HaveEndedAs W.ends_as worked.workers worked.ends) }
    ensures run { ending ≡ Ending.AfterBarrier → IfOk result (λ worked. HasRunAll worked.runtime) }
    ensures drained { ending ≡ Ending.Drained → IfOk result (λ worked. IsDrained worked.runtime) }
    ensures control { IfOk result (λ worked. RunsControl G.may ending runtime worked.runtime) }
{
    match run_workers(rt, alloc, runtime, workers, steering, ending) {
        Ok(worked) => Ok(worked),
        Err(refused) => Err(AnyFault::from(refused.fault)),
    }
}
