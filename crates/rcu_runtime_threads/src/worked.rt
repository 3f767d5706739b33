//! A whole runtime in threads, and back.

ghost use Rattle.std.specs.Prelude.{◌≡◌, true, IfErr, IfOk, IsTrue, MatchResult, length, vec_len};
ghost use Rattle.rcu_parts.specs.OneOpen.{processors_in};
ghost use Rattle.rcu_runtime.specs.Runtimes.{Continues, IsDrained};
ghost use Rattle.rcu_runtime.specs.Settled.{HasRunAll};
ghost use Rattle.rcu_runtime_threads.specs.Rooms.{AreHalvesFor, IsRoomFor};
ghost use Rattle.rcu_runtime_threads.specs.Faults.{ComesBack, HaveEnded, IsEarly, IsLate, IsWhy};
ghost use Rattle.rcu_runtime_threads.specs.Runs.{ComeBack, KeepsUnbegun};
ghost use Rattle.rcu_runtime_threads.specs.Says.{AreSameWorkers, HaveEndedAs};
ghost use Rattle.rcu_runtime_threads.specs.Steers.{LooksBy, LooksIf, RunsControl, StopsControl};

use crate::fault::WorkersFault;
use crate::rooms::AllReserved;
use crate::run::{Ending, Ran, run_parts};
use crate::steering::Steering;
use crate::worker::{Worker, WorkerEnd};
use rcu_jobs::Job;
use rcu_parts::Parts;
use rcu_runtime::{Runtime, Whole};
use std::alloc::Global;
use std::rt::Clock;
use std::sync::Wait;
use std::thread::Threads;

/// What comes back of a run: the runtime, and the workers in the order of their processors.
#[derive(Drop)]
pub struct Worked<J: Job, W> {
    pub runtime: Runtime<J>,
    pub workers: Vec<W>,
    /// How each worker ended; empty where nothing was started.
    pub ends: Vec<WorkerEnd>,
}

/// What comes back of a run that wasn't made as it was asked for, and why.
#[derive(Drop)]
pub struct NotWorked<J: Job, W> {
    pub fault: WorkersFault,
    pub worked: Worked<J, W>,
}

/// The room for a run of these parts with so many workers.
fn find_room<J: Job, W: Worker<J>>(
    alloc: Global,
    parts: &Parts<J>,
    workers: usize,
) -> Result<AllReserved<J, W>, WorkersFault>
    ensures many { IfOk result (λ _. workers ≡ vec_len parts.now.processors) }
    ensures posts { IfOk result (λ rooms. IsRoomFor (vec_len parts.now.processors) rooms.posts) }
    ensures at_posts { IfOk result (λ rooms. rooms.at_posts.many ≡ vec_len parts.now.processors) }
    ensures halves { IfOk result (λ rooms.
        AreHalvesFor (vec_len parts.now.processors) rooms.halves) }
    ensures others { IfOk result (λ rooms.
        (rooms.groups.many ≡ vec_len parts.now.groups)
        × (rooms.hands.many ≡ vec_len parts.now.hands)) }
    ensures fault { IfErr result (λ fault. IsEarly (vec_len parts.now.processors) workers fault) }
{
    let processors = parts.processors.len();
    if workers != processors {
        return Err(WorkersFault::OtherNumber {
            processors: processors as u64,
            workers: workers as u64,
        });
    }
    let Ok(rooms) = AllReserved::new(alloc, parts) else {
        return Err(WorkersFault::Memory);
    };
    Ok(rooms)
}

/// Whether the runtime is as the ending has it: all that was accepted has run, or it is drained, where that was asked for.
fn is_settled<J: Job>(runtime: &mut Runtime<J>, ending: Ending) -> bool
    ensures continues { Continues runtime.old runtime.new }
    ensures at_once { ending ≡ Ending.AtOnce → IsTrue result }
    ensures run { ending ≡ Ending.AfterBarrier → IsTrue result → HasRunAll runtime.new }
    ensures drained { ending ≡ Ending.Drained → IsTrue result → IsDrained runtime.new }
    ensures looks { LooksBy ending runtime.old runtime.new }
{
    match ending {
        Ending::AtOnce => true,
        Ending::AfterBarrier => runtime.has_run_all(),
        Ending::Drained => runtime.drain(0, 0),
    }
}

/// What a run answers, where this is what it left.
fn answer<J: Job, W: Worker<J>>(
    runtime: Runtime<J>,
    workers: Vec<W>,
    ends: Vec<WorkerEnd>,
    has_begun: bool,
    ending: Ending,
) -> Result<Worked<J, W>, NotWorked<J, W>>
    ensures continues { MatchResult result (λ w. Continues runtime w.runtime) (λ refused.
        Continues runtime refused.worked.runtime) }
    ensures fault { IfErr result (λ refused. IsLate has_begun ending refused.fault) }
    ensures workers { IfOk result (λ w. (w.workers ≡ workers) × (w.ends ≡ ends)) }
    ensures back { IfErr result (λ refused. refused.worked.workers ≡ workers) }
    ensures ends { IfErr result (λ refused. refused.worked.ends ≡ ends) }
    ensures run { ending ≡ Ending.AfterBarrier → IfOk result (λ w. HasRunAll w.runtime) }
    ensures drained { ending ≡ Ending.Drained → IfOk result (λ w. IsDrained w.runtime) }
    ensures begun { IfOk result (λ _. has_begun ≡ true) }
    ensures looks { IfOk result (λ w. LooksBy ending runtime w.runtime) }
    ensures looks_back { IfErr result (λ refused.
        LooksIf has_begun ending runtime refused.worked.runtime) }
{
    let mut runtime = runtime;
    if !has_begun {
        let worked = Worked {
            runtime,
            workers,
            ends,
        };
        return Err(NotWorked {
            fault: WorkersFault::NoThread,
            worked,
        });
    }
    let is_settled = is_settled(&mut runtime, ending);
    let worked = Worked {
        runtime,
        workers,
        ends,
    };
    if is_settled {
        return Ok(worked);
    }
    Err(NotWorked {
        fault: WorkersFault::NotDrained,
        worked,
    })
}

/// Runs a runtime in threads: worker `p` says what processor `p` does, in a thread of its own; the driver, each group and
/// each hand have a thread that makes their turns; and control does in this thread what the steering says. A worker that has
/// ended leaves its processor to report and tick. Once the steering and all workers have ended, the run waits for what
/// `ending` asks for, ends all threads and joins them, and the whole runtime comes back, to go on with, to run again or to
/// close.
///
/// # Errors
///
/// Want of memory, another number of workers than of processors, or no thread for some part: then no worker made a step. Or
/// the runtime isn't drained though that was asked for. The runtime and the workers come back.
pub fn run_workers<
    J: Job<Receipt = S> + 'static,
    W: Worker<J> + 'static,
    R: Threads + Wait + Clock + Copy + Send + 'static,
    S: Send + Drop + 'static,
    G: Steering,
>(
    rt: &R,
    alloc: Global,
    runtime: Runtime<J>,
    workers: Vec<W>,
    steering: &mut G,
    ending: Ending,
) -> Result<Worked<J, W>, NotWorked<J, W>>
    ensures continues { MatchResult result (λ worked. Continues runtime worked.runtime) (λ refused.
        Continues runtime refused.worked.runtime) }
    ensures back { IfErr result (λ refused.
        ComesBack refused.fault runtime refused.worked.runtime workers.items
        refused.worked.workers.items) }
    ensures workers { IfOk result (λ worked. ComeBack workers worked.workers worked.ends) }
    ensures as_many { IfErr result (λ refused. vec_len refused.worked.workers ≡ vec_len workers) }
    ensures number { IfOk result (λ _. vec_len workers ≡ length (processors_in runtime)) }
    ensures why { IfErr result (λ refused.
        IsWhy (length (processors_in runtime)) (vec_len workers) ending refused.fault) }
    ensures ends { IfErr result (λ refused.
        HaveEnded refused.fault (vec_len workers) refused.worked.ends.items) }
    ensures unbegun { IfOk result (λ worked. KeepsUnbegun workers worked.workers worked.ends) }
    ensures unbegun_back { IfErr result (λ refused.
        KeepsUnbegun workers refused.worked.workers refused.worked.ends) }
    ensures names { IfOk result (λ worked. AreSameWorkers W.name_of workers worked.workers) }
    ensures names_back { IfErr result (λ refused.
        AreSameWorkers W.name_of workers refused.worked.workers) }
    ensures ended { IfOk result (λ worked. HaveEndedAs W.ends_as worked.workers worked.ends) }
    ensures ended_back { IfErr result (λ refused.
        HaveEndedAs W.ends_as refused.worked.workers refused.worked.ends) }
    ensures run { ending ≡ Ending.AfterBarrier → IfOk result (λ worked. HasRunAll worked.runtime) }
    ensures drained { ending ≡ Ending.Drained → IfOk result (λ worked. IsDrained worked.runtime) }
    ensures control { IfOk result (λ worked. RunsControl G.may ending runtime worked.runtime) }
    ensures control_back { IfErr result (λ refused.
        StopsControl G.may ending refused.fault runtime refused.worked.runtime) }
{
    let (parts, limit) = runtime.take_apart();
    let rooms = match find_room(alloc, &parts, workers.len()) {
        Ok(rooms) => rooms,
        Err(fault) => {
            let worked = Worked {
                runtime: Whole::put_together(parts, limit),
                workers,
                ends: Vec::new(alloc),
            };
            return Err(NotWorked { fault, worked });
        }
    };
    let ran = run_parts(rt, parts, workers, steering, ending, rooms);
    let Ran {
        parts,
        workers,
        ends,
        has_begun,
    } = ran;
    let runtime = Whole::put_together(parts, limit);
    answer(runtime, workers, ends, has_begun, ending)
}
