//! Threads of their own for parts. Each gives back the part that it was given.

ghost use Rattle.std.specs.Prelude.{◌≡◌, IfSome, MatchResult, None};
ghost use Rattle.std.specs.List.{AllZip};
ghost use denote.Param.Send.{IsSend};
ghost use Rattle.rcu_part_threads.specs.Parts.{GivesBack, GroupStays, HandStays, ProcessorStays};

use crate::crew::Crew;
use crate::fault::ThreadsFault;
use crate::promises::{Running, RunningDriver, RunningGroup, RunningHand, Stays};
use crate::runs::Runs;
use rcu_jobs::Job;
use rcu_part_control::Driver;
use rcu_part_group::Group;
use rcu_part_hand::Hand;
use rcu_part_processor::Processor;
use std::alloc::Global;
use std::rt::Clock;
use std::snapshot::Snapshot;
use std::sync::Wait;
use std::thread;
use std::thread::Threads;

/// Starts a thread that runs the driver. None where none can be made.
pub fn start_driver<R: Threads + Wait + Clock + Copy + Send + 'static>(
    rt: &R,
    driver: Driver,
) -> Option<RunningDriver>
    ensures { IfSome result (λ thread. thread.promise.0.value ≡ driver) }
{
    let own = *rt;
    let stays = Stays(Snapshot::of(&driver));
    thread::spawn_with(rt, stays, move || driver.run(&own)).ok()
}

/// Joins the thread of the driver, and gives what it gave back.
///
/// # Errors
///
/// There is none.
pub fn join_driver<R: Threads>(
    rt: &R,
    thread: Option<RunningDriver>,
) -> Result<Driver, ThreadsFault>
    ensures { MatchResult result (λ driver. GivesBack (λ t. t.promise.0.value) thread driver)
        (λ fault. (thread ≡ None) × (fault ≡ ThreadsFault.CannotRun)) }
{
    match thread {
        Some(thread) => Ok(thread.join(rt)),
        None => Err(ThreadsFault::CannotRun),
    }
}

/// Runs a group until the runtime is halted.
fn run_group<J: Job<Receipt = u64>, R: Wait + Clock>(group: Group<J>, rt: &R) -> Group<J>
    ensures { GroupStays group result }
{
    group.run(rt)
}

/// Runs a hand until the runtime is halted.
fn run_hand<J: Job<Receipt = u64>, R: Wait + Clock>(hand: Hand<J>, rt: &R) -> Hand<J>
    ensures { HandStays J.key_of J.gives hand result }
{
    hand.run(rt)
}

/// Runs a processor until the runtime is halted.
fn run_processor<J: Job<Receipt = u64>, R: Wait + Clock>(
    processor: Processor<J>,
    rt: &R,
) -> Processor<J>
    ensures { ProcessorStays J.key_of J.gives processor result }
{
    processor.run(rt)
}

/// Starts a thread that runs a part so. None where none can be made.
fn start<
    P: Runs + 'static,
    R: Threads + Copy + Send + 'static,
    F: FnOnce(P, R) -> P::Back + Send + 'static,
>(rt: &R, part: P, run: F) -> Option<Running<P>>
where
    P::Back: 'static,
    requires runs { F.pre run part rt.now }
    requires keeps { (b : P.Back) → F.post run part rt.now b → P.comes_back part b }
    ensures { IfSome result (λ thread. thread.promise.0.value ≡ part) }
{
    let own = *rt;
    let stays = Stays(Snapshot::of(&part));
    let run_part = move || -> P::Back
        requires { F.pre run part own }
        ensures { F.post run part own result }
    { run(part, own) };
    let Ok(thread) = thread::spawn_with(rt, stays, run_part) else {
        return None;
    };
    Some(thread)
}

/// Starts a thread for each part, which runs it so.
pub(crate) fn start_all<
    P: Runs + 'static,
    R: Threads + Copy + Send + 'static,
    F: FnOnce(P, R) -> P::Back + Copy + Send + 'static,
>(rt: &R, alloc: Global, parts: Vec<P>, run: F) -> Crew<Running<P>>
where
    P::Back: 'static,
    requires runs { (part : P) → F.pre run part rt.now }
    requires keeps { (part : P) (b : P.Back) → F.post run part rt.now b → P.comes_back part b }
    ensures { result.fault ≡ None
        → AllZip (λ part thread. thread.promise.0.value ≡ part) parts.items
        result.threads.items }
{
    let Ok(mut threads) = Vec::with_capacity(alloc, parts.len()) else {
        return Crew::none(alloc);
    };
    for part in parts {
        let Some(thread) = start(rt, part, run) else {
            return Crew::partial(threads);
        };
        threads.push_reserved(thread);
    }
    Crew::whole(threads)
}

/// Starts a thread for each group.
pub fn start_groups<
    J: Job<Receipt = u64> + 'static,
    R: Threads + Wait + Clock + Copy + Send + 'static,
>(rt: &R, alloc: Global, groups: Vec<Group<J>>) -> Crew<RunningGroup<J>>
    ensures { result.fault ≡ None
        → AllZip (λ group thread. thread.promise.0.value ≡ group) groups.items
        result.threads.items }
{
    let run = |group: Group<J>, own: R| -> Group<J>
        requires { IsSend J.row × IsSend R.row }
        ensures { GroupStays group result }
    { run_group(group, &own) };
    start_all(rt, alloc, groups, run)
}

/// Starts a thread for each hand.
pub fn start_hands<
    J: Job<Receipt = u64> + 'static,
    R: Threads + Wait + Clock + Copy + Send + 'static,
>(rt: &R, alloc: Global, hands: Vec<Hand<J>>) -> Crew<RunningHand<J>>
    ensures { result.fault ≡ None
        → AllZip (λ hand thread. thread.promise.0.value ≡ hand) hands.items result.threads.items }
{
    let run = |hand: Hand<J>, own: R| -> Hand<J>
        requires { IsSend J.row × IsSend R.row }
        ensures { HandStays J.key_of J.gives hand result }
    { run_hand(hand, &own) };
    start_all(rt, alloc, hands, run)
}

/// Starts a thread for each processor.
pub(crate) fn start_processors<
    J: Job<Receipt = u64> + 'static,
    R: Threads + Wait + Clock + Copy + Send + 'static,
>(rt: &R, alloc: Global, processors: Vec<Processor<J>>) -> Crew<Running<Processor<J>>>
    ensures { result.fault ≡ None
        → AllZip (λ processor thread. thread.promise.0.value ≡ processor) processors.items
        result.threads.items }
{
    let run = |processor: Processor<J>, own: R| -> Processor<J>
        requires { IsSend J.row × IsSend R.row }
        ensures { ProcessorStays J.key_of J.gives processor result }
    { run_processor(processor, &own) };
    start_all(rt, alloc, processors, run)
}
