//! Threads in which processors are driven.

ghost use Rattle.std.specs.Prelude.{◌≡◌, ◌≢◌, ◌+◌, ◌/◌, ◌%◌, ◌<◌, ◌≤◌, ◌↔◌, [], length, IfOk, IfSome, IsTrue, None, vec_len};
ghost use Rattle.std.specs.List.{AllZip};
ghost use Rattle.check_torture.specs.Acts.{ActsBeside};
ghost use Rattle.check_torture.specs.Endings.{place_of, more_of};
ghost use Rattle.check_torture.specs.Ends.{CpuKeeps};
ghost use Rattle.check_torture.specs.Kept.{GoesOn, Keeps};

use crate::acts::{Actor, Called};
use crate::chance::Chance;
use crate::counters::Counters;
use crate::plan::{Ending, Plan};
use crate::retire::Retire;
use crate::shared::Shared;
use rcu_parts::Processor;
use rcu_threads::{Crew, ThreadsFault, join_all};
use std::alloc::{AllocError, Global};
use std::rt::Clock;
use std::snapshot::Snapshot;
use std::sync::{Arc, Wait};
use std::thread;
use std::thread::{Promise, PromisedHandle, Threads};

/// How many calls of a processor may be refused before it gives up.
pub(crate) const MOST_REFUSED: u64 = 1_000;

/// How many calls a processor's thread makes beyond its share, where the run ends by a shut in the midst of calls.
pub(crate) const MORE: u64 = 2_000;

/// In how many parts a processor's thread accepts its share; after each it is away for a while.
const PARTS: u64 = 8;

/// How often a processor's thread does something else at most, while it awaits that all have accepted their shares.
const MOST_ACTS: u64 = 1_000_000;

/// What a processor's thread is to do.
#[derive(Clone, Copy)]
pub(crate) struct Orders {
    /// The processor's number.
    pub(crate) cpu: u64,
    /// The seed and the run, by which its random numbers are drawn.
    pub(crate) seed: u64,
    pub(crate) run: u64,
    /// How many callbacks are to be accepted.
    pub(crate) share: u64,
    /// How many calls more are made then, until one is refused since the processor is shut.
    pub(crate) more: u64,
}

/// How many calls a processor's thread makes beyond its share in a run that ends so.
fn more_after(ending: Ending) -> u64
    ensures { result ≡ more_of ending }
{
    match ending {
        Ending::Shut => MORE,
        Ending::DrainThenShut => 0,
        Ending::Drain => 0,
        Ending::Halt => 0,
    }
}

impl Orders {
    /// Those of processor `p` in a run.
    fn of(plan: &Plan, run: u64, p: u64) -> Orders
        ensures cpu { result.cpu ≡ p }
        ensures drawn { (result.seed ≡ plan.now.seed) × (result.run ≡ run) }
        ensures first { p < plan.now.callbacks % plan.now.processors
            → result.share ≡ plan.now.callbacks / plan.now.processors + 1 }
        ensures others { plan.now.callbacks % plan.now.processors ≤ p
            → result.share ≡ plan.now.callbacks / plan.now.processors }
        // (where the run ends by a shut in the midst of calls)
        ensures more { place_of plan.now.seed run ≡ 1 → result.more ≡ MORE }
        ensures none { place_of plan.now.seed run ≢ 1 → result.more ≡ 0 }
    {
        Orders {
            cpu: p,
            seed: plan.seed,
            run,
            share: plan.share(p),
            more: more_after(plan.ending(run)),
        }
    }
}

/// What a processor's thread counted.
#[derive(Drop)]
pub(crate) struct Log {
    /// The keys of the jobs that were accepted, in order.
    pub(crate) keys: Vec<u64>,
    pub(crate) counters: Counters,
}

/// What a processor's thread gives back.
#[derive(Drop)]
pub(crate) struct Driven {
    pub(crate) processor: Processor<Retire>,
    pub(crate) log: Log,
}

/// The promise of a processor's thread: what comes back is the same processor, which accepted as many callbacks as there are
/// keys.
#[derive(Drop)]
pub(crate) struct Drives(pub(crate) Snapshot<Processor<Retire>>);

impl Promise<Driven> for Drives {
    ghost use Rattle.std.specs.Prelude.{length};
    ghost use Rattle.check_torture.specs.Kept.{Keeps};

    ghost kept_by = { λ p d. Keeps 0 (length d.log.keys.items) p.0.value d.processor };
}

/// A thread that drives a processor.
pub(crate) type Driving = PromisedHandle<Driven, Drives>;

impl Actor {
    /// Whether so many callbacks are accepted.
    fn has_accepted(&self, share: u64) -> bool
        ensures { IsTrue result ↔ (share ≤ vec_len self.now.keys) }
    {
        self.keys.len() as u64 >= share
    }

    /// Accepts so many callbacks in all, unless too many calls are refused.
    fn take_share(&mut self, share: u64)
        ensures { GoesOn self.old self.new }
    {
        for _ in 0..share.saturating_add(MOST_REFUSED) {
            if self.has_accepted(share) {
                return;
            }
            let called = self.round();
            if called == Called::Shut {
                return;
            }
        }
    }

    /// Whether all other processors have accepted their shares.
    fn is_last(&self) -> bool {
        self.shared.have_arrived()
    }

    /// Goes on without calls until all processors have accepted their shares; but not for ever.
    fn await_others(&mut self)
        ensures { ActsBeside self.old self.new }
    {
        for _ in 0..MOST_ACTS {
            if self.is_last() {
                return;
            }
            self.act();
        }
    }

    /// Makes so many calls more, until the processor is shut.
    fn take_more(&mut self, more: u64)
        ensures { GoesOn self.old self.new }
    {
        if more == 0 {
            return;
        }
        self.await_others();
        for _ in 0..more {
            let called = self.round();
            if called == Called::Shut {
                return;
            }
        }
    }
}

/// Accepts a share of callbacks in parts, and is away for a while after each.
fn take_in_parts(actor: Actor, share: u64) -> Actor
    ensures { GoesOn actor result }
{
    let mut actor = actor;
    for part in 1..=PARTS {
        actor.take_share((share / PARTS).saturating_mul(part));
        actor = actor.away_for_a_while();
    }
    actor.take_share(share);
    actor
}

/// Goes on as it is ordered, and then has the processor report and tick until the runtime is halted.
fn go_on<R: Wait + Clock>(actor: Actor, orders: Orders, rt: &R) -> Driven
    ensures { Keeps (length actor.keys.items) (length result.log.keys.items) actor.processor
        result.processor }
{
    let mut actor = take_in_parts(actor, orders.share);
    actor.shared.arrive();
    actor.take_more(orders.more);
    let Actor {
        processor,
        keys,
        counters,
        ..
    } = actor;
    Driven {
        processor: processor.run(rt),
        log: Log { keys, counters },
    }
}

/// Drives a processor as it is ordered, and then has it report and tick until the runtime is halted.
fn drive<R: Wait + Clock>(
    alloc: Global,
    processor: Processor<Retire>,
    shared: Arc<Shared>,
    orders: Orders,
    rt: &R,
) -> Driven
    ensures { Keeps 0 (length result.log.keys.items) processor result.processor }
{
    let chance = Chance::new(orders.seed, orders.run, orders.cpu.saturating_add(1));
    let actor = Actor::new(alloc, processor, orders.cpu, shared, chance);
    go_on(actor, orders, rt)
}

/// Starts a thread that drives a processor. None where none can be made, or for want of memory.
fn start_actor<R: Threads + Wait + Clock + Copy + Send + 'static>(
    rt: &R,
    alloc: Global,
    processor: Processor<Retire>,
    shared: &Arc<Shared>,
    orders: Orders,
) -> Option<Driving>
    ensures { IfSome result (λ thread. thread.promise.0.value ≡ processor) }
{
    let own = *rt;
    let Ok(shared) = Arc::try_clone(shared) else {
        return None;
    };
    let drives = Drives(Snapshot::of(&processor));
    let drive = move || -> Driven
        ensures { Keeps 0 (length result.log.keys.items) processor result.processor }
    { drive(alloc, processor, shared, orders, &own) };
    let Ok(thread) = thread::spawn_with(rt, drives, drive) else {
        return None;
    };
    Some(thread)
}

/// Starts a thread for each processor, which drives it by the plan of this run.
pub(crate) fn start_actors<R: Threads + Wait + Clock + Copy + Send + 'static>(
    rt: &R,
    alloc: Global,
    processors: Vec<Processor<Retire>>,
    shared: &Arc<Shared>,
    plan: &Plan,
    run: u64,
) -> Crew<Driving>
    ensures { result.fault ≡ None
        → AllZip (λ processor thread. thread.promise.0.value ≡ processor) processors.items
        result.threads.items }
{
    let Ok(mut threads) = Vec::with_capacity(alloc, processors.len()) else {
        return Crew::none(alloc);
    };
    let mut cpu: u64 = 0;
    for processor in processors {
        let orders = Orders::of(plan, run, cpu);
        let Some(thread) = start_actor(rt, alloc, processor, shared, orders) else {
            return Crew::partial(threads);
        };
        threads.push_reserved(thread);
        cpu = cpu.saturating_add(1);
    }
    Crew::whole(threads)
}

/// The processors that threads gave back, and what was counted, in order.
#[derive(Drop)]
pub(crate) struct Parted {
    pub(crate) processors: Vec<Processor<Retire>>,
    pub(crate) logs: Vec<Log>,
}

/// Parts the processors from the logs.
///
/// # Errors
///
/// Want of memory.
fn part(alloc: Global, all: Vec<Driven>) -> Result<Parted, AllocError>
    ensures { IfOk result (λ parted.
        AllZip (λ d p. d.processor ≡ p) all.items parted.processors.items) }
{
    let mut processors = Vec::with_capacity(alloc, all.len())?;
    let mut logs = Vec::with_capacity(alloc, all.len())?;
    for driven in all {
        let Driven { processor, log } = driven;
        processors.push_reserved(processor);
        logs.push_reserved(log);
    }
    Ok(Parted { processors, logs })
}

/// Joins the threads of processors, and parts what they gave back.
///
/// # Errors
///
/// Not all threads could be made, or want of memory.
pub(crate) fn join_actors<R: Threads>(
    rt: &R,
    alloc: Global,
    actors: Crew<Driving>,
) -> Result<Parted, ThreadsFault>
    ensures whole { IfOk result (λ _. actors.fault ≡ None) }
    ensures kept { IfOk result (λ parted.
        AllZip (λ thread p. CpuKeeps thread.promise.0.value p) actors.threads.items
        parted.processors.items) }
{
    match part(alloc, join_all(rt, actors)?) {
        Ok(parted) => Ok(parted),
        Err(_) => Err(ThreadsFault::Memory),
    }
}
