//! How long a single callback waits, from its call to its run.

ghost use Rattle.std.specs.Prelude.{◌≡◌, IfOk, length, vec_len};
ghost use Rattle.std.specs.Arc.{arc_value};

use crate::beside::{join_beside, start_beside};
use crate::jobs::{Timing, Work, nanoseconds};
use crate::plan::Plan;
use rcu_parts::{AllParts, Control, Parts, Processor};
use std::alloc::{AllocError, Global};
use std::rt::Clock;
use std::sync::atomic::{AtomicU64, Ordering};
use std::sync::{Arc, Wait};
use std::thread;
use std::thread::Threads;
use std::time::Duration;

/// How often a processor ticks at most between two calls.
const MOST_TICKS: u64 = 1_000_000_000;

/// For how many microseconds the processor ticks on after the last call.
const AFTER: u64 = 50_000;

/// Places for so many times.
fn places(alloc: Global, many: u64) -> Result<Vec<AtomicU64>, AllocError>
    ensures { IfOk result (λ places. vec_len places ≡ many) }
{
    let mut places = Vec::new(alloc);
    for _place in 0..many {
        places.push(AtomicU64::new(0))?;
    }
    Ok(places)
}

/// The same, to be shared with the jobs that note them.
fn shared_places(alloc: Global, many: u64) -> Result<Arc<Vec<AtomicU64>>, AllocError>
    ensures { IfOk result (λ places. vec_len (arc_value places) ≡ many) }
{
    Ok(Arc::new(alloc, places(alloc, many)?)?)
}

/// Reports and ticks until the clock reads this time.
fn tick_until(
    clock: &impl Clock,
    processor: &mut Processor<Work>,
    moment: u64,
    until: u64,
    nap: u64,
) {
    for _ in 0..MOST_TICKS {
        processor.quiescent();
        processor.tick(moment);
        if nanoseconds(clock) >= until {
            return;
        }
        if nap > 0 {
            thread::sleep(clock, Duration::from_micros(nap));
        }
    }
}

/// A job that notes how long it waits from now on. None for want of memory.
fn timed(
    clock: &HostRuntime,
    alloc: Global,
    place: u64,
    times: &Arc<Vec<AtomicU64>>,
) -> Option<Work> {
    let timing = Timing {
        clock: *clock,
        place,
        began: nanoseconds(clock),
        times: Arc::try_clone(times).ok()?,
    };
    Some(Work::Timed(Box::new(alloc, timing).ok()?))
}

/// Calls with a job that notes how long it waits. Answers whether the call was accepted.
fn call_timed(
    clock: &HostRuntime,
    alloc: Global,
    processor: &mut Processor<Work>,
    moment: u64,
    place: u64,
    times: &Arc<Vec<AtomicU64>>,
) -> bool {
    match timed(clock, alloc, place, times) {
        Some(job) => processor.call_rcu(moment, job).is_ok(),
        None => false,
    }
}

/// Calls by the plan, each call at a moment of its own.
fn call_spaced(
    clock: &HostRuntime,
    alloc: Global,
    processor: &mut Processor<Work>,
    times: &Arc<Vec<AtomicU64>>,
    plan: &Plan,
) {
    let mut until = nanoseconds(clock);
    let mut moment: u64 = 1;
    for place in 0..plan.calls {
        if !call_timed(clock, alloc, processor, moment, place, times) {
            return;
        }
        until = until.saturating_add(plan.spacing.saturating_mul(1_000));
        tick_until(clock, processor, moment, until, plan.nap);
        moment = moment.saturating_add(1);
    }
    let end = until.saturating_add(AFTER * 1_000);
    tick_until(clock, processor, moment, end, plan.nap);
}

/// The times that were noted, in nanoseconds.
fn noted(alloc: Global, places: &[AtomicU64]) -> Result<Vec<u64>, AllocError>
    ensures { IfOk result (λ times. vec_len times ≡ length places.now) }
{
    let mut times = Vec::new(alloc);
    for place in places {
        times.push(place.load(Ordering::SeqCst))?;
    }
    Ok(times)
}

/// Has the one processor call by the plan, in this thread.
fn lead(
    clock: &HostRuntime,
    alloc: Global,
    control: &mut Control,
    processors: Vec<Processor<Work>>,
    times: &Arc<Vec<AtomicU64>>,
    plan: &Plan,
) {
    let mut processors = processors;
    if let Some(processor) = processors.first_mut() {
        call_spaced(clock, alloc, processor, times, plan);
    }
    control.finish();
}

/// Runs all other parts beside the one processor.
fn run_beside<R: Threads + Wait + Clock + Copy + Send + 'static>(
    clock: &HostRuntime,
    rt: &R,
    alloc: Global,
    parts: Parts<Work>,
    times: &Arc<Vec<AtomicU64>>,
    plan: &Plan,
) {
    let AllParts {
        processors,
        driver,
        groups,
        hands,
        mut control,
    } = parts;
    let beside = start_beside(rt, alloc, driver, groups, hands);
    lead(clock, alloc, &mut control, processors, times, plan);
    join_beside(rt, beside);
}

/// How long each callback waited, in nanoseconds; 0 where it didn't run.
///
/// # Errors
///
/// Want of memory.
pub fn wait_times<R: Threads + Wait + Clock + Copy + Send + 'static>(
    clock: &HostRuntime,
    rt: &R,
    alloc: Global,
    parts: Parts<Work>,
    plan: &Plan,
) -> Result<Vec<u64>, AllocError>
    ensures { IfOk result (λ times. vec_len times ≡ plan.now.calls) }
{
    let times = shared_places(alloc, plan.calls)?;
    run_beside(clock, rt, alloc, parts, &times, plan);
    noted(alloc, times.as_slice())
}
