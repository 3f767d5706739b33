//! A run of all parts: each processor calls in a thread of its own, and then all of them run there until a barrier has passed.

use crate::beside::{join_beside, ran_by, start_beside};
use crate::calls::{Called, join_callers, start_callers};
use crate::helper::{Helper, start_helper};
use crate::jobs::{Work, nanoseconds};
use crate::plan::Plan;
use rcu_parts::{AllParts, Control, Parts, Processor};
use std::alloc::Global;
use std::rt::Clock;
use std::sync::{Arc, Barrier, Wait};
use std::thread::{JoinHandle, Threads};

/// What a run measured, in nanoseconds.
#[derive(Clone, Copy)]
pub struct Figures {
    /// How many callbacks ran.
    pub ran: u64,
    /// From the opening of the gate until all calls were made.
    pub called: u64,
    /// The longest that the calls of one thread took.
    pub own: u64,
    /// From the opening of the gate until the barrier passed.
    pub whole: u64,
}

/// Waits until all that was accepted has run.
fn drain<R: Wait + Clock>(rt: &R, control: &mut Control) {
    if let Ok(barrier) = control.barrier(&[]) {
        barrier.wait(rt, control);
    }
}

/// Opens the gate to the processors' threads, and drains and halts the runtime once all have made their calls.
fn time_run<R: Threads + Wait + Clock>(
    rt: &R,
    control: &mut Control,
    gate: &Barrier,
    callers: Vec<JoinHandle<Called>>,
) -> Figures {
    gate.wait(rt);
    let began = nanoseconds(rt);
    gate.wait(rt);
    let called = nanoseconds(rt).saturating_sub(began);
    drain(rt, control);
    let whole = nanoseconds(rt).saturating_sub(began);
    control.finish();
    let Called { ran, spent } = join_callers(rt, callers);
    Figures {
        ran,
        called,
        own: spent,
        whole,
    }
}

/// Has each processor call in a thread of its own, and then run there until all callbacks have run. None where a thread can't
/// be made, or for want of memory.
fn call_and_drain<R: Threads + Wait + Clock + Copy + Send + 'static>(
    rt: &R,
    alloc: Global,
    control: &mut Control,
    processors: Vec<Processor<Work>>,
    plan: Plan,
) -> Option<Figures> {
    let waiting = processors.len().saturating_add(1);
    let gate = Arc::new(alloc, Barrier::new(waiting)).ok()?;
    let callers = start_callers(rt, alloc, processors, &gate, plan)?;
    Some(time_run(rt, control, &gate, callers))
}

/// The figures with what hands ran, of a run that came to its end.
fn with_hands(figures: Option<Figures>, ran: Option<u64>) -> Option<Figures> {
    let mut figures = figures?;
    figures.ran = figures.ran.saturating_add(ran?);
    Some(figures)
}

/// Runs all parts by a plan, driver, groups and hands in a thread each. None where a thread can't be made, or for want of
/// memory.
fn measure_threads<R: Threads + Wait + Clock + Copy + Send + 'static>(
    rt: &R,
    alloc: Global,
    parts: Parts<Work>,
    plan: Plan,
) -> Option<Figures> {
    let AllParts {
        processors,
        driver,
        groups,
        hands,
        mut control,
    } = parts;
    let beside = start_beside(rt, alloc, driver, groups, hands);
    let figures = call_and_drain(rt, alloc, &mut control, processors, plan);
    control.finish();
    with_hands(figures, join_beside(rt, beside))
}

/// Runs all parts by a plan, driver, groups and hands in one thread. None where a thread can't be made, or for want of
/// memory.
fn measure_helper<R: Threads + Wait + Clock + Copy + Send + 'static>(
    rt: &R,
    alloc: Global,
    parts: Parts<Work>,
    plan: Plan,
) -> Option<Figures> {
    let AllParts {
        processors,
        driver,
        groups,
        hands,
        mut control,
    } = parts;
    let helper = Helper {
        driver,
        groups,
        hands,
    };
    let thread = start_helper(rt, helper)?;
    let figures = call_and_drain(rt, alloc, &mut control, processors, plan);
    control.finish();
    let helper = thread.join(rt);
    with_hands(figures, Some(ran_by(helper.hands.as_slice())))
}

/// Runs all parts by a plan. None where a thread can't be made, or for want of memory.
pub fn measure<R: Threads + Wait + Clock + Copy + Send + 'static>(
    rt: &R,
    alloc: Global,
    parts: Parts<Work>,
    plan: Plan,
) -> Option<Figures> {
    if plan.one_helper {
        measure_helper(rt, alloc, parts, plan)
    } else {
        measure_threads(rt, alloc, parts, plan)
    }
}
