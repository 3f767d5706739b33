//! Threads in which processors call, and then run.

ghost use denote.Param.Send.{IsSend};
ghost use Rattle.std.specs.Prelude.{◌≡◌, ◌+◌, ◌<◌, ◌≤◌, ◌↔◌, IsTrue, false, min};

use crate::jobs::{Work, nanoseconds};
use crate::plan::Plan;
use rcu_parts::Processor;
use rcu_threads::ThreadsFault;
use std::alloc::Global;
use std::rt::Clock;
use std::sync::{Arc, Barrier, Wait};
use std::thread;
use std::thread::{JoinHandle, Threads};

/// What a processor's thread measured.
#[derive(Clone, Copy)]
pub(crate) struct Called {
    /// How many callbacks the processor ran itself.
    pub(crate) ran: u64,
    /// How many nanoseconds all calls took, reports and ticks included.
    pub(crate) spent: u64,
}

/// When a processor reports and ticks, and at which moment.
#[derive(Drop)]
struct Pace {
    calls: u64,
    ticks: u64,
    moment: u64,
}

impl Pace {
    /// Counts a call. Answers whether the processor is to report and tick.
    fn call(&mut self, plan: &Plan) -> bool
        ensures due { IsTrue result ↔ (plan.now.every ≤ self.old.calls + 1) }
        ensures again { IsTrue result → self.new.calls ≡ 0 }
        ensures counted { result ≡ false → self.new.calls ≡ self.old.calls + 1 }
        ensures stays { (self.new.ticks ≡ self.old.ticks) × (self.new.moment ≡ self.old.moment) }
    {
        self.calls = self.calls.saturating_add(1);
        let due = self.calls >= plan.every;
        if due {
            self.calls = 0;
        }
        due
    }

    /// Counts a tick, after which the moment may be a new one.
    fn tick(&mut self, plan: &Plan)
        ensures again { plan.now.pace ≤ self.old.ticks + 1 → self.new.ticks ≡ 0 }
        ensures rises { plan.now.pace ≤ self.old.ticks + 1
            → self.new.moment ≡ min (self.old.moment + 1) u64.MAX }
        ensures counted { self.old.ticks + 1 < plan.now.pace
            → (self.new.ticks ≡ self.old.ticks + 1) × (self.new.moment ≡ self.old.moment) }
        ensures stays { self.new.calls ≡ self.old.calls }
    {
        self.ticks = self.ticks.saturating_add(1);
        if self.ticks >= plan.pace {
            self.ticks = 0;
            self.moment = self.moment.saturating_add(1);
        }
    }
}

/// Makes one call. Answers whether it was accepted.
fn call_one(processor: &mut Processor<Work>, alloc: Global, boxed: bool, moment: u64) -> bool {
    match Work::new(alloc, boxed) {
        Ok(job) => processor.call_rcu(moment, job).is_ok(),
        Err(_) => false,
    }
}

/// Makes all calls of a plan, up to one that is refused, with the reports and ticks.
fn make_calls(processor: &mut Processor<Work>, alloc: Global, plan: &Plan) {
    let mut pace = Pace {
        calls: 0,
        ticks: 0,
        moment: 0,
    };
    for _ in 0..plan.calls {
        if !call_one(processor, alloc, plan.boxed, pace.moment) {
            return;
        }
        if pace.call(plan) {
            processor.quiescent();
            processor.tick(pace.moment);
            pace.tick(plan);
        }
    }
}

/// Makes all calls of a plan. Answers how many nanoseconds they took.
fn time_calls(
    clock: &impl Clock,
    alloc: Global,
    processor: &mut Processor<Work>,
    plan: &Plan,
) -> u64 {
    let began = nanoseconds(clock);
    make_calls(processor, alloc, plan);
    nanoseconds(clock).saturating_sub(began)
}

/// Waits at the gate, makes all calls of a plan, waits there until all others have, and runs the processor until the runtime is
/// halted.
fn call_and_run<R: Wait + Clock>(
    rt: &R,
    alloc: Global,
    processor: Processor<Work>,
    gate: &Barrier,
    plan: Plan,
) -> Called {
    let mut processor = processor;
    gate.wait(rt);
    let spent = time_calls(rt, alloc, &mut processor, &plan);
    gate.wait(rt);
    let ran = processor.run(rt).ran() as u64;
    Called { ran, spent }
}

/// Starts a thread in which a processor calls and runs. None where none can be made.
fn start_caller<R: Threads + Wait + Clock + Copy + Send + 'static>(
    rt: &R,
    alloc: Global,
    processor: Processor<Work>,
    gate: &Arc<Barrier>,
    plan: Plan,
) -> Option<JoinHandle<Called>> {
    let own = *rt;
    let gate = Arc::try_clone(gate).ok()?;
    let call = move || -> Called
        requires { IsSend R.row }
    { call_and_run(&own, alloc, processor, &gate, plan) };
    thread::spawn(rt, call).ok()
}

/// Starts a thread for each processor, in which it calls and runs. None where not all can be made.
pub(crate) fn start_callers<R: Threads + Wait + Clock + Copy + Send + 'static>(
    rt: &R,
    alloc: Global,
    processors: Vec<Processor<Work>>,
    gate: &Arc<Barrier>,
    plan: Plan,
) -> Option<Vec<JoinHandle<Called>>> {
    let mut threads = Vec::new(alloc);
    for processor in processors {
        let thread = start_caller(rt, alloc, processor, gate, plan)?;
        threads.push(thread).ok()?;
    }
    Some(threads)
}

/// Joins the threads of all processors. Answers how many callbacks these ran themselves, and the longest time that the calls
/// of one took.
pub(crate) fn join_callers<R: Threads>(rt: &R, threads: Vec<JoinHandle<Called>>) -> Called {
    let mut all = Called { ran: 0, spent: 0 };
    for thread in threads {
        let Called { ran, spent } = thread.join(rt);
        all.ran = all.ran.saturating_add(ran);
        all.spent = all.spent.max(spent);
    }
    all
}
