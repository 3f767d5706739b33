//! The run of all processors of one open, from the first call until a barrier with all tickets has passed.

ghost use Rattle.std.specs.Prelude.{◌≡◌, map, All, IfOk, MatchResult};
ghost use Rattle.std.specs.List.{AllZip};
ghost use Rattle.rcu_part_control.specs.Parts.{control_view, SameControl};
ghost use Rattle.rcu_part_threads.specs.Barriers.{BreaksOff, PassesAndHalts, PassesBy};
ghost use Rattle.rcu_part_threads.specs.Calls.{HaveAnswered};
ghost use Rattle.rcu_part_threads.specs.Runs.{AreOver, HasRun};

use crate::callers::{AllCalled, Answered, join_callers, split, start_callers};
use crate::crew::{Crew, join_all};
use crate::fault::ThreadsFault;
use crate::shares::Caller;
use crate::threads::start_processors;
use rcu_jobs::{Job, Ticket};
use rcu_part_control::Control;
use rcu_part_processor::Processor;
use std::alloc::Global;
use std::rt::Clock;
use std::sync::Wait;
use std::thread::Threads;

/// Opens a barrier with these tickets, and waits until the callback of each has run; but not where a processor has no
/// thread, for which it would wait in vain.
///
/// # Errors
///
/// A processor has no thread, or the barrier is refused.
fn pass_barrier<R: Wait + Clock, H>(
    rt: &R,
    control: &mut Control,
    crew: &Crew<H>,
    tickets: &[Ticket],
) -> Result<(), ThreadsFault>
    ensures same { SameControl control.old control.new }
    ensures passed { IfOk result (λ _. AreOver (control_view control.new) tickets.now) }
    ensures control { PassesBy result tickets.now control.old control.new }
{
    if !crew.is_whole() {
        return Err(ThreadsFault::CannotRun);
    }
    let Ok(barrier) = control.barrier(tickets) else {
        return Err(ThreadsFault::CannotRun);
    };
    barrier.wait(rt, control);
    Ok(())
}

/// Has each processor call with its jobs, and then runs all processors until a barrier with all tickets has passed; but
/// only where the other parts run (`are_running`).
///
/// # Errors
///
/// A thread can't be made, the barrier is refused, or want of memory. All threads that were started have ended.
pub fn run_processors<
    J: Job<Receipt = u64> + 'static,
    R: Threads + Wait + Clock + Copy + Send + 'static,
>(
    rt: &R,
    alloc: Global,
    control: &mut Control,
    are_running: bool,
    callers: Vec<Caller<Processor<J>, J>>,
    room: Vec<Ticket>,
) -> Result<Answered<Processor<J>, J>, ThreadsFault>
    ensures same { SameControl control.old control.new }
    ensures control { MatchResult result (λ _. PassesAndHalts control.old control.new)
        (λ _. BreaksOff control.old control.new) }
    ensures ran { IfOk result (λ ended.
        AllZip (HasRun J.key_of J.gives (control_view control.new))
        (map (λ c. c.processor) callers.items) ended.processors.items) }
    ensures answered { All (λ c. c.processor.state.accepted ≡ 0) callers.items
        → IfOk result (λ ended.
        HaveAnswered J.key_of (map (λ c. c.jobs.items) callers.items)
        (map (λ own. own.items) ended.answers.items) ended.processors.items) }
{
    if !are_running {
        return Err(ThreadsFault::CannotRun);
    }
    let callers = start_callers(rt, alloc, callers);
    let all = join_callers(rt, alloc, callers, room)?;
    let AllCalled { called, tickets } = all;
    let Ok(answered) = split(alloc, called) else {
        return Err(ThreadsFault::Memory);
    };
    let Answered {
        processors,
        answers,
    } = answered;
    let crew = start_processors(rt, alloc, processors);
    let passed = pass_barrier(rt, control, &crew, tickets.as_slice());
    control.finish();
    let processors = join_all(rt, crew)?;
    passed?;
    Ok(Answered {
        processors,
        answers,
    })
}
