//! Processors that call with their jobs in threads of their own.

ghost use Rattle.std.specs.Prelude.{◌≡◌, ◌<◌, ◌≤◌, [], ◌∷◌, ◌++◌, map, IfOk, OnOk, None};
ghost use Rattle.std.specs.List.{AllZip};
ghost use denote.Param.Send.{IsSend};
ghost use Rattle.rcu_part_threads.specs.Calls.{CallsInTurn, CallsThenTurns, HasAnswered, HasCalled};
ghost use Rattle.rcu_part_threads.specs.Dealing.{tickets_in};

use crate::answer::Answer;
use crate::crew::Crew;
use crate::fault::ThreadsFault;
use crate::promises::Stays;
use crate::shares::Caller;
use crate::threads::start_all;
use rcu_jobs::{Job, Ticket};
use rcu_part_processor::Processor;
use std::alloc::{AllocError, Global};
use std::rt::Clock;
use std::sync::Wait;
use std::thread::{PromisedHandle, Threads};

/// What the thread of a processor that called gives back: the processor, and what each of its calls answered, in order.
#[derive(Drop)]
pub struct Called<P, J> {
    pub processor: P,
    pub answers: Vec<Answer<J>>,
}

/// One call, after which the processor reports and ticks.
fn call_one<J: Job<Receipt = u64>>(processor: &mut Processor<J>, moment: u64, job: J) -> Answer<J>
    ensures turns { CallsThenTurns J.key_of moment job result processor.old.state
        processor.new.state }
    ensures answered { HasAnswered J.key_of J.gives (job ∷ []) (result ∷ []) processor.old
        processor.new }
{
    let answer = processor.call_rcu(moment, job);
    processor.quiescent();
    processor.tick(moment);
    answer
}

/// Calls with each job in turn, at the moments 0, 1, ..
fn call_all<J: Job<Receipt = u64>>(caller: Caller<Processor<J>, J>) -> Called<Processor<J>, J>
    ensures turns { CallsInTurn J.key_of 0 caller.jobs.items result.answers.items
        caller.processor.state result.processor.state }
    ensures answered { HasAnswered J.key_of J.gives caller.jobs.items result.answers.items
        caller.processor result.processor }
{
    let Caller {
        mut processor,
        jobs,
        mut answers,
    } = caller;
    let mut moment: u64 = 0;
    for job in jobs {
        let answer = call_one(&mut processor, moment, job);
        answers.push_reserved(answer);
        moment = moment.saturating_add(1);
    }
    Called { processor, answers }
}

/// A thread in which a processor calls.
pub(crate) type Calling<J> = PromisedHandle<
    Called<Processor<J>, J>,
    Stays<Caller<Processor<J>, J>>,
>;

/// Starts a thread for each processor, in which it calls with its jobs.
pub(crate) fn start_callers<
    J: Job<Receipt = u64> + 'static,
    R: Threads + Wait + Clock + Copy + Send + 'static,
>(rt: &R, alloc: Global, callers: Vec<Caller<Processor<J>, J>>) -> Crew<Calling<J>>
    ensures { result.fault ≡ None
        → AllZip (λ caller thread. thread.promise.0.value ≡ caller) callers.items
        result.threads.items }
{
    let call = |caller: Caller<Processor<J>, J>, _own: R| -> Called<Processor<J>, J>
        requires { IsSend J.row × IsSend R.row }
        ensures { HasAnswered J.key_of J.gives caller.jobs.items result.answers.items
            caller.processor result.processor }
    { call_all(caller) };
    start_all(rt, alloc, callers, call)
}

/// Puts what a thread gave back to what there is already, and its tickets to all tickets.
fn keep<P: Drop, J: Drop>(
    one: Called<P, J>,
    called: &mut Vec<Called<P, J>>,
    tickets: &mut Vec<Ticket>,
) -> Result<(), AllocError>
    ensures called { OnOk result (called.new.items ≡ called.old.items ++ one ∷ []) }
    ensures tickets { OnOk result
        (tickets.new.items ≡ tickets.old.items ++ tickets_in one.answers.items) }
{
    for answer in &one.answers {
        if let Ok(ticket) = answer {
            tickets.push(*ticket)?;
        }
    }
    called.push(one)?;
    Ok(())
}

/// What the threads of all processors that called gave back, in order, and the tickets of all.
#[derive(Drop)]
pub(crate) struct AllCalled<P, J> {
    pub(crate) called: Vec<Called<P, J>>,
    pub(crate) tickets: Vec<Ticket>,
}

/// Joins all threads in which processors called. `tickets` is the room for the tickets.
///
/// # Errors
///
/// Why not every processor has a thread; or want of memory. All threads were joined.
pub(crate) fn join_callers<J: Job<Receipt = u64>, R: Threads>(
    rt: &R,
    alloc: Global,
    crew: Crew<Calling<J>>,
    mut tickets: Vec<Ticket>,
) -> Result<AllCalled<Processor<J>, J>, ThreadsFault>
    ensures whole { IfOk result (λ _. crew.fault ≡ None) }
    ensures called { IfOk result (λ all.
        AllZip
        (λ thread c.
        HasCalled J.key_of J.gives all.tickets.items thread.promise.0.value.processor c.processor)
        crew.threads.items all.called.items) }
    ensures answered { IfOk result (λ all.
        AllZip
        (λ thread c.
        HasAnswered J.key_of J.gives thread.promise.0.value.jobs.items c.answers.items
        thread.promise.0.value.processor c.processor) crew.threads.items all.called.items) }
{
    let Crew { threads, mut fault } = crew;
    let mut called = Vec::new(alloc);
    for thread in threads {
        let Ok(()) = keep(thread.join(rt), &mut called, &mut tickets) else {
            fault = Some(ThreadsFault::Memory);
            continue;
        };
    }
    match fault {
        None => Ok(AllCalled { called, tickets }),
        Some(fault) => Err(fault),
    }
}

/// The processors that called, in order, and what the calls of each answered.
#[derive(Drop)]
pub struct Answered<P, J> {
    pub processors: Vec<P>,
    pub answers: Vec<Vec<Answer<J>>>,
}

/// Takes the processors from what their calls answered.
pub(crate) fn split<P: Drop, J: Drop>(
    alloc: Global,
    called: Vec<Called<P, J>>,
) -> Result<Answered<P, J>, AllocError>
    ensures processors { IfOk result (λ all.
        all.processors.items ≡ map (λ c. c.processor) called.items) }
    ensures answers { IfOk result (λ all.
        map (λ own. own.items) all.answers.items ≡ map (λ c. c.answers.items) called.items) }
{
    let mut processors = Vec::new(alloc);
    let mut answers = Vec::new(alloc);
    for one in called {
        processors.push(one.processor)?;
        answers.push(one.answers)?;
    }
    Ok(Answered {
        processors,
        answers,
    })
}
