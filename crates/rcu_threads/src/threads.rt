//! The run of all parts of one open, from the first call to the end.

ghost use Rattle.std.specs.Prelude.{◌≡◌, ◌<◌, map, length, All, IfErr, IfOk, OnOk, is_ok, true, vec_len};
ghost use Rattle.std.specs.List.{AllZip};
ghost use Rattle.rcu_parts.specs.AtClose.{KeepWhole};
ghost use Rattle.rcu_parts.specs.OneOpen.{AreOfOneOpen, AreSoundParts};
ghost use Rattle.rcu_parts.specs.Drained.{HasNoneBack};
ghost use Rattle.rcu_part_threads.specs.Calls.{AreRefusalsBy, keys_in};
ghost use Rattle.rcu_part_threads.specs.Dealing.{AreDealt, HaveAllRun};
ghost use Rattle.rcu_threads.specs.Ends.{AreUnused, ClosesSame, RefusesFor, keys_ran};
ghost use Rattle.rcu_threads.specs.Runs.{HaveRun, IsFirstFault};

use crate::ended::ThreadsEnd;
use rcu_jobs::{Job, Ticket};
use rcu_part_threads::{
    Answer, Answered, Caller, ThreadsFault, deal, join_all, join_driver, run_processors,
    start_driver, start_groups, start_hands,
};
use rcu_parts::{AllParts, Parts, close, same_parts};
use std::alloc::Global;
use std::rt::Clock;
use std::sync::Wait;
use std::thread::Threads;

/// The processors with the jobs that are dealt to each, and room for the tickets of all calls.
///
/// # Errors
///
/// There is no processor, or want of memory.
fn ready<P: Drop, J: Drop>(
    alloc: Global,
    processors: Vec<P>,
    jobs: Vec<J>,
) -> Result<(Vec<Caller<P, J>>, Vec<Ticket>), ThreadsFault>
    ensures some { IfOk result (λ _. 0 < vec_len processors) }
    ensures none { IfErr result (λ fault. fault ≡ ThreadsFault.CannotRun → vec_len processors ≡ 0) }
    ensures processors { IfOk result (λ ready.
        map (λ c. c.processor) ready.0.items ≡ processors.items) }
    ensures dealt { IfOk result (λ ready.
        AreDealt jobs.items (map (λ c. c.jobs.items) ready.0.items)) }
{
    if processors.is_empty() {
        return Err(ThreadsFault::CannotRun);
    }
    let Ok(room) = Vec::with_capacity(alloc, jobs.len()) else {
        return Err(ThreadsFault::Memory);
    };
    let Ok(callers) = deal(alloc, processors, jobs) else {
        return Err(ThreadsFault::Memory);
    };
    Ok((callers, room))
}

/// The first fault, if there is one.
fn first_fault<D, G, H, A>(
    driver: &Result<D, ThreadsFault>,
    groups: &Result<G, ThreadsFault>,
    hands: &Result<H, ThreadsFault>,
    answered: &Result<A, ThreadsFault>,
) -> Result<(), ThreadsFault>
    ensures driver { OnOk result (is_ok driver.now ≡ true) }
    ensures groups { OnOk result (is_ok groups.now ≡ true) }
    ensures hands { OnOk result (is_ok hands.now ≡ true) }
    ensures answered { OnOk result (is_ok answered.now ≡ true) }
    ensures why { IfErr result (IsFirstFault driver.now groups.now hands.now answered.now) }
{
    match (driver, groups, hands, answered) {
        (Err(fault), ..) | (_, Err(fault), ..) | (_, _, Err(fault), _) | (.., Err(fault)) => {
            Err(*fault)
        }
        _ => Ok(()),
    }
}

/// Runs all parts, with these jobs for the processors in turn, until a barrier with all tickets has passed.
///
/// # Errors
///
/// A thread can't be made, the barrier is refused, there is no processor, or want of memory. All threads that were started
/// have ended.
fn run_parts<J: Job<Receipt = u64> + 'static, R: Threads + Wait + Clock + Copy + Send + 'static>(
    rt: &R,
    alloc: Global,
    parts: Parts<J>,
    jobs: Vec<J>,
) -> Result<(Parts<J>, Vec<Vec<Answer<J>>>), ThreadsFault>
    requires parts { AreOfOneOpen parts }
    ensures ran { IfOk result (λ ended. HaveRun J.key_of J.gives parts ended.0) }
    ensures answered { AreUnused parts
        → IfOk result (λ ended.
        HaveAllRun J.key_of jobs.items (map (λ own. own.items) ended.1.items)
        (map (λ p. keys_in p) ended.0.processors.items)) }
    ensures refused { AreUnused parts
        → IfOk result (λ ended.
        AllZip (λ q own. AreRefusalsBy q.state own) ended.0.processors.items
        (map (λ own. own.items) ended.1.items)) }
{
    let AllParts {
        processors,
        driver,
        groups,
        hands,
        mut control,
    } = parts;
    let (callers, room) = ready(alloc, processors, jobs)?;
    let driver = start_driver(rt, driver);
    let groups = start_groups(rt, alloc, groups);
    let hands = start_hands(rt, alloc, hands);
    let are_running = driver.is_some() && groups.is_whole() && hands.is_whole();
    let answered = run_processors(rt, alloc, &mut control, are_running, callers, room);
    control.finish();
    let driver = join_driver(rt, driver);
    let groups = join_all(rt, groups);
    let hands = join_all(rt, hands);
    // (asked of all four at once: each `?` of its own would have to drop what the others gave)
    first_fault(&driver, &groups, &hands, &answered)?;
    let driver = driver.unwrap();
    let groups = groups.unwrap();
    let hands = hands.unwrap();
    let answered = answered.unwrap();
    let parts = AllParts {
        driver,
        groups,
        hands,
        processors: answered.processors,
        control,
    };
    Ok((parts, answered.answers))
}

/// Runs all parts of an open, each in a thread of its own (docs/specification/program.md, "threads"). The jobs are dealt to
/// the processors in rounds, and in each round to processor 0, 1, ..; each processor calls with its jobs, and then reports
/// and ticks until a barrier with all tickets has passed. Then all threads are joined, and the runtime is closed. What each
/// call answered comes back too, so no job is lost: it has run, or was refused and is in its answer.
///
/// # Errors
///
/// Want of memory; or a thread can't be made, or the barrier is refused, or there is no processor. All threads that were
/// started have ended.
pub fn run_in_threads<
    J: Job<Receipt = u64> + 'static,
    R: Threads + Wait + Clock + Copy + Send + 'static,
>(rt: &R, alloc: Global, parts: Parts<J>, jobs: Vec<J>) -> Result<ThreadsEnd<J>, ThreadsFault>
    requires parts { AreOfOneOpen parts }
    requires sound { AreSoundParts J.key_of J.gives parts }
    ensures closes { IfOk result (λ ended. ClosesSame J.key_of J.gives parts ended.closed) }
    ensures ran { AreUnused parts → IfOk result (λ ended. HasNoneBack ended.closed) }
    ensures all { AreUnused parts → KeepWhole parts
        → IfOk result (λ ended.
        HaveAllRun J.key_of jobs.items (map (λ own. own.items) ended.answers.items)
        (keys_ran ended.closed)) }
    ensures refused { AreUnused parts
        → IfOk result (λ ended.
        RefusesFor J.key_of J.gives parts ended.closed
        (map (λ own. own.items) ended.answers.items)) }
{
    let (ended, answers) = run_parts(rt, alloc, parts, jobs)?;
    same_parts::<J>();
    let Ok(closed) = close(alloc, ended) else {
        return Err(ThreadsFault::Memory);
    };
    Ok(ThreadsEnd { closed, answers })
}
