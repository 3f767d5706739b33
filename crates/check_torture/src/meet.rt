//! Each check is handed a case that it must refuse, in one thread, so that each flaw is met once.

use crate::actors::Log;
use crate::acts::{Actor, read, saw};
use crate::chance::Chance;
use crate::checks::check;
use crate::counters::Counters;
use crate::history::check_history;
use crate::one_run::Report;
use crate::retire::Retire;
use crate::shared::{Shared, share};
use crate::steerer::Farewell;
use crate::versions::{Age, SLOTS};
use rcu_jobs::{Closed, Counts, Record, Ticket};
use rcu_numbers::Shape;
use rcu_parts::{Processor, open};
use std::alloc::{AllocError, Global};
use std::sync::Arc;

/// A number that no processor here has, and more callbacks than one here accepts.
const WRONG: u64 = 9;

/// A callback begins beside another and out of its order, and frees a version that is in the table.
fn meet_beside(shared: &Shared) {
    shared.begin(Ticket { cpu: 0, number: 0 });
    shared.begin(Ticket { cpu: 0, number: 1 });
    shared.end(0, 0);
}

/// A read section finds a freed version, whichever slot it looks at.
fn meet_freed(actor: &mut Actor, shared: &Shared) {
    for version in 0..SLOTS {
        shared.versions.pass(version, Age::Freed);
    }
    let seen = read(&actor.processor, &shared.versions, &mut actor.chance);
    saw(&mut actor.counters, &shared.flaws, seen);
}

/// Counts of one processor, of more callbacks than ran or were accepted.
fn wrong_counts() -> Counts {
    let mut counts = Counts::new(1);
    counts.set(0, WRONG);
    counts
}

/// A processor of a runtime of its own.
fn one_processor(alloc: Global) -> Option<Processor<Retire>> {
    let shape = Shape::new(1, 0, 1, 1, 1, 1)?;
    let Ok(mut parts) = open(alloc, &shape.for_parts()) else {
        return None;
    };
    parts.processors.pop()
}

/// A processor, with what its thread keeps beside it, which takes it for another one.
fn mistaken(alloc: Global, shared: &Arc<Shared>) -> Option<Actor> {
    let own = Arc::try_clone(shared).ok()?;
    let processor = one_processor(alloc)?;
    Some(Actor::new(alloc, processor, WRONG, own, Chance::new(0, 0, 0)))
}

/// What is met by a processor's own thread: a read section finds a freed version, and what the thread takes for the counts
/// and the tickets of its processor are another's.
fn meet_while_acting(alloc: Global, shared: &Arc<Shared>) -> Option<Counters> {
    let mut actor = mistaken(alloc, shared)?;
    meet_freed(&mut actor, shared);
    actor.open_barrier();
    actor.update();
    Some(actor.counters)
}

/// A record that is the first and says that it is the second, of a callback that ran before its grace period had ended, with
/// the receipt of another.
fn wrong_record() -> Record<u64> {
    Record {
        number: 1,
        key: 1,
        stamp: 1,
        ready: 1,
        receipt: WRONG,
    }
}

/// What ran of one processor, by what a `close` might answer.
fn wrong_ran(alloc: Global) -> Result<Vec<Vec<Record<u64>>>, AllocError> {
    let records = vec![in alloc; wrong_record()]?;
    Ok(vec![in alloc; records]?)
}

/// The job of a version that is in the table.
fn wrong_job(shared: &Arc<Shared>) -> Result<Retire, AllocError> {
    let Ok(shared) = Arc::try_clone(shared) else {
        return Err(AllocError);
    };
    Ok(Retire {
        version: 0,
        ticket: Ticket { cpu: 0, number: 0 },
        yields: 0,
        shared,
    })
}

/// What it handed back.
fn wrong_back(alloc: Global, shared: &Arc<Shared>) -> Result<Vec<Vec<Retire>>, AllocError> {
    let jobs = vec![in alloc; wrong_job(shared)?]?;
    Ok(vec![in alloc; jobs]?)
}

/// What a `close` might answer of one processor that accepted nothing: a record and a job, and no report.
fn wrong_closed(alloc: Global, shared: &Arc<Shared>) -> Result<Closed<Retire>, AllocError> {
    let ran = wrong_ran(alloc)?;
    let reports = vec![in alloc; 0]?;
    let back = wrong_back(alloc, shared)?;
    Ok(Closed { ran, back, reports })
}

/// Hands this to the checks at the end of a run.
fn check_all(
    alloc: Global,
    shared: &Shared,
    closed: &Closed<Retire>,
    log: Log,
    passes: &[Vec<u64>],
) -> Result<Counters, AllocError> {
    let farewell = Farewell {
        shut: Some(wrong_counts()),
        drained: true,
    };
    let logs = [log];
    check_history(alloc, shared, closed, &logs, &farewell, passes)?;
    Ok(check(shared, closed, &logs, &farewell))
}

/// What is met at the end of a run, after which nothing should have been handed back and one version be freed.
fn meet_at_end(alloc: Global, shared: &Arc<Shared>) -> Result<Counters, AllocError> {
    let passes = vec![in alloc; vec![in alloc; WRONG]?]?;
    let closed = wrong_closed(alloc, shared)?;
    let log = Log {
        keys: Vec::new(alloc),
        counters: Counters {
            reports: 1,
            ..Counters::NONE
        },
    };
    check_all(alloc, shared, &closed, log, passes.as_slice())
}

/// Meets each flaw once.
///
/// # Errors
///
/// Want of memory.
pub fn meet_all(alloc: Global) -> Result<Report, AllocError> {
    let shared = share(alloc, 1, 1)?;
    meet_beside(&shared);
    shared.check_passed(&wrong_counts());
    let Some(mut counters) = meet_while_acting(alloc, &shared) else {
        return Err(AllocError);
    };
    counters.add(&meet_at_end(alloc, &shared)?);
    Ok(Report { counters, shared })
}
