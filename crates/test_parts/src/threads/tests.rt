//! All parts in threads.

use crate::opening::Work;
use crate::same::assert_same;
use crate::threads::runs::{run, run_keyed};
use rcu_jobs::{BoxedJob, Closed, Job, Refused};
use rcu_numbers::Shape;
use rcu_threads::ThreadsEnd;
use std::alloc::{AllocError, Global};
use std::process::Abort;
use std::rt::Clock;
use std::sync::atomic::{AtomicU64, Ordering};
use std::sync::{Arc, Wait};
use std::thread;
use std::thread::Threads;

/// Whether processor `p` ran, of jobs that were dealt in so many rounds to `many` processors, just its own, in order, and
/// none came back.
fn ran_its_own(closed: &Closed<Work>, p: usize, many: u64, rounds: usize) -> bool {
    let Some(ran) = closed.ran.get(p) else {
        return false;
    };
    let Some(back) = closed.back.get(p) else {
        return false;
    };
    let mut key = p as u64;
    for record in ran.iter() {
        if record.key != key || record.receipt != key {
            return false;
        }
        key = key.saturating_add(many);
    }
    ran.len() == rounds && back.is_empty()
}

/// That processor `p` ran just its own, as `ran_its_own`, of jobs that were dealt in `rounds[p]` rounds to it.
fn assert_all_ran(rt: &impl Abort, closed: &Closed<Work>, rounds: &[usize]) {
    for p in 0..rounds.len() {
        let ran = ran_its_own(closed, p, rounds.len() as u64, rounds[p]);
        assert_same(rt, (p, ran), (p, true));
    }
}

/// The same of a run of so many jobs by the parts of a shape.
fn assert_runs<R: Abort + Threads + Wait + Clock + Copy + Send + 'static>(
    rt: &R,
    alloc: Global,
    shape: Option<Shape>,
    jobs: u64,
    rounds: &[usize],
) {
    let ended = run_keyed(rt, alloc, shape, jobs);
    assert_all_ran(rt, &ended.closed, rounds);
}

#[test]
fn four_processors_in_threads(rt: HostRuntime) {
    let shape = Shape::new(4, 0b1110, 2, 10, 10000, 1000);
    assert_runs(&rt, rt.alloc(), shape, 8, &[2; 4]);
}

#[test]
fn thirty_two_processors_in_threads(rt: HostRuntime) {
    let shape = Shape::new(32, u32::MAX, 6, 10, 10000, 1000);
    assert_runs(&rt, rt.alloc(), shape, 32, &[1; 32]);
}

#[test]
fn more_jobs_than_rounds(rt: HostRuntime) {
    let shape = Shape::new(2, 0b01, 1, 10, 10000, 1000);
    assert_runs(&rt, rt.alloc(), shape, 5, &[3, 2]);
}

/// Whether the answers of processor `p`, whose limit is 2, are tickets of the numbers 0 and 1, and then the jobs with the keys
/// from `key` on, by `many` from one to the next, each refused at the limit.
fn refused_its_last(ended: &ThreadsEnd<Work>, p: u64, key: u64, many: u64) -> bool {
    let Some(answers) = ended.answers.get(p as usize) else {
        return false;
    };
    let mut number: u64 = 0;
    let mut next = key;
    for answer in answers.iter() {
        match answer {
            Ok(ticket) => {
                if ticket.cpu != p || ticket.number != number {
                    return false;
                }
                number = number.saturating_add(1);
            }
            Err(Refused::Limit(job)) => {
                if job.key() != next {
                    return false;
                }
                next = next.saturating_add(many);
            }
            Err(_) => return false,
        }
    }
    number == 2 && answers.len() == 4
}

/// That of two processors, whose limit is 2 and to which 8 jobs were dealt, each ran its first two and refused the others.
fn assert_ran_to_the_limit(rt: &impl Abort, ended: &ThreadsEnd<Work>) {
    assert_all_ran(rt, &ended.closed, &[2, 2]);
    let refused = [
        refused_its_last(ended, 0, 4, 2),
        refused_its_last(ended, 1, 5, 2),
    ];
    assert_same(rt, refused, [true, true]);
}

#[test]
fn refused_jobs_come_back(rt: HostRuntime) {
    let shape = Shape::new(2, 0b10, 1, 10, 10000, 2);
    assert_ran_to_the_limit(&rt, &run_keyed(&rt, rt.alloc(), shape, 8));
}

#[test]
fn no_jobs(rt: HostRuntime) {
    let shape = Shape::new(3, 0b010, 2, 10, 10000, 1000);
    assert_runs(&rt, rt.alloc(), shape, 0, &[0; 3]);
}

/// Raises a flag, and looks for the other at most a million times. Answers 1 where it is seen, else 0.
fn meet(own: &AtomicU64, other: &AtomicU64) -> u64 {
    own.store(1, Ordering::SeqCst);
    for _ in 0..1_000_000 {
        if other.load(Ordering::SeqCst) == 1 {
            return 1;
        }
        thread::yield_now();
    }
    0
}

/// A job that meets another.
fn meeting(
    alloc: Global,
    key: u64,
    own: Arc<AtomicU64, Global>,
    other: Arc<AtomicU64, Global>,
) -> Result<Work, AllocError> {
    Ok(BoxedJob::new(key, Box::new(alloc, move || meet(&own, &other))?))
}

/// A job that meets another, by clones of these flags.
fn meeting_by(
    alloc: Global,
    key: u64,
    own: &Arc<AtomicU64, Global>,
    other: &Arc<AtomicU64, Global>,
) -> Result<Work, AllocError> {
    meeting(alloc, key, Arc::try_clone(own)?, Arc::try_clone(other)?)
}

/// Two jobs, of which each meets the other by these flags.
fn two_meeting(
    alloc: Global,
    first: &Arc<AtomicU64, Global>,
    second: &Arc<AtomicU64, Global>,
) -> Result<Vec<Work>, AllocError> {
    let mut jobs = Vec::new(alloc);
    jobs.push(meeting_by(alloc, 0, first, second)?)?;
    jobs.push(meeting_by(alloc, 1, second, first)?)?;
    Ok(jobs)
}

/// Two jobs, of which each meets the other.
fn meeting_jobs(alloc: Global) -> Result<Vec<Work>, AllocError> {
    let first = Arc::new(alloc, AtomicU64::new(0))?;
    let second = Arc::new(alloc, AtomicU64::new(0))?;
    two_meeting(alloc, &first, &second)
}

/// That each processor ran one callback, of which each gave 1.
fn assert_all_met(rt: &impl Abort, closed: &Closed<Work>) {
    for ran in closed.ran.iter() {
        assert_same(rt, ran.len(), 1);
        for record in ran.iter() {
            assert_same(rt, record.receipt, 1);
        }
    }
}

#[test]
fn two_jobs_meet(rt: HostRuntime) {
    let shape = Shape::new(2, 0b11, 1, 10, 10000, 1000);
    let jobs = meeting_jobs(rt.alloc()).expect(&rt, "memory");
    assert_all_met(&rt, &run(&rt, rt.alloc(), shape, jobs).closed);
}
