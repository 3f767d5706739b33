//! Runs of all parts in threads.

use crate::opening::{Work, job};
use rcu_numbers::Shape;
use rcu_parts::open;
use rcu_threads::{ThreadsEnd, run_in_threads};
use std::alloc::Global;
use std::process::Abort;
use std::rt::Clock;
use std::sync::Wait;
use std::thread::Threads;

/// Jobs with the keys 0, 1, .. None where memory is wanted.
fn jobs(alloc: Global, many: u64) -> Option<Vec<Work>> {
    let mut jobs = Vec::new(alloc);
    for key in 0..many {
        jobs.push(job(alloc, key)?).ok()?;
    }
    Some(jobs)
}

/// What a run in threads leaves of a shape's parts, with these jobs. The test ends where it isn't run.
pub(crate) fn run<R: Abort + Threads + Wait + Clock + Copy + Send + 'static>(
    rt: &R,
    alloc: Global,
    shape: Option<Shape>,
    jobs: Vec<Work>,
) -> ThreadsEnd<Work> {
    let shape = shape.expect(rt, "a shape").for_parts();
    let parts = open(alloc, &shape).expect(rt, "memory");
    run_in_threads(rt, alloc, parts, jobs)
        .ok()
        .expect(rt, "a run")
}

/// The same, with so many jobs, which have the keys 0, 1, ..
pub(crate) fn run_keyed<R: Abort + Threads + Wait + Clock + Copy + Send + 'static>(
    rt: &R,
    alloc: Global,
    shape: Option<Shape>,
    many: u64,
) -> ThreadsEnd<Work> {
    let jobs = jobs(alloc, many).expect(rt, "memory");
    run(rt, alloc, shape, jobs)
}
