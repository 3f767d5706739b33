//! All parts in threads of their own, which have nothing to do while one job sleeps.
//!
//! Of the four processors two are offloadable, and the only job is of processor 0.

use rcu_jobs::Job;
use rcu_numbers::Shape;
use rcu_parts::open;
use rcu_threads::run_in_threads;
use std::alloc::{AllocError, Global};
use std::rt::Clock;
use std::sync::Wait;
use std::thread;
use std::thread::Threads;
use std::time::Duration;

/// A job that sleeps for some time, and gives 0.
#[derive(Drop)]
pub struct Sleep {
    pub clock: HostRuntime,
    pub time: Duration,
}

impl Job for Sleep {
    type Receipt = u64;

    ghost key_of = { λ job. 0 };

    ghost gives = { λ key receipt. Unit {0} };

    fn key(&self) -> u64 {
        0
    }

    fn run(self) -> u64 {
        thread::sleep(&self.clock, self.time);
        0
    }
}

/// Runs all parts until this job of processor 0 has run. Answers how many callbacks of processor 0 ran.
pub fn run_idle<R: Threads + Wait + Clock + Copy + Send + 'static>(
    rt: &R,
    alloc: Global,
    job: Sleep,
) -> Result<usize, AllocError> {
    let Some(shape) = Shape::new(4, 0b1100, 2, 10, 10000, 1000) else {
        return Ok(0);
    };
    let parts = open(alloc, &shape.for_parts())?;
    let jobs = vec![in alloc; job]?;
    match run_in_threads(rt, alloc, parts, jobs) {
        Ok(ended) => Ok(ended.closed.ran.first().map_or(0, |ran| ran.len())),
        Err(_) => Ok(0),
    }
}
