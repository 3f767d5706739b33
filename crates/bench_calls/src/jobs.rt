//! The job: of two words, whatever it is to do.

ghost use Rattle.std.specs.Prelude.{◌≡◌, ◌≢◌, ℕ, Ok, false, true};
ghost use Rattle.bench_calls.specs.declared.jobs.Work.TheVariants.{Plain};

use rcu_jobs::Job;
use std::alloc::{AllocError, Global};
use std::rt::Clock;
use std::sync::Arc;
use std::sync::atomic::{AtomicU64, Ordering};

/// What is allocated for a boxed job: 32 bytes, as many as the peer allocates for a callback.
#[derive(Drop)]
pub struct Addition {
    add: u64,
    _filling: [u64; 3],
}

/// What a job needs that notes how long it waited, in nanoseconds.
#[derive(Drop)]
pub struct Timing {
    pub clock: HostRuntime,
    /// Its place among the times.
    pub place: u64,
    /// When it was called.
    pub began: u64,
    pub times: Arc<Vec<AtomicU64>>,
}

impl Timing {
    /// Notes how long it was since the call, and answers it.
    fn note(&self) -> u64 {
        let time = nanoseconds(&self.clock).saturating_sub(self.began);
        if let Some(slot) = self.times.get(self.place as usize) {
            slot.store(time, Ordering::SeqCst);
        }
        time
    }
}

/// A job.
#[derive(Drop)]
pub enum Work {
    /// Its receipt is its number.
    Plain(u64),
    /// It is allocated for its call, and freed when it runs.
    Boxed(Box<Addition>),
    /// It notes how long it waited.
    Timed(Box<Timing>),
}

impl Work {
    /// A plain job, or one that is allocated for its call.
    ///
    /// # Errors
    ///
    /// Want of memory.
    pub fn new(alloc: Global, boxed: bool) -> Result<Work, AllocError>
        ensures plain { boxed ≡ false → result ≡ Ok (Plain 1) }
        ensures boxed { boxed ≡ true → (n : ℕ) → result ≢ Ok (Plain n) }
    {
        if !boxed {
            return Ok(Work::Plain(1));
        }
        let addition = Addition {
            add: 1,
            _filling: [0; 3],
        };
        Ok(Work::Boxed(Box::new(alloc, addition)?))
    }
}

impl Job for Work {
    type Receipt = u64;

    ghost key_of = { λ job. 0 };

    ghost gives = { λ key receipt. Unit {0} };

    fn key(&self) -> u64 {
        0
    }

    fn run(self) -> u64 {
        match self {
            Work::Plain(add) => add,
            Work::Boxed(addition) => addition.add,
            Work::Timed(timing) => timing.note(),
        }
    }
}

/// What the clock reads, in nanoseconds, or 0 where it can't be read.
pub fn nanoseconds(clock: &impl Clock) -> u64 {
    match clock.monotonic() {
        Ok(time) => time
            .as_secs()
            .saturating_mul(1_000_000_000)
            .saturating_add(u64::from(time.subsec_nanos())),
        Err(_) => 0,
    }
}
