//! What a program hands in for each processor: a worker, which says step by step what its processor does.

ghost use Rattle.std.specs.Prelude.{◌≡◌, ℕ, ⊤};
ghost use Rattle.rcu_runtime_threads.specs.Says.{EndsAs};

use rcu_jobs::{Job, Passed, Refused, Ticked, Ticket};
use rcu_parts::{Barrier, Reading};

/// What a worker's processor does next.
#[derive(Drop)]
pub enum Step<J> {
    /// Calls with a job, at a moment of the worker's clock: `Called` or `Refused` answers.
    Call { moment: u64, job: J },
    /// Calls with a job that may be held back longer: `Called` or `Refused` answers.
    CallLazy { moment: u64, job: J },
    /// Begins a read section and calls [`Worker::read`] with it: `WasRead` answers.
    Read,
    /// Reports a quiescent state: `Reported` answers.
    Report,
    /// Ticks at a moment of the worker's clock: `Ticked` answers.
    Tick { moment: u64 },
    /// Opens a barrier: `Opened` answers.
    OpenBarrier,
    /// Polls a barrier: `Polled` or `OtherBarrier` answers.
    PollBarrier(Barrier),
    /// Nothing: the thread sleeps a little. `Paused` answers.
    Pause,
    /// The worker has done its work. No step comes after it.
    Done,
    /// The worker gives up. No step comes after it.
    Fail,
}

/// What the step before came to.
#[derive(Drop)]
pub enum Answer<J> {
    /// No step came before.
    Began,
    /// The job was accepted.
    Called(Ticket),
    /// The job wasn't accepted, and comes back.
    Refused(Refused<J>),
    /// The read section is over.
    WasRead,
    /// The number of the grace period that counted the report, or None.
    Reported(Option<u64>),
    /// What the tick did.
    Ticked(Ticked),
    /// The barrier that was opened.
    Opened(Barrier),
    /// The barrier has passed, or None.
    Polled(Option<Passed>),
    /// The barrier counts another number of processors, so another runtime opened it.
    OtherBarrier,
    /// The pause is over.
    Paused,
}

/// How a worker ended.
#[derive(Clone, Copy, Debug, PartialEq, Eq)]
pub enum WorkerEnd {
    /// It said that it was done.
    Done,
    /// It gave up.
    Failed,
    /// It made no step, since some part had no thread.
    NotBegun,
}

/// What a program does with one processor. A worker never has its processor: it says what that does, and is told what came
/// of it.
pub trait Worker<J: Job>: Send + Drop {
    ghost use Rattle.rcu_runtime_threads.specs.declared.worker.WorkerEnd.{WorkerEnd};

    // By what a worker is known again. Left out, nothing tells it from another.
    ghost name_of: { Self → ℕ } = { λ worker. 0 };

    // What a worker is when it says that it is done, and what when it gives up. Left out, nothing is said.
    ghost ends_as: { WorkerEnd → Self → Type 0 } = { λ end worker. ⊤ };

    /// Called once in the processor's thread, before the first step: the place to pin the thread.
    fn begin(&mut self, _cpu: u64)
        ensures { name_of self.new ≡ name_of self.old }
    {}

    /// The next step, where this is what the one before came to.
    ///
    /// It needs a clause in each worker: `ensures { ⊤ }` where nothing is said of it.
    fn step(&mut self, answer: Answer<J>) -> Step<J>
        ensures name { name_of self.new ≡ name_of self.old }
        ensures ends { EndsAs ends_as result self.new };

    /// Reads. While the section lives its processor reports nothing.
    fn read(&mut self, _section: &Reading<'_, J>)
        ensures { name_of self.new ≡ name_of self.old }
    {}
}
