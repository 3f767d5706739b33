//! The job of a program in another language.

ghost use Rattle.std.specs.Prelude.{◌≡◌, ℕ};

use rcu_jobs::Job;

/// A key, and two words whose meaning that program alone knows: a function and its argument. The program runs it between
/// `begin` and `finish`, so here it only stands for itself: its receipt is the job, with the same key.
#[repr(C)]
#[derive(Clone, Copy, Drop)]
pub struct ForeignJob {
    /// The job's key, by which the runtime names it.
    pub key: u64,
    /// The address of the function.
    pub function: u64,
    /// The address of what the function is called with.
    pub argument: u64,
}

impl Job for ForeignJob {
    type Receipt = ForeignJob;

    ghost key_of = { λ job. job.key };

    ghost gives = { λ key receipt. receipt.key ≡ key };

    fn key(&self) -> u64 {
        self.key
    }

    fn run(self) -> ForeignJob {
        self
    }
}
