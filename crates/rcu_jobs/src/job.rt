//! What the runtime asks of a job.

ghost use Rattle.std.specs.Prelude.{◌≡◌, ℕ};

/// A piece of work with a key. Running it uses it up and gives a receipt.
///
/// The runtime is generic over `J: Job`, so a receipt can only come from running a job.
pub trait Job: Send + Drop {
    /// What running the job gives.
    type Receipt: Send + Drop;

    // The key of a job.
    ghost key_of: { Self → ℕ };

    // What a receipt has to do with the key.
    ghost gives: { ℕ → Self.Receipt → Type 0 };

    /// The job's key, by which the runtime names it.
    fn key(&self) -> u64
        ensures { result ≡ key_of self.now };

    /// Does the work.
    fn run(self) -> Self::Receipt
        ensures { gives (key_of self) result };
}
