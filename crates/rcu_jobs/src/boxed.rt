//! A job that is a boxed call.

ghost use Rattle.std.specs.Prelude.{◌≡◌, ℕ};
ghost use Rattle.rcu_jobs.specs.Promised.{Promised};

use crate::job::Job;

type Call = Box<dyn FnOnce() -> u64 + Send>;

/// A call that may be made once, whose receipt is the key's rest by `MODULUS`. Modulus 0 promises nothing of the
/// receipt. It is a [`Job`] for the moduli 0 and 65536 (docs/DECISIONS.md says why not for every relation); whoever
/// wants another relation of key and receipt writes a job type of their own.
#[derive(Drop)]
pub struct BoxedJob<const MODULUS: u64> {
    /// The job's key.
    pub key: u64,
    call: Call,
    ghost callable: { pre call },
    ghost kept: { (receipt : ℕ) → post call receipt → Promised MODULUS key receipt },
}

impl<const MODULUS: u64> BoxedJob<MODULUS> {
    /// A job of this key that makes the call. The call may be made, and keeps the promise.
    pub fn new(key: u64, call: Box<dyn FnOnce() -> u64 + Send>) -> BoxedJob<MODULUS>
        requires callable { pre call }
        requires kept { (receipt : ℕ) → post call receipt → Promised MODULUS key receipt }
        ensures { result.key ≡ key }
    {
        BoxedJob { key, call }
    }
}

impl Job for BoxedJob<0> {
    type Receipt = u64;

    ghost key_of = { λ job. job.key };

    ghost gives = { Promised 0 };

    fn key(&self) -> u64 {
        self.key
    }

    fn run(self) -> u64 {
        let BoxedJob { key: _, call } = self;
        call()
    }
}

impl Job for BoxedJob<65536> {
    type Receipt = u64;

    ghost key_of = { λ job. job.key };

    ghost gives = { Promised 65536 };

    fn key(&self) -> u64 {
        self.key
    }

    fn run(self) -> u64 {
        let BoxedJob { key: _, call: work } = self;
        work()
    }
}
