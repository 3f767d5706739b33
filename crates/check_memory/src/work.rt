//! The job that the scenarios hand in.

ghost use Rattle.std.specs.Prelude.{◌≡◌};
ghost use Rattle.check_memory.specs.Works.{IsOwnKey, callback_key, key_of_work};

use rcu_jobs::Job;

/// A job that takes no memory. Its receipt is its key.
#[derive(Drop)]
pub struct Work {
    pub key: u64,
}

/// The key of callback `number` of processor `cpu`: each another, while a processor has fewer than a million.
pub fn key_at(cpu: u64, number: u64) -> u64
    ensures { result ≡ callback_key cpu number }
{
    cpu.wrapping_mul(1_000_000).wrapping_add(number)
}

impl Job for Work {
    type Receipt = u64;

    ghost key_of = { key_of_work };

    ghost gives = { IsOwnKey };

    fn key(&self) -> u64 {
        self.key
    }

    fn run(self) -> u64 {
        let Work { key } = self;
        key
    }
}
