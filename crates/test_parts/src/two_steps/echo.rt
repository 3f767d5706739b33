//! A job whose receipt is its key.

ghost use Rattle.test_parts.specs.Echoes.{IsOwnKey, key_of_echo};

use rcu_jobs::Job;

/// A job that gives its key.
#[derive(Debug, Drop)]
pub struct Echo {
    /// The key.
    pub key: u64,
}

impl Job for Echo {
    type Receipt = u64;

    ghost key_of = { key_of_echo };

    ghost gives = { IsOwnKey };

    fn key(&self) -> u64 {
        self.key
    }

    fn run(self) -> u64 {
        let Echo { key } = self;
        key
    }
}
