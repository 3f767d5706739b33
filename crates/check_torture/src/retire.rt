//! The job: it frees a version.

ghost use Rattle.check_torture.specs.Retired.{IsVersion, version_of};

use crate::shared::Shared;
use rcu_jobs::{Job, Ticket};
use std::sync::Arc;

/// The callback of a version that was taken out of the table.
#[derive(Drop)]
pub struct Retire {
    /// The version, which is its key.
    pub version: u64,
    /// Its processor, and the number under which it is to be accepted.
    pub ticket: Ticket,
    /// How often it yields while it runs.
    pub yields: u64,
    pub shared: Arc<Shared>,
}

impl Job for Retire {
    type Receipt = u64;

    // The key is the version,
    ghost key_of = { version_of };

    // and so is the receipt.
    ghost gives = { IsVersion };

    fn key(&self) -> u64 {
        self.version
    }

    fn run(self) -> u64 {
        let Retire {
            version,
            ticket,
            yields,
            shared,
        } = self;
        shared.free(ticket, version, yields);
        version
    }
}
