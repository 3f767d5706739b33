//! What a call on a runtime answers where it can't be made.

ghost use Rattle.std.specs.Prelude.{◌≡◌};
ghost use Rattle.rcu_runtime.specs.Faults as faults;

use rcu_jobs::{Refused, Ticket};
use thiserror::Error;

/// Refusal 6: there is no such processor. Nothing changed.
#[derive(Clone, Copy, Debug, PartialEq, Eq, Error)]
#[error("no processor {cpu}")]
pub struct NoProcessor {
    pub cpu: u64,
}

/// The barrier counts another number of processors than the runtime has, so another runtime opened it. Nothing changed.
#[derive(Clone, Copy, Debug, PartialEq, Eq, Error)]
#[error("a barrier of another runtime")]
pub struct OtherBarrier;

/// What a processor answered, as the runtime's answer.
pub(crate) fn given_back<J>(called: Result<Ticket, Refused<J>>) -> Result<Ticket, NotCalled<J>>
    ensures { result ≡ faults.given_back called }
{
    match called {
        Ok(ticket) => Ok(ticket),
        Err(refused) => Err(NotCalled::Refused(refused)),
    }
}

/// Why a job wasn't accepted. It comes back.
#[derive(Debug, Drop)]
pub enum NotCalled<J> {
    /// Refusal 6: there is no such processor.
    NoProcessor { cpu: u64, job: J },
    /// The processor refused it.
    Refused(Refused<J>),
}

impl<J> NotCalled<J> {
    ghost use Rattle.rcu_runtime.specs.Faults.{back_of, number_of};

    /// The refusal's number, as docs/specification/surface.md, "Refusals by number" has it.
    pub fn number(&self) -> u64
        ensures { result ≡ number_of self.now }
    {
        match self {
            NotCalled::NoProcessor { .. } => 6,
            NotCalled::Refused(refused) => refused.number(),
        }
    }

    /// The job that wasn't accepted.
    pub fn into_job(self) -> J
        ensures { result ≡ back_of self }
    {
        match self {
            NotCalled::NoProcessor { cpu: _, job } => job,
            NotCalled::Refused(refused) => refused.into_job(),
        }
    }
}
