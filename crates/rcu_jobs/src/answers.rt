//! What calls of the runtime answer: acceptance, refusals, barriers and the end.

ghost use Rattle.std.specs.Prelude.{◌≡◌};

use crate::callback::Record;
use crate::counts::Counts;
use crate::job::Job;

/// An accepted callback: its processor, and its number there.
#[derive(Clone, Copy, Debug, PartialEq, Eq)]
pub struct Ticket {
    pub cpu: u64,
    pub number: u64,
}

/// Why a job wasn't accepted. Nothing changed, and the job comes back.
#[derive(Debug, Drop)]
pub enum Refused<J> {
    /// Refusal 4: the processor accepted as many callbacks as its limit allows.
    Limit(J),
    /// Refusal 2: a growth was refused.
    Memory(J),
    /// Refusal 3: the processor was shut.
    Closed(J),
}

impl<J> Refused<J> {
    ghost use Rattle.rcu_jobs.specs.Refusals.{job_of, number_of};

    /// The refusal's number, as docs/specification/surface.md, "Refusals by number" has it.
    pub fn number(&self) -> u64
        ensures { result ≡ number_of self.now }
    {
        match self {
            Refused::Limit(_) => 4,
            Refused::Memory(_) => 2,
            Refused::Closed(_) => 3,
        }
    }

    /// The job that was refused.
    pub fn into_job(self) -> J
        ensures { result ≡ job_of self }
    {
        match self {
            Refused::Limit(job) | Refused::Memory(job) | Refused::Closed(job) => job,
        }
    }
}

/// Why a processor isn't switched.
#[derive(Clone, Copy, Debug, PartialEq, Eq)]
pub enum SwitchFault {
    /// Refusal 6: there is no such processor.
    NoProcessor(u64),
    /// Refusal 5: the processor isn't offloadable.
    NotOffloadable(u64),
}

impl SwitchFault {
    ghost use Rattle.rcu_jobs.specs.Refusals.{switch_number};

    /// The refusal's number, as docs/specification/surface.md, "Refusals by number" has it.
    pub fn number(self) -> u64
        ensures { result ≡ switch_number self }
    {
        match self {
            SwitchFault::NoProcessor(_) => 6,
            SwitchFault::NotOffloadable(_) => 5,
        }
    }
}

/// Why a barrier isn't opened.
#[derive(Clone, Copy, Debug, PartialEq, Eq)]
pub enum BarrierFault {
    /// Refusal 2: a growth was refused. Only the core answers it.
    Memory,
    /// Refusal 6: a ticket, or the caller, names a processor that isn't there.
    NoProcessor(u64),
    /// Refusal 7: a ticket's number isn't accepted yet, since its processor accepted `count` callbacks.
    Ahead { cpu: u64, count: u64 },
}

/// A barrier that passed: the counts that it took when it was opened. Every callback below them had run.
#[derive(Clone, Copy, Debug, PartialEq, Eq)]
pub struct Passed {
    pub counts: Counts,
}

/// What is left of a runtime that was closed, by processor.
#[derive(Drop)]
pub struct Closed<J: Job> {
    /// `ran[p]` has the records of the callbacks of processor `p` that ran, numbered 0, 1, 2, ..
    pub ran: Vec<Vec<Record<J::Receipt>>>,
    /// `back[p]` has the jobs of the remaining numbers, in order.
    pub back: Vec<Vec<J>>,
    /// `reports[q]` is how many grace periods `q` passed, by a report or by being away; its k-th,
    /// from 0, is the one with the number `4k + 1`.
    pub reports: Vec<u64>,
}
