//! Calls on a processor in a slot, whether or not a callback of it runs.

use crate::fault::{Fault, fault_of_refusal};
use crate::job::ForeignJob;
use crate::lent::LentProcessor;
use crate::part::Part;
use rcu_jobs::{Refused, Ticket};
use rcu_lists::Kind;

impl LentProcessor {
    ghost use Rattle.rcu_c_slots.specs.Processors.{AnswersCall, ReportsOne};

    /// A call of either kind.
    fn call(
        &mut self,
        kind: Kind,
        moment: u64,
        job: ForeignJob,
    ) -> Result<Ticket, Refused<ForeignJob>>
        ensures { AnswersCall kind moment job result self.old self.new }
    {
        self.processor.call(moment, kind, job)
    }

    /// A report.
    fn quiescent(&mut self) -> Option<u64>
        ensures { ReportsOne result self.old self.new }
    {
        self.processor.quiescent()
    }
}

impl Part {
    ghost use Rattle.rcu_c_slots.specs.Processors.{CallsBy, ReportsBy};

    /// Accepts a job by a processor, at a moment of the program's clock.
    ///
    /// # Errors
    ///
    /// The processor's refusal, by which nothing was accepted; or the part is of another kind.
    pub fn call(&mut self, kind: Kind, moment: u64, job: ForeignJob) -> Result<Ticket, Fault>
        ensures { CallsBy kind moment job result self.old self.new }
    {
        match self {
            Part::Processor(processor) => match processor.call(kind, moment, job) {
                Ok(ticket) => Ok(ticket),
                Err(refused) => Err(fault_of_refusal(refused)),
            },
            other => Err(other.wrong_kind()),
        }
    }

    /// Reports a quiescent state of a processor. Answers the number of the grace period that counted it, or None.
    ///
    /// # Errors
    ///
    /// The part is of another kind.
    pub fn quiescent(&mut self) -> Result<Option<u64>, Fault>
        ensures { ReportsBy result self.old self.new }
    {
        match self {
            Part::Processor(processor) => Ok(processor.quiescent()),
            other => Err(other.wrong_kind()),
        }
    }
}
