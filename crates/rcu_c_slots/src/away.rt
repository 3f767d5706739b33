//! A processor in a slot leaves, and comes back.

ghost use Rattle.rcu_c_slots.specs.Away.{LeavesBy, LeavesCpu, LeavesLent, ReturnsBy, ReturnsOne};

use crate::fault::Fault;
use crate::job::ForeignJob;
use crate::lent::LentProcessor;
use crate::part::Part;
use rcu_parts::{Away, Processor};
use std::mem::replace;

/// A processor leaves, where its lane has room for what its bypass list holds.
fn leave_one(processor: Processor<ForeignJob>) -> (Part, Result<(), Fault>)
    ensures { LeavesCpu result.1 processor result.0 }
{
    match processor.leave() {
        Ok(away) => (Part::Away(away), Ok(())),
        Err(processor) => (
            Part::Processor(LentProcessor::new(processor)),
            Err(Fault::Memory),
        ),
    }
}

/// The same of a processor in a slot, unless a callback runs.
fn leave_lent(lent: LentProcessor) -> (Part, Result<(), Fault>)
    ensures { LeavesLent result.1 lent result.0 }
{
    if lent.job.is_some() {
        return (Part::Processor(lent), Err(Fault::Running));
    }
    leave_one(lent.into_processor())
}

/// A processor is back.
fn return_one(away: Away<ForeignJob>) -> Processor<ForeignJob>
    ensures { ReturnsOne away result }
{
    away.come_back()
}

impl Part {
    /// The processor is away from now on: no grace period waits for it.
    ///
    /// # Errors
    ///
    /// Its lane has no room for what its bypass list holds, and it is still here; or a callback of it runs; or it is away; or the
    /// part is of another kind.
    pub fn leave(&mut self) -> Result<(), Fault>
        ensures { LeavesBy result self.old self.new }
    {
        match replace(self, Part::Nothing) {
            Part::Processor(lent) => {
                let (part, answer) = leave_lent(lent);
                self.fill(part);
                answer
            }
            other => {
                let fault = other.not_resting();
                self.fill(other);
                Err(fault)
            }
        }
    }

    /// The processor that was away is back.
    ///
    /// # Errors
    ///
    /// It isn't away; or the part is of another kind.
    pub fn come_back(&mut self) -> Result<(), Fault>
        ensures { ReturnsBy result self.old self.new }
    {
        match replace(self, Part::Nothing) {
            Part::Away(away) => {
                self.fill(Part::Processor(LentProcessor::new(return_one(away))));
                Ok(())
            }
            other => {
                let fault = other.not_away();
                self.fill(other);
                Err(fault)
            }
        }
    }
}
