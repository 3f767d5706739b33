//! Barriers, by control or a processor in a slot.

ghost use Rattle.rcu_c_slots.specs.Barriers.{PollsControl};

use crate::fault::Fault;
use crate::lent::LentProcessor;
use crate::part::Part;
use rcu_jobs::{Counts, Passed};
use rcu_parts::{Barrier, Control};

/// Polls a barrier of these counts by control, if they are of as many processors as there are.
fn poll_control(control: &mut Control, counts: Counts) -> Result<Option<Passed>, Fault>
    ensures { PollsControl counts result control.old control.new }
{
    if counts.n != control.processors() {
        return Err(Fault::Foreign);
    }
    let mut barrier = Barrier { counts };
    Ok(barrier.poll(control))
}

impl LentProcessor {
    ghost use Rattle.rcu_c_slots.specs.Barriers.{PollsProcessor};
    ghost use Rattle.rcu_c_slots.specs.Parts.{Answers, WhereRests};
    ghost use Rattle.rcu_c_slots.specs.Processors.{OpensOne};

    /// Opens a barrier, unless a callback runs.
    fn barrier(&mut self) -> Result<Barrier, Fault>
        ensures { WhereRests self.old.job (Answers OpensOne) result self.old self.new }
    {
        if self.job.is_some() {
            return Err(Fault::Running);
        }
        Ok(self.processor.barrier())
    }

    /// Polls a barrier of these counts, if they are of as many processors as there are, and no callback runs.
    fn poll(&mut self, counts: Counts) -> Result<Option<Passed>, Fault>
        ensures { WhereRests self.old.job (PollsProcessor counts) result self.old self.new }
    {
        if self.job.is_some() {
            return Err(Fault::Running);
        }
        if counts.n != self.processor.processors() {
            return Err(Fault::Foreign);
        }
        let mut barrier = Barrier { counts };
        Ok(barrier.poll(&mut self.processor))
    }
}

impl Part {
    ghost use Rattle.rcu_c_slots.specs.Barriers.{OpensPart, PollsPart};

    /// Opens a barrier for all that was accepted, by control or a processor.
    ///
    /// # Errors
    ///
    /// A callback of the processor runs; or the part is of another kind.
    pub fn barrier(&mut self) -> Result<Barrier, Fault>
        ensures { OpensPart result self.old self.new }
    {
        match self {
            Part::Control(control) => match control.barrier(&[]) {
                Ok(barrier) => Ok(barrier),
                Err(_) => unreachable!(),
            },
            Part::Processor(processor) => processor.barrier(),
            other => Err(other.not_resting()),
        }
    }

    /// Whether a barrier of these counts has passed, by control or a processor.
    ///
    /// # Errors
    ///
    /// The barrier counts other processors than there are; or a callback of the processor runs; or the part is of another
    /// kind.
    pub fn poll(&mut self, counts: Counts) -> Result<Option<Passed>, Fault>
        ensures { PollsPart counts result self.old self.new }
    {
        match self {
            Part::Control(control) => poll_control(control, counts),
            Part::Processor(processor) => processor.poll(counts),
            other => Err(other.not_resting()),
        }
    }
}
