//! Polls for a grace period, without a callback, by a processor or control in a slot.

use crate::fault::Fault;
use crate::lent::LentProcessor;
use crate::part::Part;

impl LentProcessor {
    ghost use Rattle.rcu_c_slots.specs.Parts.{Answers, WhereRests};
    ghost use Rattle.rcu_c_slots.specs.Polls.{PollsStateOne, StartsPollOne};

    /// Asks for a grace period that begins after this call, unless a callback runs.
    fn start_poll(&mut self) -> Result<u64, Fault>
        ensures { WhereRests self.old.job (Answers StartsPollOne) result self.old self.new }
    {
        if self.job.is_some() {
            return Err(Fault::Running);
        }
        Ok(self.processor.start_poll())
    }

    /// Whether the grace period of a cookie has ended, unless a callback runs.
    fn poll_state(&mut self, cookie: u64) -> Result<bool, Fault>
        ensures { WhereRests self.old.job (Answers (PollsStateOne cookie)) result self.old
            self.new }
    {
        if self.job.is_some() {
            return Err(Fault::Running);
        }
        Ok(self.processor.poll_state(cookie))
    }
}

impl Part {
    ghost use Rattle.rcu_c_slots.specs.Polls.{PollsStateBy, StartsPollBy};

    /// Asks for a grace period that begins after this call, and answers its cookie.
    ///
    /// # Errors
    ///
    /// A callback of the processor runs, or it is away; or the part is of another kind.
    pub fn start_poll(&mut self) -> Result<u64, Fault>
        ensures { StartsPollBy result self.old self.new }
    {
        match self {
            Part::Control(control) => Ok(control.start_poll()),
            Part::Processor(processor) => processor.start_poll(),
            other => Err(other.not_resting()),
        }
    }

    /// Whether the grace period of a cookie has ended.
    ///
    /// # Errors
    ///
    /// As of [`start_poll`](Part::start_poll).
    pub fn poll_state(&mut self, cookie: u64) -> Result<bool, Fault>
        ensures { PollsStateBy cookie result self.old self.new }
    {
        match self {
            Part::Control(control) => Ok(control.poll_state(cookie)),
            Part::Processor(processor) => processor.poll_state(cookie),
            other => Err(other.not_resting()),
        }
    }
}
