//! Callbacks in two steps, by a processor or a hand in a slot, where the part stands.

use crate::fault::{Fault, fault_of_stop};
use crate::job::ForeignJob;
use crate::lent::{LentHand, LentProcessor};
use crate::part::Part;

impl LentProcessor {
    ghost use Rattle.rcu_c_slots.specs.Runs.{BeginsCpu, FinishesCpu, GoesOnCpu, HandsOut};

    /// Begins a callback, in a tick at this moment, and hands its job out.
    fn begin(&mut self, moment: u64, begun: &mut ForeignJob) -> Result<(), Fault>
        ensures { HandsOut (λ r. BeginsCpu moment r self.old self.new) result begun.old begun.new }
    {
        if self.job.is_some() {
            return Err(Fault::Running);
        }
        match self.processor.begin(moment) {
            Ok(job) => {
                self.job = Some(job);
                *begun = job;
                Ok(())
            }
            Err(stop) => Err(fault_of_stop(stop)),
        }
    }

    /// Ends the callback that runs.
    fn finish(&mut self) -> Result<(), Fault>
        ensures { FinishesCpu result self.old self.new }
    {
        let Some(job) = self.job else {
            return Err(Fault::NotRunning);
        };
        self.processor.finish(job);
        self.job = None;
        Ok(())
    }

    /// Ends the callback that runs, and begins another, in a tick at this moment.
    fn next(&mut self, moment: u64, begun: &mut ForeignJob) -> Result<(), Fault>
        ensures { HandsOut (λ r. GoesOnCpu moment r self.old self.new) result begun.old begun.new }
    {
        match self.finish() {
            Ok(()) => self.begin(moment, begun),
            Err(fault) => Err(fault),
        }
    }
}

impl LentHand {
    ghost use Rattle.rcu_c_slots.specs.Runs.{BeginsHand, FinishesHand, GoesOnHand, HandsOut};

    /// Begins a callback, and hands its job out.
    #[inline(always)]
    fn begin(&mut self, begun: &mut ForeignJob) -> Result<(), Fault>
        ensures { HandsOut (λ r. BeginsHand r self.old self.new) result begun.old begun.new }
    {
        if self.job.is_some() {
            return Err(Fault::Running);
        }
        match self.hand.begin() {
            Ok(job) => {
                self.job = Some(job);
                *begun = job;
                Ok(())
            }
            Err(stop) => Err(fault_of_stop(stop)),
        }
    }

    /// Ends the callback that runs.
    fn finish(&mut self) -> Result<(), Fault>
        ensures { FinishesHand result self.old self.new }
    {
        let Some(job) = self.job else {
            return Err(Fault::NotRunning);
        };
        self.hand.finish(job);
        self.job = None;
        Ok(())
    }

    /// Ends the callback that runs, and begins another, whose job takes the place of its job.
    fn next(&mut self, begun: &mut ForeignJob) -> Result<(), Fault>
        ensures { HandsOut (λ r. GoesOnHand r self.old self.new) result begun.old begun.new }
    {
        let Some(ended) = self.job else {
            return Err(Fault::NotRunning);
        };
        let begins = self.hand.go_on(ended);
        match begins {
            Ok(next) => {
                self.job = Some(next);
                *begun = next;
                Ok(())
            }
            Err(none) => {
                self.job = None;
                Err(fault_of_stop(none))
            }
        }
    }
}

impl Part {
    ghost use Rattle.rcu_c_slots.specs.Runs.{BeginsBy, FinishesBy, GoesOnBy, HandsOut};

    /// Begins a callback, by a processor, in a tick at this moment, or by a hand, and hands its job out, which is to be run
    /// until `finish`.
    ///
    /// # Errors
    ///
    /// Why nothing was begun, as the part says; or a callback runs; or the part is of another kind. No job is handed out.
    pub fn begin(&mut self, moment: u64, begun: &mut ForeignJob) -> Result<(), Fault>
        ensures { HandsOut (λ r. BeginsBy moment r self.old self.new) result begun.old begun.new }
    {
        match self {
            Part::Processor(processor) => processor.begin(moment, begun),
            Part::Hand(hand) => hand.begin(begun),
            other => Err(other.not_resting()),
        }
    }

    /// Ends the callback that was begun, and adds its record.
    ///
    /// # Errors
    ///
    /// None was begun; or the part is of another kind.
    pub fn finish(&mut self) -> Result<(), Fault>
        ensures { FinishesBy result self.old self.new }
    {
        match self {
            Part::Processor(processor) => processor.finish(),
            Part::Hand(hand) => hand.finish(),
            other => Err(other.not_running()),
        }
    }

    /// Ends the callback that was begun, as [`finish`](Part::finish) does, and then begins another, as [`begin`](Part::begin)
    /// does.
    ///
    /// # Errors
    ///
    /// As `finish`, and then nothing was begun; or as `begin`, and then the callback has ended. No job is handed out.
    pub fn next(&mut self, moment: u64, begun: &mut ForeignJob) -> Result<(), Fault>
        ensures { HandsOut (λ r. GoesOnBy moment r self.old self.new) result begun.old begun.new }
    {
        match self {
            Part::Processor(processor) => processor.next(moment, begun),
            Part::Hand(hand) => hand.next(begun),
            other => Err(other.not_running()),
        }
    }
}
