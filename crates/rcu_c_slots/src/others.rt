//! Calls on a group, the driver and control in slots, and the halt word that other parts read too.

ghost use Rattle.std.specs.Prelude.{◌≡◌};
ghost use Rattle.std.specs.Int.{from_bool};
ghost use Rattle.rcu_c_slots.specs.Others.{SwitchesOne};

use crate::fault::{Fault, fault_of_switch};
use crate::lent::{LentHand, LentProcessor};
use crate::part::Part;
use rcu_jobs::{Counts, DriverTurn, GroupTurn, SwitchFault};
use rcu_parts::Control;

/// Asks that a processor be offloaded (`on`) or local.
fn switch_one(control: &mut Control, processor: u64, on: bool) -> Result<(), SwitchFault>
    ensures { SwitchesOne processor (from_bool on) result control.old control.new }
{
    if on {
        control.offload(processor)
    } else {
        control.deoffload(processor)
    }
}

impl LentProcessor {
    ghost use Rattle.rcu_c_slots.specs.Others.{CpuReadsHalt};
    ghost use Rattle.rcu_c_slots.specs.Parts.{Answers, WhereRests};

    /// Whether the runtime was halted, unless a callback runs.
    fn is_halted(&mut self) -> Result<bool, Fault>
        ensures { WhereRests self.old.job (Answers CpuReadsHalt) result self.old self.new }
    {
        if self.job.is_some() {
            return Err(Fault::Running);
        }
        Ok(self.processor.is_halted())
    }
}

impl LentHand {
    ghost use Rattle.rcu_c_slots.specs.Others.{HandReadsHalt};
    ghost use Rattle.rcu_c_slots.specs.Parts.{Answers, WhereRests};

    /// Whether the runtime was halted, unless a callback runs.
    fn is_halted(&mut self) -> Result<bool, Fault>
        ensures { WhereRests self.old.job (Answers HandReadsHalt) result self.old self.new }
    {
        if self.job.is_some() {
            return Err(Fault::Running);
        }
        Ok(self.hand.is_halted())
    }
}

impl Part {
    ghost use Rattle.rcu_c_slots.specs.Others.{DriverTurnsBy, GroupTurnsBy, HaltsBy, ReadsHaltBy, ShutsBy, SwitchesPart};

    /// A turn of a group.
    ///
    /// # Errors
    ///
    /// The part is of another kind.
    pub fn turn_group(&mut self) -> Result<GroupTurn, Fault>
        ensures { GroupTurnsBy result self.old self.new }
    {
        match self {
            Part::Group(group) => Ok(group.turn()),
            other => Err(other.wrong_kind()),
        }
    }

    /// A turn of the driver.
    ///
    /// # Errors
    ///
    /// The part is of another kind.
    pub fn turn_driver(&mut self) -> Result<DriverTurn, Fault>
        ensures { DriverTurnsBy result self.old self.new }
    {
        match self {
            Part::Driver(driver) => Ok(driver.turn()),
            other => Err(other.wrong_kind()),
        }
    }

    /// Whether the runtime was halted, as the driver, a processor, a hand or a group sees it.
    ///
    /// # Errors
    ///
    /// A callback of the processor or of the hand runs; or the part is of another kind.
    pub fn is_halted(&mut self) -> Result<bool, Fault>
        ensures { ReadsHaltBy result self.old self.new }
    {
        match self {
            Part::Driver(driver) => Ok(driver.is_halted()),
            Part::Processor(processor) => processor.is_halted(),
            Part::Hand(hand) => hand.is_halted(),
            Part::Group(group) => Ok(group.is_halted()),
            other => Err(other.not_resting()),
        }
    }

    /// Asks that a processor be offloaded (`on`) or local, by control.
    ///
    /// # Errors
    ///
    /// Control's refusal, by which nothing was asked for; or the part is of another kind.
    pub fn switch(&mut self, processor: u64, on: bool) -> Result<(), Fault>
        ensures { SwitchesPart processor (from_bool on) result self.old self.new }
    {
        match self {
            Part::Control(control) => match switch_one(control, processor, on) {
                Ok(()) => Ok(()),
                Err(fault) => Err(fault_of_switch(fault)),
            },
            other => Err(other.wrong_kind()),
        }
    }

    /// Shuts every processor, by control. Answers how many callbacks each accepted.
    ///
    /// # Errors
    ///
    /// The part is of another kind.
    pub fn shut(&mut self) -> Result<Counts, Fault>
        ensures { ShutsBy result self.old self.new }
    {
        match self {
            Part::Control(control) => Ok(control.shut()),
            other => Err(other.wrong_kind()),
        }
    }

    /// Sets the halt word, by control.
    ///
    /// # Errors
    ///
    /// The part is of another kind.
    pub fn halt(&mut self) -> Result<(), Fault>
        ensures { HaltsBy result self.old self.new }
    {
        match self {
            Part::Control(control) => {
                control.finish();
                Ok(())
            }
            other => Err(other.wrong_kind()),
        }
    }
}
