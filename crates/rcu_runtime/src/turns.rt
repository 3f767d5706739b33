//! The turns of a runtime's parts. Nothing moves by itself: a program makes these calls as often as it likes.

ghost use Rattle.std.specs.Prelude.{◌≡◌, IfErr, IfOk};
ghost use Rattle.std.specs.List.{AllZip};
ghost use Rattle.rcu_runtime.specs.Passing.{PassesGroup, PassesHand, PassesTick};

use crate::fault::NoProcessor;
use crate::whole::Whole;
use rcu_jobs::{DriverTurn, Job, Ticked};
use rcu_parts::{AllParts, Group, Hand, Processor};

/// A report and a tick of each processor.
fn turn_each_processor<J: Job>(processors: &mut Vec<Processor<J>>, moment: u64)
    ensures { AllZip (PassesTick J.key_of J.gives moment) processors.old.items
        processors.new.items }
{
    for processor in processors.iter_mut() {
        processor.quiescent();
        processor.tick(moment);
    }
}

/// A turn of each group.
fn turn_each_group<J: Job>(groups: &mut Vec<Group<J>>)
    ensures { AllZip PassesGroup groups.old.items groups.new.items }
{
    for group in groups.iter_mut() {
        group.turn();
    }
}

/// A turn of each hand.
fn turn_each_hand<J: Job>(hands: &mut Vec<Hand<J>>)
    ensures { AllZip (PassesHand J.key_of J.gives) hands.old.items hands.new.items }
{
    for hand in hands.iter_mut() {
        hand.turn();
    }
}

impl<J: Job> Whole<AllParts<Processor<J>, Group<J>, Hand<J>>> {
    ghost use Rattle.rcu_runtime.specs.Calls.{FindsNone, OnProcessor, ReportsOnce};
    ghost use Rattle.rcu_runtime.specs.Runtimes.{accepted_in};
    ghost use Rattle.rcu_runtime.specs.Turns.{Ticks, TurnsAll, TurnsDriver, TurnsGroups, TurnsHands, TurnsProcessors};

    /// Reports a quiescent state of processor `p`. Answers the number of the grace period that counted it, or None.
    ///
    /// # Errors
    ///
    /// There is no such processor.
    pub fn quiescent(&mut self, p: u64) -> Result<Option<u64>, NoProcessor>
        ensures ok { IfOk result (λ counted.
            OnProcessor p (ReportsOnce counted) self.old self.new) }
        ensures err { IfErr result (λ fault. FindsNone p fault self.old self.new) }
        ensures none { accepted_in self.new ≡ accepted_in self.old }
    {
        if p >= self.processors() {
            return Err(NoProcessor { cpu: p });
        }
        Ok(self.parts.processors[p as usize].quiescent())
    }

    /// A tick of processor `p`, at a moment of the caller's clock: it runs what is done, at most `blimit` callbacks.
    ///
    /// # Errors
    ///
    /// There is no such processor.
    pub fn tick(&mut self, p: u64, moment: u64) -> Result<Ticked, NoProcessor>
        ensures ok { IfOk result (λ ticked. OnProcessor p (Ticks moment ticked) self.old self.new) }
        ensures err { IfErr result (λ fault. FindsNone p fault self.old self.new) }
        ensures none { accepted_in self.new ≡ accepted_in self.old }
    {
        if p >= self.processors() {
            return Err(NoProcessor { cpu: p });
        }
        Ok(self.parts.processors[p as usize].tick(moment))
    }

    /// Each processor reports a quiescent state, and ticks.
    pub fn turn_processors(&mut self, moment: u64)
        ensures turns { TurnsProcessors moment self.old self.new }
    {
        turn_each_processor(&mut self.parts.processors, moment);
    }

    /// A turn of each group: it takes what offloaded processors released, and gives what is done to their hands.
    pub fn turn_groups(&mut self)
        ensures turns { TurnsGroups self.old self.new }
    {
        turn_each_group(&mut self.parts.groups);
    }

    /// A turn of each hand: it runs what the group gave it, at most `blimit` callbacks.
    pub fn turn_hands(&mut self)
        ensures turns { TurnsHands self.old self.new }
    {
        turn_each_hand(&mut self.parts.hands);
    }

    /// A turn of the driver: it starts a grace period where one is needed, or ends the one in progress.
    pub fn turn_driver(&mut self) -> DriverTurn
        ensures turns { TurnsDriver result self.old self.new }
    {
        self.parts.driver.turn()
    }

    /// One turn of every part: each processor reports and ticks, then come the groups, the hands and the driver.
    pub fn turn_all(&mut self, moment: u64) -> DriverTurn
        ensures turns { TurnsAll moment result self.old self.new }
    {
        let parts = &mut self.parts;
        turn_each_processor(&mut parts.processors, moment);
        turn_each_group(&mut parts.groups);
        turn_each_hand(&mut parts.hands);
        parts.driver.turn()
    }
}
