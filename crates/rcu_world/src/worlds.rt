//! The core as its users see it.

ghost use Rattle.std.specs.Prelude.{◌≡◌, ℕ, length, true, IfOk, IfErr, None};
ghost use Rattle.rcu_world_law.specs.Law.{IsClosed, IsLawful};
ghost use Rattle.rcu_world_law.specs.Closing.{closing};
ghost use Rattle.rcu_world.specs.Leaving.{AreHandedBack, AreRecorded, AreReported, AreRunsOf};
ghost use Rattle.rcu_world.specs.Events.{Answers, Runs};
ghost use Rattle.rcu_world.specs.Ready.{LeavesRoom, UsesRoom};
ghost use Rattle.rcu_world.specs.Turns.{IsAtRest};
ghost use Rattle.rcu_world.specs.Views.{state};
ghost use Rattle.rcu_world.specs.Worlds.{IsWorld, plan};
ghost use Rattle.rcu_jobs.specs.Modes.{is_offloaded};
ghost use Rattle.rcu_world_law.specs.States.{cpu_at, opening};
ghost use Rattle.rcu_world_law.specs.declared.who.Side.TheVariants.{Local};
ghost use Rattle.rcu_world.specs.declared.events.Answer.TheVariants as answers;
ghost use Rattle.rcu_world.specs.declared.events.Event.TheVariants as events;

use crate::cores::Core;
use crate::events::{Answer, Event};
use rcu_jobs::{Closed, Job};
use rcu_numbers::Shape;
use rcu_world_law::marks::Mark;
use std::alloc::{AllocError, Global};

/// The core: its history is lawful.
#[derive(Drop)]
pub struct World<J: Job> {
    pub(crate) core: Core<J, J::Receipt>,
}

impl<J: Job> World<J> {
    /// All processors at rest.
    pub fn new(alloc: Global, shape: Shape) -> Result<Self, AllocError>
        ensures opens { IfOk result (λ w.
            state J.key_of w.core ≡ opening shape.processors (plan shape)) }
        ensures rest { IfOk result (λ w. IsAtRest (state J.key_of w.core)) }
        ensures kept { IfOk result (λ w. IsWorld J.key_of J.gives w.core) }
    {
        let core = Core::new(alloc, shape)?;
        Ok(World { core })
    }

    /// One event. An event that isn't enabled changes nothing, nor does one that finds no room. A Stamp that follows directly
    /// on a done Accept has its room (docs/specification/surface.md, "rcu_world").
    pub fn step(&mut self, event: Event<J>) -> Answer<J>
        requires { IsWorld J.key_of J.gives self.old.core }
        ensures step { Answers J.key_of (state J.key_of self.old.core) event result
            (state J.key_of self.new.core) }
        // While a processor is Offloaded it runs nothing itself.
        ensures offloaded { (cpu : ℕ)
            → is_offloaded (cpu_at (state J.key_of self.old.core) cpu).mode ≡ true
            → event ≡ events.Claim cpu Local → result ≡ answers.Skipped None }
        ensures ready { LeavesRoom event result self.new.core }
        ensures sure { UsesRoom self.old.core event result }
        ensures kept { IsWorld J.key_of J.gives self.new.core }
    {
        self.core.apply(event)
    }

    /// All the events, in order. On an error nothing happened, and they come back.
    pub fn run(&mut self, events: Vec<Event<J>>) -> Result<Vec<Answer<J>>, Vec<Event<J>>>
        requires { IsWorld J.key_of J.gives self.old.core }
        ensures ok { IfOk result (λ answers.
            Runs J.key_of (state J.key_of self.old.core) events.items answers.items
            (state J.key_of self.new.core)) }
        ensures err { IfErr result (λ back. (back ≡ events) × (self.new ≡ self.old)) }
        ensures kept { IsWorld J.key_of J.gives self.new.core }
    {
        let mut answers = Vec::new(self.core.alloc);
        match answers.reserve(events.len()) {
            Err(_) => return Err(events),
            Ok(()) => {}
        }
        for event in events {
            let answer = self.step(event);
            answers.push_reserved(answer);
        }
        Ok(answers)
    }

    /// What happened so far.
    pub fn history(&self) -> &[Mark]
        requires { IsWorld J.key_of J.gives self.now.core }
        ensures all { result.now ≡ (state J.key_of self.now.core).history }
        ensures lawful { IsLawful (length (state J.key_of self.now.core).cpus) result.now }
    {
        self.core.history.as_slice()
    }

    /// Closes the world: its whole history, and what is left of it. A claim that still runs counts as run. Where no room is
    /// found the world comes back unchanged.
    pub fn close(self) -> Result<(Vec<Mark>, Closed<J>), Self>
        requires { IsWorld J.key_of J.gives self.core }
        ensures marks { IfOk result (λ r. r.0.items ≡ closing (state J.key_of self.core)) }
        ensures closed { IfOk result (λ r.
            IsClosed (length (state J.key_of self.core).cpus) r.0.items) }
        ensures ran { IfOk result (λ r.
            AreRecorded J.gives (length (state J.key_of self.core).cpus) r.0.items r.1.ran.items) }
        ensures runs { IfOk result (λ r. AreRunsOf (state J.key_of self.core) r.1.ran.items) }
        ensures back { IfOk result (λ r.
            AreHandedBack J.key_of (length (state J.key_of self.core).cpus) r.0.items
            r.1.back.items) }
        ensures reports { IfOk result (λ r.
            AreReported (length (state J.key_of self.core).cpus) r.0.items r.1.reports.items) }
        ensures err { IfErr result (λ back. back ≡ self) }
    {
        match self.core.find_room() {
            Err(_) => Err(self),
            Ok(room) => Ok(self.core.into_closed(room)),
        }
    }
}
