//! The calls by which a processor goes away and comes back (docs/specification/rules.md, "Processors away").

ghost use Rattle.std.specs.Prelude.{◌≡◌, ◌<◌, ◌∷◌, [], true, false, length, None, OnErr};
ghost use Rattle.rcu_world_law.specs.Events.{is_enabled};
ghost use Rattle.rcu_world_law.specs.Events.CoreEvent.{Put, Return};
ghost use Rattle.rcu_world_law.specs.States.{cpu_at};
ghost use Rattle.rcu_world.specs.Turns.{IsAtRest, leave_events};
ghost use Rattle.rcu_world.specs.Views.{state};
ghost use Rattle.rcu_world.specs.Worlds.{IsWorld};
ghost use Rattle.rcu_world.specs.Stays.{LeadsOrNone, LeadsWorld};

use crate::events::Event;
use crate::worlds::World;
use rcu_jobs::Job;
use std::alloc::AllocError;

impl<J: Job> World<J> {
    /// Whether a processor is away.
    pub fn is_away(&self, cpu: u64) -> bool
        ensures { result ≡ (cpu_at (state J.key_of self.now.core) cpu).away }
    {
        let i = cpu as usize;
        if i >= self.core.processors.len() {
            return false;
        }
        self.core.processors[i].is_away()
    }

    /// A processor that is here goes away. Its bypass list is put before.
    ///
    /// # Errors
    ///
    /// Want of memory, only for the put of a bypass list. The processor is here still.
    pub fn leave(&mut self, cpu: u64) -> Result<(), AllocError>
        requires world { IsWorld J.key_of J.gives self.old.core }
        requires there { cpu < length (state J.key_of self.old.core).cpus }
        requires here { (cpu_at (state J.key_of self.old.core) cpu).away ≡ false }
        requires rest { IsAtRest (state J.key_of self.old.core) }
        ensures events { LeadsOrNone J.key_of J.gives self.old.core (λ left. leave_events cpu)
            result self.new.core }
        ensures err_enabled { OnErr result
            (is_enabled (state J.key_of self.old.core) (Put cpu None) ≡ true) }
    {
        self.attempt(Event::Put { cpu, moment: None })?;
        self.perform(Event::Leave { cpu });
        Ok(())
    }

    /// A processor that is away comes back.
    pub fn come_back(&mut self, cpu: u64)
        requires world { IsWorld J.key_of J.gives self.old.core }
        requires there { cpu < length (state J.key_of self.old.core).cpus }
        requires away { (cpu_at (state J.key_of self.old.core) cpu).away ≡ true }
        requires rest { IsAtRest (state J.key_of self.old.core) }
        ensures events { LeadsWorld J.key_of J.gives self.old.core (λ w. Return cpu ∷ [])
            self.new.core }
    {
        self.perform(Event::Return { cpu });
    }
}
