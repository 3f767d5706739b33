//! The calls of control: `shut` and `barrier` (docs/specification/rules.md, "On the core").

ghost use Rattle.rcu_world_law.specs.Events.{is_enabled};
ghost use Rattle.rcu_world_law.specs.Events.CoreEvent.{Shut};
ghost use Rattle.rcu_world_law.specs.States.{cpu_at};
ghost use Rattle.std.specs.Prelude.{◌≡◌, ◌<◌, ◌≤◌, ℕ, true, length, false, IfOk, OnErr, Option, None, Some};
ghost use Rattle.rcu_numbers.specs.declared.shape.TheConstants.{MOST_PROCESSORS};
ghost use Rattle.rcu_world.specs.Turns.{AreCounts, IsAtRest, IsBarrierAnswer, barrier_events, barrier_fault, counts_for, shuts, ticket_fault, upto};
ghost use Rattle.rcu_world.specs.Views.{state};
ghost use Rattle.rcu_world.specs.Worlds.{IsWorld};
ghost use Rattle.rcu_world.specs.Stays.{LeadsOrNone, LeadsUpto, LeadsWorld};

use crate::events::Event;
use crate::worlds::World;
use rcu_jobs::{BarrierFault, Counts, Job, Ticket};
use std::alloc::AllocError;

impl<J: Job> World<J> {
    /// The counts of all processors.
    fn counts(&self) -> Counts
        requires { length (state J.key_of self.now.core).cpus ≤ MOST_PROCESSORS }
        ensures { AreCounts (state J.key_of self.now.core) result.n result.counts }
    {
        let n = self.core.processors.len();
        let mut counts = Counts::new(n as u64);
        for cpu in 0..n {
            counts.set(cpu as u64, self.core.processors[cpu].count());
        }
        counts
    }

    /// Shuts all processors: their final counts.
    ///
    /// # Errors
    ///
    /// Want of memory, at a processor that isn't shut yet. Those before it are shut.
    pub fn shut(&mut self) -> Result<Counts, AllocError>
        requires world { IsWorld J.key_of J.gives self.old.core }
        requires rest { IsAtRest (state J.key_of self.old.core) }
        ensures events { LeadsUpto J.key_of J.gives self.old.core
            (λ w. upto shuts (length w.cpus) w) shuts result self.new.core }
        ensures counts { IfOk result (λ counts.
            AreCounts (state J.key_of self.new.core) counts.n counts.counts) }
        ensures err_enabled { OnErr result
            ((cpu : ℕ) × (is_enabled (state J.key_of self.new.core) (Shut cpu) ≡ true)) }
    {
        for cpu in 0..self.core.processors.len() {
            self.attempt(Event::Shut { cpu: cpu as u64 })?;
        }
        Ok(self.counts())
    }

    /// The first fault of the tickets, in their order.
    fn ticket_fault(&self, tickets: &[Ticket]) -> Option<BarrierFault>
        ensures { result ≡ ticket_fault (state J.key_of self.now.core) tickets.now }
    {
        for ticket in tickets {
            let Ticket { cpu, number } = *ticket;
            if cpu as usize >= self.core.processors.len() {
                return Some(BarrierFault::NoProcessor(cpu));
            }
            let count = self.core.processors[cpu as usize].count();
            if count <= number {
                return Some(BarrierFault::Ahead { cpu, count });
            }
        }
        None
    }

    /// The first fault of a barrier's caller and its tickets.
    fn barrier_fault(&self, by: Option<u64>, tickets: &[Ticket]) -> Option<BarrierFault>
        ensures { result ≡ barrier_fault (state J.key_of self.now.core) by tickets.now }
    {
        match by {
            Some(cpu) if cpu as usize >= self.core.processors.len() => {
                Some(BarrierFault::NoProcessor(cpu))
            }
            Some(_) => self.ticket_fault(tickets),
            None => self.ticket_fault(tickets),
        }
    }

    /// Takes the counts of all processors for an open barrier.
    fn count_all(&mut self, barrier: u64)
        requires { IsWorld J.key_of J.gives self.old.core }
        ensures events { LeadsWorld J.key_of J.gives self.old.core
            (λ w. upto (counts_for barrier) (length w.cpus) w) self.new.core }
    {
        for cpu in 0..self.core.processors.len() {
            self.perform(Event::Count {
                barrier,
                cpu: cpu as u64,
            });
        }
    }

    /// Opens a barrier, which waits for all that was accepted so far: its name. `by` is the processor that calls, which is here,
    /// or none for control. A refused barrier opens nothing.
    pub fn barrier(&mut self, by: Option<u64>, tickets: &[Ticket]) -> Result<u64, BarrierFault>
        requires world { IsWorld J.key_of J.gives self.old.core }
        requires here { (cpu : ℕ) → by ≡ Some cpu
            → (cpu_at (state J.key_of self.old.core) cpu).away ≡ false }
        requires rest { IsAtRest (state J.key_of self.old.core) }
        ensures answer { IsBarrierAnswer (state J.key_of self.old.core) by tickets.now result }
        ensures events { LeadsOrNone J.key_of J.gives self.old.core
            (λ name w. barrier_events name (length w.cpus) w) result self.new.core }
    {
        if let Some(fault) = self.barrier_fault(by, tickets) {
            return Err(fault);
        }
        let barrier = self.core.barriers.len() as u64;
        match self.attempt(Event::Open { barrier }) {
            Err(_) => return Err(BarrierFault::Memory),
            Ok(_) => {}
        }
        self.count_all(barrier);
        self.perform(Event::Urge);
        Ok(barrier)
    }
}
