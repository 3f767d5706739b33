//! The calls that take a job on: `call_rcu` and `call_rcu_lazy` (docs/specification/rules.md, "The calls, step by step").

ghost use Rattle.std.specs.Prelude.{◌≡◌, ◌∷◌, [], ◌<◌, Bool, true, false, length, IfErr, OnOk, OnErr};
ghost use Rattle.rcu_world_law.specs.Events.{is_enabled};
ghost use Rattle.rcu_world_law.specs.States.{cpu_at};
ghost use Rattle.rcu_world_law.specs.Events.CoreEvent.{Accept, Stamp};
ghost use Rattle.rcu_world.specs.Ready.{IsReadyAt, IsRefusal};
ghost use Rattle.rcu_world.specs.Turns.{IsAtRest, IsAtRestBut, Leads, stamp_events};
ghost use Rattle.rcu_world.specs.Views.{state, SameState};
ghost use Rattle.rcu_world.specs.Worlds.{IsWorld};
ghost use Rattle.rcu_world.specs.Stays.{KeepsWorld};
ghost use Rattle.rcu_world.specs.Calls.{CallsAs};

use crate::events::Answer;
use crate::worlds::World;
use rcu_jobs::{Job, Refused, Ticket};

impl<J: Job> World<J> {
    /// Accepts the job, with room for the Stamp that follows.
    fn accept_call(&mut self, cpu: u64, job: J) -> Result<(), Refused<J>>
        requires world { IsWorld J.key_of J.gives self.old.core }
        requires there { cpu < length (state J.key_of self.old.core).cpus }
        requires here { (cpu_at (state J.key_of self.old.core) cpu).away ≡ false }
        requires rest { IsAtRest (state J.key_of self.old.core) }
        ensures events { OnOk result
            (Leads (state J.key_of self.old.core) (Accept cpu (J.key_of job) ∷ [])
            (state J.key_of self.new.core)) }
        ensures ready { OnOk result (IsReadyAt self.new.core cpu) }
        ensures rest { OnOk result (IsAtRestBut cpu (state J.key_of self.new.core)) }
        ensures same { OnErr result (SameState J.key_of self.old.core self.new.core) }
        ensures refused { IfErr result (IsRefusal (state J.key_of self.old.core) cpu job) }
        ensures keeps { KeepsWorld J.key_of J.gives self.old.core self.new.core }
    {
        let limit = self.core.limit;
        let count = self.core.processors[cpu as usize].count();
        match self.core.accept(cpu, job) {
            Answer::Skipped(Some(back)) if count >= limit => Err(Refused::Limit(back)),
            Answer::Skipped(Some(back)) => Err(Refused::Closed(back)),
            Answer::Memory(Some(back)) => Err(Refused::Memory(back)),
            Answer::Skipped(None) => unreachable!(),
            Answer::Memory(None) => unreachable!(),
            Answer::Done => Ok(()),
            Answer::Due => Ok(()),
        }
    }

    /// Stamps the callback that was accepted just before, and puts a released list.
    fn stamp_call(&mut self, cpu: u64, moment: u64, lazy: bool)
        requires world { IsWorld J.key_of J.gives self.old.core }
        requires ready { IsReadyAt self.old.core cpu }
        requires fresh { is_enabled (state J.key_of self.old.core) (Stamp cpu moment lazy) ≡ true }
        ensures events { (room : Bool)
            × Leads (state J.key_of self.old.core)
            (stamp_events cpu moment lazy room (state J.key_of self.old.core))
            (state J.key_of self.new.core) }
        ensures rest { IsAtRestBut cpu (state J.key_of self.old.core)
            → IsAtRest (state J.key_of self.new.core) }
        ensures keeps { KeepsWorld J.key_of J.gives self.old.core self.new.core }
    {
        match self.core.stamp(cpu, moment, lazy) {
            Answer::Due => {
                self.put(cpu, None);
            }
            Answer::Done => {}
            Answer::Skipped(_) => unreachable!(),
            Answer::Memory(_) => unreachable!(),
        }
    }

    fn call(&mut self, cpu: u64, moment: u64, lazy: bool, job: J) -> Result<Ticket, Refused<J>>
        requires world { IsWorld J.key_of J.gives self.old.core }
        requires there { cpu < length (state J.key_of self.old.core).cpus }
        requires here { (cpu_at (state J.key_of self.old.core) cpu).away ≡ false }
        requires rest { IsAtRest (state J.key_of self.old.core) }
        ensures called { CallsAs J.key_of J.gives cpu moment lazy job result
            self.old.core self.new.core }
    {
        let number = self.core.processors[cpu as usize].count();
        self.accept_call(cpu, job)?;
        self.stamp_call(cpu, moment, lazy);
        Ok(Ticket { cpu, number })
    }

    /// Takes a job on for a processor that is here, to be run once every processor has reported a quiescent state. The refusals are tested in the order
    /// `Limit`, `Closed`, `Memory`.
    pub fn call_rcu(&mut self, cpu: u64, moment: u64, job: J) -> Result<Ticket, Refused<J>>
        requires world { IsWorld J.key_of J.gives self.old.core }
        requires there { cpu < length (state J.key_of self.old.core).cpus }
        requires here { (cpu_at (state J.key_of self.old.core) cpu).away ≡ false }
        requires rest { IsAtRest (state J.key_of self.old.core) }
        ensures called { CallsAs J.key_of J.gives cpu moment false job result
            self.old.core self.new.core }
    {
        self.call(cpu, moment, false, job)
    }

    /// As `call_rcu`, but in Offloaded the callback may wait in the bypass list for longer.
    pub fn call_rcu_lazy(&mut self, cpu: u64, moment: u64, job: J) -> Result<Ticket, Refused<J>>
        requires world { IsWorld J.key_of J.gives self.old.core }
        requires there { cpu < length (state J.key_of self.old.core).cpus }
        requires here { (cpu_at (state J.key_of self.old.core) cpu).away ≡ false }
        requires rest { IsAtRest (state J.key_of self.old.core) }
        ensures called { CallsAs J.key_of J.gives cpu moment true job result
            self.old.core self.new.core }
    {
        self.call(cpu, moment, true, job)
    }
}
