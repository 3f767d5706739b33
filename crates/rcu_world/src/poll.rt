//! The poll of a barrier (docs/specification/rules.md, "On the core").

ghost use Rattle.std.specs.Prelude.{◌≡◌, ◌<◌, ◌≤◌, true, false, length, IfOk, OnOk, OnErr};
ghost use Rattle.rcu_numbers.specs.declared.shape.TheConstants.{MOST_PROCESSORS};
ghost use Rattle.rcu_world_law.specs.Events.{is_enabled};
ghost use Rattle.rcu_world_law.specs.Events.CoreEvent.{Pass};
ghost use Rattle.rcu_world_law.specs.States.{barrier_at};
ghost use Rattle.rcu_world.specs.Polls.{HasKept, IsPollAnswer, is_seen, poll_events, turns_for};
ghost use Rattle.rcu_world.specs.Turns.{IsAtRest, Leads, upto};
ghost use Rattle.rcu_world.specs.Views.{state};
ghost use Rattle.rcu_world.specs.Worlds.{IsWorld};
ghost use Rattle.rcu_world.specs.Stays.{StaysWorld, LeadsWorld};

use crate::events::Event;
use crate::worlds::World;
use rcu_jobs::{Counts, Job, Passed};
use std::alloc::AllocError;

impl<J: Job> World<J> {
    /// Whether a barrier has seen a processor.
    fn has_seen(&self, barrier: u64, cpu: u64) -> bool
        ensures { result ≡ is_seen (state J.key_of self.now.core) barrier cpu }
    {
        let j = barrier as usize;
        if j >= self.core.barriers.len() {
            return false;
        }
        self.core.barriers[j].has_seen(cpu as usize)
    }

    /// Reads the turns of the processors that the barrier hasn't seen yet.
    fn see_all(&mut self, barrier: u64)
        requires { IsWorld J.key_of J.gives self.old.core }
        ensures events { LeadsWorld J.key_of J.gives self.old.core
            (λ w. upto (turns_for barrier) (length w.cpus) w) self.new.core }
        ensures history { (state J.key_of self.new.core).history
            ≡ (state J.key_of self.old.core).history }
    {
        for place in 0..self.core.processors.len() {
            let cpu = place as u64;
            if self.has_seen(barrier, cpu) {
                continue;
            }
            self.perform(Event::Turn { barrier, cpu });
        }
    }

    /// The counts that a barrier kept.
    fn kept_counts(&self, barrier: u64) -> Counts
        requires few { length (state J.key_of self.now.core).cpus ≤ MOST_PROCESSORS }
        requires there { barrier < length (state J.key_of self.now.core).barriers }
        ensures all { result.n ≡ length (state J.key_of self.now.core).cpus }
        ensures each { HasKept (barrier_at (state J.key_of self.now.core) barrier)
            (length (state J.key_of self.now.core).cpus) result.counts }
    {
        let n = self.core.processors.len();
        let kept = &self.core.barriers[barrier as usize];
        let mut counts = Counts::new(n as u64);
        for cpu in 0..n {
            counts.set(cpu as u64, kept.kept(cpu));
        }
        counts
    }

    /// Reads the turns that an open barrier still waits for: its counts, where it passes with this call. A barrier that was
    /// never opened, or has passed, doesn't pass.
    ///
    /// # Errors
    ///
    /// Want of memory, from `Pass` alone, where each turn was seen to have come as far as its count. The barrier stays open.
    pub fn poll(&mut self, barrier: u64) -> Result<Option<Passed>, AllocError>
        requires world { IsWorld J.key_of J.gives self.old.core }
        requires rest { IsAtRest (state J.key_of self.old.core) }
        ensures events { OnOk result
            (Leads (state J.key_of self.old.core)
            (poll_events barrier (length (state J.key_of self.old.core).cpus)
            (state J.key_of self.old.core)) (state J.key_of self.new.core)) }
        ensures answer { IfOk result
            (IsPollAnswer (state J.key_of self.old.core) barrier (state J.key_of self.new.core)) }
        ensures err { OnErr result
            (Leads (state J.key_of self.old.core)
            (upto (turns_for barrier) (length (state J.key_of self.old.core).cpus)
            (state J.key_of self.old.core)) (state J.key_of self.new.core)) }
        ensures err_enabled { OnErr result
            (is_enabled (state J.key_of self.new.core) (Pass barrier) ≡ true) }
        ensures stays { StaysWorld J.key_of J.gives self.old.core self.new.core }
    {
        self.see_all(barrier);
        if !self.attempt(Event::Pass { barrier })? {
            return Ok(None);
        }
        let counts = self.kept_counts(barrier);
        Ok(Some(Passed { counts }))
    }
}
