//! A group's turn (docs/specification/rules.md, "The calls, step by step").

ghost use Rattle.std.specs.Prelude.{◌≡◌, ◌<◌, ◌≤◌, [], length, if◌then◌else◌, true, IfOk};
ghost use Rattle.rcu_numbers.specs.declared.shape.TheConstants.{MOST_CALLBACKS};
ghost use Rattle.rcu_world_law.specs.Events.{is_enabled};
ghost use Rattle.rcu_world_law.specs.Events.CoreEvent.{Join, LookGroup};
ghost use Rattle.rcu_world_law.specs.States.{is_member};
ghost use Rattle.rcu_world.specs.GroupTurns.{Draws, Gives, IsGroupTurn, Made, Takes, Upto, look_group_events, most_batches, waiting_upto};
ghost use Rattle.rcu_world.specs.Turns.{IsAtRest, where_enabled};
ghost use Rattle.rcu_world.specs.Views.{state};
ghost use Rattle.rcu_world.specs.Worlds.{IsWorld};
ghost use Rattle.rcu_world.specs.Stays.{LeadsWorld, MadeWorld, TurnsWorld};

use crate::events::Event;
use crate::groups::{has_member, is_member_of};
use crate::worlds::World;
use rcu_jobs::{GroupTurn, Job};
use rcu_world_law::who::Who;
use std::alloc::AllocError;

/// The most batches of one member that a turn draws.
const MOST_BATCHES: u64 = 64;

impl<J: Job> World<J> {
    /// Whether there is such a group part: whether the group has an offloadable member.
    pub fn has_group(&self, group: u64) -> bool
        requires { IsWorld J.key_of J.gives self.now.core }
        ensures { result ≡ is_enabled (state J.key_of self.now.core) (LookGroup group) }
    {
        has_member(
            &self.core.processors,
            &self.core.offloadable,
            self.core.stride,
            group,
        )
    }

    /// Whether a processor that is there is a member of the group.
    fn is_member(&self, group: u64, cpu: u64) -> bool
        requires world { IsWorld J.key_of J.gives self.now.core }
        requires there { cpu < length (state J.key_of self.now.core).cpus }
        ensures { result ≡ is_member (state J.key_of self.now.core) group cpu }
    {
        is_member_of(
            &self.core.offloadable,
            self.core.stride,
            group,
            cpu as usize,
        )
    }

    /// A batch that waits joins the list of its member: whether there was room.
    fn join(&mut self, cpu: u64) -> bool
        requires { IsWorld J.key_of J.gives self.old.core }
        ensures events { LeadsWorld J.key_of J.gives self.old.core
            (λ w. if result then where_enabled (Join cpu) w else []) self.new.core }
    {
        match self.attempt(Event::Join { cpu }) {
            Ok(_) => true,
            Err(_) => false,
        }
    }

    /// Draws batches of one processor's lane, each joined to its list: how many callbacks it drew.
    fn draw_some(&mut self, cpu: u64) -> u64
        requires world { IsWorld J.key_of J.gives self.old.core }
        requires there { cpu < length (state J.key_of self.old.core).cpus }
        ensures events { MadeWorld J.key_of J.gives (Draws cpu most_batches) self.old.core
            self.new.core result 0 }
        ensures most { result ≤ 64000000 }
    {
        let mut took = 0;
        for batch in 0..MOST_BATCHES {
            if !self.perform(Event::Draw { cpu }) {
                return took;
            }
            let drawn = self.core.processors[cpu as usize].drawn_len();
            took += drawn;
            if !self.join(cpu) {
                return took;
            }
        }
        took
    }

    /// Takes what waits for one processor, if it is a member of the group: how many callbacks it drew.
    fn take(&mut self, group: u64, cpu: u64) -> u64
        requires world { IsWorld J.key_of J.gives self.old.core }
        requires there { cpu < length (state J.key_of self.old.core).cpus }
        ensures events { MadeWorld J.key_of J.gives (Takes group cpu) self.old.core self.new.core
            result 0 }
        ensures most { result ≤ 64000000 }
    {
        if !self.is_member(group, cpu) {
            return 0;
        }
        self.join(cpu);
        self.draw_some(cpu)
    }

    /// Takes what waits for the members of the group: how many callbacks it drew.
    fn take_all(&mut self, group: u64) -> u64
        requires { IsWorld J.key_of J.gives self.old.core }
        ensures events { MadeWorld J.key_of J.gives
            (Upto (Takes group) (length (state J.key_of self.old.core).cpus)) self.old.core
            self.new.core result 0 }
    {
        let mut took = 0;
        for cpu in 0..self.core.processors.len() {
            let drawn = self.take(group, cpu as u64);
            took += drawn;
        }
        took
    }

    /// The look of a group, and what it asks for.
    fn look_group(&mut self, group: u64)
        requires { IsWorld J.key_of J.gives self.old.core }
        ensures events { MadeWorld J.key_of J.gives (λ w es. es ≡ look_group_events group w)
            self.old.core self.new.core 0 0 }
    {
        self.perform(Event::LookGroup { group });
        self.perform(Event::Need {
            who: Who::Group(group),
        });
    }

    /// Gives what is done to the hand of one processor, if it is a member of the group: how many callbacks.
    fn give(&mut self, group: u64, cpu: u64) -> u64
        requires world { IsWorld J.key_of J.gives self.old.core }
        requires there { cpu < length (state J.key_of self.old.core).cpus }
        ensures events { MadeWorld J.key_of J.gives (Gives group cpu) self.old.core self.new.core 0
            result }
        ensures most { result ≤ MOST_CALLBACKS }
    {
        if !self.is_member(group, cpu) {
            return 0;
        }
        let ready = self.core.processors[cpu as usize].given_len(self.core.blimit);
        match self.attempt(Event::Give { cpu }) {
            Ok(true) => ready,
            Ok(false) => 0,
            Err(_) => 0,
        }
    }

    /// Gives what is done to the hands of the members: how many callbacks.
    fn give_all(&mut self, group: u64) -> u64
        requires { IsWorld J.key_of J.gives self.old.core }
        ensures events { MadeWorld J.key_of J.gives
            (Upto (Gives group) (length (state J.key_of self.old.core).cpus)) self.old.core
            self.new.core 0 result }
    {
        let mut gave = 0;
        for cpu in 0..self.core.processors.len() {
            let put = self.give(group, cpu as u64);
            gave += put;
        }
        gave
    }

    /// How many callbacks of the members wait in batches that were drawn but not joined, or taken out but not put.
    fn waiting(&self, group: u64) -> u64
        requires { IsWorld J.key_of J.gives self.now.core }
        ensures { result
            ≡ waiting_upto group (length (state J.key_of self.now.core).cpus)
            (state J.key_of self.now.core) }
    {
        let mut waiting = 0;
        for cpu in 0..self.core.processors.len() {
            if !self.is_member(group, cpu as u64) {
                continue;
            }
            let p = &self.core.processors[cpu];
            let drawn = p.drawn_len();
            let out = p.out_len();
            waiting += drawn + out;
        }
        waiting
    }

    /// A group's turn: it draws what its members released, looks, and gives what is done to their hands.
    pub fn group_turn(&mut self, group: u64) -> Result<GroupTurn, AllocError>
        requires world { IsWorld J.key_of J.gives self.old.core }
        requires there { is_enabled (state J.key_of self.old.core) (LookGroup group) ≡ true }
        requires rest { IsAtRest (state J.key_of self.old.core) }
        ensures events { TurnsWorld J.key_of J.gives self.old.core
            (λ turn v w. Made (IsGroupTurn group (length v.cpus)) v w turn.took turn.gave) result
            self.new.core }
        ensures held { IfOk result (λ turn.
            turn.held
            ≡ waiting_upto group (length (state J.key_of self.new.core).cpus)
            (state J.key_of self.new.core)) }
    {
        let took = self.take_all(group);
        self.look_group(group);
        let gave = self.give_all(group);
        let held = self.waiting(group);
        Ok(GroupTurn { took, gave, held })
    }
}
