//! The events of a look: `Look`, `LookGroup`, `LookHand`, `Need`.

ghost use Rattle.rcu_world_law.specs.declared.who.Who.TheVariants as who;
ghost use Rattle.rcu_world.specs.Worlds.{IsFit};
ghost use Rattle.rcu_world.specs.Views.{state};
ghost use Rattle.rcu_world.specs.declared.events.Event.TheVariants as events;
ghost use Rattle.rcu_world.specs.Stays.{Applies};

use crate::cores::Core;
use crate::events::Answer;
use crate::groups::{forget_members, has_member, look_members, most_wanted, wants_member};
use crate::modes::is_set;
use rcu_jobs::Job;

impl<J: Job> Core<J, J::Receipt> {
    pub(crate) fn look(&mut self, cpu: u64) -> Answer<J>
        requires { IsFit (state J.key_of self.old) }
        ensures answers { Applies J.key_of J.gives self.old (events.Look cpu) result self.new }
    {
        let i = cpu as usize;
        let number = self.board.number();
        if i >= self.processors.len() {
            return Answer::Skipped(None);
        }
        let p = &mut self.processors[i];
        if p.is_away() {
            return Answer::Skipped(None);
        }
        p.look(number);
        Answer::Done
    }

    pub(crate) fn look_hand(&mut self, cpu: u64) -> Answer<J>
        requires { IsFit (state J.key_of self.old) }
        ensures answers { Applies J.key_of J.gives self.old (events.LookHand cpu) result self.new }
    {
        let number = self.board.number();
        let i = cpu as usize;
        if i >= self.processors.len() {
            return Answer::Skipped(None);
        }
        if !is_set(&self.offloadable, i) {
            return Answer::Skipped(None);
        }
        let p = &mut self.processors[i];
        p.look_hand(number);
        Answer::Done
    }

    pub(crate) fn need_own(&mut self, cpu: u64) -> Answer<J>
        requires { IsFit (state J.key_of self.old) }
        ensures answers { Applies J.key_of J.gives self.old (events.Need (who.Cpu cpu))
            result self.new }
    {
        let i = cpu as usize;
        if i >= self.processors.len() {
            return Answer::Skipped(None);
        }
        let p = &mut self.processors[i];
        match p.wanted() {
            None => Answer::Skipped(None),
            Some(number) => {
                p.forget();
                self.needed = self.needed.max(number);
                Answer::Done
            }
        }
    }

    pub(crate) fn look_group(&mut self, group: u64) -> Answer<J>
        requires { IsFit (state J.key_of self.old) }
        ensures answers { Applies J.key_of J.gives self.old (events.LookGroup group)
            result self.new }
    {
        let number = self.board.number();
        if !has_member(&self.processors, &self.offloadable, self.stride, group) {
            return Answer::Skipped(None);
        }
        look_members(
            &mut self.processors,
            &self.offloadable,
            self.stride,
            group,
            number,
        );
        Answer::Done
    }

    pub(crate) fn need_group(&mut self, group: u64) -> Answer<J>
        requires { IsFit (state J.key_of self.old) }
        ensures answers { Applies J.key_of J.gives self.old (events.Need (who.Group group))
            result self.new }
    {
        if !wants_member(&self.processors, &self.offloadable, self.stride, group) {
            return Answer::Skipped(None);
        }
        self.needed = most_wanted(
            &self.processors,
            &self.offloadable,
            self.stride,
            group,
            self.needed,
        );
        forget_members(&mut self.processors, &self.offloadable, self.stride, group);
        Answer::Done
    }
}
