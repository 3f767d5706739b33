//! The events of a switch: `Ask`, `Hear`, `Heed`, `Settle`.

ghost use Rattle.std.specs.Prelude.{◌≡◌, false, slice_index_or};
ghost use Rattle.rcu_world.specs.Worlds.{IsFit};
ghost use Rattle.rcu_world.specs.Views.{state};
ghost use Rattle.rcu_world.specs.declared.events.Event.TheVariants as events;
ghost use Rattle.rcu_world.specs.Stays.{Applies};

use crate::cores::Core;
use crate::events::Answer;
use rcu_jobs::Job;

/// Whether the list has a true at this place.
pub(crate) fn is_set(list: &Vec<bool>, i: usize) -> bool
    ensures { result ≡ slice_index_or list.now.items i false }
{
    i < list.len() && list[i]
}

impl<J: Job> Core<J, J::Receipt> {
    pub(crate) fn ask(&mut self, cpu: u64, on: bool) -> Answer<J>
        requires { IsFit (state J.key_of self.old) }
        ensures answers { Applies J.key_of J.gives self.old (events.Ask cpu on) result self.new }
    {
        let i = cpu as usize;
        if i >= self.processors.len() {
            return Answer::Skipped(None);
        }
        if !is_set(&self.offloadable, i) {
            return Answer::Skipped(None);
        }
        let p = &mut self.processors[i];
        p.ask(on);
        Answer::Done
    }

    pub(crate) fn hear(&mut self, cpu: u64) -> Answer<J>
        requires { IsFit (state J.key_of self.old) }
        ensures answers { Applies J.key_of J.gives self.old (events.Hear cpu) result self.new }
    {
        let i = cpu as usize;
        if i >= self.processors.len() {
            return Answer::Skipped(None);
        }
        if !is_set(&self.offloadable, i) {
            return Answer::Skipped(None);
        }
        let p = &mut self.processors[i];
        p.hear();
        Answer::Done
    }

    pub(crate) fn heed(&mut self, cpu: u64) -> Answer<J>
        requires { IsFit (state J.key_of self.old) }
        ensures answers { Applies J.key_of J.gives self.old (events.Heed cpu) result self.new }
    {
        let i = cpu as usize;
        if i >= self.processors.len() {
            return Answer::Skipped(None);
        }
        if !is_set(&self.offloadable, i) {
            return Answer::Skipped(None);
        }
        let p = &mut self.processors[i];
        let _poured = p.heed();
        Answer::Done
    }

    pub(crate) fn settle(&mut self, cpu: u64) -> Answer<J>
        requires { IsFit (state J.key_of self.old) }
        ensures answers { Applies J.key_of J.gives self.old (events.Settle cpu) result self.new }
    {
        let i = cpu as usize;
        if i >= self.processors.len() {
            return Answer::Skipped(None);
        }
        let p = &mut self.processors[i];
        if !p.is_deoffloading() {
            return Answer::Skipped(None);
        }
        p.settle();
        Answer::Done
    }
}
