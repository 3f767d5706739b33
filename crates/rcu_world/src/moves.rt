//! The events by which a batch moves on: `Draw`, `Join`, `Give`, `Fetch`.

ghost use Rattle.rcu_world.specs.Worlds.{IsFit};
ghost use Rattle.rcu_world.specs.Views.{state};
ghost use Rattle.rcu_world.specs.declared.events.Event.TheVariants as events;
ghost use Rattle.rcu_world.specs.Stays.{Applies};

use crate::cores::Core;
use crate::events::Answer;
use rcu_jobs::Job;

impl<J: Job> Core<J, J::Receipt> {
    pub(crate) fn draw(&mut self, cpu: u64) -> Answer<J>
        requires { IsFit (state J.key_of self.old) }
        ensures answers { Applies J.key_of J.gives self.old (events.Draw cpu) result self.new }
    {
        let i = cpu as usize;
        if i >= self.processors.len() {
            return Answer::Skipped(None);
        }
        let p = &mut self.processors[i];
        if !p.can_draw() {
            return Answer::Skipped(None);
        }
        p.draw();
        Answer::Done
    }

    pub(crate) fn join(&mut self, cpu: u64) -> Answer<J>
        requires { IsFit (state J.key_of self.old) }
        ensures answers { Applies J.key_of J.gives self.old (events.Join cpu) result self.new }
    {
        let i = cpu as usize;
        if i >= self.processors.len() {
            return Answer::Skipped(None);
        }
        let p = &mut self.processors[i];
        if !p.can_join() {
            return Answer::Skipped(None);
        }
        match p.join() {
            Err(_) => Answer::Memory(None),
            Ok(()) => Answer::Done,
        }
    }

    pub(crate) fn give(&mut self, cpu: u64) -> Answer<J>
        requires { IsFit (state J.key_of self.old) }
        ensures answers { Applies J.key_of J.gives self.old (events.Give cpu) result self.new }
    {
        let blimit = self.blimit;
        let i = cpu as usize;
        if i >= self.processors.len() {
            return Answer::Skipped(None);
        }
        let p = &mut self.processors[i];
        if !p.can_give(blimit) {
            return Answer::Skipped(None);
        }
        match p.give(blimit) {
            Err(_) => Answer::Memory(None),
            Ok(()) => Answer::Done,
        }
    }

    pub(crate) fn fetch(&mut self, cpu: u64) -> Answer<J>
        requires { IsFit (state J.key_of self.old) }
        ensures answers { Applies J.key_of J.gives self.old (events.Fetch cpu) result self.new }
    {
        let i = cpu as usize;
        if i >= self.processors.len() {
            return Answer::Skipped(None);
        }
        let p = &mut self.processors[i];
        if !p.can_fetch() {
            return Answer::Skipped(None);
        }
        p.fetch();
        Answer::Done
    }
}
