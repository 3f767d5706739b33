//! The events of a processor that goes away: `Leave`, `Return`, and the driver's `Meet`.

ghost use Rattle.rcu_world.specs.Worlds.{IsFit};
ghost use Rattle.rcu_world.specs.Views.{state};
ghost use Rattle.rcu_world.specs.declared.events.Event.TheVariants as events;
ghost use Rattle.rcu_world.specs.Stays.{Applies};

use crate::cores::Core;
use crate::events::Answer;
use rcu_jobs::Job;
use rcu_world_law::marks::Mark;

impl<J: Job> Core<J, J::Receipt> {
    pub(crate) fn leave(&mut self, cpu: u64) -> Answer<J>
        requires { IsFit (state J.key_of self.old) }
        ensures answers { Applies J.key_of J.gives self.old (events.Leave cpu) result self.new }
    {
        let i = cpu as usize;
        if i >= self.processors.len() {
            return Answer::Skipped(None);
        }
        let p = &mut self.processors[i];
        if !p.can_leave() {
            return Answer::Skipped(None);
        }
        p.go_away();
        Answer::Done
    }

    pub(crate) fn come_back(&mut self, cpu: u64) -> Answer<J>
        requires { IsFit (state J.key_of self.old) }
        ensures answers { Applies J.key_of J.gives self.old (events.Return cpu) result self.new }
    {
        let i = cpu as usize;
        if i >= self.processors.len() {
            return Answer::Skipped(None);
        }
        let p = &mut self.processors[i];
        if !p.is_away() {
            return Answer::Skipped(None);
        }
        p.come_back();
        Answer::Done
    }

    /// The driver reports for a processor that is away.
    pub(crate) fn meet(&mut self, cpu: u64) -> Answer<J>
        requires { IsFit (state J.key_of self.old) }
        ensures answers { Applies J.key_of J.gives self.old (events.Meet cpu) result self.new }
    {
        let i = cpu as usize;
        if i >= self.processors.len() {
            return Answer::Skipped(None);
        }
        if !self.processors[i].is_away() {
            return Answer::Skipped(None);
        }
        if !self.board.owes(cpu) {
            return Answer::Skipped(None);
        }
        match self.history.reserve(1) {
            Err(_) => return Answer::Memory(None),
            Ok(()) => {}
        }
        self.history.push_reserved(Mark::Reported(cpu));
        self.board.report(cpu);
        Answer::Done
    }
}
