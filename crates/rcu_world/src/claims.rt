//! The events of a run: `Claim`, `Finish`.

ghost use Rattle.rcu_world.specs.Worlds.{IsFit};
ghost use Rattle.rcu_world.specs.Views.{state};
ghost use Rattle.rcu_world.specs.declared.events.Event.TheVariants as events;
ghost use Rattle.rcu_world.specs.Stays.{Applies};

use crate::cores::Core;
use crate::events::Answer;
use rcu_jobs::Job;
use rcu_world_law::marks::Mark;
use rcu_world_law::who::Side;

impl<J: Job> Core<J, J::Receipt> {
    pub(crate) fn claim(&mut self, cpu: u64, by: Side) -> Answer<J>
        requires { IsFit (state J.key_of self.old) }
        ensures answers { Applies J.key_of J.gives self.old (events.Claim cpu by) result self.new }
    {
        let i = cpu as usize;
        if i >= self.processors.len() {
            return Answer::Skipped(None);
        }
        let p = &mut self.processors[i];
        if !p.can_claim(by) {
            return Answer::Skipped(None);
        }
        match self.history.reserve(1) {
            Err(_) => return Answer::Memory(None),
            Ok(()) => {}
        }
        match p.claim(by) {
            Err(_) => Answer::Memory(None),
            Ok(key) => {
                self.history.push_reserved(Mark::Ran(cpu, key));
                Answer::Done
            }
        }
    }

    pub(crate) fn finish(&mut self, cpu: u64, by: Side) -> Answer<J>
        requires { IsFit (state J.key_of self.old) }
        ensures answers { Applies J.key_of J.gives self.old (events.Finish cpu by) result self.new }
    {
        let i = cpu as usize;
        if i >= self.processors.len() {
            return Answer::Skipped(None);
        }
        let p = &mut self.processors[i];
        if !p.can_finish(by) {
            return Answer::Skipped(None);
        }
        p.finish();
        Answer::Done
    }
}
