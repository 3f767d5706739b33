//! The events by which a callback comes in: `Accept`, `Stamp`, `Put`.

ghost use Rattle.std.specs.Prelude.{◌≡◌, true, false};
ghost use Rattle.rcu_world.specs.Ready.{IsReadyAt, is_done, lacks_room};
ghost use Rattle.rcu_world.specs.Worlds.{IsFit};
ghost use Rattle.rcu_world.specs.Views.{state, AllGiven};
ghost use Rattle.rcu_world.specs.declared.events.Event.TheVariants as events;
ghost use Rattle.rcu_world.specs.Stays.{Applies};

use crate::cores::Core;
use crate::events::Answer;
use rcu_jobs::Job;
use rcu_world_law::marks::Mark;

impl<J: Job> Core<J, J::Receipt> {
    pub(crate) fn accept(&mut self, cpu: u64, job: J) -> Answer<J>
        requires { IsFit (state J.key_of self.old) }
        ensures answers { Applies J.key_of J.gives self.old (events.Accept cpu job)
            result self.new }
        ensures ready { is_done result ≡ true → IsReadyAt self.new cpu }
    {
        let i = cpu as usize;
        if i >= self.processors.len() {
            return Answer::Skipped(Some(job));
        }
        let p = &mut self.processors[i];
        if !p.can_accept(self.limit) {
            return Answer::Skipped(Some(job));
        }
        match self.history.reserve(1) {
            Err(_) => return Answer::Memory(Some(job)),
            Ok(()) => {}
        }
        match p.reserve() {
            Err(_) => return Answer::Memory(Some(job)),
            Ok(()) => {}
        }
        let key = job.key();
        p.accept(cpu, job);
        self.history.push_reserved(Mark::Accepted(cpu, key));
        Answer::Done
    }

    pub(crate) fn stamp(&mut self, cpu: u64, moment: u64, lazy: bool) -> Answer<J>
        requires fit { IsFit (state J.key_of self.old) }
        requires given { AllGiven J.gives self.old }
        ensures answers { Applies J.key_of J.gives self.old (events.Stamp cpu moment lazy)
            result self.new }
        ensures sure { IsReadyAt self.old cpu → lacks_room result ≡ false }
    {
        let number = self.board.number();
        let i = cpu as usize;
        if i >= self.processors.len() {
            return Answer::Skipped(None);
        }
        let p = &mut self.processors[i];
        if !p.is_fresh() {
            return Answer::Skipped(None);
        }
        match p.stamp(number, moment, lazy) {
            Err(_) => Answer::Memory(None),
            Ok(true) => Answer::Due,
            Ok(false) => Answer::Done,
        }
    }

    pub(crate) fn put(&mut self, cpu: u64, moment: Option<u64>) -> Answer<J>
        requires { IsFit (state J.key_of self.old) }
        ensures answers { Applies J.key_of J.gives self.old (events.Put cpu moment)
            result self.new }
    {
        let i = cpu as usize;
        if i >= self.processors.len() {
            return Answer::Skipped(None);
        }
        let p = &mut self.processors[i];
        if !p.can_put() {
            return Answer::Skipped(None);
        }
        match p.put(moment) {
            Err(_) => Answer::Memory(None),
            Ok(()) => Answer::Done,
        }
    }
}
