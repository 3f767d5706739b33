//! The events of a barrier: `Open`, `Count`, `Urge`, `Turn`, `Pass`; and `Shut`.

ghost use Rattle.std.specs.Prelude.{◌≡◌, ℕ};
ghost use Rattle.std.specs.List.{AllByRecursion};
ghost use Rattle.rcu_world_law.specs.Events.{each_cpu};
ghost use Rattle.rcu_world_processor.specs.Views.{AreGiven};
ghost use Rattle.rcu_world.specs.Members.{urge_step};
ghost use Rattle.rcu_world.specs.Worlds.{IsFit};
ghost use Rattle.rcu_world.specs.Views.{all_seen, state};
ghost use Rattle.rcu_world.specs.declared.events.Event.TheVariants as events;
ghost use Rattle.rcu_world.specs.Stays.{Applies};

use crate::barriers::Barring;
use crate::cores::Core;
use crate::events::Answer;
use rcu_jobs::Job;
use rcu_world_law::marks::Mark;
use rcu_world_processor::WorldProcessor;

/// All processors are urged.
fn urge_all<J: Job>(processors: &mut Vec<WorldProcessor<J, J::Receipt>>)
    ensures urges { all_seen J.key_of processors.new.items
        ≡ each_cpu urge_step 0 (all_seen J.key_of processors.old.items) }
    ensures given { (mark : ℕ) → AllByRecursion (AreGiven J.gives mark) processors.old.items
        → AllByRecursion (AreGiven J.gives mark) processors.new.items }
{
    for i in 0..processors.len() {
        let p = &mut processors[i];
        p.urge();
    }
}

impl<J: Job> Core<J, J::Receipt> {
    pub(crate) fn open(&mut self, barrier: u64) -> Answer<J>
        requires { IsFit (state J.key_of self.old) }
        ensures answers { Applies J.key_of J.gives self.old (events.Open barrier) result self.new }
    {
        if barrier != self.barriers.len() as u64 {
            return Answer::Skipped(None);
        }
        match self.history.reserve(1) {
            Err(_) => return Answer::Memory(None),
            Ok(()) => {}
        }
        match self.barriers.reserve(1) {
            Err(_) => return Answer::Memory(None),
            Ok(()) => {}
        }
        match Barring::new(self.alloc, self.processors.len()) {
            Err(_) => Answer::Memory(None),
            Ok(opened) => {
                self.barriers.push_reserved(opened);
                self.history.push_reserved(Mark::Opened(barrier));
                Answer::Done
            }
        }
    }

    pub(crate) fn count(&mut self, barrier: u64, cpu: u64) -> Answer<J>
        requires { IsFit (state J.key_of self.old) }
        ensures answers { Applies J.key_of J.gives self.old (events.Count barrier cpu)
            result self.new }
    {
        let j = barrier as usize;
        let i = cpu as usize;
        if j >= self.barriers.len() {
            return Answer::Skipped(None);
        }
        if i >= self.processors.len() {
            return Answer::Skipped(None);
        }
        let count = self.processors[i].count();
        let b = &mut self.barriers[j];
        if b.passed {
            return Answer::Skipped(None);
        }
        if !b.is_uncounted(i) {
            return Answer::Skipped(None);
        }
        b.count(i, count);
        Answer::Done
    }

    pub(crate) fn turn(&mut self, barrier: u64, cpu: u64) -> Answer<J>
        requires { IsFit (state J.key_of self.old) }
        ensures answers { Applies J.key_of J.gives self.old (events.Turn barrier cpu)
            result self.new }
    {
        let j = barrier as usize;
        let i = cpu as usize;
        if j >= self.barriers.len() {
            return Answer::Skipped(None);
        }
        if i >= self.processors.len() {
            return Answer::Skipped(None);
        }
        let turn = self.processors[i].turn();
        let b = &mut self.barriers[j];
        if b.passed {
            return Answer::Skipped(None);
        }
        if b.is_uncounted(i) {
            return Answer::Skipped(None);
        }
        b.see(i, turn);
        Answer::Done
    }

    pub(crate) fn pass(&mut self, barrier: u64) -> Answer<J>
        requires { IsFit (state J.key_of self.old) }
        ensures answers { Applies J.key_of J.gives self.old (events.Pass barrier) result self.new }
    {
        let j = barrier as usize;
        if j >= self.barriers.len() {
            return Answer::Skipped(None);
        }
        let b = &mut self.barriers[j];
        if b.passed {
            return Answer::Skipped(None);
        }
        if !b.is_seen() {
            return Answer::Skipped(None);
        }
        match self.history.reserve(1) {
            Err(_) => return Answer::Memory(None),
            Ok(()) => {}
        }
        b.passed = true;
        self.history.push_reserved(Mark::Passed(barrier));
        Answer::Done
    }

    pub(crate) fn shut(&mut self, cpu: u64) -> Answer<J>
        requires { IsFit (state J.key_of self.old) }
        ensures answers { Applies J.key_of J.gives self.old (events.Shut cpu) result self.new }
    {
        let i = cpu as usize;
        if i >= self.processors.len() {
            return Answer::Skipped(None);
        }
        let p = &mut self.processors[i];
        if !p.is_open() {
            return Answer::Skipped(None);
        }
        match self.history.reserve(1) {
            Err(_) => return Answer::Memory(None),
            Ok(()) => {}
        }
        p.shut();
        self.history.push_reserved(Mark::Shut(cpu));
        Answer::Done
    }

    pub(crate) fn urge(&mut self) -> Answer<J>
        requires { IsFit (state J.key_of self.old) }
        ensures answers { Applies J.key_of J.gives self.old events.Urge result self.new }
    {
        urge_all(&mut self.processors);
        Answer::Done
    }
}
