//! The events of the board word: `Report`, `Start`, `End`.

ghost use Rattle.std.specs.Prelude.{◌≡◌, ◌%◌, ◌&&◌, ◌==◌, ◌<◌, length};
ghost use Rattle.rcu_world.specs.Worlds.{IsFit};
ghost use Rattle.rcu_world.specs.Views.{state};
ghost use Rattle.rcu_world.specs.declared.events.Event.TheVariants as events;
ghost use Rattle.rcu_world.specs.Stays.{Applies};
ghost use Rattle.rcu_world.specs.Boards.{may_start};
ghost use Rattle.rcu_world.specs.Turns.{first_waited, waits_for};

use crate::cores::Core;
use crate::events::Answer;
use rcu_jobs::Job;
use rcu_numbers::GREATEST_NUMBER;
use rcu_world_law::marks::Mark;

fn may_start(number: u64, needed: u64) -> bool
    ensures { result ≡ may_start number needed }
{
    number % 4 == 0 && number < needed && number < GREATEST_NUMBER
}

impl<J: Job> Core<J, J::Receipt> {
    /// Whether the grace period waits for a processor, which owes its report and is here.
    fn waits_for(&self, place: usize) -> bool
        requires { place < length self.now.processors.items }
        ensures { result ≡ waits_for (state J.key_of self.now) place }
    {
        if self.processors[place].is_away() {
            return false;
        }
        self.board.owes(place as u64)
    }

    /// The first processor that the grace period waits for, or their number where there is none.
    pub(crate) fn first_waited(&self) -> u64
        ensures { result ≡ first_waited (state J.key_of self.now) }
    {
        for cpu in 0..self.processors.len() {
            if self.waits_for(cpu) {
                return cpu as u64;
            }
        }
        self.processors.len() as u64
    }

    pub(crate) fn report(&mut self, cpu: u64) -> Answer<J>
        requires { IsFit (state J.key_of self.old) }
        ensures answers { Applies J.key_of J.gives self.old (events.Report cpu) result self.new }
    {
        let i = cpu as usize;
        if i >= self.processors.len() {
            return Answer::Skipped(None);
        }
        if self.processors[i].is_away() {
            return Answer::Skipped(None);
        }
        if self.board.owes(cpu) {
            match self.history.reserve(1) {
                Err(_) => return Answer::Memory(None),
                Ok(()) => {}
            }
            self.history.push_reserved(Mark::Reported(cpu));
        }
        self.board.report(cpu);
        Answer::Done
    }

    pub(crate) fn start(&mut self) -> Answer<J>
        requires { IsFit (state J.key_of self.old) }
        ensures answers { Applies J.key_of J.gives self.old events.Start result self.new }
    {
        if !may_start(self.board.number(), self.needed) {
            return Answer::Skipped(None);
        }
        self.board.start();
        Answer::Done
    }

    pub(crate) fn end(&mut self) -> Answer<J>
        requires { IsFit (state J.key_of self.old) }
        ensures answers { Applies J.key_of J.gives self.old events.End result self.new }
    {
        if self.board.number() % 4 != 1 {
            return Answer::Skipped(None);
        }
        if !self.board.none_owes() {
            return Answer::Skipped(None);
        }
        self.board.end();
        Answer::Done
    }
}
