//! Calls on the part of a slot.

ghost use Rattle.std.specs.Int.{from_bool};
ghost use Rattle.std.specs.Prelude.{◌≡◌, IfErr, IfOk, None};
ghost use Rattle.rcu_c_slots.specs.Away.{LeavesBy, ReturnsBy};
ghost use Rattle.rcu_c_slots.specs.Barriers.{OpensPart, PollsPart};
ghost use Rattle.rcu_c_slots.specs.Gathers.{HasEnds, RefusesEnd};
ghost use Rattle.rcu_c_slots.specs.Others.{DriverTurnsBy, GroupTurnsBy, HaltsBy, ReadsHaltBy, ShutsBy, SwitchesPart};
ghost use Rattle.rcu_c_slots.specs.Polls.{PollsStateBy, StartsPollBy};
ghost use Rattle.rcu_c_slots.specs.Processors.{CallsBy, ReportsBy};
ghost use Rattle.rcu_c_slots.specs.Runs.{BeginsBy, FinishesBy, GoesOnBy, HandsOut};
ghost use Rattle.rcu_c_slots.specs.Shows.{OnlyShows, ShowsAccepted, ShowsBack, ShowsLeft, ShowsLists, ShowsRan, ShowsReports};
ghost use Rattle.rcu_c_slots.specs.Slots.{OnSlot};

use crate::fault::Fault;
use crate::job::ForeignJob;
use crate::slot::Slot;
use rcu_jobs::{Counts, DriverTurn, GroupTurn, Lists, Passed, Record, Ticket};
use rcu_lists::Kind;
use rcu_parts::Barrier;
use std::alloc::Global;

impl Slot {
    /// `Part::call` of the slot's part.
    ///
    /// # Errors
    ///
    /// As that, or the slot is empty.
    pub fn call(
        &mut self,
        alloc: Global,
        kind: Kind,
        moment: u64,
        job: ForeignJob,
    ) -> Result<Ticket, Fault>
        ensures { OnSlot (CallsBy kind moment job) result self.old self.new }
    {
        let Some(mut boxed) = self.take(alloc) else {
            return Err(Fault::Empty);
        };
        let answer = boxed.part.call(kind, moment, job);
        self.put(boxed);
        answer
    }

    /// `Part::quiescent` of the slot's part.
    ///
    /// # Errors
    ///
    /// As that, or the slot is empty.
    pub fn quiescent(&mut self, alloc: Global) -> Result<Option<u64>, Fault>
        ensures { OnSlot ReportsBy result self.old self.new }
    {
        let Some(mut boxed) = self.take(alloc) else {
            return Err(Fault::Empty);
        };
        let answer = boxed.part.quiescent();
        self.put(boxed);
        answer
    }

    /// `Part::turn_group` of the slot's part.
    ///
    /// # Errors
    ///
    /// As that, or the slot is empty.
    pub fn turn_group(&mut self, alloc: Global) -> Result<GroupTurn, Fault>
        ensures { OnSlot GroupTurnsBy result self.old self.new }
    {
        let Some(mut boxed) = self.take(alloc) else {
            return Err(Fault::Empty);
        };
        let answer = boxed.part.turn_group();
        self.put(boxed);
        answer
    }

    /// `Part::turn_driver` of the slot's part.
    ///
    /// # Errors
    ///
    /// As that, or the slot is empty.
    pub fn turn_driver(&mut self, alloc: Global) -> Result<DriverTurn, Fault>
        ensures { OnSlot DriverTurnsBy result self.old self.new }
    {
        let Some(mut boxed) = self.take(alloc) else {
            return Err(Fault::Empty);
        };
        let answer = boxed.part.turn_driver();
        self.put(boxed);
        answer
    }

    /// `Part::is_halted` of the slot's part.
    ///
    /// # Errors
    ///
    /// As that, or the slot is empty.
    pub fn is_halted(&mut self, alloc: Global) -> Result<bool, Fault>
        ensures { OnSlot ReadsHaltBy result self.old self.new }
    {
        let Some(mut boxed) = self.take(alloc) else {
            return Err(Fault::Empty);
        };
        let answer = boxed.part.is_halted();
        self.put(boxed);
        answer
    }

    /// `Part::switch` of the slot's part.
    ///
    /// # Errors
    ///
    /// As that, or the slot is empty.
    pub fn switch(&mut self, alloc: Global, processor: u64, on: bool) -> Result<(), Fault>
        ensures { OnSlot (SwitchesPart processor (from_bool on)) result self.old self.new }
    {
        let Some(mut boxed) = self.take(alloc) else {
            return Err(Fault::Empty);
        };
        let answer = boxed.part.switch(processor, on);
        self.put(boxed);
        answer
    }

    /// `Part::shut` of the slot's part.
    ///
    /// # Errors
    ///
    /// As that, or the slot is empty.
    pub fn shut(&mut self, alloc: Global) -> Result<Counts, Fault>
        ensures { OnSlot ShutsBy result self.old self.new }
    {
        let Some(mut boxed) = self.take(alloc) else {
            return Err(Fault::Empty);
        };
        let answer = boxed.part.shut();
        self.put(boxed);
        answer
    }

    /// `Part::halt` of the slot's part.
    ///
    /// # Errors
    ///
    /// As that, or the slot is empty.
    pub fn halt(&mut self, alloc: Global) -> Result<(), Fault>
        ensures { OnSlot HaltsBy result self.old self.new }
    {
        let Some(mut boxed) = self.take(alloc) else {
            return Err(Fault::Empty);
        };
        let answer = boxed.part.halt();
        self.put(boxed);
        answer
    }

    /// `Part::barrier` of the slot's part.
    ///
    /// # Errors
    ///
    /// As that, or the slot is empty.
    pub fn barrier(&mut self, alloc: Global) -> Result<Barrier, Fault>
        ensures { OnSlot OpensPart result self.old self.new }
    {
        let Some(mut boxed) = self.take(alloc) else {
            return Err(Fault::Empty);
        };
        let answer = boxed.part.barrier();
        self.put(boxed);
        answer
    }

    /// `Part::poll` of the slot's part.
    ///
    /// # Errors
    ///
    /// As that, or the slot is empty.
    pub fn poll(&mut self, alloc: Global, counts: Counts) -> Result<Option<Passed>, Fault>
        ensures { OnSlot (PollsPart counts) result self.old self.new }
    {
        let Some(mut boxed) = self.take(alloc) else {
            return Err(Fault::Empty);
        };
        let answer = boxed.part.poll(counts);
        self.put(boxed);
        answer
    }

    /// `Part::start_poll` of the slot's part.
    ///
    /// # Errors
    ///
    /// As that, or the slot is empty.
    pub fn start_poll(&mut self, alloc: Global) -> Result<u64, Fault>
        ensures { OnSlot StartsPollBy result self.old self.new }
    {
        let Some(mut boxed) = self.take(alloc) else {
            return Err(Fault::Empty);
        };
        let answer = boxed.part.start_poll();
        self.put(boxed);
        answer
    }

    /// `Part::poll_state` of the slot's part.
    ///
    /// # Errors
    ///
    /// As that, or the slot is empty.
    pub fn poll_state(&mut self, alloc: Global, cookie: u64) -> Result<bool, Fault>
        ensures { OnSlot (PollsStateBy cookie) result self.old self.new }
    {
        let Some(mut boxed) = self.take(alloc) else {
            return Err(Fault::Empty);
        };
        let answer = boxed.part.poll_state(cookie);
        self.put(boxed);
        answer
    }

    /// `Part::leave` of the slot's part.
    ///
    /// # Errors
    ///
    /// As that, or the slot is empty.
    pub fn leave(&mut self, alloc: Global) -> Result<(), Fault>
        ensures { OnSlot LeavesBy result self.old self.new }
    {
        let Some(mut boxed) = self.take(alloc) else {
            return Err(Fault::Empty);
        };
        let answer = boxed.part.leave();
        self.put(boxed);
        answer
    }

    /// `Part::come_back` of the slot's part.
    ///
    /// # Errors
    ///
    /// As that, or the slot is empty.
    pub fn come_back(&mut self, alloc: Global) -> Result<(), Fault>
        ensures { OnSlot ReturnsBy result self.old self.new }
    {
        let Some(mut boxed) = self.take(alloc) else {
            return Err(Fault::Empty);
        };
        let answer = boxed.part.come_back();
        self.put(boxed);
        answer
    }

    /// `Part::begin` of the slot's part.
    ///
    /// # Errors
    ///
    /// As that, or the slot is empty.
    pub fn begin(&mut self, alloc: Global, moment: u64, begun: &mut ForeignJob) -> Result<(), Fault>
        ensures { HandsOut (λ r. OnSlot (BeginsBy moment) r self.old self.new) result begun.old
            begun.new }
    {
        let Some(mut boxed) = self.take(alloc) else {
            return Err(Fault::Empty);
        };
        let answer = boxed.part.begin(moment, begun);
        self.put(boxed);
        answer
    }

    /// `Part::finish` of the slot's part.
    ///
    /// # Errors
    ///
    /// As that, or the slot is empty.
    pub fn finish(&mut self, alloc: Global) -> Result<(), Fault>
        ensures { OnSlot FinishesBy result self.old self.new }
    {
        let Some(mut boxed) = self.take(alloc) else {
            return Err(Fault::Empty);
        };
        let answer = boxed.part.finish();
        self.put(boxed);
        answer
    }

    /// `Part::next` of the slot's part.
    ///
    /// # Errors
    ///
    /// As that, or the slot is empty.
    pub fn next(&mut self, alloc: Global, moment: u64, begun: &mut ForeignJob) -> Result<(), Fault>
        ensures { HandsOut (λ r. OnSlot (GoesOnBy moment) r self.old self.new) result begun.old
            begun.new }
    {
        let Some(mut boxed) = self.take(alloc) else {
            return Err(Fault::Empty);
        };
        let answer = boxed.part.next(moment, begun);
        self.put(boxed);
        answer
    }

    /// `Part::accepted` of the slot's part.
    ///
    /// # Errors
    ///
    /// As that, or the slot is empty.
    pub fn accepted(&mut self, alloc: Global) -> Result<u64, Fault>
        ensures { OnSlot (OnlyShows ShowsAccepted) result self.old self.new }
    {
        let Some(boxed) = self.take(alloc) else {
            return Err(Fault::Empty);
        };
        let answer = boxed.part.accepted();
        self.put(boxed);
        answer
    }

    /// `Part::left` of the slot's part.
    ///
    /// # Errors
    ///
    /// As that, or the slot is empty.
    pub fn left(&mut self, alloc: Global) -> Result<u64, Fault>
        ensures { OnSlot (OnlyShows ShowsLeft) result self.old self.new }
    {
        let Some(boxed) = self.take(alloc) else {
            return Err(Fault::Empty);
        };
        let answer = boxed.part.left();
        self.put(boxed);
        answer
    }

    /// `Part::lists` of the slot's part.
    ///
    /// # Errors
    ///
    /// As that, or the slot is empty.
    pub fn lists(&mut self, alloc: Global) -> Result<Lists, Fault>
        ensures { OnSlot (OnlyShows ShowsLists) result self.old self.new }
    {
        let Some(boxed) = self.take(alloc) else {
            return Err(Fault::Empty);
        };
        let answer = boxed.part.lists();
        self.put(boxed);
        answer
    }

    /// `Part::ran_at` of the slot's part.
    ///
    /// # Errors
    ///
    /// As that, or the slot is empty.
    pub fn ran_at(
        &mut self,
        alloc: Global,
        processor: u64,
        at: u64,
    ) -> Result<Record<ForeignJob>, Fault>
        ensures { OnSlot (OnlyShows (ShowsRan processor at)) result self.old self.new }
    {
        let Some(boxed) = self.take(alloc) else {
            return Err(Fault::Empty);
        };
        let answer = boxed.part.ran_at(processor, at);
        self.put(boxed);
        answer
    }

    /// `Part::back_at` of the slot's part.
    ///
    /// # Errors
    ///
    /// As that, or the slot is empty.
    pub fn back_at(&mut self, alloc: Global, processor: u64, at: u64) -> Result<ForeignJob, Fault>
        ensures { OnSlot (OnlyShows (ShowsBack processor at)) result self.old self.new }
    {
        let Some(boxed) = self.take(alloc) else {
            return Err(Fault::Empty);
        };
        let answer = boxed.part.back_at(processor, at);
        self.put(boxed);
        answer
    }

    /// `Part::reports_of` of the slot's part.
    ///
    /// # Errors
    ///
    /// As that, or the slot is empty.
    pub fn reports_of(&mut self, alloc: Global, processor: u64) -> Result<u64, Fault>
        ensures { OnSlot (OnlyShows (ShowsReports processor)) result self.old self.new }
    {
        let Some(boxed) = self.take(alloc) else {
            return Err(Fault::Empty);
        };
        let answer = boxed.part.reports_of(processor);
        self.put(boxed);
        answer
    }

    /// Lets go what is left of a runtime that was closed.
    ///
    /// # Errors
    ///
    /// The slot is empty, or its part is of another kind. Nothing has changed.
    pub fn end(&mut self, alloc: Global) -> Result<(), Fault>
        ensures err { IfErr result (λ _. self.new.held.part.value ≡ self.old.held.part.value) }
        ensures ok { IfOk result (λ _. self.new.held.part.value ≡ None) }
        ensures ends { IfOk result (λ _. HasEnds self.old.held.part.value) }
        ensures why { IfErr result (λ fault. RefusesEnd fault self.old.held.part.value) }
        ensures reading { self.new.reading ≡ self.old.reading }
    {
        let Some(boxed) = self.take(alloc) else {
            return Err(Fault::Empty);
        };
        if !boxed.part.is_closed() {
            self.put(boxed);
            return Err(Fault::Other);
        }
        Ok(())
    }
}
