//! The tick of a processor.

ghost use Rattle.std.specs.Prelude.{◌≡◌, ◌≤◌, true};
ghost use Rattle.rcu_jobs.specs.Modes.{is_deoffloading};
ghost use Rattle.rcu_board.specs.Views.{sight};
ghost use Rattle.rcu_part_processor.specs.Processors.{Keeping, SameProcessor, lists_of, view_of, KeepsSound};
ghost use Rattle.rcu_part_processor.specs.Ticks.{CatchesUp, Heeds, Settles, RunsOne, RunsDone, TicksBy, IsFresh, IsLocalOnceRun, RunsNoneOffloaded};
ghost use Rattle.rcu_part_steps.specs.Stops.{StopsInTime};

use crate::claim::claim_first;
use crate::processor::Processor;
use rcu_board::{asked, heard, need, turn_of};
use rcu_jobs::{Job, Stop, Ticked};
use rcu_part_steps::{look_at_number, run_claimed};

impl<J: Job> Processor<J> {
    // The tick's look: the own list is advanced by the number seen and accelerated, and what it waits for is asked for.
    pub(crate) fn catch_up(&mut self) -> u64
        ensures catches_up { Keeping (CatchesUp result) J.key_of J.gives self.old.state
            self.new.state }
        ensures sight { (sight (view_of self.new.state) ≡ result)
            × ((lists_of self.new.state).advanced ≡ result) }
    {
        let state = &mut self.state;
        let seen = look_at_number(&state.board, &mut state.seat);
        if let Some(number) = state.lists.look(seen) {
            need(&state.board, &mut state.seat, number);
        }
        seen
    }

    // Reads what is asked of the processor and whether it was urged, releases the bypass list where that is due, and
    // changes the mode as asked.
    pub(crate) fn heed(&mut self, moment: u64)
        requires offloadable { self.old.state.offloadable ≡ true }
        ensures heeds { Keeping (Heeds moment) J.key_of J.gives self.old.state self.new.state }
        ensures sight { (sight (view_of self.new.state) ≡ sight (view_of self.old.state))
            × ((lists_of self.new.state).advanced ≡ (lists_of self.old.state).advanced) }
    {
        let state = &mut self.state;
        let on = asked(&state.board, &mut state.seat);
        let urged = heard(&state.board, &mut state.seat);
        state.lists.release(moment, !on, urged);
        state.lists.switch(on, state.accepted);
    }

    // In Deoffloading, reads the turn word, by which the mode becomes Local.
    pub(crate) fn settle(&mut self)
        requires offloadable { self.old.state.offloadable ≡ true }
        ensures settles { Keeping Settles J.key_of J.gives self.old.state self.new.state }
        ensures sight { (sight (view_of self.new.state) ≡ sight (view_of self.old.state))
            × ((lists_of self.new.state).advanced ≡ (lists_of self.old.state).advanced) }
    {
        let state = &mut self.state;
        if state.lists.mode().is_deoffloading() {
            let turn = turn_of(&state.board, &mut state.seat, state.cpu);
            state.lists.settle(turn);
        }
    }

    // Runs the first callback of done, or says why not. The number `seen` is that of the tick's look.
    fn run_one(&mut self, seen: u64) -> Option<Stop>
        requires seen { (sight (view_of self.old.state) ≡ seen)
            × ((lists_of self.old.state).advanced ≡ seen) }
        ensures runs { Keeping (RunsOne seen result) J.key_of J.gives self.old.state
            self.new.state }
        ensures sight { (sight (view_of self.new.state) ≡ seen)
            × ((lists_of self.new.state).advanced ≡ seen) }
    {
        let state = &mut self.state;
        match claim_first(
            &state.board,
            &mut state.seat,
            state.cpu,
            &mut state.lists,
            &mut state.ran,
        ) {
            Err(stop) => Some(stop),
            Ok(callback) => {
                let record = run_claimed(&state.board, &mut state.seat, callback, seen);
                state.ran.add(record);
                None
            }
        }
    }

    // Runs the first callbacks of done, at most `blimit`.
    fn run_done(&mut self, seen: u64) -> Ticked
        requires seen { (sight (view_of self.old.state) ≡ seen)
            × ((lists_of self.old.state).advanced ≡ seen) }
        ensures runs { Keeping (RunsDone seen result) J.key_of J.gives self.old.state
            self.new.state }
        ensures few { result.ran ≤ self.old.state.blimit }
        ensures first { StopsInTime result.stop result.ran self.old.state.blimit }
    {
        let blimit = self.state.blimit;
        for ran in 0..blimit {
            if let Some(stop) = self.run_one(seen) {
                return Ticked { ran, stop };
            }
        }
        Ticked {
            ran: blimit,
            stop: Stop::Limit,
        }
    }

    /// A tick, at a moment of the caller's clock: one look, by which the own list is advanced and accelerated, and what it
    /// waits for is asked for. An offloadable processor then releases its bypass list where that is due, and changes its
    /// mode as it is asked. Then the first callbacks that are done run, at most `blimit`, each after room for its record
    /// was found and its claim was won; it stops at the first that can't run.
    pub fn tick(&mut self, moment: u64) -> Ticked
        ensures same { SameProcessor self.old.state self.new.state }
        ensures ticks { TicksBy moment result self.old.state self.new.state }
        ensures few { result.ran ≤ self.old.state.blimit }
        ensures first { StopsInTime result.stop result.ran self.old.state.blimit }
        ensures count { self.new.state.accepted ≡ self.old.state.accepted }
        ensures fresh { IsFresh self.old.state self.new.state }
        ensures local { IsLocalOnceRun self.old.state self.new.state }
        ensures none { RunsNoneOffloaded result.ran self.old.state self.new.state }
        ensures sound { KeepsSound J.key_of J.gives self.old.state self.new.state }
    {
        let seen = self.catch_up();
        if !self.state.offloadable {
            return self.run_done(seen);
        }
        self.heed(moment);
        self.settle();
        self.run_done(seen)
    }
}
