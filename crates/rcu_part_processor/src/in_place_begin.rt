//! A callback of a processor in place, in two steps: its claim is won and its job handed out, and later the claim is ended.

ghost use Rattle.std.specs.Prelude.{◌≡◌, ◌≢◌, true, None, IfErr, IfOk};
ghost use Rattle.rcu_board.specs.Views.{sight};
ghost use Rattle.rcu_jobs.specs.declared.Stop.TheVariants.{Limit};
ghost use Rattle.rcu_part_processor.specs.Begins.{BeginsTick, ClaimsFirst, ClaimsNone, FinishesProcessor, StopsBegin};
ghost use Rattle.rcu_part_processor.specs.InPlace.{BeginsAs, EndsRunning, IfRunning, IsSoundInPlace, KeepingInPlace, KeepsSoundInPlace, StartsRunning, StaysResting, lists_in, view_in};
ghost use Rattle.rcu_part_processor.specs.Ticks.{CatchesUp, Heeds, Settles};

use crate::claim::claim_first;
use crate::in_place::ProcessorInPlace;
use rcu_board::{asked, heard, need, turn_of};
use rcu_jobs::{Callback, Job, Stop};
use rcu_part_steps::{ClaimedCallback, end_claim, look_at_number};

impl<J: Job> ProcessorInPlace<J> {
    // The begin's look: the own list is advanced by the number seen and accelerated, and what it waits for is asked for.
    fn catch_up(&mut self) -> u64
        requires rests { self.old.state.claimed ≡ None }
        ensures catches_up { KeepingInPlace (CatchesUp result) J.key_of J.gives self.old.state
            self.new.state }
        ensures sight { (sight (view_in self.new.state) ≡ result)
            × ((lists_in self.new.state).advanced ≡ result) }
    {
        let state = &mut self.state;
        let seen = look_at_number(&state.board, &mut state.seat);
        if let Some(number) = state.lists.look(seen) {
            need(&state.board, &mut state.seat, number);
        }
        seen
    }

    // Reads what is asked of the processor and whether it was urged, releases the bypass list where that is due, and
    // changes the mode as asked.
    fn heed(&mut self, moment: u64)
        requires rests { self.old.state.claimed ≡ None }
        requires offloadable { self.old.state.offloadable ≡ true }
        ensures heeds { KeepingInPlace (Heeds moment) J.key_of J.gives self.old.state
            self.new.state }
        ensures sight { (sight (view_in self.new.state) ≡ sight (view_in self.old.state))
            × ((lists_in self.new.state).advanced ≡ (lists_in self.old.state).advanced) }
    {
        let state = &mut self.state;
        let on = asked(&state.board, &mut state.seat);
        let urged = heard(&state.board, &mut state.seat);
        state.lists.release(moment, !on, urged);
        state.lists.switch(on, state.accepted);
    }

    // In Deoffloading, reads the turn word, by which the mode becomes Local.
    fn settle(&mut self)
        requires rests { self.old.state.claimed ≡ None }
        requires offloadable { self.old.state.offloadable ≡ true }
        ensures settles { KeepingInPlace Settles J.key_of J.gives self.old.state self.new.state }
        ensures sight { (sight (view_in self.new.state) ≡ sight (view_in self.old.state))
            × ((lists_in self.new.state).advanced ≡ (lists_in self.old.state).advanced) }
    {
        let state = &mut self.state;
        if state.lists.mode().is_deoffloading() {
            let turn = turn_of(&state.board, &mut state.seat, state.cpu);
            state.lists.settle(turn);
        }
    }

    // Claims the first callback of done, and hands its job out, or says why not. The number `seen` is that of the begin's look.
    fn claim_done(&mut self, seen: u64) -> Result<J, Stop>
        requires rests { self.old.state.claimed ≡ None }
        requires seen { (sight (view_in self.old.state) ≡ seen)
            × ((lists_in self.old.state).advanced ≡ seen) }
        ensures begins { BeginsAs (λ job p q. ClaimsFirst seen p q job) (ClaimsNone seen) J.key_of
            J.gives result self.old.state self.new.state }
    {
        let state = &mut self.state;
        match claim_first(
            &state.board,
            &mut state.seat,
            state.cpu,
            &mut state.lists,
            &mut state.ran,
        ) {
            Err(stop) => Err(stop),
            Ok(callback) => {
                state.claimed = Some(ClaimedCallback::of(&callback, seen));
                let Callback { job, .. } = callback;
                Ok(job)
            }
        }
    }

    /// Begins a callback, as [`Processor::begin`](crate::Processor::begin) does: a tick up to its first claim, at a moment of
    /// the caller's clock. The job is handed out, to be run until `finish` ends the claim.
    ///
    /// # Errors
    ///
    /// No claim runs, and why, as `tick` says it, but never `Limit`.
    pub fn begin(&mut self, moment: u64) -> Result<J, Stop>
        requires rests { self.old.state.claimed ≡ None }
        ensures begins { IfOk result (λ job.
            StartsRunning (λ p q. BeginsTick moment p q job) self.old.state self.new.state) }
        ensures stops { IfErr result (λ stop.
            StaysResting (StopsBegin moment stop) self.old.state self.new.state) }
        ensures counts { IfErr result (λ stop. stop ≢ Limit) }
        ensures count { self.new.state.accepted ≡ self.old.state.accepted }
        ensures keyed { IsSoundInPlace J.key_of J.gives self.old.state
            → IfOk result (λ job. IfRunning (λ p. J.key_of job ≡ p.claimed.key) self.new.state) }
        ensures sound { KeepsSoundInPlace J.key_of J.gives self.old.state self.new.state }
    {
        let seen = self.catch_up();
        if !self.state.offloadable {
            return self.claim_done(seen);
        }
        self.heed(moment);
        self.settle();
        self.claim_done(seen)
    }

    /// Ends the claim, and adds the callback's record with what its job gave.
    pub fn finish(&mut self, receipt: J::Receipt)
        requires runs { self.old.state.claimed ≢ None }
        ensures finishes { EndsRunning (FinishesProcessor receipt) self.old.state self.new.state }
        ensures sound { IfRunning (λ p. J.gives p.claimed.key receipt) self.old.state
            → KeepsSoundInPlace J.key_of J.gives self.old.state self.new.state }
    {
        let state = &mut self.state;
        let Some(claimed) = state.claimed else {
            unreachable!()
        };
        end_claim(&state.board, &mut state.seat);
        state.ran.add(claimed.record(receipt));
        state.claimed = None;
    }
}
