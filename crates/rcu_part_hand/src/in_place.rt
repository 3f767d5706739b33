//! A hand that stays where it is while claims of it begin and end.

ghost use Rattle.std.specs.Prelude.{◌≡◌, ◌≢◌, ◌≤◌, ℕ, true, None, Some, Ok, IfSome, IfOk, IfErr, is_some};
ghost use Rattle.std.specs.Int.{from_bool};
ghost use Rattle.rcu_numbers.specs.declared.sequence.TheConstants.{LAST_NUMBER};
ghost use Rattle.rcu_board.specs.Seats.{view};
ghost use Rattle.rcu_board.specs.Views.{sight};
ghost use Rattle.rcu_jobs.specs.declared.Stop.TheVariants.{Limit};
ghost use Rattle.rcu_part_lists.specs.Helds.{taken_by};
ghost use Rattle.rcu_part_order.specs.Recorded.{ran_of};
ghost use Rattle.rcu_part_hand.specs.HandLaw.{IsLawfulHand};
ghost use Rattle.rcu_part_hand.specs.InPlaceLaw.{RunsAs};
ghost use Rattle.rcu_part_steps.specs.declared.begins.ClaimedCallback.{ClaimedCallback as Claimed};

use crate::claim::claim_first;
use crate::hand::{Hand, HandState, into_state};
use crate::seated::SeatedHand;
use rcu_board::halted;
use rcu_jobs::{Callback, Job, Stop};
use rcu_numbers::snap;
use rcu_part_steps::{ClaimedCallback, end_and_claim, end_claim, look_at_number};

/// What a hand's part has, whether or not a claim of it runs.
#[derive(Drop)]
pub struct HandInPlaceState<J, R> {
    /// The callback whose claim runs, if one does. There is room for its record.
    pub claimed: Option<ClaimedCallback>,
    pub hand: SeatedHand<J, R>,
    ghost rests: { claimed ≡ None
        → IsLawfulHand hand.cpu (view hand.seat) (ran_of hand.ran) (taken_by hand.held) },
    ghost runs: { (c : Claimed) → claimed ≡ Some c
        → RunsAs hand.cpu c (view hand.seat) hand.ran (taken_by hand.held) },
}

/// A hand that stays where it is while claims of it begin and end: a [`Hand`] where none runs, and else a
/// [`RunningHand`](crate::RunningHand). A caller that keeps a hand behind a reference begins and finishes so without moving it.
pub struct HandInPlace<J: Job> {
    pub(crate) state: HandInPlaceState<J, J::Receipt>,
}

impl<J: Job> HandInPlace<J> {
    ghost use Rattle.rcu_part_hand.specs.InPlace.{IfResting};

    /// A hand of which no claim runs, from where it is put on.
    pub fn new(hand: Hand<J>) -> HandInPlace<J>
        ensures rests { result.state.claimed ≡ None }
        ensures same { IfResting (λ h. h ≡ hand.state) result.state }
    {
        let HandState { hand } = into_state(hand);
        let state = HandInPlaceState {
            claimed: None,
            hand,
        };
        HandInPlace { state }
    }

    /// The hand, where no claim of it runs.
    pub fn into_hand(self) -> Hand<J>
        requires rests { self.state.claimed ≡ None }
        ensures same { IfResting (λ h. h ≡ result.state) self.state }
    {
        let HandInPlace {
            state: HandInPlaceState { claimed: _, hand },
        } = self;
        Hand {
            state: HandState { hand },
        }
    }

    /// Whether a claim of it runs.
    pub fn is_running(&self) -> bool
        ensures { result ≡ is_some self.now.state.claimed }
    {
        self.state.claimed.is_some()
    }

    /// The processor that it runs for.
    pub fn cpu(&self) -> u64
        ensures { result ≡ self.now.state.hand.cpu }
    {
        self.state.hand.cpu
    }

    /// The callback whose claim runs, if one does.
    pub fn claimed(&self) -> Option<ClaimedCallback>
        ensures { result ≡ self.now.state.claimed }
    {
        self.state.claimed
    }
}

impl<J: Job> HandInPlace<J> {
    ghost use Rattle.rcu_part_hand.specs.Begins.{BeginsHand, FinishesHand, IsGivenFor, IsKeyed, StopsHand};
    ghost use Rattle.rcu_part_hand.specs.Hands.{Loads, Looks, StopsAt};
    ghost use Rattle.rcu_part_hand.specs.InPlace.{ClaimsAs, EndsRunning, IfResting, IfRunning, KeepingInPlace, KeepsSoundInPlace, StartsRunning, StaysResting};

    // The look of a begin.
    fn look(&mut self) -> u64
        requires rests { self.old.state.claimed ≡ None }
        ensures looks { KeepingInPlace (Looks result) J.key_of J.gives self.old.state
            self.new.state }
        ensures small { result ≤ LAST_NUMBER }
    {
        let hand = &mut self.state.hand;
        look_at_number(&hand.board, &mut hand.seat)
    }

    // Draws a batch where none is held. Answers why nothing can run, if so.
    fn load(&mut self) -> Option<Stop>
        requires rests { self.old.state.claimed ≡ None }
        ensures loads { KeepingInPlace Loads J.key_of J.gives self.old.state self.new.state }
        ensures none { IfSome result (λ stop.
            IfResting (λ h. (n seen : ℕ) → StopsAt stop n n seen h) self.new.state) }
    {
        let hand = &mut self.state.hand;
        hand.held.fetch()
    }

    // Claims the first of what it holds, and hands its job out, or says why not. The number `seen` is that of the begin's look.
    fn claim(&mut self, seen: u64) -> Result<J, Stop>
        requires rests { self.old.state.claimed ≡ None }
        requires seen { sight (view self.old.state.hand.seat) ≡ seen }
        ensures claims { ClaimsAs seen J.key_of J.gives result self.old.state self.new.state }
    {
        let state = &mut self.state;
        let hand = &mut state.hand;
        match claim_first(
            &hand.board,
            &mut hand.seat,
            hand.cpu,
            &mut hand.held,
            &mut hand.ran,
            seen,
        ) {
            Err(stop) => Err(stop),
            Ok(callback) => {
                state.claimed = Some(ClaimedCallback::of(&callback, seen));
                let Callback { job, .. } = callback;
                Ok(job)
            }
        }
    }

    /// Begins a callback, as [`Hand::begin`] does: one look; where no batch is held, one is drawn; then the first callback is
    /// claimed, where its wait is over at the number of the look and room for its record was found. The job is handed out,
    /// to be run until `finish` ends the claim.
    ///
    /// # Errors
    ///
    /// No claim runs, and why, as `turn` says it, but never `Limit`.
    #[inline(always)]
    pub fn begin(&mut self) -> Result<J, Stop>
        requires rests { self.old.state.claimed ≡ None }
        ensures begins { IfOk result (λ job.
            StartsRunning (λ p q. BeginsHand p q job) self.old.state self.new.state) }
        ensures stops { IfErr result (λ stop.
            StaysResting (StopsHand stop) self.old.state self.new.state) }
        ensures counts { IfErr result (λ stop. stop ≢ Limit) }
        ensures keyed { IfOk result
            (λ job. IfRunning (λ h. IsKeyed J.key_of h job) self.new.state) }
        ensures sound { KeepsSoundInPlace J.key_of J.gives self.old.state self.new.state }
    {
        let seen = self.look();
        match self.load() {
            Some(stop) => Err(stop),
            None => self.claim(seen),
        }
    }

    /// Ends the claim, and adds the callback's record with what its job gave.
    pub fn finish(&mut self, receipt: J::Receipt)
        requires runs { self.old.state.claimed ≢ None }
        ensures finishes { EndsRunning (FinishesHand receipt) self.old.state self.new.state }
        ensures sound { IfRunning (λ h. IsGivenFor J.key_of J.gives h receipt) self.old.state
            → KeepsSoundInPlace J.key_of J.gives self.old.state self.new.state }
    {
        let state = &mut self.state;
        let Some(claimed) = state.claimed else {
            unreachable!()
        };
        let hand = &mut state.hand;
        end_claim(&hand.board, &mut hand.seat);
        hand.ran.add(claimed.record(receipt));
        state.claimed = None;
    }
}

impl<J: Job> HandInPlace<J> {
    ghost use Rattle.rcu_part_hand.specs.Begins.{IsKeyed};
    ghost use Rattle.rcu_part_hand.specs.InPlace.{GoesOn, IfRunning, IsFollowed};

    // Whether the first callback that it holds is the next of its processor, its wait was over at the number that was seen
    // before the claim that runs, and there is room for the records of both.
    fn is_followed(&self) -> bool
        requires runs { self.now.state.claimed ≢ None }
        ensures { result ≡ true → IfRunning IsFollowed self.now.state }
    {
        let state = &self.state;
        let Some(claimed) = state.claimed else {
            unreachable!()
        };
        let Some(first) = state.hand.held.first() else {
            return false;
        };
        if first.number != claimed.number + 1 {
            return false;
        }
        if snap(first.stamp) > claimed.ready {
            return false;
        }
        state.hand.ran.has_room_for_two()
    }

    // Ends the claim, and claims the next callback, by one step of the board.
    fn pass_on(&mut self, receipt: J::Receipt) -> J
        requires runs { self.old.state.claimed ≢ None }
        requires followed { IfRunning IsFollowed self.old.state }
        ensures goes_on { GoesOn J.key_of J.gives receipt (Ok result) self.old.state
            self.new.state }
        ensures keyed { IfRunning (λ h. IsKeyed J.key_of h result) self.new.state }
    {
        let state = &mut self.state;
        let Some(ended) = state.claimed else {
            unreachable!()
        };
        let hand = &mut state.hand;
        let seen = look_at_number(&hand.board, &mut hand.seat);
        end_and_claim(&hand.board, &mut hand.seat);
        hand.ran.add(ended.record(receipt));
        let Some(callback) = hand.held.take() else {
            unreachable!()
        };
        state.claimed = Some(ClaimedCallback::of(&callback, seen));
        let Callback { job, .. } = callback;
        job
    }

    /// Ends the claim, as [`finish`](Self::finish) does, and then begins a callback, as [`begin`](Self::begin) does: by one
    /// step of the board, where the next callback that it holds is the next of its processor.
    ///
    /// # Errors
    ///
    /// As `begin`; the claim has ended.
    #[inline(always)]
    pub fn go_on(&mut self, receipt: J::Receipt) -> Result<J, Stop>
        requires runs { self.old.state.claimed ≢ None }
        ensures goes_on { GoesOn J.key_of J.gives receipt result self.old.state self.new.state }
        ensures counts { IfErr result (λ stop. stop ≢ Limit) }
        ensures keyed { IfOk result
            (λ job. IfRunning (λ h. IsKeyed J.key_of h job) self.new.state) }
    {
        if self.is_followed() {
            return Ok(self.pass_on(receipt));
        }
        self.finish(receipt);
        self.begin()
    }
}

impl<J: Job> HandInPlace<J> {
    ghost use Rattle.rcu_part_hand.specs.InPlace.{KeepingInPlace, ReadsHalt};

    /// Whether the runtime was halted.
    pub fn is_halted(&mut self) -> bool
        requires rests { self.old.state.claimed ≡ None }
        ensures reads { KeepingInPlace (ReadsHalt (from_bool result)) J.key_of J.gives
            self.old.state self.new.state }
    {
        let hand = &mut self.state.hand;
        halted(&hand.board, &mut hand.seat)
    }
}

impl<J: Job> Drop for HandInPlace<J> {
    fn drop(self) {
        let HandInPlace { state: _ } = self;
    }
}
