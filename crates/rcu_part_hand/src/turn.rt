//! The turn of a hand.

ghost use Rattle.std.specs.Prelude.{◌≡◌, ◌≢◌, ◌+◌, ◌≤◌, ℕ, [], IfSome};
ghost use Rattle.rcu_board.specs.Views.{sight, tally};
ghost use Rattle.rcu_board.specs.Words.{board_word};
ghost use Rattle.rcu_jobs.specs.declared.Stop.TheVariants.{Again};
ghost use Rattle.rcu_numbers.specs.declared.sequence.TheConstants.{LAST_NUMBER};
ghost use Rattle.rcu_part_hand.specs.Hands.{Keeping, SameHand, KeepsSoundHand, Looks, Loads, RunsOne, RunsHeld, StopsAt, TurnsBy, hand_held, hand_view};
ghost use Rattle.rcu_part_steps.specs.Stops.{StopsInTime};

use crate::claim::claim_first;
use crate::hand::Hand;
use rcu_jobs::{HandTurn, Job, Stop};
use rcu_part_steps::{look_at_number, run_claimed};

impl<J: Job> Hand<J> {
    // Runs the first of what it holds, or says why not. The number `seen` is that of the turn's look.
    fn run_one(&mut self, seen: u64) -> Option<Stop>
        requires seen { sight (hand_view self.old.state) ≡ seen }
        requires small { seen ≤ LAST_NUMBER }
        ensures runs { Keeping (RunsOne seen result) J.key_of J.gives self.old.state
            self.new.state }
    {
        let hand = &mut self.state.hand;
        match claim_first(
            &hand.board,
            &mut hand.seat,
            hand.cpu,
            &mut hand.held,
            &mut hand.ran,
            seen,
        ) {
            Err(stop) => Some(stop),
            Ok(callback) => {
                let record = run_claimed(&hand.board, &mut hand.seat, callback, seen);
                hand.ran.add(record);
                None
            }
        }
    }

    // Runs the first ones of what it holds, at most `blimit`.
    fn run_held(&mut self, seen: u64) -> HandTurn
        requires seen { sight (hand_view self.old.state) ≡ seen }
        requires small { seen ≤ LAST_NUMBER }
        ensures runs { Keeping (RunsHeld seen result) J.key_of J.gives self.old.state
            self.new.state }
        ensures first { StopsInTime result.stop result.ran self.old.state.hand.blimit }
        ensures goes_on { result.stop ≢ Again }
        ensures few { result.ran ≤ self.old.state.hand.blimit }
    {
        let blimit = self.state.hand.blimit;
        for ran in 0..blimit {
            if let Some(stop) = self.run_one(seen) {
                return HandTurn { ran, stop };
            }
        }
        HandTurn {
            ran: blimit,
            stop: Stop::Limit,
        }
    }

    // The turn's look.
    pub(crate) fn look(&mut self) -> u64
        ensures looks { Keeping (Looks result) J.key_of J.gives self.old.state self.new.state }
        ensures small { result ≤ LAST_NUMBER }
    {
        let hand = &mut self.state.hand;
        look_at_number(&hand.board, &mut hand.seat)
    }

    // Draws a batch where none is held. Answers why nothing can run, if so.
    pub(crate) fn load(&mut self) -> Option<Stop>
        ensures loads { Keeping Loads J.key_of J.gives self.old.state self.new.state }
        ensures none { IfSome result (λ stop. (n seen : ℕ) → StopsAt stop n n seen self.new.state) }
    {
        let hand = &mut self.state.hand;
        hand.held.fetch()
    }

    /// A turn: one look; where no batch is held, one is drawn; then the first callbacks are run, at most `blimit`, each where
    /// its wait is over at the number of the look, room for its record was found, and its claim was won. It stops at the
    /// first that can't run.
    pub fn turn(&mut self) -> HandTurn
        ensures same { SameHand self.old.state self.new.state }
        ensures turn { TurnsBy result self.old.state self.new.state }
        ensures few { result.ran ≤ self.old.state.hand.blimit }
        ensures first { StopsInTime result.stop result.ran self.old.state.hand.blimit }
        ensures again { result.stop ≡ Again → (hand_held self.old.state ≡ []) × (result.ran ≡ 0) }
        ensures fresh { tally (hand_view self.new.state) board_word
            ≡ tally (hand_view self.old.state) board_word + 1 }
        ensures sound { KeepsSoundHand J.key_of J.gives self.old.state self.new.state }
    {
        let seen = self.look();
        if let Some(stop) = self.load() {
            return HandTurn { ran: 0, stop };
        }
        self.run_held(seen)
    }
}
