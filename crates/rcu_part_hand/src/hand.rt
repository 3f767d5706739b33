//! A hand's part.

ghost use Rattle.std.specs.Prelude.{◌≡◌};
ghost use Rattle.std.specs.Arc.{arc_value};
ghost use Rattle.rcu_board.specs.Seats.{view};
ghost use Rattle.rcu_part_lists.specs.Helds.{taken_by};
ghost use Rattle.rcu_part_order.specs.Recorded.{ran_of};
ghost use Rattle.rcu_part_hand.specs.HandLaw.{IsLawfulHand};

use crate::claim::claim_first;
use crate::running_hand::{RunningHand, RunningHandState};
use crate::seated::SeatedHand;
use rcu_board::{Board, Seat};
use rcu_jobs::{Callback, Job};
use rcu_numbers::PartsShape;
use rcu_part_lists::Held;
use rcu_part_order::{Kept, Records};
use rcu_part_steps::{Begins, ClaimedCallback};
use std::alloc::Global;
use std::sync::Arc;

/// What a hand's part has.
#[derive(Drop)]
pub struct HandState<J, R> {
    pub hand: SeatedHand<J, R>,
    ghost lawful: { IsLawfulHand hand.cpu (view hand.seat) (ran_of hand.ran) (taken_by hand.held) },
}

/// The hand of an offloadable processor: it runs the callbacks that the group gives it, each under a claim of its number.
pub struct Hand<J: Job> {
    pub(crate) state: HandState<J, J::Receipt>,
}

impl<J: Job> Hand<J> {
    ghost use Rattle.std.specs.Prelude.{[], length};
    ghost use Rattle.rcu_board.specs.Opened.{IsNewHand};
    ghost use Rattle.rcu_part_order.specs.Recorded.{left_in};
    ghost use Rattle.rcu_part_lists.specs.Helds.{drawn_by, held_by};
    ghost use Rattle.rcu_part_hand.specs.Hands.{IsNewHandOf, hand_records};

    /// The hand of processor `cpu` of a shape, from its seat and the end of its done lane, and what is kept of the callbacks
    /// that it runs. It has drawn nothing.
    pub fn new(
        alloc: Global,
        shape: &PartsShape,
        board: Arc<Board, Global>,
        seat: Seat,
        cpu: u64,
        held: Held<J>,
        kept: Kept,
    ) -> Hand<J>
        requires seat { IsNewHand (arc_value board) cpu seat }
        requires held { (drawn_by held ≡ []) × (held_by held ≡ []) }
        ensures new { IsNewHandOf shape.now (arc_value board) cpu seat held kept result.state }
    {
        Hand {
            state: HandState {
                hand: SeatedHand {
                    board,
                    seat,
                    cpu,
                    blimit: shape.blimit,
                    ran: Records::new(alloc, kept),
                    held,
                },
            },
        }
    }

    /// The processor that it runs for.
    pub fn cpu(&self) -> u64
        ensures { result ≡ self.now.state.hand.cpu }
    {
        self.state.hand.cpu
    }

    /// How many callbacks it ran.
    pub fn ran(&self) -> usize
        ensures { result ≡ length (hand_records self.now.state).all }
    {
        self.state.hand.ran.len()
    }

    /// How many records are left of those.
    pub fn records_left(&self) -> usize
        ensures { result ≡ length (left_in self.now.state.hand.ran) }
    {
        self.state.hand.ran.records_left()
    }

    // What it has, which ends with it.
    fn into_inner(self) -> HandState<J, J::Receipt>
        ensures { result ≡ self.state }
    {
        let Hand { state } = self;
        state
    }
}

impl<J: Job> Hand<J> {
    ghost use Rattle.std.specs.Prelude.{◌≢◌};
    ghost use Rattle.rcu_board.specs.Views.{sight};
    ghost use Rattle.rcu_jobs.specs.declared.Stop.TheVariants.{Limit};
    ghost use Rattle.rcu_part_hand.specs.Begins.{SameBegun, IsSoundRunning, IsKeyed, ClaimsFirst};
    ghost use Rattle.rcu_part_hand.specs.Hands.{SameHand, IsSoundHand, RunsHeld, hand_view};
    ghost use Rattle.rcu_part_steps.specs.Begins.{IfRuns, IfStops};

    /// Claims the first of what it holds, and hands its job out, or says why not. The number `seen` is that of the look.
    pub(crate) fn claim(self, seen: u64) -> Begins<RunningHand<J>, J, Hand<J>>
        requires seen { sight (hand_view self.state) ≡ seen }
        ensures same { IfRuns result (λ running _. SameBegun self.state running.state) }
        ensures stays { IfStops result (λ hand _. SameHand self.state hand.state) }
        ensures runs { IfRuns result (λ running job.
            ClaimsFirst seen self.state running.state job) }
        ensures stops { IfStops result (λ hand stop.
            RunsHeld seen (record { ran = 0; stop = stop }) self.state hand.state) }
        ensures counts { IfStops result (λ _ stop. stop ≢ Limit) }
        ensures keyed { IfRuns result (λ running job. IsKeyed J.key_of running.state job) }
        ensures sound { IsSoundHand J.key_of J.gives self.state
            → IfRuns result (λ running _. IsSoundRunning J.key_of J.gives running.state)
            × IfStops result (λ hand _. IsSoundHand J.key_of J.gives hand.state) }
    {
        let Hand {
            state: HandState { mut hand },
        } = self;
        let seated = &mut hand;
        match claim_first(
            &seated.board,
            &mut seated.seat,
            seated.cpu,
            &mut seated.held,
            &mut seated.ran,
            seen,
        ) {
            Err(stop) => {
                let state = HandState { hand };
                Begins::Stops(Hand { state }, stop)
            }
            Ok(callback) => {
                let claimed = ClaimedCallback::of(&callback, seen);
                let Callback { job, .. } = callback;
                let state = RunningHandState { claimed, hand };
                Begins::Runs(RunningHand { state }, job)
            }
        }
    }
}

impl<J: Job> Drop for Hand<J> {
    fn drop(self) {
        let Hand { state: _ } = self;
    }
}

/// What a hand's part has, which ends with it.
pub fn into_state<J: Job>(hand: Hand<J>) -> HandState<J, J::Receipt>
    ensures { result ≡ hand.state }
{
    hand.into_inner()
}
