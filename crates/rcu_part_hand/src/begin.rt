//! A hand's run of one callback in two steps: the claim is won and the job handed out, and later the claim is ended.

ghost use Rattle.std.specs.Prelude.{◌≢◌};
ghost use Rattle.rcu_jobs.specs.declared.Stop.TheVariants.{Limit};
ghost use Rattle.rcu_part_hand.specs.Begins.{SameBegun, SameFinished, IsSoundRunning, IsKeyed, IsGivenFor};
ghost use Rattle.rcu_part_hand.specs.Begins.{BeginsHand, StopsHand, FinishesHand};
ghost use Rattle.rcu_part_hand.specs.Hands.{SameHand, IsSoundHand};
ghost use Rattle.rcu_part_steps.specs.Begins.{IfRuns, IfStops};

use crate::hand::{Hand, HandState};
use crate::running_hand::{RunningHand, RunningHandState};
use rcu_jobs::Job;
use rcu_part_steps::{Begins, end_claim};

impl<J: Job> Hand<J> {
    /// A turn up to its first claim: one look; where no batch is held, one is drawn; then the first callback is claimed,
    /// where its wait is over at the number of the look and room for its record was found. The job is handed out, to be
    /// run until `finish` ends the claim. Where no claim runs, the answer says why, as `turn` does, but never `Limit`.
    pub fn begin(self) -> Begins<RunningHand<J>, J, Hand<J>>
        ensures same { IfRuns result (λ running _. SameBegun self.state running.state) }
        ensures stays { IfStops result (λ hand _. SameHand self.state hand.state) }
        ensures runs { IfRuns result (λ running job. BeginsHand self.state running.state job) }
        ensures stops { IfStops result (λ hand stop. StopsHand stop self.state hand.state) }
        ensures counts { IfStops result (λ _ stop. stop ≢ Limit) }
        ensures keyed { IfRuns result (λ running job. IsKeyed J.key_of running.state job) }
        ensures sound { IsSoundHand J.key_of J.gives self.state
            → IfRuns result (λ running _. IsSoundRunning J.key_of J.gives running.state)
            × IfStops result (λ hand _. IsSoundHand J.key_of J.gives hand.state) }
    {
        let mut hand = self;
        let seen = hand.look();
        match hand.load() {
            Some(stop) => Begins::Stops(hand, stop),
            None => hand.claim(seen),
        }
    }
}

impl<J: Job> RunningHand<J> {
    /// Ends the claim, and adds the callback's record with what its job gave.
    pub fn finish(self, receipt: J::Receipt) -> Hand<J>
        ensures same { SameFinished self.state result.state }
        ensures finishes { FinishesHand receipt self.state result.state }
        ensures sound { IsSoundRunning J.key_of J.gives self.state
            → IsGivenFor J.key_of J.gives self.state receipt
            → IsSoundHand J.key_of J.gives result.state }
    {
        let RunningHandState { claimed, mut hand } = self.state;
        let seated = &mut hand;
        end_claim(&seated.board, &mut seated.seat);
        seated.ran.add(claimed.record(receipt));
        Hand {
            state: HandState { hand },
        }
    }
}
