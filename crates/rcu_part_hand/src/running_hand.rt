//! A hand's part while a claim of it runs between its calls.

ghost use Rattle.std.specs.Prelude.{◌≡◌, ◌<◌};
ghost use Rattle.rcu_numbers.specs.declared.shape.TheConstants.{MOST_CALLS};
ghost use Rattle.rcu_board.specs.Seats.{view};
ghost use Rattle.rcu_part_lists.specs.Helds.{taken_by};
ghost use Rattle.rcu_part_order.specs.Recorded.{HasRoom, ran_of};
ghost use Rattle.rcu_part_hand.specs.HandLaw.{IsRunningHand};

use crate::seated::SeatedHand;
use rcu_jobs::Job;
use rcu_part_steps::ClaimedCallback;

/// What a hand's part has while a claim of it runs. There is room for the record.
#[derive(Drop)]
pub struct RunningHandState<J, R> {
    /// The callback whose claim runs.
    pub claimed: ClaimedCallback,
    pub hand: SeatedHand<J, R>,
    ghost small: { claimed.number < MOST_CALLS },
    ghost room: { HasRoom hand.ran },
    ghost lawful: { IsRunningHand hand.cpu claimed (view hand.seat) (ran_of hand.ran)
        (taken_by hand.held) },
}

/// A hand of which the claim of one callback runs, until `finish` ends it. It neither turns nor begins until then.
#[derive(Drop)]
pub struct RunningHand<J: Job> {
    pub(crate) state: RunningHandState<J, J::Receipt>,
}

impl<J: Job> RunningHand<J> {
    /// The processor that it runs for.
    pub fn cpu(&self) -> u64
        ensures { result ≡ self.now.state.hand.cpu }
    {
        self.state.hand.cpu
    }

    /// The number of the callback whose claim runs.
    pub fn number(&self) -> u64
        ensures { result ≡ self.now.state.claimed.number }
    {
        self.state.claimed.number
    }
}
