//! The records that are left, which may be taken out.

ghost use Rattle.std.specs.Prelude.{◌≡◌};
ghost use Rattle.rcu_part_hand.specs.Hands.{KeepsButRecords};
ghost use Rattle.rcu_part_order.specs.Recorded.{as_taken, takeable};

use crate::hand::Hand;
use crate::in_place::HandInPlace;
use rcu_jobs::{Job, Record};
use std::alloc::Global;

impl<J: Job> Hand<J> {
    ghost use Rattle.rcu_part_hand.specs.Hands.{SameHand, KeepsSoundHand, hand_records};

    /// Takes out the records that are left, in the order in which their callbacks ran, where the runtime was opened to keep
    /// them until they are taken ([`Kept::Rest`](rcu_part_order::Kept)); else none. `close` answers those that are left then.
    pub fn take_records(&mut self, alloc: Global) -> Vec<Record<J::Receipt>>
        ensures taken { result.items ≡ takeable self.old.state.hand.ran }
        ensures records { hand_records self.new.state ≡ as_taken (hand_records self.old.state) }
        ensures same { SameHand self.old.state self.new.state }
        ensures others { KeepsButRecords self.old.state self.new.state }
        ensures sound { KeepsSoundHand J.key_of J.gives self.old.state self.new.state }
    {
        self.state.hand.ran.take(alloc)
    }
}

impl<J: Job> HandInPlace<J> {
    ghost use Rattle.std.specs.Prelude.{None};
    ghost use Rattle.rcu_part_hand.specs.InPlace.{KeepsSoundInPlace, StaysResting};
    ghost use Rattle.rcu_part_order.specs.Recorded.{recorded};

    /// Takes out the records that are left, as [`Hand::take_records`] does.
    pub fn take_records(&mut self, alloc: Global) -> Vec<Record<J::Receipt>>
        requires rests { self.old.state.claimed ≡ None }
        ensures taken { result.items ≡ takeable self.old.state.hand.ran }
        ensures records { recorded self.new.state.hand.ran
            ≡ as_taken (recorded self.old.state.hand.ran) }
        ensures others { StaysResting KeepsButRecords self.old.state self.new.state }
        ensures sound { KeepsSoundInPlace J.key_of J.gives self.old.state self.new.state }
    {
        let hand = &mut self.state.hand;
        hand.ran.take(alloc)
    }
}
