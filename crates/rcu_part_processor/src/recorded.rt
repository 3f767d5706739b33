//! What a processor ran, taken out while it goes on.

ghost use Rattle.std.specs.Prelude.{◌≡◌, None};
ghost use Rattle.rcu_part_order.specs.Recorded.{takeable};
ghost use Rattle.rcu_part_processor.specs.InPlace.{KeepsSoundInPlace};
ghost use Rattle.rcu_part_processor.specs.Processors.{KeepsSound, SameProcessor};
ghost use Rattle.rcu_part_processor.specs.TakenRecords.{OnlyTakes, StaysTaking};

use crate::in_place::ProcessorInPlace;
use crate::processor::Processor;
use rcu_jobs::{Job, Record};
use std::alloc::Global;

impl<J: Job> Processor<J> {
    /// Takes out the records that are left of what it ran itself, in the order in which the callbacks ran, where the runtime
    /// was opened to keep them until they are taken ([`Kept::Rest`](rcu_part_order::Kept::Rest)); else none. `close` answers
    /// those that are left then.
    pub fn take_records(&mut self, alloc: Global) -> Vec<Record<J::Receipt>>
        ensures taken { result.items ≡ takeable self.old.state.ran }
        ensures same { SameProcessor self.old.state self.new.state }
        ensures only { OnlyTakes self.old.state self.new.state }
        ensures sound { KeepsSound J.key_of J.gives self.old.state self.new.state }
    {
        self.state.ran.take(alloc)
    }
}

impl<J: Job> ProcessorInPlace<J> {
    /// Takes out the records that are left, as [`take_records`](Processor::take_records) of a processor does, where no claim
    /// of it runs.
    pub fn take_records(&mut self, alloc: Global) -> Vec<Record<J::Receipt>>
        requires rests { self.old.state.claimed ≡ None }
        ensures taken { result.items ≡ takeable self.old.state.ran }
        ensures only { StaysTaking self.old.state self.new.state }
        ensures sound { KeepsSoundInPlace J.key_of J.gives self.old.state self.new.state }
    {
        self.state.ran.take(alloc)
    }
}
