//! What comes back of a part that a thread runs.

use crate::callers::Called;
use crate::shares::Caller;
use rcu_jobs::Job;
use rcu_part_control::Driver;
use rcu_part_group::Group;
use rcu_part_hand::Hand;
use rcu_part_processor::Processor;

/// A part that runs in a thread of its own.
pub trait Runs: Send + Drop {
    /// What comes back of it.
    type Back: Send + Drop;

    // What this has to do with the part.
    ghost comes_back: { Self → Self.Back → Type 0 };
}

impl Runs for Driver {
    type Back = Driver;

    ghost use Rattle.rcu_part_threads.specs.Parts.{DriverStays};

    ghost comes_back = { λ d e. DriverStays d e };
}

impl<J: Job<Receipt = u64>> Runs for Group<J> {
    type Back = Group<J>;

    ghost use Rattle.rcu_part_threads.specs.Parts.{GroupStays};

    ghost comes_back = { λ g h. GroupStays g h };
}

impl<J: Job<Receipt = u64>> Runs for Hand<J> {
    type Back = Hand<J>;

    ghost use Rattle.rcu_part_threads.specs.Parts.{HandStays};

    ghost comes_back = { λ h i. HandStays J.key_of J.gives h i };
}

impl<J: Job<Receipt = u64>> Runs for Processor<J> {
    type Back = Processor<J>;

    ghost use Rattle.rcu_part_threads.specs.Parts.{ProcessorStays};

    ghost comes_back = { λ p q. ProcessorStays J.key_of J.gives p q };
}

impl<J: Job<Receipt = u64>> Runs for Caller<Processor<J>, J> {
    type Back = Called<Processor<J>, J>;

    ghost use Rattle.rcu_part_threads.specs.Calls.{HasAnswered};

    ghost comes_back = { λ p c.
        HasAnswered J.key_of J.gives p.jobs.items c.answers.items p.processor c.processor };
}
