//! A processor and a hand in a slot, each with the job of its callback that runs, if one does.

ghost use Rattle.std.specs.Prelude.{◌≡◌, None, is_some};

use crate::job::ForeignJob;
use rcu_parts::{Hand, HandInPlace, Processor, ProcessorInPlace};

/// A processor in a slot.
#[derive(Drop)]
pub struct LentProcessor {
    pub processor: ProcessorInPlace<ForeignJob>,
    /// The job that was handed out, while its callback runs.
    pub job: Option<ForeignJob>,
    ghost both: { is_some job ≡ is_some processor.state.claimed },
}

/// A hand in a slot.
#[derive(Drop)]
pub struct LentHand {
    pub hand: HandInPlace<ForeignJob>,
    /// The job that was handed out, while its callback runs.
    pub job: Option<ForeignJob>,
    ghost both: { is_some job ≡ is_some hand.state.claimed },
}

impl LentProcessor {
    ghost use Rattle.rcu_c_slots.specs.Processors.{lent_processor};

    /// A processor of which no callback runs.
    pub fn new(processor: Processor<ForeignJob>) -> LentProcessor
        ensures { result ≡ lent_processor processor }
    {
        LentProcessor {
            processor: ProcessorInPlace::new(processor),
            job: None,
        }
    }

    /// The processor by itself, where no callback of it runs.
    pub fn into_processor(self) -> Processor<ForeignJob>
        requires { self.job ≡ None }
        ensures { self ≡ lent_processor result }
    {
        let LentProcessor { processor, job: _ } = self;
        processor.into_processor()
    }
}

impl LentHand {
    ghost use Rattle.rcu_c_slots.specs.Runs.{lent_hand};

    /// A hand of which no callback runs.
    pub fn new(hand: Hand<ForeignJob>) -> LentHand
        ensures { result ≡ lent_hand hand }
    {
        LentHand {
            hand: HandInPlace::new(hand),
            job: None,
        }
    }

    /// The hand by itself, where no callback of it runs.
    pub fn into_hand(self) -> Hand<ForeignJob>
        requires { self.job ≡ None }
        ensures { self ≡ lent_hand result }
    {
        let LentHand { hand, job: _ } = self;
        hand.into_hand()
    }
}
