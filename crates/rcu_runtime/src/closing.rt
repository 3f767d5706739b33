//! The end of a runtime.

ghost use Rattle.std.specs.Prelude.{◌≡◌, IfErr, IfOk};
ghost use Rattle.rcu_parts.specs.Drained.{HasNoneBack};
ghost use Rattle.rcu_runtime.specs.Ends.{ClosesWhole, HaveReceipts, LosesNone};
ghost use Rattle.rcu_runtime.specs.Runtimes.{IsDrained};

use crate::whole::{Whole, Wholeness};
use rcu_jobs::{Closed, Job};
use rcu_parts::{AllClosing, AllParts, Group, Hand, Processor};
use std::alloc::Global;

/// A runtime that could not be closed for want of memory. Nothing of it moved, and all that is left to do is to try
/// `again`.
pub type Closing<J> = Whole<rcu_parts::Closing<J>>;

impl<J: Job> Wholeness for AllClosing<Processor<J>, Group<J>, Hand<J>> {
    ghost use Rattle.rcu_runtime.specs.Runtimes.{CanClose};

    ghost is_whole = { λ limit closing. CanClose J.key_of J.gives closing.parts };

    fn let_go(self) {
        drop(self);
    }
}

impl<J: Job> Whole<AllParts<Processor<J>, Group<J>, Hand<J>>> {
    /// Closes the runtime: gives the records of all callbacks that ran, the jobs of those that didn't, and how many reports
    /// were counted.
    ///
    /// # Errors
    ///
    /// Want of memory. No job, record or word has changed.
    pub fn close(self, alloc: Global) -> Result<Closed<J>, Closing<J>>
        ensures closes { IfOk result (λ closed. ClosesWhole J.key_of J.gives self closed) }
        ensures none_lost { IfOk result (LosesNone self) }
        ensures receipts { IfOk result (λ closed. HaveReceipts J.gives closed) }
        ensures drained { IsDrained self → IfOk result (λ closed. HasNoneBack closed) }
        ensures left { IfErr result (λ closing. closing.parts ≡ self) }
    {
        match rcu_parts::close(alloc, self.into_parts()) {
            Ok(closed) => Ok(closed),
            Err(closing) => Err(Whole {
                parts: closing,
                limit: 0,
            }),
        }
    }
}

impl<J: Job> Whole<AllClosing<Processor<J>, Group<J>, Hand<J>>> {
    /// Tries again.
    ///
    /// # Errors
    ///
    /// As when it was closed first.
    pub fn again(self, alloc: Global) -> Result<Closed<J>, Closing<J>>
        ensures closes { IfOk result (λ closed. ClosesWhole J.key_of J.gives self.parts closed) }
        ensures none_lost { IfOk result (LosesNone self.parts) }
        ensures receipts { IfOk result (λ closed. HaveReceipts J.gives closed) }
        ensures drained { IsDrained self.parts → IfOk result (λ closed. HasNoneBack closed) }
        ensures left { IfErr result (λ closing. closing.parts ≡ self.parts) }
    {
        match self.into_parts().again(alloc) {
            Ok(closed) => Ok(closed),
            Err(closing) => Err(Whole {
                parts: closing,
                limit: 0,
            }),
        }
    }
}
