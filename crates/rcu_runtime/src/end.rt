//! The end of a runtime whose program gives up where there is no memory for it.

ghost use Rattle.std.specs.Prelude.{IfErr, IfOk};
ghost use Rattle.rcu_parts.specs.Drained.{HasNoneBack};
ghost use Rattle.rcu_runtime.specs.Ends.{ClosesLater, ClosesWhole, HaveReceipts, IsOfDrain, LosesNone};
ghost use Rattle.rcu_runtime.specs.Runtimes.{IsDrained};
ghost use Rattle.rcu_runtime.specs.Settled.{HasRunAll};

use crate::any_fault::AnyFault;
use crate::whole::Whole;
use rcu_jobs::{Closed, Job};
use rcu_parts::{AllParts, Group, Hand, Processor};
use std::alloc::{AllocError, Global};

impl<J: Job> Whole<AllParts<Processor<J>, Group<J>, Hand<J>>> {
    /// Closes the runtime as [`close`](Whole::close) does, once. Where there is no memory for that all is let go: the records
    /// of what ran, and the jobs that haven't.
    ///
    /// # Errors
    ///
    /// Want of memory.
    pub fn close_or_drop(self, alloc: Global) -> Result<Closed<J>, AllocError>
        ensures closes { IfOk result (λ closed. ClosesWhole J.key_of J.gives self closed) }
        ensures none_lost { IfOk result (LosesNone self) }
        ensures receipts { IfOk result (λ closed. HaveReceipts J.gives closed) }
        ensures drained { IsDrained self → IfOk result (λ closed. HasNoneBack closed) }
        ensures run { HasRunAll self → IfOk result (λ closed. HasNoneBack closed) }
    {
        match rcu_parts::close(alloc, self.into_parts()) {
            Ok(closed) => Ok(closed),
            Err(_) => Err(AllocError),
        }
    }
    /// Drains the runtime as [`drain`](Whole::drain) does, and closes it: no job comes back.
    ///
    /// # Errors
    ///
    /// `NotDrained` where not all had run in these turns, or want of memory: then all is let go.
    pub fn drain_and_close(
        self,
        alloc: Global,
        moment: u64,
        turns: u64,
    ) -> Result<Closed<J>, AnyFault>
        ensures closes { IfOk result (λ closed.
            ClosesLater J.key_of J.gives moment turns self closed) }
        ensures none_lost { IfOk result (LosesNone self) }
        ensures receipts { IfOk result (λ closed. HaveReceipts J.gives closed) }
        ensures none_back { IfOk result (λ closed. HasNoneBack closed) }
        ensures fault { IfErr result (IsOfDrain moment turns self) }
    {
        let mut runtime = self;
        if !runtime.drain(moment, turns) {
            return Err(AnyFault::NotDrained);
        }
        match runtime.close_or_drop(alloc) {
            Ok(ended) => Ok(ended),
            Err(refused) => Err(AnyFault::Memory(refused)),
        }
    }
}
