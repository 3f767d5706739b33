//! Waiting, by turns of all parts, until what was accepted has run.

ghost use Rattle.std.specs.Prelude.{All, IfErr, IfOk, IsTrue};
ghost use Rattle.rcu_runtime.specs.Settled.{IsCounted};

use crate::any_fault::AnyFault;
use crate::whole::Whole;
use rcu_jobs::{Counts, Job, Passed};
use rcu_parts::{AllParts, Barrier, Group, Hand, Processor};

/// Whether these counts have all that a processor accepted.
fn counts_own<J: Job>(processor: &Processor<J>, counts: &Counts) -> bool
    ensures { IsTrue result → IsCounted counts.now processor.now }
{
    let cpu = processor.cpu();
    if cpu >= counts.n {
        return false;
    }
    let count = counts.counts[cpu as usize];
    processor.accepted() <= count
}

/// Whether these counts have all that each processor accepted.
fn counts_all<J: Job>(processors: &Vec<Processor<J>>, counts: &Counts) -> bool
    ensures { IsTrue result → All (IsCounted counts.now) processors.now.items }
{
    for processor in processors {
        if !counts_own(processor, counts) {
            return false;
        }
    }
    true
}

impl<J: Job> Whole<AllParts<Processor<J>, Group<J>, Hand<J>>> {
    ghost use Rattle.rcu_parts.specs.OneOpen.{parts_board};
    ghost use Rattle.rcu_runtime.specs.Calls.{AsksOnce, OnControl};
    ghost use Rattle.rcu_runtime.specs.Settled.{HasPassed, HasRunAll, IsWhyNotPassed};
    ghost use Rattle.rcu_runtime.specs.Waits.{TurnsUntilPassed};

    /// Makes turns of all parts at this moment, at most so many, until the barrier has passed.
    ///
    /// # Errors
    ///
    /// `NotPassed` where it hasn't by then; `OtherBarrier` where it counts another number of processors, so that another
    /// runtime opened it.
    pub fn turn_until_passed(
        &mut self,
        barrier: &Barrier,
        moment: u64,
        turns: u64,
    ) -> Result<Passed, AnyFault>
        ensures passed { IfOk result (λ passed. HasPassed barrier.now.counts passed self.new) }
        ensures why { IfErr result
            (IsWhyNotPassed barrier.now.counts.n (parts_board self.old).processors) }
        ensures turns { TurnsUntilPassed moment turns barrier.now.counts result self.old self.new }
    {
        for _made in 0..turns {
            match self.poll(barrier) {
                Ok(Some(passed)) => return Ok(passed),
                Ok(None) => {}
                Err(other) => return Err(AnyFault::OtherBarrier(other)),
            }
            self.turn_all(moment);
        }
        match self.poll(barrier) {
            Ok(Some(passed)) => Ok(passed),
            Ok(None) => Err(AnyFault::NotPassed),
            Err(other) => Err(AnyFault::OtherBarrier(other)),
        }
    }

    /// Whether all that was accepted so far has run: a barrier for it passes at once. Makes no turn.
    pub fn has_run_all(&mut self) -> bool
        ensures run { IsTrue result → HasRunAll self.new }
        ensures asks { OnControl AsksOnce self.old self.new }
    {
        let Ok(barrier) = self.barrier(&[]) else {
            unreachable!()
        };
        let Ok(polled) = self.poll(&barrier) else {
            unreachable!()
        };
        let Some(passed) = polled else {
            return false;
        };
        counts_all(&self.parts.processors, &passed.counts)
    }
}
