//! Laws over a processor's part, which have no code.

ghost use Rattle.std.specs.Prelude.{◌≡◌, ℕ, ◌+◌};
ghost use Rattle.rcu_part_processor.specs.Ticks.{RanDone};
ghost use Rattle.rcu_part_processor.specs.TwoSteps.{NeverFallsBack, RunsInTwoSteps};
ghost use Rattle.rcu_part_processor.specs.declared.processor.ProcessorState.{ProcessorState};

use rcu_jobs::Job;

/// A tick means begins and finishes in a loop with one look: the claim by which a begin hands a job out, and its finish,
/// are one run of a tick's list of runs, and follow what a tick ran already at the same look.
pub fn ticks_in_two_steps<J: Job>()
    ensures one { (seen : ℕ) (p q : ProcessorState J J.Receipt) → RunsInTwoSteps seen p q
        → NeverFallsBack p q → RanDone 1 1 seen p q }
    ensures more { (ran tried seen : ℕ) (o p q : ProcessorState J J.Receipt) → p.cpu ≡ o.cpu
        → RanDone ran tried seen o p → RunsInTwoSteps seen p q → NeverFallsBack p q
        → RanDone (ran + 1) (tried + 1) seen o q }
{}
