//! A processor's run of one callback in two steps: the claim is won and the job handed out, and later the claim is ended.

ghost use Rattle.std.specs.Prelude.{◌≡◌, ◌≢◌};
ghost use Rattle.rcu_jobs.specs.declared.Stop.TheVariants.{Limit};
ghost use Rattle.rcu_part_processor.specs.Begins.{BeginsTick, StopsBegin, FinishesProcessor};
ghost use Rattle.rcu_part_processor.specs.Processors.{SameProcessor, IsSound};
ghost use Rattle.rcu_part_processor.specs.Running.{SameBegun, SameFinished, IsSoundRunning};
ghost use Rattle.rcu_part_steps.specs.Begins.{IfRuns, IfStops};

use crate::processor::{Processor, ProcessorState};
use crate::running_processor::{RunningProcessor, RunningProcessorState};
use rcu_jobs::Job;
use rcu_part_steps::{Begins, end_claim};

impl<J: Job> Processor<J> {
    /// A tick up to its first claim, at a moment of the caller's clock: one look, by which the own list is advanced and
    /// accelerated, and what it waits for is asked for; an offloadable processor then releases its bypass list where that
    /// is due, and changes its mode as it is asked. Then the first callback that is done is claimed, after room for its
    /// record was found. The job is handed out, to be run until `finish` ends the claim. Where no claim runs, the answer
    /// says why, as `tick` does, but never `Limit`.
    pub fn begin(self, moment: u64) -> Begins<RunningProcessor<J>, J, Processor<J>>
        ensures same { IfRuns result (λ running _. SameBegun self.state running.state) }
        ensures stays { IfStops result (λ processor _. SameProcessor self.state processor.state) }
        ensures runs { IfRuns result (λ running job.
            BeginsTick moment self.state running.state job) }
        ensures stops { IfStops result (λ processor stop.
            StopsBegin moment stop self.state processor.state) }
        ensures counts { IfStops result (λ _ stop. stop ≢ Limit) }
        ensures count { IfRuns result (λ running _. running.state.accepted ≡ self.state.accepted)
            × IfStops result (λ processor _. processor.state.accepted ≡ self.state.accepted) }
        ensures keyed { IsSound J.key_of J.gives self.state
            → IfRuns result (λ running job. J.key_of job ≡ running.state.claimed.key) }
        ensures sound { IsSound J.key_of J.gives self.state
            → IfRuns result (λ running _. IsSoundRunning J.key_of J.gives running.state)
            × IfStops result (λ processor _. IsSound J.key_of J.gives processor.state) }
    {
        let mut processor = self;
        let seen = processor.catch_up();
        if !processor.state.offloadable {
            return processor.claim_done(seen);
        }
        processor.heed(moment);
        processor.settle();
        processor.claim_done(seen)
    }
}

impl<J: Job> RunningProcessor<J> {
    /// Ends the claim, and adds the callback's record with what its job gave.
    pub fn finish(self, receipt: J::Receipt) -> Processor<J>
        ensures same { SameFinished self.state result.state }
        ensures finishes { FinishesProcessor receipt self.state result.state }
        ensures sound { IsSoundRunning J.key_of J.gives self.state
            → J.gives self.state.claimed.key receipt → IsSound J.key_of J.gives result.state }
    {
        let RunningProcessorState {
            board,
            mut seat,
            cpu,
            offloadable,
            limit,
            blimit,
            accepted,
            passed,
            mut ran,
            claimed,
            lists,
        } = self.state;
        end_claim(&board, &mut seat);
        ran.add(claimed.record(receipt));
        let state = ProcessorState {
            board,
            seat,
            cpu,
            offloadable,
            limit,
            blimit,
            accepted,
            passed,
            ran,
            lists,
        };
        Processor { state }
    }
}
