//! One step of a worker on its processor.

ghost use Rattle.std.specs.Prelude.{◌≡◌, ◌≢◌, MatchResult};
ghost use Rattle.rcu_runtime_threads.specs.Steps.{Does, ProcessorWorks};

use crate::worker::{Answer, Step, Worker, WorkerEnd};
use rcu_jobs::{Job, Refused, Ticket};
use rcu_parts::{Barrier, Processor};

/// What a step came to.
#[derive(Drop)]
pub(crate) enum Acted<J> {
    /// What the worker is told.
    Answers(Answer<J>),
    /// The worker has ended.
    Ends(WorkerEnd),
}

/// What a call answered.
fn told<J>(called: Result<Ticket, Refused<J>>) -> Acted<J>
    ensures { MatchResult called (λ t. result ≡ Acted.Answers (Answer.Called t)) (λ refused.
        result ≡ Acted.Answers (Answer.Refused refused)) }
{
    match called {
        Ok(ticket) => Acted::Answers(Answer::Called(ticket)),
        Err(refused) => Acted::Answers(Answer::Refused(refused)),
    }
}

/// Polls a barrier, if it is one of this runtime.
fn poll<J: Job>(processor: &mut Processor<J>, barrier: Barrier) -> Acted<J>
    ensures works { ProcessorWorks J.key_of J.gives processor.old processor.new }
    ensures does { Does J.key_of (Step.PollBarrier barrier) result processor.old processor.new }
{
    if barrier.counts.n != processor.processors() {
        return Acted::Answers(Answer::OtherBarrier);
    }
    let mut barrier = barrier;
    Acted::Answers(Answer::Polled(barrier.poll(processor)))
}

/// Makes one step.
pub(crate) fn act<J: Job, W: Worker<J>>(
    processor: &mut Processor<J>,
    worker: &mut W,
    step: Step<J>,
) -> Acted<J>
    ensures works { ProcessorWorks J.key_of J.gives processor.old processor.new }
    ensures does { Does J.key_of step result processor.old processor.new }
    ensures name { W.name_of worker.new ≡ W.name_of worker.old }
    ensures only_read { step ≢ Step.Read → worker.new ≡ worker.old }
{
    match step {
        Step::Call { moment, job } => told(processor.call_rcu(moment, job)),
        Step::CallLazy { moment, job } => told(processor.call_rcu_lazy(moment, job)),
        Step::Read => {
            worker.read(&processor.reading());
            Acted::Answers(Answer::WasRead)
        }
        Step::Report => Acted::Answers(Answer::Reported(processor.quiescent())),
        Step::Tick { moment } => Acted::Answers(Answer::Ticked(processor.tick(moment))),
        Step::OpenBarrier => Acted::Answers(Answer::Opened(processor.barrier())),
        Step::PollBarrier(barrier) => poll(processor, barrier),
        Step::Pause => Acted::Answers(Answer::Paused),
        Step::Done => Acted::Ends(WorkerEnd::Done),
        Step::Fail => Acted::Ends(WorkerEnd::Failed),
    }
}
