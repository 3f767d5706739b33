//! The thread of the processors.

ghost use Rattle.std.specs.Prelude.{◌≡◌, ◌<◌, ◌≤◌, All, IfErr, IfOk, length};
ghost use Rattle.std.specs.List.{AllZip};
ghost use Rattle.rcu_part_processor.specs.Processors.{IsSound, SameProcessor};
ghost use Rattle.rcu_jobs.specs.Refusals.{number_of};
ghost use Rattle.test_parts.specs.Acts.{Acts, ActsAt};
ghost use Rattle.test_parts.specs.Kept.{ProcessorsKeep};
ghost use Rattle.test_parts.specs.declared.phases.phase.Answer.TheVariants.{Accepted, NoProcessor};

use crate::phases::company::Callers;
use crate::phases::phase::{Act, Answer, Step};
use rcu_jobs::{Job, Refused, Ticket};
use rcu_parts::Processor;
use std::alloc::AllocError;

/// What a call of either kind answered. A refused job is dropped.
fn accepted<J: Drop>(called: Result<Ticket, Refused<J>>) -> Answer
    ensures ok { IfOk called (λ ticket. result ≡ Accepted ticket) }
    ensures err { IfErr called (λ refused. result ≡ Answer.Refused (number_of refused)) }
{
    match called {
        Ok(ticket) => Answer::Accepted(ticket),
        Err(refused) => Answer::Refused(refused.number()),
    }
}

/// One call of a processor.
fn act_one<J: Job<Receipt = u64>>(processor: &mut Processor<J>, act: Act<J>) -> Answer
    ensures acts { Acts J.key_of act result processor.old.state processor.new.state }
    ensures same { SameProcessor processor.old.state processor.new.state }
    ensures sound { IsSound J.key_of J.gives processor.old.state
        → IsSound J.key_of J.gives processor.new.state }
{
    match act {
        Act::Call { moment, job } => accepted(processor.call_rcu(moment, job)),
        Act::Lazy { moment, job } => accepted(processor.call_rcu_lazy(moment, job)),
        Act::Report => Answer::Reported(processor.quiescent()),
        Act::Tick { moment } => Answer::Ticked(processor.tick(moment)),
    }
}

/// One call of processor `cpu`.
fn act_at<J: Job<Receipt = u64>>(
    processors: &mut Vec<Processor<J>>,
    cpu: usize,
    act: Act<J>,
) -> Answer
    ensures same { AllZip (λ p q. SameProcessor p.state q.state) processors.old.items
        processors.new.items }
    ensures sound { All (λ p. IsSound J.key_of J.gives p.state) processors.old.items
        → All (λ p. IsSound J.key_of J.gives p.state) processors.new.items }
    ensures acts { cpu < length processors.old.items
        → ActsAt J.key_of cpu act result processors.old.items processors.new.items }
    ensures none { length processors.old.items ≤ cpu
        → (result ≡ NoProcessor) × (processors.new ≡ processors.old) }
{
    if cpu >= processors.len() {
        return Answer::NoProcessor;
    }
    act_one(&mut processors[cpu], act)
}

/// All steps of the processors' thread in a phase.
///
/// # Errors
///
/// Want of memory for the answers.
pub(crate) fn act_all<J: Job<Receipt = u64>>(
    callers: Callers<Processor<J>>,
    steps: Vec<Step<J>>,
) -> Result<Callers<Processor<J>>, AllocError>
    ensures { IfOk result (λ new.
        ProcessorsKeep J.key_of J.gives callers.processors.items new.processors.items) }
{
    let Callers {
        mut processors,
        mut answers,
    } = callers;
    for step in steps {
        match step {
            Step::On { cpu, act } => answers.push(act_at(&mut processors, cpu, act))?,
            Step::Sign(signal) => signal.give(),
        }
    }
    Ok(Callers {
        processors,
        answers,
    })
}
