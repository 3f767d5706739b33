//! A processor with its worker, in a thread of their own.

ghost use Rattle.std.specs.Prelude.{◌≡◌, ◌≢◌};
ghost use Rattle.rcu_runtime.specs.Turns.{ReportsAndTicks};
ghost use Rattle.rcu_runtime_threads.specs.Steps.{PostWorks, ProcessorWorks};

use crate::acts::{Acted, act};
use crate::pauses::rest;
use crate::signals::Signals;
use crate::worker::{Answer, Worker, WorkerEnd};
use rcu_jobs::Job;
use rcu_part_control::Pauses;
use rcu_parts::Processor;
use std::rt::Clock;
use std::sync::Wait;

/// A processor, its worker, and how that ended.
#[derive(Drop)]
pub struct Post<P, W> {
    pub processor: P,
    pub worker: W,
    pub end: WorkerEnd,
}

/// Waits until the workers may begin. Answers false where the run is over before.
fn may_begin<R: Wait + Clock>(rt: &R, signals: &Signals) -> bool {
    let mut pauses = Pauses::new();
    for _ in rt.forever() {
        if signals.has_begun() {
            return true;
        }
        if signals.is_over() {
            return false;
        }
        pauses.pause(rt);
    }
    unreachable!()
}

/// Makes the steps of a worker, one after another, until it ends.
fn work<J: Job, W: Worker<J>, R: Wait + Clock>(
    rt: &R,
    processor: &mut Processor<J>,
    worker: &mut W,
) -> WorkerEnd
    ensures works { ProcessorWorks J.key_of J.gives processor.old processor.new }
    ensures begun { result ≢ WorkerEnd.NotBegun }
    ensures name { W.name_of worker.new ≡ W.name_of worker.old }
    ensures ended { W.ends_as result worker.new }
{
    worker.begin(processor.cpu());
    let mut answer = Answer::Began;
    let mut pauses = Pauses::new();
    for _ in rt.forever() {
        let step = worker.step(answer);
        answer = match act(processor, worker, step) {
            Acted::Answers(next) => next,
            Acted::Ends(end) => return end,
        };
        rest(rt, &mut pauses, !matches!(&answer, Answer::Paused));
    }
    unreachable!()
}

/// Reports and ticks. Answers whether a report was counted or a callback ran.
fn report_and_tick<J: Job>(processor: &mut Processor<J>, moment: u64) -> bool
    ensures works { ProcessorWorks J.key_of J.gives processor.old processor.new }
    ensures turns { ReportsAndTicks moment processor.old processor.new }
{
    let counted = processor.quiescent().is_some();
    let ticked = processor.tick(moment);
    counted || ticked.ran > 0
}

/// Reports and ticks until the run is over, at the moments 0, 1, ..
fn report_until_over<J: Job, R: Wait + Clock>(
    rt: &R,
    processor: &mut Processor<J>,
    signals: &Signals,
)
    ensures { ProcessorWorks J.key_of J.gives processor.old processor.new }
{
    let mut pauses = Pauses::new();
    let mut moment: u64 = 0;
    for _ in rt.forever() {
        if signals.is_over() {
            return;
        }
        let has_moved = report_and_tick(processor, moment);
        rest(rt, &mut pauses, has_moved);
        moment = moment.saturating_add(1);
    }
    unreachable!()
}

/// Has the worker work, once the workers may begin, and its processor report and tick from then on until the run is over.
pub(crate) fn run_post<J: Job, W: Worker<J>, R: Wait + Clock>(
    post: Post<Processor<J>, W>,
    rt: &R,
    signals: &Signals,
) -> Post<Processor<J>, W>
    ensures { PostWorks J.key_of J.gives W.name_of W.ends_as post result }
{
    let Post {
        mut processor,
        mut worker,
        end: _,
    } = post;
    if !may_begin(rt, signals) {
        return Post {
            processor,
            worker,
            end: WorkerEnd::NotBegun,
        };
    }
    let end = work(rt, &mut processor, &mut worker);
    signals.count_ended();
    report_until_over(rt, &mut processor, signals);
    Post {
        processor,
        worker,
        end,
    }
}
