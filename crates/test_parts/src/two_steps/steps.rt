//! What a program does that runs callbacks in two steps: that what it has of a part afterwards is still what `close` asks for
//! follows from the clauses of `begin` and `finish` alone.

ghost use Rattle.std.specs.Prelude.{All};
ghost use Rattle.std.specs.List.{AllZip};
ghost use Rattle.rcu_part_control.specs.Parts.{SameDriver};
ghost use Rattle.rcu_part_hand.specs.Hands.{SameHand, IsSoundHand};
ghost use Rattle.rcu_part_processor.specs.Processors.{SameProcessor, IsSound};
ghost use Rattle.rcu_parts.specs.OneOpen.{AreOfOneOpen};
ghost use Rattle.test_parts.specs.Echoes.{IsOwnKey, key_of_echo};

use crate::two_steps::echo::Echo;
use rcu_jobs::{Closed, Job};
use rcu_parts::{
    Begins, Closing, Driver, Hand, HandInPlace, Parts, Processor, ProcessorInPlace, close,
};
use std::alloc::Global;

/// Begins a processor's first callback, runs its job, and finishes.
pub fn step(processor: Processor<Echo>, moment: u64) -> Processor<Echo>
    ensures same { SameProcessor processor.state result.state }
    ensures sound { IsSound key_of_echo IsOwnKey processor.state
        → IsSound key_of_echo IsOwnKey result.state }
{
    match processor.begin(moment) {
        Begins::Stops(processor, _) => processor,
        Begins::Runs(running, job) => {
            let receipt = job.run();
            running.finish(receipt)
        }
    }
}

/// Begins a hand's first callback, runs its job, and finishes.
pub fn step_hand(hand: Hand<Echo>) -> Hand<Echo>
    ensures same { SameHand hand.state result.state }
    ensures sound { IsSoundHand key_of_echo IsOwnKey hand.state
        → IsSoundHand key_of_echo IsOwnKey result.state }
{
    match hand.begin() {
        Begins::Stops(hand, _) => hand,
        Begins::Runs(running, job) => {
            let receipt = job.run();
            running.finish(receipt)
        }
    }
}

/// The same of a processor in place.
pub fn step_in_place(processor: Processor<Echo>, moment: u64) -> Processor<Echo>
    ensures same { SameProcessor processor.state result.state }
    ensures sound { IsSound key_of_echo IsOwnKey processor.state
        → IsSound key_of_echo IsOwnKey result.state }
{
    let mut place = ProcessorInPlace::new(processor);
    match place.begin(moment) {
        Err(_) => place.into_processor(),
        Ok(job) => {
            let receipt = job.run();
            place.finish(receipt);
            place.into_processor()
        }
    }
}

/// The same of a hand in place.
pub fn step_hand_in_place(hand: Hand<Echo>) -> Hand<Echo>
    ensures same { SameHand hand.state result.state }
    ensures sound { IsSoundHand key_of_echo IsOwnKey hand.state
        → IsSoundHand key_of_echo IsOwnKey result.state }
{
    let mut place = HandInPlace::new(hand);
    match place.begin() {
        Err(_) => place.into_hand(),
        Ok(job) => {
            let receipt = job.run();
            place.finish(receipt);
            place.into_hand()
        }
    }
}

/// Accepts a job, lets a grace period of one processor pass, and runs the callback in two steps.
fn work(processor: Processor<Echo>, driver: &mut Driver, job: Echo) -> Processor<Echo>
    ensures same { SameProcessor processor.state result.state }
    ensures driver { SameDriver driver.old driver.new }
    ensures sound { IsSound key_of_echo IsOwnKey processor.state
        → IsSound key_of_echo IsOwnKey result.state }
{
    let mut processor = processor;
    let _accepted = processor.call_rcu(1, job);
    processor.tick(1);
    driver.turn();
    processor.quiescent();
    driver.turn();
    step(processor, 2)
}

/// The same for the last processor of several.
fn work_last(processors: &mut Vec<Processor<Echo>>, driver: &mut Driver, job: Echo)
    ensures same { AllZip (λ p q. SameProcessor p.state q.state) processors.old.items
        processors.new.items }
    ensures driver { SameDriver driver.old driver.new }
    ensures sound { All (λ p. IsSound key_of_echo IsOwnKey p.state) processors.old.items
        → All (λ p. IsSound key_of_echo IsOwnKey p.state) processors.new.items }
{
    let Some(processor) = processors.pop() else {
        return;
    };
    processors.push_reserved(work(processor, driver, job));
}

/// Accepts a job, runs it in two steps, and closes the runtime.
///
/// # Errors
///
/// As [`close`].
pub fn work_and_close(
    alloc: Global,
    parts: Parts<Echo>,
    job: Echo,
) -> Result<Closed<Echo>, Closing<Echo>>
    requires one { AreOfOneOpen parts }
{
    let mut parts = parts;
    work_last(&mut parts.processors, &mut parts.driver, job);
    close(alloc, parts)
}
