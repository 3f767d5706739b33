//! Callbacks in two steps of parts in place, through a local processor and through a hand.

use crate::opening::{Work, job};
use crate::same::assert_same;
use crate::two_steps::in_place::{begin, finish, hand_begin, hand_finish};
use crate::two_steps::opening::{AllOfOne, open_local, open_offloaded};
use crate::two_steps::outcomes::passes;
use rcu_jobs::{Job, Lists, Mode, Stop};
use rcu_parts::{Control, Driver, HandInPlace, Processor, ProcessorInPlace};
use std::alloc::Global;
use std::process::Abort;

/// Accepts jobs of two keys.
fn call_two(alloc: Global, processor: &mut ProcessorInPlace<Work>, keys: (u64, u64)) -> Option<()> {
    processor.call_rcu(1, job(alloc, keys.0)?).ok()?;
    processor.call_rcu(1, job(alloc, keys.1)?).ok()?;
    Some(())
}

/// A grace period of the one processor.
fn grace_period(processor: &mut ProcessorInPlace<Work>, driver: &mut Driver) {
    driver.turn();
    processor.quiescent();
    driver.turn();
}

/// Why a processor began nothing. None where it began a callback, or one runs.
fn why_not(processor: &mut ProcessorInPlace<Work>, moment: u64) -> Option<Stop> {
    begin(processor, moment)?.err()
}

/// The job of the callback that a processor begins.
fn begun(processor: &mut ProcessorInPlace<Work>, moment: u64) -> Option<Work> {
    begin(processor, moment)?.ok()
}

/// A local processor in place that accepted the jobs of two keys, whose grace period is over.
fn ripe(
    alloc: Global,
    processor: Processor<Work>,
    driver: &mut Driver,
) -> Option<ProcessorInPlace<Work>> {
    let mut processor = ProcessorInPlace::new(processor);
    call_two(alloc, &mut processor, (7, 8))?;
    why_not(&mut processor, 1)?;
    grace_period(&mut processor, driver);
    Some(processor)
}

/// The number of the callback that runs.
fn number(processor: &ProcessorInPlace<Work>) -> Option<u64> {
    Some(processor.claimed()?.number)
}

/// Runs the job of the callback that runs, and ends this. Answers its number, the job's receipt, and whether no other began
/// before its end, whether it ended, and whether another did.
fn end_alone(processor: &mut ProcessorInPlace<Work>, work: Work) -> (Option<u64>, u64, [bool; 3]) {
    let number = number(processor);
    let none = begin(processor, 2).is_none();
    let receipt = work.run();
    let ended = finish(processor, receipt);
    (number, receipt, [none, ended, finish(processor, 7)])
}

/// Runs the job of the callback that runs, and ends this. Answers whether one ran.
fn end(processor: &mut ProcessorInPlace<Work>, work: Work) -> bool {
    finish(processor, work.run())
}

#[test]
fn processor_in_place_begins_in_order(rt: HostRuntime) {
    let alloc = rt.alloc();
    let (processor, mut driver) = open_local(&rt, alloc);
    let mut processor = ripe(alloc, processor, &mut driver).expect(&rt, "two callbacks");
    let work = begun(&mut processor, 2).expect(&rt, "the first");
    assert_same(
        &rt,
        end_alone(&mut processor, work),
        (Some(0), 7, [true, true, false]),
    );
    let work = begun(&mut processor, 3).expect(&rt, "the second");
    assert_same(
        &rt,
        end_alone(&mut processor, work),
        (Some(1), 8, [true, true, false]),
    );
    assert_same(&rt, why_not(&mut processor, 4), Some(Stop::Empty));
}

/// The numbers of a plain call and of a lazy one, where processor 0 accepts both.
fn call_beside(alloc: Global, processor: &mut ProcessorInPlace<Work>) -> Option<[u64; 2]> {
    let plain = processor.call_rcu(2, job(alloc, 9)?).ok()?;
    let lazy = processor.call_rcu_lazy(2, job(alloc, 10)?).ok()?;
    if (plain.cpu, lazy.cpu) != (0, 0) {
        return None;
    }
    Some([plain.number, lazy.number])
}

#[test]
fn callback_in_place_calls_on_its_own_processor(rt: HostRuntime) {
    let alloc = rt.alloc();
    let (processor, mut driver) = open_local(&rt, alloc);
    let mut processor = ripe(alloc, processor, &mut driver).expect(&rt, "two callbacks");
    let work = begun(&mut processor, 2).expect(&rt, "the first");
    assert_same(&rt, call_beside(alloc, &mut processor), Some([2, 3]));
    assert_same(&rt, (processor.accepted(), processor.left()), (4, 4));
    let shown = Lists::Cpu {
        mode: Mode::Local,
        accepted: 4,
        bypass: 0,
        lengths: [1, 0, 0, 2],
        numbers: [0, 0],
    };
    assert_same(
        &rt,
        (processor.lists(), processor.quiescent()),
        (shown, None),
    );
    let first = end(&mut processor, work);
    let work = begun(&mut processor, 3).expect(&rt, "the second");
    let second = end(&mut processor, work);
    let last = why_not(&mut processor, 4);
    assert_same(&rt, (first, second, last), (true, true, Some(Stop::Empty)));
    grace_period(&mut processor, &mut driver);
    let work = begun(&mut processor, 5).expect(&rt, "the third");
    assert_same(&rt, (number(&processor), work.run()), (Some(2), 9));
}

/// Gives the hand the callbacks of two keys, whose grace period is over, and takes it out.
fn given_two(alloc: Global, all: AllOfOne) -> Option<(HandInPlace<Work>, Control)> {
    let AllOfOne {
        processor,
        mut driver,
        mut group,
        hand,
        control,
    } = all;
    let mut processor = ProcessorInPlace::new(processor);
    call_two(alloc, &mut processor, (7, 8))?;
    group.turn();
    grace_period(&mut processor, &mut driver);
    group.turn();
    Some((HandInPlace::new(hand?), control))
}

/// The job of the callback that a hand begins.
fn hand_begun(hand: &mut HandInPlace<Work>) -> Option<Work> {
    hand_begin(hand)?.ok()
}

/// Why a hand began nothing. None where it began a callback, or one runs.
fn hand_stop(hand: &mut HandInPlace<Work>) -> Option<Stop> {
    hand_begin(hand)?.err()
}

/// Begins and finishes the two callbacks of the hand. A barrier that was opened before passes once both are finished.
fn finish_two(rt: &impl Abort, hand: &mut HandInPlace<Work>, control: &mut Control) {
    let mut barrier = control.barrier(&[]).ok().expect(rt, "a barrier");
    let work = hand_begun(hand).expect(rt, "the first");
    let none = hand_begin(hand).is_none();
    assert_same(rt, (none, hand_finish(hand, work.run())), (true, true));
    let receipt = hand_begun(hand).expect(rt, "the second").run();
    let waits = !passes(&mut barrier, control);
    assert_same(
        rt,
        (receipt, waits, hand_finish(hand, receipt)),
        (8, true, true),
    );
    assert_same(rt, passes(&mut barrier, control), true);
    assert_same(rt, hand_stop(hand), Some(Stop::Empty));
}

#[test]
fn hand_in_place_begins_in_order(rt: HostRuntime) {
    let alloc = rt.alloc();
    let all = open_offloaded(&rt, alloc);
    let (mut hand, mut control) = given_two(alloc, all).expect(&rt, "two callbacks for the hand");
    finish_two(&rt, &mut hand, &mut control);
}
