//! Callbacks in two steps, through a local processor and through a hand.

use crate::opening::{Work, job, made_job};
use crate::same::assert_same;
use crate::two_steps::echo::Echo;
use crate::two_steps::opening::{AllOfOne, open_local, open_offloaded};
use crate::two_steps::outcomes::{hand_running, hand_stopped, passes, running, stopped};
use crate::two_steps::steps::work_and_close;
use rcu_jobs::{Closed, Job, Lists, Mode, Stop, Ticked};
use rcu_numbers::Shape;
use rcu_parts::{Control, Driver, Hand, Processor, RunningProcessor, open};
use std::alloc::Global;
use std::process::Abort;

/// A grace period of the one processor.
fn grace_period(processor: &mut Processor<Work>, driver: &mut Driver) {
    driver.turn();
    processor.quiescent();
    driver.turn();
}

/// Accepts jobs of two keys.
fn call_two(alloc: Global, processor: &mut Processor<Work>, keys: (u64, u64)) -> Option<()> {
    processor.call_rcu(1, job(alloc, keys.0)?).ok()?;
    processor.call_rcu(1, job(alloc, keys.1)?).ok()?;
    Some(())
}

/// Begins a processor's next callback, runs its job, and finishes. Answers the callback's number, the receipt, and how many ran
/// then. None where it may begin none.
fn run_next(
    processor: Processor<Work>,
    moment: u64,
) -> Option<(Processor<Work>, (u64, u64, usize))> {
    let (running, work) = running(processor.begin(moment))?;
    let number = running.number();
    let receipt = work.run();
    let processor = running.finish(receipt);
    let ran = processor.ran();
    Some((processor, (number, receipt, ran)))
}

#[test]
fn local_processor_begins_in_order(rt: HostRuntime) {
    let alloc = rt.alloc();
    let (processor, mut driver) = open_local(&rt, alloc);
    let (mut processor, stop) = stopped(processor.begin(1)).expect(&rt, "nothing to begin");
    assert_same(&rt, stop, Stop::Empty);
    call_two(alloc, &mut processor, (7, 8)).expect(&rt, "two calls");
    processor.tick(1);
    grace_period(&mut processor, &mut driver);
    let (processor, first) = run_next(processor, 2).expect(&rt, "the first");
    let (processor, second) = run_next(processor, 3).expect(&rt, "the second");
    assert_same(&rt, [first, second], [(0, 7, 1), (1, 8, 2)]);
    let (_, stop) = stopped(processor.begin(4)).expect(&rt, "nothing left");
    assert_same(&rt, stop, Stop::Empty);
}

#[test]
fn begin_waits_for_the_grace_period(rt: HostRuntime) {
    let alloc = rt.alloc();
    let (mut processor, mut driver) = open_local(&rt, alloc);
    call_two(alloc, &mut processor, (7, 8)).expect(&rt, "two calls");
    let (mut processor, stop) = stopped(processor.begin(1)).expect(&rt, "too early");
    assert_same(&rt, stop, Stop::Empty);
    grace_period(&mut processor, &mut driver);
    let (_, first) = run_next(processor, 2).expect(&rt, "in time");
    assert_same(&rt, first, (0, 7, 1));
}

/// The numbers of a plain call and of a lazy one on the processor of a callback that runs, where processor 0 accepts both.
fn call_beside(alloc: Global, running: &mut RunningProcessor<Work>) -> Option<[u64; 2]> {
    let plain = running.call_rcu(2, job(alloc, 9)?).ok()?;
    let lazy = running.call_rcu_lazy(2, job(alloc, 10)?).ok()?;
    if (plain.cpu, lazy.cpu) != (0, 0) {
        return None;
    }
    Some([plain.number, lazy.number])
}

#[test]
fn callback_calls_on_its_own_processor(rt: HostRuntime) {
    let alloc = rt.alloc();
    let (mut processor, mut driver) = open_local(&rt, alloc);
    call_two(alloc, &mut processor, (7, 8)).expect(&rt, "two calls");
    processor.tick(1);
    grace_period(&mut processor, &mut driver);
    let (mut first, work) = running(processor.begin(2)).expect(&rt, "the first");
    assert_same(&rt, call_beside(alloc, &mut first), Some([2, 3]));
    let shown = Lists::Cpu {
        mode: Mode::Local,
        accepted: 4,
        bypass: 0,
        lengths: [1, 0, 0, 2],
        numbers: [0, 0],
    };
    assert_same(&rt, (first.lists(), first.accepted()), (shown, 4));
    let of = (first.cpu(), first.number(), first.is_offloadable());
    assert_same(&rt, of, (0, 0, false));
    let mut processor = first.finish(work.run());
    let ticked = processor.tick(3);
    assert_same(
        &rt,
        ticked,
        Ticked {
            ran: 1,
            stop: Stop::Empty,
        },
    );
    grace_period(&mut processor, &mut driver);
    let (_, third) = run_next(processor, 4).expect(&rt, "the third");
    assert_same(&rt, third, (2, 9, 3));
}

#[test]
fn report_while_a_callback_runs(rt: HostRuntime) {
    let alloc = rt.alloc();
    let (mut processor, mut driver) = open_local(&rt, alloc);
    call_two(alloc, &mut processor, (7, 8)).expect(&rt, "two calls");
    processor.tick(1);
    grace_period(&mut processor, &mut driver);
    let (mut first, work) = running(processor.begin(2)).expect(&rt, "the first");
    assert_same(&rt, first.quiescent(), None);
    let called = first.call_rcu(2, made_job(&rt, alloc, 9)).is_ok();
    assert_same(&rt, called, true);
    let mut processor = first.finish(work.run());
    processor.tick(3);
    driver.turn();
    assert_same(&rt, processor.quiescent(), Some(5));
}

/// Gives the hand the callbacks of two keys, whose grace period is over, and takes it out.
fn given_two(alloc: Global, all: &mut AllOfOne) -> Option<Hand<Work>> {
    call_two(alloc, &mut all.processor, (7, 8))?;
    all.group.turn();
    grace_period(&mut all.processor, &mut all.driver);
    all.group.turn();
    all.hand.take()
}

/// Begins and finishes the two callbacks of the hand. A barrier that was opened before passes once both are finished.
fn finish_two(rt: &impl Abort, hand: Hand<Work>, control: &mut Control) {
    let mut barrier = control.barrier(&[]).ok().expect(rt, "a barrier");
    let (first, work) = hand_running(hand.begin()).expect(rt, "the first");
    assert_same(rt, (first.cpu(), first.number()), (0, 0));
    let hand = first.finish(work.run());
    let (second, work) = hand_running(hand.begin()).expect(rt, "the second");
    assert_same(rt, second.number(), 1);
    let receipt = work.run();
    assert_same(rt, (receipt, passes(&mut barrier, control)), (8, false));
    let hand = second.finish(receipt);
    assert_same(rt, (hand.ran(), passes(&mut barrier, control)), (2, true));
    let (_, stop) = hand_stopped(hand.begin()).expect(rt, "nothing left");
    assert_same(rt, stop, Stop::Empty);
}

#[test]
fn hand_begins_in_order(rt: HostRuntime) {
    let alloc = rt.alloc();
    let mut all = open_offloaded(&rt, alloc);
    let hand = given_two(alloc, &mut all).expect(&rt, "two callbacks for the hand");
    finish_two(&rt, hand, &mut all.control);
}

/// Gives the hand a callback, makes the processor local, and gives it a callback too. The grace periods of both are over.
/// Takes the hand out.
fn given_one_each(alloc: Global, all: &mut AllOfOne) -> Option<Hand<Work>> {
    all.processor.call_rcu(1, job(alloc, 7)?).ok()?;
    all.group.turn();
    grace_period(&mut all.processor, &mut all.driver);
    all.group.turn();
    all.control.deoffload(0).ok()?;
    all.processor.tick(2);
    all.processor.call_rcu(2, job(alloc, 8)?).ok()?;
    all.processor.tick(3);
    grace_period(&mut all.processor, &mut all.driver);
    all.hand.take()
}

/// Ticks while the hand's claim runs, and once it is finished.
fn tick_beside(rt: &impl Abort, hand: Hand<Work>, processor: &mut Processor<Work>) {
    let (first, work) = hand_running(hand.begin()).expect(rt, "the hand's callback");
    let beside = processor.tick(4);
    let hand = first.finish(work.run());
    assert_same(
        rt,
        (beside.ran, beside.stop, hand.ran()),
        (0, Stop::Turn, 1),
    );
    let after = processor.tick(5);
    assert_same(rt, (after.ran, after.stop), (1, Stop::Empty));
}

#[test]
fn tick_waits_for_a_hands_claim(rt: HostRuntime) {
    let alloc = rt.alloc();
    let mut all = open_offloaded(&rt, alloc);
    let hand = given_one_each(alloc, &mut all).expect(&rt, "a callback for each");
    tick_beside(&rt, hand, &mut all.processor);
}

/// That of one processor the records are that of its first callback, with key and receipt 7, and that no job came back.
fn assert_one_record(rt: &impl Abort, closed: &Closed<Echo>) {
    assert_same(rt, (closed.ran.len(), closed.back.len()), (1, 1));
    for ran in closed.ran.iter() {
        assert_same(rt, ran.len(), 1);
        for record in ran.iter() {
            assert_same(rt, (record.number, record.key, record.receipt), (0, 7, 7));
        }
    }
    for back in closed.back.iter() {
        assert_same(rt, back.len(), 0);
    }
}

#[test]
fn close_has_the_record(rt: HostRuntime) {
    let alloc = rt.alloc();
    let shape = Shape::new(1, 0, 1, 10, 16, 8).expect(&rt, "a shape");
    let parts = open::<Echo>(alloc, &shape.for_parts()).expect(&rt, "memory");
    let closed = work_and_close(alloc, parts, Echo { key: 7 }).ok();
    assert_one_record(&rt, &closed.expect(&rt, "room"));
}
