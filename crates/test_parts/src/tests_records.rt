//! What is kept of the callbacks that ran, by the choice at the open.

use crate::opening::{Opened, Work, call, last, open_kept};
use crate::same::assert_same;
use rcu_numbers::{MOST_CALLS, PartsShape, ProcessorSet};
use rcu_parts::{Driver, Kept, Processor};
use std::alloc::Global;
use std::process::Abort;

/// A Local processor, which accepts callbacks without end.
fn open_endless(rt: &impl Abort, alloc: Global, kept: Kept) -> Opened {
    let shape = PartsShape::new(1, &ProcessorSet::new(), 1, 10, 16, MOST_CALLS);
    open_kept(rt, alloc, shape, kept)
}

/// Calls once, and runs the callback, whose grace period passes meanwhile. Answers how many ran.
fn call_and_run(
    alloc: Global,
    processor: &mut Processor<Work>,
    driver: &mut Driver,
    moment: u64,
) -> Option<u64> {
    call(alloc, processor, moment, 7)?;
    processor.tick(moment);
    driver.turn();
    processor.quiescent();
    driver.turn();
    Some(processor.tick(moment).ran)
}

/// How many ran, how many records were taken, and how many are left, after two callbacks, a take of their records, and one
/// callback more.
fn take_after_two(
    alloc: Global,
    processor: &mut Processor<Work>,
    driver: &mut Driver,
) -> Option<[usize; 3]> {
    call_and_run(alloc, processor, driver, 1)?;
    call_and_run(alloc, processor, driver, 2)?;
    let taken = processor.take_records(alloc).len();
    call_and_run(alloc, processor, driver, 3)?;
    Some([processor.ran(), taken, processor.records_left()])
}

/// That with this choice so many ran, were taken, and are left.
fn assert_kept(rt: &impl Abort, alloc: Global, kept: Kept, wanted: [usize; 3]) {
    let mut all = open_endless(rt, alloc, kept);
    let processor = last(rt, &mut all.parts.processors);
    let found = take_after_two(alloc, processor, &mut all.parts.driver);
    assert_same(rt, found, Some(wanted));
}

#[test]
fn every_record_is_kept(rt: HostRuntime) {
    assert_kept(&rt, rt.alloc(), Kept::Whole, [3, 0, 3]);
}

#[test]
fn records_are_taken_out_once(rt: HostRuntime) {
    assert_kept(&rt, rt.alloc(), Kept::Rest, [3, 2, 1]);
}

#[test]
fn no_record_is_kept(rt: HostRuntime) {
    assert_kept(&rt, rt.alloc(), Kept::Nothing, [3, 0, 0]);
}

/// Makes calls at the moments from 1 up to this, and runs the callback of each.
fn call_until(
    rt: &impl Abort,
    alloc: Global,
    processor: &mut Processor<Work>,
    driver: &mut Driver,
    end: u64,
) {
    for moment in 1..end {
        assert_same(rt, call_and_run(alloc, processor, driver, moment), Some(1));
    }
}

/// How many callbacks a processor accepted, how many ran, and how many records are left.
fn counts(processor: &Processor<Work>) -> (u64, usize, usize) {
    (
        processor.accepted(),
        processor.ran(),
        processor.records_left(),
    )
}

/// Callbacks run one after another, and no record of them is left.
#[test]
fn calls_go_on_without_records(rt: HostRuntime) {
    let mut all = open_endless(&rt, rt.alloc(), Kept::Nothing);
    let processor = last(&rt, &mut all.parts.processors);
    call_until(&rt, rt.alloc(), processor, &mut all.parts.driver, 100);
    assert_same(&rt, counts(processor), (99, 99, 0));
}
