//! Two lists of records merged by their numbers.

use crate::same::assert_same;
use rcu_jobs::Record;
use rcu_part_order::{Kept, Records, merge_records};
use std::alloc::{AllocError, Global};
use std::collections::VecDeque;
use std::process::Abort;

fn record(number: u64) -> Record<u64> {
    Record {
        number,
        key: number ^ 1024,
        stamp: 0,
        ready: 4,
        receipt: 0,
    }
}

// That these are the records of these numbers.
fn assert_numbers(rt: &impl Abort, all: &[Record<u64>], numbers: &[u64]) {
    assert_same(rt, all.len(), numbers.len());
    for (number, record) in numbers.iter().zip(all) {
        assert_same(rt, (record.number, record.key), (*number, *number ^ 1024));
    }
}

#[test]
fn records_of_both_by_their_numbers(rt: HostRuntime) {
    let own = vec![in rt.alloc(); record(0), record(3)].expect(&rt, "memory");
    let hands = vec![in rt.alloc(); record(1), record(2), record(4)].expect(&rt, "memory");
    let room = Vec::with_capacity(rt.alloc(), 5).expect(&rt, "memory");
    let all = merge_records(VecDeque::from(own), VecDeque::from(hands), room);
    assert_numbers(&rt, all.as_slice(), &[0, 1, 2, 3, 4]);
}

#[test]
fn records_with_gaps_by_their_numbers(rt: HostRuntime) {
    let own = vec![in rt.alloc(); record(7), record(1000000)].expect(&rt, "memory");
    let hands = vec![in rt.alloc(); record(3), record(9)].expect(&rt, "memory");
    let room = Vec::with_capacity(rt.alloc(), 4).expect(&rt, "memory");
    let all = merge_records(VecDeque::from(own), VecDeque::from(hands), room);
    assert_numbers(&rt, all.as_slice(), &[3, 7, 9, 1000000]);
}

// Adds the record of this number.
fn add(records: &mut Records<u64>, number: u64) -> Result<(), AllocError> {
    records.find_room()?;
    records.add(record(number));
    Ok(())
}

// For two that ran, a take, and one that ran after it: how many were taken, ran, are left, and are left at the end.
fn take_after_two(rt: &impl Abort, alloc: Global, kept: Kept) -> (usize, usize, usize, usize) {
    let mut records = Records::new(alloc, kept);
    for number in 0..2 {
        add(&mut records, number).expect(rt, "memory");
    }
    let taken = records.take(alloc).len();
    add(&mut records, 2).expect(rt, "memory");
    let (ran, left) = (records.len(), records.records_left());
    (taken, ran, left, records.into_left().len())
}

#[test]
fn all_are_kept(rt: HostRuntime) {
    assert_same(
        &rt,
        take_after_two(&rt, rt.alloc(), Kept::Whole),
        (0, 3, 3, 3),
    );
}

#[test]
fn those_that_are_left_are_kept(rt: HostRuntime) {
    assert_same(
        &rt,
        take_after_two(&rt, rt.alloc(), Kept::Rest),
        (2, 3, 1, 1),
    );
}

#[test]
fn none_is_kept(rt: HostRuntime) {
    assert_same(
        &rt,
        take_after_two(&rt, rt.alloc(), Kept::Nothing),
        (0, 3, 0, 0),
    );
}
