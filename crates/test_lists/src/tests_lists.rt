//! Segments, batches and bypass lists.

use self::Step::{Accelerate, Advance, Newest, Put, Shown};
use crate::same::assert_same;
use rcu_jobs::{BoxedJob, Callback, run_callback};
use rcu_lists::{Bypass, Kind, Placed, Segments};
use std::alloc::Global;
use std::process::Abort;

#[derive(Drop)]
struct Named;

fn callback<J>(stamp: u64, job: J) -> Callback<J> {
    Callback {
        cpu: 0,
        number: 0,
        key: 7,
        stamp,
        job,
    }
}

// Adds a callback of this stamp, if there is room.
fn put<J: Drop>(list: &mut Segments<J>, stamp: u64, job: J) -> Option<()> {
    list.reserve(1).ok()?;
    list.enqueue(callback(stamp, job));
    Some(())
}

// Adds callbacks of stamps from 0 on, while there is room, and answers how many.
fn put_all(list: &mut Segments<Named>, many: u64) -> u64 {
    for stamp in 0..many {
        if put(list, stamp, Named).is_none() {
            return stamp;
        }
    }
    many
}

// The answer of `accelerate`, where it may be called.
fn accelerate<J: Drop>(list: &mut Segments<J>, seq: u64) -> Option<bool> {
    if list.may_accelerate(seq) {
        Some(list.accelerate(seq))
    } else {
        None
    }
}

/// What is done with a list, or what it shows then.
#[derive(Clone, Copy)]
enum Step {
    /// A callback of a stamp comes.
    Put(u64),
    /// What `accelerate` answers at a number, where it may be called.
    Accelerate(u64, Option<bool>),
    /// It is advanced by a number.
    Advance(u64),
    /// Its lengths, and its numbers.
    Shown([u64; 4], [u64; 2]),
    /// Its greatest stamp.
    Newest(Option<u64>),
}

// One step, in this place of a test.
fn play_one(rt: &impl Abort, list: &mut Segments<Named>, at: usize, step: Step) {
    match step {
        Put(stamp) => put(list, stamp, Named).expect(rt, "memory"),
        Accelerate(seq, moved) => assert_same(rt, (at, accelerate(list, seq)), (at, moved)),
        Advance(seq) => list.advance(seq),
        Shown(lengths, numbers) => {
            let found = (list.lengths(), list.numbers());
            assert_same(rt, (at, found), (at, (lengths, numbers)))
        }
        Newest(stamp) => assert_same(rt, (at, list.newest()), (at, stamp)),
    }
}

// The steps in order.
fn play(rt: &impl Abort, list: &mut Segments<Named>, steps: &[Step]) {
    for at in 0..steps.len() {
        play_one(rt, list, at, steps[at]);
    }
}

/// A callback that is placed at a moment, with its kind: how many are released, and how many are held then.
type Placing = (u64, Kind, u64, u64);

// Places a callback, if there is room, and answers how many were released.
fn place(bypass: &mut Bypass<Named>, moment: u64, kind: Kind) -> Option<u64> {
    bypass.reserve().ok()?;
    match bypass.place(moment, kind, callback(4, Named)) {
        Placed::Kept => Some(0),
        Placed::Out(batch) => Some(batch.len()),
    }
}

// One callback is placed.
fn place_one(rt: &impl Abort, bypass: &mut Bypass<Named>, placing: Placing) {
    let (moment, kind, released, held) = placing;
    let found = (place(bypass, moment, kind), bypass.len());
    assert_same(rt, found, (Some(released), held));
}

// Callbacks are placed in order.
fn place_all(rt: &impl Abort, bypass: &mut Bypass<Named>, placings: &[Placing]) {
    for placing in placings {
        place_one(rt, bypass, *placing);
    }
}

static FULL_AND_AFTER_ADVANCE: [Step; 12] = [
    Put(0),
    Accelerate(4, Some(true)),
    Put(4),
    Accelerate(8, Some(true)),
    Put(8),
    Accelerate(12, Some(false)),
    Shown([0, 1, 1, 1], [4, 8]),
    Newest(Some(8)),
    Advance(8),
    Shown([2, 0, 0, 1], [0, 0]),
    Accelerate(12, Some(true)),
    Shown([2, 1, 0, 0], [12, 0]),
];

// The rows accelerate-full and accelerate-after-advance.
#[test]
fn accelerate_full_and_after_advance(rt: HostRuntime) {
    play(&rt, &mut Segments::new(rt.alloc()), &FULL_AND_AFTER_ADVANCE);
}

static TWO_NUMBERS: [Step; 9] = [
    Put(4),
    Accelerate(8, Some(true)),
    Put(4),
    Put(5),
    Accelerate(11, None),
    Accelerate(12, Some(true)),
    Shown([0, 1, 2, 0], [8, 12]),
    Advance(11),
    Shown([1, 2, 0, 0], [12, 0]),
];

// The row accelerate-two-numbers.
#[test]
fn accelerate_two_numbers(rt: HostRuntime) {
    play(&rt, &mut Segments::new(rt.alloc()), &TWO_NUMBERS);
}

static EMPTY: [Step; 3] = [
    Accelerate(12, Some(false)),
    Shown([0, 0, 0, 0], [0, 0]),
    Newest(None),
];

// The row accelerate-empty.
#[test]
fn accelerate_empty(rt: HostRuntime) {
    play(&rt, &mut Segments::new(rt.alloc()), &EMPTY);
}

// Takes a batch of two out of a list. Answers its length, the stamp of its first callback, and that of the one taken from it.
fn take_two(rt: &impl Abort, list: &mut Segments<Named>) -> (u64, Option<u64>, Option<u64>) {
    let mut batch = list.take_batch(2).expect(rt, "memory");
    let length = batch.len();
    let first = batch.first().map(|first| first.stamp);
    (length, first, batch.take_first().map(|first| first.stamp))
}

// Pours a list behind a lazy callback. Answers the list's lengths then, the bypass list's, and whether that is late.
fn pour_behind_one(
    rt: &impl Abort,
    alloc: Global,
    list: &mut Segments<Named>,
) -> ([u64; 4], u64, bool) {
    let mut bypass = Bypass::new(alloc, 10000);
    place_one(rt, &mut bypass, (5, Kind::Lazy, 0, 1));
    list.pour(&mut bypass).expect(rt, "memory");
    (list.lengths(), bypass.len(), bypass.late(6))
}

static FIVE_DONE: [Step; 8] = [
    Put(0),
    Put(3),
    Put(1),
    Put(2),
    Put(0),
    Newest(Some(3)),
    Accelerate(12, Some(true)),
    Advance(12),
];

#[test]
fn batches_and_pouring(rt: HostRuntime) {
    let mut list = Segments::new(rt.alloc());
    play(&rt, &mut list, &FIVE_DONE);
    let first = list.first_done().map(|first| first.stamp);
    assert_same(&rt, (list.done_len(), first), (5, Some(0)));
    assert_same(&rt, take_two(&rt, &mut list), (2, Some(0), Some(0)));
    let poured = pour_behind_one(&rt, rt.alloc(), &mut list);
    assert_same(&rt, poured, ([0, 0, 0, 0], 4, true));
    assert_same(&rt, list.into_callbacks().len(), 0);
}

// Takes a batch of 18 of 40 callbacks, and pours the others, where there is room for it.
fn take_and_pour(rt: &impl Abort, alloc: Global, list: &mut Segments<Named>) {
    assert_same(rt, accelerate(list, 44), Some(true));
    list.advance(44);
    let left = match list.take_batch(18) {
        Ok(batch) => {
            assert_same(rt, batch.len(), 18);
            22u64
        }
        Err(_) => 40,
    };
    assert_same(rt, list.lengths(), [left, 0, 0, 0]);
    let mut bypass = Bypass::new(alloc, 10000);
    let (poured, stays) = if list.pour(&mut bypass).is_ok() {
        (left, 0)
    } else {
        (0, left)
    };
    assert_same(
        rt,
        (bypass.len(), list.lengths()),
        (poured, [stays, 0, 0, 0]),
    );
}

// `rt try --test --fail-alloc N` runs this with the Nth allocation refused: N from 1 to 5 refuses a `reserve`, 6 the
// `take_batch`, 7 the `pour`. It passes at each; other tests want their memory, and may fail then.
#[test]
fn refused_memory_changes_nothing(rt: HostRuntime) {
    let mut list = Segments::new(rt.alloc());
    let many = put_all(&mut list, 40);
    assert_same(&rt, list.lengths(), [0, 0, 0, many]);
    if many == 40 {
        take_and_pour(&rt, rt.alloc(), &mut list);
    }
}

// The receipt of the first callback, if it is done.
fn run_first(list: &mut Segments<BoxedJob<0>>) -> Option<u64> {
    Some(run_callback(list.take_done()?, 8).receipt)
}

#[test]
fn a_list_of_boxed_jobs(rt: HostRuntime) {
    let mut list = Segments::new(rt.alloc());
    let call = Box::new(rt.alloc(), move || 5).expect(&rt, "memory");
    assert_same(
        &rt,
        put(&mut list, 4, BoxedJob::<0>::new(7, call)),
        Some(()),
    );
    assert_same(&rt, run_first(&mut list), None);
    assert_same(&rt, accelerate(&mut list, 8), Some(true));
    list.advance(7);
    assert_same(&rt, run_first(&mut list), None);
    list.advance(8);
    assert_same(&rt, run_first(&mut list), Some(5));
}

static QHIMARK: [Placing; 4] = [
    (5, Kind::Plain, 0, 1),
    (5, Kind::Plain, 0, 2),
    (5, Kind::Plain, 3, 0),
    (5, Kind::Plain, 0, 1),
];

// The row bypass-qhimark.
#[test]
fn bypass_qhimark(rt: HostRuntime) {
    let mut bypass = Bypass::new(rt.alloc(), 3);
    for _ in 0..16 {
        place_one(&rt, &mut bypass, (5, Kind::Plain, 1, 0));
    }
    place_all(&rt, &mut bypass, &QHIMARK);
    assert_same(&rt, (bypass.late(5), bypass.late(6)), (false, true));
}

static LAZY_QHIMARK: [Placing; 2] = [(5, Kind::Lazy, 0, 1), (5, Kind::Lazy, 2, 0)];

// The row lazy-qhimark: lazy callbacks alone are released by the rule "high mark".
#[test]
fn lazy_qhimark(rt: HostRuntime) {
    place_all(&rt, &mut Bypass::new(rt.alloc(), 2), &LAZY_QHIMARK);
}

static TWO_LAZY: [Placing; 2] = [(5, Kind::Lazy, 0, 1), (6, Kind::Lazy, 0, 2)];

static LAZY_THEN_PLAIN: [Placing; 3] = [
    (5, Kind::Plain, 1, 0),
    (5, Kind::Lazy, 0, 1),
    (5, Kind::Plain, 2, 0),
];

// Takes all of a list, and answers how many that were.
fn flush(bypass: &mut Bypass<Named>) -> u64 {
    bypass.flush().len()
}

// Takes all of a list and puts them back, and answers how many that were.
fn flush_and_refill(bypass: &mut Bypass<Named>) -> u64 {
    let released = bypass.flush();
    let many = released.len();
    bypass.refill(released);
    many
}

// The rows lazy-ten and lazy-then-plain.
#[test]
fn lazy_ones_wait(rt: HostRuntime) {
    let mut bypass = Bypass::new(rt.alloc(), 10000);
    place_all(&rt, &mut bypass, &TWO_LAZY);
    assert_same(&rt, (bypass.late(14), bypass.late(15)), (false, true));
    let released = [flush_and_refill(&mut bypass), flush(&mut bypass)];
    assert_same(&rt, released, [2, 2]);
    place_all(&rt, &mut bypass, &LAZY_THEN_PLAIN);
}

// Holds a callback in a list, if there is room. Answers whether the list is due.
fn hold(bypass: &mut Bypass<Named>) -> Option<bool> {
    bypass.reserve().ok()?;
    Some(bypass.hold(5, Kind::Plain, callback(4, Named)))
}

static PLAIN_THEN_LAZY: [Placing; 2] = [(5, Kind::Plain, 1, 0), (5, Kind::Lazy, 0, 1)];

// A list that is due keeps its callbacks, their kinds and the kept moment until it is flushed.
#[test]
fn held_until_flushed(rt: HostRuntime) {
    let mut bypass = Bypass::new(rt.alloc(), 10000);
    place_all(&rt, &mut bypass, &PLAIN_THEN_LAZY);
    let due = [hold(&mut bypass), hold(&mut bypass)];
    assert_same(&rt, due, [Some(true), Some(true)]);
    assert_same(&rt, (bypass.len(), bypass.is_late(6)), (3, true));
    assert_same(&rt, (flush(&mut bypass), bypass.is_empty()), (3, true));
    bypass.restart(7);
    place_one(&rt, &mut bypass, (7, Kind::Plain, 1, 0));
}
