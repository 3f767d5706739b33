//! Which parts `open` makes.

use crate::opening::{Opened, Work, open_kept, open_shape};
use crate::same::assert_same;
use crate::steps::Step::{Barrier, Lazy, Show, Tick};
use crate::steps::{Step, play};
use rcu_jobs::{Lists, Mode, Stop, Ticket};
use rcu_numbers::{MOST_CALLS, PartsShape, ProcessorSet, Shape};
use rcu_parts::{Group, Hand, Kept, Parts, Processor};
use std::alloc::Global;
use std::process::Abort;

/// The parts of four processors, of which these are offloadable. Neighbours are a group of two.
fn opened(rt: &impl Abort, alloc: Global, offloadable: u32) -> Opened {
    open_shape(rt, alloc, Shape::new(4, offloadable, 2, 10, 16, 20))
}

/// How many processors, groups and hands there are.
fn counts(parts: &Parts<Work>) -> [usize; 3] {
    [
        parts.processors.len(),
        parts.groups.len(),
        parts.hands.len(),
    ]
}

/// What an empty processor shows.
fn empty(mode: Mode) -> Lists {
    Lists::Cpu {
        mode,
        accepted: 0,
        bypass: 0,
        lengths: [0; 4],
        numbers: [0; 2],
    }
}

const EMPTY_MEMBER: Lists = Lists::Folk {
    lengths: [0; 4],
    numbers: [0; 2],
};

/// What a processor shows. None past the last.
fn shown(processors: &[Processor<Work>], at: usize) -> Option<Lists> {
    Some(processors.get(at)?.lists())
}

/// That these are so many empty processors as modes, each of its mode.
fn assert_empty(rt: &impl Abort, processors: &[Processor<Work>], modes: [Mode; 4]) {
    let found = [
        shown(processors, 0),
        shown(processors, 1),
        shown(processors, 2),
        shown(processors, 3),
    ];
    let wanted = modes.map(|mode| Some(empty(mode)));
    assert_same(rt, (processors.len(), found), (4, wanted));
}

#[test]
fn offloadable_ones_are_offloaded(rt: HostRuntime) {
    let all = opened(&rt, rt.alloc(), 0b1010);
    let modes = [Mode::Local, Mode::Offloaded, Mode::Local, Mode::Offloaded];
    assert_empty(&rt, all.parts.processors.as_slice(), modes);
}

/// Whose a hand is. None past the last.
fn cpu(hands: &[Hand<Work>], at: usize) -> Option<u64> {
    Some(hands.get(at)?.cpu())
}

/// That these are the hands of two processors.
fn assert_hands(rt: &impl Abort, hands: &[Hand<Work>], cpus: [u64; 2]) {
    let found = [cpu(hands, 0), cpu(hands, 1)];
    assert_same(rt, (hands.len(), found), (2, cpus.map(|cpu| Some(cpu))));
}

#[test]
fn each_offloadable_one_has_a_hand(rt: HostRuntime) {
    let all = opened(&rt, rt.alloc(), 0b1010);
    assert_hands(&rt, all.parts.hands.as_slice(), [1, 3]);
}

/// The number of the first of so many groups, and what it shows of each processor.
fn first_group(rt: &impl Abort, groups: &[Group<Work>], many: usize) -> (u64, [Option<Lists>; 4]) {
    assert_same(rt, groups.len(), many);
    let first = groups.first().expect(rt, "a group");
    let shown = [
        first.lists(0),
        first.lists(1),
        first.lists(2),
        first.lists(3),
    ];
    (first.number(), shown)
}

#[test]
fn each_group_has_its_members(rt: HostRuntime) {
    let all = opened(&rt, rt.alloc(), 0b1010);
    let shown = [None, Some(EMPTY_MEMBER), None, None];
    assert_same(
        &rt,
        first_group(&rt, all.parts.groups.as_slice(), 2),
        (0, shown),
    );
}

#[test]
fn a_group_may_have_two_members(rt: HostRuntime) {
    let all = opened(&rt, rt.alloc(), 0b1100);
    let shown = [None, None, Some(EMPTY_MEMBER), Some(EMPTY_MEMBER)];
    assert_same(
        &rt,
        first_group(&rt, all.parts.groups.as_slice(), 1),
        (1, shown),
    );
}

#[test]
fn with_none_offloadable_there_is_no_group(rt: HostRuntime) {
    let all = opened(&rt, rt.alloc(), 0);
    assert_same(&rt, counts(&all.parts), [4, 0, 0]);
}

const OF_THE_LAST: Ticket = Ticket {
    cpu: 1023,
    number: 0,
};

/// A barrier after a lazy call: the next tick releases the bypass list, and none before it does.
static BARRIER_URGES: [Step; 7] = [
    Lazy(1, OF_THE_LAST),
    Show(Mode::Offloaded, 1, 1, 0),
    Tick(2, 0, Stop::Empty),
    Show(Mode::Offloaded, 1, 1, 0),
    Barrier(None, None),
    Tick(2, 0, Stop::Empty),
    Show(Mode::Offloaded, 1, 0, 0),
];

#[test]
fn a_barrier_urges_the_last_of_1024(rt: HostRuntime) {
    let offloadable = ProcessorSet::of_first(1024);
    let shape = PartsShape::new(1024, &offloadable, 64, 10, 16, MOST_CALLS);
    let mut all = open_kept(&rt, rt.alloc(), shape, Kept::Whole);
    play(&rt, rt.alloc(), &mut all.parts, &BARRIER_URGES);
}
