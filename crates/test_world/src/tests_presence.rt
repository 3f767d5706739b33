//! Processors that go away: the driver reports for them, and they come back.

use crate::steps::Step::{
    Call, ComeBack, Drive, Group, Lazy, Leave, Open, Poll, Report, Show, Tick,
};
use crate::steps::{Boxed, Step, boxed, expect, one_processor, play};
use crate::tests_world::{close, expect_done};
use rcu_jobs::{DriverTurn, Mode};
use rcu_world::Event;
use rcu_world_law::marks::Mark;
use std::alloc::Global;
use std::process::Abort;

static AWAY_BEFORE_THE_START: [Step; 5] = [
    Call(0, 65537),
    Tick(0, 0),
    Leave,
    Drive(DriverTurn::Started(1)),
    Drive(DriverTurn::Ended(4)),
];

// A processor that left before the start is reported for, and its callback runs once it is back.
#[test]
fn away_before_the_start(rt: HostRuntime) {
    let mut world = one_processor::<Boxed>(&rt, rt.alloc(), 0, 10);
    play(&rt, rt.alloc(), &mut world, &AWAY_BEFORE_THE_START);
    let expected = [Mark::Accepted(0, 65537), Mark::Reported(0)];
    expect(&rt, "history", world.history(), expected.as_slice());
    play(&rt, rt.alloc(), &mut world, &[ComeBack, Tick(0, 1)]);
}

static LEFT_WITHIN: [Step; 8] = [
    Call(0, 65537),
    Tick(0, 0),
    Drive(DriverTurn::Started(1)),
    Leave,
    Drive(DriverTurn::Ended(4)),
    ComeBack,
    Report(None),
    Tick(0, 1),
];

// A processor that left within a grace period: back after it was met, it owes nothing.
#[test]
fn left_within_a_grace_period(rt: HostRuntime) {
    let mut world = one_processor::<Boxed>(&rt, rt.alloc(), 0, 10);
    play(&rt, rt.alloc(), &mut world, &LEFT_WITHIN);
}

static BACK_BEFORE: [Step; 8] = [
    Call(0, 65537),
    Tick(0, 0),
    Drive(DriverTurn::Started(1)),
    Leave,
    ComeBack,
    Drive(DriverTurn::Waits(0)),
    Report(Some(1)),
    Drive(DriverTurn::Ended(4)),
];

// Back before it was met, a processor owes its report itself.
#[test]
fn back_before_the_meeting(rt: HostRuntime) {
    let mut world = one_processor::<Boxed>(&rt, rt.alloc(), 0, 10);
    play(&rt, rt.alloc(), &mut world, &BACK_BEFORE);
}

static WITH_A_BYPASS_LIST: [Step; 4] = [
    Lazy(0, 65537),
    Leave,
    Show(Mode::Offloaded, 1, [0; 4], [0; 2]),
    Group(1),
];

// The bypass list is put as its processor leaves, and the group draws it.
#[test]
fn away_with_a_bypass_list(rt: HostRuntime) {
    let mut world = one_processor::<Boxed>(&rt, rt.alloc(), 1, 10);
    play(&rt, rt.alloc(), &mut world, &WITH_A_BYPASS_LIST);
}

static A_BARRIER_WAITS: [Step; 10] = [
    Call(0, 65537),
    Tick(0, 0),
    Leave,
    Open,
    Drive(DriverTurn::Started(1)),
    Drive(DriverTurn::Ended(4)),
    Poll(None),
    ComeBack,
    Tick(0, 1),
    Poll(Some(1)),
];

// A barrier waits for the callback in the own list of a processor that is away.
#[test]
fn a_barrier_waits_for_who_is_away(rt: HostRuntime) {
    let mut world = one_processor::<Boxed>(&rt, rt.alloc(), 0, 10);
    play(&rt, rt.alloc(), &mut world, &A_BARRIER_WAITS);
}

// What is left of a processor that is away comes back at close.
#[test]
fn away_at_close(rt: HostRuntime) {
    let mut world = one_processor::<Boxed>(&rt, rt.alloc(), 0, 10);
    play(&rt, rt.alloc(), &mut world, &[Call(0, 65537), Leave]);
    let (marks, closed) = close(&rt, world);
    let expected = [
        Mark::Accepted(0, 65537),
        Mark::Shut(0),
        Mark::Back(0, 65537),
    ];
    let back = closed.back.first().map(|jobs| jobs.len());
    let found = (marks.as_slice(), back);
    expect(&rt, "marks, back", found, (expected.as_slice(), Some(1)));
}

// The events of a processor that leaves twice, makes no call while it is away, and comes back twice.
fn twice(rt: &impl Abort, alloc: Global) -> Vec<Event<Boxed>> {
    let job = boxed(alloc, 65537).expect(rt, "a job");
    let events = vec![in alloc;
        Event::Leave { cpu: 0 },
        Event::Leave { cpu: 0 },
        Event::Accept { cpu: 0, job },
        Event::Report { cpu: 0 },
        Event::Look { cpu: 0 },
        Event::Meet { cpu: 0 },
        Event::Return { cpu: 0 },
        Event::Return { cpu: 0 },
        Event::Leave { cpu: 1 },
    ];
    events.expect(rt, "memory")
}

#[test]
fn leave_twice(rt: HostRuntime) {
    let mut world = one_processor::<Boxed>(&rt, rt.alloc(), 0, 10);
    let events = twice(&rt, rt.alloc());
    let wanted = [true, false, false, false, false, false, true, false, false];
    expect_done(&rt, &mut world, events, &wanted);
}
