//! A group's turn, member by member.

use crate::opening::open_offloaded;
use crate::steps::Step::{Calls, Drive, Group, Hand, Report, ShowMember};
use crate::steps::{Step, play};
use rcu_jobs::{DriverTurn, Stop, Ticket};
use std::alloc::Global;
use std::process::Abort;

/// Plays steps of an offloaded processor, of which a turn gives and runs one callback at most.
fn play_one_of_each(rt: &impl Abort, alloc: Global, steps: &[Step]) {
    let mut all = open_offloaded(rt, alloc, 1, 16, 20);
    play(rt, alloc, &mut all.parts, steps);
}

#[test]
fn group_with_nothing_to_do(rt: HostRuntime) {
    play_one_of_each(&rt, rt.alloc(), &[Group(0, 0), ShowMember(1, None)]);
}

/// Two calls, each released at once.
static TWO_WAIT: [Step; 4] = [
    Calls(1, 1, Ticket { cpu: 0, number: 0 }),
    Calls(2, 1, Ticket { cpu: 0, number: 1 }),
    Group(2, 0),
    ShowMember(0, Some((2, 4))),
];

#[test]
fn group_shows_what_waits(rt: HostRuntime) {
    play_one_of_each(&rt, rt.alloc(), &TWO_WAIT);
}

static ONE_IN_EACH_TURN: [Step; 11] = [
    Calls(1, 1, Ticket { cpu: 0, number: 0 }),
    Calls(2, 1, Ticket { cpu: 0, number: 1 }),
    Group(2, 0),
    Drive(DriverTurn::Started(1)),
    Report(Some(1)),
    Drive(DriverTurn::Ended(4)),
    Group(0, 1),
    Group(0, 1),
    Group(0, 0),
    Hand(1, Stop::Limit),
    Hand(1, Stop::Limit),
];

#[test]
fn group_gives_one_in_each_turn(rt: HostRuntime) {
    play_one_of_each(&rt, rt.alloc(), &ONE_IN_EACH_TURN);
}
