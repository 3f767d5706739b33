//! Worked rows over the running parts (docs/specification/rows.md).

use crate::opening::{last, open_local, open_offloaded};
use crate::same::assert_same;
use crate::steps::Step::{Barrier, Calls, Group, Show, ShowMember};
use crate::steps::{Step, play};
use rcu_jobs::{BarrierFault, Mode, Ticket};

static BYPASS_17: [Step; 9] = [
    Calls(5, 17, Ticket { cpu: 0, number: 16 }),
    Show(Mode::Offloaded, 17, 1, 0),
    ShowMember(0, Some((0, 0))),
    Calls(6, 1, Ticket { cpu: 0, number: 17 }),
    Show(Mode::Offloaded, 18, 0, 0),
    ShowMember(0, Some((0, 0))),
    Group(18, 0),
    Show(Mode::Offloaded, 18, 0, 0),
    ShowMember(0, Some((18, 4))),
];

#[test]
fn bypass_17(rt: HostRuntime) {
    let mut all = open_offloaded(&rt, rt.alloc(), 10, 10000, 100);
    play(&rt, rt.alloc(), &mut all.parts, &BYPASS_17);
}

static BYPASS_QHIMARK: [Step; 15] = [
    Calls(5, 16, Ticket { cpu: 0, number: 15 }),
    Show(Mode::Offloaded, 16, 0, 0),
    ShowMember(0, Some((0, 0))),
    Calls(5, 1, Ticket { cpu: 0, number: 16 }),
    Show(Mode::Offloaded, 17, 1, 0),
    ShowMember(0, Some((0, 0))),
    Calls(5, 1, Ticket { cpu: 0, number: 17 }),
    Show(Mode::Offloaded, 18, 2, 0),
    ShowMember(0, Some((0, 0))),
    Calls(5, 1, Ticket { cpu: 0, number: 18 }),
    Show(Mode::Offloaded, 19, 0, 0),
    ShowMember(0, Some((0, 0))),
    Calls(5, 1, Ticket { cpu: 0, number: 19 }),
    Show(Mode::Offloaded, 20, 1, 0),
    ShowMember(0, Some((0, 0))),
];

#[test]
fn bypass_qhimark(rt: HostRuntime) {
    let mut all = open_offloaded(&rt, rt.alloc(), 10, 3, 100);
    play(&rt, rt.alloc(), &mut all.parts, &BYPASS_QHIMARK);
}

static BARRIER_TICKETS: [Step; 4] = [
    Calls(5, 3, Ticket { cpu: 0, number: 2 }),
    Barrier(
        Some(Ticket { cpu: 0, number: 3 }),
        Some(BarrierFault::Ahead { cpu: 0, count: 3 }),
    ),
    Barrier(Some(Ticket { cpu: 0, number: 2 }), None),
    Barrier(
        Some(Ticket { cpu: 1, number: 0 }),
        Some(BarrierFault::NoProcessor(1)),
    ),
];

#[test]
fn barrier_tickets(rt: HostRuntime) {
    let mut all = open_local(&rt, rt.alloc(), 10, 100);
    play(&rt, rt.alloc(), &mut all.parts, &BARRIER_TICKETS);
}

static THREE_CALLS: [Step; 1] = [Calls(5, 3, Ticket { cpu: 0, number: 2 })];

#[test]
fn a_barrier_counts_what_its_processor_accepted(rt: HostRuntime) {
    let mut all = open_local(&rt, rt.alloc(), 10, 100);
    play(&rt, rt.alloc(), &mut all.parts, &THREE_CALLS);
    let open = last(&rt, &mut all.parts.processors).barrier();
    all.parts.control.shut();
    let shut = last(&rt, &mut all.parts.processors).barrier();
    assert_same(&rt, (open.counts.counts[0], shut), (3, open));
}
