//! Steps of a test on the parts of a runtime, each with the answer that the test wants: the last processor, the last group and
//! the last hand do them, with the driver and control.

use crate::opening::{Work, call, call_lazy, last};
use crate::same::assert_same;
use rcu_jobs::{BarrierFault, DriverTurn, GroupTurn, HandTurn, Lists, Mode, Stop, Ticked, Ticket};
use rcu_parts::{Control, Parts, Processor};
use std::alloc::Global;
use std::process::Abort;

/// What is done, and what it has to answer.
#[derive(Clone, Copy)]
pub enum Step {
    /// So many calls at a moment, of which the last has this ticket.
    Calls(u64, u64, Ticket),
    /// A lazy call at a moment, which has this ticket.
    Lazy(u64, Ticket),
    /// A tick at a moment, which runs so many, and why no more.
    Tick(u64, u64, Stop),
    /// A turn of the driver.
    Drive(DriverTurn),
    /// A report of a quiescent state, and the grace period that it counts for.
    Report(Option<u64>),
    /// A turn of the group, which takes so many, gives so many, and holds none.
    Group(u64, u64),
    /// A turn of the hand, which runs so many, and why no more.
    Hand(u64, Stop),
    /// Processor 0 is asked to be offloaded.
    Offload,
    /// It is asked not to be.
    Deoffload,
    /// A barrier is asked for with this ticket or none, and why there is none.
    Barrier(Option<Ticket>, Option<BarrierFault>),
    /// What the processor shows: its mode, how many it accepted, how many its bypass list holds, and how many its own list.
    Show(Mode, u64, u64, u64),
    /// How many callbacks of a processor the group shows, and the number that they wait for. None of one that is no member.
    ShowMember(u64, Option<(u64, u64)>),
}

/// What a processor shows in whose own list so many callbacks have no number yet, and no others are there.
fn shown(mode: Mode, accepted: u64, bypass: u64, next: u64) -> Lists {
    Lists::Cpu {
        mode,
        accepted,
        bypass,
        lengths: [0, 0, 0, next],
        numbers: [0, 0],
    }
}

/// What a group shows of a member, for which so many callbacks wait for a number.
fn waiting(many: u64, number: u64) -> Lists {
    Lists::Folk {
        lengths: [0, many, 0, 0],
        numbers: [number, 0],
    }
}

/// So many calls at one moment. Answers the ticket of the last, where all were accepted.
fn calls(alloc: Global, processor: &mut Processor<Work>, moment: u64, many: u64) -> Option<Ticket> {
    let mut last = None;
    for key in 0..many {
        last = Some(call(alloc, processor, moment, key)?);
    }
    last
}

/// Why there is no barrier with this ticket, or with none.
fn fault_of(control: &mut Control, ticket: Option<Ticket>) -> Option<BarrierFault> {
    match ticket {
        Some(ticket) => control.barrier(&[ticket]).err(),
        None => control.barrier(&[]).err(),
    }
}

/// What is asked of control, and what is shown.
fn play_aside(rt: &impl Abort, parts: &mut Parts<Work>, at: usize, step: Step) {
    match step {
        Step::Offload => assert_same(rt, (at, parts.control.offload(0)), (at, Ok(()))),
        Step::Deoffload => assert_same(rt, (at, parts.control.deoffload(0)), (at, Ok(()))),
        Step::Barrier(ticket, fault) => {
            let found = fault_of(&mut parts.control, ticket);
            assert_same(rt, (at, found), (at, fault))
        }
        Step::Show(mode, accepted, bypass, next) => {
            let found = last(rt, &mut parts.processors).lists();
            assert_same(rt, (at, found), (at, shown(mode, accepted, bypass, next)))
        }
        Step::ShowMember(cpu, wanted) => {
            let found = last(rt, &mut parts.groups).lists(cpu);
            let wanted = wanted.map(|(many, number)| waiting(many, number));
            assert_same(rt, (at, found), (at, wanted))
        }
        // (the others are those of `play_one`)
        _ => {}
    }
}

/// One step.
fn play_one(rt: &impl Abort, alloc: Global, parts: &mut Parts<Work>, at: usize, step: Step) {
    match step {
        Step::Calls(moment, many, ticket) => {
            let found = calls(alloc, last(rt, &mut parts.processors), moment, many);
            assert_same(rt, (at, found), (at, Some(ticket)))
        }
        Step::Lazy(moment, ticket) => {
            let found = call_lazy(alloc, last(rt, &mut parts.processors), moment, 7);
            assert_same(rt, (at, found), (at, Some(ticket)))
        }
        Step::Tick(moment, ran, stop) => {
            let found = last(rt, &mut parts.processors).tick(moment);
            assert_same(rt, (at, found), (at, Ticked { ran, stop }))
        }
        Step::Drive(turn) => assert_same(rt, (at, parts.driver.turn()), (at, turn)),
        Step::Report(counted) => {
            let found = last(rt, &mut parts.processors).quiescent();
            assert_same(rt, (at, found), (at, counted))
        }
        Step::Group(took, gave) => {
            let held = 0;
            let found = last(rt, &mut parts.groups).turn();
            assert_same(rt, (at, found), (at, GroupTurn { took, gave, held }))
        }
        Step::Hand(ran, stop) => {
            let found = last(rt, &mut parts.hands).turn();
            assert_same(rt, (at, found), (at, HandTurn { ran, stop }))
        }
        _ => play_aside(rt, parts, at, step),
    }
}

/// The steps in order.
pub fn play(rt: &impl Abort, alloc: Global, parts: &mut Parts<Work>, steps: &[Step]) {
    for at in 0..steps.len() {
        play_one(rt, alloc, parts, at, steps[at]);
    }
}
