//! The driver, control and barriers over a board of their own.

ghost use Rattle.std.specs.Prelude.{◌≡◌};
ghost use Rattle.rcu_part_control.specs.Parts.{driver_board, control_board};

use crate::tests::expect;
use rcu_board::{Seats, open_board};
use rcu_jobs::{BarrierFault, Counts, DriverTurn, SwitchFault, Ticket};
use rcu_numbers::Shape;
use rcu_part_control::{Control, Driver};
use std::alloc::Global;
use std::process::Abort;
use std::sync::Arc;
use std::thread;

/// The driver and control of two processors, of which the first is offloadable.
fn two_parts(rt: &impl Abort, alloc: Global) -> (Driver, Control)
    ensures two { (control_board result.1).processors ≡ 2 }
{
    let shape = Shape::new(2, 0b01, 1, 10, 16, 1000)
        .expect(rt, "within the limits")
        .for_parts();
    let (board, seats) = open_board(alloc, &shape).expect(rt, "memory");
    let Seats {
        processors: _,
        hands: _,
        groups: _,
        driver,
        control,
    } = seats;
    let board = Arc::new(alloc, board).expect(rt, "memory");
    let shared = Arc::try_clone(&board).expect(rt, "memory");
    (Driver::new(shared, driver), Control::new(board, control))
}

/// Control alone.
fn control_of_two(rt: &impl Abort, alloc: Global) -> Control
    ensures two { (control_board result).processors ≡ 2 }
{
    let (_driver, control) = two_parts(rt, alloc);
    control
}

#[test]
fn switches_are_asked_for(rt: HostRuntime) {
    let mut control = control_of_two(&rt, rt.alloc());
    let answers = [
        control.offload(0),
        control.deoffload(0),
        control.offload(1),
        control.deoffload(2),
    ];
    let not_offloadable = Err(SwitchFault::NotOffloadable(1));
    let nowhere = Err(SwitchFault::NoProcessor(2));
    expect(
        &rt,
        "answers",
        answers,
        [Ok(()), Ok(()), not_offloadable, nowhere],
    );
}

/// What control answers to tickets of which two can't be waited for, in either order.
fn faults_of_two(control: &mut Control) -> [Option<BarrierFault>; 2]
    requires two { (control_board control.old).processors ≡ 2 }
    ensures two { (control_board control.new).processors ≡ 2 }
{
    let ahead = Ticket { cpu: 1, number: 0 };
    let nowhere = Ticket { cpu: 2, number: 0 };
    let first = control.barrier(&[ahead, nowhere]).err();
    let second = control.barrier(&[nowhere, ahead]).err();
    [first, second]
}

#[test]
fn barrier_tests_its_tickets_in_order(rt: HostRuntime) {
    let mut control = control_of_two(&rt, rt.alloc());
    let faults = faults_of_two(&mut control);
    let Ok(mut barrier) = control.barrier(&[]) else {
        panic!(rt; "no ticket is at fault");
    };
    let passed = barrier.poll(&mut control).is_some();
    let early = BarrierFault::Ahead { cpu: 1, count: 0 };
    let missing = BarrierFault::NoProcessor(2);
    let wanted = ([Some(early), Some(missing)], true);
    expect(&rt, "faults, passed", (faults, passed), wanted);
    let counts = barrier.wait(&rt, &mut control).counts;
    expect(&rt, "counts", counts, Counts::new(2));
}

#[test]
fn driver_runs_until_halted(rt: HostRuntime) {
    let (mut driver, mut control) = two_parts(&rt, rt.alloc());
    let before = (driver.turn(), driver.is_halted());
    let counts = [control.shut(), control.shut()];
    let (mut driver, _) = thread::join(&rt, || driver.run(&rt), || control.finish());
    expect(
        &rt,
        "turn and halted, counts, halted",
        (before, counts, driver.is_halted()),
        ((DriverTurn::Idle, false), [Counts::new(2); 2], true),
    );
}
