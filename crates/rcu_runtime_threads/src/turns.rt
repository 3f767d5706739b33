//! The parts that make their turns by themselves, each until the run is over.

ghost use Rattle.std.specs.Prelude.{◌≡◌};
ghost use Rattle.rcu_runtime_threads.specs.Stays.{GroupStays, HandStays};
ghost use Rattle.rcu_part_control.specs.Parts.{SameDriver};

use crate::pauses::rest;
use crate::signals::Signals;
use rcu_jobs::{DriverTurn, Job};
use rcu_part_control::{Driver, Pauses};
use rcu_parts::{Group, Hand};
use std::rt::Clock;
use std::sync::Wait;

/// Whether a turn of the driver changed anything.
fn has_moved(turn: DriverTurn) -> bool {
    match turn {
        DriverTurn::Started(_) | DriverTurn::Ended(_) => true,
        DriverTurn::Idle | DriverTurn::Waits(_) | DriverTurn::Spent => false,
    }
}

/// Makes turns of the driver.
pub(crate) fn run_driver<R: Wait + Clock>(driver: Driver, rt: &R, signals: &Signals) -> Driver
    ensures { SameDriver driver result }
{
    let mut driver = driver;
    let mut pauses = Pauses::new();
    for _ in rt.forever() {
        if signals.is_over() {
            return driver;
        }
        let turned = driver.turn();
        rest(rt, &mut pauses, has_moved(turned));
    }
    unreachable!()
}

/// Makes turns of a group.
pub(crate) fn run_group<J: Job, R: Wait + Clock>(
    group: Group<J>,
    rt: &R,
    signals: &Signals,
) -> Group<J>
    ensures { GroupStays group result }
{
    let mut group = group;
    let mut pauses = Pauses::new();
    for _ in rt.forever() {
        if signals.is_over() {
            return group;
        }
        let turned = group.turn();
        rest(rt, &mut pauses, turned.took > 0 || turned.gave > 0);
    }
    unreachable!()
}

/// Makes turns of a hand.
pub(crate) fn run_hand<J: Job, R: Wait + Clock>(hand: Hand<J>, rt: &R, signals: &Signals) -> Hand<J>
    ensures { HandStays J.key_of J.gives hand result }
{
    let mut hand = hand;
    let mut pauses = Pauses::new();
    for _ in rt.forever() {
        if signals.is_over() {
            return hand;
        }
        let turned = hand.turn();
        rest(rt, &mut pauses, turned.ran > 0);
    }
    unreachable!()
}
