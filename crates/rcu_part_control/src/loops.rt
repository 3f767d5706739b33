//! The loops of the running parts that hold no callbacks. They alone may wait.

ghost use Rattle.std.specs.Prelude.{◌≡◌};
ghost use Rattle.rcu_board.specs.Seats.{SawHalt};
ghost use Rattle.rcu_part_control.specs.Parts.{driver_view, control_board, control_view, SameControl, SameDriver};
ghost use Rattle.rcu_board.specs.Words.{turns_word};
ghost use Rattle.rcu_part_control.specs.Barriers.{IsOver};
ghost use Rattle.rcu_board.specs.Frames.{StepsWithin};

use crate::barrier::Barrier;
use crate::control::Control;
use crate::driver::Driver;
use crate::pause::Pauses;
use rcu_jobs::{DriverTurn, Passed};
use std::rt::Clock;
use std::sync::Wait;

/// Whether a turn of the driver changed anything.
fn has_moved(turn: DriverTurn) -> bool {
    match turn {
        DriverTurn::Started(_) | DriverTurn::Ended(_) => true,
        DriverTurn::Idle | DriverTurn::Waits(_) | DriverTurn::Spent => false,
    }
}

impl Driver {
    /// Turns until the runtime is halted, and gives the driver back. Between turns that did nothing it pauses.
    pub fn run<R: Wait + Clock>(self, rt: &R) -> Driver
        ensures same { SameDriver self result }
        ensures halted { SawHalt (driver_view result) }
    {
        let mut driver = self;
        let mut pauses = Pauses::new();
        for _ in rt.forever() {
            if driver.is_halted() {
                return driver;
            }
            if has_moved(driver.turn()) {
                pauses.start_over();
            } else {
                pauses.pause(rt);
            }
        }
        unreachable!()
    }
}

impl Barrier {
    /// Polls until the barrier has passed. Between polls it pauses. Control makes no other step.
    pub fn wait<R: Wait + Clock>(self, rt: &R, by: &mut Control) -> Passed
        requires open { (control_board by.old).processors ≡ self.counts.n }
        ensures same { SameControl by.old by.new }
        ensures counts { result.counts ≡ self.counts }
        ensures over { IsOver self.counts (control_view by.new) }
        ensures only { StepsWithin turns_word self.counts.n (control_view by.old)
            (control_view by.new) }
    {
        let mut barrier = self;
        let mut pauses = Pauses::new();
        for _ in rt.forever() {
            if let Some(passed) = barrier.poll(by) {
                return passed;
            }
            pauses.pause(rt);
        }
        unreachable!()
    }
}
