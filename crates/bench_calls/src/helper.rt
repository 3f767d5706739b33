//! One thread that turns the driver, the groups and the hands, as a peer has one helper for all its callbacks.

ghost use denote.Param.Send.{IsSend};

use crate::jobs::Work;
use rcu_jobs::DriverTurn;
use rcu_part_control::Pauses;
use rcu_parts::{Driver, Group, Hand};
use std::rt::Clock;
use std::sync::Wait;
use std::thread;
use std::thread::{JoinHandle, Threads};

/// The parts that one helper turns.
#[derive(Drop)]
pub(crate) struct Helper {
    pub(crate) driver: Driver,
    pub(crate) groups: Vec<Group<Work>>,
    pub(crate) hands: Vec<Hand<Work>>,
}

/// Turns the driver once. Answers whether it started or ended a grace period.
fn turn_driver(driver: &mut Driver) -> bool {
    match driver.turn() {
        DriverTurn::Started(_) | DriverTurn::Ended(_) => true,
        DriverTurn::Idle | DriverTurn::Waits(_) | DriverTurn::Spent => false,
    }
}

/// Turns each group once. Answers whether one of them took or gave a callback.
fn turn_groups(groups: &mut Vec<Group<Work>>) -> bool {
    let mut has_moved = false;
    for group in groups.iter_mut() {
        let turn = group.turn();
        if turn.took > 0 || turn.gave > 0 {
            has_moved = true;
        }
    }
    has_moved
}

/// Turns each hand once. Answers whether one of them ran a callback.
fn turn_hands(hands: &mut Vec<Hand<Work>>) -> bool {
    let mut has_moved = false;
    for hand in hands.iter_mut() {
        if hand.turn().ran > 0 {
            has_moved = true;
        }
    }
    has_moved
}

impl Helper {
    /// Turns each part once. Answers whether one of them did anything.
    fn turn(&mut self) -> bool {
        let has_driven = turn_driver(&mut self.driver);
        let has_given = turn_groups(&mut self.groups);
        let has_run = turn_hands(&mut self.hands);
        has_driven || has_given || has_run
    }

    /// Turns all parts until the runtime is halted. Where none of them did anything it pauses.
    fn run<R: Wait + Clock>(self, rt: &R) -> Helper {
        let mut helper = self;
        let mut pauses = Pauses::new();
        for _ in rt.forever() {
            if helper.driver.is_halted() {
                return helper;
            }
            if helper.turn() {
                pauses.start_over();
            } else {
                pauses.pause(rt);
            }
        }
        unreachable!()
    }
}

/// Starts the helper's thread. None where none can be made.
pub(crate) fn start_helper<R: Threads + Wait + Clock + Copy + Send + 'static>(
    rt: &R,
    helper: Helper,
) -> Option<JoinHandle<Helper>> {
    let own = *rt;
    let run = move || -> Helper
        requires { IsSend R.row }
    { helper.run(&own) };
    let Ok(thread) = thread::spawn(rt, run) else {
        return None;
    };
    Some(thread)
}
