//! The threads of the parts that run beside the processors.

use crate::jobs::Work;
use rcu_parts::{Driver, Group, Hand};
use rcu_threads::{
    Crew, RunningDriver, RunningGroup, RunningHand, join_all, join_driver, start_driver,
    start_groups, start_hands,
};
use std::alloc::Global;
use std::rt::Clock;
use std::sync::Wait;
use std::thread::Threads;

/// The threads of the driver, the groups and the hands.
pub(crate) struct Beside {
    driver: Option<RunningDriver>,
    groups: Crew<RunningGroup<Work>>,
    hands: Crew<RunningHand<Work>>,
}

/// Starts a thread for the driver, for each group and for each hand.
pub(crate) fn start_beside<R: Threads + Wait + Clock + Copy + Send + 'static>(
    rt: &R,
    alloc: Global,
    driver: Driver,
    groups: Vec<Group<Work>>,
    hands: Vec<Hand<Work>>,
) -> Beside {
    Beside {
        driver: start_driver(rt, driver),
        groups: start_groups(rt, alloc, groups),
        hands: start_hands(rt, alloc, hands),
    }
}

/// How many callbacks hands ran.
pub(crate) fn ran_by(hands: &[Hand<Work>]) -> u64 {
    let mut ran: u64 = 0;
    for hand in hands {
        ran = ran.saturating_add(hand.ran() as u64);
    }
    ran
}

/// Joins these threads once the runtime is halted. Answers how many callbacks hands ran; None where not all hands had a thread,
/// or for want of memory.
pub(crate) fn join_beside<R: Threads>(rt: &R, beside: Beside) -> Option<u64> {
    let Beside {
        driver,
        groups,
        hands,
    } = beside;
    drop(join_driver(rt, driver));
    drop(join_all(rt, groups));
    let hands = join_all(rt, hands).ok()?;
    Some(ran_by(hands.as_slice()))
}
