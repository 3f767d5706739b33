//! Processors that are away, and grace periods without a callback.

use crate::opening::{Opened, Work, call, last, open_shape};
use crate::same::assert_same;
use rcu_jobs::DriverTurn;
use rcu_numbers::Shape;
use rcu_parts::{Away, Driver, Processor};
use std::alloc::Global;
use std::process::Abort;

/// The parts of two Local processors, of which the second is away.
fn one_away(rt: &impl Abort, alloc: Global) -> (Opened, Away<Work>) {
    let mut all = open_shape(rt, alloc, Shape::new(2, 0, 1, 10, 16, 10));
    let second = all.parts.processors.pop().expect(rt, "the second");
    let Ok(away) = second.leave() else {
        panic!(rt; "it didn't leave");
    };
    (all, away)
}

/// What a grace period beside a processor that is away came to: the driver's turns, whether the grace period of a cookie was
/// over, before and after, and how many callbacks ran.
type Beside = ([DriverTurn; 3], [bool; 2], u64);

/// A grace period of a callback, in which the other processor is away.
fn beside_one_that_is_away(
    alloc: Global,
    here: &mut Processor<Work>,
    driver: &mut Driver,
) -> Option<Beside> {
    call(alloc, here, 1, 7)?;
    here.tick(1);
    let cookie = here.start_poll();
    let before = here.poll_state(cookie);
    let turns = turns_of(here, driver);
    let ran = here.tick(2).ran;
    Some((turns, [before, here.poll_state(cookie)], ran))
}

/// The driver's turns of a grace period in which one processor reports.
fn turns_of(processor: &mut Processor<Work>, driver: &mut Driver) -> [DriverTurn; 3] {
    let started = driver.turn();
    let waits = driver.turn();
    processor.quiescent();
    [started, waits, driver.turn()]
}

/// What the report of one that comes back answers.
fn report_once_back(away: Away<Work>) -> Option<u64> {
    let mut back = away.come_back();
    back.quiescent()
}

#[test]
fn one_that_is_away_holds_nobody_back(rt: HostRuntime) {
    let (mut all, away) = one_away(&rt, rt.alloc());
    let here = last(&rt, &mut all.parts.processors);
    let beside = beside_one_that_is_away(rt.alloc(), here, &mut all.parts.driver);
    let turns = [
        DriverTurn::Started(1),
        DriverTurn::Waits(0),
        DriverTurn::Ended(4),
    ];
    assert_same(
        &rt,
        (beside, report_once_back(away)),
        (Some((turns, [false, true], 1)), None),
    );
}

/// The driver's turns where processor 1 is back before the driver met it: it owes its report.
fn back_before_it_is_met(
    first: &mut Processor<Work>,
    away: Away<Work>,
    driver: &mut Driver,
) -> [DriverTurn; 3] {
    first.start_poll();
    let started = driver.turn();
    first.quiescent();
    let mut back = away.come_back();
    let waits = driver.turn();
    back.quiescent();
    [started, waits, driver.turn()]
}

#[test]
fn one_that_is_back_owes_its_report(rt: HostRuntime) {
    let (mut all, away) = one_away(&rt, rt.alloc());
    let here = last(&rt, &mut all.parts.processors);
    assert_same(
        &rt,
        back_before_it_is_met(here, away, &mut all.parts.driver),
        [
            DriverTurn::Started(1),
            DriverTurn::Waits(1),
            DriverTurn::Ended(4),
        ],
    );
}
