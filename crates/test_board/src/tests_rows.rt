//! Steps of several seats in one thread, as docs/specification/rows.md lists them.

ghost use Rattle.std.specs.Prelude.{◌≡◌, ◌<◌, []};
ghost use Rattle.rcu_board.specs.Opened.{IsNewProcessor};
ghost use Rattle.rcu_board.specs.Roles.{MayClaim};
ghost use Rattle.rcu_board.specs.Seats.{view, AtBoard};
ghost use Rattle.rcu_board.specs.declared.board.Role.{Role};

use crate::tests::{
    TwoOfEach, accept_one, drive, expect, one_of_each, report_one, run_all, two_of_each,
};
use rcu_board::{
    Board, Claimed, Seat, accept, claim, come_back, finish, leave, look, meet, shut_one, sighted,
    turn_of,
};

/// What the steps of two processors and the driver answered, in order.
#[derive(Clone, Copy)]
struct GracePeriod {
    started: bool,
    first: u64,
    ended_early: bool,
    again: u64,
    second: u64,
    ended: bool,
    last: u64,
}

fn one_grace_period(board: &Board, two: &mut TwoOfEach) -> GracePeriod
    requires first { IsNewProcessor board.now 0 two.old.first }
    requires second { IsNewProcessor board.now 1 two.old.second }
    requires driver { AtBoard board.now two.old.driver × (two.old.driver.role ≡ Role.Driver) }
{
    let started = drive(board, &mut two.driver);
    let passed = report_one(board, &mut two.first, 0, 0);
    GracePeriod {
        started,
        first: passed,
        ended_early: drive(board, &mut two.driver),
        again: report_one(board, &mut two.first, 0, passed),
        second: report_one(board, &mut two.second, 1, 0),
        ended: drive(board, &mut two.driver),
        last: look(board, &mut two.first),
    }
}

#[test]
fn three_seats(rt: HostRuntime) {
    let (board, mut two) = two_of_each(&rt, rt.alloc());
    let seen = one_grace_period(&board, &mut two);
    let steps = (seen.started, seen.ended_early, seen.ended);
    let numbers = (seen.first, seen.again, seen.second, seen.last);
    expect(
        &rt,
        "one period",
        (steps, numbers),
        ((true, false, true), (1, 1, 1, 4)),
    );
}

/// What the driver saw of a processor that is away, and which grace period it passed when it came back; whether it was met, and
/// met again; and what meeting it answers once it is back.
type Meeting = ((u64, u64), (bool, bool), Result<(), u64>);

/// A processor leaves, is met in grace period 1, is back, and isn't met in the next one.
fn meet_one(board: &Board, processor: &mut Seat, driver: &mut Seat) -> Option<Meeting>
    requires processor { IsNewProcessor board.now 0 processor.old }
    requires driver { AtBoard board.now driver.old × (driver.old.role ≡ Role.Driver) }
    requires some { 0 < board.now.processors }
{
    leave(board, processor, 0);
    if !drive(board, driver) || look(board, driver) != 1 {
        return None;
    }
    let seen = sighted(board, driver, 0);
    let met = meet(board, driver, 0, 0, 1).is_ok();
    let met_again = meet(board, driver, 0, 0, 1).is_ok();
    let passed = come_back(board, processor);
    if !drive(board, driver) || !drive(board, driver) || look(board, driver) != 5 {
        return None;
    }
    let here = meet(board, driver, 0, 1, 5);
    Some(((seen, passed), (met, met_again), here))
}

#[test]
fn away_is_met(rt: HostRuntime) {
    let (board, mut parts) = one_of_each(&rt, rt.alloc());
    let meeting = meet_one(&board, &mut parts.processor, &mut parts.driver);
    expect(
        &rt,
        "meeting",
        meeting,
        Some(((1, 1), (true, false), Err(2))),
    );
}

/// The turn word as it was found after each step of a processor and its hand, from turn 5 on; None where a claim was won
/// out of its turn, or lost in it.
fn turns_of_two(board: &Board, processor: &mut Seat, hand: &mut Seat) -> Option<[u64; 5]>
    requires processor { AtBoard board.now processor.old × (processor.old.role ≡ Role.Processor 0)
        × ((view processor.old).running ≡ []) }
    requires hand { AtBoard board.now hand.old × MayClaim hand.old.role
        × ((view hand.old).running ≡ []) }
    requires some { 0 < board.now.processors }
{
    run_all(board, processor, 5);
    let before = turn_of(board, processor, 0);
    let Claimed::Won = claim(board, hand, 5) else {
        return None;
    };
    let Claimed::Not(other) = claim(board, processor, 6) else {
        return None;
    };
    finish(board, hand);
    let between = turn_of(board, processor, 0);
    let Claimed::Won = claim(board, processor, 6) else {
        return None;
    };
    let running = turn_of(board, processor, 0);
    finish(board, processor);
    Some([
        before,
        other,
        between,
        running,
        turn_of(board, processor, 0),
    ])
}

#[test]
fn turn_word_claims(rt: HostRuntime) {
    let (board, mut parts) = one_of_each(&rt, rt.alloc());
    let turns = turns_of_two(&board, &mut parts.processor, &mut parts.hand);
    expect(&rt, "turns", turns, Some([10, 11, 12, 13, 14]));
}

/// Has a callback accepted, shuts the processor, and tries another. Answers the count that `shut_one` gave, and what the
/// second try was answered; None where the first was refused.
fn accept_around_shut(
    board: &Board,
    processor: &mut Seat,
    control: &mut Seat,
) -> Option<(u64, Option<u64>)>
    requires processor { IsNewProcessor board.now 0 processor.old }
    requires control { AtBoard board.now control.old × (control.old.role ≡ Role.Control) }
    requires some { 0 < board.now.processors }
{
    if !accept_one(board, processor, 0, 0) {
        return None;
    }
    let count = shut_one(board, control, 0);
    Some((count, accept(board, processor, 1, 1)))
}

#[test]
fn accept_after_shut(rt: HostRuntime) {
    let (board, mut parts) = one_of_each(&rt, rt.alloc());
    let answers = accept_around_shut(&board, &mut parts.processor, &mut parts.control);
    expect(&rt, "count, refused", answers, Some((1, None)));
}
