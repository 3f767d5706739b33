//! Rounds of steps, by one thread alone and beside a second thread.

ghost use Rattle.std.specs.Prelude.{◌≡◌, ◌≤◌, ◌<◌, ◌+◌, ◌-◌, ◌*◌, IsTrue};
ghost use Rattle.std.specs.Thread.{IsSync};
ghost use Rattle.rcu_board.specs.Views.{sight};
ghost use Rattle.rcu_board.specs.Words.{reports_word};
ghost use Rattle.rcu_board.specs.Opened.{IsNewProcessor};
ghost use Rattle.bench_board.specs.Stays.{HasStepped, Reports, StaysSeat};
ghost use Rattle.rcu_board.specs.Seats.{view, AtBoard};

use crate::kinds::{Kind, Look};
use rcu_board::{Board, Role, Seat, end, look, sighted, start};
use rcu_numbers::LAST_NUMBER;
use rcu_part_steps::report_quiescent_state;
use std::num::nearest_u64_to_f64;
use std::rt::Clock;
use std::sync::Wait;
use std::sync::atomic::{AtomicBool, Ordering};
use std::thread::Threads;
use std::time::{Duration, Instant};
use std::{io, thread};

/// How many rounds a row makes alone, and again beside a second thread; and whether it prints what they cost.
#[derive(Clone, Copy)]
pub(crate) struct Plan {
    pub(crate) rounds: u64,
    pub(crate) prints: bool,
}

/// Makes the rounds of the numbers from `from` up to `to`. Answers whether all were made.
fn repeat<K: Kind>(board: &Board, seat: &mut Seat, from: u64, to: u64) -> bool
    requires board { AtBoard board.now seat.old }
    requires some { 0 < board.now.processors }
    requires ready { K.ready board.now seat.old from }
    requires rises { from ≤ to }
    ensures same { StaysSeat seat.old seat.new }
    ensures ready { IsTrue result → K.ready board.now seat.new to }
    ensures made { IsTrue result
        → HasStepped (K.word board.now seat.old.role) (K.steps * (to - from)) seat.old seat.new }
{
    for number in from..to {
        if !K::step(board, seat, number) {
            return false;
        }
    }
    true
}

/// Makes rounds until the other thread has stopped.
fn repeat_until<K: Kind, R: Wait>(rt: &R, board: &Board, mut seat: Seat, stopped: &AtomicBool)
    requires board { AtBoard board.now seat }
    requires some { 0 < board.now.processors }
    requires ready { K.ready board.now seat 0 }
{
    let mut number = 0u64;
    for _ in rt.forever() {
        if number == u64::MAX || stopped.load(Ordering::SeqCst) {
            break;
        }
        if !K::step(board, &mut seat, number) {
            break;
        }
        number += 1;
    }
}

/// Makes the rounds of one seat beside a second thread, in which the other seat makes its own. Answers whether all were
/// made.
fn repeat_beside<K: Kind, O: Kind, R: Threads + Wait + Sync>(
    rt: &R,
    board: &Board,
    mut seat: Seat,
    other: Seat,
    rounds: (u64, u64),
) -> bool
    requires board { AtBoard board.now seat × AtBoard board.now other }
    requires some { 0 < board.now.processors }
    requires ready { K.ready board.now seat rounds.0 × O.ready board.now other 0 }
    requires rises { rounds.0 ≤ rounds.1 }
{
    let flag = AtomicBool::new(false);
    let stopped = &flag;
    let (all, ()) = thread::join(
        rt,
        move || -> bool
            requires { AtBoard board.now seat × (0 < board.now.processors)
                × K.ready board.now seat rounds.0 × (rounds.0 ≤ rounds.1) }
        {
            let mut seat = seat;
            let all = repeat::<K>(board, &mut seat, rounds.0, rounds.1);
            stopped.store(true, Ordering::SeqCst);
            all
        },
        move || -> ()
            requires { IsSync R.row × AtBoard board.now other × (0 < board.now.processors)
                × O.ready board.now other 0 }
        { repeat_until::<O, R>(rt, board, other, stopped) },
    );
    all
}

/// Nanoseconds of a round.
fn nanoseconds(time: Duration, rounds: u64) -> f64 {
    time.as_secs_f64() * 1e9 / nearest_u64_to_f64(rounds)
}

/// Prints a row's figures, if the plan says so.
fn print_row<R: Print>(
    rt: &R,
    plan: Plan,
    name: &str,
    alone: Duration,
    beside: Duration,
) -> io::Result<()> {
    if !plan.prints {
        return Ok(());
    }
    println!(rt;
        "{name}: {:.1} ns alone, {:.1} ns beside a second thread",
        nanoseconds(alone, plan.rounds),
        nanoseconds(beside, plan.rounds)
    )
}

/// Measures one kind of step. Answers 1 where all rounds were made.
pub(crate) fn measure<K: Kind, O: Kind, R: Threads + Wait + Sync + Clock + Print>(
    rt: &R,
    board: &Board,
    mut seat: Seat,
    other: Seat,
    name: &str,
    plan: Plan,
) -> io::Result<u64>
    requires board { AtBoard board.now seat × AtBoard board.now other }
    requires some { 0 < board.now.processors }
    requires ready { K.ready board.now seat 0 × O.ready board.now other 0 }
{
    let rounds = plan.rounds;
    let Some(twice) = rounds.checked_mul(2) else {
        return Ok(0);
    };
    let first = Instant::now(rt)?;
    if !repeat::<K>(board, &mut seat, 0, rounds) {
        return Ok(0);
    }
    let alone = first.elapsed(rt)?;
    let second = Instant::now(rt)?;
    if !repeat_beside::<K, O, R>(rt, board, seat, other, (rounds, twice)) {
        return Ok(0);
    }
    print_row(rt, plan, name, alone, second.elapsed(rt)?)?;
    Ok(1)
}

/// Starts grace periods, which the one processor of the board reports in, and ends them. `passed` is the last one that the
/// processor passed, and is kept up to date. Answers whether all were made.
fn repeat_grace_periods(
    board: &Board,
    driver: &mut Seat,
    processor: &mut Seat,
    passed: &mut u64,
    rounds: u64,
) -> bool
    requires board { AtBoard board.now driver.old × AtBoard board.now processor.old }
    requires one { board.now.processors ≡ 1 }
    requires who { (driver.old.role ≡ Role.Driver) × Reports processor.old passed.old }
    ensures same { StaysSeat driver.old driver.new × StaysSeat processor.old processor.new }
    ensures reports { Reports processor.new passed.new }
    ensures ended { IsTrue result
        → sight (view driver.new) ≡ sight (view driver.old) + 4 * rounds }
    ensures reported { IsTrue result
        → HasStepped (reports_word 0) rounds processor.old processor.new }
{
    let mut seq = look(board, driver);
    if seq % 4 != 0 {
        return false;
    }
    for _round in 0..rounds {
        if seq >= LAST_NUMBER {
            return false;
        }
        start(board, driver, seq);
        let Some(counted) = report_quiescent_state(board, processor, 0, *passed) else {
            return false;
        };
        *passed = counted;
        if sighted(board, driver, 0) / 2 != seq + 1 {
            return false;
        }
        end(board, driver, seq + 1);
        seq += 4;
    }
    true
}

/// Makes grace periods beside a second thread, in which the hand looks. Answers whether all were made.
fn grace_periods_beside<R: Threads + Wait + Sync>(
    rt: &R,
    board: &Board,
    driver: Seat,
    processor: Seat,
    hand: Seat,
    passed: u64,
    rounds: u64,
) -> bool
    requires board { AtBoard board.now driver × AtBoard board.now processor
        × AtBoard board.now hand }
    requires one { board.now.processors ≡ 1 }
    requires who { (driver.role ≡ Role.Driver) × Reports processor passed }
{
    let flag = AtomicBool::new(false);
    let stopped = &flag;
    let (all, ()) = thread::join(
        rt,
        move || -> bool
            requires { AtBoard board.now driver × AtBoard board.now processor
                × (board.now.processors ≡ 1) × (driver.role ≡ Role.Driver)
                × Reports processor passed }
        {
            let (mut driver, mut processor, mut passed) = (driver, processor, passed);
            let all = repeat_grace_periods(board, &mut driver, &mut processor, &mut passed, rounds);
            stopped.store(true, Ordering::SeqCst);
            all
        },
        move || -> ()
            requires { IsSync R.row × AtBoard board.now hand × (board.now.processors ≡ 1) }
        { repeat_until::<Look, R>(rt, board, hand, stopped) },
    );
    all
}

/// Measures whole grace periods of one processor: a start, a report and an end. Answers 1 where all rounds were made.
pub(crate) fn measure_grace_periods<R: Threads + Wait + Sync + Clock + Print>(
    rt: &R,
    board: &Board,
    mut driver: Seat,
    mut processor: Seat,
    hand: Seat,
    plan: Plan,
) -> io::Result<u64>
    requires board { AtBoard board.now driver × AtBoard board.now processor
        × AtBoard board.now hand }
    requires one { board.now.processors ≡ 1 }
    requires who { (driver.role ≡ Role.Driver) × IsNewProcessor board.now 0 processor }
{
    let mut passed = 0;
    let first = Instant::now(rt)?;
    if !repeat_grace_periods(board, &mut driver, &mut processor, &mut passed, plan.rounds) {
        return Ok(0);
    }
    let alone = first.elapsed(rt)?;
    let second = Instant::now(rt)?;
    if !grace_periods_beside(rt, board, driver, processor, hand, passed, plan.rounds) {
        return Ok(0);
    }
    print_row(
        rt,
        plan,
        "start, report and end",
        alone,
        second.elapsed(rt)?,
    )?;
    Ok(1)
}
