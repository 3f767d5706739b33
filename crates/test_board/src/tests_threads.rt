//! Seats that step in threads of their own.

ghost use Rattle.std.specs.Prelude.{◌≡◌, ◌<◌, ◌≤◌, None, [], length};
ghost use Rattle.std.specs.Thread.{IsSync};
ghost use Rattle.rcu_board.specs.Opened.{IsNewProcessor};
ghost use Rattle.rcu_board.specs.Roles.{MayClaim};
ghost use Rattle.rcu_numbers.specs.Words.{owes_of};
ghost use Rattle.test_board.specs.Stays.{StaysSeat};
ghost use Rattle.rcu_board.specs.Seats.{view, AtBoard, MayHear, accepted_of, fresh_of};
ghost use Rattle.rcu_board.specs.declared.board.Role.{Role};

use crate::tests::{TwoOfEach, accept_one, expect, two_of_each};
use rcu_board::{Board, Claimed, Seat, claim, finish, heard, turn_of, urge};
use std::sync::Wait;
use std::thread;
use std::thread::Threads;

/// Has `count` callbacks of processor `p` accepted, each followed by a look. Answers how many were, with the numbers from
/// 0 on.
fn accept_all(board: &Board, mut seat: Seat, p: u64, count: u64) -> u64
    requires board { AtBoard board.now seat }
    requires who { seat.role ≡ Role.Processor p }
    requires new { (accepted_of (view seat) ≡ []) × (fresh_of (view seat) ≡ None)
        × ((view seat).running ≡ []) }
    requires small { count ≤ 1000000 }
{
    for number in 0..count {
        if !accept_one(board, &mut seat, p, number) {
            return number;
        }
    }
    count
}

#[test]
fn two_accepting_threads(rt: HostRuntime) {
    let (board, two) = two_of_each(&rt, rt.alloc());
    let TwoOfEach { first, second, .. } = two;
    let shared = &board;
    let accepted = thread::join(
        &rt,
        move || -> u64
            requires { IsNewProcessor shared.now 0 first }
        { accept_all(shared, first, 0, 1000) },
        move || -> u64
            requires { IsNewProcessor shared.now 1 second }
        { accept_all(shared, second, 1, 1000) },
    );
    expect(&rt, "accepted", accepted, (1000, 1000));
}

/// How many turns each processor has in the test below.
const TURNS: u64 = 10_000;

/// What a seat won of the turns of its processor.
#[derive(Clone, Copy)]
struct Won {
    count: u64,
    /// Of the numbers that it won.
    sum: u64,
}

/// Claims and finishes turns until all turns of the seat's processor are over.
fn win_turns<R: Wait>(rt: &R, board: &Board, mut seat: Seat) -> Won
    requires board { AtBoard board.now seat }
    requires who { MayClaim seat.role }
    requires rests { (view seat).running ≡ [] }
{
    let mut won = Won { count: 0, sum: 0 };
    let mut number = 0;
    for _ in rt.forever() {
        if number >= TURNS {
            break;
        }
        match claim(board, &mut seat, number) {
            Claimed::Won => {
                finish(board, &mut seat);
                won.count = won.count.wrapping_add(1);
                won.sum = won.sum.wrapping_add(number);
                number += 1;
            }
            Claimed::Not(word) => {
                number = word / 2;
                thread::yield_now();
            }
        }
    }
    won
}

/// Runs a processor and its hand, each in a thread of its own, until the turns of the processor are over. Answers what they
/// won together.
fn share_turns<R: Threads + Wait + Sync>(rt: &R, board: &Board, processor: Seat, hand: Seat) -> Won
    requires processor { AtBoard board.now processor × MayClaim processor.role
        × ((view processor).running ≡ []) }
    requires hand { AtBoard board.now hand × MayClaim hand.role × ((view hand).running ≡ []) }
{
    let (first, second) = thread::join(
        rt,
        move || -> Won
            requires { IsSync R.row × AtBoard board.now processor × MayClaim processor.role
                × ((view processor).running ≡ []) }
        { win_turns(rt, board, processor) },
        move || -> Won
            requires { IsSync R.row × AtBoard board.now hand × MayClaim hand.role
                × ((view hand).running ≡ []) }
        { win_turns(rt, board, hand) },
    );
    Won {
        count: first.count.wrapping_add(second.count),
        sum: first.sum.wrapping_add(second.sum),
    }
}

/// Runs two processors and their hands, each in a thread of its own.
fn share_both<R: Threads + Wait + Sync>(rt: &R, board: &Board, two: TwoOfEach) -> (Won, Won, Seat)
    requires first { AtBoard board.now two.first × MayClaim two.first.role
        × ((view two.first).running ≡ []) }
    requires first_hand { AtBoard board.now two.first_hand × MayClaim two.first_hand.role
        × ((view two.first_hand).running ≡ []) }
    requires second { AtBoard board.now two.second × MayClaim two.second.role
        × ((view two.second).running ≡ []) }
    requires second_hand { AtBoard board.now two.second_hand × MayClaim two.second_hand.role
        × ((view two.second_hand).running ≡ []) }
    ensures { result.2 ≡ two.control }
{
    let TwoOfEach {
        first,
        second,
        first_hand,
        second_hand,
        driver: _,
        control,
    } = two;
    let (first_won, second_won) = thread::join(
        rt,
        move || -> Won
            requires { IsSync R.row × AtBoard board.now first × MayClaim first.role
                × ((view first).running ≡ []) × AtBoard board.now first_hand
                × MayClaim first_hand.role × ((view first_hand).running ≡ []) }
        { share_turns(rt, board, first, first_hand) },
        move || -> Won
            requires { IsSync R.row × AtBoard board.now second × MayClaim second.role
                × ((view second).running ≡ []) × AtBoard board.now second_hand
                × MayClaim second_hand.role × ((view second_hand).running ≡ []) }
        { share_turns(rt, board, second, second_hand) },
    );
    (first_won, second_won, control)
}

// Only a processor and its hand may claim its turns, so four threads claim the turns of two processors.
#[test]
fn each_turn_once_in_four_threads(rt: HostRuntime) {
    let (board, two) = two_of_each(&rt, rt.alloc());
    let (first, second, mut control) = share_both(&rt, &board, two);
    let sum = TURNS * (TURNS - 1) / 2;
    let turns = (
        turn_of(&board, &mut control, 0),
        turn_of(&board, &mut control, 1),
    );
    let wins = [(first.count, first.sum), (second.count, second.sum), turns];
    let wanted = [(TURNS, sum), (TURNS, sum), (2 * TURNS, 2 * TURNS)];
    expect(&rt, "wins, turns", wins, wanted);
}

/// Looks again and again whether processor 0 was urged, until it was.
fn wait_for_urge<R: Wait>(rt: &R, board: &Board, mut seat: Seat) -> Seat
    requires board { AtBoard board.now seat }
    requires who { seat.role ≡ Role.Processor 0 }
    requires offloadable { owes_of board.now.offloadable 0 ≡ 1 }
    ensures same { StaysSeat seat result }
{
    for _ in rt.forever() {
        if heard(board, &mut seat) {
            break;
        }
        thread::yield_now();
    }
    seat
}

/// Control urges in one thread, and processor 0 hears it in another.
fn urge_across<R: Threads + Wait + Sync>(rt: &R, board: &Board, first: Seat, control: Seat) -> Seat
    requires first { AtBoard board.now first × (first.role ≡ Role.Processor 0) }
    requires control { AtBoard board.now control × (control.role ≡ Role.Control) }
    requires offloadable { owes_of board.now.offloadable 0 ≡ 1 }
    requires some { 0 < board.now.processors }
    ensures same { StaysSeat first result }
{
    let (first, ()) = thread::join(
        rt,
        move || -> Seat
            requires { IsSync R.row × AtBoard board.now first × (first.role ≡ Role.Processor 0)
                × (owes_of board.now.offloadable 0 ≡ 1) }
            ensures { StaysSeat first result }
        { wait_for_urge(rt, board, first) },
        move || -> ()
            requires { AtBoard board.now control × (control.role ≡ Role.Control)
                × (0 < board.now.processors) }
        {
            let mut control = control;
            urge(board, &mut control, 0);
        },
    );
    first
}

#[test]
fn urged_in_one_thread_and_heard_in_another(rt: HostRuntime) {
    let (board, two) = two_of_each(&rt, rt.alloc());
    assert!(rt; board.is_offloadable(0) && board.is_offloadable(1));
    let TwoOfEach {
        first,
        mut second,
        control,
        ..
    } = two;
    let mut first = urge_across(&rt, &board, first, control);
    let again = heard(&board, &mut first);
    let other = (heard(&board, &mut second), heard(&board, &mut second));
    expect(&rt, "heard", (again, other), (false, (true, false)));
}
