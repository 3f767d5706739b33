//! The steps on a board, by the seats that may make them, in one thread and in several.

ghost use Rattle.std.specs.Prelude.{◌≡◌, ◌+◌, ◌-◌, ◌*◌, ◌<◌, ◌≤◌, None, [], ◌∷◌, length, IsTrue, true, false};
ghost use Rattle.std.specs.Thread.{IsSync};
ghost use Rattle.rcu_numbers.specs.Words.{owes_of};
ghost use Rattle.rcu_board.specs.Plays.{all_seats};
ghost use Rattle.rcu_board.specs.Roles.{IsDriver, IsControl, MayClaim};
ghost use Rattle.rcu_board.specs.Opened.{AreNew, IsNew, IsNewProcessor};
ghost use Rattle.test_board.specs.Stays.{StaysSeat};
ghost use Rattle.rcu_board.specs.Views.{sight};
ghost use Rattle.rcu_board.specs.Seats.{view, AtBoard, AllAccounted, accepted_of, fresh_of, own_word};

use rcu_board::{
    Board, Claimed, Gathered, Role, Seat, Seats, accept, ask, asked, claim, end, finish, halt,
    halted, heard, last_count_of, last_look, last_report_of, last_turn_of, look, merge, need,
    needed, open_board, shut_one, sighted, start, turn_of, urge, urge_words,
};
use rcu_numbers::{LAST_NUMBER, MOST_CALLS, PartsShape, ProcessorSet, Shape};
use rcu_part_steps::report_quiescent_state;
use std::alloc::Global;
use std::fmt::Debug;
use std::process::Abort;
use std::thread;
use std::thread::Threads;

/// What was found is what is wanted, of what is named.
pub(crate) fn expect<T: PartialEq + Debug + Drop>(
    rt: &impl Abort,
    what: &str,
    found: T,
    wanted: T,
) {
    assert_eq!(rt; found, wanted, "{what}");
}

/// Whose the seat at `i` is; None past the last.
fn role_at(seats: &[Seat], i: usize) -> Option<Role> {
    match seats.get(i) {
        Some(seat) => Some(seat.role()),
        None => None,
    }
}

/// Whose the first four seats of a list are.
fn roles(seats: &[Seat]) -> [Option<Role>; 4] {
    [
        role_at(seats, 0),
        role_at(seats, 1),
        role_at(seats, 2),
        role_at(seats, 3),
    ]
}

/// Of a board and its seats: how many processors it has, and how many have a seat; whether two of these are offloadable;
/// and whose the seats of hands and groups are.
type Seated = ((u64, usize), (bool, bool), [[Option<Role>; 4]; 2]);

/// Makes a board for six processors, of which 1, 4 and 5 are offloadable, in groups of two.
fn seat_six(rt: &impl Abort, alloc: Global) -> Seated {
    let shape = Shape::new(6, 0b110010, 2, 10, 16, 1000)
        .expect(rt, "within the limits")
        .for_parts();
    let (board, seats) = open_board(alloc, &shape).expect(rt, "memory");
    (
        (board.processors(), seats.processors.len()),
        (board.is_offloadable(1), board.is_offloadable(2)),
        [
            roles(seats.hands.as_slice()),
            roles(seats.groups.as_slice()),
        ],
    )
}

#[test]
fn seats_of_a_shape(rt: HostRuntime) {
    let wanted = (
        (6, 6),
        (true, false),
        [
            [
                Some(Role::Hand(1)),
                Some(Role::Hand(4)),
                Some(Role::Hand(5)),
                None,
            ],
            [Some(Role::Group(0)), Some(Role::Group(2)), None, None],
        ],
    );
    expect(&rt, "seated", seat_six(&rt, rt.alloc()), wanted);
}

/// Of a board of the largest shape: how many seats processors, hands and groups have, how many processors and urge words it
/// has, and whether the last processor and the one past it are offloadable.
fn seat_most(rt: &impl Abort, alloc: Global) -> ([usize; 3], [u64; 2], [bool; 2]) {
    let all = ProcessorSet::of_first(1024);
    let shape = PartsShape::new(1024, &all, 64, 10, 16, MOST_CALLS).expect(rt, "within the limits");
    let (board, seats) = open_board(alloc, &shape).expect(rt, "memory");
    (
        [
            seats.processors.len(),
            seats.hands.len(),
            seats.groups.len(),
        ],
        [board.processors(), urge_words(&board)],
        [board.is_offloadable(1023), board.is_offloadable(1024)],
    )
}

#[test]
fn seats_of_the_largest_shape(rt: HostRuntime) {
    let wanted = ([1024, 1024, 16], [1024, 16], [true, false]);
    expect(&rt, "seated", seat_most(&rt, rt.alloc()), wanted);
}

/// How many callbacks the processor of the test below tries to have accepted.
const CALLS: u64 = 20_000;

/// Claims a number, and finishes it where the claim is won. Answers how many were.
pub(crate) fn run_one(board: &Board, seat: &mut Seat, number: u64) -> u64
    requires board { AtBoard board.now seat.old }
    requires who { MayClaim seat.old.role }
    requires rests { (view seat.old).running ≡ [] }
    requires small { number < 1000000 }
    ensures same { StaysSeat seat.old seat.new }
    ensures rests { (view seat.new).running ≡ [] }
    ensures accepted { (accepted_of (view seat.new) ≡ accepted_of (view seat.old))
        × (fresh_of (view seat.new) ≡ fresh_of (view seat.old)) }
    ensures here { own_word (view seat.new) ≡ own_word (view seat.old) }
    ensures few { result ≤ 1 }
{
    let Claimed::Won = claim(board, seat, number) else {
        return 0;
    };
    finish(board, seat);
    1
}

/// Has callback `count` of processor `p` accepted, and looks, which stamps it. Answers whether it was accepted.
pub(crate) fn accept_one(board: &Board, seat: &mut Seat, p: u64, count: u64) -> bool
    requires board { AtBoard board.now seat.old }
    requires who { seat.old.role ≡ Role.Processor p }
    requires count { length (accepted_of (view seat.old)) ≡ count }
    requires stamped { fresh_of (view seat.old) ≡ None }
    requires rests { (view seat.old).running ≡ [] }
    requires small { count < 1000000 }
    ensures same { StaysSeat seat.old seat.new }
    ensures rests { (view seat.new).running ≡ [] }
    ensures stamped { fresh_of (view seat.new) ≡ None }
    ensures more { IsTrue result → length (accepted_of (view seat.new)) ≡ count + 1 }
    ensures here { own_word (view seat.new) ≡ own_word (view seat.old) }
{
    let Some(number) = accept(board, seat, count, count) else {
        return false;
    };
    look(board, seat);
    number == count
}

/// Reports, where processor `p` owes a report: `passed` is the last grace period that it passed. Answers the last one that it
/// has passed then.
pub(crate) fn report_one(board: &Board, seat: &mut Seat, p: u64, passed: u64) -> u64
    requires board { AtBoard board.now seat.old }
    requires who { seat.old.role ≡ Role.Processor p }
    requires stamped { fresh_of (view seat.old) ≡ None }
    requires here { own_word (view seat.old) ≡ 2 * passed }
    ensures same { StaysSeat seat.old seat.new }
    ensures rests { (view seat.new).running ≡ (view seat.old).running }
    ensures accepted { (accepted_of (view seat.new) ≡ accepted_of (view seat.old))
        × (fresh_of (view seat.new) ≡ fresh_of (view seat.old)) }
    ensures here { own_word (view seat.new) ≡ 2 * result }
{
    match report_quiescent_state(board, seat, p, passed) {
        Some(seq) => seq,
        None => passed,
    }
}

/// What the processor's thread did.
#[derive(Drop)]
struct Done {
    seat: Seat,
    accepted: u64,
    reports: u64,
    passed: u64,
    won: u64,
}

fn be_processor(board: &Board, mut seat: Seat) -> Done
    requires board { AtBoard board.now seat }
    requires who { seat.role ≡ Role.Processor 0 }
    requires new { (accepted_of (view seat) ≡ []) × (fresh_of (view seat) ≡ None)
        × ((view seat).running ≡ []) × (own_word (view seat) ≡ 0) }
    ensures same { StaysSeat seat result.seat }
    ensures rests { (view result.seat).running ≡ [] }
    ensures few { (result.reports ≤ CALLS) × (result.won ≤ CALLS) }
{
    let mut reports = 0;
    let mut passed = 0;
    let mut won = 0;
    for count in 0..CALLS {
        if !accept_one(board, &mut seat, 0, count) {
            return Done {
                seat,
                accepted: count,
                reports,
                passed,
                won,
            };
        }
        let before = passed;
        passed = report_one(board, &mut seat, 0, before);
        reports += u64::from(passed != before);
        won += run_one(board, &mut seat, count);
    }
    Done {
        seat,
        accepted: CALLS,
        reports,
        passed,
        won,
    }
}

/// Claims and finishes the numbers below `count`, each once. Answers how many of these claims were won.
pub(crate) fn run_all(board: &Board, seat: &mut Seat, count: u64) -> u64
    requires board { AtBoard board.now seat.old }
    requires who { MayClaim seat.old.role }
    requires rests { (view seat.old).running ≡ [] }
    requires small { count ≤ CALLS }
    ensures same { StaysSeat seat.old seat.new }
    ensures rests { (view seat.new).running ≡ [] }
    ensures few { result ≤ count }
{
    let mut won = 0;
    for number in 0..count {
        won += run_one(board, seat, number);
    }
    won
}

/// Whether the driver sees of every processor that it passed the grace period `seq`.
fn all_passed(board: &Board, seat: &mut Seat, seq: u64) -> bool
    requires board { AtBoard board.now seat.old }
    requires who { seat.old.role ≡ Role.Driver }
    requires seen { sight (view seat.old) ≡ seq }
    ensures same { StaysSeat seat.old seat.new }
    ensures rests { (view seat.new).running ≡ (view seat.old).running }
    ensures seen { sight (view seat.new) ≡ seq }
    ensures all { IsTrue result → AllAccounted board.now.processors seq (view seat.new) }
{
    for p in 0..board.processors() {
        if sighted(board, seat, p) / 2 != seq {
            return false;
        }
    }
    true
}

/// Starts or ends a grace period, where one can be. Answers whether it did.
pub(crate) fn drive(board: &Board, seat: &mut Seat) -> bool
    requires board { AtBoard board.now seat.old }
    requires who { seat.old.role ≡ Role.Driver }
    ensures same { StaysSeat seat.old seat.new }
    ensures rests { (view seat.new).running ≡ (view seat.old).running }
{
    let seq = look(board, seat);
    if seq % 4 == 1 {
        if !all_passed(board, seat, seq) {
            return false;
        }
        end(board, seat, seq);
        return true;
    }
    if seq == LAST_NUMBER {
        return false;
    }
    start(board, seat, seq);
    true
}

fn be_driver(board: &Board, mut seat: Seat) -> Seat
    requires board { AtBoard board.now seat }
    requires who { seat.role ≡ Role.Driver }
    ensures same { StaysSeat seat result }
    ensures rests { (view result).running ≡ (view seat).running }
{
    for _n in 0..CALLS {
        let _moved = drive(board, &mut seat);
    }
    seat
}

fn be_control(board: &Board, mut seat: Seat) -> (Seat, u64)
    requires board { AtBoard board.now seat }
    requires who { seat.role ≡ Role.Control }
    requires some { 0 < board.now.processors }
    ensures same { StaysSeat seat result.0 }
    ensures rests { (view result.0).running ≡ (view seat).running }
{
    for round in 0..CALLS / 10 {
        ask(board, &mut seat, 0, round % 2 == 0);
        urge(board, &mut seat, 0);
        turn_of(board, &mut seat, 0);
    }
    let count = shut_one(board, &mut seat, 0);
    (seat, count)
}

/// The only seat of a list.
fn only(rt: &impl Abort, mut seats: Vec<Seat>) -> Seat
    ensures { seats.items ≡ result ∷ [] }
{
    assert!(rt; seats.len() == 1, "one seat");
    seats.pop().expect(rt, "one seat")
}

/// What the threads did, and what the last loads said.
#[derive(Drop)]
struct Outcome {
    accepted: u64,
    shut: u64,
    reports: u64,
    passed: u64,
    won: u64,
    last: LastLoads,
}

/// What the last look at each word said.
#[derive(Clone, Copy)]
struct LastLoads {
    number: u64,
    accepts: u64,
    turns: u64,
    reports: u64,
}

/// Runs a processor and its hand, each in a thread of its own.
fn run_both<R: Threads + Sync>(
    rt: &R,
    board: &Board,
    processor: Seat,
    hand: Seat,
) -> (Done, (Seat, u64))
    requires board { AtBoard board.now processor × AtBoard board.now hand }
    requires who { (processor.role ≡ Role.Processor 0) × MayClaim hand.role }
    requires new { (accepted_of (view processor) ≡ []) × (fresh_of (view processor) ≡ None)
        × (own_word (view processor) ≡ 0) }
    requires rests { ((view processor).running ≡ []) × ((view hand).running ≡ []) }
    ensures same { StaysSeat processor result.0.seat × StaysSeat hand result.1.0 }
    ensures rests { ((view result.0.seat).running ≡ []) × ((view result.1.0).running ≡ []) }
    ensures few { (result.0.reports ≤ CALLS) × (result.0.won ≤ CALLS) × (result.1.1 ≤ CALLS) }
{
    thread::join(
        rt,
        move || -> Done
            requires { AtBoard board.now processor × (processor.role ≡ Role.Processor 0)
                × (accepted_of (view processor) ≡ []) × (fresh_of (view processor) ≡ None)
                × ((view processor).running ≡ []) × (own_word (view processor) ≡ 0) }
            ensures { StaysSeat processor result.seat × ((view result.seat).running ≡ [])
                × (result.reports ≤ CALLS) × (result.won ≤ CALLS) }
        { be_processor(board, processor) },
        move || -> (Seat, u64)
            requires { AtBoard board.now hand × MayClaim hand.role × ((view hand).running ≡ []) }
            ensures { StaysSeat hand result.0 × ((view result.0).running ≡ [])
                × (result.1 ≤ CALLS) }
        {
            let mut hand = hand;
            let won = run_all(board, &mut hand, CALLS);
            (hand, won)
        },
    )
}

/// Runs the driver and control, each in a thread of its own.
fn run_rest<R: Threads + Sync>(
    rt: &R,
    board: &Board,
    driver: Seat,
    control: Seat,
) -> (Seat, (Seat, u64))
    requires board { AtBoard board.now driver × AtBoard board.now control }
    requires who { (driver.role ≡ Role.Driver) × (control.role ≡ Role.Control) }
    requires some { 0 < board.now.processors }
    requires rests { ((view driver).running ≡ []) × ((view control).running ≡ []) }
    ensures same { StaysSeat driver result.0 × StaysSeat control result.1.0 }
    ensures rests { ((view result.0).running ≡ []) × ((view result.1.0).running ≡ []) }
{
    thread::join(
        rt,
        move || -> Seat
            requires { AtBoard board.now driver × (driver.role ≡ Role.Driver)
                × ((view driver).running ≡ []) }
            ensures { StaysSeat driver result × ((view result).running ≡ []) }
        { be_driver(board, driver) },
        move || -> (Seat, u64)
            requires { AtBoard board.now control × (control.role ≡ Role.Control)
                × (0 < board.now.processors) × ((view control).running ≡ []) }
            ensures { StaysSeat control result.0 × ((view result.0).running ≡ []) }
        { be_control(board, control) },
    )
}

/// Makes all seats one, and looks at each word.
fn settle(
    board: &Board,
    control: Seat,
    driver: Seat,
    group: Seat,
    hand: Seat,
    processor: Seat,
) -> LastLoads
    requires board { AtBoard board.now control × AtBoard board.now driver × AtBoard board.now group
        × AtBoard board.now hand × AtBoard board.now processor }
    requires rests { ((view control).running ≡ []) × ((view driver).running ≡ [])
        × ((view group).running ≡ []) × ((view hand).running ≡ [])
        × ((view processor).running ≡ []) }
    requires whole { (view control).weight + (view driver).weight + (view group).weight
        + (view hand).weight + (view processor).weight ≡ all_seats }
    requires some { 0 < board.now.processors }
{
    let mut all = Gathered::new(control);
    merge(board, &mut all, driver);
    merge(board, &mut all, group);
    merge(board, &mut all, hand);
    merge(board, &mut all, processor);
    LastLoads {
        number: last_look(board, &mut all),
        accepts: last_count_of(board, &mut all, 0),
        turns: last_turn_of(board, &mut all, 0),
        reports: last_report_of(board, &mut all, 0),
    }
}

/// The seats of a board for one processor, which is offloadable.
#[derive(Drop)]
pub(crate) struct OneOfEach {
    pub(crate) processor: Seat,
    pub(crate) hand: Seat,
    pub(crate) group: Seat,
    pub(crate) driver: Seat,
    pub(crate) control: Seat,
}

/// The seats of a board for one processor, one by one.
fn take_apart(rt: &impl Abort, shape: &PartsShape, board: &Board, seats: Seats) -> OneOfEach
    requires { AreNew shape.now board.now seats }
    ensures processor { IsNewProcessor board.now 0 result.processor }
    ensures hand { AtBoard board.now result.hand × MayClaim result.hand.role
        × ((view result.hand).running ≡ []) × ((view result.hand).weight ≡ 1) }
    ensures group { AtBoard board.now result.group × ((view result.group).running ≡ [])
        × ((view result.group).weight ≡ 1) }
    ensures driver { IsNew board.now Role.Driver (all_seats - 4) true false [] result.driver }
    ensures control { IsNew board.now Role.Control 1 false true [] result.control }
{
    let Seats {
        processors,
        hands,
        groups,
        driver,
        control,
    } = seats;
    OneOfEach {
        processor: only(rt, processors),
        hand: only(rt, hands),
        group: only(rt, groups),
        driver,
        control,
    }
}

/// A board for one processor, which is offloadable, and its seats.
pub(crate) fn one_of_each(rt: &impl Abort, alloc: Global) -> (Board, OneOfEach)
    ensures some { 0 < result.0.processors }
    ensures processor { IsNewProcessor result.0 0 result.1.processor }
    ensures hand { AtBoard result.0 result.1.hand × MayClaim result.1.hand.role
        × ((view result.1.hand).running ≡ []) × ((view result.1.hand).weight ≡ 1) }
    ensures group { AtBoard result.0 result.1.group × ((view result.1.group).running ≡ [])
        × ((view result.1.group).weight ≡ 1) }
    ensures driver { IsNew result.0 Role.Driver (all_seats - 4) true false [] result.1.driver }
    ensures control { IsNew result.0 Role.Control 1 false true [] result.1.control }
{
    let shape = Shape::new(1, 1, 1, 10, 16, 1000)
        .expect(rt, "within the limits")
        .for_parts();
    let (board, seats) = open_board(alloc, &shape).expect(rt, "memory");
    let parts = take_apart(rt, &shape, &board, seats);
    (board, parts)
}

/// The seats, but those of groups, of a board for two processors, which are both offloadable.
#[derive(Drop)]
pub(crate) struct TwoOfEach {
    pub(crate) first: Seat,
    pub(crate) second: Seat,
    pub(crate) first_hand: Seat,
    pub(crate) second_hand: Seat,
    pub(crate) driver: Seat,
    pub(crate) control: Seat,
}

/// The two seats of a list.
fn both(rt: &impl Abort, mut seats: Vec<Seat>) -> (Seat, Seat)
    ensures { seats.items ≡ result.0 ∷ result.1 ∷ [] }
{
    assert!(rt; seats.len() == 2, "two seats");
    let second = seats.pop().expect(rt, "two seats");
    let first = seats.pop().expect(rt, "two seats");
    (first, second)
}

/// The seats of a board for two processors, one by one.
fn take_two_apart(rt: &impl Abort, shape: &PartsShape, board: &Board, seats: Seats) -> TwoOfEach
    requires { AreNew shape.now board.now seats }
    ensures first { IsNewProcessor board.now 0 result.first }
    ensures second { IsNewProcessor board.now 1 result.second }
    ensures first_hand { AtBoard board.now result.first_hand × MayClaim result.first_hand.role
        × ((view result.first_hand).running ≡ []) }
    ensures second_hand { AtBoard board.now result.second_hand × MayClaim result.second_hand.role
        × ((view result.second_hand).running ≡ []) }
    ensures driver { AtBoard board.now result.driver × (result.driver.role ≡ Role.Driver) }
    ensures control { AtBoard board.now result.control × (result.control.role ≡ Role.Control) }
{
    let Seats {
        processors,
        hands,
        groups: _,
        driver,
        control,
    } = seats;
    let (first, second) = both(rt, processors);
    let (first_hand, second_hand) = both(rt, hands);
    TwoOfEach {
        first,
        second,
        first_hand,
        second_hand,
        driver,
        control,
    }
}

/// A board for two processors, which are both offloadable, and its seats, but those of groups.
pub(crate) fn two_of_each(rt: &impl Abort, alloc: Global) -> (Board, TwoOfEach)
    ensures processors { result.0.processors ≡ 2 }
    ensures first { IsNewProcessor result.0 0 result.1.first }
    ensures second { IsNewProcessor result.0 1 result.1.second }
    ensures first_hand { AtBoard result.0 result.1.first_hand × MayClaim result.1.first_hand.role
        × ((view result.1.first_hand).running ≡ []) }
    ensures second_hand { AtBoard result.0 result.1.second_hand
        × MayClaim result.1.second_hand.role × ((view result.1.second_hand).running ≡ []) }
    ensures driver { AtBoard result.0 result.1.driver × (result.1.driver.role ≡ Role.Driver) }
    ensures control { AtBoard result.0 result.1.control × (result.1.control.role ≡ Role.Control) }
{
    let shape = Shape::new(2, 0b11, 1, 10, 16, 1000)
        .expect(rt, "within the limits")
        .for_parts();
    let (board, seats) = open_board(alloc, &shape).expect(rt, "memory");
    let two = take_two_apart(rt, &shape, &board, seats);
    (board, two)
}

/// Runs each seat but the group's in a thread of its own, makes all one, and looks.
fn run_parts<R: Threads + Sync>(rt: &R, board: &Board, parts: OneOfEach) -> Outcome
    requires some { 0 < board.now.processors }
    requires processor { IsNewProcessor board.now 0 parts.processor }
    requires hand { AtBoard board.now parts.hand × MayClaim parts.hand.role
        × ((view parts.hand).running ≡ []) × ((view parts.hand).weight ≡ 1) }
    requires group { AtBoard board.now parts.group × ((view parts.group).running ≡ [])
        × ((view parts.group).weight ≡ 1) }
    requires driver { IsNew board.now Role.Driver (all_seats - 4) true false [] parts.driver }
    requires control { IsNew board.now Role.Control 1 false true [] parts.control }
{
    let OneOfEach {
        processor,
        hand,
        group,
        driver,
        control,
    } = parts;
    let (first, second) = thread::join(
        rt,
        move || -> (Done, (Seat, u64))
            requires { IsSync R.row × AtBoard board.now processor × AtBoard board.now hand
                × (processor.role ≡ Role.Processor 0) × MayClaim hand.role
                × (accepted_of (view processor) ≡ []) × (fresh_of (view processor) ≡ None)
                × ((view processor).running ≡ []) × ((view hand).running ≡ [])
                × (own_word (view processor) ≡ 0) }
            ensures { StaysSeat processor result.0.seat × StaysSeat hand result.1.0
                × ((view result.0.seat).running ≡ []) × ((view result.1.0).running ≡ [])
                × (result.0.reports ≤ CALLS) × (result.0.won ≤ CALLS) × (result.1.1 ≤ CALLS) }
        { run_both(rt, board, processor, hand) },
        move || -> (Seat, (Seat, u64))
            requires { IsSync R.row × AtBoard board.now driver × AtBoard board.now control
                × (driver.role ≡ Role.Driver) × (control.role ≡ Role.Control)
                × (0 < board.now.processors) × ((view driver).running ≡ [])
                × ((view control).running ≡ []) }
            ensures { StaysSeat driver result.0 × StaysSeat control result.1.0
                × ((view result.0).running ≡ []) × ((view result.1.0).running ≡ []) }
        { run_rest(rt, board, driver, control) },
    );
    let (done, (hand, hand_won)) = first;
    let (driver, (control, shut)) = second;
    let Done {
        seat: processor,
        accepted,
        reports,
        passed,
        won,
    } = done;
    Outcome {
        accepted,
        shut,
        reports,
        passed,
        won: won + hand_won,
        last: settle(board, control, driver, group, hand, processor),
    }
}

impl Outcome {
    /// All loads agree with what the threads did.
    fn expect(&self, rt: &impl Abort) {
        let LastLoads {
            number,
            accepts,
            turns,
            reports,
        } = self.last;
        let last = [accepts, turns, reports].map(|word| (word / 2, word % 2));
        let ended = number / 4 <= self.reports;
        // it is here, and passed the last grace period that has ended
        let wanted = [(self.accepted, 1), (self.won, 0), (self.passed, 0)];
        // it reported in each that it passed
        let reported = self.passed / 4 + self.passed % 4;
        expect(
            rt,
            "shut, reports, last words, ended",
            (self.shut, self.reports, last, ended),
            (self.accepted, reported, wanted, true),
        );
    }
}

#[test]
fn four_threads_on_one_board(rt: HostRuntime) {
    let (board, parts) = one_of_each(&rt, rt.alloc());
    run_parts(&rt, &board, parts).expect(&rt);
}

/// What was read before and after each step that another seat reads: whether a processor was asked to be offloaded, whether
/// it was urged, and whether there was a halt; and the greatest number asked for.
type Reads = ([(bool, bool); 3], (u64, u64));

/// Makes each step on the words of switches, urging and needs once, with the steps that read it before and after.
fn make_each_step(board: &Board, parts: &mut OneOfEach) -> Reads
    requires some { 0 < board.now.processors }
    requires processor { AtBoard board.now parts.old.processor
        × (parts.old.processor.role ≡ Role.Processor 0) }
    requires driver { AtBoard board.now parts.old.driver × (parts.old.driver.role ≡ Role.Driver) }
    requires control { AtBoard board.now parts.old.control
        × (parts.old.control.role ≡ Role.Control) }
    requires hears { owes_of board.now.offloadable 0 ≡ 1 }
{
    let OneOfEach {
        processor,
        driver,
        control,
        ..
    } = parts;
    let first = asked(board, processor);
    ask(board, control, 0, false);
    let asked = (first, asked(board, processor));
    urge(board, control, 0);
    let first = heard(board, processor);
    let heard = (first, heard(board, processor));
    let first = halted(board, driver);
    halt(board, control);
    let halted = (first, halted(board, driver));
    need(board, processor, 8);
    let first = needed(board, driver);
    need(board, processor, 4);
    ([asked, heard, halted], (first, needed(board, driver)))
}

#[test]
fn told_and_heard(rt: HostRuntime) {
    let (board, mut parts) = one_of_each(&rt, rt.alloc());
    assert!(rt; board.is_offloadable(0));
    let wanted = ([(true, false), (true, false), (false, true)], (8, 8));
    let reads = make_each_step(&board, &mut parts);
    expect(&rt, "asked, heard, halted, needed", reads, wanted);
}
