//! The parts of a runtime, turn by turn.

ghost use Rattle.std.specs.Prelude.{◌≡◌, [], ◌∷◌};
ghost use Rattle.rcu_board.specs.Opened.{AreNew, IsNewHand, IsNewProcessor, is_offloadable};
ghost use Rattle.rcu_board.specs.Roles.{MayNeed, cpu_of_role};
ghost use Rattle.rcu_board.specs.Seats.{view, AtBoard};
ghost use Rattle.rcu_board.specs.declared.board.Role.{Role};
ghost use Rattle.rcu_board.specs.Frames.{IsBare};
ghost use Rattle.rcu_lanes.specs.Ends.{items_put};
ghost use Rattle.rcu_part_processor.specs.Opened.{IsEmpty};
ghost use Rattle.std.specs.Arc.{arc_value};

use crate::opening::{Work, call, job, last, open_local, open_offloaded};
use crate::same::assert_same;
use crate::steps::Step::{Calls, Deoffload, Drive, Lazy, Offload, Report, Show, Tick};
use crate::steps::{Step, play};
use rcu_board::{Board, Role, Seat, Seats, need, open_board};
use rcu_jobs::{DriverTurn, HandTurn, Mode, Refused, Stop, Ticket};
use rcu_lanes::{Rear, ruled_lane};
use rcu_lists::Parcel;
use rcu_numbers::{PartsShape, Shape};
use rcu_part_control::Driver;
use rcu_part_lists::{Held, LaneLimits, ProcessorLists};
use rcu_parts::{Hand, Kept, Processor};
use std::alloc::Global;
use std::process::Abort;
use std::sync::Arc;

/// The one seat of a list.
fn only(rt: &impl Abort, mut seats: Vec<Seat>) -> Seat
    ensures { seats.items ≡ result ∷ [] }
{
    assert!(rt; seats.len() == 1);
    seats.pop().expect(rt, "a seat")
}

/// Seats of a board for one offloadable processor.
#[derive(Drop)]
struct OneOfEach {
    processor: Seat,
    hand: Seat,
    group: Seat,
    driver: Seat,
}

fn take_apart(rt: &impl Abort, shape: &PartsShape, board: &Board, seats: Seats) -> OneOfEach
    requires { AreNew shape.now board.now seats }
    ensures processor { IsNewProcessor board.now 0 result.processor }
    ensures hand { IsNewHand board.now (cpu_of_role result.hand.role) result.hand }
    ensures group { AtBoard board.now result.group × MayNeed result.group.role }
    ensures driver { AtBoard board.now result.driver × (result.driver.role ≡ Role.Driver)
        × IsBare (view result.driver) }
{
    let Seats {
        processors,
        hands,
        groups,
        driver,
        control: _,
    } = seats;
    OneOfEach {
        processor: only(rt, processors),
        hand: only(rt, hands),
        group: only(rt, groups),
        driver,
    }
}

/// The lists of processor 0, which has accepted nothing.
fn no_lists(
    rt: &impl Abort,
    alloc: Global,
    board: &Board,
    rear: Rear<Parcel<Work>, LaneLimits>,
    qhimark: u64,
) -> ProcessorLists<Work>
    requires { items_put rear ≡ [] }
    ensures { IsEmpty (is_offloadable board.now.offloadable 0) result }
{
    ProcessorLists::new(alloc, rear, board.is_offloadable(0), qhimark).expect(rt, "memory")
}

/// The tickets of the first two calls.
const FIRST: Ticket = Ticket { cpu: 0, number: 0 };

const SECOND: Ticket = Ticket { cpu: 0, number: 1 };

/// Whether a refusal is that of the limit, and its number.
fn of_the_limit(refused: Refused<Work>) -> (bool, u64) {
    (matches!(&refused, Refused::Limit(_)), refused.number())
}

/// How a call is refused. None where it is not, or memory is wanted.
fn refusal(alloc: Global, processor: &mut Processor<Work>) -> Option<(bool, u64)> {
    let refused = processor.call_rcu(1, job(alloc, 9)?).err()?;
    Some(of_the_limit(refused))
}

static TWO_CALLS: [Step; 3] = [
    Calls(1, 1, FIRST),
    Lazy(1, SECOND),
    Show(Mode::Local, 2, 0, 2),
];

#[test]
fn local_processor_accepts_up_to_its_limit(rt: HostRuntime) {
    let mut all = open_local(&rt, rt.alloc(), 10, 2);
    play(&rt, rt.alloc(), &mut all.parts, &TWO_CALLS);
    let processor = last(&rt, &mut all.parts.processors);
    assert_same(&rt, refusal(rt.alloc(), processor), Some((true, 4)));
    let _reading = processor.reading();
    play(
        &rt,
        rt.alloc(),
        &mut all.parts,
        &[Show(Mode::Local, 2, 0, 2), Report(None)],
    );
}

static ONE_HELD_BACK: [Step; 3] = [
    Calls(1, 1, FIRST),
    Lazy(1, SECOND),
    Show(Mode::Offloaded, 2, 1, 0),
];

#[test]
fn offloaded_processor_holds_a_lazy_call_back(rt: HostRuntime) {
    let mut all = open_offloaded(&rt, rt.alloc(), 10, 16, 2);
    play(&rt, rt.alloc(), &mut all.parts, &ONE_HELD_BACK);
}

/// A processor, its hand, which draws from the processor's own lane, and the driver.
struct ByHand {
    processor: Processor<Work>,
    hand: Hand<Work>,
    driver: Driver,
}

impl Drop for ByHand {
    fn drop(self) {
        let ByHand {
            processor: _,
            hand: _,
            driver: _,
        } = self;
    }
}

/// A board for three parts.
fn for_three(
    rt: &impl Abort,
    alloc: Global,
    board: Board,
) -> (Arc<Board, Global>, Arc<Board, Global>, Arc<Board, Global>)
    ensures first { arc_value result.0 ≡ board }
    ensures second { arc_value result.1 ≡ board }
    ensures third { arc_value result.2 ≡ board }
{
    let first = Arc::new(alloc, board).expect(rt, "memory");
    let second = Arc::try_clone(&first).expect(rt, "a board");
    let third = Arc::try_clone(&first).expect(rt, "a board");
    (first, second, third)
}

/// The parts of one processor, made of their seats. The group asked for grace period 4.
fn made_by_hand(rt: &impl Abort, alloc: Global) -> ByHand {
    let shape = Shape::new(1, 1, 1, 10, 16, 2)
        .expect(rt, "a shape")
        .for_parts();
    let (board, seats) = open_board(alloc, &shape).expect(rt, "a board");
    let OneOfEach {
        processor,
        hand,
        mut group,
        driver,
    } = take_apart(rt, &shape, &board, seats);
    need(&board, &mut group, 4);
    let Role::Hand(cpu) = hand.role() else {
        panic!(rt; "another role");
    };
    let (front, rear) = ruled_lane(alloc).expect(rt, "a lane");
    let lists = no_lists(rt, alloc, &board, rear, shape.qhimark);
    let (board, drivers, hands) = for_three(rt, alloc, board);
    let held = Held::new(alloc, front);
    ByHand {
        driver: Driver::new(drivers, driver),
        hand: Hand::new(alloc, &shape, hands, hand, cpu, held, Kept::Whole),
        processor: Processor::new(alloc, &shape, board, processor, 0, lists, Kept::Whole),
    }
}

/// What the hand's turns answered, before a call, after it, and after its grace period.
fn turns_by_hand(
    rt: &impl Abort,
    alloc: Global,
    processor: &mut Processor<Work>,
    hand: &mut Hand<Work>,
    driver: &mut Driver,
) -> [HandTurn; 3] {
    let before = hand.turn();
    let ticket = call(alloc, processor, 1, 7);
    assert_same(rt, ticket, Some(FIRST));
    let early = hand.turn();
    driver.turn();
    processor.quiescent();
    driver.turn();
    [before, early, hand.turn()]
}

#[test]
fn hand_runs_after_the_grace_period(rt: HostRuntime) {
    let turn = |ran, stop| HandTurn { ran, stop };
    let mut parts = made_by_hand(&rt, rt.alloc());
    let ByHand {
        processor,
        hand,
        driver,
    } = &mut parts;
    let turns = turns_by_hand(&rt, rt.alloc(), processor, hand, driver);
    let wanted = [
        turn(0, Stop::Empty),
        turn(0, Stop::Turn),
        turn(1, Stop::Empty),
    ];
    assert_same(&rt, turns, wanted);
}

/// A Local processor that runs at most two callbacks in each tick: none before a grace period, and then all in order.
static RUN_IN_TICKS: [Step; 8] = [
    Calls(1, 3, Ticket { cpu: 0, number: 2 }),
    Tick(1, 0, Stop::Empty),
    Drive(DriverTurn::Started(1)),
    Report(Some(1)),
    Drive(DriverTurn::Ended(4)),
    Tick(2, 2, Stop::Limit),
    Tick(3, 1, Stop::Empty),
    Tick(4, 0, Stop::Empty),
];

#[test]
fn local_processor_runs_in_its_tick(rt: HostRuntime) {
    let mut all = open_local(&rt, rt.alloc(), 2, 3);
    play(&rt, rt.alloc(), &mut all.parts, &RUN_IN_TICKS);
}

/// An offloaded processor with a lazy call is asked off, and asked on again: it releases its bypass list in the tick, and the
/// mode is Deoffloading until the hand has run what went over the lane.
static OFF_AND_ON: [Step; 9] = [
    Lazy(1, FIRST),
    Tick(1, 0, Stop::Empty),
    Show(Mode::Offloaded, 1, 1, 0),
    Deoffload,
    Tick(1, 0, Stop::Empty),
    Show(Mode::Deoffloading, 1, 0, 0),
    Offload,
    Tick(1, 0, Stop::Empty),
    Show(Mode::Offloaded, 1, 0, 0),
];

#[test]
fn processor_leaves_as_it_is_asked(rt: HostRuntime) {
    let mut all = open_offloaded(&rt, rt.alloc(), 10, 16, 3);
    play(&rt, rt.alloc(), &mut all.parts, &OFF_AND_ON);
}
