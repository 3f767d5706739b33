//! Rows of docs/specification/rows.md in threads: "A stop after any turn", and `passed-tickets`.

use crate::opening::{Work, made_job};
use crate::phases::phase::{Act, Move, Phase, Reply, Step};
use crate::phases::played::played;
use crate::same::assert_same;
use rcu_jobs::{Closed, Ticket};
use rcu_numbers::Shape;
use std::alloc::Global;
use std::process::Abort;
use std::thread::Threads;

/// A call of a processor at its turn of this number: every second one is lazy. The job has the number as its key.
fn call_of(rt: &impl Abort, alloc: Global, turn: u64) -> Act<Work> {
    let job = made_job(rt, alloc, turn);
    let moment = turn / 4;
    if turn % 2 == 0 {
        return Act::Call { moment, job };
    }
    Act::Lazy { moment, job }
}

/// What a processor does next.
fn add_act(rt: &impl Abort, steps: &mut Vec<Step<Work>>, cpu: usize, act: Act<Work>) {
    steps.push(Step::On { cpu, act }).expect(rt, "memory");
}

/// The turn of this number of each of so many processors: it calls, if so asked, reports, and ticks.
fn add_turn(
    rt: &impl Abort,
    alloc: Global,
    steps: &mut Vec<Step<Work>>,
    processors: usize,
    turn: u64,
    calls: bool,
) {
    for cpu in 0..processors {
        if calls {
            add_act(rt, steps, cpu, call_of(rt, alloc, turn));
        }
        add_act(rt, steps, cpu, Act::Report);
        add_act(rt, steps, cpu, Act::Tick { moment: turn / 4 });
    }
}

/// Adds so many turns of each of so many processors. The processors call in the first of them.
fn add_turns(
    rt: &impl Abort,
    alloc: Global,
    steps: &mut Vec<Step<Work>>,
    processors: usize,
    turns: u64,
    calls: u64,
) {
    for turn in 0..turns {
        add_turn(rt, alloc, steps, processors, turn, turn < calls);
    }
}

/// What the driver and control do next.
fn add_move(rt: &impl Abort, moves: &mut Vec<Move>, next: Move) {
    moves.push(next).expect(rt, "memory");
}

/// Adds so many turns of the driver, after each of which control polls if so asked.
fn add_drives(rt: &impl Abort, moves: &mut Vec<Move>, turns: u64, polls: bool) {
    for _ in 0..turns {
        add_move(rt, moves, Move::Drive);
        if polls {
            add_move(rt, moves, Move::Poll);
        }
    }
}

/// A phase in which each of so many processors, and each other part but the driver, takes so many turns. The processors call in
/// the first of them.
fn turns_but_drives(
    rt: &impl Abort,
    alloc: Global,
    processors: usize,
    turns: u64,
    calls: u64,
) -> Phase<Work> {
    let mut phase = Phase::new(alloc);
    phase.group_turns = turns;
    phase.hand_turns = turns;
    add_turns(rt, alloc, &mut phase.steps, processors, turns, calls);
    phase
}

/// A phase in which each of so many processors, and each other part, takes so many turns. The processors call in the first
/// of them.
fn turns(rt: &impl Abort, alloc: Global, processors: usize, turns: u64, calls: u64) -> Phase<Work> {
    let mut phase = turns_but_drives(rt, alloc, processors, turns, calls);
    add_drives(rt, &mut phase.moves, turns, false);
    phase
}

/// Whether of processor `cpu`, which accepted jobs of the keys 0, 1, .., so many, the first have records, in order, and the
/// others come back, in order.
fn is_whole(closed: &Closed<Work>, cpu: usize, accepted: u64) -> bool {
    let (Some(ran), Some(back)) = (closed.ran.get(cpu), closed.back.get(cpu)) else {
        return false;
    };
    let mut number: u64 = 0;
    for record in ran.iter() {
        if (record.number, record.key, record.receipt) != (number, number, number) {
            return false;
        }
        number = number.saturating_add(1);
    }
    for job in back.iter() {
        if job.key != number {
            return false;
        }
        number = number.saturating_add(1);
    }
    number == accepted
}

/// Whether of each of so many processors the end is whole, as `is_whole`.
fn are_whole(closed: &Closed<Work>, processors: usize, accepted: u64) -> bool {
    for cpu in 0..processors {
        if !is_whole(closed, cpu, accepted) {
            return false;
        }
    }
    true
}

/// The next phase.
fn add_phase(rt: &impl Abort, phases: &mut Vec<Phase<Work>>, phase: Phase<Work>) {
    phases.push(phase).expect(rt, "memory");
}

/// That the ends are whole where in one phase each of so many processors, and each other part, takes so many turns. The
/// processors call in each.
fn assert_whole<R: Abort + Threads + Sync>(
    rt: &R,
    alloc: Global,
    shape: Option<Shape>,
    processors: usize,
    many: u64,
) {
    let mut phases = Vec::new(alloc);
    add_phase(rt, &mut phases, turns(rt, alloc, processors, many, many));
    let played = played(rt, alloc, shape, phases);
    let whole = are_whole(&played.closed, processors, many);
    assert_same(rt, (many, whole), (many, true));
}

// Each part has a thread of its own here.
#[test]
fn cut_threads(rt: HostRuntime) {
    let shape = Shape::new(1, 1, 1, 10, 10000, 100);
    for many in 0..=40 {
        assert_whole(&rt, rt.alloc(), shape, 1, many);
    }
}

// Two of the processors are offloadable, in two groups.
#[test]
fn cut_threads_of_four_processors(rt: HostRuntime) {
    let shape = Shape::new(4, 0b0110, 2, 3, 5, 100);
    for many in 0..=40 {
        assert_whole(&rt, rt.alloc(), shape, 4, many);
    }
}

/// How many processors the row `passed-tickets` has, and how many tickets of each.
const PROCESSORS: usize = 4;

const TICKETS: u64 = 3;

/// The tickets of the first callbacks of each processor.
static FIRST_TICKETS: [Ticket; 12] = [
    Ticket { cpu: 0, number: 0 },
    Ticket { cpu: 0, number: 1 },
    Ticket { cpu: 0, number: 2 },
    Ticket { cpu: 1, number: 0 },
    Ticket { cpu: 1, number: 1 },
    Ticket { cpu: 1, number: 2 },
    Ticket { cpu: 2, number: 0 },
    Ticket { cpu: 2, number: 1 },
    Ticket { cpu: 2, number: 2 },
    Ticket { cpu: 3, number: 0 },
    Ticket { cpu: 3, number: 1 },
    Ticket { cpu: 3, number: 2 },
];

/// A phase of many turns, in which control opens a barrier with the tickets and polls it after each turn of the driver.
fn polled_turns(rt: &impl Abort, alloc: Global) -> Phase<Work> {
    let tickets = Vec::from_slice(alloc, &FIRST_TICKETS).expect(rt, "memory");
    let mut phase = turns_but_drives(rt, alloc, PROCESSORS, 200, 20);
    add_move(rt, &mut phase.moves, Move::Open(tickets));
    add_drives(rt, &mut phase.moves, 200, true);
    phase
}

/// A phase in which control polls.
fn one_poll(rt: &impl Abort, alloc: Global) -> Phase<Work> {
    let mut phase = Phase::new(alloc);
    add_move(rt, &mut phase.moves, Move::Poll);
    phase
}

/// The phases of the row: the calls of the tickets; many turns with a barrier that has them; then as many phases of one turn as
/// always suffice, and one more poll.
fn ticket_phases(rt: &impl Abort, alloc: Global) -> Vec<Phase<Work>> {
    let mut phases = Vec::new(alloc);
    add_phase(
        rt,
        &mut phases,
        turns(rt, alloc, PROCESSORS, TICKETS, TICKETS),
    );
    add_phase(rt, &mut phases, polled_turns(rt, alloc));
    for _ in 0..20 {
        add_phase(rt, &mut phases, turns(rt, alloc, PROCESSORS, 1, 0));
    }
    add_phase(rt, &mut phases, one_poll(rt, alloc));
    phases
}

/// Whether control's barrier was opened, and passed at last, and once it had passed never waited again.
fn has_passed(replies: &[Reply]) -> bool {
    let mut passed = false;
    for reply in replies.iter().skip(1) {
        match *reply {
            Reply::Passed => passed = true,
            Reply::Waits if !passed => {}
            _ => return false,
        }
    }
    passed && replies.first() == Some(&Reply::Opened)
}

/// That the callbacks of these tickets ran.
fn assert_all_ran(rt: &impl Abort, closed: &Closed<Work>, tickets: &[Ticket]) {
    for ticket in tickets {
        let ran = closed.ran.get(ticket.cpu as usize).expect(rt, "records");
        let found = ran.iter().any(|record| record.number == ticket.number);
        assert_same(rt, (*ticket, found), (*ticket, true));
    }
}

#[test]
fn passed_tickets(rt: HostRuntime) {
    let shape = Shape::new(4, 0b1110, 2, 10, 10000, 100);
    let played = played(&rt, rt.alloc(), shape, ticket_phases(&rt, rt.alloc()));
    assert_same(&rt, has_passed(played.replies.as_slice()), true);
    assert_all_ran(&rt, &played.closed, &FIRST_TICKETS);
}
