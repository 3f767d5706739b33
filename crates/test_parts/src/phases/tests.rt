//! Rows of docs/specification/rows.md in threads: "Gate tests in threads", "Words, seats and lanes" and "Barriers".

use crate::opening::Work;
use crate::phases::lines::Line::{
    Await, AwaitToPoll, Call, CallWaiting, Deoffload, Drive, Groups, Hands, Next, Open, Poll,
    Raise, RaisePolled, Report, Tick,
};
use crate::phases::lines::{Line, phases_of};
use crate::phases::phase::{Answer, Reply};
use crate::phases::played::played;
use crate::phases::player::Played;
use crate::same::assert_same;
use rcu_jobs::{Closed, Stop, Ticked, Ticket};
use rcu_numbers::Shape;
use std::alloc::Global;
use std::process::Abort;
use std::thread::Threads;

/// What these lines leave of the parts of one processor, which is offloadable if so asked.
fn played_lines<R: Abort + Threads + Sync>(
    rt: &R,
    alloc: Global,
    offloadable: bool,
    lines: &[Line],
) -> Played<Work> {
    let shape = Shape::new(1, u32::from(offloadable), 1, 10, 10000, 100);
    played(rt, alloc, shape, phases_of(rt, alloc, lines))
}

/// That the records of the only processor have these keys and receipts.
fn assert_receipts(rt: &impl Abort, closed: &Closed<Work>, wanted: &[(u64, u64)]) {
    assert_same(rt, closed.ran.len(), 1);
    let ran = closed.ran.first().expect(rt, "records");
    assert_same(rt, ran.len(), wanted.len());
    for (record, wanted) in ran.iter().zip(wanted) {
        assert_same(rt, (record.key, record.receipt), *wanted);
    }
}

/// Adds a value so often.
fn add_often<T: Copy>(rt: &impl Abort, values: &mut Vec<T>, many: usize, value: T) {
    for _ in 0..many {
        values.push(value).expect(rt, "memory");
    }
}

/// These values in order, each so often.
fn repeated<T: Copy>(rt: &impl Abort, alloc: Global, rows: &[(usize, T)]) -> Vec<T> {
    let mut values = Vec::new(alloc);
    for row in rows {
        add_often(rt, &mut values, row.0, row.1);
    }
    values
}

static CALL_BESIDE: [Line; 16] = [
    CallWaiting(7),
    Next,
    Groups(1),
    Next,
    Drive,
    Next,
    Report,
    Next,
    Drive,
    Next,
    Groups(1),
    Next,
    Hands(1),
    Await,
    Call(1, 8),
    Raise,
];

static CALL_BESIDE_ANSWERS: [(usize, Answer); 3] = [
    (1, Answer::Accepted(Ticket { cpu: 0, number: 0 })),
    (1, Answer::Reported(Some(1))),
    (1, Answer::Accepted(Ticket { cpu: 0, number: 1 })),
];

#[test]
fn call_beside_a_running_job(rt: HostRuntime) {
    let played = played_lines(&rt, rt.alloc(), true, &CALL_BESIDE);
    let wanted = repeated(&rt, rt.alloc(), &CALL_BESIDE_ANSWERS);
    assert_same(&rt, played.answers.as_slice(), wanted.as_slice());
    assert_receipts(&rt, &played.closed, &[(7, 1)]);
}

static HAND_CLAIM: [Line; 32] = [
    CallWaiting(7),
    Next,
    Groups(1),
    Next,
    Drive,
    Next,
    Report,
    Next,
    Drive,
    Next,
    Groups(1),
    Next,
    Deoffload,
    Next,
    Tick(1),
    Call(0, 8),
    Tick(1),
    Next,
    Drive,
    Next,
    Report,
    Next,
    Drive,
    Next,
    Tick(1),
    Next,
    Hands(1),
    Await,
    Tick(20),
    Raise,
    Next,
    Tick(1),
];

static HAND_CLAIM_ANSWERS: [(usize, Answer); 8] = [
    (1, Answer::Accepted(Ticket { cpu: 0, number: 0 })),
    (1, Answer::Reported(Some(1))),
    (
        1,
        Answer::Ticked(Ticked {
            ran: 0,
            stop: Stop::Empty,
        }),
    ),
    (1, Answer::Accepted(Ticket { cpu: 0, number: 1 })),
    (
        1,
        Answer::Ticked(Ticked {
            ran: 0,
            stop: Stop::Empty,
        }),
    ),
    (1, Answer::Reported(Some(5))),
    (
        21,
        Answer::Ticked(Ticked {
            ran: 0,
            stop: Stop::Turn,
        }),
    ),
    (
        1,
        Answer::Ticked(Ticked {
            ran: 1,
            stop: Stop::Empty,
        }),
    ),
];

#[test]
fn hand_claim_lasts(rt: HostRuntime) {
    let played = played_lines(&rt, rt.alloc(), true, &HAND_CLAIM);
    let wanted = repeated(&rt, rt.alloc(), &HAND_CLAIM_ANSWERS);
    assert_same(&rt, played.answers.as_slice(), wanted.as_slice());
    assert_receipts(&rt, &played.closed, &[(7, 1), (8, 8)]);
}

static LOCAL_CLAIM: [Line; 16] = [
    CallWaiting(7),
    Tick(1),
    Next,
    Open,
    Drive,
    Next,
    Report,
    Next,
    Drive,
    Next,
    Tick(1),
    AwaitToPoll,
    Poll(20),
    RaisePolled,
    Next,
    Poll(1),
];

static LOCAL_CLAIM_REPLIES: [(usize, Reply); 3] = [
    (1, Reply::Opened),
    (20, Reply::Waits),
    (1, Reply::Passed),
];

#[test]
fn local_claim_lasts(rt: HostRuntime) {
    let played = played_lines(&rt, rt.alloc(), false, &LOCAL_CLAIM);
    let wanted = repeated(&rt, rt.alloc(), &LOCAL_CLAIM_REPLIES);
    assert_same(&rt, played.replies.as_slice(), wanted.as_slice());
    assert_receipts(&rt, &played.closed, &[(7, 1)]);
}
