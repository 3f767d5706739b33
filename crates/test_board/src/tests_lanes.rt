//! Lanes, in one thread and between two.

ghost use Rattle.std.specs.Prelude.{◌≡◌, ◌<◌, ◌≤◌, All};
ghost use Rattle.rcu_lanes.specs.Ends.{SameRear, SameFront, items_put, items_drawn};

use crate::tests::expect;
use rcu_lanes::{Draw, Front, Rear, Rest, Rule, lane, rest, ruled_lane};
use std::alloc::{AllocError, Global};
use std::process::Abort;
use std::sync::Wait;
use std::thread;

/// What a lane's puts, draws and takes answered, each in order.
type Answers = ([Result<(), u64>; 3], [Draw<u64>; 3], [Option<u64>; 3]);

/// Draws from a lane with nothing in it, puts 1, 2 and 3, draws twice, and takes what is left.
fn put_draw_take(rt: &impl Abort, alloc: Global) -> Answers {
    let (mut front, mut rear) = lane(alloc).expect(rt, "memory");
    let early = front.draw();
    let put = [rear.put(1u64), rear.put(2), rear.put(3)];
    let drawn = [early, front.draw(), front.draw()];
    let mut left = rest(front, rear);
    let left = [left.take(), left.take(), left.take()];
    (put, drawn, left)
}

#[test]
fn lane_order(rt: HostRuntime) {
    let wanted = (
        [Ok(()), Ok(()), Ok(())],
        [Draw::Empty, Draw::Got(1), Draw::Got(2)],
        [Some(3), None, None],
    );
    let answers = put_draw_take(&rt, rt.alloc());
    expect(&rt, "put, drawn, left", answers, wanted);
}

/// Puts the numbers below `count` in order, and counts the refusals. What a refused put hands back is put again.
fn put_all<R: Wait>(rt: &R, mut rear: Rear<u64>, count: u64) -> (Rear<u64>, u64)
    ensures { SameRear rear result.0 }
{
    let mut item = 0u64;
    let mut refusals = 0u64;
    for _ in rt.forever() {
        if item >= count {
            break;
        }
        match rear.put(item) {
            Ok(()) => item += 1,
            Err(back) => {
                item = back;
                refusals = refusals.wrapping_add(1);
            }
        }
    }
    (rear, refusals)
}

/// Draws until `count` items came, or one that is out of order. Answers how many came in order.
fn draw_all<R: Wait>(rt: &R, mut front: Front<u64>, count: u64) -> (Front<u64>, u64)
    ensures { SameFront front result.0 }
{
    let mut next = 0u64;
    for _ in rt.forever() {
        if next >= count {
            break;
        }
        match front.draw() {
            Draw::Got(item) if item == next => next += 1,
            Draw::Got(_) => break,
            Draw::Empty => thread::yield_now(),
            Draw::Again => {}
        }
    }
    (front, next)
}

/// Takes all that is left, from `next` on. Answers the number after the last that was in order.
fn take_all(mut left: Rest<u64>, next: u64, count: u64) -> u64 {
    for item in next..count {
        if left.take() != Some(item) {
            return item;
        }
    }
    if left.take() == None { count } else { 0 }
}

const CROSSING: u64 = 100_000;

const DRAWN: u64 = 90_000;

#[test]
fn from_one_thread_to_another(rt: HostRuntime) {
    let (front, rear) = lane(rt.alloc()).expect(&rt, "memory");
    let runtime = &rt;
    let ((rear, _refusals), (front, drawn)) = thread::join(
        runtime,
        move ||
            ensures { SameRear rear result.0 }
        { put_all(runtime, rear, CROSSING) },
        move ||
            ensures { SameFront front result.0 }
        { draw_all(runtime, front, DRAWN) },
    );
    let left = take_all(rest(front, rear), DRAWN, CROSSING);
    expect(&rt, "drawn, left", [drawn, left], [DRAWN, CROSSING]);
}

// `rt try --test --fail-alloc N` refuses the allocation N alone. The first three are those of `lane`; each further one is of
// a put, which hands its item back and leaves the lane as it was, and the next put finds the room.
#[test]
fn a_refused_put_hands_its_item_back(rt: HostRuntime) {
    let (front, rear) = lane(rt.alloc()).expect(&rt, "memory");
    let (rear, refusals) = put_all(&rt, rear, 1000);
    let left = take_all(rest(front, rear), 0, 1000);
    expect(&rt, "at most one refusal", refusals <= 1, true);
    expect(&rt, "left", left, 1000);
}

type Call = Box<dyn FnOnce() -> u64 + Send>;

#[derive(Drop)]
struct Work {
    call: Call,
    ghost callable: { pre call },
}

#[derive(Drop)]
struct Batch<J> {
    number: u64,
    jobs: Vec<J>,
}

/// The numbers of the batches rise.
#[derive(Drop)]
struct Rising;

impl<J> Rule<Batch<J>> for Rising {
    ghost use Rattle.std.specs.Prelude.{All, ◌<◌};

    ghost allows = { λ before batch. All (λ earlier. earlier.number < batch.number) before };
}

fn put_batch(rear: &mut Rear<Batch<Work>, Rising>, number: u64, jobs: Vec<Work>) -> bool
    requires { All (λ earlier. earlier.number < number) (items_put rear.old) }
    ensures lane { SameRear rear.old rear.new }
    ensures rising { All (λ earlier. earlier.number ≤ number) (items_put rear.new) }
{
    rear.put(Batch { number, jobs }).is_ok()
}

/// Waits for the next batch. Its number is above all that were drawn.
fn draw_batch<R: Wait>(rt: &R, front: &mut Front<Batch<Work>, Rising>) -> Batch<Work>
    ensures lane { SameFront front.old front.new }
    ensures rising { All (λ earlier. earlier.number < result.number) (items_drawn front.old) }
{
    for _ in rt.forever() {
        match front.draw() {
            Draw::Got(batch) => return batch,
            Draw::Empty => thread::yield_now(),
            Draw::Again => {}
        }
    }
    unreachable!()
}

/// Runs the jobs in order. Their answers are the last digits of the result.
fn run_batch(batch: Batch<Work>, digits: u64) -> u64 {
    let mut digits = digits;
    for job in batch.jobs {
        let Work { call } = job;
        digits = digits.wrapping_mul(10).wrapping_add(call());
    }
    digits
}

/// A job that gives this number.
fn giving(alloc: Global, answer: u64) -> Result<Work, AllocError> {
    let call: Call = Box::new(alloc, move || answer)?;
    Ok(Work { call })
}

/// Three jobs, which give the numbers after `before`.
fn three(rt: &impl Abort, alloc: Global, before: u64) -> Vec<Work> {
    let mut jobs = Vec::new(alloc);
    for next in 1..4u64 {
        let job = giving(alloc, before.wrapping_add(next)).expect(rt, "memory");
        jobs.push(job).expect(rt, "memory");
    }
    jobs
}

#[test]
fn batches_of_boxed_jobs(rt: HostRuntime) {
    let ends = ruled_lane::<Batch<Work>, Rising>(rt.alloc());
    let (mut front, mut rear) = ends.expect(&rt, "memory");
    let early = three(&rt, rt.alloc(), 0);
    let late = three(&rt, rt.alloc(), 3);
    let put = [
        put_batch(&mut rear, 2, early),
        put_batch(&mut rear, 5, late),
    ];
    // else the draws would wait for ever
    expect(&rt, "put", put, [true, true]);
    let runtime = &rt;
    let (digits, ()) = thread::join(
        runtime,
        move || {
            let early = draw_batch(runtime, &mut front);
            let late = draw_batch(runtime, &mut front);
            run_batch(late, run_batch(early, 0))
        },
        || (),
    );
    drop(rear);
    expect(&rt, "digits", digits, 123456);
}
