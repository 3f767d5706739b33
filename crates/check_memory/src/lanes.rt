//! The scenarios of a lane and of a board.

ghost use Rattle.std.specs.Prelude.{IfOk};
ghost use Rattle.rcu_lanes.specs.Ends.{SameFront, SameLane, SameRear};

use crate::growth::{Broken, Growth, Refusals, refused_again, stands};
use crate::machine::shape;
use rcu_board::open_board;
use rcu_lanes::{Draw, Front, Rear, Rest, lane, rest};
use rcu_numbers::Shape;
use std::alloc::Global;

/// How many items are put: more than a lane begins with places.
const ITEMS: u64 = 100;

/// How many are drawn by the other end.
const DRAWN: u64 = 10;

/// A new lane.
fn open_lane(alloc: Global, refusals: &mut Refusals) -> Result<(Front<u64>, Rear<u64>), Broken>
    ensures lane { IfOk result (λ ends. SameLane ends.0 ends.1) }
{
    if let Ok(ends) = lane(alloc) {
        return Ok(ends);
    }
    refusals.note(Growth::Lane)?;
    match lane(alloc) {
        Ok(ends) => Ok(ends),
        Err(_) => Err(refused_again(Growth::Lane)),
    }
}

/// Puts an item, again where it came back.
fn put(refusals: &mut Refusals, rear: &mut Rear<u64>, item: u64) -> Result<(), Broken>
    ensures lane { SameRear rear.old rear.new }
{
    let Err(back) = rear.put(item) else {
        return Ok(());
    };
    refusals.note_same(Growth::LanePut, back == item, "another item came back")?;
    stands(rear.put(back).is_ok(), Growth::LanePut, "refused again")
}

/// Puts all items, in order.
fn put_all(refusals: &mut Refusals, rear: &mut Rear<u64>) -> Result<(), Broken>
    ensures lane { SameRear rear.old rear.new }
{
    for item in 0..ITEMS {
        put(refusals, rear, item)?;
    }
    Ok(())
}

/// Draws the first items, in order.
fn draw_first(front: &mut Front<u64>) -> Result<(), Broken>
    ensures lane { SameFront front.old front.new }
{
    for item in 0..DRAWN {
        stands(
            front.draw() == Draw::Got(item),
            Growth::LanePut,
            "an item isn't in its place",
        )?;
    }
    Ok(())
}

/// Puts all items, and draws the first of them.
fn cross(
    refusals: &mut Refusals,
    front: &mut Front<u64>,
    rear: &mut Rear<u64>,
) -> Result<(), Broken>
    ensures lane { SameFront front.old front.new × SameRear rear.old rear.new }
{
    put_all(refusals, rear)?;
    draw_first(front)
}

/// The lane still has the items from `DRAWN` on, in order.
fn check_left(mut left: Rest<u64>) -> Result<(), Broken> {
    for item in DRAWN..ITEMS {
        stands(
            left.take() == Some(item),
            Growth::LanePut,
            "an item isn't in its place",
        )?;
    }
    stands(
        left.take().is_none(),
        Growth::LanePut,
        "an item is there twice",
    )
}

/// The scenario of a lane: items put, some drawn, and the rest taken.
pub fn play_lanes(alloc: Global) -> Result<Refusals, Broken> {
    let mut refusals = Refusals::new();
    let (mut front, mut rear) = open_lane(alloc, &mut refusals)?;
    cross(&mut refusals, &mut front, &mut rear)?;
    check_left(rest(front, rear))?;
    Ok(refusals)
}

/// Whether a board can be opened.
fn is_opened(alloc: Global, shape: &Shape) -> bool {
    open_board(alloc, &shape.for_parts()).is_ok()
}

/// The scenario of a board.
pub fn play_board(alloc: Global) -> Result<Refusals, Broken> {
    let mut refusals = Refusals::new();
    let shape = shape().ok_or(Broken {
        at: Growth::OpenBoard,
        what: "no shape",
    })?;
    if !is_opened(alloc, &shape) {
        refusals.note(Growth::OpenBoard)?;
        stands(is_opened(alloc, &shape), Growth::OpenBoard, "refused again")?;
    }
    Ok(refusals)
}
