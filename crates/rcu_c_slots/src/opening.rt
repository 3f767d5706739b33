//! Opening a runtime into slots.

ghost use Rattle.std.specs.Prelude.{◌≡◌, ◌≢◌, [], IfErr, IfOk, length, true, false};
ghost use Rattle.rcu_c_slots.specs.Gathers.{StayHeld, StayRead, held_in, lent_of, lents_in, sections_in};
ghost use Rattle.rcu_c_slots.specs.Opens.{AreAt, AreEmpty, AreRising, BoxesAll, OpensBoxes, OpensInto, RefusesOpen, TakesAt, boxed, lent_groups, lent_hands, lent_processors, places_of};

use crate::fault::Fault;
use crate::job::ForeignJob;
use crate::lent::{LentHand, LentProcessor};
use crate::part::{Lent, Opening, Part};
use crate::slot::{PartSlots, Slot};
use rcu_numbers::PartsShape;
use rcu_parts::{AllParts, Group, Hand, Kept, Parts, Processor, open_with};
use std::alloc::{AllocError, Global};
use std::collections::VecDeque;

/// Parts in boxes of their own, of each kind in rising order.
#[derive(Drop)]
struct Boxes {
    control: Box<Lent>,
    driver: Box<Lent>,
    processors: VecDeque<Box<Lent>>,
    groups: VecDeque<Box<Lent>>,
    hands: VecDeque<Box<Lent>>,
}

/// Boxes a part of this open, for its place.
fn box_part(alloc: Global, opening: Opening, at: u64, part: Part) -> Result<Box<Lent>, AllocError>
    ensures { IfOk result (λ boxed. boxed.value ≡ lent_of opening at part) }
{
    Ok(Box::new(alloc, Lent { opening, at, part })?)
}

fn box_processors(
    alloc: Global,
    opening: Opening,
    parts: Vec<Processor<ForeignJob>>,
) -> Result<VecDeque<Box<Lent>>, AllocError>
    ensures { IfOk result (λ boxes. boxed boxes.items ≡ lent_processors opening parts.items) }
{
    let mut boxes = VecDeque::new(alloc);
    for part in parts {
        let at = part.cpu();
        boxes.push_back(box_part(
            alloc,
            opening,
            at,
            Part::Processor(LentProcessor::new(part)),
        )?)?;
    }
    Ok(boxes)
}

fn box_groups(
    alloc: Global,
    opening: Opening,
    parts: Vec<Group<ForeignJob>>,
) -> Result<VecDeque<Box<Lent>>, AllocError>
    ensures { IfOk result (λ boxes. boxed boxes.items ≡ lent_groups opening parts.items) }
{
    let mut boxes = VecDeque::new(alloc);
    for part in parts {
        let at = part.number();
        boxes.push_back(box_part(alloc, opening, at, Part::Group(part))?)?;
    }
    Ok(boxes)
}

fn box_hands(
    alloc: Global,
    opening: Opening,
    parts: Vec<Hand<ForeignJob>>,
) -> Result<VecDeque<Box<Lent>>, AllocError>
    ensures { IfOk result (λ boxes. boxed boxes.items ≡ lent_hands opening parts.items) }
{
    let mut boxes = VecDeque::new(alloc);
    for part in parts {
        let at = part.cpu();
        boxes.push_back(box_part(alloc, opening, at, Part::Hand(LentHand::new(part)))?)?;
    }
    Ok(boxes)
}

/// Boxes all parts of an open.
fn box_all(alloc: Global, number: u64, parts: Parts<ForeignJob>) -> Result<Boxes, AllocError>
    ensures { IfOk result (λ boxes. BoxesAll number parts boxes) }
{
    let AllParts {
        processors,
        driver,
        groups,
        hands,
        control,
    } = parts;
    let opening = Opening {
        number,
        processors: processors.len() as u64,
        groups: groups.len() as u64,
        hands: hands.len() as u64,
    };
    Ok(Boxes {
        processors: box_processors(alloc, opening, processors)?,
        groups: box_groups(alloc, opening, groups)?,
        hands: box_hands(alloc, opening, hands)?,
        driver: box_part(alloc, opening, 0, Part::Driver(driver))?,
        control: box_part(alloc, opening, 0, Part::Control(control))?,
    })
}

/// Opens a runtime, and boxes its parts.
fn open_boxes(
    alloc: Global,
    shape: &PartsShape,
    kept: Kept,
    number: u64,
) -> Result<Boxes, AllocError>
    ensures { IfOk result (λ boxes. OpensBoxes kept shape.now number boxes) }
{
    match open_with::<ForeignJob>(alloc, shape, kept) {
        Ok(parts) => box_all(alloc, number, parts),
        Err(_) => Err(AllocError),
    }
}

/// Takes the first if it belongs at this place.
fn next_at(boxes: &mut VecDeque<Box<Lent>>, place: u64) -> Option<Box<Lent>>
    ensures { TakesAt place result (boxed boxes.old.items) (boxed boxes.new.items) }
{
    if boxes.front()?.at != place {
        return None;
    }
    boxes.pop_front()
}

/// Puts each part into the slot of its place.
fn put_each(slots: &mut [Slot], boxes: &mut VecDeque<Box<Lent>>)
    requires empty { lents_in slots.old ≡ [] }
    requires rising { AreRising 0 (length slots.old) (places_of (boxed boxes.old.items)) }
    ensures put { lents_in slots.new ≡ boxed boxes.old.items }
    ensures places { AreAt 0 (held_in slots.new) }
    ensures sections { sections_in slots.new ≡ sections_in slots.old }
{
    for place in 0..slots.len() {
        if let Some(boxed) = next_at(boxes, place as u64) {
            slots[place].put(boxed);
        }
    }
}

/// Whether all slots are empty.
fn are_empty(slots: &[Slot]) -> bool
    ensures empty { result ≡ true → lents_in slots.now ≡ [] }
    ensures full { result ≡ false → lents_in slots.now ≢ [] }
{
    for place in 0..slots.len() {
        if slots[place].is_full() {
            return false;
        }
    }
    true
}

/// Opens a runtime under a number into empty slots: each processor's part at its number, and each group's and each hand's.
///
/// # Errors
///
/// A slot is full; or want of memory. No slot has changed.
pub fn open_into(
    alloc: Global,
    shape: &PartsShape,
    kept: Kept,
    number: u64,
    slots: &mut PartSlots,
) -> Result<(), Fault>
    ensures opened { IfOk result (λ _. OpensInto kept shape.now number slots.new) }
    ensures empty { IfOk result (λ _. AreEmpty slots.old) }
    ensures refused { IfErr result (λ _. StayHeld slots.old slots.new) }
    ensures why { IfErr result (λ fault. RefusesOpen fault slots.old) }
    ensures sections { StayRead slots.old slots.new }
{
    if slots.control.is_full() || slots.driver.is_full() {
        return Err(Fault::Full);
    }
    if !are_empty(&slots.processors) || !are_empty(&slots.groups) || !are_empty(&slots.hands) {
        return Err(Fault::Full);
    }
    let Ok(boxes) = open_boxes(alloc, shape, kept, number) else {
        return Err(Fault::Memory);
    };
    let Boxes {
        control,
        driver,
        mut processors,
        mut groups,
        mut hands,
    } = boxes;
    put_each(&mut slots.processors, &mut processors);
    put_each(&mut slots.groups, &mut groups);
    put_each(&mut slots.hands, &mut hands);
    slots.driver.put(driver);
    slots.control.put(control);
    Ok(())
}
