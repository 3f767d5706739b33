//! The parts leave their slots.

ghost use Rattle.std.specs.Prelude.{◌≡◌, ◌≢◌, ◌≤◌, None, IfSome, All, [], length, map};
ghost use Rattle.std.specs.Vec.{vec_capacity};
ghost use Rattle.rcu_c_slots.specs.Gathers.{EmptiesEach, EmptiesSlot, HasKind, HasPart, KeepsSlot, TakesOut, lents_in, parts_in};
ghost use Rattle.rcu_c_slots.specs.Parts.{kind_of};
ghost use Rattle.rcu_c_slots.specs.Processors.{lent_processor};
ghost use Rattle.rcu_c_slots.specs.Runs.{lent_hand};
ghost use Rattle.rcu_c_slots.specs.declared.part.Part.TheVariants as part;
ghost use Rattle.rcu_c_slots.specs.declared.part.PartKind.TheVariants as kind;

use crate::job::ForeignJob;
use crate::part::Part;
use crate::slot::Slot;
use rcu_parts::{Driver, Group, Hand, Processor};
use std::alloc::Global;
use std::mem::replace;

/// Takes a processor out of its slot, if there is one.
fn take_processor(alloc: Global, slot: &mut Slot) -> Option<Processor<ForeignJob>>
    requires kind { IfSome slot.old.held.part.value (λ l. kind_of l.part ≡ kind.Processor) }
    ensures takes { TakesOut (λ x. part.Processor (lent_processor x)) result
        slot.old.held.part.value }
    ensures empties { EmptiesSlot slot.old slot.new }
{
    let Some(boxed) = slot.take(alloc) else {
        return None;
    };
    match Box::into_inner(boxed).part {
        Part::Processor(lent) => Some(lent.into_processor()),
        _ => unreachable!(),
    }
}

/// Takes the processors out of their slots, in order.
pub(crate) fn take_processors(
    alloc: Global,
    slots: &mut [Slot],
    out: &mut Vec<Processor<ForeignJob>>,
)
    requires kinds { All (λ l. kind_of l.part ≡ kind.Processor) (lents_in slots.old) }
    requires none { out.old.items ≡ [] }
    requires room { length (lents_in slots.old) ≤ vec_capacity out.old }
    ensures took { map (λ x. part.Processor (lent_processor x)) out.new.items ≡ parts_in slots.old }
    ensures empties { EmptiesEach slots.old slots.new }
{
    for place in 0..slots.len() {
        if let Some(processor) = take_processor(alloc, &mut slots[place]) {
            out.push_reserved(processor);
        }
    }
}

/// Takes a group out of its slot, if there is one.
fn take_group(alloc: Global, slot: &mut Slot) -> Option<Group<ForeignJob>>
    requires kind { IfSome slot.old.held.part.value (λ l. kind_of l.part ≡ kind.Group) }
    ensures takes { TakesOut (λ x. part.Group x) result slot.old.held.part.value }
    ensures empties { EmptiesSlot slot.old slot.new }
{
    let Some(boxed) = slot.take(alloc) else {
        return None;
    };
    match Box::into_inner(boxed).part {
        Part::Group(group) => Some(group),
        _ => unreachable!(),
    }
}

/// Takes the groups out of their slots, in order.
pub(crate) fn take_groups(alloc: Global, slots: &mut [Slot], out: &mut Vec<Group<ForeignJob>>)
    requires kinds { All (λ l. kind_of l.part ≡ kind.Group) (lents_in slots.old) }
    requires none { out.old.items ≡ [] }
    requires room { length (lents_in slots.old) ≤ vec_capacity out.old }
    ensures took { map (λ x. part.Group x) out.new.items ≡ parts_in slots.old }
    ensures empties { EmptiesEach slots.old slots.new }
{
    for place in 0..slots.len() {
        if let Some(group) = take_group(alloc, &mut slots[place]) {
            out.push_reserved(group);
        }
    }
}

/// Takes a hand out of its slot, if there is one.
fn take_hand(alloc: Global, slot: &mut Slot) -> Option<Hand<ForeignJob>>
    requires kind { IfSome slot.old.held.part.value (λ l. kind_of l.part ≡ kind.Hand) }
    ensures takes { TakesOut (λ x. part.Hand (lent_hand x)) result slot.old.held.part.value }
    ensures empties { EmptiesSlot slot.old slot.new }
{
    let Some(boxed) = slot.take(alloc) else {
        return None;
    };
    match Box::into_inner(boxed).part {
        Part::Hand(lent) => Some(lent.into_hand()),
        _ => unreachable!(),
    }
}

/// Takes the hands out of their slots, in order.
pub(crate) fn take_hands(alloc: Global, slots: &mut [Slot], out: &mut Vec<Hand<ForeignJob>>)
    requires kinds { All (λ l. kind_of l.part ≡ kind.Hand) (lents_in slots.old) }
    requires none { out.old.items ≡ [] }
    requires room { length (lents_in slots.old) ≤ vec_capacity out.old }
    ensures took { map (λ x. part.Hand (lent_hand x)) out.new.items ≡ parts_in slots.old }
    ensures empties { EmptiesEach slots.old slots.new }
{
    for place in 0..slots.len() {
        if let Some(hand) = take_hand(alloc, &mut slots[place]) {
            out.push_reserved(hand);
        }
    }
}

/// Takes the driver out of its slot.
pub(crate) fn take_driver(alloc: Global, slot: &mut Slot) -> Driver
    requires there { HasKind kind.Driver slot.old.held.part.value }
    ensures takes { HasPart (part.Driver result) slot.old.held.part.value }
    ensures empties { EmptiesSlot slot.old slot.new }
{
    let Some(boxed) = slot.take(alloc) else {
        unreachable!()
    };
    match Box::into_inner(boxed).part {
        Part::Driver(driver) => driver,
        _ => unreachable!(),
    }
}

/// Takes the part out of control's slot, and leaves the box there.
pub(crate) fn take_part(alloc: Global, slot: &mut Slot) -> Part
    requires there { slot.old.held.part.value ≢ None }
    ensures takes { HasPart result slot.old.held.part.value }
    ensures keeps { KeepsSlot part.Nothing slot.old slot.new }
{
    let Some(mut boxed) = slot.take(alloc) else {
        unreachable!()
    };
    let part = replace(&mut boxed.part, Part::Nothing);
    slot.put(boxed);
    part
}

/// Puts a part into the box of control's slot.
pub(crate) fn put_part(alloc: Global, slot: &mut Slot, whole: Part)
    requires there { HasPart part.Nothing slot.old.held.part.value }
    ensures keeps { KeepsSlot whole slot.old slot.new }
{
    let Some(mut boxed) = slot.take(alloc) else {
        unreachable!()
    };
    boxed.part.fill(whole);
    slot.put(boxed);
}
