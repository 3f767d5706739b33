//! Closing the runtime of some slots.

ghost use Rattle.std.specs.Prelude.{◌≡◌, ◌⊎◌, [], IfErr, IfOk};
ghost use Rattle.std.specs.Vec.{vec_capacity};
ghost use Rattle.rcu_c_slots.specs.Gathers.{AreHeld, AreOfTheOpen, AreReady, CanClose, CanTryClose, Closes, ClosesAgain, ClosesFirst, OwesAgain, ComesTo, EmptiesAll, HasKind, HasPart, IsAllThere, IsThere, KeepsSlot, RefusesClose, StaySlots, StaysSlot, StayRead};
ghost use Rattle.rcu_c_slots.specs.Refusals.{IsWhyNotClosed, RefusesAll, RefusesFirst, RefusesOwn};
ghost use Rattle.rcu_c_slots.specs.declared.fault.Fault.TheVariants.{Memory};
ghost use Rattle.rcu_c_slots.specs.declared.part.Part.TheVariants as part;
ghost use Rattle.rcu_c_slots.specs.declared.part.PartKind.TheVariants as kind;

use crate::checks::{check_each, check_one};
use crate::fault::Fault;
use crate::job::ForeignJob;
use crate::part::{Opening, Part, PartKind};
use crate::slot::{PartSlots, Slot};
use crate::taken::{put_part, take_driver, take_groups, take_hands, take_part, take_processors};
use rcu_parts::{AllParts, Closing, Control, Group, Hand, Parts, Processor, close};
use std::alloc::{AllocError, Global};

/// Room for all parts of an open.
#[derive(Drop)]
struct Reserved {
    processors: Vec<Processor<ForeignJob>>,
    groups: Vec<Group<ForeignJob>>,
    hands: Vec<Hand<ForeignJob>>,
}

/// Finds room for all parts of an open.
fn find_room(alloc: Global, opening: Opening) -> Result<Reserved, AllocError>
    ensures none { IfOk result (λ r.
        (r.processors.items ≡ []) × (r.groups.items ≡ []) × (r.hands.items ≡ [])) }
    ensures processors { IfOk result (λ r. vec_capacity r.processors ≡ opening.processors) }
    ensures groups { IfOk result (λ r. vec_capacity r.groups ≡ opening.groups) }
    ensures hands { IfOk result (λ r. vec_capacity r.hands ≡ opening.hands) }
{
    let processors = Vec::with_capacity(alloc, opening.processors as usize)?;
    let groups = Vec::with_capacity(alloc, opening.groups as usize)?;
    let hands = Vec::with_capacity(alloc, opening.hands as usize)?;
    Ok(Reserved {
        processors,
        groups,
        hands,
    })
}

/// Whether the slot has a part of this kind and of this open.
///
/// # Errors
///
/// It hasn't. Nothing has changed.
fn check_there(
    alloc: Global,
    slot: &mut Slot,
    opening: Opening,
    kind: PartKind,
) -> Result<(), Fault>
    ensures stays { StaysSlot slot.old slot.new }
    ensures there { IfOk result (λ _. IsThere opening kind slot.old.held.part.value) }
    ensures err { IfErr result (λ _.
        slot.old.reading ≡ 0 → IsThere opening kind slot.old.held.part.value → ⊥) }
    ensures unread { IfOk result (λ _. slot.old.reading ≡ 0) }
    ensures why { IfErr result (λ fault. RefusesOwn opening kind fault slot.old) }
{
    match check_one(alloc, slot, opening, 0, kind) {
        Ok(true) => Ok(()),
        Ok(false) => Err(Fault::Empty),
        Err(fault) => Err(fault),
    }
}

/// Whether all parts of an open are in their slots.
///
/// # Errors
///
/// They aren't. Nothing has changed.
fn check_all(alloc: Global, slots: &mut PartSlots, opening: Opening) -> Result<(), Fault>
    ensures stay { StaySlots slots.old slots.new }
    ensures ready { IfOk result (λ _. AreReady opening slots.new) }
    ensures err { IfErr result (λ _. IsAllThere opening slots.old → ⊥) }
    ensures there { IfOk result (λ _. IsAllThere opening slots.old) }
    ensures why { IfErr result (λ fault. RefusesAll opening fault slots.old) }
{
    if let Err(fault) = check_there(alloc, &mut slots.control, opening, PartKind::Control) {
        return Err(fault);
    }
    if let Err(fault) = check_there(alloc, &mut slots.driver, opening, PartKind::Driver) {
        return Err(fault);
    }
    let many = opening.processors;
    if let Err(fault) = check_each(
        alloc,
        &mut slots.processors,
        opening,
        PartKind::Processor,
        many,
    ) {
        return Err(fault);
    }
    if let Err(fault) = check_each(
        alloc,
        &mut slots.groups,
        opening,
        PartKind::Group,
        opening.groups,
    ) {
        return Err(fault);
    }
    check_each(
        alloc,
        &mut slots.hands,
        opening,
        PartKind::Hand,
        opening.hands,
    )
}

/// Takes control out of its slot, and leaves the box there.
fn take_control(alloc: Global, slot: &mut Slot) -> Control
    requires there { HasKind kind.Control slot.old.held.part.value }
    ensures takes { HasPart (part.Control result) slot.old.held.part.value }
    ensures keeps { KeepsSlot part.Nothing slot.old slot.new }
{
    match take_part(alloc, slot) {
        Part::Control(control) => control,
        _ => unreachable!(),
    }
}

/// Takes all parts out of their slots. The box of control's part stays.
fn take_all(
    alloc: Global,
    slots: &mut PartSlots,
    opening: Opening,
    room: Reserved,
) -> Parts<ForeignJob>
    requires ready { AreReady opening slots.old }
    requires none { (room.processors.items ≡ []) × (room.groups.items ≡ [])
        × (room.hands.items ≡ []) }
    requires processors { vec_capacity room.processors ≡ opening.processors }
    requires groups { vec_capacity room.groups ≡ opening.groups }
    requires hands { vec_capacity room.hands ≡ opening.hands }
    ensures held { AreHeld opening result slots.old }
    ensures emptied { EmptiesAll slots.old slots.new }
{
    let Reserved {
        mut processors,
        mut groups,
        mut hands,
    } = room;
    take_processors(alloc, &mut slots.processors, &mut processors);
    take_groups(alloc, &mut slots.groups, &mut groups);
    take_hands(alloc, &mut slots.hands, &mut hands);
    let driver = take_driver(alloc, &mut slots.driver);
    let control = take_control(alloc, &mut slots.control);
    AllParts {
        processors,
        driver,
        groups,
        hands,
        control,
    }
}

/// Closes parts, and puts what is left of them, or for want of memory all of them, into the box of control's slot.
fn close_parts(alloc: Global, slot: &mut Slot, parts: Parts<ForeignJob>) -> Result<(), Fault>
    requires owed { CanClose parts }
    requires there { HasPart part.Nothing slot.old.held.part.value }
    ensures closes { ComesTo parts result slot.new }
    ensures reading { slot.new.reading ≡ slot.old.reading }
{
    match close(alloc, parts) {
        Ok(closed) => {
            put_part(alloc, slot, Part::Closed(closed));
            Ok(())
        }
        Err(closing) => {
            put_part(alloc, slot, Part::Closing(closing));
            Err(Fault::Memory)
        }
    }
}

/// Tries again to close the parts that control's slot has after a close for which there was no memory.
fn close_again(alloc: Global, slot: &mut Slot, closing: Closing<ForeignJob>) -> Result<(), Fault>
    requires owed { CanClose closing.parts }
    requires there { HasPart part.Nothing slot.old.held.part.value }
    ensures closes { ComesTo closing.parts result slot.new }
    ensures reading { slot.new.reading ≡ slot.old.reading }
{
    match closing.again(alloc) {
        Ok(closed) => {
            put_part(alloc, slot, Part::Closed(closed));
            Ok(())
        }
        Err(closing) => {
            put_part(alloc, slot, Part::Closing(closing));
            Err(Fault::Memory)
        }
    }
}

/// Closes the parts of an open, if all are in their slots.
fn close_first(alloc: Global, slots: &mut PartSlots, opening: Opening) -> Result<(), Fault>
    requires owed { AreOfTheOpen slots.old }
    ensures closes { ClosesFirst result slots.old slots.new }
    ensures memory { IsAllThere opening slots.old → IfErr result (λ fault. fault ≡ Memory) }
    ensures there { IfOk result (λ _. IsAllThere opening slots.old) }
    ensures why { IfErr result (λ fault. RefusesFirst opening fault slots.old) }
{
    if let Err(fault) = check_all(alloc, slots, opening) {
        return Err(fault);
    }
    let Ok(room) = find_room(alloc, opening) else {
        return Err(Fault::Memory);
    };
    let parts = take_all(alloc, slots, opening, room);
    close_parts(alloc, &mut slots.control, parts)
}

/// As [`close_from`] where control's slot has the parts already.
fn close_kept(alloc: Global, slot: &mut Slot) -> Result<(), Fault>
    requires kind { HasKind kind.Closing slot.old.held.part.value }
    requires owed { OwesAgain slot.old }
    ensures closes { ClosesAgain result slot.old slot.new }
    ensures reading { slot.new.reading ≡ slot.old.reading }
{
    match take_part(alloc, slot) {
        Part::Closing(closing) => close_again(alloc, slot, closing),
        _ => unreachable!(),
    }
}

/// Closes the runtime whose parts are in these slots: control's slot then has what is left of it, and the others are empty.
///
/// # Errors
///
/// A slot is empty, or has a part that doesn't belong there, or a read section is open: then no slot has changed. Or want of
/// memory: then no slot has changed, or control's slot has all parts, and the others are empty; a further close tries again.
pub fn close_from(alloc: Global, slots: &mut PartSlots) -> Result<(), Fault>
    requires owed { AreOfTheOpen slots.old }
    ensures closes { Closes result slots.old slots.new
        ⊎ ClosesAgain result slots.old.control slots.new.control
        ⊎ RefusesClose result slots.old slots.new }
    ensures memory { CanTryClose slots.old → IfErr result (λ fault. fault ≡ Memory) }
    ensures there { IfOk result (λ _. CanTryClose slots.old) }
    ensures why { IfErr result (λ fault. IsWhyNotClosed fault slots.old) }
    ensures sections { StayRead slots.old slots.new }
{
    let Some((opening, kind)) = slots.control.peek(alloc) else {
        return Err(Fault::Empty);
    };
    match kind {
        PartKind::Closing => close_kept(alloc, &mut slots.control),
        PartKind::Control => close_first(alloc, slots, opening),
        _ => Err(Fault::Other),
    }
}
