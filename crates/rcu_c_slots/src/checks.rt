//! What close tests of slots before it takes anything.

ghost use Rattle.std.specs.Prelude.{◌≡◌, IfErr, IfOk, IfSome, IfNone, None, is_some};
ghost use Rattle.rcu_c_slots.specs.Gathers.{AreChecked, AreUnread, BelongsAt, IsInPlace, IsOfOpen, StaysSlot, held_in, sections_in};
ghost use Rattle.rcu_c_slots.specs.Parts.{kind_of};
ghost use Rattle.rcu_c_slots.specs.Refusals.{IsMisplaced, RefusesEach, RefusesSlot};

use crate::fault::Fault;
use crate::part::{Lent, Opening, PartKind};
use crate::slot::Slot;
use std::alloc::Global;

impl Lent {
    /// Whether it is of this kind and of this open, for this place.
    ///
    /// # Errors
    ///
    /// It isn't: first the kind is tested.
    fn belongs(&self, opening: Opening, at: u64, kind: PartKind) -> Result<(), Fault>
        ensures kind { IfOk result (λ _. kind_of self.now.part ≡ kind) }
        ensures place { IfOk result (λ _. (self.now.opening ≡ opening) × (self.now.at ≡ at)) }
        ensures err { IfErr result (λ _. BelongsAt opening at kind self.now → ⊥) }
        ensures why { IfErr result (λ fault. IsMisplaced opening at kind fault self.now) }
    {
        if self.part.kind() != kind {
            return Err(self.part.not_resting());
        }
        if self.opening != opening || self.at != at {
            return Err(Fault::Foreign);
        }
        Ok(())
    }
}

/// Whether the slot has a part, which is then one of this kind, of this open and for this place.
///
/// # Errors
///
/// A read section is open, or the part doesn't belong there. Nothing has changed.
pub(crate) fn check_one(
    alloc: Global,
    slot: &mut Slot,
    opening: Opening,
    at: u64,
    kind: PartKind,
) -> Result<bool, Fault>
    ensures stays { StaysSlot slot.old slot.new }
    ensures full { IfOk result (λ full. full ≡ is_some slot.old.held.part.value) }
    ensures kind { IfOk result (λ _. IfSome slot.old.held.part.value (λ l. kind_of l.part ≡ kind)) }
    ensures place { IfOk result (λ _. IsInPlace opening at slot.old.held.part.value) }
    ensures err { IfErr result (λ _.
        slot.old.reading ≡ 0 → IfSome slot.old.held.part.value (BelongsAt opening at kind) → ⊥) }
    ensures unread { IfOk result (λ _. slot.old.reading ≡ 0) }
    ensures why { IfErr result (λ fault. RefusesSlot opening at kind fault slot.old) }
{
    if slot.reading != 0 {
        return Err(Fault::Reading);
    }
    let Some(boxed) = slot.take(alloc) else {
        return Ok(false);
    };
    let answer = boxed.belongs(opening, at, kind);
    slot.put(boxed);
    match answer {
        Ok(()) => Ok(true),
        Err(fault) => Err(fault),
    }
}

/// Whether the parts in slots are so many of this kind, of this open, each in its place.
///
/// # Errors
///
/// One doesn't belong there, or there are fewer (an empty slot) or more. Nothing has changed.
pub(crate) fn check_each(
    alloc: Global,
    slots: &mut [Slot],
    opening: Opening,
    kind: PartKind,
    many: u64,
) -> Result<(), Fault>
    ensures stay { held_in slots.new ≡ held_in slots.old }
    ensures checked { IfOk result (λ _. AreChecked opening kind many (held_in slots.old)) }
    ensures err { IfErr result (λ _.
        AreUnread slots.old → AreChecked opening kind many (held_in slots.old) → ⊥) }
    ensures unread { IfOk result (λ _. AreUnread slots.old) }
    ensures why { IfErr result (λ fault. RefusesEach opening kind many fault slots.old) }
    ensures sections { sections_in slots.new ≡ sections_in slots.old }
{
    let mut found: u64 = 0;
    for place in 0..slots.len() {
        match check_one(alloc, &mut slots[place], opening, place as u64, kind) {
            Ok(full) => found += u64::from(full),
            Err(fault) => return Err(fault),
        }
    }
    if found < many {
        return Err(Fault::Empty);
    }
    if found > many {
        return Err(Fault::Foreign);
    }
    Ok(())
}

impl Slot {
    /// The open and the kind of the slot's part, if there is one.
    pub(crate) fn peek(&mut self, alloc: Global) -> Option<(Opening, PartKind)>
        ensures stays { StaysSlot self.old self.new }
        ensures none { IfNone result (self.old.held.part.value ≡ None) }
        ensures some { IfSome result (λ t. IsOfOpen t.0 t.1 self.old.held.part.value) }
    {
        let Some(boxed) = self.take(alloc) else {
            return None;
        };
        let seen = (boxed.opening, boxed.part.kind());
        self.put(boxed);
        Some(seen)
    }
}
