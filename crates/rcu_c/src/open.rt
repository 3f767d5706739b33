//! Open and close.

ghost use Rattle.std.specs.Prelude.{◌≡◌, ◌≢◌, ◌≤◌, IfNone, IfSome};
ghost use Rattle.rcu_numbers.specs.declared.set.TheConstants.{PARTS_PROCESSORS};
ghost use Rattle.rcu_c.specs.Exports.{IsDoneUnlessForMemory, OpensBy, RefusesCloseBy, RefusesOpenBy, TellsClose};
ghost use Rattle.rcu_c.specs.Exports.{IsInside, IsOutside};
ghost use Rattle.rcu_c.specs.Words.{IsShapeOf, limit_of, offloadable_of, records_kept};
ghost use Rattle.rcu_c_slots.specs.Gathers.{AreOfTheOpen, CanTryClose, StayHeld, StayRead};
ghost use Rattle.rcu_c_slots.specs.Opens.{AreEmpty};

use crate::words::Settings;
use rcu_c_slots::{Fault, PartSlots, close_from, open_into};
use rcu_numbers::{MOST_CALLS, PARTS_PROCESSORS, PartsShape, ProcessorSet};
use rcu_parts::Kept;
use std::alloc::Global;

/// The offloadable processors of these settings, of at most 1,024.
fn offloadable_of(settings: &Settings) -> ProcessorSet
    requires { settings.now.processors ≤ PARTS_PROCESSORS }
    ensures { result ≡ offloadable_of settings.now }
{
    if settings.all {
        ProcessorSet::of_first(settings.processors)
    } else {
        ProcessorSet::of_words(&settings.offloadable)
    }
}

/// How many callbacks each processor accepts in all.
fn limit_of(settings: &Settings) -> u64
    ensures { result ≡ limit_of settings.now }
{
    if settings.limit == 0 {
        MOST_CALLS
    } else {
        settings.limit
    }
}

/// What is kept of the callbacks that ran: every record until the runtime closes, or none.
fn kept_by(settings: &Settings) -> Kept
    ensures { result ≡ records_kept settings.now.records }
{
    if settings.records {
        Kept::Whole
    } else {
        Kept::Nothing
    }
}

/// The shape of these settings; None where one is outside its limits.
fn shape_of(settings: &Settings) -> Option<PartsShape>
    ensures some { IfSome result (λ shape. IsShapeOf settings.now shape) }
    ensures within { IfSome result (λ _. IsInside settings.now) }
    ensures none { IfNone result (IsOutside settings.now) }
{
    if settings.processors > PARTS_PROCESSORS {
        return None;
    }
    PartsShape::new(
        settings.processors,
        &offloadable_of(settings),
        settings.stride,
        settings.blimit,
        settings.qhimark,
        limit_of(settings),
    )
}

/// `rcuo_open`: opens a runtime under a number into empty slots.
#[unsafe(no_mangle)]
pub extern "C" fn rcuo_slot_open(
    alloc: Global,
    settings: &Settings,
    number: u64,
    slots: &mut PartSlots,
) -> u32
    ensures opened { result ≡ 0 → OpensBy settings.now number slots.new }
    ensures empty { result ≡ 0 → AreEmpty slots.old }
    ensures refused { result ≢ 0 → StayHeld slots.old slots.new }
    ensures why { result ≢ 0 → RefusesOpenBy settings.now result slots.old }
    ensures sections { StayRead slots.old slots.new }
{
    let Some(shape) = shape_of(settings) else {
        return Fault::Shape.number();
    };
    match open_into(alloc, &shape, kept_by(settings), number, slots) {
        Ok(()) => 0,
        Err(fault) => fault.number(),
    }
}

/// `rcuo_close`: closes the runtime of these slots.
#[unsafe(no_mangle)]
pub extern "C" fn rcuo_slot_close(alloc: Global, slots: &mut PartSlots) -> u32
    requires owed { AreOfTheOpen slots.old }
    ensures tells { TellsClose result slots.old slots.new }
    ensures memory { CanTryClose slots.old → IsDoneUnlessForMemory result }
    ensures there { result ≡ 0 → CanTryClose slots.old }
    ensures why { result ≢ 0 → RefusesCloseBy result slots.old }
    ensures sections { StayRead slots.old slots.new }
{
    match close_from(alloc, slots) {
        Ok(()) => 0,
        Err(fault) => fault.number(),
    }
}
