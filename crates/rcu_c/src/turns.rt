//! Turns of the driver and of groups.

ghost use Rattle.std.specs.Prelude.{◌≡◌, ◌≢◌};
ghost use Rattle.rcu_c.specs.Exports.{Tells, TellsTurn};
ghost use Rattle.rcu_c_slots.specs.Others.{GroupTurnsBy, ReadsHaltBy};

use crate::words::{DriverWords, GroupWords, words_of_driver};
use rcu_c_slots::{Fault, Slot};
use rcu_jobs::DriverTurn;
use std::alloc::Global;

/// `rcuo_driver_turn`: a turn of the driver.
#[unsafe(no_mangle)]
pub extern "C" fn rcuo_slot_driver_turn(
    alloc: Global,
    slot: &mut Slot,
    turn: &mut DriverWords,
) -> u32
    ensures tells { TellsTurn turn.new result slot.old slot.new }
    ensures stays { result ≢ 0 → turn.new ≡ turn.old }
{
    match slot.turn_driver(alloc) {
        Ok(DriverTurn::Spent) => Fault::Spent.number(),
        Ok(done) => {
            *turn = words_of_driver(done);
            0
        }
        Err(fault) => fault.number(),
    }
}

/// `rcuo_halted`: whether a part sees that the runtime was halted.
#[unsafe(no_mangle)]
pub extern "C" fn rcuo_slot_halted(alloc: Global, slot: &mut Slot, halted: &mut bool) -> u32
    ensures tells { Tells ReadsHaltBy (λ seen. halted.new ≡ seen) result slot.old slot.new }
    ensures stays { result ≢ 0 → halted.new ≡ halted.old }
{
    match slot.is_halted(alloc) {
        Ok(seen) => {
            *halted = seen;
            0
        }
        Err(fault) => fault.number(),
    }
}

/// `rcuo_group_turn`: a turn of a group.
#[unsafe(no_mangle)]
pub extern "C" fn rcuo_slot_group_turn(alloc: Global, slot: &mut Slot, turn: &mut GroupWords) -> u32
    ensures tells { Tells GroupTurnsBy
        (λ done.
        (turn.new.took ≡ done.took) × (turn.new.gave ≡ done.gave) × (turn.new.held ≡ done.held))
        result slot.old slot.new }
    ensures stays { result ≢ 0 → turn.new ≡ turn.old }
{
    match slot.turn_group(alloc) {
        Ok(done) => {
            *turn = GroupWords {
                took: done.took,
                gave: done.gave,
                held: done.held,
            };
            0
        }
        Err(fault) => fault.number(),
    }
}
