//! Calls of control.

ghost use Rattle.std.specs.Prelude.{◌≡◌, ◌≢◌, ◌<◌, ◌≤◌};
ghost use Rattle.std.specs.Int.{from_bool};
ghost use Rattle.rcu_numbers.specs.declared.set.TheConstants.{PARTS_PROCESSORS};
ghost use Rattle.rcu_c.specs.Exports.{Refuses, Tells, TellsPoll};
ghost use Rattle.rcu_c_slots.specs.Barriers.{OpensPart};
ghost use Rattle.rcu_c_slots.specs.Others.{HaltsBy, ShutsBy, SwitchesPart};
ghost use Rattle.rcu_c_slots.specs.declared.fault.Fault.TheVariants.{Foreign};

use crate::words::{CountWords, counts_of_words, words_of_counts};
use rcu_c_slots::{Fault, Slot};
use std::alloc::Global;

/// `rcuo_offload` and `rcuo_deoffload`: asks that a processor be offloaded (`on`) or local.
#[unsafe(no_mangle)]
pub extern "C" fn rcuo_slot_switch(alloc: Global, slot: &mut Slot, processor: u64, on: bool) -> u32
    ensures { Tells (SwitchesPart processor (from_bool on)) (λ _. Unit {0}) result slot.old
        slot.new }
{
    match slot.switch(alloc, processor, on) {
        Ok(()) => 0,
        Err(fault) => fault.number(),
    }
}

/// `rcuo_barrier`: opens a barrier.
#[unsafe(no_mangle)]
pub extern "C" fn rcuo_slot_barrier(alloc: Global, slot: &mut Slot, barrier: &mut CountWords) -> u32
    ensures tells { Tells OpensPart
        (λ b. (barrier.new.processors ≡ b.counts.n) × (barrier.new.counts ≡ b.counts.counts)) result
        slot.old slot.new }
    ensures stays { result ≢ 0 → barrier.new ≡ barrier.old }
{
    match slot.barrier(alloc) {
        Ok(opened) => {
            *barrier = words_of_counts(&opened.counts);
            0
        }
        Err(fault) => fault.number(),
    }
}

/// `rcuo_poll`: whether a barrier has passed.
#[unsafe(no_mangle)]
pub extern "C" fn rcuo_slot_poll(
    alloc: Global,
    slot: &mut Slot,
    barrier: &CountWords,
    passed: &mut bool,
) -> u32
    ensures tells { barrier.now.processors ≤ PARTS_PROCESSORS
        → TellsPoll barrier.now passed.new result slot.old slot.new }
    ensures foreign { PARTS_PROCESSORS < barrier.now.processors
        → Refuses Foreign result slot.old slot.new }
    ensures stays { result ≢ 0 → passed.new ≡ passed.old }
{
    let Some(counts) = counts_of_words(barrier) else {
        return Fault::Foreign.number();
    };
    match slot.poll(alloc, counts) {
        Ok(answer) => {
            *passed = answer.is_some();
            0
        }
        Err(fault) => fault.number(),
    }
}

/// `rcuo_shut`: shuts every processor.
#[unsafe(no_mangle)]
pub extern "C" fn rcuo_slot_shut(alloc: Global, slot: &mut Slot, counts: &mut CountWords) -> u32
    ensures tells { Tells ShutsBy
        (λ given. (counts.new.processors ≡ given.n) × (counts.new.counts ≡ given.counts)) result
        slot.old slot.new }
    ensures stays { result ≢ 0 → counts.new ≡ counts.old }
{
    match slot.shut(alloc) {
        Ok(accepted) => {
            *counts = words_of_counts(&accepted);
            0
        }
        Err(fault) => fault.number(),
    }
}

/// `rcuo_halt`: sets the halt word.
#[unsafe(no_mangle)]
pub extern "C" fn rcuo_slot_halt(alloc: Global, slot: &mut Slot) -> u32
    ensures { Tells HaltsBy (λ _. Unit {0}) result slot.old slot.new }
{
    match slot.halt(alloc) {
        Ok(()) => 0,
        Err(fault) => fault.number(),
    }
}
