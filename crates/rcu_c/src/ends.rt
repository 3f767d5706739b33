//! What is left of a runtime that was closed.

ghost use Rattle.std.specs.Prelude.{◌≡◌, ◌≢◌, None};
ghost use Rattle.rcu_c.specs.Exports.{RefusesEndBy, TellsShown};
ghost use Rattle.rcu_c.specs.Words.{AreRecordWords};
ghost use Rattle.rcu_c_slots.specs.Gathers.{HasEnds};
ghost use Rattle.rcu_c_slots.specs.Shows.{ShowsBack, ShowsRan, ShowsReports};

use crate::words::RecordWords;
use rcu_c_slots::{ForeignJob, Slot};
use rcu_jobs::Record;
use std::alloc::Global;

/// `rcuo_next_ran`: the record in place `at` of those of a processor.
#[unsafe(no_mangle)]
pub extern "C" fn rcuo_slot_record(
    alloc: Global,
    slot: &mut Slot,
    processor: u64,
    at: u64,
    kept: &mut RecordWords,
) -> u32
    ensures tells { TellsShown (ShowsRan processor at) (AreRecordWords kept.new) result slot.old
        slot.new }
    ensures stays { result ≢ 0 → kept.new ≡ kept.old }
{
    match slot.ran_at(alloc, processor, at) {
        Ok(
            Record {
                number,
                key: _,
                stamp,
                ready,
                receipt,
            },
        ) => {
            *kept = RecordWords {
                number,
                stamp,
                ready,
                job: receipt,
            };
            0
        }
        Err(fault) => fault.number(),
    }
}

/// `rcuo_next_back`: the job in place `at` of those of a processor that are handed back.
#[unsafe(no_mangle)]
pub extern "C" fn rcuo_slot_back(
    alloc: Global,
    slot: &mut Slot,
    processor: u64,
    at: u64,
    job: &mut ForeignJob,
) -> u32
    ensures tells { TellsShown (ShowsBack processor at) (λ back. job.new ≡ back) result slot.old
        slot.new }
    ensures stays { result ≢ 0 → job.new ≡ job.old }
{
    match slot.back_at(alloc, processor, at) {
        Ok(back) => {
            *job = back;
            0
        }
        Err(fault) => fault.number(),
    }
}

/// `rcuo_reports`: how many counted reports a processor made.
#[unsafe(no_mangle)]
pub extern "C" fn rcuo_slot_reports(
    alloc: Global,
    slot: &mut Slot,
    processor: u64,
    reports: &mut u64,
) -> u32
    ensures tells { TellsShown (ShowsReports processor) (λ many. reports.new ≡ many) result slot.old
        slot.new }
    ensures stays { result ≢ 0 → reports.new ≡ reports.old }
{
    match slot.reports_of(alloc, processor) {
        Ok(many) => {
            *reports = many;
            0
        }
        Err(fault) => fault.number(),
    }
}

/// `rcuo_end`: lets go what is left.
#[unsafe(no_mangle)]
pub extern "C" fn rcuo_slot_end(alloc: Global, slot: &mut Slot) -> u32
    ensures ended { result ≡ 0 → slot.new.held.part.value ≡ None }
    ensures refused { result ≢ 0 → slot.new.held.part.value ≡ slot.old.held.part.value }
    ensures was_closed { result ≡ 0 → HasEnds slot.old.held.part.value }
    ensures why { result ≢ 0 → RefusesEndBy result slot.old }
    ensures reading { slot.new.reading ≡ slot.old.reading }
{
    match slot.end(alloc) {
        Ok(()) => 0,
        Err(fault) => fault.number(),
    }
}
