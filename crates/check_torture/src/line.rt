//! The line of counters.

ghost use Rattle.std.specs.Prelude.{◌≡◌, IfOk, string_bytes};
ghost use Rattle.check_torture.specs.Line.{barriers_text, calls_text, line_text, others_text, sections_text};

use crate::counters::Counters;
use std::alloc::{AllocError, Global};

/// What became of the calls.
fn calls(alloc: Global, counters: &Counters) -> Result<String, AllocError>
    ensures { IfOk result (λ s. string_bytes s ≡ calls_text counters.now) }
{
    let Counters {
        callbacks,
        lazy,
        ran,
        back,
        refused,
        ..
    } = *counters;
    format!(in alloc; "callbacks {callbacks} lazy {lazy} ran {ran} back {back} refused {refused}")
}

/// What the read sections saw.
fn sections(alloc: Global, counters: &Counters) -> Result<String, AllocError>
    ensures { IfOk result (λ s. string_bytes s ≡ sections_text counters.now) }
{
    let Counters {
        current,
        removed,
        freed,
        ..
    } = *counters;
    let all = u128::from(current) + u128::from(removed) + u128::from(freed);
    format!(in alloc; "sections {all} current {current} removed {removed} freed {freed}")
}

/// Barriers.
fn barriers(alloc: Global, counters: &Counters) -> Result<String, AllocError>
    ensures { IfOk result (λ s. string_bytes s ≡ barriers_text counters.now) }
{
    let Counters {
        barriers,
        tickets,
        passed,
        drained,
        ..
    } = *counters;
    format!(in alloc; "barriers {barriers} tickets {tickets} passed {passed} drained {drained}")
}

/// Barriers, switches, reports, leaves and histories.
fn others(alloc: Global, counters: &Counters) -> Result<String, AllocError>
    ensures { IfOk result (λ s. string_bytes s ≡ others_text counters.now) }
{
    let Counters {
        switches,
        reports,
        leaves,
        histories,
        ..
    } = *counters;
    let barriers = barriers(alloc, counters)?;
    format!(in alloc;
        "{barriers} switches {switches} reports {reports} leaves {leaves} histories {histories}"
    )
}

/// The line of so many runs, with how many errors they met.
pub fn line(
    alloc: Global,
    runs: u64,
    counters: &Counters,
    errors: u64,
) -> Result<String, AllocError>
    ensures { IfOk result (λ s. string_bytes s ≡ line_text runs counters.now errors) }
{
    let calls = calls(alloc, counters)?;
    let sections = sections(alloc, counters)?;
    let others = others(alloc, counters)?;
    format!(in alloc; "runs {runs} {calls} {sections} {others} errors {errors}\n")
}
