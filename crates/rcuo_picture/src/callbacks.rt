//! The rows of callbacks: where each waits, and how it ends.

use crate::pen::Pen;
use crate::places::{Place, place_of};
use crate::rows::{COLUMN, left_of, middle_of};
use crate::runs::{Run, Step};
use rcuo_script::{Line, Verb};
use std::io::Write;

/// The height of a callback's bar.
const BAR: u64 = 8;

/// How a callback's row ends.
#[derive(Clone, Copy)]
enum End {
    /// The processor ran it, in its tick.
    Tick,
    /// The hand ran it.
    Hand,
}

/// Where a processor's callback waits after a step.
fn place_after(step: &Step, cpu: u64, number: u64) -> Option<Place> {
    let shown = step.shown.get(cpu as usize)?;
    place_of(number, shown)
}

/// Whether a processor's callback ran in a step or before.
fn has_run(step: &Step, cpu: u64, number: u64) -> bool {
    match step.shown.get(cpu as usize) {
        Some(shown) => number < shown.ran,
        None => false,
    }
}

/// Who ran what ran in this step.
fn end_of(step: &Step) -> End {
    match step.line {
        Some(
            Line::Ran {
                verb: Verb::Hand,
                ..
            },
        ) => End::Hand,
        _ => End::Tick,
    }
}

/// Writes the bar of one column.
fn write_bar<W: Write>(place: Place, column: usize, y: u64, pen: &mut Pen<W>) {
    let class = match place {
        Place::Own => "own",
        Place::Bypass => "bypass",
        Place::Group => "group",
    };
    let top = y.saturating_sub(BAR / 2);
    pen.rect(class, (middle_of(column), top), (COLUMN, BAR));
}

/// Writes the end of a callback that ran.
fn write_end<W: Write>(end: End, column: usize, y: u64, pen: &mut Pen<W>) {
    let x = middle_of(column);
    match end {
        End::Tick => pen.circle(x, y),
        End::Hand => pen.ran(x, y, "M0 -6L6 0L0 6L-6 0Z"),
    }
}

/// Writes the end of a callback that is handed back when the runtime is closed.
fn write_back<W: Write>(run: &Run, y: u64, pen: &mut Pen<W>) {
    let x = middle_of(run.steps.len());
    pen.rect("back", (x.saturating_sub(5), y.saturating_sub(5)), (10, 10));
}

/// Writes where a callback waits after each command, and how it ends.
fn write_bars<W: Write>(run: &Run, cpu: u64, number: u64, y: u64, pen: &mut Pen<W>) {
    for (column, step) in run.steps.iter().enumerate() {
        if has_run(step, cpu, number) {
            write_end(end_of(step), column, y, pen);
            return;
        }
        if let Some(place) = place_after(step, cpu, number) {
            write_bar(place, column, y, pen);
        }
    }
    // (where commands are left out, what becomes of it is beyond the picture)
    if run.commands <= run.steps.len() {
        write_back(run, y, pen);
    }
}

/// Writes a callback's row, whose middle is at `y`, with its name.
pub fn write_callback<W: Write>(run: &Run, cpu: u64, number: u64, y: u64, pen: &mut Pen<W>) {
    let left = left_of(0).saturating_sub(8);
    pen.text("number", left, y.saturating_add(3), number);
    write_bars(run, cpu, number, y, pen);
}
