//! What the marks and colours of a picture mean.

use crate::marks::{Mark, write_mark};
use crate::pen::Pen;
use crate::rows::LEFT;
use std::io::Write;

/// The height of the legend.
pub const LEGEND_HEIGHT: u64 = 140;

/// How far apart its lines are, and its columns.
const LINE: u64 = 20;

const WIDE: u64 = 250;

/// What each mark means.
static MARKS: [(Mark, &str); 11] = [
    (Mark::Call, "call_rcu"),
    (Mark::Lazy, "call_rcu_lazy"),
    (Mark::Counted, "a report that counted"),
    (Mark::Full, "a turn that did something"),
    (Mark::Bare, "a turn that did nothing"),
    (Mark::Refused, "refused"),
    (Mark::On, "asked to offload"),
    (Mark::Off, "asked not to"),
    (Mark::Left, "leave"),
    (Mark::Returned, "return"),
    (Mark::Shut, "shut"),
];

/// What each colour means, by its class.
static COLOURS: [(&str, &str); 7] = [
    ("own", "waits in the processor's own list"),
    ("bypass", "waits in the bypass list"),
    ("group", "with its group or hand"),
    ("period", "a grace period"),
    ("barrier", "a barrier, until it has passed"),
    ("away", "a processor that is away"),
    ("back", "handed back at close"),
];

/// How a callback's run is shown, by its path.
static RUNS: [(&str, &str); 2] = [
    ("M-5 0A5 5 0 1 0 5 0A5 5 0 1 0 -5 0Z", "run by the tick"),
    ("M0 -6L6 0L0 6L-6 0Z", "run by the hand"),
];

/// What the strip below a processor's row means, by its class.
static MODES: [(&str, &str); 4] = [
    ("Local", "mode Local"),
    ("Offloading", "mode Offloading"),
    ("Offloaded", "mode Offloaded"),
    ("Deoffloading", "mode Deoffloading"),
];

/// How many entries a column of the legend has.
const LINES: usize = 6;

/// Writes a text of the legend.
fn write_text<W: Write>(text: &str, x: u64, y: u64, pen: &mut Pen<W>) {
    pen.text("legend", x.saturating_add(16), y.saturating_add(4), text);
}

/// Where the `at`-th entry of the legend stands, which begins at `top`.
fn place(at: usize, top: u64) -> (u64, u64) {
    let (column, line) = ((at / LINES) as u64, (at % LINES) as u64);
    (
        LEFT.saturating_add(column.saturating_mul(WIDE)),
        top.saturating_add(line.saturating_mul(LINE)),
    )
}

/// Writes a colour of this height and what it means.
fn write_colour<W: Write>(
    class: &str,
    text: &str,
    height: u64,
    (x, y): (u64, u64),
    pen: &mut Pen<W>,
) {
    let (left, above) = (x.saturating_sub(8), y.saturating_sub(height / 2));
    pen.rect(class, (left, above), (16, height));
    write_text(text, x, y, pen);
}

/// Writes what the colours of callbacks' rows mean, and those of the bands.
fn write_colours<W: Write>(top: u64, pen: &mut Pen<W>) {
    for (at, (class, text)) in COLOURS.iter().enumerate() {
        write_colour(class, text, 8, place(at, top), pen);
    }
}

/// Writes what the marks mean.
fn write_marks<W: Write>(top: u64, pen: &mut Pen<W>) {
    for (at, (mark, text)) in MARKS.iter().enumerate() {
        let (x, y) = place(at.saturating_add(7), top);
        write_mark(*mark, x, y, pen);
        write_text(text, x, y, pen);
    }
}

/// Writes how a callback's run is shown.
fn write_runs<W: Write>(top: u64, pen: &mut Pen<W>) {
    for (at, (path, text)) in RUNS.iter().enumerate() {
        let (x, y) = place(at.saturating_add(18), top);
        pen.ran(x, y, path);
        write_text(text, x, y, pen);
    }
}

/// Writes what the strip below a processor's row means.
fn write_modes<W: Write>(top: u64, pen: &mut Pen<W>) {
    for (at, (class, text)) in MODES.iter().enumerate() {
        write_colour(class, text, 3, place(at.saturating_add(20), top), pen);
    }
}

/// Writes the legend from `top` on.
pub fn write_legend<W: Write>(top: u64, pen: &mut Pen<W>) {
    write_colours(top, pen);
    write_marks(top, pen);
    write_runs(top, pen);
    write_modes(top, pen);
}
