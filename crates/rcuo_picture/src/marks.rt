//! The marks of the parts: what each command does, in the row of the part that does it.

use crate::pen::Pen;
use crate::rows::{Row, middle_of};
use rcu_jobs::DriverTurn;
use rcuo_script::{Line, Verb};
use std::io::Write;

/// What stands for a command in the row of its part.
#[derive(Clone, Copy)]
pub enum Mark {
    /// A plain call.
    Call,
    /// A lazy call.
    Lazy,
    /// A report that counted.
    Counted,
    /// A turn that moved or ran something, or a barrier that has passed.
    Full,
    /// A turn that moved or ran nothing, a report that counted nothing, or a barrier that was opened or waits.
    Bare,
    /// A call that was refused.
    Refused,
    /// A switch that is asked for: to offload, or not to.
    On,
    Off,
    /// A processor left, and is away.
    Left,
    /// A processor that was away is back.
    Returned,
    /// All processors are shut.
    Shut,
}

/// A turn that did something, or didn't.
fn turn(is_full: bool) -> Mark {
    if is_full { Mark::Full } else { Mark::Bare }
}

/// The row of a turn of this kind.
fn row_of(verb: Verb, place: u64) -> Row {
    match verb {
        Verb::Group => Row::Group(place),
        Verb::Hand => Row::Hand(place),
        _ => Row::Processor(place),
    }
}

/// The mark of a call, or of a switch that is asked for.
fn asked(verb: Verb) -> Mark {
    match verb {
        Verb::Lazy => Mark::Lazy,
        Verb::Offload => Mark::On,
        Verb::Deoffload => Mark::Off,
        _ => Mark::Call,
    }
}

/// The mark of an answer, and the row in which it stands.
pub fn mark_of(line: &Line) -> (Row, Mark) {
    match line {
        Line::Number { verb, cpu, .. } | Line::Asked { verb, cpu } => {
            (Row::Processor(*cpu), asked(*verb))
        }
        Line::Left { cpu } => (Row::Processor(*cpu), Mark::Left),
        Line::Returned { cpu } => (Row::Processor(*cpu), Mark::Returned),
        Line::Refused { verb, place, .. } => (row_of(*verb, *place), Mark::Refused),
        Line::Counted { cpu, .. } => (Row::Processor(*cpu), Mark::Counted),
        Line::Nothing { cpu } => (Row::Processor(*cpu), Mark::Bare),
        Line::Ran { verb, cpu, ran } => (row_of(*verb, *cpu), turn(*ran > 0)),
        Line::Group { group, took, gave } => (Row::Group(*group), turn(*took > 0 || *gave > 0)),
        Line::Driver(DriverTurn::Started(_) | DriverTurn::Ended(_)) => (Row::Driver, Mark::Full),
        Line::Driver(_) => (Row::Driver, Mark::Bare),
        Line::Passed => (Row::Control, Mark::Full),
        Line::Opened | Line::Waits | Line::NoBarrier => (Row::Control, Mark::Bare),
        Line::Shut(_) => (Row::Control, Mark::Shut),
    }
}

/// How a mark is drawn.
fn shape_of(mark: Mark) -> &'static str {
    match mark {
        Mark::Call => "<path class=\"full\" d=\"M-5 -5H5L0 5Z\"/>",
        Mark::Lazy => "<path class=\"bare\" d=\"M-5 -5H5L0 5Z\"/>",
        Mark::Counted => "<path class=\"report\" d=\"M0 -8V8\"/>",
        Mark::Full => "<circle class=\"full\" r=\"4\"/>",
        Mark::Bare => "<circle class=\"bare\" r=\"4\"/>",
        Mark::Refused => "<path class=\"report\" d=\"M-4 -4L4 4M-4 4L4 -4\"/>",
        Mark::On => {
            "<path class=\"bare\" d=\"M-6 4H6L0 -6Z\"/><path class=\"report\" d=\"M-6 7H6\"/>"
        }
        Mark::Off => {
            "<path class=\"bare\" d=\"M-6 -6H6L0 4Z\"/><path class=\"report\" d=\"M-6 7H6\"/>"
        }
        Mark::Left => "<path class=\"report\" d=\"M-5 -6V6M-5 0H6M2 -4L6 0L2 4\"/>",
        Mark::Returned => "<path class=\"report\" d=\"M5 -6V6M5 0H-6M-2 -4L-6 0L-2 4\"/>",
        Mark::Shut => { "<rect class=\"full\" x=\"-5\" y=\"-5\" width=\"10\" height=\"10\"/>" }
    }
}

/// Writes a mark around a point.
pub fn write_mark<W: Write>(mark: Mark, x: u64, y: u64, pen: &mut Pen<W>) {
    pen.shape(x, y, shape_of(mark));
}

/// Writes the mark of an answer where it belongs to this row, whose middle is at `y`.
pub fn write_answer<W: Write>(row: Row, line: &Line, column: usize, y: u64, pen: &mut Pen<W>) {
    let (place, mark) = mark_of(line);
    if place == row {
        write_mark(mark, middle_of(column), y, pen);
    }
}
