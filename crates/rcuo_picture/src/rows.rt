//! The rows of a picture, from above, and where columns and rows lie in it. All lengths are in pixels.

use crate::runs::Run;
use std::alloc::{AllocError, Global};
use std::fmt;

/// How far from the left the first column begins: the names of the rows stand there.
pub const LEFT: u64 = 130;

/// How wide a column is.
pub const COLUMN: u64 = 26;

/// How far from the top the first row begins: the title stands there.
pub const TOP: u64 = 48;

/// The height of a part's row.
const PART_HEIGHT: u64 = 26;

/// The height of a callback's row.
const CALLBACK_HEIGHT: u64 = 12;

/// What a row shows.
#[derive(Clone, Copy, PartialEq, Eq)]
pub enum Row {
    /// The turns of the driver.
    Driver,
    /// Barriers, polls and shut.
    Control,
    /// A group's turns.
    Group(u64),
    /// A processor's calls, reports and ticks, the switches that are asked of it, and its mode.
    Processor(u64),
    /// The turns of a processor's hand.
    Hand(u64),
    /// A callback of a processor.
    Callback { cpu: u64, number: u64 },
}

impl Row {
    pub fn height(self) -> u64 {
        match self {
            Row::Callback { .. } => CALLBACK_HEIGHT,
            _ => PART_HEIGHT,
        }
    }
}

/// The name of a row.
impl fmt::Display for Row {
    fn fmt<W: fmt::Write>(&self, f: &mut fmt::Formatter<W>) -> fmt::Result {
        match self {
            Row::Driver => f.write_str("driver"),
            Row::Control => f.write_str("barriers, shut"),
            Row::Group(group) => write!(f, "group {group}"),
            Row::Processor(cpu) => write!(f, "processor {cpu}"),
            Row::Hand(cpu) => write!(f, "hand {cpu}"),
            Row::Callback { number, .. } => write!(f, "{number}"),
        }
    }
}

/// The left side of a column.
pub fn left_of(column: usize) -> u64 {
    (column as u64).saturating_mul(COLUMN).saturating_add(LEFT)
}

/// The middle of a column.
pub fn middle_of(column: usize) -> u64 {
    left_of(column).saturating_add(COLUMN / 2)
}

/// The lower side of the last row.
pub fn bottom_of(rows: &[Row]) -> u64 {
    let mut bottom = TOP;
    for row in rows {
        bottom = bottom.saturating_add(row.height());
    }
    bottom
}

/// How many callbacks the processor accepted in all.
fn accepted(run: &Run, cpu: usize) -> u64 {
    let Some(last) = run.steps.last() else {
        return 0;
    };
    match last.shown.get(cpu) {
        Some(shown) => shown.accepted,
        None => 0,
    }
}

/// Adds a row.
fn add(rows: &mut Vec<Row>, row: Row) -> Result<(), AllocError> {
    match rows.push(row) {
        Ok(()) => Ok(()),
        Err(_) => Err(AllocError),
    }
}

/// Adds the rows of the callbacks of a processor.
fn add_callbacks(rows: &mut Vec<Row>, cpu: u64, accepted: u64) -> Result<(), AllocError> {
    for number in 0..accepted {
        add(rows, Row::Callback { cpu, number })?;
    }
    Ok(())
}

/// Adds the rows of a processor, of its hand if it has one, and of its callbacks.
fn add_processor(
    rows: &mut Vec<Row>,
    run: &Run,
    cpu: usize,
    has_hand: bool,
) -> Result<(), AllocError> {
    add(rows, Row::Processor(cpu as u64))?;
    if has_hand {
        add(rows, Row::Hand(cpu as u64))?;
    }
    add_callbacks(rows, cpu as u64, accepted(run, cpu))
}

/// Adds the rows of all groups.
fn add_groups(rows: &mut Vec<Row>, run: &Run) -> Result<(), AllocError> {
    for group in &run.groups {
        add(rows, Row::Group(*group))?;
    }
    Ok(())
}

/// Adds the rows of all processors.
fn add_processors(rows: &mut Vec<Row>, run: &Run) -> Result<(), AllocError> {
    for (cpu, has_hand) in run.hands.iter().enumerate() {
        add_processor(rows, run, cpu, *has_hand)?;
    }
    Ok(())
}

/// Adds the rows of a run.
fn add_all(rows: &mut Vec<Row>, run: &Run) -> Result<(), AllocError> {
    add(rows, Row::Driver)?;
    add(rows, Row::Control)?;
    add_groups(rows, run)?;
    add_processors(rows, run)
}

/// The rows of a run.
pub fn rows_of(alloc: Global, run: &Run) -> Result<Vec<Row>, AllocError> {
    let mut rows = Vec::new(alloc);
    add_all(&mut rows, run)?;
    Ok(rows)
}
