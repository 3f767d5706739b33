//! The picture: its bands, rows, axis, and the texts at the pointer.

use crate::callbacks::write_callback;
use crate::legend::{LEGEND_HEIGHT, write_legend};
use crate::marks::write_answer;
use crate::pen::Pen;
use crate::rows::{COLUMN, LEFT, Row, TOP, bottom_of, left_of, middle_of};
use crate::runs::{MOST_STEPS, Run, Step};
use rcu_jobs::{DriverTurn, Mode};
use rcuo_script::Line;
use std::io::Write;

/// The height of the axis, on which the commands' answers stand.
const AXIS_HEIGHT: u64 = 170;

/// Room at the right for the last answer on the axis.
const RIGHT: u64 = 130;

/// The least width, which the legend needs.
const LEAST_WIDTH: u64 = 1100;

/// The colours, by class.
const STYLE: &str = "<style>
svg{background:#fff;font:12px sans-serif}
.title{font-size:16px;font-weight:bold}
.name{text-anchor:end}.number{text-anchor:end;font-size:9px;fill:#555}.step{font-size:10px}.legend{font-size:12px}
.line{stroke:#ddd}.period{fill:#d8efd3}.away{fill:#d9d4e8;stroke:#6b5b95;stroke-dasharray:3 2}.barrier{fill:#8e5ea2}.full{fill:#222;stroke:#222}.bare{fill:#fff;stroke:#222}.report{stroke:#222;stroke-width:2;fill:none}
.own{fill:#f2a65a}.bypass{fill:#f5d76e}.group{fill:#7fb3e6}.ran{fill:#1f7a3a;stroke:#fff}.back{fill:#fff;stroke:#c0392b;stroke-width:2}
.Local{fill:#f2a65a}.Offloading{fill:#c5dcf5}.Offloaded{fill:#7fb3e6}.Deoffloading{fill:#fae0c3}
.shut{stroke:#c0392b;stroke-dasharray:4 3}.at{fill:#000;fill-opacity:0}.at:hover{fill-opacity:.07}
</style>
";

/// What lasts from one command to another.
#[derive(Clone, Copy)]
enum Span {
    GracePeriod,
    /// From the opening of a barrier until it has passed, or another is opened in its place.
    Barrier,
    /// From the moment at which this processor left until it is back.
    Away(u64),
}

/// Where a span begins or ends.
#[derive(Clone, Copy)]
enum Edge {
    Begins,
    Ends,
}

impl Span {
    /// Whether it begins or ends by this step's answer.
    fn edge(self, step: &Step) -> Option<Edge> {
        match (self, &step.line) {
            (Span::GracePeriod, Some(Line::Driver(DriverTurn::Started(_)))) => Some(Edge::Begins),
            (Span::GracePeriod, Some(Line::Driver(DriverTurn::Ended(_)))) => Some(Edge::Ends),
            (Span::Barrier, Some(Line::Opened)) => Some(Edge::Begins),
            (Span::Barrier, Some(Line::Passed)) => Some(Edge::Ends),
            (Span::Away(cpu), Some(Line::Left { cpu: left })) if cpu == *left => {
                Some(Edge::Begins)
            }
            (Span::Away(cpu), Some(Line::Returned { cpu: back })) if cpu == *back => {
                Some(Edge::Ends)
            }
            _ => None,
        }
    }

    /// Writes it from the middle of one column to that of another, between these heights.
    fn write<W: Write>(self, from: usize, to: usize, (top, bottom): (u64, u64), pen: &mut Pen<W>) {
        let class = match self {
            Span::GracePeriod => "period",
            Span::Barrier => "barrier",
            Span::Away(_) => "away",
        };
        let x = middle_of(from);
        let (width, height) = (middle_of(to).saturating_sub(x), bottom.saturating_sub(top));
        pen.rect(class, (x, top), (width, height));
    }
}

/// Writes all spans of this kind; what hasn't ended lasts until the last column.
fn write_spans<W: Write>(run: &Run, span: Span, heights: (u64, u64), pen: &mut Pen<W>) {
    let mut begun = None;
    for (column, step) in run.steps.iter().enumerate() {
        let Some(edge) = span.edge(step) else {
            continue;
        };
        if let Some(from) = begun {
            span.write(from, column, heights, pen);
        }
        begun = match edge {
            Edge::Begins => Some(column),
            Edge::Ends => None,
        };
    }
    if let Some(from) = begun {
        span.write(from, run.steps.len(), heights, pen);
    }
}

/// The class of a mode.
fn class_of(mode: Mode) -> &'static str {
    match mode {
        Mode::Local => "Local",
        Mode::Offloading => "Offloading",
        Mode::Offloaded => "Offloaded",
        Mode::Deoffloading => "Deoffloading",
    }
}

/// Writes the modes of a processor, as a strip below its row, whose middle is at `y`.
fn write_modes<W: Write>(run: &Run, cpu: u64, y: u64, pen: &mut Pen<W>) {
    let top = y.saturating_add(10);
    for (column, step) in run.steps.iter().enumerate() {
        if let Some(shown) = step.shown.get(cpu as usize) {
            pen.rect(class_of(shown.mode), (middle_of(column), top), (COLUMN, 3));
        }
    }
}

/// Writes what a part's row shows beside its marks: where a processor is away and its modes, the barriers of control.
fn write_states<W: Write>(run: &Run, row: Row, y: u64, pen: &mut Pen<W>) {
    match row {
        Row::Processor(cpu) => {
            let heights = (y.saturating_sub(8), y.saturating_add(8));
            write_spans(run, Span::Away(cpu), heights, pen);
            write_modes(run, cpu, y, pen);
        }
        Row::Control => {
            let heights = (y.saturating_sub(2), y.saturating_add(2));
            write_spans(run, Span::Barrier, heights, pen);
        }
        _ => {}
    }
}

/// Writes the row of a part, whose middle is at `y`.
fn write_part<W: Write>(run: &Run, row: Row, y: u64, pen: &mut Pen<W>) {
    pen.line("line", (LEFT, y), 'H', left_of(run.columns()));
    pen.text("name", LEFT.saturating_sub(12), y.saturating_add(4), row);
    write_states(run, row, y, pen);
    for (column, step) in run.steps.iter().enumerate() {
        if let Some(line) = &step.line {
            write_answer(row, line, column, y, pen);
        }
    }
}

/// Writes all rows.
fn write_rows<W: Write>(run: &Run, rows: &[Row], pen: &mut Pen<W>) {
    let mut top = TOP;
    for row in rows {
        let y = top.saturating_add(row.height() / 2);
        match row {
            Row::Callback { cpu, number } => write_callback(run, *cpu, *number, y, pen),
            _ => write_part(run, *row, y, pen),
        }
        top = top.saturating_add(row.height());
    }
}

/// Writes a command's text on the axis.
fn write_text<W: Write>(text: &str, column: usize, bottom: u64, pen: &mut Pen<W>) {
    pen.aslant(middle_of(column), bottom.saturating_add(12), text);
}

/// Writes a command's answer on the axis and at the pointer, and the line of a shut.
fn write_step<W: Write>(step: &Step, column: usize, bottom: u64, pen: &mut Pen<W>) {
    if let Some(Line::Shut(_)) = step.line {
        pen.line("shut", (middle_of(column), TOP), 'V', bottom);
    }
    let text = step.text.as_str();
    write_text(text, column, bottom, pen);
    let size = (COLUMN, bottom.saturating_sub(TOP));
    pen.hint((left_of(column), TOP), size, text);
}

/// Writes, for each command, its answer on the axis and at the pointer.
fn write_axis<W: Write>(run: &Run, bottom: u64, pen: &mut Pen<W>) {
    for (column, step) in run.steps.iter().enumerate() {
        write_step(step, column, bottom, pen);
    }
    if run.commands <= run.steps.len() {
        write_text("close", run.steps.len(), bottom, pen);
    }
}

/// Writes the title, which says so where commands are left out.
fn write_title<W: Write>(run: &Run, pen: &mut Pen<W>) {
    let (commands, processors) = (run.commands, run.hands.len());
    pen.plain("<text class=\"title\" x=\"12\" y=\"26\">");
    if commands > run.steps.len() {
        pen.first(MOST_STEPS);
    }
    let more = if processors == 1 { "" } else { "s" };
    pen.commands(commands, processors, more);
    pen.plain("</text>\n");
}

/// Writes the picture of a run with these rows.
pub fn write_picture<W: Write>(run: &Run, rows: &[Row], pen: &mut Pen<W>) {
    let bottom = bottom_of(rows);
    let legend = bottom.saturating_add(AXIS_HEIGHT);
    let width = left_of(run.columns())
        .saturating_add(RIGHT)
        .max(LEAST_WIDTH);
    pen.begin(width, legend.saturating_add(LEGEND_HEIGHT));
    pen.plain(STYLE);
    write_title(run, pen);
    write_spans(run, Span::GracePeriod, (TOP, bottom), pen);
    write_rows(run, rows, pen);
    write_axis(run, bottom, pen);
    write_legend(legend, pen);
    pen.plain("</svg>\n");
}
