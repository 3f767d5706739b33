//! What a script prints for each command: docs/specification/tables.md, "Script commands and what they print".

ghost use Rattle.std.specs.Prelude.{◌≡◌, ◌++◌, IfErr, OnOk, Some, codes};
ghost use Rattle.std.specs.Fmt.{WritesOnOk, decimal};
ghost use Rattle.std.specs.Io.KnownBytes.{Appends};
ghost use Rattle.rcuo_script.specs.Faults.{IsFaultOfOutput};
ghost use Rattle.rcuo_script.specs.Lines.{driver_text, line_text, lists_line, verb_text, whole_totals};
ghost use Rattle.rcuo_script.specs.declared.fault.Fault.TheVariants.{CannotWrite};
ghost use Rattle.rcuo_script.specs.declared.lines.Line.TheVariants.{Refused};

use crate::fault::Fault;
use rcu_jobs::{Closed, DriverTurn, Job, Lists};
use rcu_status::{line, totals};
use std::alloc::Global;
use std::fmt;
use std::io::Write;

/// The word of a command that names a processor or a group.
#[derive(Clone, Copy, PartialEq, Eq)]
pub enum Verb {
    Call,
    Lazy,
    Quiet,
    Tick,
    Group,
    Hand,
    Offload,
    Deoffload,
    Leave,
    Return,
}

impl fmt::Display for Verb {
    ghost output = { λ verb. Some (verb_text verb) };

    fn fmt<W: fmt::Write>(&self, f: &mut fmt::Formatter<W>) -> fmt::Result {
        f.write_str(match self {
            Verb::Call => "call",
            Verb::Lazy => "lazy",
            Verb::Quiet => "quiet",
            Verb::Tick => "tick",
            Verb::Group => "group",
            Verb::Hand => "hand",
            Verb::Offload => "offload",
            Verb::Deoffload => "deoffload",
            Verb::Leave => "leave",
            Verb::Return => "return",
        })
    }
}

/// The line of one answer.
#[derive(Drop)]
pub enum Line {
    /// The call on processor `cpu` was accepted as callback `number`.
    Number {
        verb: Verb,
        cpu: u64,
        number: u64,
    },
    /// The command on this processor or group was refused, by the refusal's number.
    Refused {
        verb: Verb,
        place: u64,
        refusal: u64,
    },
    /// The report of processor `cpu` counted for the grace period `seq`.
    Counted {
        cpu: u64,
        seq: u64,
    },
    /// The report of processor `cpu` counted nothing.
    Nothing {
        cpu: u64,
    },
    /// The turn ran so many callbacks of processor `cpu`.
    Ran {
        verb: Verb,
        cpu: u64,
        ran: u64,
    },
    /// A turn of the driver.
    Driver(DriverTurn),
    /// The group drew `took` callbacks from its members, and gave `gave` to their hands.
    Group {
        group: u64,
        took: u64,
        gave: u64,
    },
    /// The processor is asked to switch.
    Asked {
        verb: Verb,
        cpu: u64,
    },
    /// The processor left, and is away.
    Left {
        cpu: u64,
    },
    /// The processor that was away is back.
    Returned {
        cpu: u64,
    },
    /// A barrier was opened.
    Opened,
    /// The barrier that was open has passed.
    Passed,
    /// The barrier that is open hasn't passed yet.
    Waits,
    /// No barrier is open.
    NoBarrier,
    /// All processors are shut, with these final counts: `C0,C1,..`.
    Shut(String),
}

/// The number of the refusal "there is no such processor" (docs/specification/surface.md, "Refusals by number").
const NO_PROCESSOR: u64 = 6;

/// The number of the refusal "the processor isn't offloadable".
const NOT_OFFLOADABLE: u64 = 5;

/// The number of the refusal "there is no room".
const NO_ROOM: u64 = 2;

/// The number of the refusal "the processor is away".
const AWAY: u64 = 21;

/// The number of the refusal "the processor isn't away".
const NOT_AWAY: u64 = 22;

impl Line {
    /// The refusal of a command that names a processor or a group that isn't there.
    pub fn no_such(verb: Verb, place: u64) -> Line
        ensures { result ≡ Refused verb place 6 }
    {
        Line::Refused {
            verb,
            place,
            refusal: NO_PROCESSOR,
        }
    }

    /// The refusal of a command on a processor that isn't offloadable.
    pub fn not_offloadable(verb: Verb, place: u64) -> Line
        ensures { result ≡ Refused verb place 5 }
    {
        Line::Refused {
            verb,
            place,
            refusal: NOT_OFFLOADABLE,
        }
    }

    /// The refusal of a command of a processor that is away.
    pub fn away(verb: Verb, place: u64) -> Line
        ensures { result ≡ Refused verb place 21 }
    {
        Line::Refused {
            verb,
            place,
            refusal: AWAY,
        }
    }

    /// The refusal of `return` of a processor that is here.
    pub fn not_away(verb: Verb, place: u64) -> Line
        ensures { result ≡ Refused verb place 22 }
    {
        Line::Refused {
            verb,
            place,
            refusal: NOT_AWAY,
        }
    }

    /// The refusal of `leave` of a processor whose bypass list finds no room where it is put.
    pub fn no_room(verb: Verb, place: u64) -> Line
        ensures { result ≡ Refused verb place 2 }
    {
        Line::Refused {
            verb,
            place,
            refusal: NO_ROOM,
        }
    }
}

/// Writes a command, the processor or group that it names, and a text behind them.
fn write_place<W: fmt::Write>(
    f: &mut fmt::Formatter<W>,
    verb: Verb,
    place: u64,
    text: &str,
) -> fmt::Result
    ensures { WritesOnOk W.write_str_gives f.old result
        (verb_text verb ++ (codes " " ++ (decimal place ++ text.now))) f.new }
{
    write!(f, "{verb} {place}{text}")
}

/// Writes the same, and a number at the end.
fn write_number<W: fmt::Write>(
    f: &mut fmt::Formatter<W>,
    verb: Verb,
    place: u64,
    text: &str,
    number: u64,
) -> fmt::Result
    ensures { WritesOnOk W.write_str_gives f.old result
        (verb_text verb ++ (codes " " ++ (decimal place ++ (text.now ++ decimal number)))) f.new }
{
    write!(f, "{verb} {place}{text}{number}")
}

/// Writes what a turn of the driver did.
fn write_turn<W: fmt::Write>(f: &mut fmt::Formatter<W>, turn: &DriverTurn) -> fmt::Result
    ensures { WritesOnOk W.write_str_gives f.old result
        (codes "driver " ++ driver_text turn.now) f.new }
{
    match turn {
        DriverTurn::Idle => f.write_str("driver idle"),
        DriverTurn::Started(seq) => write!(f, "driver started {seq}"),
        DriverTurn::Ended(seq) => write!(f, "driver ended {seq}"),
        DriverTurn::Waits(_) => f.write_str("driver waits"),
        DriverTurn::Spent => f.write_str("driver spent"),
    }
}

impl fmt::Display for Line {
    ghost output = { λ line. Some (line_text line) };

    fn fmt<W: fmt::Write>(&self, f: &mut fmt::Formatter<W>) -> fmt::Result {
        match self {
            Line::Number { verb, cpu, number } => {
                write_number(f, *verb, *cpu, " number ", *number)
            }
            Line::Refused {
                verb,
                place,
                refusal,
            } => write_number(f, *verb, *place, " refused ", *refusal),
            Line::Counted { cpu, seq } => write_number(f, Verb::Quiet, *cpu, " counted ", *seq),
            Line::Nothing { cpu } => write_place(f, Verb::Quiet, *cpu, " nothing"),
            Line::Ran { verb, cpu, ran } => write_number(f, *verb, *cpu, " ran ", *ran),
            Line::Group { group, took, gave } => write!(f, "group {group} took {took} gave {gave}"),
            Line::Asked { verb, cpu } => write_place(f, *verb, *cpu, " asked"),
            Line::Left { cpu } => write_place(f, Verb::Leave, *cpu, " away"),
            Line::Returned { cpu } => write_place(f, Verb::Return, *cpu, " back"),
            Line::Driver(turn) => write_turn(f, turn),
            Line::Opened => f.write_str("barrier opened"),
            Line::Passed => f.write_str("barrier passed"),
            Line::Waits => f.write_str("barrier waits"),
            Line::NoBarrier => f.write_str("barrier none"),
            Line::Shut(counts) => write!(f, "shut {counts}"),
        }
    }
}

/// Writes a line, with its line feed.
pub fn write_line<W: Write>(line: Line, writer: &mut W) -> Result<(), Fault>
    ensures writes { OnOk result (Appends (W.contents writer.old) (W.contents writer.new)
        (line_text line ++ codes "\n")) }
    ensures why { IfErr result (λ fault. fault ≡ CannotWrite) }
{
    match writeln!(writer, "{line}") {
        Ok(()) => Ok(()),
        Err(_) => Err(Fault::CannotWrite),
    }
}

/// Writes a text as it is.
pub fn write_text<W: Write>(text: &str, writer: &mut W) -> Result<(), Fault>
    ensures writes { OnOk result (Appends (W.contents writer.old) (W.contents writer.new)
        text.now) }
    ensures why { IfErr result (λ fault. fault ≡ CannotWrite) }
{
    match writer.write_all(text.as_bytes()) {
        Ok(()) => Ok(()),
        Err(_) => Err(Fault::CannotWrite),
    }
}

/// Writes the line of a list (docs/specification/tables.md, "Lines of `show`").
#[tactic(auto, unfolding(crate::specs::Lines::lists_line))]
pub fn write_lists<W: Write>(
    alloc: Global,
    cpu: u64,
    lists: &Lists,
    writer: &mut W,
) -> Result<(), Fault>
    ensures writes { OnOk result (Appends (W.contents writer.old) (W.contents writer.new)
        (lists_line cpu lists.now)) }
    ensures why { IfErr result IsFaultOfOutput }
{
    let text = line(alloc, cpu, lists)?;
    write_text(text.as_str(), writer)
}

/// Writes the totals of a run (docs/specification/tables.md, "Totals"), with the line of the reports where `reports` is true,
/// and sees to it that they are out.
///
/// # Errors
///
/// The fault of a failed write; want of memory.
pub fn write_totals<J: Job<Receipt = u64>, W: Write>(
    alloc: Global,
    closed: &Closed<J>,
    reports: bool,
    writer: &mut W,
) -> Result<(), Fault>
    ensures writes { OnOk result (Appends (W.contents writer.old) (W.contents writer.new)
        (whole_totals reports closed.now)) }
    ensures why { IfErr result IsFaultOfOutput }
{
    let text = totals(alloc, closed, reports)?;
    write_text(text.as_str(), writer)?;
    match writer.flush() {
        Ok(()) => Ok(()),
        Err(_) => Err(Fault::CannotWrite),
    }
}
