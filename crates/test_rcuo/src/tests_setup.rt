//! Setups, script lines and CPU lists, with their faults.

use crate::expect::{expect_same, expect_text};
use rcu_setup::{Command, Setup, SetupFault, cpu_list, read_setup, script_line};
use std::alloc::Global;
use std::process::Abort;

// The fault line of a text. None where it is a setup, or memory is wanted.
fn fault_of(alloc: Global, text: &str) -> Option<String> {
    match read_setup(alloc, text) {
        Ok(_) => None,
        Err(fault) => fault.to_string(alloc).ok(),
    }
}

// Texts that are refused, each with its fault line.
static REFUSED: [(&str, &str); 32] = [
    (
        "processors = 4\nnocbs = \"3-1\"",
        "fault 16: reversed range 3-1",
    ),
    (
        "processors = 16\nnocbs = \"0-16\"",
        "fault 17: no processor 16",
    ),
    (
        "processors = 32\nnocbs = \"0-32\"",
        "fault 17: no processor 32",
    ),
    ("processors = 4\nnocbs = \"1,\"", "fault 15: bad list"),
    ("processors = 0", "fault 14: processors is out of range"),
    ("processors = 33", "fault 14: processors is out of range"),
    (
        "processors = 9223372036854775807",
        "fault 14: processors is out of range",
    ),
    ("processors = 1\ncpus = 1", "fault 11: unknown key cpus"),
    ("cpus = 1", "fault 11: unknown key cpus"),
    ("", "fault 12: missing key processors"),
    (
        "processors = 1\ncalls = 5\nlimit = 3",
        "fault 14: calls is out of range",
    ),
    (
        "processors = 4\nnocbs = \"9,3-1\"",
        "fault 17: no processor 9",
    ),
    (
        "processors = 4\nnocbs = \"3-1,9\"",
        "fault 16: reversed range 3-1",
    ),
    ("processors = 4\nnocbs = \"00003\"", "fault 15: bad list"),
    ("processors = 4\nnocbs = \"all,1\"", "fault 15: bad list"),
    ("processors = 4\nnocbs = \"0-1-2\"", "fault 15: bad list"),
    (
        "processors = 1\nscript = [1]",
        "fault 13: wrong kind of script",
    ),
    ("processors = 1\nroutes = [\"a\"]", "fault 18: bad route 1"),
    (
        "processors = 1\nprocessors = 1",
        "fault 10: not a TOML document",
    ),
    // the first unknown key by byte order, and keys that can't be shown
    ("zone = 1\nCpus = 1", "fault 11: unknown key Cpus"),
    ("\"a b\" = 1", "fault 11: unknown key ?"),
    ("\"\" = 1", "fault 11: unknown key ?"),
    // kind, then range, then grammar, and one key before the next
    ("processors = \"1\"", "fault 13: wrong kind of processors"),
    ("processors = 1\nnocbs = 0", "fault 13: wrong kind of nocbs"),
    (
        "processors = 1\nstride = 33\nnocbs = \"9\"",
        "fault 17: no processor 9",
    ),
    (
        "processors = 1\nqhimark = 0\nblimit = 1000001",
        "fault 14: blimit is out of range",
    ),
    (
        "processors = 1\ncalls = -1\nlimit = -1",
        "fault 14: limit is out of range",
    ),
    (
        "processors = 1\nroutes = \"a=1\"",
        "fault 13: wrong kind of routes",
    ),
    (
        "processors = 1\nroutes = [\"a=1\", \"=1\"]",
        "fault 18: bad route 2",
    ),
    (
        "processors = 1\nroutes = [\"a=1234567890\"]",
        "fault 18: bad route 1",
    ),
    (
        "processors = 1\nscript = [\"driver\", \"call 0 0 a\"]",
        "fault 18: bad line 2",
    ),
    (
        "processors = 1\ncalls = 1001",
        "fault 14: calls is out of range",
    ),
];

#[test]
fn refused_setups(rt: HostRuntime) {
    for (text, want) in REFUSED.iter() {
        expect_text(&rt, text, fault_of(rt.alloc(), text), want);
    }
}

// The numbers of a setup: those of its shape, and its calls.
fn numbers_of(setup: &Setup) -> [u64; 7] {
    let shape = &setup.shape;
    [
        shape.processors,
        u64::from(shape.offloadable),
        shape.stride,
        shape.blimit,
        shape.qhimark,
        shape.limit,
        setup.calls,
    ]
}

// How many routes and commands a setup has.
fn lengths_of(setup: &Setup) -> (usize, usize) {
    (setup.routes.len(), setup.script.len())
}

// The setup of a text that is one.
pub(crate) fn setup_of(rt: &impl Abort, alloc: Global, text: &str) -> Setup {
    read_setup(alloc, text).ok().expect(rt, "a setup")
}

// What is left out of a setup has its default.
fn expect_least(rt: &impl Abort, alloc: Global) {
    let least = setup_of(rt, alloc, "processors = 17");
    let wanted = [17, 0, 4, 10, 10000, 1000000, 0];
    expect_same(
        rt,
        "numbers, lengths",
        (numbers_of(&least), lengths_of(&least)),
        (wanted, (0, 0)),
    );
}

// The routes of a setup are these.
fn expect_routes(rt: &impl Abort, routes: &[(String, u32)], wants: &[(&str, u32)]) {
    for (route, wanted) in routes.iter().zip(wants) {
        expect_same(rt, "a route", (route.0.as_str(), route.1), *wanted);
    }
}

// A setup in which each key stands.
const WHOLE: &str = "processors = 3\nnocbs = \"0,2-2\"\nstride = 2\nblimit = 5\nqhimark = 6\n\
    limit = 7\ncalls = 7\nroutes = [\"a=1\", \"b2=999999999\", \"a=007\"]\n\
    script = [\"call 0 0 b 2\", \"show\"]";

// Each key is read.
fn expect_whole(rt: &impl Abort, alloc: Global) {
    let whole = setup_of(rt, alloc, WHOLE);
    expect_same(
        rt,
        "numbers, lengths",
        (numbers_of(&whole), lengths_of(&whole)),
        ([3, 5, 2, 5, 6, 7, 7], (3, 2)),
    );
    let wants = [("a", 1), ("b2", 999999999), ("a", 7)];
    expect_routes(rt, whole.routes.as_slice(), &wants);
}

#[test]
fn whole_setup(rt: HostRuntime) {
    expect_least(&rt, rt.alloc());
    expect_whole(&rt, rt.alloc());
}

#[test]
fn cpu_lists(rt: HostRuntime) {
    let rows = [
        ("all", 3, 7),
        ("", 3, 0),
        ("0,2-2", 3, 5),
        ("all", 32, 4294967295),
        ("0003,1-2,2-3", 4, 14),
    ];
    for (text, n, want) in rows {
        expect_same(&rt, text, cpu_list(text, n).ok(), Some(want));
    }
}

// A word and a number.
fn numbered(alloc: Global, word: &str, number: u64) -> Option<String> {
    format!(in alloc; "{word} {number}").ok()
}

// The line of a call, by its word.
fn routed(
    alloc: Global,
    word: &str,
    cpu: u64,
    moment: u64,
    name: &str,
    hop: u32,
) -> Option<String> {
    format!(in alloc; "{word} {cpu} {moment} {name} {hop}").ok()
}

// The command's name and numbers, as they stand in the line. None where memory is wanted.
fn shown(alloc: Global, command: &Command) -> Option<String> {
    match *command {
        Command::Call {
            cpu,
            moment,
            ref name,
            hop,
        } => routed(alloc, "call", cpu, moment, name.as_str(), hop),
        Command::Lazy {
            cpu,
            moment,
            ref name,
            hop,
        } => routed(alloc, "lazy", cpu, moment, name.as_str(), hop),
        Command::Quiet { cpu } => numbered(alloc, "quiet", cpu),
        Command::Tick { cpu, moment } => format!(in alloc; "tick {cpu} {moment}").ok(),
        Command::Driver => String::from_str(alloc, "driver").ok(),
        Command::Group { group } => numbered(alloc, "group", group),
        Command::Hand { cpu } => numbered(alloc, "hand", cpu),
        Command::Offload { cpu } => numbered(alloc, "offload", cpu),
        Command::Deoffload { cpu } => numbered(alloc, "deoffload", cpu),
        Command::Leave { cpu } => numbered(alloc, "leave", cpu),
        Command::Return { cpu } => numbered(alloc, "return", cpu),
        Command::Barrier => String::from_str(alloc, "barrier").ok(),
        Command::Poll => String::from_str(alloc, "poll").ok(),
        Command::Shut => String::from_str(alloc, "shut").ok(),
        Command::Show => String::from_str(alloc, "show").ok(),
    }
}

// A line that is read, and shown again. None where it is no command, or memory is wanted.
fn again(alloc: Global, line: &str) -> Option<String> {
    shown(alloc, &script_line(alloc, line).ok()?)
}

// Lines of a script, of each command.
static LINES: [&str; 16] = [
    "call 0 0 b 2",
    "call 31 999999999999999999 abcdefgh12345678 999999999",
    "lazy 1 5 a 1",
    "quiet 0",
    "tick 2 14",
    "driver",
    "group 99",
    "hand 3",
    "offload 4",
    "deoffload 5",
    "leave 6",
    "return 7",
    "barrier",
    "poll",
    "shut",
    "show",
];

#[test]
fn script_lines(rt: HostRuntime) {
    for line in LINES.iter() {
        expect_text(&rt, "a line", again(rt.alloc(), line), line);
    }
}

// Lines that are no command.
static BAD_LINES: [&str; 23] = [
    "",
    " ",
    "driver ",
    " driver",
    "Driver",
    "tick  0 0",
    "tick 0 0 ",
    "tick 0",
    "quiet",
    "quiet 000",
    "quiet -1",
    "leave",
    "leave 000",
    "return 0 0",
    "quiet x",
    "tick 0 1234567890123456789",
    "call 0 0 b",
    "call 0 0 B 2",
    "call 0 0  2",
    "call 0 0 abcdefgh123456789 2",
    "call 0 0 b 1234567890",
    "call 0 0 b 2 3",
    "show 0",
];

#[test]
fn bad_script_lines(rt: HostRuntime) {
    let alloc = rt.alloc();
    for line in BAD_LINES.iter() {
        let is_bad = matches!(script_line(alloc, line), Err(SetupFault::BadLine(1)));
        expect_same(&rt, line, is_bad, true);
    }
}
