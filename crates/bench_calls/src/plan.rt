//! What is to be measured: the words of the command line.

ghost use Rattle.std.specs.Prelude.{◌≡◌, ◌≢◌, ◌/◌, ℕ, IfSome, IsSome, None, true, false};
ghost use Rattle.clap.specs.Words.{kind_of};
ghost use Rattle.clap.specs.declared.error.ErrorKind.TheVariants.{OutOfMemory};
ghost use Rattle.rcu_numbers.specs.Limits.{IsWithin, IsWholeRoot};
ghost use Rattle.rcu_numbers.specs.Words.{all_of};
ghost use Rattle.rcu_numbers.specs.declared.shape.TheConstants.{MOST_CALLBACKS, MOST_PROCESSORS};
ghost use Rattle.bench_calls.specs.declared.plan.Refusal.TheVariants.{Memory, Words};

use clap::error::ErrorKind;
use clap::{Arg, ArgAction, ArgMatches, value_parser};
use rcu_numbers::{MOST_CALLBACKS, MOST_PROCESSORS, Shape, all_processors, default_stride};
use std::alloc::{AllocError, Global};

/// How many callbacks of a processor run in a turn where nothing else is said.
const BLIMIT: u64 = 10;

/// At which length a bypass list is released where nothing else is said.
const QHIMARK: u64 = 10_000;

/// After how many calls a processor reports and ticks where nothing else is said.
const EVERY: u64 = 64;

/// How many microseconds lie between two calls where nothing else is said.
const SPACING: u64 = 1_000;

/// Why there is no plan.
#[derive(Drop)]
pub enum Refusal {
    /// The words of the command line were refused; clap's text says why.
    Words(clap::Error),
    /// A word of the command line is no text.
    NoText,
    /// Want of memory.
    Memory,
}

impl From<AllocError> for Refusal {
    ghost from_gives = { λ _ refusal. refusal ≡ Memory };

    fn from(_error: AllocError) -> Refusal {
        Refusal::Memory
    }
}

impl From<clap::Error> for Refusal {
    ghost from_gives = { λ error refusal. (kind_of error ≡ OutOfMemory → refusal ≡ Memory)
        × (kind_of error ≢ OutOfMemory → refusal ≡ Words error) };

    fn from(error: clap::Error) -> Refusal {
        if error.kind() == ErrorKind::OutOfMemory {
            Refusal::Memory
        } else {
            Refusal::Words(error)
        }
    }
}

/// What is to be measured.
#[derive(Clone, Copy)]
pub struct Plan {
    /// Whether it is measured how long a single callback waits, and not what calls cost.
    pub latency: bool,
    /// Whether the processors are offloadable.
    pub offloaded: bool,
    /// Whether each job is allocated for its call.
    pub boxed: bool,
    /// Whether one thread turns the driver, the groups and the hands.
    pub one_helper: bool,
    /// Whether the times are printed.
    pub times: bool,
    /// How many processors there are, each with a thread.
    pub threads: u64,
    /// How many neighbouring processors make a group. None is the stride of a runtime of so many processors.
    pub stride: Option<u64>,
    /// How many calls each processor makes.
    pub calls: u64,
    /// How many callbacks of a processor run in a turn.
    pub blimit: u64,
    /// At which length a bypass list is released.
    pub qhimark: u64,
    /// After how many calls a processor reports and ticks.
    pub every: u64,
    /// After how many ticks the moment rises.
    pub pace: u64,
    /// Of a latency: microseconds from call to call.
    pub spacing: u64,
    /// Of a latency: for how many microseconds the processor sleeps between two ticks.
    pub nap: u64,
    /// For how many milliseconds the only job sleeps, where nothing is measured but what idle parts take.
    pub idle: Option<u64>,
}

impl Plan {
    /// The shape of a runtime with this plan's processors. None outside the limits of a shape.
    pub fn shape(&self) -> Option<Shape>
        ensures some { IsWithin 1 MOST_PROCESSORS self.now.threads
            → IfSome self.now.stride (IsWithin 1 MOST_PROCESSORS)
            → IsWithin 1 MOST_CALLBACKS self.now.blimit → IsWithin 1 MOST_CALLBACKS self.now.qhimark
            → IsSome result }
        ensures threads { IfSome result (λ s. s.processors ≡ self.now.threads) }
        ensures stride { IfSome result (λ s. IfSome self.now.stride (λ n. s.stride ≡ n)) }
        ensures usual { self.now.stride ≡ None → (r : ℕ) → IsWholeRoot self.now.threads r
            → IfSome result (λ s. s.stride ≡ self.now.threads / r) }
        ensures limits { IfSome result (λ s.
            (s.blimit ≡ self.now.blimit) × (s.qhimark ≡ self.now.qhimark)) }
        ensures local { self.now.offloaded ≡ false → IfSome result (λ s. s.offloadable ≡ 0) }
        ensures offloaded { self.now.offloaded ≡ true
            → IfSome result (λ s. s.offloadable ≡ all_of self.now.threads) }
    {
        if self.threads == 0 || self.threads > MOST_PROCESSORS {
            return None;
        }
        let mask = if self.offloaded {
            all_processors(self.threads)
        } else {
            0
        };
        let stride = match self.stride {
            Some(stride) => stride,
            None => default_stride(self.threads),
        };
        Shape::new(
            self.threads,
            mask,
            stride,
            self.blimit,
            self.qhimark,
            MOST_CALLBACKS,
        )
    }
}

/// What an option takes.
#[derive(Clone, Copy)]
enum Takes {
    Nothing,
    /// A number from this one on.
    Number(i64),
}

use Takes::{Nothing, Number};

/// The options: the name of each, what it takes, and what its help says.
static OPTIONS: [(&str, Takes, &str); 15] = [
    (
        "latency",
        Nothing,
        "measure how long a single callback waits",
    ),
    ("offloaded", Nothing, "the processors are offloadable"),
    ("boxed", Nothing, "each job is allocated for its call"),
    ("times", Nothing, "print the times, in nanoseconds"),
    ("calls", Number(0), "the calls of each processor"),
    (
        "one-helper",
        Nothing,
        "one thread turns driver, groups and hands",
    ),
    ("threads", Number(1), "the processors, each with a thread"),
    (
        "stride",
        Number(1),
        "the neighbouring processors of a group",
    ),
    ("blimit", Number(1), "the callbacks of a turn"),
    (
        "qhimark",
        Number(1),
        "the length that releases a bypass list",
    ),
    ("every", Number(1), "the calls from one tick to the next"),
    ("pace", Number(1), "the ticks of one moment"),
    ("spacing", Number(1), "microseconds from call to call"),
    ("nap", Number(0), "microseconds of sleep between ticks"),
    (
        "idle",
        Number(0),
        "all parts wait while one job sleeps for so many milliseconds",
    ),
];

/// An option.
fn option(alloc: Global, name: &'static str, takes: Takes, help: &'static str) -> Arg<'static> {
    let option = Arg::new(alloc, name).long(name).help(help);
    match takes {
        Nothing => option.action(ArgAction::SetTrue),
        Number(least) => option.value_parser(value_parser!(u64).range(least..)),
    }
}

/// The command line.
fn command<'a>(alloc: Global) -> Result<clap::Command<'a>, AllocError> {
    let mut command = clap::Command::new(alloc, "bench_calls").no_binary_name(true);
    for (name, takes, help) in &OPTIONS {
        command = command.arg(option(alloc, name, *takes, help))?;
    }
    Ok(command)
}

/// The number that the words give to an option, or else the usual one.
fn number(matches: &ArgMatches, name: &str, usual: u64) -> u64 {
    matches.get_one(name).unwrap_or(usual)
}

/// What these options say.
fn plan_of(matches: &ArgMatches) -> Plan {
    Plan {
        latency: matches.get_flag("latency"),
        offloaded: matches.get_flag("offloaded"),
        boxed: matches.get_flag("boxed"),
        one_helper: matches.get_flag("one-helper"),
        times: matches.get_flag("times"),
        threads: number(matches, "threads", 1),
        stride: matches.get_one("stride"),
        calls: number(matches, "calls", 1_000),
        blimit: number(matches, "blimit", BLIMIT),
        qhimark: number(matches, "qhimark", QHIMARK),
        every: number(matches, "every", EVERY),
        pace: number(matches, "pace", 1),
        spacing: number(matches, "spacing", SPACING),
        nap: number(matches, "nap", 0),
        idle: matches.get_one("idle"),
    }
}

/// What the words after the program's name say.
///
/// # Errors
///
/// `Words` where clap refuses the words, help included; want of memory.
pub fn read_plan(alloc: Global, words: &[String]) -> Result<Plan, Refusal> {
    let matches = command(alloc)?.try_get_matches_from(words)?;
    Ok(plan_of(&matches))
}
