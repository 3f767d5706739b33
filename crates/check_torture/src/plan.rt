//! What a run is to do: the words of the command line.

ghost use Rattle.std.specs.Prelude.{◌≡◌, ◌+◌, ◌*◌, ◌/◌, ◌%◌, ◌<◌, ◌≤◌, ◌↔◌, IsSome, IfSome, false};
ghost use Rattle.rcu_numbers.specs.declared.shape.TheConstants.{MOST_CALLBACKS, MOST_PROCESSORS};
ghost use Rattle.check_torture.specs.Endings.{EndsAt, place_of};
ghost use Rattle.check_torture.specs.Words.{Refuses};
ghost use Rattle.check_torture.specs.declared.plan.Refusal.TheVariants.{Memory};

use crate::chance::Chance;
use clap::error::ErrorKind;
use clap::{Arg, ArgAction, ArgMatches, value_parser};
use rcu_numbers::{MOST_CALLBACKS, MOST_PROCESSORS, Shape, all_processors};
use std::alloc::{AllocError, Global};

/// How many callbacks are accepted in a run where nothing else is said.
const CALLBACKS: u64 = 1_000_000;

/// How many processors there are where nothing else is said.
const PROCESSORS: u64 = 4;

/// The seed where nothing else is said.
const SEED: u64 = 20;

/// How many callbacks one turn runs or gives, at most.
const MOST_TURN: u64 = 50;

/// At which length a bypass list is released, at most.
const MOST_BYPASS: u64 = 1_000;

/// Why there is no plan.
#[derive(Drop)]
pub enum Refusal {
    /// The words of the command line were refused; clap's text says why.
    Words(clap::Error),
    /// A word of the command line is no text.
    NoText,
    /// More callbacks are wanted than so many processors accept.
    TooMany,
    /// Want of memory.
    Memory,
}

impl From<AllocError> for Refusal {
    ghost from_gives = { λ _ refusal. refusal ≡ Memory };

    fn from(_error: AllocError) -> Refusal {
        Refusal::Memory
    }
}

impl From<clap::Error> for Refusal {
    ghost from_gives = { Refuses };

    fn from(error: clap::Error) -> Refusal {
        if error.kind() == ErrorKind::OutOfMemory {
            Refusal::Memory
        } else {
            Refusal::Words(error)
        }
    }
}

/// How a run ends once all processors have accepted their shares.
#[derive(Clone, Copy)]
pub enum Ending {
    /// A barrier with all tickets passes, and then control shuts.
    DrainThenShut,
    /// Control shuts in the midst of calls, and halts.
    Shut,
    /// A barrier with all tickets passes.
    Drain,
    /// Control halts.
    Halt,
}

/// What is to be run.
#[derive(Clone, Copy)]
pub struct Plan {
    /// How many callbacks are to be accepted in each run.
    pub callbacks: u64,
    /// How many processors there are.
    pub processors: u64,
    /// How many runs there are.
    pub runs: u64,
    /// By which all random numbers are drawn.
    pub seed: u64,
    /// Whether in place of each run the checks are handed cases that they must refuse.
    pub flawed: bool,
    pub ghost some: { 0 < processors × processors ≤ MOST_PROCESSORS },
    pub ghost within: { callbacks ≤ processors * MOST_CALLBACKS },
}

impl Plan {
    /// A plan of these numbers. None exactly where there is no processor, or more than a runtime has, or more callbacks than
    /// they accept.
    pub fn new(callbacks: u64, processors: u64, runs: u64, seed: u64) -> Option<Plan>
        ensures within { IsSome result
            ↔ (0 < processors × processors ≤ MOST_PROCESSORS
            × callbacks ≤ processors * MOST_CALLBACKS) }
        ensures plan { IfSome result (λ p.
            (p.callbacks ≡ callbacks) × (p.processors ≡ processors)) }
        ensures runs { IfSome result (λ p. (p.runs ≡ runs) × (p.seed ≡ seed)) }
        ensures sound { IfSome result (λ p. p.flawed ≡ false) }
    {
        if processors == 0 || processors > MOST_PROCESSORS {
            return None;
        }
        if callbacks > processors * MOST_CALLBACKS {
            return None;
        }
        Some(Plan {
            callbacks,
            processors,
            runs,
            seed,
            flawed: false,
        })
    }

    /// How many callbacks processor `p` is to accept in a run.
    pub fn share(&self, p: u64) -> u64
        ensures least { self.now.callbacks / self.now.processors ≤ result }
        ensures most { result ≤ MOST_CALLBACKS }
        // (what is left over goes to the first processors, one to each)
        ensures first { p < self.now.callbacks % self.now.processors
            → result ≡ self.now.callbacks / self.now.processors + 1 }
        ensures others { self.now.callbacks % self.now.processors ≤ p
            → result ≡ self.now.callbacks / self.now.processors }
    {
        let even = self.callbacks / self.processors;
        if p < self.callbacks % self.processors {
            even.saturating_add(1)
        } else {
            even
        }
    }

    /// How a run ends.
    pub fn ending(&self, run: u64) -> Ending
        ensures { EndsAt (place_of self.now.seed run) result }
    {
        match self.seed.wrapping_add(run) % 4 {
            0 => Ending::DrainThenShut,
            1 => Ending::Shut,
            2 => Ending::Drain,
            _ => Ending::Halt,
        }
    }

    /// The shape of a run: which processors are offloadable, the stride, and the limits of a turn and of bypass lists are
    /// drawn.
    pub fn shape(&self, chance: &mut Chance) -> Option<Shape>
        ensures processors { IfSome result (λ s. s.processors ≡ self.now.processors) }
        ensures limit { IfSome result (λ s. s.limit ≡ MOST_CALLBACKS) }
    {
        let some = chance.word() | chance.word();
        Shape::new(
            self.processors,
            some & all_processors(self.processors),
            1 + chance.below(self.processors),
            1 + chance.below(MOST_TURN),
            1 + chance.below(MOST_BYPASS),
            MOST_CALLBACKS,
        )
    }
}

/// The options that take a number: the name of each, the least number, and what its help says, if anything.
static NUMBERS: [(&str, i64, Option<&str>); 4] = [
    (
        "callbacks",
        0,
        Some(
            "how many callbacks each run accepts; of short runs the history is checked by the law, too",
        ),
    ),
    ("processors", 1, None),
    ("runs", 1, None),
    ("seed", 0, None),
];

/// An option that takes a number from `least` on.
fn number(
    alloc: Global,
    name: &'static str,
    least: i64,
    help: Option<&'static str>,
) -> Arg<'static> {
    let option = Arg::new(alloc, name)
        .long(name)
        .value_parser(value_parser!(u64).range(least..));
    match help {
        Some(help) => option.help(help),
        None => option,
    }
}

/// The command line.
fn command<'a>(alloc: Global) -> Result<clap::Command<'a>, AllocError> {
    let mut command = clap::Command::new(alloc, "check_torture").no_binary_name(true);
    for (name, least, help) in &NUMBERS {
        command = command.arg(number(alloc, name, *least, *help))?;
    }
    command.arg(
        Arg::new(alloc, "flaws")
            .long("flaws")
            .help("meet each flaw once, by cases that the checks must refuse")
            .action(ArgAction::SetTrue),
    )
}

/// The plan that these options ask for. None where there are more processors than a runtime has, or more callbacks than they
/// accept.
fn plan_of(matches: &ArgMatches) -> Option<Plan> {
    let callbacks = matches.get_one("callbacks").unwrap_or(CALLBACKS);
    let processors = matches.get_one("processors").unwrap_or(PROCESSORS);
    let runs = matches.get_one("runs").unwrap_or(1);
    let seed = matches.get_one("seed").unwrap_or(SEED);
    let mut plan = Plan::new(callbacks, processors, runs, seed)?;
    plan.flawed = matches.get_flag("flaws");
    Some(plan)
}

/// What the words after the program's name say: `--callbacks N`, `--processors N`, `--runs N`, `--seed N` and `--flaws`.
///
/// # Errors
///
/// `Words` where clap refuses the words, help included; `TooMany` where there are more processors than a runtime has, or more
/// callbacks than they accept; want of memory.
pub fn read_plan(alloc: Global, words: &[String]) -> Result<Plan, Refusal> {
    let matches = command(alloc)?.try_get_matches_from(words)?;
    plan_of(&matches).ok_or(Refusal::TooMany)
}
