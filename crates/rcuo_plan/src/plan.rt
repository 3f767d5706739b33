//! What a run is to do: the subcommand that the words name, and the setup that is read.

ghost use Rattle.std.specs.Prelude.{◌≡◌, ◌≢◌, ℕ, List, false, IfErr, IfOk, IfSome, Ok, map, string_bytes};
ghost use Rattle.clap.specs.Words.{app_of, kind_of, new_app, shape_of};
ghost use Rattle.clap.specs.declared.builder.command.Command.TheViews.{out-Command};
ghost use Rattle.rcu_setup.specs.Setup.{setup_of, setup_view};
ghost use Rattle.rcuo_script.specs.Reading.{TakesAtMost};
ghost use Rattle.rcuo_plan.specs.declared.plan.Refusal.TheVariants.{Fault};
ghost use Rattle.rcuo_script.specs.declared.fault.Fault.TheVariants.{Setup};
ghost use Rattle.rcu_setup.specs.declared.fault.SetupFault.TheVariants.{Memory};
ghost use Rattle.rcuo_plan.specs.Plan.{NamesFaultOf, Names, RefusesWords, rcuo, rcuo_top};

use clap::error::ErrorKind;
use rcu_setup::Setup;
use rcuo_script::{Fault, MOST_READ, setup_of};
use std::alloc::{AllocError, AllocFailed, Global};
use std::io::Read;

/// Why there is no plan.
#[derive(Drop)]
pub enum Refusal {
    /// The words of the command line were refused; clap's text says why.
    Words(clap::Error),
    /// A word of the command line is no text.
    NoText,
    /// The setup can't be had, or the run failed.
    Fault(Fault),
}

impl From<Fault> for Refusal {
    ghost from_gives = { λ fault refusal. refusal ≡ Fault fault };

    fn from(fault: Fault) -> Refusal {
        Refusal::Fault(fault)
    }
}

impl From<AllocError> for Refusal {
    ghost from_gives = { λ _ refusal. refusal ≡ Fault (Setup Memory) };

    fn from(_error: AllocError) -> Refusal {
        Refusal::Fault(Fault::memory())
    }
}

impl<T: Drop> From<AllocFailed<T>> for Refusal {
    ghost from_gives = { λ _ refusal. refusal ≡ Fault (Setup Memory) };

    fn from(_error: AllocFailed<T>) -> Refusal {
        Refusal::Fault(Fault::memory())
    }
}

/// The subcommands of the program.
#[derive(Clone, Copy)]
pub enum Subcommand {
    /// The script's commands in one thread.
    Replay,
    /// So many calls of each processor, each part in a thread of its own.
    Threads,
}

/// What a run is to do.
#[derive(Drop)]
pub struct Plan {
    pub subcommand: Subcommand,
    pub setup: Setup,
}

fn refused(error: clap::Error) -> Refusal
    ensures words { RefusesWords result → kind_of error ≢ ErrorKind.OutOfMemory }
    ensures fault { (bytes : List ℕ) → NamesFaultOf bytes result }
{
    if error.kind() == ErrorKind::OutOfMemory {
        Refusal::Fault(Fault::memory())
    } else {
        Refusal::Words(error)
    }
}

/// The version of the project (CHANGELOG.md).
const VERSION: &str = "0.1.0";

const ABOUT: &str =
    "Replays or runs a runtime of deferred work, as the setup on standard input says";

const STATUSES: &str =
    "The setup is a TOML document (docs/specification/tables.md, \"Setup keys\"). What the calls answer goes to standard output.

Exit status: 0 done; 1 a fault, which standard error names in one line; 2 the words were refused.

Example: rcuo replay < examples/first-run.toml";

const ABOUT_REPLAY: &str =
    "Runs the setup's script in one thread, a call for each command, and prints each answer, and then the totals";

const AFTER_REPLAY: &str =
    "Reads a setup with a script; writes a line for each command, and at the end a line for each processor and the reports.

Exit status: 0 done; 1 a fault; 2 the words were refused.

Example: rcuo replay < examples/switching-under-load.toml";

const ABOUT_THREADS: &str =
    "Runs each part in a thread of its own, with the setup's number of calls on each processor, and prints the totals";

const AFTER_THREADS: &str =
    "Reads a setup whose calls say how many calls each processor makes; writes a line for each processor.

Exit status: 0 done; 1 a fault; 2 the words were refused.

Example: rcuo threads < examples/threads-4.toml";

/// The command line without its subcommands.
fn top<'a>(alloc: Global) -> clap::Command<'a>
    ensures { app_of result ≡ rcuo_top }
{
    clap::Command::new(alloc, "rcuo")
        .version(VERSION)
        .about(ABOUT)
        .after_help(STATUSES)
        .no_binary_name(true)
        .subcommand_required(true)
}

/// A subcommand without words of its own.
fn leaf<'a>(alloc: Global, name: &'a str, about: &'a str, after: &'a str) -> clap::Command<'a>
    ensures shape { shape_of result ≡ (new_app name.entry.now).top }
    ensures globals { (out-Command result).has_globals ≡ false }
{
    clap::Command::new(alloc, name)
        .about(about)
        .after_help(after)
}

fn command<'a>(alloc: Global) -> Result<clap::Command<'a>, AllocError>
    ensures { IfOk result (λ c. app_of c ≡ rcuo) }
{
    top(alloc)
        .subcommand(leaf(alloc, "replay", ABOUT_REPLAY, AFTER_REPLAY))?
        .subcommand(leaf(alloc, "threads", ABOUT_THREADS, AFTER_THREADS))
}

fn subcommand_of(alloc: Global, words: &[String]) -> Result<Subcommand, clap::Error>
    // One word that names a subcommand is not refused but for want of memory.
    ensures err { (s : Subcommand) → Names (map string_bytes words.now) s
        → IfErr result (λ e. kind_of e ≡ ErrorKind.OutOfMemory) }
    ensures ok { (s : Subcommand) → Names (map string_bytes words.now) s
        → IfOk result (λ found. found ≡ s) }
{
    let matches = command(alloc)?.try_get_matches_from(words)?;
    match matches.subcommand_matches("threads") {
        Some(_) => Ok(Subcommand::Threads),
        None => Ok(Subcommand::Replay),
    }
}

/// The subcommand that the words name, and the setup that the reader holds. The words are those after the program's
/// name; they are looked at before anything is read.
///
/// # Errors
///
/// `Words` where clap refuses the words, help included; else the setup's fault, the fault of a failed read, or want of
/// memory.
pub fn read_plan<R: Read>(alloc: Global, words: &[String], reader: &mut R) -> Result<Plan, Refusal>
    ensures taken { (s : Subcommand) → Names (map string_bytes words.now) s
        → IfErr result (λ e. ¬ RefusesWords e) }
    ensures named { (s : Subcommand) → Names (map string_bytes words.now) s
        → IfOk result (λ plan. plan.subcommand ≡ s) }
    ensures most { TakesAtMost MOST_READ (R.remaining reader.old) (R.remaining reader.new) }
    ensures untouched { IfErr result (λ e.
        RefusesWords e → R.remaining reader.new ≡ R.remaining reader.old) }
    // The setup is the one of the bytes read, and so is a fault that is named.
    ensures exact { IfSome (R.remaining reader.old) (λ bytes.
        IfOk result (λ plan. setup_of bytes ≡ Ok (setup_view plan.setup))) }
    ensures fault { IfSome (R.remaining reader.old) (λ bytes.
        IfErr result (λ e. NamesFaultOf bytes e)) }
{
    let subcommand = match subcommand_of(alloc, words) {
        Ok(subcommand) => subcommand,
        Err(error) => return Err(refused(error)),
    };
    match setup_of(alloc, reader) {
        Ok(setup) => Ok(Plan { subcommand, setup }),
        Err(fault) => Err(Refusal::Fault(fault)),
    }
}
