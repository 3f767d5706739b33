//! Lines of a script: docs/specification/tables.md, "Script commands and what they print".

ghost use Rattle.std.specs.Prelude.{◌≡◌, ◌<◌, ◌≤◌, option_and_then, option_map, map, string_bytes, IfOk, IfErr, None, codes, false, true, if◌then◌else◌};
ghost use Rattle.std.specs.Str.{bytes_eq};
ghost use Rattle.rcu_setup.specs.Faults.{Gives, named};
ghost use Rattle.rcu_setup.specs.Line.{call_view, call_line, tick_of, line_of, bare, placed, call_of, words_line, or_bad_line, script_line_of};
ghost use Rattle.rcu_setup.specs.Words.{number};

use crate::fault::SetupFault;
use crate::limits::{MOMENT_DIGITS, PLACE_DIGITS};
use crate::words::{hop, is_name, number};
use std::alloc::Global;

/// A line of a script. Its numbers are as written; whether there is such a processor or group is not asked here.
#[derive(Drop)]
pub enum Command {
    /// `call P M NAME HOP`
    Call {
        cpu: u64,
        moment: u64,
        name: String,
        hop: u32,
    },
    /// `lazy P M NAME HOP`
    Lazy {
        cpu: u64,
        moment: u64,
        name: String,
        hop: u32,
    },
    /// `quiet P`
    Quiet {
        cpu: u64,
    },
    /// `tick P M`
    Tick {
        cpu: u64,
        moment: u64,
    },
    /// `driver`
    Driver,
    /// `group G`
    Group {
        group: u64,
    },
    /// `hand P`
    Hand {
        cpu: u64,
    },
    /// `offload P`
    Offload {
        cpu: u64,
    },
    /// `deoffload P`
    Deoffload {
        cpu: u64,
    },
    /// `leave P`
    Leave {
        cpu: u64,
    },
    /// `return P`
    Return {
        cpu: u64,
    },
    /// `barrier`
    Barrier,
    /// `poll`
    Poll,
    /// `shut`
    Shut,
    /// `show`
    Show,
}

/// The numbers and the name of a call.
struct CallWords<'a> {
    cpu: u64,
    moment: u64,
    name: &'a str,
    hop: u32,
}

/// The command of a line of one word.
#[tactic(auto, unfolding(crate::specs::Line::bare))]
fn bare(word: &str) -> Option<Command>
    ensures { option_map line_of result ≡ bare word.now }
{
    match word {
        "driver" => Some(Command::Driver),
        "barrier" => Some(Command::Barrier),
        "poll" => Some(Command::Poll),
        "shut" => Some(Command::Shut),
        "show" => Some(Command::Show),
        _ => None,
    }
}

/// The command of a word and a place, the P or G behind it.
#[tactic(auto, unfolding(crate::specs::Line::placed))]
fn placed(word: &str, place: u64) -> Option<Command>
    ensures { option_map line_of result ≡ placed word.now place }
{
    match word {
        "quiet" => Some(Command::Quiet { cpu: place }),
        "group" => Some(Command::Group { group: place }),
        "hand" => Some(Command::Hand { cpu: place }),
        "offload" => Some(Command::Offload { cpu: place }),
        "deoffload" => Some(Command::Deoffload { cpu: place }),
        "leave" => Some(Command::Leave { cpu: place }),
        "return" => Some(Command::Return { cpu: place }),
        _ => None,
    }
}

/// What P M NAME HOP say.
#[tactic(auto, unfolding(crate::specs::Line::call_of))]
fn call_words<'a>(place: &str, moment: &str, name: &'a str, hop_text: &str) -> Option<CallWords<'a>>
    ensures { option_map call_view result ≡ call_of place.now moment.now name.now hop_text.now }
{
    let cpu = number(place, PLACE_DIGITS)?;
    let moment = number(moment, MOMENT_DIGITS)?;
    let hop = hop(hop_text)?;
    if is_name(name) {
        Some(CallWords {
            cpu,
            moment,
            name,
            hop,
        })
    } else {
        None
    }
}

/// A name on the heap.
fn name_of(alloc: Global, text: &str) -> Result<String, SetupFault>
    ensures ok { IfOk result (λ s. string_bytes s ≡ text.now) }
    ensures err { IfErr result (λ e. named e ≡ None) }
{
    Ok(String::from_str(alloc, text)?)
}

/// The command of a line of three words.
#[tactic(auto, unfolding(crate::specs::Line::tick_of))]
fn tick(word: &str, place: &str, moment: &str) -> Option<Command>
    ensures { option_map line_of result ≡ tick_of word.now place.now moment.now }
{
    if word != "tick" {
        return None;
    }
    let cpu = number(place, PLACE_DIGITS)?;
    let moment = number(moment, MOMENT_DIGITS)?;
    Some(Command::Tick { cpu, moment })
}

fn or_bad_line(found: Option<Command>) -> Result<Command, SetupFault>
    ensures { Gives line_of result (or_bad_line (option_map line_of found)) }
{
    match found {
        Some(command) => Ok(command),
        None => Err(SetupFault::BadLine(1)),
    }
}

/// The command of a call, which is lazy or not.
fn call_line(alloc: Global, lazy: bool, words: Option<CallWords<'_>>) -> Result<Command, SetupFault>
    ensures { Gives line_of result
        (or_bad_line (option_map (call_line lazy) (option_map call_view words.entry))) }
{
    let Some(
        CallWords {
            cpu,
            moment,
            name,
            hop,
        },
    ) = words
    else {
        return Err(SetupFault::BadLine(1));
    };
    let name = name_of(alloc, name)?;
    if lazy {
        Ok(Command::Lazy {
            cpu,
            moment,
            name,
            hop,
        })
    } else {
        Ok(Command::Call {
            cpu,
            moment,
            name,
            hop,
        })
    }
}

/// The command of a line of two words.
fn placed_line(word: &str, place: &str) -> Option<Command>
    ensures { option_map line_of result ≡ option_and_then (placed word.now) (number 2 place.now) }
{
    placed(word, number(place, PLACE_DIGITS)?)
}

/// The command of a line of five words, a call.
fn called(
    alloc: Global,
    word: &str,
    place: &str,
    moment: &str,
    name: &str,
    hop: &str,
) -> Result<Command, SetupFault>
    ensures { let call = call_of place.now moment.now name.now hop.now in
        Gives line_of result (or_bad_line
        (if bytes_eq word.now (codes "call") then option_map (call_line false) call
        else if bytes_eq word.now (codes "lazy") then option_map (call_line true) call
        else None)) }
{
    match word {
        "call" => call_line(alloc, false, call_words(place, moment, name, hop)),
        "lazy" => call_line(alloc, true, call_words(place, moment, name, hop)),
        _ => Err(SetupFault::BadLine(1)),
    }
}

/// The command of the words of a line.
fn words_line(alloc: Global, words: &[&str]) -> Result<Command, SetupFault>
    ensures { Gives line_of result (or_bad_line (words_line (map (λ word. word.now) words.now))) }
{
    match words {
        [word] => or_bad_line(bare(word)),
        [word, place] => or_bad_line(placed_line(word, place)),
        [word, place, moment] => or_bad_line(tick(word, place, moment)),
        [word, place, moment, name, hop] => called(alloc, word, place, moment, name, hop),
        _ => Err(SetupFault::BadLine(1)),
    }
}

/// The command that a line says.
///
/// # Errors
///
/// `BadLine(1)` where the line isn't in the grammar, and `Memory`.
pub fn script_line(alloc: Global, text: &str) -> Result<Command, SetupFault>
    ensures { Gives line_of result (script_line_of text.now) }
{
    let words: Vec<&str> = text.split(' ').collect(alloc)?;
    words_line(alloc, words.as_slice())
}
