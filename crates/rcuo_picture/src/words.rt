//! The words of the command line.

ghost use Rattle.std.specs.Prelude.{◌≡◌};
ghost use Rattle.rcuo_picture.specs.Words.{Refuses};
ghost use Rattle.rcuo_picture.specs.declared.words.Refusal.TheVariants.{Fault};

use clap::error::ErrorKind;
use clap::{Arg, ArgAction};
use rcuo_script::Fault;
use std::alloc::{AllocError, Global};
use std::io;

/// What is written.
#[derive(Clone, Copy)]
pub enum Form {
    /// The picture alone.
    Svg,
    /// A page with the picture and the text of each event.
    Html,
}

/// Why there is no picture.
#[derive(Drop)]
pub enum Refusal {
    /// The words of the command line were refused; clap's text says why.
    Words(clap::Error),
    /// A word of the command line is no text.
    NoText,
    /// The setup can't be had, or the picture can't be written.
    Fault(Fault),
}

impl From<Fault> for Refusal {
    ghost from_gives = { λ fault refusal. refusal ≡ Fault fault };

    fn from(fault: Fault) -> Refusal {
        Refusal::Fault(fault)
    }
}

impl From<clap::Error> for Refusal {
    ghost from_gives = { Refuses };

    fn from(error: clap::Error) -> Refusal {
        if error.kind() == ErrorKind::OutOfMemory {
            Refusal::Fault(Fault::memory())
        } else {
            Refusal::Words(error)
        }
    }
}

/// The words of the command line after the program's name.
pub fn words(rt: &HostRuntime) -> Result<Vec<String>, Refusal> {
    let given = match std::env::args(rt) {
        Ok(given) => given,
        Err(error) if error.kind() == io::ErrorKind::OutOfMemory => {
            return Err(Refusal::Fault(Fault::memory()));
        }
        Err(_) => return Err(Refusal::NoText),
    };
    let mut words = Vec::new(rt.alloc());
    for word in given.skip(1) {
        let Ok(()) = words.push(word) else {
            return Err(Refusal::Fault(Fault::memory()));
        };
    }
    Ok(words)
}

fn command<'a>(alloc: Global) -> Result<clap::Command<'a>, AllocError> {
    clap::Command::new(alloc, "rcuo_picture")
        .no_binary_name(true)
        .about("Draws the run of a setup's script, which it reads from standard input, as an SVG")
        .after_help("Example: rcuo_picture < examples/first-run.toml > first-run.svg")
        .arg(
            Arg::new(alloc, "html")
                .long("html")
                .help("write a page with the picture and the text of each event")
                .action(ArgAction::SetTrue),
        )
}

/// What the words ask for.
pub fn read_form(alloc: Global, words: &[String]) -> Result<Form, Refusal> {
    let Ok(command) = command(alloc) else {
        return Err(Refusal::Fault(Fault::memory()));
    };
    let matches = command.try_get_matches_from(words)?;
    if matches.get_flag("html") {
        Ok(Form::Html)
    } else {
        Ok(Form::Svg)
    }
}
