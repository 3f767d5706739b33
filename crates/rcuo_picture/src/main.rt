//! Draws the run of a setup's script, as an SVG: `rcuo_picture < SETUP > PICTURE`, or as a page by `--html`. The script runs over
//! the deterministic core, as `rcuo replay` runs it over the running parts (docs/specification/program.md, "replay").
//!
//! Time goes to the right, a column for each command. Each part has a row, and each callback one from its acceptance to its run,
//! in the colour of the list that holds it; grace periods are bands.
//!
//! # What is proved
//!
//! - A program for looking alone.
//! - That it is safe and returns, that each call has the job of its key, that each step has the answer of its
//!   command and that answer's text, and that a callback which waits is shown in the list that has it: the
//!   newest are in the own list, then come those of the bypass list, and then those with the group or the hand.
//! - What it draws is tested.
//! - By `place_of` (`later`, `ran`, `own`, `bypass`, `group`), `job_of` (`call`, `key`), `perform` (`show`,
//!   `line`, `text`; `HasAnswer` in `specs/Steps.antt`), `play` (`commands`).
#![tactic(auto)]

mod callbacks;
mod drawing;
mod legend;
mod marks;
mod page;
mod pen;
mod places;
mod rows;
mod runs;
mod words;

use page::write_page;
use rcuo_script::{Fault, setup_of, write_fault};
use runs::play;
use std::io;
use std::io::Write;
use std::process::ExitCode;
use words::{Form, Refusal, read_form, words};

/// Draws the setup on standard input.
fn draw(host: &HostRuntime, form: Form) -> Result<(), Fault> {
    let alloc = host.alloc();
    let setup = setup_of(alloc, &mut host.stdin())?;
    let run = play(alloc, &setup)?;
    let mut writer = io::writer(host);
    let Ok(()) = write_page(alloc, &run, form, &mut writer) else {
        return Err(Fault::CannotWrite);
    };
    match writer.flush() {
        Ok(()) => Ok(()),
        Err(_) => Err(Fault::CannotWrite),
    }
}

fn run(host: &HostRuntime) -> Result<(), Refusal> {
    let words = words(host)?;
    let form = read_form(host.alloc(), words.as_slice())?;
    draw(host, form)?;
    Ok(())
}

fn main(rt: HostRuntime) -> ExitCode {
    match run(&rt) {
        Ok(()) => ExitCode::SUCCESS,
        Err(Refusal::Words(error)) => {
            let _ = rt.eprint(&error);
            ExitCode::from(2)
        }
        Err(Refusal::NoText) => {
            let _ = rt.eprint("error: a word of the command line is no text\n");
            ExitCode::from(2)
        }
        Err(Refusal::Fault(fault)) => {
            let _ = write_fault(&fault, &mut rt.stderr());
            ExitCode::from(1)
        }
    }
}
