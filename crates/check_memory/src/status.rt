//! The scenario of the lines of lists and totals.

ghost use Rattle.std.specs.Prelude.{◌≡◌, ◌↔◌, IsOkAnd, IsTrue, string_bytes};

use crate::growth::{Broken, Fault, Growth, Refusals, stands};
use crate::work::Work;
use rcu_jobs::{Closed, Lists, Mode, Record};
use rcu_status::{line, totals};
use std::alloc::{AllocError, Global};

static SHOWN: Lists = Lists::Cpu {
    mode: Mode::Deoffloading,
    accepted: 1000000,
    bypass: 12,
    lengths: [123456, 7, 8, 9],
    numbers: [4, 8],
};

const LINE: &str =
    "cpu 31 Deoffloading accepted 1000000 bypass 12 done 123456 wait 7@4 ready 8@8 next 9\n";

const TOTALS: &str = "cpu 0 ran 1 back 1 routes 7\nreports 3\n";

/// The records of one processor, which ran a callback.
fn ran(alloc: Global) -> Result<Vec<Vec<Record<u64>>>, Fault> {
    let record = Record {
        number: 0,
        key: 7,
        stamp: 0,
        ready: 4,
        receipt: 7,
    };
    Ok(vec![in alloc; vec![in alloc; record]?]?)
}

/// The jobs of one processor that are handed back.
fn back(alloc: Global) -> Result<Vec<Vec<Work>>, Fault> {
    Ok(vec![in alloc; vec![in alloc; Work { key: 8 }]?]?)
}

/// What was closed: a callback that ran, one that is handed back, three reports.
fn closed(alloc: Global) -> Result<Closed<Work>, Fault> {
    Ok(Closed {
        ran: ran(alloc)?,
        back: back(alloc)?,
        reports: vec![in alloc; 3]?,
    })
}

/// Whether this text was written.
fn is_text(written: &Result<String, AllocError>, text: &str) -> bool
    ensures { IsTrue result ↔ IsOkAnd written.now (λ s. string_bytes s ≡ text.now) }
{
    match written {
        Ok(written) => written.as_str() == text,
        Err(_) => false,
    }
}

/// A line of `show`, again where memory was wanted.
fn write_line(alloc: Global, refusals: &mut Refusals) -> Result<(), Broken> {
    let mut text = line(alloc, 31, &SHOWN);
    if text.is_err() {
        refusals.note(Growth::Line)?;
        text = line(alloc, 31, &SHOWN);
    }
    stands(is_text(&text, LINE), Growth::Line, "another text")
}

/// The totals, again where memory was wanted.
fn write_totals(
    alloc: Global,
    refusals: &mut Refusals,
    closed: &Closed<Work>,
) -> Result<(), Broken> {
    let mut text = totals(alloc, closed, true);
    if text.is_err() {
        refusals.note(Growth::Totals)?;
        text = totals(alloc, closed, true);
    }
    stands(is_text(&text, TOTALS), Growth::Totals, "another text")
}

/// The scenario: a line of `show`, and the totals.
pub fn play_status(alloc: Global) -> Result<Refusals, Fault> {
    let closed = closed(alloc)?;
    let mut refusals = Refusals::new();
    write_line(alloc, &mut refusals)?;
    write_totals(alloc, &mut refusals, &closed)?;
    Ok(refusals)
}
