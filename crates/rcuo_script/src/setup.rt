//! The setup that a reader holds.

ghost use Rattle.std.specs.Prelude.{◌≡◌, IfErr, IfOk, IfSome, Ok};
ghost use Rattle.rcu_setup.specs.Setup.{setup_of, setup_view};
ghost use Rattle.rcuo_script.specs.Reading.{IsFaultOf, TakesAtMost};

use crate::fault::Fault;
use crate::read::read_text;
use rcu_setup::{Setup, SetupFault, read_setup};
use std::alloc::Global;
use std::io::Read;

/// The most bytes that are read of a setup: one more than a setup may have.
pub const MOST_READ: usize = 1048577;

/// How many bytes are read at once.
const PIECE: usize = 4096;

/// The setup of the bytes that the reader holds, of which at most [`MOST_READ`] are read.
///
/// # Errors
///
/// The setup's fault; the fault of a failed read; want of memory.
pub fn setup_of<R: Read>(alloc: Global, reader: &mut R) -> Result<Setup, Fault>
    ensures most { TakesAtMost MOST_READ (R.remaining reader.old) (R.remaining reader.new) }
    ensures exact { IfSome (R.remaining reader.old) (λ bytes.
        IfOk result (λ setup. setup_of bytes ≡ Ok (setup_view setup))) }
    ensures fault { IfSome (R.remaining reader.old) (λ bytes.
        IfErr result (λ fault. IsFaultOf bytes fault)) }
{
    let bytes = read_text(alloc, reader, MOST_READ, PIECE)?;
    let Ok(text) = std::str::from_utf8(bytes.as_slice()) else {
        return Err(Fault::Setup(SetupFault::NotToml));
    };
    match read_setup(alloc, text) {
        Ok(setup) => Ok(setup),
        Err(fault) => Err(Fault::Setup(fault)),
    }
}
