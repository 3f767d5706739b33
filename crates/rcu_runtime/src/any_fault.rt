//! One type for all that can go wrong in a program over a runtime.

ghost use Rattle.std.specs.Prelude.{◌≡◌};
ghost use Rattle.rcu_jobs.specs.Refusals.{switch_number};
ghost use Rattle.rcu_runtime.specs.Faults.{barrier_number, number_of};

use crate::fault::{NoProcessor, NotCalled, OtherBarrier};
use rcu_jobs::{BarrierFault, SwitchFault};
use std::alloc::AllocError;
use std::{fmt, io};
use thiserror::Error;

/// What `?` makes of the fault of any call on a runtime, of want of memory, and of a failed read or write; for programs that
/// hand it up to their `main`. The job that a refused call hands back is let go then: where it is to be kept, match on the
/// call's own fault.
#[derive(Drop, Error)]
pub enum AnyFault {
    Memory(#[from(alloc)] AllocError),
    Io(#[from] io::Error),
    /// [`Shape::new`](crate::Shape::new) has none.
    NoShape,
    NoProcessor(#[from] NoProcessor),
    OtherBarrier(#[from] OtherBarrier),
    /// By its number: docs/specification/surface.md, "Refusals by number".
    Refused(u64),
    /// The turns that were to be made are over, and some callback that the barrier counts hasn't run.
    NotPassed,
    /// A run in threads came to its end, and some callback hasn't run.
    NotDrained,
    /// Some part of a run in threads could not have one.
    NoThread,
    /// There is another number of workers than of processors.
    OtherNumber { processors: u64, workers: u64 },
    /// What the program itself found.
    Own(&'static str),
}

impl fmt::Display for AnyFault {
    fn fmt<W: fmt::Write>(&self, f: &mut fmt::Formatter<W>) -> fmt::Result {
        let text = match self {
            AnyFault::Memory(_) => "no memory",
            AnyFault::Io(fault) => return write!(f, "cannot read or write: {fault}"),
            AnyFault::NoShape => "no shape of these numbers",
            AnyFault::NoProcessor(fault) => return fmt::Display::fmt(fault, f),
            AnyFault::OtherBarrier(fault) => return fmt::Display::fmt(fault, f),
            AnyFault::Refused(number) => return write!(f, "refusal {number}"),
            AnyFault::NotPassed => "the barrier has not passed",
            AnyFault::NotDrained => "not all that was accepted has run",
            AnyFault::NoThread => "no thread for each part",
            AnyFault::OtherNumber {
                processors,
                workers,
            } => return write!(f, "{workers} workers for {processors} processors"),
            AnyFault::Own(text) => text,
        };
        f.write_str(text)
    }
}

/// The same words as `Display`, so that a `main` that returns it ends with them.
impl fmt::Debug for AnyFault {
    fn fmt<W: fmt::Write>(&self, f: &mut fmt::Formatter<W>) -> fmt::Result {
        write!(f, "{self}")
    }
}

impl<J: Drop> From<NotCalled<J>> for AnyFault {
    ghost use Rattle.rcu_runtime.specs.declared.any_fault.AnyFault.TheVariants.{Refused};

    ghost from_gives = { λ not_called fault. fault ≡ Refused (number_of not_called) };

    fn from(not_called: NotCalled<J>) -> AnyFault {
        AnyFault::Refused(not_called.number())
    }
}

impl From<SwitchFault> for AnyFault {
    ghost use Rattle.rcu_runtime.specs.declared.any_fault.AnyFault.TheVariants.{Refused};

    ghost from_gives = { λ refused fault. fault ≡ Refused (switch_number refused) };

    fn from(refused: SwitchFault) -> AnyFault {
        AnyFault::Refused(refused.number())
    }
}

impl From<BarrierFault> for AnyFault {
    ghost use Rattle.rcu_runtime.specs.declared.any_fault.AnyFault.TheVariants.{Refused};

    ghost from_gives = { λ refused fault. fault ≡ Refused (barrier_number refused) };

    fn from(refused: BarrierFault) -> AnyFault {
        AnyFault::Refused(match refused {
            BarrierFault::Memory => 2,
            BarrierFault::NoProcessor(_) => 6,
            BarrierFault::Ahead { .. } => 7,
        })
    }
}
