//! The faults of a run, and their lines on standard error: docs/specification/tables.md, "Fault lines".

ghost use Rattle.std.specs.Prelude.{◌≡◌, OnOk};
ghost use Rattle.std.specs.Io.KnownBytes.{Appends};
ghost use Rattle.rcuo_script.specs.FaultLines.{fault_line};
ghost use Rattle.rcuo_script.specs.declared.fault.Fault.TheVariants.{Setup};
ghost use Rattle.rcu_setup.specs.declared.fault.SetupFault.TheVariants.{Memory};

use rcu_setup::SetupFault;
use std::alloc::{AllocError, AllocFailed};
use std::io;
use std::io::Write;

/// What went wrong once the words of the command line were taken.
#[derive(Drop)]
pub enum Fault {
    /// The setup is at fault, or a growth was refused.
    Setup(SetupFault),
    /// A read failed.
    CannotRead,
    /// A write failed.
    CannotWrite,
    /// A thread can't be made, or the barrier of a run in threads is refused.
    CannotRun,
}

impl Fault {
    /// A growth was refused.
    pub fn memory() -> Fault
        ensures { result ≡ Setup Memory }
    {
        Fault::Setup(SetupFault::Memory)
    }
}

impl From<SetupFault> for Fault {
    ghost from_gives = { λ fault f. f ≡ Setup fault };

    fn from(fault: SetupFault) -> Fault {
        Fault::Setup(fault)
    }
}

impl From<AllocError> for Fault {
    ghost from_gives = { λ _ f. f ≡ Setup Memory };

    fn from(_error: AllocError) -> Fault {
        Fault::Setup(SetupFault::Memory)
    }
}

impl<T: Drop> From<AllocFailed<T>> for Fault {
    ghost from_gives = { λ _ f. f ≡ Setup Memory };

    fn from(_error: AllocFailed<T>) -> Fault {
        Fault::Setup(SetupFault::Memory)
    }
}

/// Writes the line of a fault. It takes no memory, so that the want of it can be told too.
pub fn write_fault<W: Write>(fault: &Fault, writer: &mut W) -> io::Result<()>
    ensures { OnOk result
        (Appends (W.contents writer.old) (W.contents writer.new) (fault_line fault.now)) }
{
    match fault {
        Fault::Setup(fault) => writeln!(writer, "{fault}"),
        Fault::CannotRead => writeln!(writer, "fault 19: cannot read input"),
        Fault::CannotWrite => writeln!(writer, "fault 20: cannot write output"),
        Fault::CannotRun => writeln!(writer, "fault 21: cannot run threads"),
    }
}
