//! Why a run wasn't made as it was asked for.

use rcu_runtime::AnyFault;
use std::alloc::AllocError;
use thiserror::Error;

/// Why a run wasn't made as it was asked for. Nothing is lost: the runtime and the workers come back beside it.
#[derive(Clone, Copy, Debug, PartialEq, Eq, Error)]
pub enum WorkersFault {
    /// No memory for the run's lists. Nothing was started.
    #[error("no memory for a run in threads")]
    Memory,
    /// There is another number of workers than of processors. Nothing was started.
    #[error("{workers} workers for {processors} processors")]
    OtherNumber { processors: u64, workers: u64 },
    /// Some part could not have a thread. No worker made a step.
    #[error("no thread for each part")]
    NoThread,
    /// The run came to its end, but some callback hasn't run.
    #[error("not all that was accepted has run")]
    NotDrained,
}

impl From<WorkersFault> for AnyFault {
    ghost use Rattle.rcu_runtime_threads.specs.Faults.{IsToldAs};

    ghost from_gives = { λ fault any_fault. IsToldAs fault any_fault };

    fn from(fault: WorkersFault) -> AnyFault {
        match fault {
            WorkersFault::Memory => AnyFault::Memory(AllocError),
            WorkersFault::OtherNumber {
                processors,
                workers,
            } => AnyFault::OtherNumber {
                processors,
                workers,
            },
            WorkersFault::NoThread => AnyFault::NoThread,
            WorkersFault::NotDrained => AnyFault::NotDrained,
        }
    }
}
