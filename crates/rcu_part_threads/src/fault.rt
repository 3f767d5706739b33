//! Why a runtime isn't run in threads.

/// Why a runtime was not run in threads (docs/specification/tables.md, "Fault lines"). No thread is left.
#[derive(Clone, Copy, Debug, PartialEq, Eq)]
pub enum ThreadsFault {
    /// Fault 2: no memory.
    Memory,
    /// Fault 21: a thread can't be made, or the barrier is refused.
    CannotRun,
}
