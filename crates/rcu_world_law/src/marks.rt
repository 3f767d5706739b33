//! What a history consists of.

/// One entry of the history (`docs/specification/tables.md`, "Events of the core").
///
/// Processors and barriers are named by their numbers, callbacks by the keys of their jobs.
#[derive(Clone, Copy, Debug, PartialEq, Eq)]
pub enum Mark {
    /// `Accepted(p, key)`: processor `p` took the callback on.
    Accepted(u64, u64),
    /// `Reported(q)`: a report of `q` cleared its bit.
    Reported(u64),
    /// `Ran(p, key)`: the callback was claimed, and runs.
    Ran(u64, u64),
    /// `Opened(b)`: barrier `b` was opened.
    Opened(u64),
    /// `Passed(b)`: barrier `b` passed.
    Passed(u64),
    /// `Shut(p)`: processor `p` takes no more on.
    Shut(u64),
    /// `Back(p, key)`: the callback never ran and was handed back.
    Back(u64, u64),
}
