//! How far a waiting callback is.

/// The label of a callback in a labelled list (`docs/specification/definitions.md`, "Lists").
#[derive(Clone, Copy, Debug, PartialEq, Eq)]
pub enum Label {
    /// Its grace period is over.
    Done,
    /// It waits for this grace-period number.
    At(u64),
    /// It has no number yet.
    Bare,
}
