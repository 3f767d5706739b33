//! Who acts in an event.

/// Who claims: `by` of the events `Claim` and `Finish` (`docs/specification/tables.md`, "Events of the core").
#[derive(Clone, Copy, Debug, PartialEq, Eq)]
pub enum Side {
    /// The processor, from its own list.
    Local,
    /// Its hand, from the batch that it holds.
    Hand,
}

/// Who asks for a grace period: `who` of the event `Need` (`docs/specification/tables.md`, "Events of the core").
#[derive(Clone, Copy, Debug, PartialEq, Eq)]
pub enum Who {
    /// The processor of this number.
    Cpu(u64),
    /// The group of this number.
    Group(u64),
}
