//! The limits of a setup's text: docs/specification/rules.md, "Limits", and docs/specification/tables.md.

/// The most bytes that a setup has.
pub const MOST_BYTES: usize = 1048576;

/// The most routes that a setup lists.
pub const MOST_ROUTES: usize = 64;

/// The most lines that a script has.
pub const MOST_LINES: usize = 50000;

/// The most calls that `threads` makes on each processor.
pub const MOST_CALLS: u64 = 1000;

/// The most characters of a NAME.
pub const NAME_LENGTH: usize = 16;

/// The most digits of a HOP.
pub const HOP_DIGITS: usize = 9;

/// The most digits of a NUM of a CPU list.
pub const NUM_DIGITS: usize = 4;

/// The most digits of a P or a G of a script line.
pub const PLACE_DIGITS: usize = 2;

/// The most digits of an M, the moment of a script line.
pub const MOMENT_DIGITS: usize = 18;
