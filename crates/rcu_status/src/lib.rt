//! The lines in which a run shows its lists, and the totals at its end.
//!
//! Their texts stand in docs/specification/tables.md, "Lines of `show`" and "Totals".
//!
//! # What is proved
//!
//! - The exact bytes of each line of `show` and of the totals.
//! - By `line`, `totals`, `counts`.
#![tactic(auto)]

mod closed;
mod numbers;
mod show;

pub use closed::totals;
pub use numbers::counts;
pub use show::line;
