//! How a runtime ends: what is left of each processor, and what all seats of the board know once they are one.
//!
//! The ends of a processor's lanes come together, the records of the processor and of its hand become one list in the order
//! of their numbers, and the jobs that did not run are handed back. All room is found before anything moves. The last loads
//! of the seat that took in all others say the rest of what `close` promises (docs/specification/promises.md, "Headline on
//! the running parts", close).
//!
//! # What is proved
//!
//! - The end of one processor: the ends of its lanes come together, its records and its hand's become one list,
//!   and all other jobs come back, place after place.
//! - Where each number below `m` was claimed once, by the processor or its hand, the records are those of the
//!   accepted numbers 0 to `m - 1`, with keys and stamps and each wait over, and the jobs handed back are those
//!   of the callbacks that no one ran, which have the numbers from `m` on, in order.
//! - Where jobs are sound these have the accepted keys, and each receipt is as its job gives it.
//! - All room is found before anything moves.
//! - What is known once all seats are one.
//! - The weights, claims and tallies of the views add up, and no view's sight is above the gathered one.
//! - From one load of the number and of each turn word, accept word and report word: if all parts have ended as
//!   above, then for each processor the records and the jobs handed back are the accepted list, each record
//!   whole one of the processor's or its hand's and each job that of a callback that no one ran, the claims of
//!   all views are the records' numbers, each once.
//! - Each processor passed a grace period between a record's stamp and the sight by which it ran, by a report
//!   in it or by being away.
//! - Half of no view's sight of the turn word is above the count of those that ran.
//! - And each view's sight of the accept word, where it is odd, has the accepted count as its half.
//! - A processor that was never away passed each by a report.
//! - By `end_offloadable` (`passed`, `back`, `ends`), `end_local` (`ran`, `back`, `ends`), `Ended::with_room`;
//!   `gathering` (`weights`, `claims`, `tallies`, `sights`), `settle` (`settled`), `closing` (`ends`,
//!   `closes`), `reporting` (`numbers`, `count`).
#![tactic(auto)]

mod ended;
mod last_loads;
mod laws;
mod processor_end;
mod taken;

pub use ended::ProcessorEnd;
pub use last_loads::settle;
pub use laws::{closing, gathering, reporting};
pub use processor_end::{end_local, end_offloadable};
