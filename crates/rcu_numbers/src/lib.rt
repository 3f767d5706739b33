//! Grace-period numbers, the board's word, and the limits of a runtime. Nothing here takes memory.
//!
//! The rules stand in docs/specification/rules.md: "Grace-period numbers", "Quiescent reports" and "Limits".
//!
//! # What is proved
//!
//! - `snap` gives the least idle number at which a grace period that began after the look has ended.
//! - `started` refuses exactly from 2^31 - 4 on.
//! - A shape is made exactly within the limits.
//! - The board's word gives back the number and the bits that it took; a report clears the reporter's bit, no
//!   other, and not the number.
//! - By `snap` (`least`), `started` (`next`, `spent`), `ended`, `done`, `Shape::new` (`within`),
//!   `default_stride` (`stride`), `BoardWord::reported` (`number`, `cleared`, `others`), `word_laws`.
//! - A shape of the running parts is made exactly within their limits.
//! - By `PartsShape::new` (`within`, `placed`, `limits`).
//! - What a shape is for the running parts has the same numbers.
//! - By `Shape::for_parts`.
//! - A set has who was added, and no other.
//! - By `ProcessorSet::has`, `add` (`added`, `others`).
#![tactic(auto)]

mod for_parts;
mod parts_shape;
mod sequence;
mod set;
mod shape;
mod word;

pub use parts_shape::PartsShape;
pub use sequence::{GREATEST_NUMBER, LAST_NUMBER, NumbersSpent, done, ended, snap, started};
pub use set::{PARTS_PROCESSORS, ProcessorSet};
pub use shape::{
    DEFAULT_BLIMIT, DEFAULT_LIMIT, DEFAULT_QHIMARK, MOST_CALLBACKS, MOST_CALLS, MOST_PROCESSORS,
    Shape, default_stride,
};
pub use word::{BoardWord, all_but, all_processors, first_bits, word_laws};
