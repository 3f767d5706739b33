//! The order of a processor's callbacks: where each accepted number is, and all of its records as one list.
//!
//! The law of places is over plain lists: what a processor claimed, put and holds, what a group and a hand drew, and how they
//! make one order (docs/specification/definitions.md, "Places"). It speaks of no seat, word or lane; the running parts keep
//! it as their invariant. A processor and its hand both run callbacks of the processor, each only under a claim of the
//! callback's number, and each number is claimed once ("Turn law"); so at the end their two lists of records have the numbers
//! 0, 1, 2, .. between them.
//!
//! # What is proved
//!
//! - What a processor claimed, put and holds is what it accepted, in rising numbers.
//! - By `places_of_a_processor`, `held_in_order`.
//! - What a group drew is what it put, keeps in its list, and has waiting, in order.
//! - By `places_of_a_group`.
//! - Where each number below `m` was claimed once, the claims of processor and hand make one order.
//! - By `one_order` (`begins`, `next`, `ends`).
//! - Their records by number are those of 0 to `m - 1` then, each whole; the others are from `m` on.
//! - By `records_in_order` (`order`, `records`, `given`, `ripe`, `seen`), `merge_records` (`merged`).
//! - What ran is a history of all records; those left are its last ones: all, as long as the open keeps all.
//! - By `Records::find_room` (`same`, `room`), `add` (`added`), `take` (`taken`, `rest`), `len`,
//!   `records_left`, `into_left`.
#![tactic(auto)]

mod laws;
mod recorded;
mod records;

pub use laws::{
    held_in_order, one_order, places_of_a_group, places_of_a_processor, records_in_order,
};
pub use recorded::{Kept, Records};
pub use records::merge_records;
