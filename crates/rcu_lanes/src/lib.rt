//! Lanes: the ordered hand-over of items between exactly two threads, with no lock. What was put on a lane is what was
//! drawn from it, and then what is left.
//!
//! The surface stands in docs/specification/surface.md, "rcu_lanes", and the lane law in
//! docs/specification/definitions.md, "The running parts: laws".
//!
//! # What is proved
//!
//! - The ordered hand-over between two threads with no lock: what was put is what was drawn, then what is left,
//!   in order.
//! - A refused put hands its item back.
//! - By `Rear::put`, `Front::draw`, `rest`, `Rest::take`, and the rule `KeepsLaneLaw`, which holds between any
//!   two steps.
#![tactic(auto)]

mod ends;
mod law;
mod rule;
mod whole;

pub use ends::{Draw, FIRST_SLOTS, Front, Rear, Rest};
pub use rule::{Anything, Rule};
pub use whole::{lane, rest, ruled_lane};
