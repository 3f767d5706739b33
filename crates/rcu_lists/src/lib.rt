//! The lists that callbacks wait in: segments, the bypass list, and the batch in which callbacks go over a lane.
//!
//! A processor has segments, a group segments over the blocks that batches came in, an offloaded processor a bypass list.
//! Nothing here looks at a job.
//!
//! The rules stand in docs/specification/rules.md, "Callback lists" and "Bypass lists", the definitions in
//! docs/specification/definitions.md, "Lists".
//!
//! # What is proved
//!
//! - `Segments` is the labelled list under every call: `advance` and `accelerate` relabel as the definitions
//!   say; no callback is done whose `snap(stamp)` is above the greatest number advanced by.
//! - `BlockSegments` is the same labelled list: a batch that joins is at its end, all of it and in order, or it waits as it
//!   was where there is no memory.
//! - `Bypass` is a list with the release rules.
//! - A refused growth leaves everything as it was; none is wanted where there is room, as there is for sixteen
//!   in a batch and in an empty bypass list.
//! - By `Segments::advance`, `accelerate`, `enqueue` (`list`), `take_done`, `take_batch` (`taken`, `inline`),
//!   `pour` (`moved`, `had`, `none`), `numbers`; `BlockSegments::join` (`joined`, `refused`), `advance`,
//!   `accelerate`, `fill_batch` (`taken`, `number`, `inline`), `newest`; `Bypass::place`, `late`, `flush`,
//!   `flush_single` (`single`), `refill`, `refill_single`, `reserve`; `Batch::take_single` (`taken`), `pack`
//!   (`packed`, `heap`), `pack_into`, `load` (`items`).
#![tactic(auto)]

mod batch;
mod block_segments;
mod bounds;
mod bypass;
mod chain;
mod newest;
mod pace;
mod parcel;
mod parcels;
mod places;
mod segments;

pub use batch::{Batch, INLINE_PLACES};
pub use block_segments::BlockSegments;
pub use bypass::{Bypass, Placed};
pub use chain::Chain;
pub use pace::{Kind, LAZY_MOMENTS, MOST_DIRECT, Pace};
pub use parcel::{Parcel, Places, SpareBlock};
pub use segments::Segments;
