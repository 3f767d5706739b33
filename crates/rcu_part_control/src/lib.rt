//! The driver, which starts and ends grace periods, and control, which switches, shuts, halts and opens barriers.
//!
//! They hold no callbacks (docs/specification/surface.md, "rcu_parts"). Each call is the list of steps that
//! docs/specification/rules.md, "The calls, step by step" has for it, and nothing else.
//!
//! # What is proved
//!
//! - A turn of the driver is one look, and then: where no grace period is in progress it reads what is needed,
//!   and starts one only where that is above the number.
//! - Else it goes on with its round over the report words, meets who is away, and waits for the first that is
//!   here and owes, or ends the grace period once it saw each processor pass it.
//! - `shut` leaves each accept word odd, and its half is the count.
//! - A switch is one store, of a processor that is there and offloadable.
//! - A barrier's counts are halves of the accept words read in the call, above each ticket's number, and that
//!   of the processor whose seat reads them is its own accepted count; it urges once after them; a refused one
//!   names the first fault and urges nobody.
//! - A poll passes only where each turn word was seen to be at least twice its count, and keeps of the part
//!   that reads what its loads keep: of a processor all but what it has seen.
//! - A wait of control polls, and makes no other step.
//! - By `Driver::turn` (`turn`, `fresh`), `Driver::run`, `Control::processors` (`board`), `offload`,
//!   `deoffload` (`asks`), `shut` (`many`, `shuts`), `barrier` (`opens`), `finish` (`halts`), `open_barrier`
//!   (`opens`, `own`), `Barrier::poll` (`polls`, `keeps`), `Barrier::wait` (`counts`, `over`, `only`); `same`
//!   of each.
#![tactic(auto)]

mod barrier;
mod control;
mod driver;
mod loops;
mod pause;
mod poll;

pub use barrier::{Barrier, ReadsTurns, open_barrier};
pub use control::Control;
pub use driver::Driver;
pub use pause::Pauses;
