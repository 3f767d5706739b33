//! Jobs and what they promise, callbacks and the records of those that ran, and the plain types in which calls answer.
//!
//! The surface stands in docs/specification/surface.md, "rcu_jobs".
//!
//! # What is proved
//!
//! - A record keeps its callback's number and stamp, and the key of the job that ran; its receipt is as the
//!   job's relation wants it for that key.
//! - A boxed job's receipt is its key's rest by the modulus.
//! - (That it makes its call is tested.)
//! - By `run_callback` (`number`, `stamp`, `ready`, `key`, `given`), `Job::run`, `BoxedJob::new`.
#![tactic(auto)]

mod answers;
mod boxed;
mod callback;
mod counts;
mod job;
mod modes;
mod turns;

pub use answers::{BarrierFault, Closed, Passed, Refused, SwitchFault, Ticket};
pub use boxed::BoxedJob;
pub use callback::{Callback, Record, run_callback};
pub use counts::Counts;
pub use job::Job;
pub use modes::Mode;
pub use turns::{DriverTurn, GroupTurn, HandTurn, Lists, Stop, Ticked};
