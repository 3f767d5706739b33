//! A whole runtime in threads, where a worker of the program's own says step by step what each processor does.
//!
//! Every other part has a thread that makes its turns. After the run the whole runtime comes back. A program names this
//! crate alone: it hands on what rcu_runtime does.
//!
//! # What is proved
//!
//! - A whole runtime in threads, for a job and a receipt of any type.
//! - Each step of a worker is that call of its own processor and nothing else, and it is answered what the call
//!   answered; the same of the orders of a steering and control.
//! - The runtime that comes back is the same one, later, whether the run answers Ok or Err; where nothing was
//!   started it is as it was, and so are the workers.
//! - As many workers come back as went in, and one that is said to have made no step comes back as it was, in
//!   its place.
//! - The workers come back each in its place, by what the program says that each is known by again, and each
//!   that has ended is as the program says that it is when it says so, in its place (`name_of`, `ends_as` of a
//!   `Worker`).
//! - Where it answers Err it says why: another number exactly where the numbers of workers and processors
//!   differ, and that not all has run only where the ending asks for something; and as many ends come back as
//!   workers, or none where nothing was started.
//! - Where the run was to end after a barrier and answers Ok, all that was accepted has run; where a drain was
//!   asked for it is drained.
//! - Of either `close_or_drop` hands no job back.
//! - Control does orders that the steering may give (`may` of a `Steering`), one after another; then what the
//!   ending asks for: nothing, or it opens a barrier that passes, or shuts before that; then the whole runtime
//!   is looked at, whether that is so; and nothing else, in the Err answer too.
//! - That a worker gets all its steps, that none makes one where some part has no thread, that threads overlap,
//!   and that a run ends, is not said.
//! - By `run_workers` (`continues`, `back`, `workers`, `as_many`, `number`, `why`, `ends`, `unbegun`,
//!   `unbegun_back`, `names`, `names_back`, `ended`, `ended_back`, `run`, `drained`, `control`,
//!   `control_back`), `run_or_drop`, `act`, `obey` (`does`), `settle` (`ends`), `report_and_tick` (`turns`),
//!   `run_parts`.
#![tactic(auto)]

mod acts;
mod crew;
mod fault;
mod or_drop;
mod pairs;
mod part;
mod pauses;
mod post;
mod rooms;
mod run;
mod signals;
mod steering;
mod threads;
mod turns;
mod worked;
mod worker;

pub use fault::WorkersFault;
pub use or_drop::run_or_drop;
pub use rcu_runtime::{
    AnyFault, Barrier, BarrierFault, Closed, Closing, Counts, DriverTurn, Job, Lists, Mode,
    NoProcessor, NotCalled, OtherBarrier, PartsShape, Passed, ProcessorSet, Reading, Record,
    Refused, Runtime, Shape, Stop, SwitchFault, Ticked, Ticket, Whole, Wholeness, open,
};
pub use run::Ending;
pub use steering::{NoSteering, Order, Reply, Steering};
pub use worked::{NotWorked, Worked, run_workers};
pub use worker::{Answer, Step, Worker, WorkerEnd};
