//! A whole runtime in one object, for a program in one thread that defers work until all readers are past it.
//!
//! docs/embedding.md walks through such a program. All parts of one open are in it, and it keeps what `close` asks of
//! them; so a program over it writes its job type and its calls, and nothing else.
//!
//! # What is proved
//!
//! - All parts of one open in one object, for one thread and a job of any type.
//! - It keeps by its own invariant what `close` asks, so that no caller has a `requires`, but for who puts
//!   parts together that went to threads.
//! - Each call makes of the p-th processor, or of control or the driver, what that part's own call says, and
//!   all other parts are as they were; a processor that isn't there is an answer by name, and nothing changed.
//! - The runtime goes on as the same one, and as many callbacks more are accepted as calls were answered `Ok`.
//! - A turn of all makes a turn of each processor, each group, each hand and the driver, each with its limit: a
//!   group gives at most `blimit` for each member.
//! - What makes turns of all until something has run (`drain`, `drain_and_close`, `turn_until_passed`) makes
//!   each at the moment that it was given, after a poll that found that the barrier hadn't passed, at most as
//!   many as it was given and just as many where they were not enough, and does nothing else, but that a drain
//!   shuts and opens its barrier first.
//! - For another runtime's barrier nothing is done.
//! - `has_run_all` opens a barrier, polls it once, and does nothing else.
//! - Once it was drained, that is shut and past a barrier for all that was accepted, it stays so.
//! - At the end as many ran or are handed back as were accepted, none is handed back where it was drained or
//!   all that was accepted has run, and each receipt is given for its record's key.
//! - By `open` (`opened`, `none`), `call_rcu`, `call_rcu_lazy` (`ok`, `err`, `one`, `none`), `quiescent`,
//!   `tick` (`ok`, `err`, `none`), `turn_all`, `turn_hands` (`turns`), `offload`, `deoffload` (`asks`),
//!   `barrier` (`opens`), `poll` (`ok`, `number`, `err`), `left` (`counts`), `shut` (`shuts`), `drain`
//!   (`drained`, `turns`), `turn_until_passed` (`passed`, `why`, `turns`), `has_run_all` (`run`, `asks`),
//!   `close`, `again` (`closes`, `none_lost`, `receipts`, `drained`, `left`), `close_or_drop` (`run`, and those
//!   of `close`), `drain_and_close` (`closes`, `none_back`, `fault`), `AnyFault` (`from_gives`),
//!   `continues_again` (`again`), `take_apart` (`parts`, `whole`), `put_together`.
#![tactic(auto)]

mod any_fault;
mod apart;
mod call;
mod closing;
mod control;
mod drain;
mod end;
mod fault;
mod laws;
mod opening;
mod runtime;
mod shown;
mod turns;
mod until_passed;
mod whole;

pub use any_fault::AnyFault;
pub use closing::Closing;
pub use fault::{NoProcessor, NotCalled, OtherBarrier};
pub use laws::{continues_again, continues_itself};
pub use opening::open;
pub use rcu_jobs::{
    BarrierFault, Closed, Counts, DriverTurn, Job, Lists, Mode, Passed, Record, Refused, Stop,
    SwitchFault, Ticked, Ticket,
};
pub use rcu_numbers::{MOST_CALLS, PARTS_PROCESSORS, PartsShape, ProcessorSet, Shape};
pub use rcu_parts::{Barrier, Reading};
pub use runtime::Runtime;
pub use whole::{Whole, Wholeness};
