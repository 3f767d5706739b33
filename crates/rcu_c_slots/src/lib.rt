//! Parts of a runtime in slots that a program in another language keeps, each as the pointer of a box.
//!
//! docs/c.md says how it is used. The exports over this crate stand in `rcu_c`.
//!
//! # What is proved
//!
//! - Parts in slots, for programs in other languages.
//! - Each call reaches the part of its slot as that part's own contract says, and the slot then has the same
//!   part of the same open at its place; where the slot is empty or has a part of another kind, it stays as it
//!   was and the fault is named, and that fault is answered there alone.
//! - As many of its read sections are open after any call as before it.
//! - A begin hands out the job of the callback whose claim was won, a finish adds its record with that job.
//! - A barrier is polled only by a part of a board with as many processors as it counts.
//! - An open makes all parts of a new board of a shape, and puts each into the slot of its own number, where
//!   all slots were empty, or changes no slot; close's premise then holds.
//! - A close takes all parts of an open or none: before it takes one it has seen as many of each kind as the
//!   open made, each in its place.
//! - It comes to what `close` of `rcu_parts` promises of them, or for want of memory control's slot keeps them
//!   all.
//! - Where all parts are in their places, and no read section is open, it is refused for want of memory alone,
//!   it is made only there, and else it names what is in the way.
//! - What is left is let go where a close left it, and no other part.
//! - What is read of it then is the record, the job or the number in that place of what close made.
//! - By `open_into` (`opened`: `OpensInto`, with `at_home`; `empty`; `refused`; `why`: a slot has a part, or
//!   memory was refused), `opened_slots`, `Slot::call`, `quiescent`, `begin`, `finish`, `turn_driver`,
//!   `turn_group`, `switch`, `barrier`, `poll` (`PollsPart`, with `many`), `is_halted`, `shut`, `halt`,
//!   `accepted`, `left`, `lists`, `ran_at`, `back_at`, `reports_of` (`OnSlot`, with `reading`); `check_each`
//!   (`stay`, `checked`), `take_all` (`held`, `emptied`), `close_from` (`closes`: `Closes`, `ClosesAgain`,
//!   `RefusesClose`; `memory`; `owed`), `Slot::end` (`ok`, `err`, `ends`, `why`, `reading`); `open_into`,
//!   `close_from` (`sections`).
#![tactic(auto)]

mod away;
mod barriers;
mod calls;
mod checks;
mod closing;
mod fault;
mod job;
mod laws;
mod lent;
mod opening;
mod others;
mod part;
mod polls;
mod processors;
mod runs;
mod shown;
mod slot;
mod taken;

pub use closing::close_from;
pub use fault::{Fault, fault_of_refusal, fault_of_stop, fault_of_switch};
pub use job::ForeignJob;
pub use laws::opened_slots;
pub use lent::{LentHand, LentProcessor};
pub use opening::open_into;
pub use part::{Lent, Opening, Part, PartKind};
pub use slot::{LoosePart, PartSlots, Slot, may_change_threads};
