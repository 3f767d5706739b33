//! The library for C: each export is one call on a slot, and answers 0 or the number of a fault.
//!
//! The calls are those of `rcu_c_slots`, the numbers those of `enum rcuo_answer` of `include/rcuo.h`. The header's
//! functions call these, after a test for null pointers. One more export says the library's version.
//!
//! # What is proved
//!
//! - The library for C.
//! - Each export is one call on a slot.
//! - It answers 0 exactly where the call was made, else the number of its fault, and the words that it fills
//!   say what the call gave; where it isn't made they stay as they were.
//! - By `rcuo_version` (`is`), `rcuo_slot_open` (`opened`, `empty`, `refused`, `why`: `RefusesOpenBy`,
//!   `sections`), `rcuo_slot_begin`, `rcuo_slot_finish` and the others (`Tells`; `stays` of each that fills
//!   words), `rcuo_slot_poll` (`tells`, `foreign`, `stays`), `rcuo_slot_close` (`TellsClose`; `memory`; `owed`;
//!   `sections`), `rcuo_slot_end` (`ended`, `refused`, `was_closed`, `why`, `reading`).
#![tactic(auto)]

mod calls;
mod control;
mod ends;
mod open;
mod turns;
mod version;
mod words;
