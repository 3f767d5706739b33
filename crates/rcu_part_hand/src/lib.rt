//! A hand (rcuo): it runs the callbacks of an offloadable processor, each under a claim of its number.
//!
//! The group gives it these callbacks (docs/specification/surface.md, "rcu_parts", and docs/specification/rules.md,
//! "The calls, step by step"). `rcu_parts` hands on `Hand` and `RunningHand`; what takes a hand apart is for its
//! `close`.
//!
//! # What is proved
//!
//! - A hand's turn looks once, draws one batch at most, and runs the first callbacks of what it holds, each
//!   under a claim that was won in the call, where `snap(stamp)` is at most the number of the look, which is
//!   the claim's board sight; it says why it ran no more.
//! - Between turns its records are those of its claims and of what it took of all that it drew, in order.
//! - A begin is a turn up to its first claim, whose callback's job it hands out; a finish adds exactly that
//!   claim's record and ends it.
//! - The two are one run of a turn's runs, and follow what the turn ran before at the same look.
//! - A hand in place goes on from one callback to its processor's next by one step of the board, and that is a
//!   finish and then a begin (`go_on`, `goes_on`).
//! - By `Hand::turn` (`turn`, `few`, `sound`), `begin` (`runs`, `stops`, `counts`, `keyed`, `sound`),
//!   `RunningHand::finish` (`finishes`, `sound`), `is_halted` (`view`, `lists`), `run`, `new`, `cpu`;
//!   `turns_in_two_steps` (`one`, `more`); `IsLawfulHand` and `IsRunningHand` in specs/HandLaw.antt.
//! - Records that are left are taken out once, in order, and nothing else changes.
//! - By `take_records` (`taken`, `records`, `others`).
#![tactic(auto)]

mod begin;
mod claim;
mod hand;
mod in_place;
mod laws;
mod recorded;
mod run;
mod running_hand;
mod seated;
mod turn;

pub use hand::{Hand, HandState, into_state};
pub use in_place::{HandInPlace, HandInPlaceState};
pub use laws::turns_in_two_steps;
pub use running_hand::{RunningHand, RunningHandState};
pub use seated::SeatedHand;
