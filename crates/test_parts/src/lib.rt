//! Tests of `rcu_parts` and `rcu_threads` through their public calls.
//!
//! They stand in a crate of their own, so that the functions of those are proved once, and not with their tests once more. It is
//! one crate, so that what they stand on is read once. A test goes turn by turn, or in `two_steps`, in `phases` or in `threads`.
//!
//! # What is proved
//!
//! - A processor and a hand which begin a callback, run its job and finish it stay the same parts and as
//!   sound as they were, so that `close` may be called.
//! - By `step`, `step_hand` (`same`, `sound`), `work_and_close` in `two_steps`.
//! - All parts of one open in `phases`, in each of which the processors, the groups, the hands, and the
//!   driver with control have a thread each.
//! - What is closed after the last phase are the parts that were opened, whatever was done in the phases, and
//!   the answer is what `close` promises of them.
//! - A step is the call that it says, of its kind, at its moment and on its processor alone, or none where
//!   there is no such processor; and so is a move; a call's answer names its ticket or its refusal, and a
//!   barrier is open just where it was answered that it was opened.
//! - A new phase has nothing to do.
//! - By `play` (`ClosesSame` in specs/Kept.antt), `Phase::new` (`steps`, `turns`, `moves`), `accepted` (`ok`,
//!   `err`), `act_one` (`acts`), `act_at` (`acts`, `none`), `open_barrier` (`opened`, `opens`), `poll_barrier`
//!   (`none`, `polls`), `move_one` (`drives`, `moves`).
#![tactic(auto)]

#[cfg(test)]
mod opening;
pub mod phases;
#[cfg(test)]
mod same;
#[cfg(test)]
mod steps;
#[cfg(test)]
mod tests;
#[cfg(test)]
mod tests_away;
#[cfg(test)]
mod tests_close;
#[cfg(test)]
mod tests_group;
#[cfg(test)]
mod tests_open;
#[cfg(test)]
mod tests_records;
#[cfg(test)]
mod tests_rows;
#[cfg(test)]
mod tests_threads;
#[cfg(test)]
mod threads;
pub mod two_steps;
