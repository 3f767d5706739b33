//! A plain checker of histories: whether a list of marks keeps the law, and whether it is closed.
//!
//! The law stands in docs/specification/definitions.md, "The law". The answers are exactly the definitions of
//! `rcu_world_law`, in whose words the headline of the core is proved; so whoever doubts a definition can run it, on real
//! histories and on bad ones.
//!
//! It is written to be read, and not to be fast: where barriers are many, its time is of the fourth power of the history's
//! length.
//!
//! # What is proved
//!
//! - A list of marks is lawful, or closed, exactly where the checker says so: both ways, for each list of marks
//!   and any number of processors.
//! - So the definitions in which the headline of the core is proved can be run on a history.
//! - By `is_lawful`, `is_closed`, each by a clause of its own.
#![tactic(auto)]

mod closed;
mod kinds;
mod lawful;

pub use closed::is_closed;
pub use kinds::{Kind, key_of, many_of, nth_of};
pub use lawful::{has_shut, is_lawful, was_opened};
