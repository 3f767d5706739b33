//! Agreeing, to be run: whether a history agrees with what a runtime left, and a history that does.
//!
//! Agreeing stands in docs/specification/definitions.md, "Agreeing", and in `rcu_agreement`. A program makes an [`Account`] of
//! each processor from what `close` answered, and the [`witness`] from those: the history in which everything stands where the
//! numbers of its stamp or its sight put it. Then `agrees`, and the law's own `is_closed` of `rcu_world_checker`, say what holds
//! of it.
//!
//! It is written to be read, and not to be fast: its time is of the third power of the history's length.
//!
//! # What is proved
//!
//! - A history agrees exactly where the checker says so: both ways, for all accounts, counts and marks. Its witness is
//!   tested.
//! - An account is what `close` answered, beside the keys that the program knows.
//! - By `agrees`, over `Agrees` of `rcu_agreement`; `Account::new` (`keys`, `stamps`, `ran`, `readies`, `back`,
//!   `reports`).
#![tactic(auto)]

mod account;
mod agreement;
mod barriers;
mod lists;
mod moments;
mod number_order;
mod numbers;
mod shutting;
mod sights;

pub use account::{Account, account_of, accounts_of};
pub use agreement::agrees;
pub use number_order::witness;
