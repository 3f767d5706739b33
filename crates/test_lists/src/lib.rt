//! Tests of `rcu_numbers`, `rcu_lists`, `rcu_part_lists`, `rcu_part_order` and `rcu_part_close` through their public calls.
//!
//! They stand in a crate of their own, so that the functions of those are proved once, and not with their tests once more.
#![tactic(auto)]

#[cfg(test)]
mod same;
#[cfg(test)]
mod tests_blocks;
#[cfg(test)]
mod tests_lists;
#[cfg(test)]
mod tests_numbers;
#[cfg(test)]
mod tests_part_close;
#[cfg(test)]
mod tests_part_lists;
#[cfg(test)]
mod tests_part_order;
