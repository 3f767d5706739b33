//! Tests of `rcu_jobs`, `rcu_lanes`, `rcu_board` and `rcu_part_control` through their public calls.
//!
//! They stand in a crate of their own, so that the functions of those crates are proved once, and not with their tests
//! once more.
#![tactic(auto)]

#[cfg(test)]
mod tests;
#[cfg(test)]
mod tests_control;
#[cfg(test)]
mod tests_jobs;
#[cfg(test)]
mod tests_lanes;
#[cfg(test)]
mod tests_rows;
#[cfg(test)]
mod tests_threads;
