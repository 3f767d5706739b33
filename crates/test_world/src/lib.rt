//! Tests of `rcu_world`, `rcu_world_checker` and `rcu_agreement_checker` through their public calls.
//!
//! On written accounts and histories, and on real runs.
//!
//! They stand in a crate of their own, so that the functions of those are proved once, and not with their tests once more.
#![tactic(auto)]

#[cfg(test)]
mod rounds;
#[cfg(test)]
mod steps;
#[cfg(test)]
mod tests_agreement;
#[cfg(test)]
mod tests_agreement_core;
#[cfg(test)]
mod tests_checker;
#[cfg(test)]
mod tests_checker_core;
#[cfg(test)]
mod tests_presence;
#[cfg(test)]
mod tests_world;
