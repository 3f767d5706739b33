//! Tests of what the program `rcuo` is made of, through public calls: setups, lists and totals, versions, words, replays.
//!
//! They stand in a crate of their own, so that the functions of those are proved once, and not with their tests once more.
#![tactic(auto)]

#[cfg(test)]
mod expect;
#[cfg(test)]
mod tests_plan;
#[cfg(test)]
mod tests_replay;
#[cfg(test)]
mod tests_setup;
#[cfg(test)]
mod tests_status;
#[cfg(test)]
mod tests_versions;
