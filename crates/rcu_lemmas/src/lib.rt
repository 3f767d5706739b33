//! Lemmas about lists in general that several crates cite and the standard library lacks. There is no code here.
#![tactic(auto)]
