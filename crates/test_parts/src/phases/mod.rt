//! All parts of one open in threads, phase after phase, for tests that fix a part of the schedule.
//!
//! In each phase the processors, the groups, the hands, and the driver with control have a thread of their own each, in
//! which they do what the phase says; then all threads are joined. After the last phase the runtime is closed. So a
//! schedule is fixed as far as a row of docs/specification/rows.md fixes it, and free within a phase.

#[cfg(test)]
mod acts;
pub mod company;
#[cfg(test)]
mod lines;
#[cfg(test)]
mod moves;
pub mod phase;
#[cfg(test)]
mod played;
#[cfg(test)]
mod player;
#[cfg(test)]
mod shown;
pub mod signal;
#[cfg(test)]
mod tests;
#[cfg(test)]
mod tests_cut;
#[cfg(test)]
mod turns;
