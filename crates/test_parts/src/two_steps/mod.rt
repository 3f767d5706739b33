//! Callbacks in two steps, `begin` and `finish`.

pub mod echo;
#[cfg(test)]
mod in_place;
#[cfg(test)]
mod opening;
#[cfg(test)]
mod outcomes;
#[cfg(test)]
mod steps;
#[cfg(test)]
mod tests;
#[cfg(test)]
mod tests_in_place;
