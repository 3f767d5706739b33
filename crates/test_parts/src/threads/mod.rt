//! All parts in threads, through the public calls of `rcu_threads`.

mod runs;
mod tests;
mod tests_agreement;
