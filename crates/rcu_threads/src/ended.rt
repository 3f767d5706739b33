//! What a run in threads leaves.

use rcu_jobs::{Closed, Job};
use rcu_part_threads::Answer;

/// How a run in threads ended.
#[derive(Drop)]
pub struct ThreadsEnd<J: Job> {
    /// What `close` answered.
    pub closed: Closed<J>,
    /// `answers[p]` is what the calls of processor `p` answered, in order.
    pub answers: Vec<Vec<Answer<J>>>,
}
