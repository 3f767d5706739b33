//! What a call answers.

use rcu_jobs::{Refused, Ticket};

/// What a call answered: the ticket of the job, or the job with why it was refused.
pub type Answer<J> = Result<Ticket, Refused<J>>;
