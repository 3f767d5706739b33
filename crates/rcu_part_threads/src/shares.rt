//! How jobs are dealt to processors.

ghost use Rattle.std.specs.Prelude.{◌≡◌, ◌<◌, ◌≤◌, [], ◌∷◌, ◌++◌, map, IfOk, OnOk, vec_len, vec_capacity};
ghost use Rattle.rcu_part_threads.specs.Dealing.{AreDealt};

use crate::answer::Answer;
use std::alloc::{AllocError, Global};

/// A processor that is to call, its jobs in the order of its calls, and room for what these answer.
#[derive(Drop)]
pub struct Caller<P, J> {
    pub processor: P,
    pub jobs: Vec<J>,
    pub answers: Vec<Answer<J>>,
    ghost empty: { answers.items ≡ [] },
    ghost room: { vec_len jobs ≤ vec_capacity answers },
}

impl<P, J> Caller<P, J> {
    /// This processor with no jobs.
    fn new(alloc: Global, processor: P) -> Caller<P, J>
        ensures processor { result.processor ≡ processor }
        ensures jobs { result.jobs.items ≡ [] }
    {
        Caller {
            processor,
            jobs: Vec::new(alloc),
            answers: Vec::new(alloc),
        }
    }
}

impl<P, J: Drop> Caller<P, J> {
    /// Gives it one more job, and finds room for its answer.
    ///
    /// # Errors
    ///
    /// Want of memory.
    fn add(&mut self, job: J) -> Result<(), AllocError>
        ensures processor { self.new.processor ≡ self.old.processor }
        ensures jobs { OnOk result (self.new.jobs.items ≡ self.old.jobs.items ++ job ∷ []) }
    {
        self.answers.reserve(self.jobs.len().saturating_add(1))?;
        self.jobs.push(job)?;
        Ok(())
    }
}

/// These processors, with no jobs.
fn callers_of<P: Drop, J: Drop>(
    alloc: Global,
    processors: Vec<P>,
) -> Result<Vec<Caller<P, J>>, AllocError>
    ensures processors { IfOk result (λ callers.
        map (λ caller. caller.processor) callers.items ≡ processors.items) }
    ensures dealt { IfOk result (λ callers.
        AreDealt [] (map (λ caller. caller.jobs.items) callers.items)) }
{
    let mut callers = Vec::new(alloc);
    for processor in processors {
        callers.push(Caller::new(alloc, processor))?;
    }
    Ok(callers)
}

/// Deals the jobs to the processors in rounds: in each round, the next job to each processor in turn.
pub fn deal<P: Drop, J: Drop>(
    alloc: Global,
    processors: Vec<P>,
    jobs: Vec<J>,
) -> Result<Vec<Caller<P, J>>, AllocError>
    requires { 0 < vec_len processors }
    ensures processors { IfOk result (λ callers.
        map (λ caller. caller.processor) callers.items ≡ processors.items) }
    ensures dealt { IfOk result (λ callers.
        AreDealt jobs.items (map (λ caller. caller.jobs.items) callers.items)) }
{
    let many = processors.len();
    let mut callers = callers_of(alloc, processors)?;
    let mut next = 0;
    for job in jobs {
        callers[next].add(job)?;
        next = (next + 1) % many;
    }
    Ok(callers)
}
