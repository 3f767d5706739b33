//! Threads for all parts of one kind.

ghost use Rattle.std.specs.Prelude.{◌≡◌, ◌≤◌, [], IfOk, vec_capacity, vec_len};
ghost use Rattle.std.specs.List.{AllZip};
ghost use Rattle.rcu_runtime_threads.specs.Crews.{HasEnded};

use std::alloc::{AllocError, Global};
use std::thread::{Promise, PromisedHandle, Threads};

/// A part that was to run in a thread.
#[derive(Drop)]
pub enum Started<H, P> {
    /// It has its thread.
    Running(H),
    /// No thread could be made, so the run is over for all.
    Back(P),
}

/// Room for so many threads, and for what they give back.
#[derive(Drop)]
pub struct Reserved<H, P> {
    pub(crate) started: Vec<Started<H, P>>,
    pub(crate) ended: Vec<P>,
    pub(crate) many: usize,
    ghost empty: { (started.items ≡ []) × (ended.items ≡ []) },
    ghost fits: { (many ≤ vec_capacity started) × (many ≤ vec_capacity ended) },
}

impl<H: Drop, P: Drop> Reserved<H, P> {
    /// Finds the room.
    ///
    /// # Errors
    ///
    /// Want of memory.
    pub fn new(alloc: Global, many: usize) -> Result<Reserved<H, P>, AllocError>
        ensures { IfOk result (λ room. room.many ≡ many) }
    {
        Ok(Reserved {
            started: Vec::with_capacity(alloc, many)?,
            ended: Vec::with_capacity(alloc, many)?,
            many,
        })
    }
}

/// All parts of one kind, each in its thread, with room for what comes back.
#[derive(Drop)]
pub struct Crew<H, P> {
    pub(crate) started: Vec<Started<H, P>>,
    pub(crate) ended: Vec<P>,
    ghost empty: { ended.items ≡ [] },
    ghost fits: { vec_len started ≤ vec_capacity ended },
}

/// The part that comes back, once its thread has ended.
pub fn join<T: Send + Drop, P: Promise<T>, R: Threads>(
    rt: &R,
    started: Started<PromisedHandle<T, P>, T>,
) -> T
    ensures { HasEnded (λ thread part. P.kept_by thread.promise part) started result }
{
    match started {
        Started::Running(thread) => thread.join(rt),
        Started::Back(part) => part,
    }
}

/// Waits for all threads, and gives the parts back in order.
pub fn join_all<T: Send + Drop, P: Promise<T>, R: Threads>(
    rt: &R,
    crew: Crew<PromisedHandle<T, P>, T>,
) -> Vec<T>
    ensures { AllZip (HasEnded (λ thread part. P.kept_by thread.promise part)) crew.started.items
        result.items }
{
    let Crew {
        started: all,
        ended: mut parts,
    } = crew;
    for started in all {
        parts.push_reserved(join(rt, started));
    }
    parts
}
