//! What is left of one processor.

ghost use Rattle.std.specs.Prelude.{IfOk};

use rcu_jobs::Record;
use std::alloc::{AllocError, Global};

/// What is left of one processor at the end: an element each of `ran` and `back` of `Closed`.
#[derive(Drop)]
pub struct ProcessorEnd<J, R> {
    /// The records that are left of the callbacks that ran, in the order of their numbers: all, 0, 1, 2, .., where none was taken
    /// out before and all were kept.
    pub ran: Vec<Record<R>>,
    /// The jobs of the remaining numbers, in order.
    pub back: Vec<J>,
}

impl<J: Drop, R: Drop> ProcessorEnd<J, R> {
    ghost use Rattle.rcu_part_close.specs.Ends.{HasRoom};

    /// Nothing yet, with room for so many records and so many jobs.
    ///
    /// # Errors
    ///
    /// Want of memory.
    pub fn with_room(
        alloc: Global,
        records: usize,
        jobs: usize,
    ) -> Result<ProcessorEnd<J, R>, AllocError>
        ensures { IfOk result (λ room. HasRoom records jobs room) }
    {
        Ok(ProcessorEnd {
            ran: Vec::with_capacity(alloc, records)?,
            back: Vec::with_capacity(alloc, jobs)?,
        })
    }
}
