//! What a lane carries for one release: a callback by itself, or the callbacks of a batch in a list on the heap. It is
//! small, so that putting, drawing and keeping it move little, and a lane's slots take little memory.

ghost use Rattle.std.specs.Prelude.{◌≡◌, ◌≤◌, [], length, drop, vec_capacity};
ghost use Rattle.rcu_lists.specs.Filled.{AreFilled};
ghost use Rattle.rcu_lists.specs.declared.batch.TheConstants.{INLINE_PLACES};

use crate::batch::INLINE_PLACES;
use rcu_jobs::Callback;
use std::alloc::{AllocError, Global};

/// Callbacks in order, as they go over a lane.
#[derive(Drop)]
pub enum Parcel<J> {
    /// A callback by itself.
    One(Callback<J>),
    /// The callbacks of a batch.
    Many(Places<J>),
}

/// The places of a batch, on the heap.
#[derive(Drop)]
pub struct Places<J> {
    pub(crate) slots: Vec<Option<Callback<J>>>,
    // The places before this one were taken, and the others are filled.
    pub(crate) next: usize,
    ghost within: { next ≤ length slots.items },
    ghost full: { AreFilled (drop next slots.items) },
}

/// Room on the heap for as many callbacks as stand in a batch itself, and one more: a list with no more places than a batch
/// has itself would be moved into the batch that loads it.
#[derive(Drop)]
pub struct SpareBlock<J> {
    pub(crate) slots: Vec<Option<Callback<J>>>,
    ghost empty: { slots.items ≡ [] },
    ghost wide: { INLINE_PLACES ≤ vec_capacity slots },
}

impl<J: Drop> SpareBlock<J> {
    /// Room that nothing stands in.
    ///
    /// # Errors
    ///
    /// Want of memory.
    pub fn new(alloc: Global) -> Result<SpareBlock<J>, AllocError> {
        Ok(SpareBlock {
            slots: Vec::with_capacity(alloc, INLINE_PLACES + 1)?,
        })
    }
}
