//! A list of callbacks in segments over the blocks that they came in: docs/specification/rules.md, "Callback lists".

ghost use Rattle.std.specs.Prelude.{◌≡◌, ◌≤◌, ◌++◌, [], true, false, length, max, min, All, IsOk, OnErr, OnOk};
ghost use Rattle.rcu_numbers.specs.Numbers.{snap_of};
ghost use Rattle.rcu_lists.specs.Batches.{batch_items};
ghost use Rattle.rcu_lists.specs.Bounds.{cut_by, IsWithin};
ghost use Rattle.rcu_lists.specs.Chains.{chain_items};
ghost use Rattle.rcu_lists.specs.Labels.{IsGraced};
ghost use Rattle.rcu_lists.specs.Stamps.{newest_of};
ghost use Rattle.rcu_lists.specs.declared.batch.TheConstants.{INLINE_PLACES};

use crate::batch::Batch;
use crate::bounds::Bounds;
use crate::chain::Chain;
use std::alloc::{AllocError, Global};

/// Callbacks in four segments, as `Segments` has them, in the blocks that they came in: a batch that is on the heap joins
/// as it stands.
pub struct BlockSegments<J> {
    list: Chain<J>,
    // Where the list is cut into segments.
    bounds: Bounds,
    ghost within: { IsWithin bounds (chain_items list) },
    // No callback is done before a grace period served it.
    ghost graced: { IsGraced bounds.advanced (cut_by bounds (chain_items list)) },
}

impl<J: Drop> BlockSegments<J> {
    ghost use Rattle.rcu_lists.specs.Labels.{Done, Bare, IsLabelledList, MayAccelerate, marked, count, is_done, carries, callbacks_of, after_advance, after_accelerate, lengths_of, numbers_of};
    ghost use Rattle.rcu_lists.specs.BlockSegments.{block_labelled, block_advanced_by, BlocksUnchanged};

    /// No callbacks.
    pub fn new(alloc: Global) -> BlockSegments<J>
        ensures list { block_labelled result ≡ [] }
        ensures advanced { block_advanced_by result ≡ 0 }
    {
        BlockSegments {
            list: Chain::new(alloc),
            bounds: Bounds::new(),
        }
    }

    /// Moves a batch to the end of next. Answers false where there is no room: nothing has moved.
    pub fn join(&mut self, batch: &mut Batch<J>) -> bool
        ensures joined { result ≡ true
            → (block_labelled self.new
            ≡ block_labelled self.old ++ marked Bare (batch_items batch.old))
            × (batch_items batch.new ≡ []) }
        ensures refused { result ≡ false
            → (block_labelled self.new ≡ block_labelled self.old)
            × (batch_items batch.new ≡ batch_items batch.old) }
        ensures advanced { block_advanced_by self.new ≡ block_advanced_by self.old }
    {
        self.list.join(batch)
    }

    /// Moves the callbacks into done whose number is at most `seq`. Takes constant time.
    pub fn advance(&mut self, seq: u64)
        ensures list { block_labelled self.new ≡ after_advance seq (block_labelled self.old) }
        ensures advanced { block_advanced_by self.new ≡ max (block_advanced_by self.old) seq }
    {
        self.bounds.advance::<J>(seq);
    }

    /// Gives the number `seq` to the callbacks in next, unless two lesser numbers are in the list. Answers whether
    /// some callback has this number then. Takes constant time.
    pub fn accelerate(&mut self, seq: u64) -> bool
        requires { MayAccelerate seq (block_labelled self.old) }
        ensures list { block_labelled self.new
            ≡ after_accelerate seq (block_labelled self.old) }
        ensures carried { result ≡ carries seq (block_labelled self.new) }
        ensures advanced { block_advanced_by self.new ≡ block_advanced_by self.old }
    {
        self.bounds.accelerate::<J>(seq, self.list.len())
    }

    /// Moves the first done callbacks, at most `max`, into a batch that holds nothing: a batch is large, so one that is
    /// there already is filled in its place.
    ///
    /// # Errors
    ///
    /// Refusal 2, want of memory: everything is as it was.
    pub fn fill_batch(&mut self, max: usize, batch: &mut Batch<J>) -> Result<(), AllocError>
        requires none { batch_items batch.old ≡ [] }
        ensures taken { OnOk result
            (block_labelled self.old
            ≡ marked Done (batch_items batch.new) ++ block_labelled self.new) }
        ensures number { OnOk result
            (length (batch_items batch.new) ≡ min max (count is_done (block_labelled self.old))) }
        ensures graced { OnOk result
            (All (λ c. snap_of c.stamp ≤ block_advanced_by self.old) (batch_items batch.new)) }
        ensures advanced { block_advanced_by self.new ≡ block_advanced_by self.old }

        // Sixteen places stand in the batch itself.
        ensures inline { min max (count is_done (block_labelled self.old)) ≤ INLINE_PLACES
            → IsOk result }
        ensures refused { OnErr result
            (BlocksUnchanged self.old self.new × (batch_items batch.new ≡ [])) }
    {
        let number = max.min(self.bounds.done);
        self.list.fill_batch(number, batch)?;
        self.bounds.done -= number;
        Ok(())
    }

    /// The greatest stamp in the list. Takes constant time where the callbacks came in the order of their stamps.
    pub fn newest(&self) -> Option<u64>
        ensures { result ≡ newest_of (callbacks_of (block_labelled self.now)) }
    {
        self.list.newest()
    }

    /// How many callbacks are in done, wait, next-ready and next.
    pub fn lengths(&self) -> [u64; 4]
        ensures { result ≡ lengths_of (block_labelled self.now) }
    {
        self.bounds.lengths::<J>(self.list.len())
    }

    /// The numbers of wait and next-ready, 0 while empty.
    pub fn numbers(&self) -> [u64; 2]
        ensures numbers { result ≡ numbers_of (block_labelled self.now) }

        // What holds of each such list.
        ensures labelled { IsLabelledList (block_labelled self.now) }
        ensures graced { IsGraced (block_advanced_by self.now) (block_labelled self.now) }
    {
        [self.bounds.wait_number, self.bounds.ready_number]
    }

    /// All callbacks, in order.
    pub fn into_chain(self) -> Chain<J>
        ensures { chain_items result ≡ callbacks_of (block_labelled self) }
    {
        let BlockSegments { list, bounds: _ } = self;
        list
    }
}

impl<J: Drop> Drop for BlockSegments<J> {
    fn drop(self) {
        let BlockSegments { list: _, bounds: _ } = self;
    }
}
