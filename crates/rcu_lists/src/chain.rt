//! Callbacks in order, block after block: what joins the end stays in the block that it came in, and is moved once, when it
//! leaves.

ghost use Rattle.std.specs.Prelude.{◌≡◌, ◌<◌, ◌≤◌, ◌+◌, true, false, [], ◌∷◌, ◌++◌, length, take, drop, IsOk, MatchOption, OnErr, OnOk};
ghost use Rattle.rcu_lists.specs.Batches.{batch_items, HasRoom};
ghost use Rattle.rcu_lists.specs.Blocks.{blocks_items, BlockRoom};
ghost use Rattle.rcu_lists.specs.Parcels.{places_items};
ghost use Rattle.rcu_lists.specs.Stamps.{last_stamp, newest_of, stamps_from};
ghost use Rattle.rcu_lists.specs.declared.batch.TheConstants.{INLINE_PLACES};

use crate::batch::{Batch, INLINE_PLACES};
use crate::parcel::{Parcel, Places};
use rcu_jobs::Callback;
use std::alloc::{AllocError, Global};
use std::collections::VecDeque;

/// For how many callbacks a new block has room, at least.
const BLOCK_PLACES: usize = 64;

/// Callbacks in order, block after block.
///
/// A batch that is on the heap joins as a block of its own, in constant time. What stands in a batch itself joins the last
/// block, or a new one.
pub struct Chain<J> {
    blocks: VecDeque<Places<J>>,
    // How many callbacks they hold.
    len: usize,
    // Whether no stamp is known to be below the one before it, and the last stamp.
    in_order: bool,
    last: u64,
    ghost counted: { length (blocks_items blocks.items) ≡ len },
    ghost stamps: { in_order ≡ true → stamps_from 0 (blocks_items blocks.items) ≡ true },
    ghost newest: { 0 < len → last ≡ last_stamp 0 (blocks_items blocks.items) },
}

impl<J: Drop> Chain<J> {
    ghost use Rattle.rcu_lists.specs.Chains.{chain_items};

    /// No callbacks.
    pub fn new(alloc: Global) -> Chain<J>
        ensures { chain_items result ≡ [] }
    {
        Chain {
            blocks: VecDeque::new(alloc),
            len: 0,
            in_order: true,
            last: 0,
        }
    }

    /// How many callbacks it holds.
    pub fn len(&self) -> usize
        ensures { result ≡ length (chain_items self.now) }
    {
        self.len
    }

    /// Moves a batch to the end. Answers false where there is no room: nothing has moved.
    pub fn join(&mut self, batch: &mut Batch<J>) -> bool
        ensures joined { result ≡ true
            → (chain_items self.new ≡ chain_items self.old ++ batch_items batch.old)
            × (batch_items batch.new ≡ []) }
        ensures refused { result ≡ false
            → (chain_items self.new ≡ chain_items self.old)
            × (batch_items batch.new ≡ batch_items batch.old) }
    {
        let Some(len) = self.len.checked_add(batch.len() as usize) else {
            return false;
        };
        let (in_order, last) = self.stamps_with(batch);
        if !join_blocks(&mut self.blocks, batch) {
            return false;
        }
        self.len = len;
        self.in_order = in_order;
        self.last = last;
        true
    }

    // Whether the stamps are in order with those of a batch after them, and the last stamp then.
    fn stamps_with(&self, batch: &Batch<J>) -> (bool, u64)
        ensures order { result.0 ≡ true
            → stamps_from 0 (chain_items self.now ++ batch_items batch.now) ≡ true }
        ensures last { result.1 ≡ last_stamp 0 (chain_items self.now ++ batch_items batch.now) }
    {
        if self.len == 0 {
            batch.stamps_behind(true, 0)
        } else {
            batch.stamps_behind(self.in_order, self.last)
        }
    }

    /// Moves the first callbacks, so many, into a batch that holds nothing. A block that they are all of becomes the
    /// batch.
    ///
    /// # Errors
    ///
    /// Want of memory: everything is as it was. Up to sixteen want none.
    pub fn fill_batch(&mut self, number: usize, batch: &mut Batch<J>) -> Result<(), AllocError>
        requires none { batch_items batch.old ≡ [] }
        requires few { number ≤ length (chain_items self.old) }
        ensures moved { OnOk result
            (batch_items batch.new ≡ take number (chain_items self.old)) }
        ensures left { OnOk result (chain_items self.new ≡ drop number (chain_items self.old)) }
        ensures inline { number ≤ INLINE_PLACES → IsOk result }
        ensures refused { OnErr result
            ((chain_items self.new ≡ chain_items self.old) × (batch_items batch.new ≡ [])) }
    {
        fill_from(&mut self.blocks, number, batch)?;
        self.len -= number;
        Ok(())
    }

    /// Takes the first callback.
    pub fn take_first(&mut self) -> Option<Callback<J>>
        ensures { MatchOption result
            ((chain_items self.old ≡ []) × (chain_items self.new ≡ []))
            (λ c. chain_items self.old ≡ c ∷ chain_items self.new) }
    {
        let first = take_from_blocks(&mut self.blocks)?;
        self.len -= 1;
        Some(first)
    }

    /// The greatest stamp. Takes constant time where the callbacks came in the order of their stamps.
    pub fn newest(&self) -> Option<u64>
        ensures { result ≡ newest_of (chain_items self.now) }
    {
        if self.len == 0 {
            return None;
        }
        if self.in_order {
            return Some(self.last);
        }
        let mut greatest = None;
        for block in self.blocks.iter() {
            greatest = block.newer_than(greatest);
        }
        greatest
    }
}

// Moves a batch to the end of the blocks. Answers false where there is no room: nothing has moved.
fn join_blocks<J: Drop>(blocks: &mut VecDeque<Places<J>>, batch: &mut Batch<J>) -> bool
    ensures joined { result ≡ true
        → (blocks_items blocks.new.items ≡ blocks_items blocks.old.items ++ batch_items batch.old)
        × (batch_items batch.new ≡ []) }
    ensures refused { result ≡ false
        → (blocks_items blocks.new.items ≡ blocks_items blocks.old.items)
        × (batch_items batch.new ≡ batch_items batch.old) }
{
    if batch.is_empty() {
        return true;
    }
    if batch.slots.spilled() {
        join_whole(blocks, batch)
    } else {
        join_few(blocks, batch)
    }
}

// The same, of a batch that becomes a block as it stands.
fn join_whole<J: Drop>(blocks: &mut VecDeque<Places<J>>, batch: &mut Batch<J>) -> bool
    ensures joined { result ≡ true
        → (blocks_items blocks.new.items ≡ blocks_items blocks.old.items ++ batch_items batch.old)
        × (batch_items batch.new ≡ []) }
    ensures refused { result ≡ false
        → (blocks_items blocks.new.items ≡ blocks_items blocks.old.items)
        × (batch_items batch.new ≡ batch_items batch.old) }
{
    match blocks.reserve(1) {
        Ok(()) => {}
        Err(_) => return false,
    }
    match batch.take_all().into_places() {
        Ok(block) => {
            blocks.push_back_reserved(block);
            true
        }
        Err(back) => {
            *batch = back;
            false
        }
    }
}

// The same, of a batch whose callbacks are moved to the last block, or to a new one.
fn join_few<J: Drop>(blocks: &mut VecDeque<Places<J>>, batch: &mut Batch<J>) -> bool
    ensures joined { result ≡ true
        → (blocks_items blocks.new.items ≡ blocks_items blocks.old.items ++ batch_items batch.old)
        × (batch_items batch.new ≡ []) }
    ensures refused { result ≡ false
        → (blocks_items blocks.new.items ≡ blocks_items blocks.old.items)
        × (batch_items batch.new ≡ batch_items batch.old) }
{
    if join_last(blocks, batch) {
        return true;
    }
    match blocks.reserve(1) {
        Ok(()) => {}
        Err(_) => return false,
    }
    let number = batch.len() as usize;
    match Places::with_capacity(*blocks.allocator(), number.max(BLOCK_PLACES)) {
        Ok(mut added) => {
            added.take_on(batch);
            blocks.push_back_reserved(added);
            true
        }
        Err(_) => false,
    }
}

// The same, of a batch for which the last block has room.
fn join_last<J: Drop>(blocks: &mut VecDeque<Places<J>>, batch: &mut Batch<J>) -> bool
    ensures joined { result ≡ true
        → (blocks_items blocks.new.items ≡ blocks_items blocks.old.items ++ batch_items batch.old)
        × (batch_items batch.new ≡ []) }
    ensures refused { result ≡ false
        → (blocks_items blocks.new.items ≡ blocks_items blocks.old.items)
        × (batch_items batch.new ≡ batch_items batch.old) }
{
    let Some(last) = blocks.back_mut() else {
        return false;
    };
    if last.room() < batch.len() as usize {
        return false;
    }
    last.take_on(batch);
    true
}

// Moves the first callbacks, so many, into a batch that holds nothing.
fn fill_from<J: Drop>(
    blocks: &mut VecDeque<Places<J>>,
    number: usize,
    batch: &mut Batch<J>,
) -> Result<(), AllocError>
    requires none { batch_items batch.old ≡ [] }
    requires few { number ≤ length (blocks_items blocks.old.items) }
    ensures moved { OnOk result
        (batch_items batch.new ≡ take number (blocks_items blocks.old.items)) }
    ensures left { OnOk result
        (blocks_items blocks.new.items ≡ drop number (blocks_items blocks.old.items)) }
    ensures inline { number ≤ INLINE_PLACES → IsOk result }
    ensures refused { OnErr result
        ((blocks_items blocks.new.items ≡ blocks_items blocks.old.items)
        × (batch_items batch.new ≡ [])) }
{
    if number <= INLINE_PLACES {
        batch.free_places();
        move_few(blocks, number, batch);
        return Ok(());
    }
    if load_first(blocks, number, batch) {
        return Ok(());
    }
    let mut first = Places::with_capacity(*blocks.allocator(), number)?;
    move_first(blocks, number, &mut first);
    batch.load(Parcel::Many(first));
    Ok(())
}

// Moves the first callbacks, so many, to the end of a batch, in the room that there is.
fn move_few<J: Drop>(blocks: &mut VecDeque<Places<J>>, number: usize, batch: &mut Batch<J>)
    requires few { number ≤ length (blocks_items blocks.old.items) }
    requires room { HasRoom batch.old number }
    ensures moved { batch_items batch.new
        ≡ batch_items batch.old ++ take number (blocks_items blocks.old.items) }
    ensures left { blocks_items blocks.new.items ≡ drop number (blocks_items blocks.old.items) }
{
    for _ in 0..number {
        let Some(callback) = take_from_blocks(blocks) else {
            unreachable!()
        };
        batch.add(callback);
    }
}

// Makes the first block the batch, which holds nothing, where it has so many callbacks. Answers whether it has.
fn load_first<J: Drop>(
    blocks: &mut VecDeque<Places<J>>,
    number: usize,
    batch: &mut Batch<J>,
) -> bool
    requires none { batch_items batch.old ≡ [] }
    ensures loaded { result ≡ true
        → (batch_items batch.new ≡ take number (blocks_items blocks.old.items))
        × (blocks_items blocks.new.items ≡ drop number (blocks_items blocks.old.items)) }
    ensures refused { result ≡ false
        → (batch_items batch.new ≡ [])
        × (blocks_items blocks.new.items ≡ blocks_items blocks.old.items) }
{
    let Some(first) = blocks.front() else {
        return false;
    };
    if first.len() != number {
        return false;
    }
    match blocks.pop_front() {
        Some(block) => {
            batch.load(Parcel::Many(block));
            true
        }
        None => false,
    }
}

// Moves the first callbacks, so many, to the end of a block, in the room that there is. A block that is used up is dropped.
fn move_first<J: Drop>(blocks: &mut VecDeque<Places<J>>, number: usize, to: &mut Places<J>)
    requires few { number ≤ length (blocks_items blocks.old.items) }
    requires room { BlockRoom to.old number }
    ensures moved { places_items to.new
        ≡ places_items to.old ++ take number (blocks_items blocks.old.items) }
    ensures left { blocks_items blocks.new.items ≡ drop number (blocks_items blocks.old.items) }
{
    let mut more = number;
    while more > 0 {
        let Some(first) = blocks.front_mut() else {
            unreachable!()
        };
        let part = more.min(first.len());
        first.move_into(part, to);
        more -= part;
        if first.len() == 0 {
            blocks.pop_front();
        }
    }
}

// Takes the first callback of the first block that has one. Those before it are dropped.
fn take_from_blocks<J: Drop>(blocks: &mut VecDeque<Places<J>>) -> Option<Callback<J>>
    ensures { MatchOption result
        ((blocks_items blocks.old.items ≡ []) × (blocks_items blocks.new.items ≡ []))
        (λ c. blocks_items blocks.old.items ≡ c ∷ blocks_items blocks.new.items) }
{
    while let Some(block) = blocks.front_mut() {
        if let Some(first) = block.take_first() {
            return Some(first);
        }
        blocks.pop_front();
    }
    None
}

impl<J: Drop> Drop for Chain<J> {
    fn drop(self) {
        let Chain {
            blocks: _,
            len: _,
            in_order: _,
            last: _,
        } = self;
    }
}
