//! A block of callbacks on the heap: what is moved to its end, and what is taken from its front.

ghost use Rattle.std.specs.Prelude.{◌≡◌, ◌≤◌, ◌+◌, ℕ, [], ◌∷◌, ◌++◌, length, take, drop, IfOk, MatchOption, Option};
ghost use Rattle.rcu_lists.specs.Batches.{batch_items};
ghost use Rattle.rcu_lists.specs.Blocks.{BlockRoom};
ghost use Rattle.rcu_lists.specs.Parcels.{places_items};
ghost use Rattle.rcu_lists.specs.Stamps.{newest_of, newer_of};

use crate::batch::Batch;
use crate::newest::newer_than;
use crate::parcel::Places;
use rcu_jobs::Callback;
use std::alloc::{AllocError, Global};

impl<J: Drop> Places<J> {
    /// No callbacks, with room for so many.
    ///
    /// # Errors
    ///
    /// Want of memory.
    pub(crate) fn with_capacity(alloc: Global, number: usize) -> Result<Places<J>, AllocError>
        ensures none { IfOk result (λ block. places_items block ≡ []) }
        ensures room { IfOk result (λ block. BlockRoom block number) }
    {
        Ok(Places {
            slots: Vec::with_capacity(alloc, number)?,
            next: 0,
        })
    }

    /// How many callbacks it holds.
    pub(crate) fn len(&self) -> usize
        ensures { result ≡ length (places_items self.now) }
    {
        self.slots.len() - self.next
    }

    /// How many more fit with no memory.
    pub(crate) fn room(&self) -> usize
        ensures { BlockRoom self.now result }
    {
        self.slots.capacity() - self.slots.len()
    }

    /// Moves all callbacks of a batch to the end, in the room that there is.
    pub(crate) fn take_on(&mut self, batch: &mut Batch<J>)
        requires { BlockRoom self.old (length (batch_items batch.old)) }
        ensures items { places_items self.new ≡ places_items self.old ++ batch_items batch.old }
        ensures left { batch_items batch.new ≡ [] }
    {
        while let Some(callback) = batch.take_first() {
            self.add(callback);
        }
    }

    // Adds a callback at the end, in the room that there is.
    fn add(&mut self, callback: Callback<J>)
        requires { BlockRoom self.old 1 }
        ensures items { places_items self.new ≡ places_items self.old ++ callback ∷ [] }
        ensures room { (k : ℕ) → BlockRoom self.old (k + 1) → BlockRoom self.new k }
    {
        self.slots.push_reserved(Some(callback));
    }

    /// Takes the first callback.
    pub(crate) fn take_first(&mut self) -> Option<Callback<J>>
        ensures { MatchOption result
            ((places_items self.old ≡ []) × (places_items self.new ≡ []))
            (λ c. places_items self.old ≡ c ∷ places_items self.new) }
    {
        let next = self.next;
        if next >= self.slots.len() {
            return None;
        }
        let Some(slot) = self.slots.get_mut(next) else {
            unreachable!()
        };
        let first = slot.take();
        self.next = next + 1;
        first
    }

    /// Moves so many callbacks from the front to the end of another block, in the room that there is.
    pub(crate) fn move_into(&mut self, number: usize, to: &mut Places<J>)
        requires few { number ≤ length (places_items self.old) }
        requires room { BlockRoom to.old number }
        ensures moved { places_items to.new
            ≡ places_items to.old ++ take number (places_items self.old) }
        ensures left_room { (k : ℕ) → BlockRoom to.old (number + k) → BlockRoom to.new k }
        ensures left { places_items self.new ≡ drop number (places_items self.old) }
    {
        if self.next == 0 && number == self.slots.len() {
            self.move_whole(to);
            return;
        }
        for _ in 0..number {
            self.move_first(to);
        }
    }

    // Moves all callbacks, of which none was taken before, to the end of another block, in the room that there is: all
    // places at once.
    fn move_whole(&mut self, to: &mut Places<J>)
        requires whole { self.old.next ≡ 0 }
        requires room { BlockRoom to.old (length (places_items self.old)) }
        ensures moved { places_items to.new ≡ places_items to.old ++ places_items self.old }
        ensures left_room { (k : ℕ) → BlockRoom to.old (length (places_items self.old) + k)
            → BlockRoom to.new k }
        ensures left { places_items self.new ≡ [] }
    {
        let Ok(()) = to.slots.append(&mut self.slots) else {
            unreachable!()
        };
    }

    // Moves the first callback to the end of another block, in the room that there is: its place as it stands.
    fn move_first(&mut self, to: &mut Places<J>)
        requires some { 1 ≤ length (places_items self.old) }
        requires room { BlockRoom to.old 1 }
        ensures moved { places_items to.new ≡ places_items to.old ++ take 1
            (places_items self.old) }
        ensures left_room { (k : ℕ) → BlockRoom to.old (k + 1) → BlockRoom to.new k }
        ensures left { places_items self.new ≡ drop 1 (places_items self.old) }
    {
        let Some(slot) = self.slots.get_mut(self.next) else {
            unreachable!()
        };
        to.slots.push_reserved(slot.take());
        self.next += 1;
    }

    /// The greater of its greatest stamp and this one, whatever their order.
    pub(crate) fn newer_than(&self, stamp: Option<u64>) -> Option<u64>
        ensures { result ≡ newer_of stamp (newest_of (places_items self.now)) }
    {
        newer_than(&self.slots[self.next..], stamp)
    }
}
