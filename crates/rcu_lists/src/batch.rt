//! A short list of callbacks, as it goes over a lane.

ghost use Rattle.std.specs.Prelude.{◌≡◌, ◌≢◌, true, ℕ, ◌+◌, ◌≤◌, ◌↔◌, [], ◌∷◌, ◌++◌, length, take, drop, IsOk, IsSome, IsTrue, List, MatchOption, OnOk, OnErr};
ghost use Rattle.std.specs.VecDeque.{deque_capacity};
ghost use Rattle.smallvec.specs.SmallVec.{HasRoomFor};
ghost use Rattle.rcu_lists.specs.Filled.{AreFilled};
ghost use Rattle.rcu_lists.specs.Stamps.{stamps_from, last_stamp};
ghost use Rattle.rcu_lists.specs.declared.batch.TheConstants.{INLINE_PLACES};

use crate::newest::stamps_behind;
use rcu_jobs::Callback;
use smallvec::SmallVec;
use std::alloc::{AllocError, Global};
use std::collections::VecDeque;
use std::mem;

/// How many callbacks of a batch stand in the value itself.
pub const INLINE_PLACES: usize = 16;

/// For how many callbacks more room is found at least, where there is none: a batch that outgrows its own places goes to a
/// list of 64 at once, and not over one of 32.
const FEWEST_MORE: usize = 32;

/// For how many callbacks room is asked for at once at most, where as many were taken together last.
const MOST_AT_ONCE: usize = 16_384;

/// Callbacks in order. The first sixteen need no memory.
#[derive(Drop)]
pub struct Batch<J> {
    // An unused inline place wants a default value, so each place is an Option.
    pub(crate) slots: SmallVec<Option<Callback<J>>, INLINE_PLACES>,
    // The places before this one were taken, and the others are filled.
    pub(crate) next: usize,
    // How many callbacks stood in it when all were taken last: a list that grows asks for room for as many at once.
    pub(crate) usual: usize,
    ghost within: { next ≤ length slots.items },
    ghost full: { AreFilled (drop next slots.items) },
    ghost inline: { INLINE_PLACES ≤ slots.capacity },
    ghost fits: { HasRoomFor slots 0 },
}

impl<J: Drop> Batch<J> {
    ghost use Rattle.rcu_lists.specs.Batches.{batch_items, HasRoom};

    /// No callbacks, with room for sixteen.
    pub fn new(alloc: Global) -> Batch<J>
        ensures items { batch_items result ≡ [] }
        ensures room { HasRoom result INLINE_PLACES }
    {
        Batch {
            slots: SmallVec::new(alloc),
            next: 0,
            usual: 0,
        }
    }

    /// How many callbacks it holds.
    pub fn len(&self) -> u64
        ensures { result ≡ length (batch_items self.now) }
    {
        (self.slots.len() - self.next) as u64
    }

    /// Whether it holds none.
    pub fn is_empty(&self) -> bool
        ensures { IsTrue result ↔ (batch_items self.now ≡ []) }
    {
        self.len() == 0
    }

    // Asks for memory for so many more.
    fn ask(&mut self, more: usize) -> Result<(), AllocError>
        ensures items { batch_items self.new ≡ batch_items self.old }
        ensures found { OnOk result (HasRoom self.new more) }
        ensures room { (k : ℕ) → HasRoom self.old k → HasRoom self.new k }
        ensures refused { OnErr result (self.new ≡ self.old) }
    {
        self.slots.reserve(more)
    }

    // Asks for memory for so many more: for as many as stood in the list last, where there is as much. (By itself: most
    // calls find room.)
    #[inline(never)]
    fn grow(&mut self, more: usize) -> Result<(), AllocError>
        ensures items { batch_items self.new ≡ batch_items self.old }
        ensures found { OnOk result (HasRoom self.new more) }
        ensures room { (k : ℕ) → HasRoom self.old k → HasRoom self.new k }
        ensures refused { OnErr result (self.new ≡ self.old) }
    {
        let fewest = more.max(FEWEST_MORE);
        let usual = self
            .usual
            .min(MOST_AT_ONCE)
            .saturating_sub(self.slots.len());
        if fewest < usual {
            match self.ask(usual) {
                Ok(()) => return Ok(()),
                Err(_) => {}
            }
        }
        self.ask(fewest)
    }

    /// Finds room for so many more.
    ///
    /// # Errors
    ///
    /// Refusal 2, want of memory: everything is as it was.
    #[inline(always)]
    pub fn reserve(&mut self, more: usize) -> Result<(), AllocError>
        ensures items { batch_items self.new ≡ batch_items self.old }
        ensures found { OnOk result (HasRoom self.new more) }
        ensures had { HasRoom self.old more → IsOk result }
        ensures room { (k : ℕ) → HasRoom self.old k → HasRoom self.new k }
        ensures refused { OnErr result (self.new ≡ self.old) }
    {
        if more <= self.slots.capacity() - self.slots.len() {
            return Ok(());
        }
        self.grow(more)
    }

    /// Adds a callback at the end, in the room that there is.
    pub fn add(&mut self, callback: Callback<J>)
        requires { HasRoom self.old 1 }
        ensures items { batch_items self.new ≡ batch_items self.old ++ callback ∷ [] }
        ensures room { (k : ℕ) → HasRoom self.old (k + 1) → HasRoom self.new k }
    {
        self.slots.push_reserved(Some(callback))
    }

    /// The first callback.
    pub fn first(&self) -> Option<&Callback<J>>
        ensures { MatchOption result (batch_items self.now ≡ []) (λ c.
            (rest : List (Callback J)) × (batch_items self.now ≡ c.now ∷ rest)) }
    {
        let Some(slot) = self.slots.get(self.next) else {
            return None;
        };
        match slot {
            Some(first) => Some(first),
            None => unreachable!(),
        }
    }

    /// Takes the first callback.
    pub fn take_first(&mut self) -> Option<Callback<J>>
        ensures { MatchOption result
            ((batch_items self.old ≡ []) × (batch_items self.new ≡ []))
            (λ c. batch_items self.old ≡ c ∷ batch_items self.new) }
    {
        let next = self.next;
        if next >= self.slots.len() {
            return None;
        }
        let Some(slot) = self.slots.get_mut(next) else {
            unreachable!()
        };
        let first = slot.take();
        self.next = next + 1;
        first
    }

    /// Takes the callback of a batch that holds one alone, and leaves room for sixteen. None where it holds none or more,
    /// and then nothing has moved.
    pub fn take_single(&mut self) -> Option<Callback<J>>
        ensures taken { MatchOption result
            ((length (batch_items self.old) ≢ 1) × (self.new ≡ self.old))
            (λ c. (batch_items self.old ≡ c ∷ []) × (batch_items self.new ≡ [])) }
        ensures room { IsSome result → HasRoom self.new INLINE_PLACES }
    {
        if self.len() != 1 {
            return None;
        }
        let single = self.take_first();
        self.free_places();
        single
    }

    /// Takes all callbacks, in order, and leaves none, with room for sixteen.
    pub fn take_all(&mut self) -> Batch<J>
        ensures all { result ≡ self.old }
        ensures left { batch_items self.new ≡ [] }
        ensures room { HasRoom self.new INLINE_PLACES }
    {
        let mut empty = Batch::new(*self.slots.allocator());
        empty.usual = self.slots.len();
        mem::replace(self, empty)
    }

    // Where all callbacks were taken, their places are free again.
    pub(crate) fn free_places(&mut self)
        ensures items { batch_items self.new ≡ batch_items self.old }
        ensures inline { batch_items self.new ≡ [] → HasRoom self.new INLINE_PLACES }
        ensures room { (k : ℕ) → HasRoom self.old k → HasRoom self.new k }
    {
        if self.is_empty() {
            self.slots.clear();
            self.next = 0;
        }
    }

    // Whether its stamps are in order behind a last one, where those before are in order, and the last stamp then.
    pub(crate) fn stamps_behind(&self, in_order: bool, last: u64) -> (bool, u64)
        ensures order { result.0 ≡ true
            → (in_order ≡ true) × (stamps_from last (batch_items self.now) ≡ true) }
        ensures last { result.1 ≡ last_stamp last (batch_items self.now) }
    {
        stamps_behind(&self.slots[self.next..], in_order, last)
    }

    // Moves so many callbacks from the front of a list to the end, in the room that there is.
    pub(crate) fn take_from(&mut self, list: &mut VecDeque<Callback<J>>, number: usize)
        requires few { number ≤ length list.old.items }
        requires room { HasRoom self.old number }
        ensures moved { batch_items self.new ≡ batch_items self.old ++ take number list.old.items }
        ensures left_room { (k : ℕ) → HasRoom self.old (number + k) → HasRoom self.new k }
        ensures left { list.new.items ≡ drop number list.old.items }
        ensures capacity { deque_capacity list.new ≡ deque_capacity list.old }
    {
        for _ in 0..number {
            let Some(callback) = list.pop_front() else {
                unreachable!()
            };
            self.add(callback);
        }
    }
}
