//! A list of callbacks that is cut into segments: docs/specification/rules.md, "Callback lists".

ghost use Rattle.std.specs.Prelude.{◌≡◌, ℕ, ◌+◌, ◌<◌, ◌≤◌, ◌↔◌, [], ◌∷◌, ◌++◌, true, ⊤, IsTrue, length, min, max, option_to_list, All, List, MatchOption, IfSome, IfOk, IsOk, OnOk, OnErr};
ghost use Rattle.rcu_numbers.specs.Numbers.{snap_of};
ghost use Rattle.rcu_lists.specs.Batches.{batch_items};
ghost use Rattle.rcu_lists.specs.Bounds.{cut_by, IsWithin};
ghost use Rattle.rcu_lists.specs.Bypasses.{bypass_items, bypass_pace, bypass_qhimark, BypassRoom, BypassUnchanged};
ghost use Rattle.rcu_lists.specs.Labels.{IsGraced};
ghost use Rattle.rcu_lists.specs.Release.{joined_plain};
ghost use Rattle.rcu_lists.specs.Stamps.{stamps_from, newest_of};

use crate::batch::{Batch, INLINE_PLACES};
use crate::bounds::Bounds;
use crate::bypass::Bypass;
use rcu_jobs::Callback;
use std::alloc::{AllocError, Global};
use std::collections::VecDeque;

/// Callbacks in order, in four segments: done, wait, next-ready and next. Those in done may run as far as this list
/// knows, those in wait and in next-ready wait for a number each, and those in next have none yet.
///
/// ```text
/// done ────────► wait ────────► next-ready ────► next
/// may run        waits for      waits for        no number
///                wait_number    ready_number     yet
/// ```
///
/// `advance` moves what waits for a number that is reached to done, and `accelerate` gives those in next a number.
///
/// Contracts see it as a list of callbacks with a label each (docs/specification/definitions.md, "Lists").
#[derive(Drop)]
pub struct Segments<J> {
    list: VecDeque<Callback<J>>,
    // Where the list is cut into these segments.
    bounds: Bounds,
    // Whether no stamp is known to be below the one before it.
    in_order: bool,
    ghost within: { IsWithin bounds list.items },
    ghost stamps: { in_order ≡ true → stamps_from 0 list.items ≡ true },
    // No callback is done before a grace period served it.
    ghost graced: { IsGraced bounds.advanced (cut_by bounds list.items) },
}

impl<J: Drop> Segments<J> {
    ghost use Rattle.rcu_lists.specs.Labels.{Done, Bare, Labelled, IsLabelledList, MayAccelerate, marked, count, is_done, carries, callbacks_of, after_advance, after_accelerate, lengths_of, numbers_of};
    ghost use Rattle.rcu_lists.specs.Segments.{labelled, advanced_by, SegmentsRoom, SegmentsUnchanged};

    /// No callbacks.
    pub fn new(alloc: Global) -> Segments<J>
        ensures list { labelled result ≡ [] }
        ensures advanced { advanced_by result ≡ 0 }
    {
        Segments {
            list: VecDeque::new(alloc),
            bounds: Bounds::new(),
            in_order: true,
        }
    }

    /// Finds room for so many more.
    ///
    /// # Errors
    ///
    /// Refusal 2, want of memory.
    pub fn reserve(&mut self, more: usize) -> Result<(), AllocError>
        ensures same { SegmentsUnchanged self.old self.new }
        ensures found { OnOk result (SegmentsRoom self.new more) }
        ensures had { SegmentsRoom self.old more → IsOk result }
    {
        let (len, places) = (self.list.len(), self.list.capacity());
        // (a list that isn't full may begin anywhere in its block, and `reserve` would move it to a new one; `reserve_exact`
        // moves it to the start of its block, which then grows where it stands)
        if len == places || more <= places - len {
            return self.list.reserve(more);
        }
        self.list.reserve_exact(more.max(places))
    }

    /// Adds a callback at the end of next, in the room that there is.
    pub fn enqueue(&mut self, callback: Callback<J>)
        requires { SegmentsRoom self.old 1 }
        ensures list { labelled self.new
            ≡ labelled self.old ++ record { label = Bare; callback = callback } ∷ [] }
        ensures advanced { advanced_by self.new ≡ advanced_by self.old }
        ensures room { (k : ℕ) → SegmentsRoom self.old (k + 1) → SegmentsRoom self.new k }
    {
        self.in_order = self.keeps_order(callback.stamp);
        self.list.push_back_reserved(callback)
    }

    /// Moves the callbacks into done whose number is at most `seq`. Takes constant time.
    pub fn advance(&mut self, seq: u64)
        ensures list { labelled self.new ≡ after_advance seq (labelled self.old) }
        ensures advanced { advanced_by self.new ≡ max (advanced_by self.old) seq }
        ensures room { (k : ℕ) → SegmentsRoom self.old k → SegmentsRoom self.new k }
    {
        self.bounds.advance::<J>(seq);
    }

    /// Gives the number `seq` to the callbacks in next, unless two lesser numbers are in the list. Answers whether
    /// some callback has this number then. Takes constant time.
    pub fn accelerate(&mut self, seq: u64) -> bool
        requires { MayAccelerate seq (labelled self.old) }
        ensures list { labelled self.new ≡ after_accelerate seq (labelled self.old) }
        ensures carried { result ≡ carries seq (labelled self.new) }
        ensures advanced { advanced_by self.new ≡ advanced_by self.old }
        ensures room { (k : ℕ) → SegmentsRoom self.old k → SegmentsRoom self.new k }
    {
        self.bounds.accelerate::<J>(seq, self.list.len())
    }

    /// Whether `accelerate(seq)` may be called: `seq` is at least each number in the list, and at least `snap` of
    /// each stamp in it.
    pub fn may_accelerate(&self, seq: u64) -> bool
        ensures { IsTrue result ↔ MayAccelerate seq (labelled self.now) }
    {
        let greatest = self.bounds.wait_number.max(self.bounds.ready_number);
        greatest <= seq && is_served(self.newest(), seq)
    }

    /// The first callback, if it is done.
    pub fn first_done(&self) -> Option<&Callback<J>>
        ensures { MatchOption result (count is_done (labelled self.now) ≡ 0) (λ c.
            (rest : List (Labelled J)) × (labelled self.now ≡ marked Done (c.now ∷ []) ++ rest)) }
    {
        if self.bounds.done == 0 {
            return None;
        }
        let Some(first) = self.list.front() else {
            unreachable!()
        };
        Some(first)
    }

    /// How many callbacks are in done.
    pub fn done_len(&self) -> u64
        ensures number { result ≡ count is_done (labelled self.now) }
        ensures labelled { IsLabelledList (labelled self.now) }
    {
        let done = self.bounds.done;
        done as u64
    }

    /// Takes the first callback, if it is done.
    pub fn take_done(&mut self) -> Option<Callback<J>>
        ensures taken { MatchOption result
            ((count is_done (labelled self.old) ≡ 0) × (labelled self.new ≡ labelled self.old))
            (λ c. labelled self.old ≡ marked Done (c ∷ []) ++ labelled self.new) }
        ensures graced { IfSome result (λ c. snap_of c.stamp ≤ advanced_by self.old) }
        ensures advanced { advanced_by self.new ≡ advanced_by self.old }
        ensures room { (k : ℕ) → SegmentsRoom self.old k
            → SegmentsRoom self.new (k + length (option_to_list result)) }
    {
        if self.bounds.done == 0 {
            return None;
        }
        self.bounds.done -= 1;
        self.list.pop_front()
    }

    /// Takes the first done callbacks, at most `max`.
    ///
    /// # Errors
    ///
    /// Refusal 2, want of memory: everything is as it was.
    pub fn take_batch(&mut self, max: usize) -> Result<Batch<J>, AllocError>
        ensures taken { IfOk result (λ b.
            labelled self.old ≡ marked Done (batch_items b) ++ labelled self.new) }
        ensures number { IfOk result (λ b.
            length (batch_items b) ≡ min max (count is_done (labelled self.old))) }
        ensures graced { IfOk result (λ b.
            All (λ c. snap_of c.stamp ≤ advanced_by self.old) (batch_items b)) }
        ensures advanced { advanced_by self.new ≡ advanced_by self.old }
        ensures room { IfOk result (λ b.
            (k : ℕ) → SegmentsRoom self.old k
            → SegmentsRoom self.new (k + length (batch_items b))) }

        // Sixteen places stand in the batch itself.
        ensures inline { min max (count is_done (labelled self.old)) ≤ INLINE_PLACES → IsOk result }
        ensures refused { OnErr result (SegmentsUnchanged self.old self.new) }
    {
        let mut batch = Batch::new(*self.list.allocator());
        self.fill_batch(max, &mut batch)?;
        Ok(batch)
    }

    /// Moves the first done callbacks, at most `max`, into a batch that holds nothing: a batch is large, so one that is
    /// there already is filled in its place.
    ///
    /// # Errors
    ///
    /// Refusal 2, want of memory: everything is as it was.
    pub fn fill_batch(&mut self, max: usize, batch: &mut Batch<J>) -> Result<(), AllocError>
        requires none { batch_items batch.old ≡ [] }
        ensures taken { OnOk result
            (labelled self.old ≡ marked Done (batch_items batch.new) ++ labelled self.new) }
        ensures number { OnOk result
            (length (batch_items batch.new) ≡ min max (count is_done (labelled self.old))) }
        ensures graced { OnOk result
            (All (λ c. snap_of c.stamp ≤ advanced_by self.old) (batch_items batch.new)) }
        ensures advanced { advanced_by self.new ≡ advanced_by self.old }
        ensures room { OnOk result
            ((k : ℕ) → SegmentsRoom self.old k
            → SegmentsRoom self.new (k + length (batch_items batch.new))) }

        // Sixteen places stand in the batch itself.
        ensures inline { min max (count is_done (labelled self.old)) ≤ INLINE_PLACES → IsOk result }
        ensures refused { OnErr result
            (SegmentsUnchanged self.old self.new × (batch_items batch.new ≡ [])) }
    {
        let number = max.min(self.bounds.done);
        batch.free_places();
        batch.reserve(number)?;
        batch.take_from(&mut self.list, number);
        self.bounds.done -= number;
        Ok(())
    }

    /// Moves all callbacks to the end of a bypass list, in order, where they count as plain.
    ///
    /// # Errors
    ///
    /// Refusal 2, want of memory: everything is as it was.
    pub fn pour(&mut self, bypass: &mut Bypass<J>) -> Result<(), AllocError>
        ensures left { OnOk result (labelled self.new ≡ []) }
        ensures moved { OnOk result
            (bypass_items bypass.new
            ≡ bypass_items bypass.old ++ callbacks_of (labelled self.old)) }
        ensures pace { OnOk result
            (bypass_pace bypass.new
            ≡ joined_plain (callbacks_of (labelled self.old)) (bypass_pace bypass.old)) }
        ensures advanced { advanced_by self.new ≡ advanced_by self.old }
        ensures qhimark { bypass_qhimark bypass.new ≡ bypass_qhimark bypass.old }

        // Room that is there is used, and an empty list wants none.
        ensures had { BypassRoom bypass.old (length (labelled self.old)) → IsOk result }
        ensures none { labelled self.old ≡ [] → IsOk result }
        ensures refused { OnErr result
            (SegmentsUnchanged self.old self.new × BypassUnchanged bypass.old bypass.new) }
    {
        bypass.make_room(self.list.len())?;
        bypass.take_list(&mut self.list);
        self.bounds.clear();
        Ok(())
    }

    /// The greatest stamp in the list. Takes constant time where the callbacks came in the order of their stamps.
    pub fn newest(&self) -> Option<u64>
        ensures { result ≡ newest_of (callbacks_of (labelled self.now)) }
    {
        if !self.in_order {
            return greatest_stamp(&self.list);
        }
        let last = self.list.back()?;
        let stamp = last.stamp;
        Some(stamp)
    }

    /// How many callbacks are in done, wait, next-ready and next.
    pub fn lengths(&self) -> [u64; 4]
        ensures { result ≡ lengths_of (labelled self.now) }
    {
        self.bounds.lengths::<J>(self.list.len())
    }

    /// The numbers of wait and next-ready, 0 while empty.
    pub fn numbers(&self) -> [u64; 2]
        ensures numbers { result ≡ numbers_of (labelled self.now) }

        // What holds of each such list.
        ensures labelled { IsLabelledList (labelled self.now) }
        ensures graced { IsGraced (advanced_by self.now) (labelled self.now) }
    {
        [self.bounds.wait_number, self.bounds.ready_number]
    }

    /// All callbacks, in order.
    pub fn into_callbacks(self) -> VecDeque<Callback<J>>
        ensures { result.items ≡ callbacks_of (labelled self) }
    {
        self.list
    }

    // Whether the stamps are in order with this one after them.
    fn keeps_order(&self, stamp: u64) -> bool
        ensures order { result ≡ true → stamps_from 0 self.now.list.items ≡ true }
        ensures last { result ≡ true → All (λ c. c.stamp ≤ stamp) self.now.list.items }
    {
        let last = match self.list.back() {
            Some(last) => last,
            None => return true,
        };
        let newest = last.stamp;
        self.in_order && newest <= stamp
    }
}

// Whether `seq` is at least `snap` of the stamp, if there is one: whether the last idle number up to `seq` is at
// least four above the stamp.
fn is_served(stamp: Option<u64>, seq: u64) -> bool
    ensures { IsTrue result ↔ MatchOption stamp ⊤ (λ t. snap_of t ≤ seq) }
{
    let idle = seq / 4 * 4;
    match stamp {
        Some(stamp) => idle >= 4 && stamp <= idle - 4,
        None => true,
    }
}

// The greatest stamp, whatever their order.
fn greatest_stamp<J>(list: &VecDeque<Callback<J>>) -> Option<u64>
    ensures { result ≡ newest_of list.now.items }
{
    let mut greatest = None;
    for callback in list.iter() {
        let stamp = callback.stamp;
        let so_far = match greatest {
            Some(other) => stamp.max(other),
            None => stamp,
        };
        greatest = Some(so_far);
    }
    greatest
}
