//! The list in which an offloaded processor holds its callbacks back.

ghost use Rattle.std.specs.Prelude.{◌≡◌, ◌≢◌, ◌↔◌, ℕ, ◌+◌, true, false, [], ◌∷◌, ◌++◌, None, IsOk, IsSome, IsTrue, MatchOption, OnOk, OnErr, length};
ghost use Rattle.rcu_lists.specs.Batches.{batch_items, HasRoom};
ghost use Rattle.rcu_lists.specs.declared.batch.TheConstants.{INLINE_PLACES};

use crate::batch::{Batch, INLINE_PLACES};
use crate::pace::{Kind, Pace};
use rcu_jobs::Callback;
use std::alloc::{AllocError, Global};
use std::collections::VecDeque;

/// Callbacks that an offloaded processor holds back, to release them together
/// (docs/specification/rules.md, "Bypass lists").
#[derive(Drop)]
pub struct Bypass<J> {
    held: Batch<J>,
    qhimark: u64,
    pace: Pace,
    // The pace knows a plain callback, or a kept moment, exactly where the list holds callbacks.
    ghost unmarked: { batch_items held ≡ [] → (pace.plain ≡ false) × (pace.lazy ≡ None) },
    ghost marked: { pace.plain ≡ false → pace.lazy ≡ None → batch_items held ≡ [] },
    // An empty list has the room that stands in the value itself.
    ghost roomy: { batch_items held ≡ [] → HasRoom held INLINE_PLACES },
}

/// What became of a callback that was placed.
#[derive(Drop)]
pub enum Placed<J> {
    /// It is in the list.
    Kept,
    /// It released the list. This is all of it, which is to be put on the lane.
    Out(Batch<J>),
}

impl<J: Drop> Bypass<J> {
    ghost use Rattle.rcu_lists.specs.Bypasses.{bypass_items, bypass_pace, bypass_qhimark, BypassRoom, BypassUnchanged, out_items, is_out};
    ghost use Rattle.rcu_lists.specs.Release.{beginning, is_due, held, placed, is_late, restarted, ticked, emptied, refilled, joined_plain};

    /// An empty list that is released at the length `qhimark`.
    pub fn new(alloc: Global, qhimark: u64) -> Bypass<J>
        ensures items { bypass_items result ≡ [] }
        ensures pace { bypass_pace result ≡ beginning }
        ensures qhimark { bypass_qhimark result ≡ qhimark }
        ensures room { BypassRoom result INLINE_PLACES }
    {
        Bypass {
            held: Batch::new(alloc),
            qhimark,
            pace: Pace::new(),
        }
    }

    /// How many callbacks it holds.
    pub fn len(&self) -> u64
        ensures { result ≡ length (bypass_items self.now) }
    {
        self.held.len()
    }

    /// Finds room for one more. An empty list has it.
    ///
    /// # Errors
    ///
    /// Refusal 2, want of memory.
    pub fn reserve(&mut self) -> Result<(), AllocError>
        ensures same { BypassUnchanged self.old self.new }
        ensures found { OnOk result (BypassRoom self.new 1) }
        ensures had { BypassRoom self.old 1 → IsOk result }
        ensures none { bypass_items self.old ≡ [] → IsOk result }
    {
        self.make_room(1)
    }

    /// Whether it holds none.
    pub fn is_empty(&self) -> bool
        ensures { IsTrue result ↔ (bypass_items self.now ≡ []) }
    {
        self.held.is_empty()
    }

    /// Adds a callback at the end, and answers whether the list is due to be released. Nothing is taken out: the kinds
    /// and the kept moment are those of the list with this callback in it, until a `flush`.
    pub fn hold(&mut self, moment: u64, kind: Kind, callback: Callback<J>) -> bool
        requires { BypassRoom self.old 1 }
        ensures due { result
            ≡ is_due moment kind (bypass_pace self.old) (length (bypass_items self.old) + 1)
            (bypass_qhimark self.old) }
        ensures items { bypass_items self.new ≡ bypass_items self.old ++ callback ∷ [] }
        ensures pace { bypass_pace self.new
            ≡ held moment kind (bypass_pace self.old) (length (bypass_items self.old) + 1) }
        ensures qhimark { bypass_qhimark self.new ≡ bypass_qhimark self.old }
        ensures room { (k : ℕ) → BypassRoom self.old (k + 1) → BypassRoom self.new k }
    {
        self.held.add(callback);
        let (len, qhimark) = (self.held.len(), self.qhimark);
        self.pace.hold(moment, kind, len, qhimark)
    }

    /// Adds a callback at the end, and releases the list where that is due.
    pub fn place(&mut self, moment: u64, kind: Kind, callback: Callback<J>) -> Placed<J>
        requires { BypassRoom self.old 1 }
        ensures items { out_items result ++ bypass_items self.new
            ≡ bypass_items self.old ++ callback ∷ [] }
        ensures all { is_out result ≡ true → bypass_items self.new ≡ [] }
        ensures pace { (is_out result, bypass_pace self.new)
            ≡ placed moment kind (bypass_pace self.old) (length (bypass_items self.old) + 1)
            (bypass_qhimark self.old) }
        ensures qhimark { bypass_qhimark self.new ≡ bypass_qhimark self.old }

        // How much room there is then.
        ensures kept_room { is_out result ≡ false → (k : ℕ) → BypassRoom self.old (k + 1)
            → BypassRoom self.new k }
        ensures out_room { is_out result ≡ true → BypassRoom self.new INLINE_PLACES }
    {
        if self.hold(moment, kind, callback) {
            Placed::Out(self.flush())
        } else {
            Placed::Kept
        }
    }

    /// Whether a tick releases the list because of its moment.
    pub fn is_late(&self, moment: u64) -> bool
        ensures late { result ≡ is_late moment (bypass_pace self.now) }
        ensures empty { bypass_items self.now ≡ [] → result ≡ false }
    {
        self.pace.is_late(moment)
    }

    /// A tick's moment becomes the last one, and the count 0.
    pub fn restart(&mut self, moment: u64)
        ensures items { bypass_items self.new ≡ bypass_items self.old }
        ensures pace { bypass_pace self.new ≡ restarted moment (bypass_pace self.old) }
        ensures qhimark { bypass_qhimark self.new ≡ bypass_qhimark self.old }
        ensures room { (k : ℕ) → BypassRoom self.old k → BypassRoom self.new k }
    {
        self.pace.last = Some(moment);
        self.pace.direct = 0;
    }

    /// Whether a tick releases the list because of its moment, which then becomes the last one, the count 0.
    pub fn late(&mut self, moment: u64) -> bool
        ensures late { result ≡ is_late moment (bypass_pace self.old) }
        ensures empty { bypass_items self.old ≡ [] → result ≡ false }
        ensures items { bypass_items self.new ≡ bypass_items self.old }
        ensures pace { bypass_pace self.new ≡ ticked moment (bypass_pace self.old) }
        ensures qhimark { bypass_qhimark self.new ≡ bypass_qhimark self.old }
        ensures room { (k : ℕ) → BypassRoom self.old k → BypassRoom self.new k }
    {
        let late = self.is_late(moment);
        if late {
            self.restart(moment);
        }
        late
    }

    /// Takes all of the list. The last moment and the count stay.
    pub fn flush(&mut self) -> Batch<J>
        ensures all { batch_items result ≡ bypass_items self.old }
        ensures none { bypass_items self.new ≡ [] }
        ensures pace { bypass_pace self.new ≡ emptied (bypass_pace self.old) }
        ensures qhimark { bypass_qhimark self.new ≡ bypass_qhimark self.old }
        ensures room { BypassRoom self.new INLINE_PLACES }
    {
        self.pace = self.pace.emptied();
        self.held.take_all()
    }

    /// Takes the list where it holds one callback alone. None where it holds none or more, and then nothing has moved. The
    /// last moment and the count stay.
    pub fn flush_single(&mut self) -> Option<Callback<J>>
        ensures single { MatchOption result
            ((length (bypass_items self.old) ≢ 1) × BypassUnchanged self.old self.new) (λ c.
            (bypass_items self.old ≡ c ∷ []) × (bypass_items self.new ≡ [])
            × (bypass_pace self.new ≡ emptied (bypass_pace self.old))) }
        ensures qhimark { bypass_qhimark self.new ≡ bypass_qhimark self.old }
        ensures room { IsSome result → BypassRoom self.new INLINE_PLACES }
    {
        match self.held.take_single() {
            None => None,
            Some(single) => {
                let rested = self.pace.emptied();
                self.pace = rested;
                Some(single)
            }
        }
    }

    /// Puts back a callback that was released alone, as a plain one. The last moment and the count stay.
    pub fn refill_single(&mut self, single: Callback<J>)
        requires none { bypass_items self.old ≡ [] }
        ensures items { bypass_items self.new ≡ single ∷ [] }
        ensures pace { bypass_pace self.new ≡ refilled (single ∷ []) (bypass_pace self.old) }
        ensures qhimark { bypass_qhimark self.new ≡ bypass_qhimark self.old }
    {
        self.held.add(single);
        self.pace = Pace {
            last: self.pace.last,
            direct: self.pace.direct,
            plain: true,
            lazy: None,
        };
    }

    /// Puts back what was released, as plain callbacks. The last moment and the count stay.
    pub fn refill(&mut self, batch: Batch<J>)
        requires { bypass_items self.old ≡ [] }
        ensures items { bypass_items self.new ≡ batch_items batch }
        ensures pace { bypass_pace self.new ≡ refilled (batch_items batch) (bypass_pace self.old) }
        ensures qhimark { bypass_qhimark self.new ≡ bypass_qhimark self.old }
        ensures room { (k : ℕ) → HasRoom batch k → BypassRoom self.new k }
    {
        self.pace.plain = !batch.is_empty();
        self.held = batch;
        self.held.free_places();
        self.pace.lazy = None;
    }

    // Finds room for so many more.
    pub(crate) fn make_room(&mut self, more: usize) -> Result<(), AllocError>
        ensures same { BypassUnchanged self.old self.new }
        ensures found { OnOk result (BypassRoom self.new more) }
        ensures had { BypassRoom self.old more → IsOk result }
    {
        self.held.reserve(more)
    }

    // Moves a whole list to the end, where its callbacks count as plain.
    pub(crate) fn take_list(&mut self, list: &mut VecDeque<Callback<J>>)
        requires { BypassRoom self.old (length list.old.items) }
        ensures items { bypass_items self.new ≡ bypass_items self.old ++ list.old.items }
        ensures left { list.new.items ≡ [] }
        ensures pace { bypass_pace self.new ≡ joined_plain list.old.items (bypass_pace self.old) }
        ensures qhimark { bypass_qhimark self.new ≡ bypass_qhimark self.old }
    {
        let number = list.len();
        self.held.take_from(list, number);
        if number > 0 {
            self.pace.plain = true;
        }
    }
}
