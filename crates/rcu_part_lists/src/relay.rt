//! What a group does for one member in a turn: docs/specification/rules.md, "The calls, step by step", Group::turn.

ghost use Rattle.std.specs.Prelude.{◌≡◌, ◌≤◌, true, false, [], ◌++◌, min};
ghost use Rattle.std.proofs.Common.{◌⊎◌};
ghost use Rattle.rcu_lanes.specs.Ends.{SameFront, SameRear};
ghost use Rattle.rcu_lists.specs.Batches.{batch_items};
ghost use Rattle.rcu_lists.specs.Labels.{callbacks_of, count, is_done};
ghost use Rattle.rcu_part_lists.specs.MemberLists.{Relay, relay, front_of, rear_of, most_batches, joined, Draws, TakesIn, Loads, Hands, Gives, GivesSome};

use crate::member_lists::{MOST_BATCHES, MemberLists};
use rcu_lanes::Draw;
use rcu_lists::INLINE_PLACES;

impl<J: Drop> MemberLists<J> {
    /// Draws up to [`MOST_BATCHES`] batches of the member's lane, each joined to the end of next. A batch that waits
    /// joins first; where there is no room for it, nothing is drawn. Answers how many callbacks were drawn.
    pub fn take_in(&mut self) -> u64
        ensures lanes { SameFront (front_of self.old) (front_of self.new)
            × (rear_of self.new ≡ rear_of self.old) }
        ensures advanced { (relay self.new).advanced ≡ (relay self.old).advanced }
        ensures takes { TakesIn most_batches result (relay self.old) (relay self.new) }
    {
        let mut took = 0;
        for drawing in 0..MOST_BATCHES {
            if !self.join_one() {
                return took;
            }
            if !self.draw_one() {
                return took;
            }
            took += self.drawn.len();
        }
        self.join_one();
        took
    }

    // The batch that waits joins the list, where room is found. Answers whether none waits.
    fn join_one(&mut self) -> bool
        ensures ends { (front_of self.new ≡ front_of self.old)
            × (rear_of self.new ≡ rear_of self.old) }
        ensures advanced { (relay self.new).advanced ≡ (relay self.old).advanced }
        ensures joins { result ≡ true → relay self.new ≡ joined (relay self.old) }
        ensures waits { result ≡ false → relay self.new ≡ relay self.old }
    {
        self.list.join(&mut self.drawn)
    }

    // Draws a batch, which waits then. Answers whether one came.
    fn draw_one(&mut self) -> bool
        requires { (relay self.old).drawn ≡ [] }
        ensures lanes { SameFront (front_of self.old) (front_of self.new)
            × (rear_of self.new ≡ rear_of self.old) }
        ensures advanced { (relay self.new).advanced ≡ (relay self.old).advanced }
        ensures draws { result ≡ true → Draws (relay self.old) (relay self.new) }
        ensures none { result ≡ false → relay self.new ≡ relay self.old }
    {
        self.inlet.draw_into(&mut self.drawn).is_none()
    }

    /// Puts the batch that waits for the done lane; where none does, the first done callbacks, at most `blimit`, as one
    /// batch. Answers how many callbacks were put. Up to sixteen need no memory.
    pub fn give(&mut self, blimit: u64) -> u64
        ensures lanes { (front_of self.new ≡ front_of self.old)
            × SameRear (rear_of self.old) (rear_of self.new) }
        ensures advanced { (relay self.new).advanced ≡ (relay self.old).advanced }
        ensures gives { Gives blimit result (relay self.old) (relay self.new) }
        ensures some { GivesSome blimit result (relay self.old) }
    {
        self.load(blimit);
        self.hand_on()
    }

    // Makes the first done callbacks a batch, where none waits and there is memory for it.
    fn load(&mut self, blimit: u64)
        ensures ends { (front_of self.new ≡ front_of self.old)
            × (rear_of self.new ≡ rear_of self.old) }
        ensures advanced { (relay self.new).advanced ≡ (relay self.old).advanced }
        ensures loads { (relay self.new ≡ relay self.old)
            ⊎ Loads blimit (relay self.old) (relay self.new) }
        ensures fits { (relay self.old).out ≡ []
            → min blimit (count is_done (relay self.old).list) ≤ INLINE_PLACES
            → Loads blimit (relay self.old) (relay self.new) }
    {
        if !self.out.is_empty() {
            return;
        }
        match self.list.fill_batch(blimit as usize, &mut self.out) {
            Ok(()) => {}
            Err(_) => {}
        }
    }

    // Puts the batch that waits on the done lane. Answers how many callbacks were put.
    fn hand_on(&mut self) -> u64
        ensures lanes { (front_of self.new ≡ front_of self.old)
            × SameRear (rear_of self.old) (rear_of self.new) }
        ensures advanced { (relay self.new).advanced ≡ (relay self.old).advanced }
        ensures hands { Hands result (relay self.old) (relay self.new) }
    {
        if self.out.is_empty() {
            return 0;
        }
        let gave = self.out.len();
        if self.outlet.put_from(&mut self.out) {
            gave
        } else {
            0
        }
    }
}
