//! What a group holds of one member.

ghost use Rattle.std.specs.Prelude.{◌≡◌, ℕ, ◌+◌, ◌≤◌, [], ◌++◌, length, IfOk, IfSome};
ghost use Rattle.rcu_lanes.specs.Ends.{SameFront, SameRear, items_put, items_drawn};
ghost use Rattle.rcu_lists.specs.Batches.{batch_items};
ghost use Rattle.rcu_lists.specs.BlockSegments.{block_labelled, block_advanced_by};
ghost use Rattle.rcu_lists.specs.Chains.{chain_items};
ghost use Rattle.rcu_lists.specs.Labels.{callbacks_of};
ghost use Rattle.rcu_part_lists.specs.Aims.{AreAimed, AreUpTo, wanted};
ghost use Rattle.rcu_part_lists.specs.Lanes.{put_calls, drawn_calls};
ghost use Rattle.rcu_part_lists.specs.Limits.{AreFew, AreSafe};

use crate::block_views::look_at_blocks;
use crate::lane_ends::{Inlet, Outlet};
use crate::limits::LaneLimits;
use rcu_jobs::Lists;
use rcu_lanes::{Front, Rear};
use rcu_lists::{Batch, BlockSegments, Chain, Parcel};
use rcu_numbers::LAST_NUMBER;
use std::alloc::{AllocError, Global};

/// How many batches of one member a turn of its group draws at most (docs/specification/rules.md, "The calls, step by
/// step", Group::turn).
pub const MOST_BATCHES: u64 = 64;

/// One member of a group: what was drawn from the member's lane is what was put on its done lane, and then what waits,
/// in order (docs/specification/definitions.md, "Places").
pub struct MemberLists<J> {
    pub(crate) inlet: Inlet<J>,
    pub(crate) outlet: Outlet<J>,
    pub(crate) list: BlockSegments<J>,
    // The drawn batch that waits for room in the list.
    pub(crate) drawn: Batch<J>,
    // The batch that waits for room on the done lane.
    pub(crate) out: Batch<J>,
    ghost order: { drawn_calls inlet.front
        ≡ put_calls outlet.rear
        ++ (batch_items out ++ (callbacks_of (block_labelled list) ++ batch_items drawn)) },
    ghost drawn_safe: { AreSafe (batch_items drawn) },
    ghost list_safe: { AreSafe (callbacks_of (block_labelled list)) },
    ghost out_safe: { AreSafe (batch_items out) },
    ghost few: { AreFew (drawn_calls inlet.front) },
    ghost aimed: { AreAimed (block_advanced_by list) (block_labelled list) },
}

impl<J: Drop> MemberLists<J> {
    ghost use Rattle.rcu_part_lists.specs.MemberLists.{Relay, relay, nothing_relayed, front_of, rear_of, after_look, folk_lists};

    /// A member of which nothing has come, between the ends of its two lanes.
    ///
    /// # Errors
    ///
    /// Want of memory.
    pub fn new(
        alloc: Global,
        front: Front<Parcel<J>, LaneLimits>,
        rear: Rear<Parcel<J>, LaneLimits>,
    ) -> Result<MemberLists<J>, AllocError>
        requires none_drawn { items_drawn front ≡ [] }
        requires none_put { items_put rear ≡ [] }
        ensures ends { IfOk result (λ m. (front_of m ≡ front) × (rear_of m ≡ rear)) }
        ensures empty { IfOk result (λ m. relay m ≡ nothing_relayed) }
    {
        Ok(MemberLists {
            inlet: Inlet::new(front),
            outlet: Outlet::new(alloc, rear)?,
            list: BlockSegments::new(alloc),
            drawn: Batch::new(alloc),
            out: Batch::new(alloc),
        })
    }

    /// Advances the list by the number seen, and accelerates it by `snap` of the greater of that number and the newest
    /// stamp. Answers that where some callback waits for it, and it is to be asked for.
    pub fn look(&mut self, seen: u64) -> Option<u64>
        requires later { (relay self.old).advanced ≤ seen }
        requires small { seen ≤ LAST_NUMBER }
        ensures ends { (front_of self.new ≡ front_of self.old)
            × (rear_of self.new ≡ rear_of self.old) }
        ensures list { relay self.new ≡ after_look seen (relay self.old) }
        ensures wanted { result ≡ wanted seen (relay self.old).list }

        // Each number that is waited for then is the one answered, or was waited for before.
        ensures needed { (s : ℕ) → AreUpTo s (relay self.old).list → IfSome result (λ n. n ≤ s)
            → AreUpTo s (relay self.new).list }
    {
        look_at_blocks(&mut self.list, seen)
    }

    /// How many callbacks wait in the batch that was drawn, or in the one that is to be put.
    pub fn held(&self) -> u64
        ensures { result ≡ length (relay self.now).drawn + length (relay self.now).out }
    {
        self.drawn.len() + self.out.len()
    }

    /// What is shown of it.
    pub fn lists(&self) -> Lists
        ensures { result ≡ folk_lists (relay self.now) }
    {
        Lists::Folk {
            lengths: self.list.lengths(),
            numbers: self.list.numbers(),
        }
    }

    /// The ends of its lanes, the callbacks of its list, the batch that was drawn, and the batch that is to be put.
    pub fn into_parts(
        self,
    ) -> (
        Front<Parcel<J>, LaneLimits>,
        Rear<Parcel<J>, LaneLimits>,
        Chain<J>,
        Batch<J>,
        Batch<J>,
    )
        ensures ends { (result.0 ≡ front_of self) × (result.1 ≡ rear_of self) }
        ensures list { chain_items result.2 ≡ callbacks_of (relay self).list }
        ensures drawn { batch_items result.3 ≡ (relay self).drawn }
        ensures out { batch_items result.4 ≡ (relay self).out }

        // What was drawn is what was put and what comes back, in order.
        ensures order { (relay self).received
            ≡ (relay self).put
            ++ (batch_items result.4 ++ (chain_items result.2 ++ batch_items result.3)) }
        ensures safe { AreSafe (chain_items result.2) × AreSafe (batch_items result.3)
            × AreSafe (batch_items result.4) }
    {
        let MemberLists {
            inlet,
            outlet,
            list,
            drawn,
            out,
        } = self;
        let (front, rear) = (inlet.into_front(), outlet.into_rear());
        (front, rear, list.into_chain(), drawn, out)
    }
}

impl<J: Drop> Drop for MemberLists<J> {
    fn drop(self) {
        let MemberLists {
            inlet: _,
            outlet: _,
            list: _,
            drawn: _,
            out: _,
        } = self;
    }
}
