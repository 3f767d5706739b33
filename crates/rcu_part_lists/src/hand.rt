//! What a hand holds.

ghost use Rattle.std.specs.Prelude.{◌≡◌, ◌≢◌, [], ◌∷◌, ◌++◌, List, option_to_list, IfSome, MatchOption, None};
ghost use Rattle.rcu_jobs.specs.declared.callback.Callback.{Callback};
ghost use Rattle.rcu_lanes.specs.Ends.{SameFront, items_drawn};
ghost use Rattle.rcu_lists.specs.Batches.{batch_items};
ghost use Rattle.rcu_part_lists.specs.Ends.{EndsWith};
ghost use Rattle.rcu_part_lists.specs.Lanes.{drawn_calls, IsStopOfLane};
ghost use Rattle.rcu_part_lists.specs.Limits.{AreSafe, IsSafe};

use crate::lane_ends::Inlet;
use crate::limits::LaneLimits;
use rcu_jobs::{Callback, Stop};
use rcu_lanes::Front;
use rcu_lists::{Batch, Parcel};
use std::alloc::Global;

/// The batch of a hand, and the end of the done lane that it draws from. What was drawn is what was taken, and then
/// what is held.
pub struct Held<J> {
    pub(crate) inlet: Inlet<J>,
    pub(crate) batch: Batch<J>,
    ghost order: { EndsWith (drawn_calls inlet.front) (batch_items batch) },
    ghost safe: { AreSafe (batch_items batch) },
}

impl<J: Drop> Held<J> {
    ghost use Rattle.rcu_part_lists.specs.Helds.{front_of, drawn_by, held_by, taken_by};

    /// A hand that has drawn nothing.
    pub fn new(alloc: Global, front: Front<Parcel<J>, LaneLimits>) -> Held<J>
        requires { items_drawn front ≡ [] }
        ensures front { front_of result ≡ front }
        ensures empty { (drawn_by result ≡ []) × (held_by result ≡ []) }
    {
        Held {
            inlet: Inlet::new(front),
            batch: Batch::new(alloc),
        }
    }

    /// Draws a batch, where none is held. Takes no memory. Answers why none is held, if so.
    pub fn fetch(&mut self) -> Option<Stop>
        ensures lane { SameFront (front_of self.old) (front_of self.new) }

        // What was held stays, and nothing is drawn then.
        ensures held { held_by self.old ≢ []
            → (result ≡ None) × (drawn_by self.new ≡ drawn_by self.old)
            × (held_by self.new ≡ held_by self.old) }

        // A batch that was drawn is held.
        ensures drawn { held_by self.old ≡ []
            → drawn_by self.new ≡ drawn_by self.old ++ held_by self.new }
        ensures none { result ≢ None → (held_by self.old ≡ []) × (held_by self.new ≡ []) }
        ensures stops { IfSome result IsStopOfLane }
        ensures taken { taken_by self.new ≡ taken_by self.old }
    {
        if !self.batch.is_empty() {
            return None;
        }
        self.inlet.draw_into(&mut self.batch)
    }

    /// The first callback.
    pub fn first(&self) -> Option<&Callback<J>>
        ensures first { MatchOption result (held_by self.now ≡ []) (λ c.
            (rest : List (Callback J)) × (held_by self.now ≡ c.now ∷ rest)) }
        ensures safe { IfSome result (λ c. IsSafe c.now) }
    {
        self.batch.first()
    }

    /// Takes the first callback.
    pub fn take(&mut self) -> Option<Callback<J>>
        ensures front { front_of self.new ≡ front_of self.old }
        ensures first { MatchOption result
            ((held_by self.old ≡ []) × (held_by self.new ≡ []))
            (λ c. held_by self.old ≡ c ∷ held_by self.new) }
        ensures taken { taken_by self.new ≡ taken_by self.old ++ option_to_list result }
        ensures safe { IfSome result IsSafe }
    {
        self.batch.take_first()
    }

    /// The end that it draws from, and the batch.
    pub fn into_parts(self) -> (Front<Parcel<J>, LaneLimits>, Batch<J>)
        ensures front { result.0 ≡ front_of self }
        ensures batch { batch_items result.1 ≡ held_by self }
        ensures order { drawn_by self ≡ taken_by self ++ held_by self }
        ensures safe { AreSafe (batch_items result.1) }
    {
        let Held { inlet, batch } = self;
        (inlet.into_front(), batch)
    }
}

impl<J: Drop> Drop for Held<J> {
    fn drop(self) {
        let Held { inlet: _, batch: _ } = self;
    }
}
