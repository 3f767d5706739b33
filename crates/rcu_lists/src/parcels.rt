//! How a batch becomes what a lane carries, and the other way round.

ghost use Rattle.std.specs.Prelude.{◌≡◌, ◌≤◌, [], length, IsOk, MatchResult};
ghost use Rattle.rcu_lists.specs.Batches.{batch_items};
ghost use Rattle.rcu_lists.specs.Parcels.{parcel_items, places_items, IsOnHeap};
ghost use Rattle.rcu_lists.specs.declared.batch.TheConstants.{INLINE_PLACES};

use crate::batch::Batch;
use crate::parcel::{Parcel, Places, SpareBlock};
use smallvec::SmallVec;
use std::alloc::AllocFailed;

impl<J: Drop> Batch<J> {
    /// Makes a parcel of it. What stands in the batch itself wants memory, and what is on the heap none.
    ///
    /// # Errors
    ///
    /// The batch, where memory is wanted and there is none.
    pub fn pack(self) -> Result<Parcel<J>, Batch<J>>
        ensures packed { MatchResult result (λ parcel. parcel_items parcel ≡ batch_items self)
            (λ back. back ≡ self) }
        ensures heap { IsOnHeap self → IsOk result }
    {
        match self.into_places() {
            Ok(places) => Ok(Parcel::Many(places)),
            Err(back) => Err(back),
        }
    }

    // Its places as they stand on the heap. What stands in the batch itself wants memory, and what is on the heap none.
    pub(crate) fn into_places(self) -> Result<Places<J>, Batch<J>>
        ensures packed { MatchResult result (λ places. places_items places ≡ batch_items self)
            (λ back. back ≡ self) }
        ensures heap { IsOnHeap self → IsOk result }
    {
        let Batch { slots, next, usual } = self;
        match slots.into_vec() {
            Ok(slots) => Ok(Places { slots, next }),
            Err(AllocFailed { value }) => Err(Batch {
                slots: value,
                next,
                usual,
            }),
        }
    }

    /// Makes a parcel of it, where there is room on the heap for what stands in the batch itself. Wants no memory.
    pub fn pack_into(mut self, room: SpareBlock<J>) -> Parcel<J>
        ensures packed { parcel_items result ≡ batch_items self }
    {
        if self.slots.spilled() {
            return match self.pack() {
                Ok(parcel) => parcel,
                Err(_) => unreachable!(),
            };
        }
        Parcel::Many(move_into(&mut self, room))
    }

    /// Takes what a parcel holds on, where the batch holds nothing. Wants no memory.
    pub fn load(&mut self, parcel: Parcel<J>)
        requires none { batch_items self.old ≡ [] }
        ensures items { batch_items self.new ≡ parcel_items parcel }
    {
        match parcel {
            Parcel::One(callback) => {
                self.free_places();
                self.add(callback);
            }
            Parcel::Many(Places { slots, next }) => {
                *self = Batch {
                    slots: SmallVec::from_vec(slots),
                    next,
                    usual: 0,
                };
            }
        }
    }

    /// Makes a parcel of all that it holds, where that is no more than stands in a batch itself, and leaves nothing.
    /// Wants no memory.
    pub fn pack_few(&mut self, room: SpareBlock<J>) -> Parcel<J>
        requires few { length (batch_items self.old) ≤ INLINE_PLACES }
        ensures packed { parcel_items result ≡ batch_items self.old }
        ensures left { batch_items self.new ≡ [] }
    {
        Parcel::Many(move_into(self, room))
    }
}

// Moves the callbacks of a batch that holds no more than stand in it.
fn move_into<J: Drop>(batch: &mut Batch<J>, room: SpareBlock<J>) -> Places<J>
    requires few { length (batch_items batch.old) ≤ INLINE_PLACES }
    ensures moved { places_items result ≡ batch_items batch.old }
    ensures left { batch_items batch.new ≡ [] }
{
    let mut slots = room.slots;
    while let Some(callback) = batch.take_first() {
        slots.push_reserved(Some(callback));
    }
    Places { slots, next: 0 }
}
