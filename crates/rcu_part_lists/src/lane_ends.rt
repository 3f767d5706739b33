//! The ends of a lane between two running parts: what one puts on it and the other draws from it are parcels.

ghost use Rattle.std.specs.Prelude.{◌≡◌, ◌≢◌, ◌+◌, ◌<◌, ◌≤◌, true, false, [], ◌∷◌, ◌++◌, length, IfNone, IfOk, IfSome, IsOk, MatchOption, MatchResult, None};
ghost use Rattle.rcu_lanes.specs.Ends.{SameFront, SameRear, items_drawn, items_put};
ghost use Rattle.rcu_lanes.specs.declared.ends.TheConstants.{FIRST_SLOTS};
ghost use Rattle.rcu_lists.specs.Batches.{batch_items};
ghost use Rattle.rcu_lists.specs.Parcels.{parcel_items};
ghost use Rattle.rcu_lists.specs.declared.batch.TheConstants.{INLINE_PLACES};
ghost use Rattle.rcu_part_lists.specs.Lanes.{put_calls, drawn_calls, DrawsOff, IsStopOfLane, PutsFrom, PutsOn};
ghost use Rattle.rcu_part_lists.specs.Limits.{AreFew, AreSafe, IsSafe};

use crate::limits::LaneLimits;
use rcu_jobs::{Callback, Stop};
use rcu_lanes::{Draw, FIRST_SLOTS, Front, Rear};
use rcu_lists::{Batch, INLINE_PLACES, Parcel, SpareBlock};
use std::alloc::{AllocError, Global};
use std::mem::ManuallyDrop;

/// The end of a lane that batches are put on.
pub struct Outlet<J> {
    pub(crate) rear: Rear<Parcel<J>, LaneLimits>,
    // Room on the heap for the batches that are put first: these want no memory.
    rooms: Vec<SpareBlock<J>>,
    // Always None: that an item of the lane fits in memory is known from the outlet's own size.
    spare: ManuallyDrop<Option<Parcel<J>>>,
    ghost enough: { FIRST_SLOTS ≤ length rooms.items + length (items_put rear) },
}

/// The end of a lane that batches are drawn from.
pub struct Inlet<J> {
    pub(crate) front: Front<Parcel<J>, LaneLimits>,
    // Always None: that an item of the lane fits in memory is known from the inlet's own size.
    spare: ManuallyDrop<Option<Parcel<J>>>,
}

// Room for the batches that find a slot on a new lane.
fn rooms<J: Drop>(alloc: Global) -> Result<Vec<SpareBlock<J>>, AllocError>
    ensures { IfOk result (λ rooms. length rooms.items ≡ FIRST_SLOTS) }
{
    let mut rooms = Vec::new(alloc);
    for _ in 0..FIRST_SLOTS {
        let room = SpareBlock::new(alloc)?;
        rooms.push(room)?;
    }
    Ok(rooms)
}

impl<J: Drop> Outlet<J> {
    /// The end of a lane, with the room that its first batches want.
    ///
    /// # Errors
    ///
    /// Want of memory.
    pub fn new(alloc: Global, rear: Rear<Parcel<J>, LaneLimits>) -> Result<Outlet<J>, AllocError>
        ensures rear { IfOk result (λ outlet. outlet.rear ≡ rear) }
    {
        Ok(Outlet {
            rear,
            rooms: rooms(alloc)?,
            spare: ManuallyDrop::new(None),
        })
    }

    /// Puts a callback by itself, or hands it back where the lane finds no room. Wants no memory of its own.
    pub(crate) fn put_single(&mut self, callback: Callback<J>) -> Result<(), Callback<J>>
        requires safe { IsSafe callback }
        requires few { AreFew (put_calls self.old.rear ++ callback ∷ []) }
        ensures lane { SameRear self.old.rear self.new.rear }
        ensures put { MatchResult result
            (λ _. PutsOn (callback ∷ []) self.old.rear self.new.rear)
            (λ back. (back ≡ callback) × (items_put self.new.rear ≡ items_put self.old.rear)) }
        ensures room { length (items_put self.old.rear) < FIRST_SLOTS → IsOk result }
    {
        match self.rear.put(Parcel::One(callback)) {
            Ok(()) => Ok(()),
            Err(Parcel::One(back)) => Err(back),
            Err(Parcel::Many(_)) => unreachable!(),
        }
    }

    /// Puts what a batch holds, which is something. Where it can't be put it stays.
    pub(crate) fn put_from(&mut self, batch: &mut Batch<J>) -> bool
        requires safe { AreSafe (batch_items batch.old) }
        requires few { AreFew (put_calls self.old.rear ++ batch_items batch.old) }
        ensures lane { SameRear self.old.rear self.new.rear }
        ensures puts { PutsFrom result (batch_items batch.old) (batch_items batch.new) self.old.rear
            self.new.rear }
    {
        let Some(parcel) = pack_from(&mut self.rooms, batch) else {
            return false;
        };
        match self.rear.put(parcel) {
            Ok(()) => true,
            Err(back) => {
                batch.load(back);
                false
            }
        }
    }

    /// The end of the lane by itself.
    pub(crate) fn into_rear(self) -> Rear<Parcel<J>, LaneLimits>
        ensures { result ≡ self.rear }
    {
        let Outlet {
            rear,
            rooms: _,
            spare: _,
        } = self;
        rear
    }
}

// The first room that there is, or a new one. None where there is no memory for one.
fn first_room<J: Drop>(rooms: &mut Vec<SpareBlock<J>>) -> Option<SpareBlock<J>>
    ensures left { length rooms.old.items ≤ length rooms.new.items + 1 }
    ensures none { IfNone result (rooms.old.items ≡ []) }
{
    let alloc = *rooms.allocator();
    match rooms.pop() {
        Some(room) => Some(room),
        None => SpareBlock::new(alloc).ok(),
    }
}

// Makes a parcel of what a batch holds: a callback alone goes by itself, and no more than stand in the batch are moved to a list
// on the heap. None where there is no memory for that, and then all stay.
fn pack_from<J: Drop>(rooms: &mut Vec<SpareBlock<J>>, batch: &mut Batch<J>) -> Option<Parcel<J>>
    ensures packed { MatchOption result
        ((batch_items batch.new ≡ batch_items batch.old) × (rooms.old.items ≡ [])) (λ parcel.
        (parcel_items parcel ≡ batch_items batch.old) × (batch_items batch.new ≡ [])) }
    ensures left { length rooms.old.items ≤ length rooms.new.items + 1 }
{
    if let Some(callback) = batch.take_single() {
        return Some(Parcel::One(callback));
    }
    if batch.len() > INLINE_PLACES as u64 {
        return pack_whole(rooms, batch);
    }
    let room = first_room(rooms)?;
    Some(batch.pack_few(room))
}

// Makes a parcel of all that a batch holds, as it is.
fn pack_whole<J: Drop>(rooms: &mut Vec<SpareBlock<J>>, batch: &mut Batch<J>) -> Option<Parcel<J>>
    ensures packed { MatchOption result
        ((batch_items batch.new ≡ batch_items batch.old) × (rooms.old.items ≡ [])) (λ parcel.
        (parcel_items parcel ≡ batch_items batch.old) × (batch_items batch.new ≡ [])) }
    ensures left { length rooms.old.items ≤ length rooms.new.items + 1 }
{
    let whole = batch.take_all();
    if let Some(room) = rooms.pop() {
        return Some(whole.pack_into(room));
    }
    match whole.pack() {
        Ok(parcel) => Some(parcel),
        Err(back) => {
            *batch = back;
            None
        }
    }
}

impl<J: Drop> Inlet<J> {
    /// The end of a lane.
    pub fn new(front: Front<Parcel<J>, LaneLimits>) -> Inlet<J>
        ensures { result.front ≡ front }
    {
        Inlet {
            front,
            spare: ManuallyDrop::new(None),
        }
    }

    /// Draws what was put next into a batch that holds nothing. Wants no memory. Answers why none was drawn, if so: the lane
    /// was empty at one moment of the call, or another step on it was in the way.
    pub(crate) fn draw_into(&mut self, batch: &mut Batch<J>) -> Option<Stop>
        requires none { batch_items batch.old ≡ [] }
        ensures lane { SameFront self.old.front self.new.front }
        ensures drawn { result ≡ None
            → DrawsOff (batch_items batch.new) self.old.front self.new.front }
        ensures allowed { result ≡ None
            → AreSafe (batch_items batch.new) × AreFew (drawn_calls self.new.front) }
        ensures none { result ≢ None
            → (items_drawn self.new.front ≡ items_drawn self.old.front)
            × (batch_items batch.new ≡ []) }
        ensures stops { IfSome result IsStopOfLane }
    {
        match self.front.draw() {
            Draw::Got(parcel) => {
                batch.load(parcel);
                None
            }
            Draw::Empty => Some(Stop::Empty),
            Draw::Again => Some(Stop::Again),
        }
    }

    /// The end of the lane by itself.
    pub(crate) fn into_front(self) -> Front<Parcel<J>, LaneLimits>
        ensures { result ≡ self.front }
    {
        let Inlet { front, spare: _ } = self;
        front
    }
}

impl<J: Drop> Drop for Outlet<J> {
    fn drop(self) {
        let Outlet {
            rear: _,
            rooms: _,
            spare: _,
        } = self;
    }
}

impl<J: Drop> Drop for Inlet<J> {
    fn drop(self) {
        let Inlet { front: _, spare: _ } = self;
    }
}
