//! The two ends of a lane, and what is left of it.

ghost use Rattle.std.specs.Prelude.{◌≡◌, ◌<◌, ◌≤◌, true, false, [], ◌∷◌, ◌++◌, length, IsOk, MatchOption, MatchResult};
ghost use Rattle.crossbeam_deque.specs.Handles.{view, IsPassOf, stealer_deque, worker_capacity, worker_flavor, worker_index, worker_view};
ghost use Rattle.rcu_lanes.specs.Lane.{log, rest_of};
ghost use Rattle.rcu_lanes.specs.declared.ends.TheConstants.{FIRST_SLOTS};

use crate::law::{Drawing, Drawn, Owner, Put, Taken, Thief};
use crate::rule::{Anything, Rule};
use crossbeam_deque::Steal;

/// The slots that a lane begins with. No put is refused before as many items were put.
pub const FIRST_SLOTS: usize = 16;

/// The end that items are put on. It belongs to one thread.
#[derive(Drop)]
pub struct Rear<T, L: Rule<T> = Anything> {
    pub(crate) owner: Owner<T, L>,
    ghost fifo: { worker_flavor owner ≡ 0 },
    ghost puts: { worker_view owner ≡ log true false (worker_view owner).put [] },
    ghost counted: { worker_index owner ≡ length (worker_view owner).put },
    ghost roomy: { FIRST_SLOTS ≤ worker_capacity owner },
}

/// The end that items are drawn from. It belongs to one thread.
#[derive(Drop)]
pub struct Front<T, L: Rule<T> = Anything> {
    pub(crate) thief: Thief<T, L>,
    pub(crate) pass: Drawing<T>,
    ghost joined: { IsPassOf (stealer_deque thief) pass },
    ghost draws: { view pass ≡ log false true [] (view pass).drawn },
}

/// What is left of a lane once its ends have come together.
#[derive(Drop)]
pub struct Rest<T, L: Rule<T> = Anything> {
    pub(crate) owner: Owner<T, L>,
    ghost fifo: { worker_flavor owner ≡ 0 },
    ghost whole: { worker_view owner
        ≡ log true true (worker_view owner).put (worker_view owner).drawn },
    ghost order: { (worker_view owner).put
        ≡ (worker_view owner).drawn ++ rest_of (worker_view owner) },
}

/// The answer to a draw.
#[must_use]
#[derive(Clone, Copy, Debug, Drop, PartialEq, Eq)]
pub enum Draw<T> {
    /// The first item of the lane.
    Got(T),
    /// The lane was empty at one moment of the call.
    Empty,
    /// Another step was in the way. Nothing was drawn.
    Again,
}

impl<T, L: Rule<T>> Rear<T, L> {
    ghost use Rattle.rcu_lanes.specs.Ends.{SameRear, items_put};

    /// Puts an item behind the others, or hands it back: where no memory is left, or at the deque's own size limit. A
    /// deque has at most 30 rings of slots, the first with `FIRST_SLOTS` and each other one with twice those of the one
    /// before, and takes at most 2^62 items in all.
    pub fn put(&mut self, item: T) -> Result<(), T>
        requires { L.allows (items_put self.old) item }
        ensures lane { SameRear self.old self.new }
        ensures put { MatchResult result
            (λ _. items_put self.new ≡ items_put self.old ++ item ∷ [])
            (λ back. (back ≡ item) × (items_put self.new ≡ items_put self.old)) }
        ensures room { length (items_put self.old) < FIRST_SLOTS → IsOk result }
    {
        self.owner.push_as::<Put>(item)
    }
}

impl<T, L: Rule<T>> Front<T, L> {
    ghost use Rattle.rcu_lanes.specs.Ends.{SameFront, items_drawn};
    ghost use Rattle.rcu_lanes.specs.Draws.{IfGot, MatchDraw};

    /// Takes the first item of the lane, or nothing. Takes no memory.
    pub fn draw(&mut self) -> Draw<T>
        ensures lane { SameFront self.old self.new }
        ensures drawn { MatchDraw result
            (λ item. items_drawn self.new ≡ items_drawn self.old ++ item ∷ [])
            (items_drawn self.new ≡ items_drawn self.old) }
        ensures allowed { IfGot result (L.allows (items_drawn self.old)) }
    {
        match self.thief.steal_as::<Drawn<L>>(&mut self.pass) {
            Steal::Success(item) => Draw::Got(item),
            Steal::Empty => Draw::Empty,
            Steal::Retry => Draw::Again,
        }
    }
}

impl<T, L: Rule<T>> Rest<T, L> {
    ghost use Rattle.rcu_lanes.specs.Ends.{items_left};

    /// Takes the first item that is left, `None` exactly where none is. Takes no memory.
    pub fn take(&mut self) -> Option<T>
        ensures { MatchOption result
            ((items_left self.old ≡ []) × (items_left self.new ≡ []))
            (λ item. items_left self.old ≡ item ∷ items_left self.new) }
    {
        self.owner.pop_as::<Taken>()
    }
}
