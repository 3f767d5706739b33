//! A lane before its ends part, and once they have come together.

ghost use Rattle.std.specs.Prelude.{◌≡◌, ◌++◌, IfOk};
ghost use Rattle.rcu_lanes.specs.Ends.{SameLane, IsNewLane, items_put, items_drawn, items_left};

use crate::ends::{FIRST_SLOTS, Front, Rear, Rest};
use crate::law::{Ends, Owner, Whole};
use crate::rule::{Anything, Rule};
use std::alloc::{AllocError, Global};

/// The two ends of a lane with nothing on it. The deque asks that its items may be dropped, here and in `rest`.
pub fn lane<T: Drop>(alloc: Global) -> Result<(Front<T>, Rear<T>), AllocError>
    ensures { IfOk result (λ ends. IsNewLane ends.0 ends.1) }
{
    ruled_lane::<T, Anything>(alloc)
}

/// The two ends of a lane with nothing on it, and with a rule on what is put.
pub fn ruled_lane<T: Drop, L: Rule<T>>(
    alloc: Global,
) -> Result<(Front<T, L>, Rear<T, L>), AllocError>
    ensures { IfOk result (λ ends. IsNewLane ends.0 ends.1) }
{
    let mut owner = Owner::fifo_as(alloc, FIRST_SLOTS)?;
    let thief = owner.stealer()?;
    let pass = owner.another::<Ends>();
    Ok((Front { thief, pass }, Rear { owner }))
}

/// What is left of a lane, both of whose ends are given. Takes no memory.
pub fn rest<T: Drop, L: Rule<T>>(front: Front<T, L>, rear: Rear<T, L>) -> Rest<T, L>
    requires { SameLane front rear }
    ensures { items_put rear ≡ items_drawn front ++ items_left result }
{
    let Front { thief, pass } = front;
    let Rear { mut owner } = rear;
    drop(thief);
    owner.absorb::<Ends>(pass);
    // The look shows the proof what the lane holds. Its count is not needed.
    owner.len_as::<Whole>();
    Rest { owner }
}
