//! Batches and lanes of them, in the words of the law.

ghost use Rattle.std.specs.Prelude.{◌≡◌, ◌<◌, ◌++◌, ◌∷◌, [], true, false, not};
ghost use Rattle.std.specs.VecDeque.{deque_len, deque_capacity};
ghost use Rattle.rcu_world_law.specs.Lists.{is_nil, tail, first_batch};
ghost use Rattle.rcu_world_law.specs.Steps.{front};
ghost use Rattle.rcu_world_processor.specs.Batches.{batch, batches};
ghost use Rattle.rcu_world_processor.specs.Waits.{call};

use rcu_jobs::{Callback, Job};
use rcu_lists::Batch;
use std::collections::VecDeque;

/// Whether a batch holds no callback.
pub(crate) fn is_spent<J: Job>(some: &Batch<J>) -> bool
    ensures { result ≡ is_nil (batch J.key_of some.now) }
{
    some.is_empty()
}

/// Takes the first callback of a batch.
pub(crate) fn take_first<J: Job>(some: &mut Batch<J>) -> Callback<J>
    requires { is_nil (batch J.key_of some.old) ≡ false }
    ensures first { call J.key_of result ≡ front (batch J.key_of some.old) }
    ensures rest { batch J.key_of some.new ≡ tail (batch J.key_of some.old) }
{
    let Some(first) = some.take_first() else {
        unreachable!()
    };
    first
}

/// Whether a lane holds no batch.
pub(crate) fn is_bare<J: Job>(lane: &VecDeque<Batch<J>>) -> bool
    ensures { result ≡ is_nil (batches J.key_of lane.now.items) }
{
    lane.is_empty()
}

/// Moves the first batch of a lane into a place, whose own batch is let go.
pub(crate) fn move_batch<J: Job>(lane: &mut VecDeque<Batch<J>>, place: &mut Batch<J>)
    requires { not (is_nil (batches J.key_of lane.old.items)) ≡ true }
    ensures first { batch J.key_of place.new ≡ first_batch (batches J.key_of lane.old.items) }
    ensures rest { batches J.key_of lane.new.items ≡ tail (batches J.key_of lane.old.items) }
{
    *place = take_batch(lane);
}

/// Takes the first batch of a lane.
pub(crate) fn take_batch<J: Job>(lane: &mut VecDeque<Batch<J>>) -> Batch<J>
    requires { is_nil (batches J.key_of lane.old.items) ≡ false }
    ensures first { batch J.key_of result ≡ first_batch (batches J.key_of lane.old.items) }
    ensures rest { batches J.key_of lane.new.items ≡ tail (batches J.key_of lane.old.items) }
{
    let Some(first) = lane.pop_front() else {
        unreachable!()
    };
    first
}

/// Adds a batch at the end of a lane, in the room that there is.
pub(crate) fn put_batch<J: Job>(lane: &mut VecDeque<Batch<J>>, last: Batch<J>)
    requires { deque_len lane.old < deque_capacity lane.old }
    ensures { batches J.key_of lane.new.items
        ≡ batches J.key_of lane.old.items ++ batch J.key_of last ∷ [] }
{
    lane.push_back_reserved(last);
}
