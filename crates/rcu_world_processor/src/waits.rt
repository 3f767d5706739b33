//! Lists of segments, in the words of the law.

ghost use Rattle.std.specs.Prelude.{◌≡◌, ℕ, ◌+◌, ◌≤◌, ◌++◌, ◌∷◌, [], false, map, take, drop, min, OnOk, OnErr, IfOk};
ghost use Rattle.rcu_world_law.specs.LabelledLists.{MayAccelerate, advance, bare, call_of, done_count, looked, newest, wanted_by_look};
ghost use Rattle.rcu_world_law.specs.Lists.{tail};
ghost use Rattle.rcu_numbers.specs.Numbers.{snap_of};
ghost use Rattle.rcu_numbers.specs.declared.sequence.TheConstants.{GREATEST_NUMBER};
ghost use Rattle.rcu_world_law.specs.Steps.{can_claim_own, front};
ghost use Rattle.rcu_lists.specs.Segments.{SegmentsRoom};
ghost use Rattle.rcu_world_processor.specs.Batches.{batch};
ghost use Rattle.rcu_world_processor.specs.Waits.{call, waiting};

use crate::batches::{is_spent, take_first};
use rcu_jobs::{Callback, Job};
use rcu_lists::{Batch, Segments};
use rcu_numbers::snap;
use std::alloc::AllocError;

/// Looks at one list: what it asks for, if anything.
pub(crate) fn look_at<J: Job>(list: &mut Segments<J>, number: u64) -> Option<u64>
    requires small { newest number (advance number (waiting J.key_of list.old)) ≤ GREATEST_NUMBER }
    requires may { MayAccelerate
        (snap_of (newest number (advance number (waiting J.key_of list.old))))
        (advance number (waiting J.key_of list.old)) }
    ensures list { waiting J.key_of list.new ≡ looked number (waiting J.key_of list.old) }
    ensures asks { result ≡ wanted_by_look number (waiting J.key_of list.old) }
{
    list.advance(number);
    let aim = snap(newest_in(list, number));
    if list.accelerate(aim) {
        Some(aim)
    } else {
        None
    }
}

/// The greatest of the number and the stamps in a list.
fn newest_in<J: Job>(list: &Segments<J>, number: u64) -> u64
    ensures { result ≡ newest number (waiting J.key_of list.now) }
{
    match list.newest() {
        None => number,
        Some(stamp) => number.max(stamp),
    }
}

/// Whether the first callback of a list is done and has this turn.
pub(crate) fn can_claim_first<J: Job>(list: &Segments<J>, turn: u64) -> bool
    ensures { result ≡ can_claim_own (waiting J.key_of list.now) turn }
{
    match list.first_done() {
        None => false,
        Some(first) => turn % 2 == 0 && turn / 2 == first.number,
    }
}

/// Takes the first callback of a list, which is done.
pub(crate) fn take_front<J: Job>(list: &mut Segments<J>) -> Callback<J>
    requires { 1 ≤ done_count (waiting J.key_of list.old) }
    ensures first { call J.key_of result ≡ front (map call_of (waiting J.key_of list.old)) }
    ensures rest { waiting J.key_of list.new ≡ tail (waiting J.key_of list.old) }
{
    let Some(first) = list.take_done() else {
        unreachable!()
    };
    first
}

/// Adds a callback with no label, in the room that there is.
pub(crate) fn enqueue<J: Job>(list: &mut Segments<J>, callback: Callback<J>)
    requires { SegmentsRoom list.old 1 }
    ensures items { waiting J.key_of list.new
        ≡ waiting J.key_of list.old ++ bare (call J.key_of callback) ∷ [] }
    ensures room { (k : ℕ) → SegmentsRoom list.old (k + 1) → SegmentsRoom list.new k }
{
    list.enqueue(callback);
}

/// How many done ones stand at the front.
pub(crate) fn count_done<J: Job>(list: &Segments<J>) -> u64
    ensures { result ≡ done_count (waiting J.key_of list.now) }
{
    list.done_len()
}

/// Takes the first done ones of a list, at most so many. On an error nothing has moved.
pub(crate) fn take_given<J: Job>(list: &mut Segments<J>, most: u64) -> Result<Batch<J>, AllocError>
    ensures given { IfOk result (λ b.
        batch J.key_of b
        ≡ map call_of
        (take (min most (done_count (waiting J.key_of list.old))) (waiting J.key_of list.old))) }
    ensures list { OnOk result
        (waiting J.key_of list.new
        ≡ drop (min most (done_count (waiting J.key_of list.old))) (waiting J.key_of list.old)) }
    ensures err { OnErr result (waiting J.key_of list.new ≡ waiting J.key_of list.old) }
{
    let count = most.min(list.done_len());
    let given = list.take_batch(count as usize)?;
    Ok(given)
}

/// Moves a batch to the end of a list. On an error nothing has moved.
pub(crate) fn join_bare<J: Job>(
    list: &mut Segments<J>,
    joined: &mut Batch<J>,
) -> Result<(), AllocError>
    ensures list { OnOk result
        (waiting J.key_of list.new
        ≡ waiting J.key_of list.old ++ map bare (batch J.key_of joined.old)) }
    ensures joined { OnOk result (batch J.key_of joined.new ≡ []) }
    ensures err { OnErr result
        ((waiting J.key_of list.new ≡ waiting J.key_of list.old)
        × (batch J.key_of joined.new ≡ batch J.key_of joined.old)) }
{
    list.reserve(joined.len() as usize)?;
    while !is_spent(joined) {
        enqueue(list, take_first(joined));
    }
    Ok(())
}
