//! Taking jobs out of places.

ghost use Rattle.std.specs.Prelude.{◌≡◌, [], ◌+◌, ◌≤◌, ◌++◌, length, vec_len, vec_capacity};
ghost use Rattle.std.specs.List.{flat_map};
ghost use Rattle.rcu_lanes.specs.Ends.{items_left};
ghost use Rattle.rcu_lists.specs.Batches.{batch_items};
ghost use Rattle.rcu_lists.specs.Chains.{chain_items};
ghost use Rattle.rcu_lists.specs.Parcels.{parcel_items};
ghost use Rattle.rcu_part_close.specs.Moving.{Takes};

use rcu_jobs::Callback;
use rcu_lanes::Rest;
use rcu_lists::{Batch, Chain, Parcel};
use rcu_part_lists::LaneLimits;
use std::collections::VecDeque;

/// Takes the jobs out of a batch, behind the others. There is room.
pub(crate) fn take_batch<J: Drop>(batch: &mut Batch<J>, jobs: &mut Vec<J>)
    requires { vec_len jobs.old + length (batch_items batch.old) ≤ vec_capacity jobs.old }
    ensures takes { Takes (batch_items batch.old) jobs.old jobs.new }
    ensures left { batch_items batch.new ≡ [] }
{
    while let Some(callback) = batch.take_first() {
        jobs.push_reserved(callback.job);
    }
}

/// Takes the jobs of a list, behind the others. There is room.
fn take_list<J: Drop>(list: VecDeque<Callback<J>>, jobs: &mut Vec<J>)
    requires { vec_len jobs.old + length list.items ≤ vec_capacity jobs.old }
    ensures { Takes list.items jobs.old jobs.new }
{
    for callback in list {
        jobs.push_reserved(callback.job);
    }
}

/// Takes the jobs of a group's list, behind the others. There is room.
fn take_chain<J: Drop>(mut list: Chain<J>, jobs: &mut Vec<J>)
    requires { vec_len jobs.old + length (chain_items list) ≤ vec_capacity jobs.old }
    ensures { Takes (chain_items list) jobs.old jobs.new }
{
    while let Some(callback) = list.take_first() {
        jobs.push_reserved(callback.job);
    }
}

/// Takes the jobs of the parcels that a lane still has, each by way of a batch that holds nothing, behind the others.
/// There is room.
fn take_lane<J: Drop>(
    mut lane: Rest<Parcel<J>, LaneLimits>,
    batch: &mut Batch<J>,
    jobs: &mut Vec<J>,
)
    requires none { batch_items batch.old ≡ [] }
    requires room { vec_len jobs.old + length (flat_map parcel_items (items_left lane))
        ≤ vec_capacity jobs.old }
    ensures { Takes (flat_map parcel_items (items_left lane)) jobs.old jobs.new }
{
    while let Some(parcel) = lane.take() {
        batch.load(parcel);
        take_batch(batch, jobs);
    }
}

/// Takes the jobs out of the places from the hand to the group's list, behind the others. There is room.
pub(crate) fn take_drawn<J: Drop>(
    held: &mut Batch<J>,
    done_lane: Rest<Parcel<J>, LaneLimits>,
    out: &mut Batch<J>,
    list: Chain<J>,
    jobs: &mut Vec<J>,
)
    requires { vec_len jobs.old
        + length
        (batch_items held.old
        ++ (flat_map parcel_items (items_left done_lane)
        ++ (batch_items out.old ++ chain_items list)))
        ≤ vec_capacity jobs.old }
    ensures { Takes
        (batch_items held.old
        ++ (flat_map parcel_items (items_left done_lane)
        ++ (batch_items out.old ++ chain_items list)))
        jobs.old jobs.new }
{
    take_batch(held, jobs);
    take_lane(done_lane, held, jobs);
    take_batch(out, jobs);
    take_chain(list, jobs);
}

/// Takes the jobs out of the places from the drawn batch to the lane, behind the others. There is room.
pub(crate) fn take_undrawn<J: Drop>(
    drawn: &mut Batch<J>,
    lane: Rest<Parcel<J>, LaneLimits>,
    jobs: &mut Vec<J>,
)
    requires { vec_len jobs.old
        + length (batch_items drawn.old ++ flat_map parcel_items (items_left lane))
        ≤ vec_capacity jobs.old }
    ensures { Takes (batch_items drawn.old ++ flat_map parcel_items (items_left lane)) jobs.old
        jobs.new }
{
    take_batch(drawn, jobs);
    take_lane(lane, drawn, jobs);
}

/// Takes the jobs out of the processor's lists, behind the others. There is room.
pub(crate) fn take_lists<J: Drop>(
    bypass: &mut Batch<J>,
    own: VecDeque<Callback<J>>,
    jobs: &mut Vec<J>,
)
    requires { vec_len jobs.old + length (batch_items bypass.old ++ own.items)
        ≤ vec_capacity jobs.old }
    ensures { Takes (batch_items bypass.old ++ own.items) jobs.old jobs.new }
{
    take_batch(bypass, jobs);
    take_list(own, jobs);
}
