//! What is left of a processor, taken out place after place (docs/specification/tables.md, "Places of a callback").

ghost use Rattle.std.specs.Prelude.{◌≡◌, ◌+◌, ◌≤◌, ◌++◌, length, map, false, vec_len, vec_capacity};
ghost use Rattle.std.specs.Option.{option_to_list};
ghost use Rattle.rcu_world_law.specs.LabelledLists.{call_of};
ghost use Rattle.rcu_world_law.specs.Lists.{is_nil, tail};
ghost use Rattle.rcu_world_law.specs.Places.{key_of, flattened, remaining_callbacks};
ghost use Rattle.rcu_world_law.specs.Steps.{front};
ghost use Rattle.rcu_world_processor.specs.Batches.{batch, batches, bypassed};
ghost use Rattle.rcu_world_processor.specs.Views.{seen, fresh_call, records_of};
ghost use Rattle.rcu_world_processor.specs.Waits.{call, calls, waiting};
ghost use Rattle.rcu_world_processor.specs.Gains.{Gains};

use crate::batches::{is_bare, is_spent, take_batch, take_first};
use crate::bypass::flush;
use crate::processor::WorldProcessor;
use rcu_jobs::{Callback, Job};
use rcu_lists::{Batch, Bypass, Segments};
use std::alloc::Global;
use std::collections::VecDeque;
use std::mem;

/// Takes the jobs out of a batch, behind the others. There is room.
fn take_jobs<J: Job>(left: &mut Batch<J>, jobs: &mut Vec<J>)
    requires { vec_len jobs.old + length (batch J.key_of left.old) ≤ vec_capacity jobs.old }
    ensures jobs { Gains J.key_of (batch J.key_of left.old) jobs.old jobs.new }
{
    while !is_spent(left) {
        jobs.push_reserved(take_first(left).job);
    }
}

/// Takes the jobs out of all the batches of a lane, in order, behind the others. There is room.
fn take_lane<J: Job>(lane: &mut VecDeque<Batch<J>>, jobs: &mut Vec<J>)
    requires { vec_len jobs.old + length (flattened (batches J.key_of lane.old.items))
        ≤ vec_capacity jobs.old }
    ensures jobs { Gains J.key_of (flattened (batches J.key_of lane.old.items)) jobs.old jobs.new }
{
    while !is_bare(lane) {
        let mut first = take_batch(lane);
        take_jobs(&mut first, jobs);
    }
}

/// Takes the first of some callbacks.
fn take_call<J: Job>(left: &mut VecDeque<Callback<J>>) -> Callback<J>
    requires { is_nil (calls J.key_of left.old.items) ≡ false }
    ensures first { call J.key_of result ≡ front (calls J.key_of left.old.items) }
    ensures rest { calls J.key_of left.new.items ≡ tail (calls J.key_of left.old.items) }
{
    let Some(first) = left.pop_front() else {
        unreachable!()
    };
    first
}

/// Whether no callback is left.
fn is_empty<J: Job>(left: &VecDeque<Callback<J>>) -> bool
    ensures { result ≡ is_nil (calls J.key_of left.now.items) }
{
    left.is_empty()
}

/// Takes the jobs out of some callbacks, behind the others. There is room.
fn take_calls<J: Job>(mut left: VecDeque<Callback<J>>, jobs: &mut Vec<J>)
    requires { vec_len jobs.old + length (calls J.key_of left.items) ≤ vec_capacity jobs.old }
    ensures jobs { Gains J.key_of (calls J.key_of left.items) jobs.old jobs.new }
{
    while !is_empty(&left) {
        jobs.push_reserved(take_call(&mut left).job);
    }
}

/// Takes the jobs out of a list of segments, behind the others. There is room.
fn take_waiting<J: Job>(list: &mut Segments<J>, alloc: Global, jobs: &mut Vec<J>)
    requires { vec_len jobs.old + length (map call_of (waiting J.key_of list.old))
        ≤ vec_capacity jobs.old }
    ensures jobs { Gains J.key_of (map call_of (waiting J.key_of list.old)) jobs.old jobs.new }
{
    let all = mem::replace(list, Segments::new(alloc));
    take_calls(all.into_callbacks(), jobs);
}

/// Takes the jobs out of a bypass list, behind the others. There is room.
fn take_bypass<J: Job>(bypass: &mut Bypass<J>, jobs: &mut Vec<J>)
    requires { vec_len jobs.old + length (bypassed J.key_of bypass.old) ≤ vec_capacity jobs.old }
    ensures jobs { Gains J.key_of (bypassed J.key_of bypass.old) jobs.old jobs.new }
{
    let mut all = flush(bypass);
    take_jobs(&mut all, jobs);
}

/// Takes the job of the fresh callback, if there is one, behind the others. There is room.
fn take_last<J: Job>(fresh: &mut Option<Callback<J>>, jobs: &mut Vec<J>)
    requires { vec_len jobs.old + length (option_to_list (fresh_call J.key_of fresh.old))
        ≤ vec_capacity jobs.old }
    ensures keys { map J.key_of jobs.new.items
        ≡ map J.key_of jobs.old.items
        ++ map key_of (option_to_list (fresh_call J.key_of fresh.old)) }
{
    match fresh.take() {
        Some(callback) => jobs.push_reserved(callback.job),
        None => {}
    }
}

/// Takes the jobs out of the places from the hand to the group's list, behind the others. There is room.
fn take_joined<J: Job>(
    held: &mut Batch<J>,
    done_lane: &mut VecDeque<Batch<J>>,
    out: &mut Batch<J>,
    joined: &mut Segments<J>,
    alloc: Global,
    jobs: &mut Vec<J>,
)
    requires { vec_len jobs.old
        + length
        (batch J.key_of held.old
        ++ (flattened (batches J.key_of done_lane.old.items)
        ++ (batch J.key_of out.old ++ map call_of (waiting J.key_of joined.old))))
        ≤ vec_capacity jobs.old }
    ensures jobs { Gains J.key_of
        (batch J.key_of held.old
        ++ (flattened (batches J.key_of done_lane.old.items)
        ++ (batch J.key_of out.old ++ map call_of (waiting J.key_of joined.old))))
        jobs.old jobs.new }
{
    take_jobs(held, jobs);
    take_lane(done_lane, jobs);
    take_jobs(out, jobs);
    take_waiting(joined, alloc, jobs);
}

/// Takes the jobs out of the places from the drawn batch to the bypass list, behind the others. There is room.
fn take_bypassed<J: Job>(
    drawn: &mut Batch<J>,
    lane: &mut VecDeque<Batch<J>>,
    bypass: &mut Bypass<J>,
    jobs: &mut Vec<J>,
)
    requires { vec_len jobs.old
        + length
        (batch J.key_of drawn.old
        ++ (flattened (batches J.key_of lane.old.items) ++ bypassed J.key_of bypass.old))
        ≤ vec_capacity jobs.old }
    ensures jobs { Gains J.key_of
        (batch J.key_of drawn.old
        ++ (flattened (batches J.key_of lane.old.items) ++ bypassed J.key_of bypass.old))
        jobs.old jobs.new }
{
    take_jobs(drawn, jobs);
    take_lane(lane, jobs);
    take_bypass(bypass, jobs);
}

impl<J: Job> WorldProcessor<J, J::Receipt> {
    /// Takes the jobs that are left, place after place, behind those of a list. There is room for them.
    pub fn drain(&mut self, jobs: &mut Vec<J>)
        requires { vec_len jobs.old + length (remaining_callbacks (seen J.key_of self.old))
            ≤ vec_capacity jobs.old }
        ensures keys { map J.key_of jobs.new.items
            ≡ map J.key_of jobs.old.items
            ++ map key_of (remaining_callbacks (seen J.key_of self.old)) }
        ensures records { records_of self.new ≡ records_of self.old }
    {
        let alloc = *self.records.allocator();
        take_joined(
            &mut self.held,
            &mut self.done_lane,
            &mut self.out,
            &mut self.joined,
            alloc,
            jobs,
        );
        take_bypassed(&mut self.drawn, &mut self.lane, &mut self.bypass, jobs);
        take_waiting(&mut self.own, alloc, jobs);
        take_last(&mut self.fresh, jobs);
    }
}
