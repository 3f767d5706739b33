//! The end of one processor: its records in order, and the jobs that come back.

ghost use Rattle.std.specs.Prelude.{◌≡◌, ◌+◌, ◌<◌, false, length};
ghost use Rattle.rcu_part_lists.specs.ProcessorLists.{holding, passed_on, put_by, rear_of};
ghost use Rattle.rcu_jobs.specs.Modes.{is_offloaded};
ghost use Rattle.rcu_lanes.specs.Ends.{IsNewLane, SameRear};
ghost use Rattle.rcu_numbers.specs.declared.shape.TheConstants.{MOST_CALLS};

use crate::same::assert_same;
use rcu_jobs::{BoxedJob, Callback, Record};
use rcu_lanes::{Front, Rear, ruled_lane};
use rcu_lists::{Kind, Parcel};
use rcu_part_close::{ProcessorEnd, end_local, end_offloadable};
use rcu_part_lists::{Held, LaneLimits, MemberLists, ProcessorLists};
use rcu_part_order::{Kept, Records};
use std::alloc::Global;
use std::process::Abort;

type Work = BoxedJob<0>;

type LaneEnds = (
    Front<Parcel<Work>, LaneLimits>,
    Rear<Parcel<Work>, LaneLimits>,
);

fn record(number: u64) -> Record<u64> {
    Record {
        number,
        key: number ^ 1024,
        stamp: 0,
        ready: 4,
        receipt: 7,
    }
}

// The job of the callback of this number.
fn job(rt: &impl Abort, alloc: Global, number: u64) -> Work {
    let call = Box::new(alloc, || 7).expect(rt, "memory");
    BoxedJob::new(number ^ 1024, call)
}

// The two ends of a lane with nothing on it.
fn lane(rt: &impl Abort, alloc: Global) -> LaneEnds
    ensures { IsNewLane result.0 result.1 }
{
    ruled_lane(alloc).expect(rt, "a lane")
}

// Places one more callback, of this number.
fn call(rt: &impl Abort, processor_lists: &mut ProcessorLists<Work>, number: u64, job: Work)
    requires small { number < MOST_CALLS }
    requires few { length (passed_on (holding processor_lists.old)) < MOST_CALLS }
    ensures lane { SameRear (rear_of processor_lists.old) (rear_of processor_lists.new) }
    ensures passed { length (passed_on (holding processor_lists.new))
        ≡ length (passed_on (holding processor_lists.old)) + 1 }
    ensures local { is_offloaded (holding processor_lists.old).mode ≡ false
        → (is_offloaded (holding processor_lists.new).mode ≡ false)
        × (put_by (holding processor_lists.new) ≡ put_by (holding processor_lists.old)) }
{
    let Ok(()) = processor_lists.reserve() else {
        panic!(rt; "no room");
    };
    let callback = Callback {
        cpu: 0,
        number,
        key: number ^ 1024,
        stamp: 0,
        job,
    };
    processor_lists.place(5, Kind::Plain, callback);
}

// The record of callback 0.
fn one_record(rt: &impl Abort, alloc: Global) -> Records<u64> {
    let mut own = Records::new(alloc, Kept::Whole);
    let Ok(()) = own.find_room() else {
        panic!(rt; "no room");
    };
    own.add(record(0));
    own
}

// So many ran, and the jobs of these numbers came back, in order.
fn assert_ended(rt: &impl Abort, ended: &ProcessorEnd<Work, u64>, ran: usize, back: &[u64]) {
    assert_same(rt, (ended.ran.len(), ended.back.len()), (ran, back.len()));
    for (number, job) in back.iter().zip(ended.back.as_slice()) {
        assert_same(rt, job.key, *number ^ 1024);
    }
}

#[test]
fn what_a_local_one_holds_comes_back(rt: HostRuntime) {
    let alloc = rt.alloc();
    let (_, rear) = lane(&rt, alloc);
    let mut processor_lists = ProcessorLists::new(alloc, rear, false, 10000).expect(&rt, "memory");
    call(&rt, &mut processor_lists, 1, job(&rt, alloc, 1));
    call(&rt, &mut processor_lists, 2, job(&rt, alloc, 2));
    let room = Vec::with_capacity(alloc, 2).expect(&rt, "memory");
    let ended = end_local::<Work>(processor_lists, one_record(&rt, alloc), room);
    assert_ended(&rt, &ended, 1, &[1, 2]);
}

#[test]
fn all_places_come_back_in_order(rt: HostRuntime) {
    let alloc = rt.alloc();
    let (front, rear) = lane(&rt, alloc);
    let (done_front, done_rear) = lane(&rt, alloc);
    let mut processor_lists = ProcessorLists::new(alloc, rear, true, 10000).expect(&rt, "memory");
    let mut member = MemberLists::new(alloc, front, done_rear).expect(&rt, "memory");
    let held = Held::new(alloc, done_front);
    call(&rt, &mut processor_lists, 0, job(&rt, alloc, 0));
    call(&rt, &mut processor_lists, 1, job(&rt, alloc, 1));
    assert_same(&rt, member.take_in(), 2);
    call(&rt, &mut processor_lists, 2, job(&rt, alloc, 2));
    let ended = end_offloadable::<Work>(
        processor_lists,
        member,
        held,
        Records::new(alloc, Kept::Whole),
        Records::new(alloc, Kept::Whole),
        ProcessorEnd::with_room(alloc, 0, 3).expect(&rt, "memory"),
    );
    assert_ended(&rt, &ended, 0, &[0, 1, 2]);
}
