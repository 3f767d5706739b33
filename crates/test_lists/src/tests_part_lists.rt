//! What parts hold, with the lanes between them.

ghost use Rattle.std.specs.Prelude.{◌≡◌, ◌≤◌, length};
ghost use Rattle.rcu_part_lists.specs.ProcessorLists.{holding, passed_on};
ghost use Rattle.rcu_part_lists.specs.Limits.{AreBelow};

use self::Step::{Bare, Batches, Bypass, Calls, IsIn, Lazy, Release, Settle, Switch};
use crate::same::assert_same;
use rcu_jobs::{Callback, Lists, Mode};
use rcu_lanes::{Draw, Front, ruled_lane};
use rcu_lists::{Kind, Parcel};
use rcu_part_lists::{LaneLimits, ProcessorLists};
use std::alloc::Global;
use std::process::Abort;

/// The most calls of a test.
const MOST_CALLS: u64 = 1000;

/// The lists of an offloadable processor that was called so often, and the other end of its lane.
#[derive(Drop)]
struct Row {
    front: Front<Parcel<u64>, LaneLimits>,
    called: u64,
    processor_lists: ProcessorLists<u64>,
    ghost few: { called ≤ 1000 },
    ghost counted: { length (passed_on (holding processor_lists)) ≡ called },
    ghost below: { AreBelow called (passed_on (holding processor_lists)) },
}

impl Row {
    fn new(rt: &impl Abort, alloc: Global, qhimark: u64) -> Row {
        let (front, rear) = ruled_lane(alloc).expect(rt, "a lane");
        let processor_lists = ProcessorLists::new(alloc, rear, true, qhimark);
        Row {
            front,
            called: 0,
            processor_lists: processor_lists.expect(rt, "memory"),
        }
    }

    /// One call more, where there is room for it.
    fn call(&mut self, moment: u64, kind: Kind) -> Option<()> {
        let number = self.called;
        if MOST_CALLS <= number {
            return None;
        }
        self.processor_lists.reserve().ok()?;
        let callback = Callback {
            cpu: 0,
            number,
            key: number,
            stamp: 0,
            job: number,
        };
        self.processor_lists.place(moment, kind, callback);
        self.called += 1;
        Some(())
    }

    /// So many plain calls at one moment.
    fn call_often(&mut self, calls: u64, moment: u64) -> Option<()> {
        for _ in 0..calls {
            self.call(moment, Kind::Plain)?;
        }
        Some(())
    }

    /// A tick's release.
    fn release(&mut self, moment: u64, leaving: bool, urged: bool) {
        self.processor_lists.release(moment, leaving, urged);
    }

    /// Heeds what is asked.
    fn switch(&mut self, on: bool) {
        self.processor_lists.switch(on, self.called);
    }

    /// The turn word was read.
    fn settle(&mut self, turn: u64) {
        self.processor_lists.settle(turn);
    }

    /// How many callbacks the bypass list holds.
    fn bypass(&self) -> u64 {
        match self.processor_lists.lists(self.called) {
            Lists::Cpu { bypass, .. } => bypass,
            Lists::Folk { .. } => 0,
        }
    }

    /// How many callbacks of the own list have no number yet.
    fn bare(&self) -> u64 {
        match self.processor_lists.lists(self.called) {
            Lists::Cpu { lengths, .. } => lengths[3],
            Lists::Folk { .. } => 0,
        }
    }

    /// How many batches were released since this was asked last, up to 100.
    fn batches(&mut self) -> u64 {
        for batch in 0..100 {
            let Draw::Got(_) = self.front.draw() else {
                return batch;
            };
        }
        100
    }
}

/// What is done with the lists, or what they show then.
#[derive(Clone, Copy)]
enum Step {
    /// So many plain calls at a moment.
    Calls(u64, u64),
    /// A lazy call at a moment.
    Lazy(u64),
    /// A tick's release at a moment, of a processor that leaves or not, and is urged or not.
    Release(u64, bool, bool),
    /// Whether the processor is asked to be offloaded.
    Switch(bool),
    /// The turn word that was read.
    Settle(u64),
    /// How many callbacks the bypass list holds.
    Bypass(u64),
    /// How many callbacks of the own list have no number yet.
    Bare(u64),
    /// How many batches were released since they were counted last.
    Batches(u64),
    /// The mode.
    IsIn(Mode),
}

/// One step, in this place of a test.
fn play_one(rt: &impl Abort, row: &mut Row, at: usize, step: Step) {
    match step {
        Calls(calls, moment) => row.call_often(calls, moment).expect(rt, "calls"),
        Lazy(moment) => row.call(moment, Kind::Lazy).expect(rt, "a call"),
        Release(moment, leaving, urged) => row.release(moment, leaving, urged),
        Switch(on) => row.switch(on),
        Settle(turn) => row.settle(turn),
        Bypass(held) => assert_same(rt, (at, row.bypass()), (at, held)),
        Bare(bare) => assert_same(rt, (at, row.bare()), (at, bare)),
        Batches(batches) => assert_same(rt, (at, row.batches()), (at, batches)),
        IsIn(mode) => assert_same(rt, (at, row.processor_lists.mode()), (at, mode)),
    }
}

/// The steps in order, on lists that nothing was done with.
fn play(rt: &impl Abort, alloc: Global, qhimark: u64, steps: &[Step]) {
    let mut row = Row::new(rt, alloc, qhimark);
    for at in 0..steps.len() {
        play_one(rt, &mut row, at, steps[at]);
    }
}

static BYPASS_17: [Step; 5] = [Calls(17, 5), Bypass(1), Calls(1, 6), Bypass(0), Batches(17)];

#[test]
fn bypass_17(rt: HostRuntime) {
    play(&rt, rt.alloc(), 10000, &BYPASS_17);
}

static BYPASS_QHIMARK: [Step; 8] = [
    Calls(16, 5),
    Bypass(0),
    Calls(2, 5),
    Bypass(2),
    Calls(1, 5),
    Bypass(0),
    Calls(1, 5),
    Bypass(1),
];

#[test]
fn bypass_qhimark(rt: HostRuntime) {
    play(&rt, rt.alloc(), 3, &BYPASS_QHIMARK);
}

static LAZY_TEN: [Step; 7] = [
    Lazy(5),
    Lazy(6),
    Release(14, false, false),
    Bypass(2),
    Release(15, false, false),
    Bypass(0),
    Batches(1),
];

#[test]
fn lazy_ten(rt: HostRuntime) {
    play(&rt, rt.alloc(), 10000, &LAZY_TEN);
}

static LAZY_THEN_PLAIN: [Step; 7] = [
    Calls(1, 5),
    Bypass(0),
    Lazy(5),
    Bypass(1),
    Calls(1, 5),
    Bypass(0),
    Batches(2),
];

#[test]
fn lazy_then_plain(rt: HostRuntime) {
    play(&rt, rt.alloc(), 10000, &LAZY_THEN_PLAIN);
}

static LAZY_URGED: [Step; 5] = [
    Lazy(5),
    Release(5, false, false),
    Bypass(1),
    Release(5, false, true),
    Bypass(0),
];

#[test]
fn lazy_urged(rt: HostRuntime) {
    play(&rt, rt.alloc(), 10000, &LAZY_URGED);
}

static LAZY_DEOFFLOAD: [Step; 10] = [
    Lazy(5),
    Switch(false),
    IsIn(Mode::Offloaded),
    Release(5, true, false),
    Switch(false),
    IsIn(Mode::Deoffloading),
    Settle(1),
    IsIn(Mode::Deoffloading),
    Settle(2),
    IsIn(Mode::Local),
];

#[test]
fn lazy_deoffload(rt: HostRuntime) {
    play(&rt, rt.alloc(), 10000, &LAZY_DEOFFLOAD);
}

static SWITCH_AND_POUR: [Step; 10] = [
    Switch(false),
    Settle(0),
    IsIn(Mode::Local),
    Calls(4, 5),
    Bare(4),
    Switch(true),
    IsIn(Mode::Offloaded),
    Bare(0),
    Bypass(0),
    Batches(1),
];

#[test]
fn switch_and_pour(rt: HostRuntime) {
    play(&rt, rt.alloc(), 10000, &SWITCH_AND_POUR);
}
