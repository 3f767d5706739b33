//! What a processor has.

ghost use Rattle.std.specs.Prelude.{◌≡◌};
ghost use Rattle.rcu_world_law.specs.States.{opening_cpu};
ghost use Rattle.rcu_world_processor.specs.Views.{seen, records_of, AreGiven};

use rcu_jobs::{Callback, Job, Mode, Record};
use rcu_lists::{Batch, Bypass, Segments};
use rcu_world_law::who::Side;
use std::alloc::Global;
use std::collections::VecDeque;

/// One processor of the core, with its hand and with what its group holds for it.
pub struct WorldProcessor<J, R> {
    pub(crate) shut: bool,
    pub(crate) count: u64,
    pub(crate) turn: u64,
    pub(crate) asked: bool,
    /// Whose claim runs.
    pub(crate) running: Option<Side>,
    /// The greatest number that the processor's look showed, and the hand's.
    pub(crate) sight: u64,
    pub(crate) hand_sight: u64,
    /// The number that the last accelerate of the own list wants and that isn't asked for yet, and of the group's list.
    pub(crate) wanted: Option<u64>,
    pub(crate) group_wanted: Option<u64>,
    pub(crate) mode: Mode,
    /// The count accepted at the entry to Deoffloading.
    pub(crate) left: u64,
    pub(crate) urged: bool,
    pub(crate) away: bool,
    /// What ran.
    pub(crate) records: Vec<Record<R>>,
    pub(crate) own: Segments<J>,
    pub(crate) lane: VecDeque<Batch<J>>,
    /// The group's list for this processor.
    pub(crate) joined: Segments<J>,
    pub(crate) done_lane: VecDeque<Batch<J>>,
    /// Accepted, and not yet stamped.
    pub(crate) fresh: Option<Callback<J>>,
    /// The hand's batch.
    pub(crate) held: Batch<J>,
    /// The group's batch that waits for the done lane.
    pub(crate) out: Batch<J>,
    /// The group's drawn batch, which waits for room.
    pub(crate) drawn: Batch<J>,
    pub(crate) bypass: Bypass<J>,
}

impl<J: Job> WorldProcessor<J, J::Receipt> {
    /// A processor at rest, Offloaded where it is offloadable, else Local. Its bypass list is released at the length
    /// `qhimark`.
    pub fn new(alloc: Global, offloadable: bool, qhimark: u64) -> Self
        ensures opens { seen J.key_of result ≡ opening_cpu offloadable }
        ensures given { AreGiven J.gives qhimark result }
    {
        WorldProcessor {
            fresh: None,
            own: Segments::new(alloc),
            bypass: Bypass::new(alloc, qhimark),
            lane: VecDeque::new(alloc),
            drawn: Batch::new(alloc),
            joined: Segments::new(alloc),
            out: Batch::new(alloc),
            done_lane: VecDeque::new(alloc),
            held: Batch::new(alloc),
            records: Vec::new(alloc),
            shut: false,
            count: 0,
            turn: 0,
            asked: offloadable,
            running: None,
            sight: 0,
            hand_sight: 0,
            wanted: None,
            group_wanted: None,
            mode: Mode::first(offloadable),
            left: 0,
            urged: false,
            away: false,
        }
    }

    /// What ran.
    pub fn into_records(self) -> Vec<Record<J::Receipt>>
        ensures { result ≡ records_of self }
    {
        let WorldProcessor {
            shut: _,
            count: _,
            turn: _,
            asked: _,
            running: _,
            sight: _,
            hand_sight: _,
            wanted: _,
            group_wanted: _,
            mode: _,
            left: _,
            urged: _,
            away: _,
            records,
            own: _own,
            lane: _lane,
            joined: _joined,
            done_lane: _done_lane,
            fresh: _fresh,
            held: _held,
            out: _out,
            drawn: _drawn,
            bypass: _bypass,
        } = self;
        records
    }
}

impl<J: Drop, R: Drop> Drop for WorldProcessor<J, R> {
    fn drop(self) {
        let WorldProcessor {
            shut: _,
            count: _,
            turn: _,
            asked: _,
            running: _,
            sight: _,
            hand_sight: _,
            wanted: _,
            group_wanted: _,
            mode: _,
            left: _,
            urged: _,
            away: _,
            records: _,
            own: _,
            lane: _,
            joined: _,
            done_lane: _,
            fresh: _,
            held: _,
            out: _,
            drawn: _,
            bypass: _,
        } = self;
    }
}
