//! The rows: which kind of step each measures, and which other kind steps on the same word beside it.

ghost use Rattle.rcu_board.specs.declared.board.Board.{Board};
ghost use Rattle.bench_board.specs.Pairs.{AreOneOfEach, pair_of};
ghost use Rattle.bench_board.specs.declared.seats.OneOfEach.{OneOfEach};

use crate::kinds::{
    Accept, Ask, Asked, Away, Claim, Count, Halt, Halted, Hear, Kind, Look, Need, Needed, Shut,
    Sighted, Turn, Urge,
};
use crate::measure::{Plan, measure, measure_grace_periods};
use crate::seats::{Pair, open_one};
use Pair::{
    ControlDriver, ControlHand, ControlProcessor, DriverControl, DriverProcessor, ProcessorControl,
    ProcessorDriver, ProcessorHand,
};
use std::alloc::Global;
use std::io;
use std::rt::Clock;
use std::sync::Wait;
use std::thread::Threads;

/// Measures rows by a plan, each on a new board, and counts those that made all their rounds. It keeps the first failure, and
/// measures no row after it.
#[derive(Drop)]
struct Rows<'a, R> {
    rt: &'a R,
    alloc: Global,
    plan: Plan,
    made: u64,
    failed: Option<io::Error>,
}

impl<'a, R: Threads + Wait + Sync + Clock + Print> Rows<'a, R> {
    /// Measures one kind of step, and beside it the other kind. Answers 1 where all rounds were made.
    fn measure_row<K: Kind, O: Kind>(&self, pair: Pair, name: &str) -> io::Result<u64>
        requires ready { (board : Board) (each : OneOfEach) → AreOneOfEach board each
            → K.ready board (pair_of each pair).0 0 × O.ready board (pair_of each pair).1 0 }
    {
        let Some((board, each)) = open_one(self.alloc)? else {
            return Ok(0);
        };
        let (seat, other) = each.pair(pair);
        measure::<K, O, R>(self.rt, &board, seat, other, name, self.plan)
    }

    /// Measures whole grace periods. Answers 1 where all were made.
    fn measure_grace_periods(&self) -> io::Result<u64> {
        let Some((board, each)) = open_one(self.alloc)? else {
            return Ok(0);
        };
        measure_grace_periods(
            self.rt,
            &board,
            each.driver,
            each.processor,
            each.hand,
            self.plan,
        )
    }

    /// Counts a row that was measured.
    fn count(&mut self, measured: io::Result<u64>) {
        match measured {
            Ok(made) => self.made = self.made.wrapping_add(made),
            Err(error) => self.failed = Some(error),
        }
    }

    /// The row of one kind of step, and of the kind beside it.
    fn time<K: Kind, O: Kind>(&mut self, pair: Pair, name: &str)
        requires ready { (board : Board) (each : OneOfEach) → AreOneOfEach board each
            → K.ready board (pair_of each pair).0 0 × O.ready board (pair_of each pair).1 0 }
    {
        if self.failed.is_none() {
            let measured = self.measure_row::<K, O>(pair, name);
            self.count(measured);
        }
    }

    /// The row of whole grace periods.
    fn time_grace_periods(&mut self) {
        if self.failed.is_none() {
            let measured = self.measure_grace_periods();
            self.count(measured);
        }
    }

    fn time_board(&mut self) {
        self.time::<Look, Look>(ProcessorHand, "look");
        self.time::<Away, Sighted>(ProcessorDriver, "leave and come_back");
        self.time::<Sighted, Away>(DriverProcessor, "sighted");
        self.time_grace_periods();
        self.time::<Need, Needed>(ProcessorDriver, "need");
        self.time::<Needed, Need>(DriverProcessor, "needed");
    }

    fn time_processor(&mut self) {
        self.time::<Accept, Count>(ProcessorControl, "accept and look");
        self.time::<Shut, Count>(ControlProcessor, "shut_one");
        self.time::<Count, Shut>(ProcessorControl, "count_of");
        self.time::<Claim, Turn>(ProcessorControl, "claim and finish");
        self.time::<Turn, Claim>(ControlHand, "turn_of");
    }

    fn time_switches(&mut self) {
        self.time::<Ask, Asked>(ControlProcessor, "ask");
        self.time::<Asked, Ask>(ProcessorControl, "asked");
        self.time::<Halt, Halted>(ControlDriver, "halt");
        self.time::<Halted, Halt>(DriverControl, "halted");
        self.time::<Urge, Hear>(ControlProcessor, "urge");
        self.time::<Hear, Urge>(ProcessorControl, "heard");
    }
}

/// Measures all rows. Answers how many made all their rounds.
pub(crate) fn all<R: Threads + Wait + Sync + Clock + Print>(
    rt: &R,
    alloc: Global,
    plan: Plan,
) -> io::Result<u64> {
    let mut rows = Rows {
        rt,
        alloc,
        plan,
        made: 0,
        failed: None,
    };
    rows.time_board();
    rows.time_processor();
    rows.time_switches();
    match rows.failed {
        Some(error) => Err(error),
        None => Ok(rows.made),
    }
}
