//! A processor's part.

ghost use Rattle.std.specs.Prelude.{◌≡◌, ◌<◌, ◌≤◌, true};
ghost use Rattle.std.specs.Arc.{arc_value};
ghost use Rattle.rcu_numbers.specs.declared.shape.TheConstants.{MOST_CALLS};
ghost use Rattle.rcu_board.specs.Seats.{view, AtBoard};
ghost use Rattle.rcu_board.specs.declared.board.Role.{Role};
ghost use Rattle.rcu_part_lists.specs.ProcessorLists.{holding};
ghost use Rattle.rcu_numbers.specs.Words.{owes_of};
ghost use Rattle.rcu_part_order.specs.Recorded.{ran_of};
ghost use Rattle.rcu_part_processor.specs.Lawful.{IsHereSince, IsLawful, StaysLocal};

use crate::away::{Away, AwayState};
use crate::claim::claim_first;
use crate::running_processor::{RunningProcessor, RunningProcessorState};
use rcu_board::{Board, Role, Seat, leave};
use rcu_jobs::{Callback, Job};
use rcu_numbers::PartsShape;
use rcu_part_lists::ProcessorLists;
use rcu_part_order::{Kept, Records};
use rcu_part_steps::{Begins, ClaimedCallback};
use std::alloc::Global;
use std::sync::Arc;

/// What a processor's part has. It keeps the law of places: what it accepted is what it claimed and put on its lane, in
/// some order, and then what its lists hold.
#[derive(Drop)]
pub struct ProcessorState<J, R> {
    pub board: Arc<Board, Global>,
    pub seat: Seat,
    pub cpu: u64,
    /// Whether it starts Offloaded and may be switched.
    pub offloadable: bool,
    /// How many callbacks it accepts at most.
    pub limit: u64,
    /// How many callbacks a tick runs at most.
    pub blimit: u64,
    /// How many callbacks it accepted.
    pub accepted: u64,
    /// The last grace period that it passed, or 0.
    pub passed: u64,
    /// What it ran itself.
    pub ran: Records<R>,
    pub lists: ProcessorLists<J>,
    ghost here: { AtBoard (arc_value board) seat },
    ghost role: { seat.role ≡ Role.Processor cpu },
    ghost there: { cpu < (arc_value board).processors },
    ghost bit: { offloadable ≡ true → owes_of (arc_value board).offloadable cpu ≡ 1 },
    ghost local: { StaysLocal offloadable (holding lists) },
    ghost small: { (accepted ≤ limit) × (limit ≤ MOST_CALLS) },
    ghost since: { IsHereSince passed (view seat) },
    ghost lawful: { IsLawful cpu accepted (view seat) (ran_of ran) (holding lists) },
}

/// One processor: it accepts callbacks, reports quiescent states, and runs the callbacks of its own list in its tick.
pub struct Processor<J: Job> {
    pub(crate) state: ProcessorState<J, J::Receipt>,
}

impl<J: Job> Processor<J> {
    ghost use Rattle.std.specs.Prelude.{[], None, length};
    ghost use Rattle.rcu_board.specs.Opened.{IsNewProcessor, is_offloadable};
    ghost use Rattle.rcu_board.specs.Seats.{reports_of};
    ghost use Rattle.rcu_part_order.specs.Recorded.{left_in};
    ghost use Rattle.rcu_part_processor.specs.Opened.{IsNew, IsEmpty};
    ghost use Rattle.rcu_part_processor.specs.Processors.{records_of, view_of};

    /// The part of processor `cpu` of a shape, from its seat and its empty lists, and what it is to keep of what it runs. It has
    /// accepted nothing.
    pub fn new(
        alloc: Global,
        shape: &PartsShape,
        board: Arc<Board, Global>,
        seat: Seat,
        cpu: u64,
        lists: ProcessorLists<J>,
        kept: Kept,
    ) -> Processor<J>
        requires seat { IsNewProcessor (arc_value board) cpu seat }
        requires there { cpu < (arc_value board).processors }
        requires lists { IsEmpty (is_offloadable (arc_value board).offloadable cpu) lists }
        ensures new { IsNew shape.now (arc_value board) cpu seat lists kept result.state }
    {
        let offloadable = board.is_offloadable(cpu);
        Processor {
            state: ProcessorState {
                board,
                seat,
                cpu,
                offloadable,
                limit: shape.limit,
                blimit: shape.blimit,
                accepted: 0,
                passed: 0,
                ran: Records::new(alloc, kept),
                lists,
            },
        }
    }

    /// Whether it starts Offloaded and may be switched.
    pub fn is_offloadable(&self) -> bool
        ensures { result ≡ self.now.state.offloadable }
    {
        self.state.offloadable
    }

    /// How many callbacks it accepted.
    pub fn accepted(&self) -> u64
        ensures { result ≡ self.now.state.accepted }
    {
        self.state.accepted
    }

    /// How many callbacks it ran itself; its hand ran others.
    pub fn ran(&self) -> usize
        ensures { result ≡ length (ran_of self.now.state.ran) }
    {
        self.state.ran.len()
    }

    /// How many records are left of those.
    pub fn records_left(&self) -> usize
        ensures { result ≡ length (left_in self.now.state.ran) }
    {
        self.state.ran.records_left()
    }

    /// How many grace periods it passed: the numbers 1, 5, .. up to the last one.
    pub fn reports(&self) -> u64
        ensures { result ≡ reports_of (view_of self.now.state) }
    {
        (self.state.passed + 3) / 4
    }

    // What it has, which ends with it.
    fn into_inner(self) -> ProcessorState<J, J::Receipt>
        ensures { result ≡ self.state }
    {
        let Processor { state } = self;
        state
    }
}

impl<J: Job> Processor<J> {
    ghost use Rattle.std.specs.Prelude.{◌≢◌};
    ghost use Rattle.rcu_board.specs.Views.{sight};
    ghost use Rattle.rcu_jobs.specs.declared.Stop.TheVariants.{Limit};
    ghost use Rattle.rcu_part_processor.specs.Begins.{ClaimsFirst, ClaimsNone};
    ghost use Rattle.rcu_part_processor.specs.Processors.{SameProcessor, IsSound, lists_of, view_of};
    ghost use Rattle.rcu_part_processor.specs.Running.{SameBegun, IsSoundRunning};
    ghost use Rattle.rcu_part_steps.specs.Begins.{IfRuns, IfStops};

    /// Claims the first callback of done, and hands its job out, or says why not. The number `seen` is that of the look.
    pub(crate) fn claim_done(self, seen: u64) -> Begins<RunningProcessor<J>, J, Processor<J>>
        requires seen { (sight (view_of self.state) ≡ seen)
            × ((lists_of self.state).advanced ≡ seen) }
        ensures same { IfRuns result (λ running _. SameBegun self.state running.state)
            × IfStops result (λ processor _. SameProcessor self.state processor.state) }
        ensures runs { IfRuns result (λ running job.
            ClaimsFirst seen self.state running.state job) }
        ensures stops { IfStops result (λ processor stop.
            ClaimsNone seen stop self.state processor.state) }
        ensures counts { IfStops result (λ _ stop. stop ≢ Limit) }
        ensures count { IfStops result (λ processor _.
            processor.state.accepted ≡ self.state.accepted) }
        ensures keyed { IsSound J.key_of J.gives self.state
            → IfRuns result (λ running job. J.key_of job ≡ running.state.claimed.key) }
        ensures sound { IsSound J.key_of J.gives self.state
            → IfRuns result (λ running _. IsSoundRunning J.key_of J.gives running.state)
            × IfStops result (λ processor _. IsSound J.key_of J.gives processor.state) }
    {
        // (field by field: what is lent of a state has to keep the state's law when the loan ends, and that law has no claim)
        let Processor {
            state: ProcessorState {
                board,
                mut seat,
                cpu,
                offloadable,
                limit,
                blimit,
                accepted,
                passed,
                mut ran,
                mut lists,
            },
        } = self;
        match claim_first(&board, &mut seat, cpu, &mut lists, &mut ran) {
            Err(stop) => {
                let state = ProcessorState {
                    board,
                    seat,
                    cpu,
                    offloadable,
                    limit,
                    blimit,
                    accepted,
                    passed,
                    ran,
                    lists,
                };
                Begins::Stops(Processor { state }, stop)
            }
            Ok(callback) => {
                let claimed = ClaimedCallback::of(&callback, seen);
                let Callback { job, .. } = callback;
                let state = RunningProcessorState {
                    board,
                    seat,
                    cpu,
                    offloadable,
                    limit,
                    blimit,
                    accepted,
                    passed,
                    ran,
                    claimed,
                    lists,
                };
                Begins::Runs(RunningProcessor { state }, job)
            }
        }
    }
}

impl<J: Job> Processor<J> {
    ghost use Rattle.std.specs.Prelude.{[]};
    ghost use Rattle.rcu_part_processor.specs.Away.{Leaves, SameLeft, away_records};
    ghost use Rattle.rcu_part_processor.specs.Processors.{lists_of, records_of};

    /// Leaves, with an empty bypass list.
    pub(crate) fn go_away(self) -> Away<J>
        requires empty { (lists_of self.state).outgoing.bypass ≡ [] }
        ensures same { SameLeft self.state result.state }
        ensures away { Leaves self.state result.state }
        ensures lists { result.state.lists ≡ self.state.lists }
        ensures count { (result.state.accepted ≡ self.state.accepted)
            × (result.state.passed ≡ self.state.passed) }
        ensures records { away_records result.state ≡ records_of self.state }
    {
        let Processor {
            state: ProcessorState {
                board,
                mut seat,
                cpu,
                offloadable,
                limit,
                blimit,
                accepted,
                passed,
                ran,
                lists,
            },
        } = self;
        leave(&board, &mut seat, passed);
        let state = AwayState {
            board,
            seat,
            cpu,
            offloadable,
            limit,
            blimit,
            accepted,
            passed,
            ran,
            lists,
        };
        Away { state }
    }
}

impl<J: Job> Drop for Processor<J> {
    fn drop(self) {
        let Processor { state: _ } = self;
    }
}

/// What a processor's part has, which ends with it.
pub fn into_state<J: Job>(processor: Processor<J>) -> ProcessorState<J, J::Receipt>
    ensures { result ≡ processor.state }
{
    processor.into_inner()
}
