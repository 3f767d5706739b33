//! A processor that stays where it is while claims of it begin and end.

ghost use Rattle.std.specs.Prelude.{◌≡◌, ◌+◌, ◌<◌, ◌≤◌, true, None, Some, is_some};
ghost use Rattle.std.specs.Arc.{arc_value};
ghost use Rattle.rcu_numbers.specs.Words.{owes_of};
ghost use Rattle.rcu_numbers.specs.declared.shape.TheConstants.{MOST_CALLS};
ghost use Rattle.rcu_numbers.specs.declared.set.TheConstants.{PARTS_PROCESSORS};
ghost use Rattle.rcu_board.specs.Seats.{view, AtBoard};
ghost use Rattle.rcu_board.specs.declared.board.Role.{Role};
ghost use Rattle.rcu_part_lists.specs.ProcessorLists.{cpu_lists, holding};
ghost use Rattle.rcu_part_order.specs.Recorded.{ran_of};
ghost use Rattle.rcu_part_processor.specs.InPlaceLaw.{RunsAs};
ghost use Rattle.rcu_part_processor.specs.Lawful.{IsHereSince, IsLawful, StaysLocal};
ghost use Rattle.rcu_part_steps.specs.declared.begins.ClaimedCallback.{ClaimedCallback as Claimed};

use crate::processor::{Processor, ProcessorState, into_state};
use rcu_board::{Board, Role, Seat};
use rcu_jobs::{Job, Lists};
use rcu_part_lists::ProcessorLists;
use rcu_part_order::Records;
use rcu_part_steps::ClaimedCallback;
use std::alloc::Global;
use std::sync::Arc;

/// What a processor's part has, whether or not a claim of it runs.
#[derive(Drop)]
pub struct ProcessorInPlaceState<J, R> {
    pub board: Arc<Board, Global>,
    pub seat: Seat,
    pub cpu: u64,
    /// Whether it starts Offloaded and may be switched.
    pub offloadable: bool,
    /// How many callbacks it accepts at most.
    pub limit: u64,
    /// How many callbacks a tick runs at most.
    pub blimit: u64,
    /// How many callbacks it accepted.
    pub accepted: u64,
    /// The last grace period that it passed, or 0.
    pub passed: u64,
    /// What it ran itself.
    pub ran: Records<R>,
    /// The callback whose claim runs, if one does. There is room for its record.
    pub claimed: Option<ClaimedCallback>,
    pub lists: ProcessorLists<J>,
    ghost here: { AtBoard (arc_value board) seat },
    ghost role: { seat.role ≡ Role.Processor cpu },
    ghost there: { cpu < (arc_value board).processors },
    ghost bit: { offloadable ≡ true → owes_of (arc_value board).offloadable cpu ≡ 1 },
    ghost local: { StaysLocal offloadable (holding lists) },
    ghost small: { (accepted ≤ limit) × (limit ≤ MOST_CALLS) },
    ghost since: { IsHereSince passed (view seat) },
    ghost rests: { claimed ≡ None → IsLawful cpu accepted (view seat) (ran_of ran) (holding lists) },
    ghost runs: { (c : Claimed) → claimed ≡ Some c
        → RunsAs cpu accepted c (view seat) ran (holding lists) },
}

/// A processor that stays where it is while claims of it begin and end: a [`Processor`] where none runs, and else a
/// [`RunningProcessor`](crate::RunningProcessor). A caller that keeps a processor behind a reference begins and finishes so
/// without moving it.
pub struct ProcessorInPlace<J: Job> {
    pub(crate) state: ProcessorInPlaceState<J, J::Receipt>,
}

impl<J: Job> ProcessorInPlace<J> {
    ghost use Rattle.rcu_part_processor.specs.InPlace.{IfResting, board_in, lists_in};

    /// A processor of which no claim runs, from where it is put on.
    pub fn new(processor: Processor<J>) -> ProcessorInPlace<J>
        ensures rests { result.state.claimed ≡ None }
        ensures same { IfResting (λ p. p ≡ processor.state) result.state }
    {
        let ProcessorState {
            board,
            seat,
            cpu,
            offloadable,
            limit,
            blimit,
            accepted,
            passed,
            ran,
            lists,
        } = into_state(processor);
        let state = ProcessorInPlaceState {
            board,
            seat,
            cpu,
            offloadable,
            limit,
            blimit,
            accepted,
            passed,
            ran,
            claimed: None,
            lists,
        };
        ProcessorInPlace { state }
    }

    /// The processor, where no claim of it runs.
    pub fn into_processor(self) -> Processor<J>
        requires rests { self.state.claimed ≡ None }
        ensures same { IfResting (λ p. p ≡ result.state) self.state }
    {
        let ProcessorInPlace {
            state: ProcessorInPlaceState {
                board,
                seat,
                cpu,
                offloadable,
                limit,
                blimit,
                accepted,
                passed,
                ran,
                claimed: _,
                lists,
            },
        } = self;
        let state = ProcessorState {
            board,
            seat,
            cpu,
            offloadable,
            limit,
            blimit,
            accepted,
            passed,
            ran,
            lists,
        };
        Processor { state }
    }

    /// Whether a claim of it runs.
    pub fn is_running(&self) -> bool
        ensures { result ≡ is_some self.now.state.claimed }
    {
        self.state.claimed.is_some()
    }

    /// The callback whose claim runs, if one does.
    pub fn claimed(&self) -> Option<ClaimedCallback>
        ensures { result ≡ self.now.state.claimed }
    {
        self.state.claimed
    }

    /// Its number.
    pub fn cpu(&self) -> u64
        ensures { result ≡ self.now.state.cpu }
    {
        self.state.cpu
    }

    /// Whether it starts Offloaded and may be switched.
    pub fn is_offloadable(&self) -> bool
        ensures { result ≡ self.now.state.offloadable }
    {
        self.state.offloadable
    }

    /// How many processors there are, 1 to 32: as many as a barrier counts that it may poll.
    pub fn processors(&self) -> u64
        ensures board { result ≡ (board_in self.now.state).processors }
        ensures few { result ≤ PARTS_PROCESSORS }
    {
        self.state.board.processors()
    }

    /// How many callbacks it accepted.
    pub fn accepted(&self) -> u64
        ensures { result ≡ self.now.state.accepted }
    {
        self.state.accepted
    }

    /// How many calls it still accepts at most, as [`left`](Processor::left).
    pub fn left(&self) -> u64
        ensures left { result + self.now.state.accepted ≡ self.now.state.limit }
    {
        let state = &self.state;
        state.limit - state.accepted
    }

    /// What is shown of the processor's lists.
    pub fn lists(&self) -> Lists
        ensures { result ≡ cpu_lists self.now.state.accepted (lists_in self.now.state) }
    {
        self.state.lists.lists(self.state.accepted)
    }
}

impl<J: Job> Drop for ProcessorInPlace<J> {
    fn drop(self) {
        let ProcessorInPlace { state: _ } = self;
    }
}
