//! A processor that is away for a while: no grace period waits for it, and nobody reads as it.

ghost use Rattle.std.specs.Prelude.{◌≡◌, ◌<◌, ◌≤◌, [], true};
ghost use Rattle.std.specs.Arc.{arc_value};
ghost use Rattle.rcu_numbers.specs.declared.shape.TheConstants.{MOST_CALLS};
ghost use Rattle.rcu_numbers.specs.Words.{owes_of};
ghost use Rattle.rcu_board.specs.Seats.{view, AtBoard};
ghost use Rattle.rcu_board.specs.declared.board.Role.{Role};
ghost use Rattle.rcu_part_lists.specs.ProcessorLists.{holding};
ghost use Rattle.rcu_part_order.specs.Recorded.{ran_of};
ghost use Rattle.rcu_part_processor.specs.Lawful.{IsAwaySince, IsLawful, StaysLocal};

use crate::processor::{Processor, ProcessorState};
use rcu_board::{Board, Role, Seat, come_back};
use rcu_jobs::{Job, Lists};
use rcu_part_lists::ProcessorLists;
use rcu_part_order::Records;
use std::alloc::Global;
use std::sync::Arc;

/// What a processor's part has while it is away. Its bypass list is empty.
#[derive(Drop)]
pub struct AwayState<J, R> {
    pub board: Arc<Board, Global>,
    pub seat: Seat,
    pub cpu: u64,
    /// Whether it starts Offloaded and may be switched.
    pub offloadable: bool,
    /// How many callbacks it accepts at most.
    pub limit: u64,
    /// How many callbacks a tick runs at most.
    pub blimit: u64,
    /// How many callbacks it accepted.
    pub accepted: u64,
    /// The last grace period that it passed before it left, or 0.
    pub passed: u64,
    /// What it ran itself.
    pub ran: Records<R>,
    pub lists: ProcessorLists<J>,
    ghost here: { AtBoard (arc_value board) seat },
    ghost role: { seat.role ≡ Role.Processor cpu },
    ghost there: { cpu < (arc_value board).processors },
    ghost bit: { offloadable ≡ true → owes_of (arc_value board).offloadable cpu ≡ 1 },
    ghost local: { StaysLocal offloadable (holding lists) },
    ghost small: { (accepted ≤ limit) × (limit ≤ MOST_CALLS) },
    ghost since: { IsAwaySince passed (view seat) },
    ghost lawful: { IsLawful cpu accepted (view seat) (ran_of ran) (holding lists) },
    ghost empty: { (holding lists).outgoing.bypass ≡ [] },
}

/// A processor that is away, until it comes back: no grace period waits for it, and nobody reads as it. Its own list waits,
/// and its bypass list is empty. One that has nothing to do may wait so:
///
/// ```text
/// let away = match processor.leave() {
///     Ok(away) => away,
///     Err(here) => return here, // its lane is full: it goes on
/// };
/// wait_for_work();
/// let mut processor = away.come_back();
/// let section = processor.reading();
/// ```
pub struct Away<J: Job> {
    pub(crate) state: AwayState<J, J::Receipt>,
}

impl<J: Job> Processor<J> {
    ghost use Rattle.std.specs.Prelude.{IfOk, IfErr, IsTrue, ◌↔◌, false};
    ghost use Rattle.rcu_part_lists.specs.ProcessorLists.{PutsBypass};
    ghost use Rattle.rcu_part_processor.specs.Away.{IsSoundAway, KeepsLeaving, Leaves, SameLeft, StaysHere, away_lists};
    ghost use Rattle.rcu_part_processor.specs.Processors.{IsSound, Keeping, lists_of, records_of, view_of};

    /// Leaves: from now on no grace period waits for it, and nobody reads as it, since `reading` is a processor's alone. Its
    /// bypass list is put on its lane first, whatever the moment; its own list stays with it and waits.
    ///
    /// # Errors
    ///
    /// The processor, still here, where its lane has no room for what the bypass list holds.
    pub fn leave(self) -> Result<Away<J>, Processor<J>>
        ensures same { IfOk result (λ away. SameLeft self.state away.state) }
        ensures away { IfOk result (λ away. Leaves self.state away.state) }
        ensures empty { IfOk result (λ away. (away_lists away.state).outgoing.bypass ≡ []) }
        ensures keeps { IfOk result (λ away. KeepsLeaving self.state away.state) }
        ensures stays { IfErr result (λ processor. StaysHere self.state processor.state) }
        ensures sound { IsSound J.key_of J.gives self.state
            → IfOk result (λ away. IsSoundAway J.key_of J.gives away.state)
            × IfErr result (λ processor. IsSound J.key_of J.gives processor.state) }
    {
        let mut processor = self;
        if !processor.empty_bypass() {
            return Err(processor);
        }
        Ok(processor.go_away())
    }

    // Puts the bypass list on the lane, and says whether it is empty.
    fn empty_bypass(&mut self) -> bool
        ensures view { view_of self.new.state ≡ view_of self.old.state }
        ensures passed { self.new.state.passed ≡ self.old.state.passed }
        ensures records { records_of self.new.state ≡ records_of self.old.state }
        ensures puts { Keeping (λ p q. PutsBypass (lists_of p) (lists_of q)) J.key_of J.gives
            self.old.state self.new.state }
        ensures empty { IsTrue result ↔ ((lists_of self.new.state).outgoing.bypass ≡ []) }
    {
        let state = &mut self.state;
        state.lists.put_bypass();
        let Lists::Cpu { bypass, .. } = state.lists.lists(state.accepted) else {
            unreachable!()
        };
        bypass == 0
    }
}

impl<J: Job> Away<J> {
    ghost use Rattle.std.specs.Prelude.{◌*◌};
    ghost use Rattle.rcu_board.specs.Plays.{return_own, stepped_own};
    ghost use Rattle.rcu_board.specs.Words.{reports_word};
    ghost use Rattle.rcu_part_processor.specs.Away.{IsSoundAway, KeepsReturning, SameReturned, away_view};
    ghost use Rattle.rcu_part_processor.specs.Processors.{IsSound, view_of};

    /// Its number.
    pub fn cpu(&self) -> u64
        ensures { result ≡ self.now.state.cpu }
    {
        self.state.cpu
    }

    /// How many callbacks it accepted.
    pub fn accepted(&self) -> u64
        ensures { result ≡ self.now.state.accepted }
    {
        self.state.accepted
    }

    /// It is back: a grace period that it has not passed yet waits for it again. It passed all up to the last one that was met
    /// while it was away.
    pub fn come_back(self) -> Processor<J>
        ensures same { SameReturned self.state result.state }
        ensures keeps { KeepsReturning self.state result.state }
        ensures passed { view_of result.state
            ≡ stepped_own return_own (reports_word self.state.cpu) (2 * result.state.passed)
            (away_view self.state) }
        ensures later { self.state.passed ≤ result.state.passed }
        ensures sound { IsSoundAway J.key_of J.gives self.state
            → IsSound J.key_of J.gives result.state }
    {
        let Away {
            state: AwayState {
                board,
                mut seat,
                cpu,
                offloadable,
                limit,
                blimit,
                accepted,
                passed: _,
                ran,
                lists,
            },
        } = self;
        let passed = come_back(&board, &mut seat);
        let state = ProcessorState {
            board,
            seat,
            cpu,
            offloadable,
            limit,
            blimit,
            accepted,
            passed,
            ran,
            lists,
        };
        Processor { state }
    }
}

impl<J: Job> Drop for Away<J> {
    fn drop(self) {
        let Away { state: _ } = self;
    }
}
