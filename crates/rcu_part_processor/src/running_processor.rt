//! A processor's part while a claim of it runs between its calls.

ghost use Rattle.std.specs.Prelude.{◌≡◌, ◌<◌, ◌≤◌, true};
ghost use Rattle.std.specs.Arc.{arc_value};
ghost use Rattle.rcu_numbers.specs.declared.shape.TheConstants.{MOST_CALLS};
ghost use Rattle.rcu_board.specs.Seats.{view, AtBoard};
ghost use Rattle.rcu_board.specs.declared.board.Role.{Role};
ghost use Rattle.rcu_part_lists.specs.ProcessorLists.{holding};
ghost use Rattle.rcu_numbers.specs.Words.{owes_of};
ghost use Rattle.rcu_part_order.specs.Recorded.{HasRoom, ran_of};
ghost use Rattle.rcu_part_processor.specs.Lawful.{IsHereSince, IsRunningProcessor, StaysLocal};

use crate::acceptance::{Request, accept_job};
use rcu_board::{Board, Role, Seat};
use rcu_jobs::{Job, Lists, Refused, Ticket};
use rcu_lists::Kind;
use rcu_part_lists::ProcessorLists;
use rcu_part_order::Records;
use rcu_part_steps::{ClaimedCallback, report_quiescent_state};
use std::alloc::Global;
use std::sync::Arc;

/// What a processor's part has while a claim of it runs, whose callback counts as claimed in the law of places. There is
/// room for the record.
#[derive(Drop)]
pub struct RunningProcessorState<J, R> {
    pub board: Arc<Board, Global>,
    pub seat: Seat,
    pub cpu: u64,
    /// Whether it starts Offloaded and may be switched.
    pub offloadable: bool,
    /// How many callbacks it accepts at most.
    pub limit: u64,
    /// How many callbacks a tick runs at most.
    pub blimit: u64,
    /// How many callbacks it accepted.
    pub accepted: u64,
    /// The last grace period that it passed, or 0.
    pub passed: u64,
    /// What it ran itself.
    pub ran: Records<R>,
    /// The callback whose claim runs.
    pub claimed: ClaimedCallback,
    pub lists: ProcessorLists<J>,
    ghost here: { AtBoard (arc_value board) seat },
    ghost role: { seat.role ≡ Role.Processor cpu },
    ghost there: { cpu < (arc_value board).processors },
    ghost bit: { offloadable ≡ true → owes_of (arc_value board).offloadable cpu ≡ 1 },
    ghost local: { StaysLocal offloadable (holding lists) },
    ghost small: { (accepted ≤ limit) × (limit ≤ MOST_CALLS) },
    ghost below: { claimed.number < MOST_CALLS },
    ghost room: { HasRoom ran },
    ghost since: { IsHereSince passed (view seat) },
    ghost lawful: { IsRunningProcessor cpu accepted claimed (view seat) (ran_of ran) (holding lists) },
}

/// A processor of which the claim of one callback runs, until `finish` ends it. It neither ticks nor begins until then; the
/// callback may call `call_rcu` on it.
#[derive(Drop)]
pub struct RunningProcessor<J: Job> {
    pub(crate) state: RunningProcessorState<J, J::Receipt>,
}

impl<J: Job> RunningProcessor<J> {
    ghost use Rattle.rcu_part_lists.specs.ProcessorLists.{cpu_lists};
    ghost use Rattle.rcu_lists.specs.declared.pace.Kind.TheVariants.{Plain, Lazy};
    ghost use Rattle.rcu_part_processor.specs.Running.{CallsAs, SameRunning, KeepsAll, KeepsSoundRunning, running_lists, running_view};
    ghost use Rattle.rcu_part_steps.specs.Reports.{Reports};

    /// Its number.
    pub fn cpu(&self) -> u64
        ensures { result ≡ self.now.state.cpu }
    {
        self.state.cpu
    }

    /// The number of the callback whose claim runs.
    pub fn number(&self) -> u64
        ensures { result ≡ self.now.state.claimed.number }
    {
        self.state.claimed.number
    }

    /// Whether it starts Offloaded and may be switched.
    pub fn is_offloadable(&self) -> bool
        ensures { result ≡ self.now.state.offloadable }
    {
        self.state.offloadable
    }

    /// How many callbacks it accepted.
    pub fn accepted(&self) -> u64
        ensures { result ≡ self.now.state.accepted }
    {
        self.state.accepted
    }

    /// What is shown of the processor's lists.
    pub fn lists(&self) -> Lists
        ensures { result ≡ cpu_lists self.now.state.accepted (running_lists self.now.state) }
    {
        self.state.lists.lists(self.state.accepted)
    }

    /// Reports a quiescent state, as a processor does between its callbacks. Answers the number of the grace period that
    /// counted it, or None.
    pub fn quiescent(&mut self) -> Option<u64>
        ensures same { SameRunning self.old.state self.new.state }
        ensures keeps { KeepsAll self.old.state self.new.state }
        ensures claimed { self.new.state.claimed ≡ self.old.state.claimed }
        ensures reports { Reports self.old.state.cpu result (running_view self.old.state)
            (running_view self.new.state) }
        ensures sound { KeepsSoundRunning J.key_of J.gives self.old.state self.new.state }
    {
        let state = &mut self.state;
        let counted = report_quiescent_state(
            &state.board,
            &mut state.seat,
            state.cpu,
            state.passed,
        );
        if let Some(seq) = counted {
            state.passed = seq;
        }
        counted
    }

    /// Accepts a job, as [`call_rcu`](crate::Processor::call_rcu) does.
    ///
    /// # Errors
    ///
    /// The job comes back, and nothing is accepted: refusal 4 at the limit, refusal 2 for want of memory, refusal 3 where
    /// the processor was shut.
    pub fn call_rcu(&mut self, moment: u64, job: J) -> Result<Ticket, Refused<J>>
        ensures calls { CallsAs moment Plain J.key_of J.gives job result self.old.state
            self.new.state }
    {
        self.call(moment, Kind::Plain, job)
    }

    /// Accepts a job as [`call_rcu`](RunningProcessor::call_rcu) does, but an offloaded processor may hold it back longer.
    ///
    /// # Errors
    ///
    /// As `call_rcu`.
    pub fn call_rcu_lazy(&mut self, moment: u64, job: J) -> Result<Ticket, Refused<J>>
        ensures calls { CallsAs moment Lazy J.key_of J.gives job result self.old.state
            self.new.state }
    {
        self.call(moment, Kind::Lazy, job)
    }

    // Accepts a job of either kind.
    fn call(&mut self, moment: u64, kind: Kind, job: J) -> Result<Ticket, Refused<J>>
        ensures calls { CallsAs moment kind J.key_of J.gives job result self.old.state
            self.new.state }
    {
        let state = &mut self.state;
        let request = Request {
            cpu: state.cpu,
            limit: state.limit,
            moment,
            kind,
            job,
        };
        accept_job(
            &state.board,
            &mut state.seat,
            &mut state.lists,
            &mut state.accepted,
            request,
        )
    }
}
