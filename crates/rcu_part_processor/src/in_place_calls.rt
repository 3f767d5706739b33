//! The calls of a processor in place beside `begin` and `finish`.

ghost use Rattle.std.specs.Prelude.{◌≡◌, ◌≤◌, None, IsTrue, ◌↔◌};
ghost use Rattle.std.specs.Int.{from_bool};
ghost use Rattle.rcu_board.specs.Plays.{looked, touched};
ghost use Rattle.rcu_board.specs.Views.{sight};
ghost use Rattle.rcu_board.specs.Words.{halt_word};
ghost use Rattle.rcu_lists.specs.declared.pace.Kind.TheVariants.{Plain, Lazy};
ghost use Rattle.rcu_numbers.specs.Numbers.{snap_of};
ghost use Rattle.rcu_part_control.specs.Barriers.{Opens, count_at};
ghost use Rattle.rcu_part_processor.specs.InPlace.{CallsAs, OnBoard, StaysResting, board_in, view_in};
ghost use Rattle.rcu_part_processor.specs.Polls.{AsksFor};
ghost use Rattle.rcu_part_steps.specs.Reports.{Reports};

use crate::acceptance::{Request, accept_job};
use crate::in_place::ProcessorInPlace;
use rcu_board::{halted, need, turn_of};
use rcu_jobs::{Job, Refused, Ticket};
use rcu_lists::Kind;
use rcu_numbers::{done, snap};
use rcu_part_control::{Barrier, ReadsTurns, open_barrier};
use rcu_part_steps::{look_at_number, report_quiescent_state};

impl<J: Job> ProcessorInPlace<J> {
    /// Accepts a job, as [`Processor::call_rcu`](crate::Processor::call_rcu) does, whether or not a claim runs.
    ///
    /// # Errors
    ///
    /// The job comes back, and nothing is accepted: refusal 4 at the limit, refusal 2 for want of memory, refusal 3 where
    /// the processor was shut.
    pub fn call_rcu(&mut self, moment: u64, job: J) -> Result<Ticket, Refused<J>>
        ensures calls { CallsAs moment Plain J.key_of J.gives job result self.old.state
            self.new.state }
    {
        self.call(moment, Kind::Plain, job)
    }

    /// Accepts a job as [`call_rcu`](ProcessorInPlace::call_rcu) does, but an offloaded processor may hold it back longer.
    ///
    /// # Errors
    ///
    /// As `call_rcu`.
    pub fn call_rcu_lazy(&mut self, moment: u64, job: J) -> Result<Ticket, Refused<J>>
        ensures calls { CallsAs moment Lazy J.key_of J.gives job result self.old.state
            self.new.state }
    {
        self.call(moment, Kind::Lazy, job)
    }

    /// Accepts a job of either kind, as [`call_rcu`](ProcessorInPlace::call_rcu) and
    /// [`call_rcu_lazy`](ProcessorInPlace::call_rcu_lazy) do.
    ///
    /// # Errors
    ///
    /// As those.
    pub fn call(&mut self, moment: u64, kind: Kind, job: J) -> Result<Ticket, Refused<J>>
        ensures calls { CallsAs moment kind J.key_of J.gives job result self.old.state
            self.new.state }
    {
        let state = &mut self.state;
        let request = Request {
            cpu: state.cpu,
            limit: state.limit,
            moment,
            kind,
            job,
        };
        accept_job(
            &state.board,
            &mut state.seat,
            &mut state.lists,
            &mut state.accepted,
            request,
        )
    }

    /// Reports a quiescent state, whether or not a claim runs. Answers the number of the grace period that counted it, or
    /// None.
    pub fn quiescent(&mut self) -> Option<u64>
        ensures reports { OnBoard (Reports self.old.state.cpu result) J.key_of J.gives
            self.old.state self.new.state }
    {
        let state = &mut self.state;
        let counted = report_quiescent_state(
            &state.board,
            &mut state.seat,
            state.cpu,
            state.passed,
        );
        if let Some(seq) = counted {
            state.passed = seq;
        }
        counted
    }

    /// Opens a barrier, as [`Processor::barrier`](crate::Processor::barrier) does.
    pub fn barrier(&mut self) -> Barrier
        requires rests { self.old.state.claimed ≡ None }
        ensures opens { OnBoard (Opens (board_in self.old.state).processors result) J.key_of J.gives
            self.old.state self.new.state }
        ensures own { count_at result.counts self.new.state.cpu ≡ self.new.state.accepted }
    {
        let state = &mut self.state;
        open_barrier(&state.board, &mut state.seat)
    }

    /// Asks for a grace period that begins after this call, and answers its cookie, which
    /// [`poll_state`](ProcessorInPlace::poll_state) takes.
    pub fn start_poll(&mut self) -> u64
        requires rests { self.old.state.claimed ≡ None }
        ensures cookie { result ≡ snap_of (sight (view_in self.new.state)) }
        ensures asked { StaysResting (AsksFor result) self.old.state self.new.state }
        ensures later { OnBoard (λ v w. sight v ≤ sight w) J.key_of J.gives self.old.state
            self.new.state }
    {
        let state = &mut self.state;
        let seen = look_at_number(&state.board, &mut state.seat);
        let cookie = snap(seen);
        need(&state.board, &mut state.seat, cookie);
        cookie
    }

    /// Whether the grace period of a cookie has ended, by one look.
    pub fn poll_state(&mut self, cookie: u64) -> bool
        requires rests { self.old.state.claimed ≡ None }
        ensures looks { OnBoard (λ v w. w ≡ looked (sight w) v) J.key_of J.gives self.old.state
            self.new.state }
        ensures elapsed { IsTrue result ↔ (cookie ≤ sight (view_in self.new.state)) }
    {
        let state = &mut self.state;
        let seen = look_at_number(&state.board, &mut state.seat);
        done(seen, cookie)
    }

    /// Whether the runtime was halted.
    pub fn is_halted(&mut self) -> bool
        requires rests { self.old.state.claimed ≡ None }
        ensures reads { OnBoard (λ v w. w ≡ touched halt_word (from_bool result) v) J.key_of J.gives
            self.old.state self.new.state }
    {
        let state = &mut self.state;
        halted(&state.board, &mut state.seat)
    }
}

impl<J: Job> ReadsTurns for ProcessorInPlace<J> {
    ghost use Rattle.rcu_part_processor.specs.InPlace.{seat_in};
    ghost use Rattle.rcu_part_processor.specs.LookingInPlace.{OnlyLooksInPlace, looks_none_in_place, looks_again_in_place};

    ghost board_of = { λ p. board_in p.state };

    ghost seat_of = { λ p. seat_in p.state };

    ghost keeps = { λ p q. OnlyLooksInPlace J.key_of J.gives p.state q.state };

    fn read_turn(&mut self, p: u64) -> u64 {
        let state = &mut self.state;
        turn_of(&state.board, &mut state.seat, p)
    }

    ghost keeps_itself = { λ w. looks_none_in_place J.key_of J.gives w.state };

    ghost keeps_again = { λ u v w x y. looks_again_in_place J.key_of J.gives u.state v.state w.state x y };
}
