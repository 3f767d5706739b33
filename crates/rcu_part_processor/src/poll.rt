//! Polls for a grace period, without a callback.

ghost use Rattle.std.specs.Prelude.{◌≡◌, ◌≤◌, IsTrue, ◌↔◌};
ghost use Rattle.rcu_board.specs.Plays.{looked};
ghost use Rattle.rcu_board.specs.Views.{sight};
ghost use Rattle.rcu_numbers.specs.Numbers.{snap_of};
ghost use Rattle.rcu_part_processor.specs.Calls.{OnBoard};
ghost use Rattle.rcu_part_processor.specs.Polls.{AsksFor};
ghost use Rattle.rcu_part_processor.specs.Processors.{view_of};

use crate::processor::Processor;
use rcu_board::need;
use rcu_jobs::Job;
use rcu_numbers::{done, snap};
use rcu_part_steps::look_at_number;

impl<J: Job> Processor<J> {
    /// Asks for a grace period that begins after this call, and answers its cookie, which [`poll_state`](Processor::poll_state)
    /// takes.
    pub fn start_poll(&mut self) -> u64
        ensures cookie { result ≡ snap_of (sight (view_of self.new.state)) }
        ensures asked { AsksFor result self.old.state self.new.state }
        ensures later { OnBoard (λ v w. sight v ≤ sight w) J.key_of J.gives self.old.state
            self.new.state }
    {
        let state = &mut self.state;
        let seen = look_at_number(&state.board, &mut state.seat);
        let cookie = snap(seen);
        need(&state.board, &mut state.seat, cookie);
        cookie
    }

    /// Whether the grace period of a cookie has ended, by one look.
    pub fn poll_state(&mut self, cookie: u64) -> bool
        ensures looks { OnBoard (λ v w. w ≡ looked (sight w) v) J.key_of J.gives self.old.state
            self.new.state }
        ensures elapsed { IsTrue result ↔ (cookie ≤ sight (view_of self.new.state)) }
    {
        let state = &mut self.state;
        let seen = look_at_number(&state.board, &mut state.seat);
        done(seen, cookie)
    }
}
