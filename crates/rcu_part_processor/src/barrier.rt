//! Barriers opened by a processor, and the turn words that it reads for one.

ghost use Rattle.std.specs.Prelude.{◌≡◌};
ghost use Rattle.rcu_part_control.specs.Barriers.{Opens, count_at};
ghost use Rattle.rcu_part_processor.specs.Calls.{OnBoard};
ghost use Rattle.rcu_part_processor.specs.Processors.{board_of};

use crate::processor::Processor;
use rcu_board::turn_of;
use rcu_jobs::Job;
use rcu_part_control::{Barrier, ReadsTurns, open_barrier};

impl<J: Job> Processor<J> {
    /// Opens a barrier for what each processor has accepted when its count is read, and then urges every processor to
    /// release its bypass list. Of its own processor each callback is counted that it has accepted.
    pub fn barrier(&mut self) -> Barrier
        ensures opens { OnBoard (Opens (board_of self.old.state).processors result) J.key_of J.gives
            self.old.state self.new.state }
        ensures own { count_at result.counts self.new.state.cpu ≡ self.new.state.accepted }
    {
        let state = &mut self.state;
        open_barrier(&state.board, &mut state.seat)
    }
}

impl<J: Job> ReadsTurns for Processor<J> {
    ghost use Rattle.rcu_part_processor.specs.Looking.{OnlyLooks, looks_none, looks_again};
    ghost use Rattle.rcu_part_processor.specs.Processors.{board_of, seat_of};

    ghost board_of = { λ p. board_of p.state };

    ghost seat_of = { λ p. seat_of p.state };

    ghost keeps = { λ p q. OnlyLooks J.key_of J.gives p.state q.state };

    fn read_turn(&mut self, p: u64) -> u64 {
        let state = &mut self.state;
        turn_of(&state.board, &mut state.seat, p)
    }

    ghost keeps_itself = { λ w. looks_none J.key_of J.gives w.state };

    ghost keeps_again = { λ u v w x y. looks_again J.key_of J.gives u.state v.state w.state x y };
}
