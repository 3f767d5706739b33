//! A hand at its seat, whether or not a claim of it runs.

ghost use Rattle.std.specs.Prelude.{◌≡◌};
ghost use Rattle.std.specs.Arc.{arc_value};
ghost use Rattle.rcu_board.specs.Seats.{AtBoard};
ghost use Rattle.rcu_board.specs.declared.board.Role.{Role};

use rcu_board::{Board, Role, Seat};
use rcu_part_lists::Held;
use rcu_part_order::Records;
use std::alloc::Global;
use std::sync::Arc;

/// What a hand's part has at its seat of the board, whether or not a claim of it runs.
#[derive(Drop)]
pub struct SeatedHand<J, R> {
    pub board: Arc<Board, Global>,
    pub seat: Seat,
    pub cpu: u64,
    /// How many callbacks a turn runs at most.
    pub blimit: u64,
    pub ran: Records<R>,
    pub held: Held<J>,
    ghost here: { AtBoard (arc_value board) seat },
    ghost role: { seat.role ≡ Role.Hand cpu },
}
