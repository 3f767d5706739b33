//! The last loads.

ghost use Rattle.std.specs.Prelude.{◌≡◌};
ghost use Rattle.rcu_board.specs.Plays.{all_seats};
ghost use Rattle.rcu_board.specs.Seats.{GatheredAt, SameGathered, gathered_view};
ghost use Rattle.rcu_part_close.specs.Gathered.{IsSettled};

use rcu_board::{Board, Gathered, last_count_of, last_look, last_report_of, last_turn_of};

/// Loads the number, and then the turn word, the accept word and the report word of each processor, once all seats are one.
/// Takes no memory. The number is the answer.
pub fn settle(board: &Board, all: &mut Gathered) -> u64
    requires all { GatheredAt board.now all.old }
    requires whole { (gathered_view all.old).weight ≡ all_seats }
    ensures same { SameGathered all.old all.new }
    ensures settled { IsSettled board.now.processors result (gathered_view all.old) }
{
    let number = last_look(board, all);
    for p in 0..board.processors() {
        last_turn_of(board, all, p);
        last_count_of(board, all, p);
        last_report_of(board, all, p);
    }
    number
}
