//! How a claimed callback is run.

ghost use Rattle.std.specs.Prelude.{◌≡◌, ◌<◌, [], ◌∷◌};
ghost use Rattle.rcu_numbers.specs.declared.shape.TheConstants.{MOST_CALLS};
ghost use Rattle.rcu_board.specs.Roles.{MayClaim, cpu_of_role};
ghost use Rattle.rcu_board.specs.Seats.{view, AtBoard, SameSeat};
ghost use Rattle.rcu_board.specs.Words.{turns_word};
ghost use Rattle.rcu_part_steps.specs.Changes.{Finishes, StepsOnly, claim_at};
ghost use Rattle.rcu_part_order.specs.Records.{numbered_record};
ghost use Rattle.rcu_part_steps.specs.Places.{numbered_callback};

use crate::begins::ClaimedCallback;
use crate::steps::end_claim;
use rcu_board::{Board, Seat};
use rcu_jobs::{Callback, Job, Record};

/// Runs the job of a callback whose claim runs, with nothing locked, and then ends the claim. `ready` is the number that
/// was seen before the claim.
pub fn run_claimed<J: Job>(
    board: &Board,
    seat: &mut Seat,
    callback: Callback<J>,
    ready: u64,
) -> Record<J::Receipt>
    requires board { AtBoard board.now seat.old }
    requires who { MayClaim seat.old.role }
    requires runs { (view seat.old).running
        ≡ claim_at (cpu_of_role seat.old.role) callback.number (view seat.old) ∷ [] }
    requires small { callback.number < MOST_CALLS }
    ensures same { SameSeat seat.old seat.new }
    ensures ends { Finishes (view seat.old) (view seat.new) }
    ensures only { StepsOnly (turns_word (cpu_of_role seat.old.role)) 1 (view seat.old)
        (view seat.new) }
    ensures record { numbered_record result ≡ numbered_callback callback }
    ensures ready { result.ready ≡ ready }
    ensures given { J.key_of callback.job ≡ callback.key → J.gives result.key result.receipt }
{
    let claimed = ClaimedCallback::of(&callback, ready);
    let Callback { job, .. } = callback;
    let receipt = job.run();
    end_claim(board, seat);
    claimed.record(receipt)
}
