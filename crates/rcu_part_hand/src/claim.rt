//! The claim of the first callback that a hand holds.

ghost use Rattle.std.specs.Prelude.{◌≡◌, [], IfErr, IfOk};
ghost use Rattle.rcu_board.specs.Roles.{MayClaim, cpu_of_role};
ghost use Rattle.rcu_board.specs.Seats.{view, AtBoard, SameSeat};
ghost use Rattle.rcu_part_hand.specs.Begins.{TakesFirst, TakesNone};
ghost use Rattle.rcu_part_lists.specs.Helds.{front_of};
ghost use Rattle.rcu_part_order.specs.Recorded.{HasRoom, recorded};

use rcu_board::{Board, Seat};
use rcu_jobs::{Callback, Job, Stop};
use rcu_numbers::snap;
use rcu_part_lists::Held;
use rcu_part_order::Records;
use rcu_part_steps::try_claim;

/// Wins the claim of the first callback that is held, and takes it out, where its wait is over at the number that was seen
/// and there is room for its record.
///
/// # Errors
///
/// No claim was won, and why.
#[inline(always)]
pub(crate) fn claim_first<J: Job>(
    board: &Board,
    seat: &mut Seat,
    cpu: u64,
    held: &mut Held<J>,
    ran: &mut Records<J::Receipt>,
    seen: u64,
) -> Result<Callback<J>, Stop>
    requires board { AtBoard board.now seat.old }
    requires who { MayClaim seat.old.role }
    requires cpu { cpu_of_role seat.old.role ≡ cpu }
    requires rests { (view seat.old).running ≡ [] }
    ensures same { SameSeat seat.old seat.new }
    ensures lane { front_of held.new ≡ front_of held.old }
    ensures records { recorded ran.new ≡ recorded ran.old }
    ensures takes { IfOk result (λ callback.
        TakesFirst cpu seen callback (view seat.old) (view seat.new) held.old held.new) }
    ensures room { IfOk result (λ _. HasRoom ran.new) }
    ensures stops { IfErr result (λ stop.
        TakesNone J.Receipt cpu seen stop (view seat.old) (view seat.new) held.old held.new) }
{
    let Some(first) = held.first() else {
        return Err(Stop::Empty);
    };
    if snap(first.stamp) > seen {
        return Err(Stop::Turn);
    }
    let number = first.number;
    let Ok(()) = ran.find_room() else {
        return Err(Stop::Memory);
    };
    if !try_claim(board, seat, cpu, number) {
        return Err(Stop::Turn);
    }
    let Some(callback) = held.take() else {
        unreachable!()
    };
    Ok(callback)
}
