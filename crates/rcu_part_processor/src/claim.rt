//! The claim of the first callback that is done.

ghost use Rattle.std.specs.Prelude.{◌≡◌, [], IfErr, IfOk};
ghost use Rattle.rcu_board.specs.Roles.{MayClaim, cpu_of_role};
ghost use Rattle.rcu_board.specs.Seats.{view, AtBoard, SameSeat};
ghost use Rattle.rcu_part_lists.specs.ProcessorLists.{rear_of};
ghost use Rattle.rcu_part_order.specs.Recorded.{HasRoom, recorded};
ghost use Rattle.rcu_part_processor.specs.Begins.{TakesDone, TakesNone};

use rcu_board::{Board, Seat};
use rcu_jobs::{Callback, Job, Stop};
use rcu_part_lists::ProcessorLists;
use rcu_part_order::Records;
use rcu_part_steps::try_claim;

/// Wins the claim of the first callback of done, and takes it out, where there is room for its record.
///
/// # Errors
///
/// No claim was won, and why.
#[inline(always)]
pub(crate) fn claim_first<J: Job>(
    board: &Board,
    seat: &mut Seat,
    cpu: u64,
    lists: &mut ProcessorLists<J>,
    ran: &mut Records<J::Receipt>,
) -> Result<Callback<J>, Stop>
    requires board { AtBoard board.now seat.old }
    requires who { MayClaim seat.old.role }
    requires cpu { cpu_of_role seat.old.role ≡ cpu }
    requires rests { (view seat.old).running ≡ [] }
    ensures same { SameSeat seat.old seat.new }
    ensures lane { rear_of lists.new ≡ rear_of lists.old }
    ensures records { recorded ran.new ≡ recorded ran.old }
    ensures takes { IfOk result (λ callback.
        TakesDone cpu callback (view seat.old) (view seat.new) lists.old lists.new) }
    ensures room { IfOk result (λ _. HasRoom ran.new) }
    ensures stops { IfErr result (λ stop.
        TakesNone J.Receipt cpu stop (view seat.old) (view seat.new) lists.old lists.new) }
{
    let Some(first) = lists.first() else {
        return Err(Stop::Empty);
    };
    let number = first.number;
    let Ok(()) = ran.find_room() else {
        return Err(Stop::Memory);
    };
    if !try_claim(board, seat, cpu, number) {
        return Err(Stop::Turn);
    }
    let Some(callback) = lists.take() else {
        unreachable!()
    };
    Ok(callback)
}
