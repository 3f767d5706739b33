//! A new board for one processor, which is offloadable, and its seats.

ghost use Rattle.std.specs.Prelude.{◌≡◌, [], ◌∷◌, IfOk, IfSome};
ghost use Rattle.rcu_board.specs.Opened.{AreNew, IsNewProcessor};
ghost use Rattle.rcu_board.specs.Roles.{MayClaim};
ghost use Rattle.rcu_board.specs.Seats.{view, AtBoard};
ghost use Rattle.bench_board.specs.Pairs.{AreOneOfEach, pair_of};

use rcu_board::{Board, Role, Seat, Seats, open_board};
use rcu_numbers::{PartsShape, Shape};
use std::alloc::{AllocError, Global};

/// The seats of such a board, but the group's.
#[derive(Drop)]
pub(crate) struct OneOfEach {
    pub(crate) processor: Seat,
    pub(crate) hand: Seat,
    pub(crate) driver: Seat,
    pub(crate) control: Seat,
}

/// Which seats step in a row: the one that is measured, and the one beside it.
#[derive(Clone, Copy)]
pub(crate) enum Pair {
    ProcessorHand,
    ProcessorDriver,
    ProcessorControl,
    DriverProcessor,
    DriverControl,
    ControlProcessor,
    ControlHand,
    ControlDriver,
}

impl OneOfEach {
    /// The seats of a row.
    pub(crate) fn pair(self, pair: Pair) -> (Seat, Seat)
        ensures seats { result ≡ pair_of self pair }
    {
        match pair {
            Pair::ProcessorHand => (self.processor, self.hand),
            Pair::ProcessorDriver => (self.processor, self.driver),
            Pair::ProcessorControl => (self.processor, self.control),
            Pair::DriverProcessor => (self.driver, self.processor),
            Pair::DriverControl => (self.driver, self.control),
            Pair::ControlProcessor => (self.control, self.processor),
            Pair::ControlHand => (self.control, self.hand),
            Pair::ControlDriver => (self.control, self.driver),
        }
    }
}

/// The only seat of a list.
fn only(mut seats: Vec<Seat>) -> Option<Seat>
    ensures { IfSome result (λ seat. seats.items ≡ seat ∷ []) }
{
    if seats.len() != 1 {
        return None;
    }
    seats.pop()
}

/// The seats, one by one.
fn take_apart(shape: &PartsShape, board: &Board, seats: Seats) -> Option<OneOfEach>
    requires { AreNew shape.now board.now seats }
    ensures processor { IfSome result (λ each. IsNewProcessor board.now 0 each.processor) }
    ensures hand { IfSome result (λ each.
        AtBoard board.now each.hand × MayClaim each.hand.role × ((view each.hand).running ≡ [])) }
    ensures driver { IfSome result (λ each.
        AtBoard board.now each.driver × (each.driver.role ≡ Role.Driver)) }
    ensures control { IfSome result (λ each.
        AtBoard board.now each.control × (each.control.role ≡ Role.Control)) }
{
    let Seats {
        processors,
        hands,
        groups: _,
        driver,
        control,
    } = seats;
    Some(OneOfEach {
        processor: only(processors)?,
        hand: only(hands)?,
        driver,
        control,
    })
}

/// Opens a board, and takes its seats apart; None where it is not as its shape asks.
pub(crate) fn open_one(alloc: Global) -> Result<Option<(Board, OneOfEach)>, AllocError>
    ensures seats { IfOk result (λ found. IfSome found (λ t. AreOneOfEach t.0 t.1)) }
{
    let Some(shape) = Shape::new(1, 1, 1, 10, 16, 1000) else {
        return Ok(None);
    };
    let shape = shape.for_parts();
    let (board, seats) = open_board(alloc, &shape)?;
    if board.processors() != 1 || !board.is_offloadable(0) {
        return Ok(None);
    }
    let Some(each) = take_apart(&shape, &board, seats) else {
        return Ok(None);
    };
    Ok(Some((board, each)))
}
