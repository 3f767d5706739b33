//! The thread of the driver and control.

ghost use Rattle.std.specs.Prelude.{◌≡◌, ◌↔◌, IfOk, IsSome, None};
ghost use Rattle.test_parts.specs.Kept.{IsOurs};
ghost use Rattle.test_parts.specs.Moves.{MovesControl, MovesDriver, OpensAs, PollsAs};
ghost use Rattle.test_parts.specs.declared.phases.phase.Reply.TheVariants.{NoBarrier, Opened};
ghost use Rattle.rcu_part_control.specs.Parts.{SameControl, SameDriver};

use crate::phases::company::Center;
use crate::phases::phase::{Move, Reply};
use rcu_jobs::Ticket;
use rcu_parts::{Barrier, Control, Driver};
use std::alloc::AllocError;

/// Opens a barrier in place of the one that is open.
fn open_barrier(control: &mut Control, barrier: &mut Option<Barrier>, tickets: &[Ticket]) -> Reply
    ensures control { SameControl control.old control.new }
    ensures ours { IsOurs control.new barrier.new }
    ensures opened { (result ≡ Opened) ↔ IsSome barrier.new }
    ensures opens { OpensAs tickets.now result barrier.new control.old control.new }
{
    match control.barrier(tickets) {
        Ok(opened) => {
            *barrier = Some(opened);
            Reply::Opened
        }
        Err(fault) => {
            *barrier = None;
            Reply::Refused(fault)
        }
    }
}

/// Polls the barrier that is open.
fn poll_barrier(control: &mut Control, barrier: &Option<Barrier>) -> Reply
    requires ours { IsOurs control.old barrier.now }
    ensures control { SameControl control.old control.new }
    ensures none { (result ≡ NoBarrier) ↔ (barrier.now ≡ None) }
    ensures polls { PollsAs result barrier.now control.old control.new }
{
    let Some(mut polled) = *barrier else {
        return Reply::NoBarrier;
    };
    match polled.poll(control) {
        None => Reply::Waits,
        Some(_) => Reply::Passed,
    }
}

/// One move. Answers what the barrier did, if the move was about it.
fn move_one(
    driver: &mut Driver,
    control: &mut Control,
    barrier: &mut Option<Barrier>,
    next: Move,
) -> Option<Reply>
    requires ours { IsOurs control.old barrier.old }
    ensures driver { SameDriver driver.old driver.new }
    ensures control { SameControl control.old control.new }
    ensures ours { IsOurs control.new barrier.new }
    ensures drives { MovesDriver next driver.old driver.new }
    ensures moves { MovesControl next result barrier.old barrier.new control.old control.new }
{
    match next {
        Move::Drive => {
            driver.turn();
        }
        Move::Deoffload(cpu) => {
            let _refused = control.deoffload(cpu);
        }
        Move::Open(tickets) => return Some(open_barrier(control, barrier, tickets.as_slice())),
        Move::Poll => return Some(poll_barrier(control, barrier)),
        Move::Sign(signal) => signal.give(),
    }
    None
}

/// All moves of the thread in a phase.
///
/// # Errors
///
/// Want of memory for the replies.
pub(crate) fn move_all(center: Center, moves: Vec<Move>) -> Result<Center, AllocError>
    ensures driver { IfOk result (λ new. SameDriver center.driver new.driver) }
    ensures control { IfOk result (λ new. SameControl center.control new.control) }
{
    let Center {
        mut driver,
        mut control,
        mut barrier,
        mut replies,
    } = center;
    for next in moves {
        if let Some(reply) = move_one(&mut driver, &mut control, &mut barrier, next) {
            replies.push(reply)?;
        }
    }
    Ok(Center {
        driver,
        control,
        barrier,
        replies,
    })
}
