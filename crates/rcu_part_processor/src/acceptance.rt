//! How a job is accepted, by a processor that rests and by one of which a claim runs.

ghost use Rattle.std.specs.Prelude.{◌≡◌, ◌<◌, ◌≤◌, Bool, IfOk, IfErr, IsErr, List, None, length};
ghost use Rattle.rcu_numbers.specs.declared.shape.TheConstants.{MOST_CALLS};
ghost use Rattle.rcu_board.specs.Seats.{view, AtBoard, SameSeat, SawShut, accepted_of, fresh_of, own_word};
ghost use Rattle.rcu_board.specs.declared.board.Role.{Role};
ghost use Rattle.rcu_part_lists.specs.ProcessorLists.{holding, passed_on, rear_of};
ghost use Rattle.rcu_lanes.specs.Ends.{SameRear};
ghost use Rattle.rcu_part_processor.specs.Accepting.{Accepts, AcceptsNone, Refuses, IsRefusedByLimit, pieces};
ghost use Rattle.rcu_part_processor.specs.Lawful.{HasPlaces, StaysLocal};
ghost use Rattle.rcu_part_steps.specs.Places.{AreKeyed};
ghost use Rattle.rcu_part_order.specs.Places.{Numbered};

use rcu_board::{Board, Role, Seat};
use rcu_jobs::{Callback, Job, Refused, Ticket};
use rcu_lists::Kind;
use rcu_part_lists::ProcessorLists;
use rcu_part_steps::accept_and_stamp;

/// What a call asks of processor `cpu`, which accepts at most `limit` callbacks.
#[derive(Drop)]
pub(crate) struct Request<J> {
    pub(crate) cpu: u64,
    pub(crate) limit: u64,
    pub(crate) moment: u64,
    pub(crate) kind: Kind,
    pub(crate) job: J,
}

/// Accepts a job of either kind, after `accepted` others. Nothing fails after the accepting exchange.
pub(crate) fn accept_job<J: Job>(
    board: &Board,
    seat: &mut Seat,
    lists: &mut ProcessorLists<J>,
    accepted: &mut u64,
    request: Request<J>,
) -> Result<Ticket, Refused<J>>
    requires board { AtBoard board.now seat.old }
    requires role { seat.old.role ≡ Role.Processor request.cpu }
    requires small { (accepted.old ≤ request.limit) × (request.limit ≤ MOST_CALLS) }
    requires counted { length (accepted_of (view seat.old)) ≡ accepted.old }
    requires stamped { fresh_of (view seat.old) ≡ None }
    requires few { length (passed_on (holding lists.old)) ≤ accepted.old }
    ensures same { SameSeat seat.old seat.new × SameRear (rear_of lists.old) (rear_of lists.new) }
    ensures ok { IfOk result (λ t.
        Accepts request.moment request.kind (J.key_of request.job) request.job t
        (pieces request.cpu request.limit accepted.old seat.old lists.old)
        (pieces request.cpu request.limit accepted.new seat.new lists.new)) }
    ensures err { IfErr result (λ _.
        AcceptsNone (pieces request.cpu request.limit accepted.old seat.old lists.old)
        (pieces request.cpu request.limit accepted.new seat.new lists.new)) }
    ensures refused { IfErr result (λ r.
        Refuses request.job r (pieces request.cpu request.limit accepted.old seat.old lists.old)
        (pieces request.cpu request.limit accepted.new seat.new lists.new)) }
    ensures closed { SawShut request.cpu (view seat.old) → IsErr result }
    ensures full { accepted.old ≡ request.limit → IsRefusedByLimit result }
    ensures small { accepted.new ≤ request.limit }
    ensures word { own_word (view seat.new) ≡ own_word (view seat.old) }
    ensures claims { ((view seat.new).claims ≡ (view seat.old).claims)
        × ((view seat.new).running ≡ (view seat.old).running) }
    ensures places { (claimed : List Numbered)
        → HasPlaces accepted.old (view seat.old) claimed (holding lists.old)
        → HasPlaces accepted.new (view seat.new) claimed (holding lists.new) }
    ensures local { (offloadable : Bool) → StaysLocal offloadable (holding lists.old)
        → StaysLocal offloadable (holding lists.new) }
    ensures keyed { AreKeyed J.key_of (passed_on (holding lists.old))
        → AreKeyed J.key_of (passed_on (holding lists.new)) }
{
    let Request {
        cpu,
        limit,
        moment,
        kind,
        job,
    } = request;
    let number = *accepted;
    if number >= limit {
        return Err(Refused::Limit(job));
    }
    let Ok(()) = lists.reserve() else {
        return Err(Refused::Memory(job));
    };
    let key = job.key();
    let Some(stamp) = accept_and_stamp(board, seat, cpu, number, key) else {
        return Err(Refused::Closed(job));
    };
    *accepted = number + 1;
    let callback = Callback {
        cpu,
        number,
        key,
        stamp,
        job,
    };
    lists.place(moment, kind, callback);
    Ok(Ticket { cpu, number })
}
