//! Barriers: docs/specification/rules.md, "The calls, step by step", `barrier` and `poll`.

ghost use Rattle.std.specs.Prelude.{◌≡◌, ◌<◌, ◌≤◌, ℕ, IfOk, IfErr, Some, IfNone, [], ◌∷◌};
ghost use Rattle.rcu_board.specs.Plays.{touched};
ghost use Rattle.rcu_board.specs.Roles.{MayCount};
ghost use Rattle.rcu_board.specs.Seats.{view, AtBoard, SameSeat};
ghost use Rattle.rcu_board.specs.Views.{seen_at};
ghost use Rattle.rcu_board.specs.Words.{turns_word};
ghost use Rattle.rcu_board.specs.declared.board.Board.{Board};
ghost use Rattle.rcu_board.specs.declared.board.Seat.{Seat};
ghost use Rattle.rcu_board.specs.Frames.{SamePart};
ghost use Rattle.rcu_part_control.specs.Barriers.{ReadsCounts, CountsItsOwn, Urges, Opens, PollsBy, AreCounted, count_at, first_fault, ticket_fault};

use rcu_board::{Board, Seat, count_of, urge, urge_words};
use rcu_jobs::{BarrierFault, Counts, Passed, Ticket};

/// A part whose seat may read turn words: a processor or control (docs/specification/tables.md, "Kinds of atomic step").
pub trait ReadsTurns {
    // The part's board.
    ghost board_of: { Self → Board };

    // Its seat.
    ghost seat_of: { Self → Seat };

    // What the load of a turn word keeps of the part beside its board and its seat: of a processor, its callbacks and
    // its records.
    ghost keeps: { Self → Self → Type 0 };

    /// Loads the turn word of processor `p`.
    fn read_turn(&mut self, p: u64) -> u64
        requires { p < (board_of self.old).processors }
        ensures here { AtBoard (board_of self.old) (seat_of self.old) }
        ensures same { SamePart (board_of self.old) (board_of self.new) (seat_of self.old)
            (seat_of self.new) }
        ensures keeps { keeps self.old self.new }
        ensures view { view (seat_of self.new)
            ≡ touched (turns_word p) result (view (seat_of self.old)) };

    // A part keeps itself, and what two loads keep, both keep.
    ghost keeps_itself: { (w : Self) → keeps w w };

    ghost keeps_again: { (u v w : Self) → keeps u v → keeps v w → keeps u w };
}

/// A barrier that is open: how many callbacks each processor had accepted when it was opened.
#[derive(Clone, Copy, Debug, PartialEq, Eq)]
pub struct Barrier {
    pub counts: Counts,
}

/// Loads the accept word of each processor. The halves are the counts.
pub(crate) fn read_counts(board: &Board, seat: &mut Seat) -> Counts
    requires board { AtBoard board.now seat.old }
    requires who { MayCount seat.old.role }
    ensures same { SameSeat seat.old seat.new }
    ensures many { result.n ≡ board.now.processors }
    ensures reads { ReadsCounts board.now.processors result (view seat.old) (view seat.new) }
    ensures own { CountsItsOwn board.now.processors result seat.old }
{
    let n = board.processors();
    let mut counts = Counts::new(n);
    for p in 0..n {
        let accepted = count_of(board, seat, p);
        counts.set(p, accepted / 2);
    }
    counts
}

/// Urges every processor to release its bypass list.
pub(crate) fn urge_all(board: &Board, seat: &mut Seat)
    requires board { AtBoard board.now seat.old }
    requires who { MayCount seat.old.role }
    ensures same { SameSeat seat.old seat.new }
    ensures urges { Urges board.now.processors (view seat.old) (view seat.new) }
{
    for k in 0..urge_words(board) {
        urge(board, seat, k);
    }
}

/// Opens a barrier: reads the count of each processor, and then urges them all to release their bypass lists. A
/// processor's seat counts each callback that it has accepted itself.
pub fn open_barrier(board: &Board, seat: &mut Seat) -> Barrier
    requires board { AtBoard board.now seat.old }
    requires who { MayCount seat.old.role }
    ensures same { SameSeat seat.old seat.new }
    ensures opens { Opens board.now.processors result (view seat.old) (view seat.new) }
    ensures own { CountsItsOwn board.now.processors result.counts seat.old }
{
    let counts = read_counts(board, seat);
    urge_all(board, seat);
    Barrier { counts }
}

/// What is wrong with a ticket, if anything is.
fn check_ticket(counts: &Counts, ticket: &Ticket) -> Option<BarrierFault>
    ensures fault { result ≡ ticket_fault counts.now ticket.now }
    ensures counted { IfNone result
        ((ticket.now.cpu < counts.now.n)
        × (ticket.now.number < count_at counts.now ticket.now.cpu)) }
{
    let Ticket { cpu, number } = *ticket;
    if cpu >= counts.n {
        return Some(BarrierFault::NoProcessor(cpu));
    }
    let count = counts.counts[cpu as usize];
    if count <= number {
        return Some(BarrierFault::Ahead { cpu, count });
    }
    None
}

/// Whether the callback of each ticket is counted.
///
/// # Errors
///
/// The first fault in the order of the tickets.
pub(crate) fn check_tickets(counts: &Counts, tickets: &[Ticket]) -> Result<(), BarrierFault>
    ensures counted { IfOk result (λ _. AreCounted counts.now tickets.now) }
    ensures fault { IfErr result (λ fault. first_fault counts.now tickets.now ≡ Some fault) }
{
    for ticket in tickets {
        if let Some(fault) = check_ticket(counts, ticket) {
            return Err(fault);
        }
    }
    Ok(())
}

impl Barrier {
    /// Reads turn words, and passes once each is at least twice its count. A barrier that passed passes again.
    pub fn poll<W: ReadsTurns>(&mut self, by: &mut W) -> Option<Passed>
        requires open { (W.board_of by.old).processors ≡ self.old.counts.n }
        ensures barrier { self.new ≡ self.old }
        ensures same { SamePart (W.board_of by.old) (W.board_of by.new) (W.seat_of by.old)
            (W.seat_of by.new) }
        ensures keeps { W.keeps by.old by.new }
        ensures polls { PollsBy self.old.counts result (view (W.seat_of by.old))
            (view (W.seat_of by.new)) }
    {
        for p in 0..self.counts.n {
            if by.read_turn(p) / 2 < self.counts.counts[p as usize] {
                return None;
            }
        }
        Some(Passed {
            counts: self.counts,
        })
    }
}
