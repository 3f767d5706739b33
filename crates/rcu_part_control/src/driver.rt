//! The part that starts and ends all grace periods.

ghost use Rattle.std.specs.Prelude.{◌≡◌, ◌<◌, ◌≤◌, IsTrue, false};
ghost use Rattle.rcu_numbers.specs.declared.sequence.TheConstants.{LAST_NUMBER};
ghost use Rattle.std.specs.Arc.{arc_value};
ghost use Rattle.rcu_board.specs.Seats.{view, AtBoard};
ghost use Rattle.rcu_board.specs.declared.board.Role.{Role};
ghost use Rattle.rcu_board.specs.Frames.{IsBare};
ghost use Rattle.rcu_part_control.specs.Driving.{HasSeen};

use rcu_board::{Board, Role, Seat, end, halted, look, meet, needed, sighted, start};
use rcu_jobs::DriverTurn;
use rcu_numbers::LAST_NUMBER;
use std::alloc::Global;
use std::sync::Arc;

/// The driver: it starts and ends all grace periods.
#[derive(Drop)]
pub struct Driver {
    board: Arc<Board, Global>,
    seat: Seat,
    /// Of how many processors, from 0 on, it has seen that they were accounted for in the grace period in progress.
    seen: u64,
    ghost here: { AtBoard (arc_value board) seat },
    ghost role: { seat.role ≡ Role.Driver },
    ghost bare: { IsBare (view seat) },
    ghost round: { HasSeen seen (view seat) },
}

impl Driver {
    ghost use Rattle.std.specs.Int.{from_bool};
    ghost use Rattle.rcu_board.specs.Views.{sight, seen_at, tally};
    ghost use Rattle.rcu_board.specs.Plays.{touched};
    ghost use Rattle.rcu_board.specs.Words.{board_word, halt_word, reports_word, period_of};
    ghost use Rattle.rcu_numbers.specs.Numbers.{IsIdle, IsInProgress};
    ghost use Rattle.rcu_part_control.specs.Parts.{driver_board, driver_seat, driver_view, SameDriver};
    ghost use Rattle.rcu_board.specs.Frames.{StepsAt};
    ghost use Rattle.rcu_part_control.specs.Driving.{DrivesBy, BeginsBy, ConcludesBy, SawOwing};

    /// The driver of a board, from its seat.
    pub fn new(board: Arc<Board, Global>, seat: Seat) -> Driver
        requires here { AtBoard (arc_value board) seat }
        requires role { seat.role ≡ Role.Driver }
        requires bare { IsBare (view seat) }
        ensures board { driver_board result ≡ arc_value board }
        ensures seat { driver_seat result ≡ seat }
    {
        Driver {
            board,
            seat,
            seen: 0,
        }
    }

    /// One turn: a look, and then one step at most on what it found. Where no grace period is in progress it reads what is
    /// needed, and starts one if that is above the number. Else it goes on with its round over the report words, from the
    /// processor that it waited for: it accounts for those that are away, waits for the first that owes a report, and ends
    /// the grace period where none does.
    pub fn turn(&mut self) -> DriverTurn
        ensures same { SameDriver self.old self.new }
        ensures turn { DrivesBy (driver_board self.old).processors result (driver_view self.old)
            (driver_view self.new) }
        ensures fresh { tally (driver_view self.old) board_word
            < tally (driver_view self.new) board_word }
    {
        let seq = look(&self.board, &mut self.seat);
        if seq % 4 == 0 {
            self.begin(seq)
        } else {
            self.conclude(seq)
        }
    }

    /// The step on an idle number, which the look found.
    fn begin(&mut self, seq: u64) -> DriverTurn
        requires seen { sight (driver_view self.old) ≡ seq }
        requires idle { IsIdle seq }
        requires small { seq ≤ LAST_NUMBER }
        ensures same { SameDriver self.old self.new }
        ensures begins { BeginsBy result (driver_view self.old) (driver_view self.new) }
    {
        let asked = needed(&self.board, &mut self.seat);
        if asked <= seq {
            return DriverTurn::Idle;
        }
        if seq >= LAST_NUMBER {
            return DriverTurn::Spent;
        }
        self.seen = 0;
        start(&self.board, &mut self.seat, seq);
        DriverTurn::Started(seq + 1)
    }

    /// The step on a number in progress, which the look found.
    fn conclude(&mut self, seq: u64) -> DriverTurn
        requires seen { sight (driver_view self.old) ≡ seq }
        requires busy { IsInProgress seq }
        requires small { seq ≤ LAST_NUMBER }
        ensures same { SameDriver self.old self.new }
        ensures concludes { ConcludesBy (driver_board self.old).processors result
            (driver_view self.old) (driver_view self.new) }
    {
        for p in self.seen..self.board.processors() {
            if !self.account(p, seq) {
                return DriverTurn::Waits(p);
            }
            self.seen = p + 1;
        }
        end(&self.board, &mut self.seat, seq);
        DriverTurn::Ended(seq + 3)
    }

    /// Whether processor `p` was accounted for in the grace period `seq`. Where it is away, this does it.
    fn account(&mut self, p: u64, seq: u64) -> bool
        requires processor { p < (driver_board self.old).processors }
        requires next { self.old.seen ≤ p }
        requires seen { sight (driver_view self.old) ≡ seq }
        requires busy { IsInProgress seq }
        requires small { seq ≤ LAST_NUMBER }
        ensures same { SameDriver self.old self.new }
        ensures steps { StepsAt (reports_word p) (driver_view self.old) (driver_view self.new) }
        ensures accounted { IsTrue result
            → period_of (seen_at (driver_view self.new) (reports_word p)) ≡ seq }
        ensures owes { result ≡ false → SawOwing p seq (driver_view self.new) }
        ensures round { self.new.seen ≡ self.old.seen }
    {
        let word = sighted(&self.board, &mut self.seat, p);
        if word / 2 == seq {
            return true;
        }
        if word % 2 == 0 {
            return false;
        }
        match meet(&self.board, &mut self.seat, p, word / 2, seq) {
            Ok(()) => true,
            Err(found) => found / 2 == seq,
        }
    }

    /// Whether the runtime was halted.
    pub fn is_halted(&mut self) -> bool
        ensures same { SameDriver self.old self.new }
        ensures view { driver_view self.new
            ≡ touched halt_word (from_bool result) (driver_view self.old) }
    {
        halted(&self.board, &mut self.seat)
    }

    /// The driver's seat, which `close` takes in.
    pub fn into_seat(self) -> Seat
        ensures { result ≡ driver_seat self }
    {
        self.seat
    }
}
