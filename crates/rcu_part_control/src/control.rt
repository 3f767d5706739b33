//! The part that asks for switches, shuts, opens barriers and halts.

ghost use Rattle.std.specs.Prelude.{◌≡◌, ◌≤◌};
ghost use Rattle.std.specs.Arc.{arc_value};
ghost use Rattle.rcu_numbers.specs.declared.set.TheConstants.{PARTS_PROCESSORS};
ghost use Rattle.rcu_board.specs.Seats.{view, AtBoard};
ghost use Rattle.rcu_board.specs.declared.board.Role.{Role};
ghost use Rattle.rcu_board.specs.Frames.{IsBare};

use crate::barrier::{Barrier, ReadsTurns, check_tickets, read_counts, urge_all};
use rcu_board::{Board, Role, Seat, ask, halt, shut_one, turn_of};
use rcu_jobs::{BarrierFault, Counts, SwitchFault, Ticket};
use std::alloc::Global;
use std::sync::Arc;

/// Control: it asks for switches, shuts, opens barriers and halts.
#[derive(Drop)]
pub struct Control {
    pub(crate) board: Arc<Board, Global>,
    pub(crate) seat: Seat,
    ghost here: { AtBoard (arc_value board) seat },
    ghost role: { seat.role ≡ Role.Control },
    ghost bare: { IsBare (view seat) },
}

impl Control {
    ghost use Rattle.std.specs.Int.{from_bool};
    ghost use Rattle.rcu_board.specs.Plays.{touched};
    ghost use Rattle.rcu_board.specs.Words.{halt_word};
    ghost use Rattle.rcu_part_control.specs.Parts.{control_board, control_seat, control_view, SameControl};
    ghost use Rattle.rcu_part_control.specs.Control.{SwitchesBy, Shuts, CountsAgain};
    ghost use Rattle.rcu_part_control.specs.Barriers.{OpensBy};

    /// Control of a board, from its seat.
    pub fn new(board: Arc<Board, Global>, seat: Seat) -> Control
        requires here { AtBoard (arc_value board) seat }
        requires role { seat.role ≡ Role.Control }
        requires bare { IsBare (view seat) }
        ensures board { control_board result ≡ arc_value board }
        ensures seat { control_seat result ≡ seat }
    {
        Control { board, seat }
    }

    /// How many processors there are, 1 to 1024: as many as a barrier counts that this board's parts may poll.
    pub fn processors(&self) -> u64
        ensures board { result ≡ (control_board self.now).processors }
        ensures few { result ≤ PARTS_PROCESSORS }
    {
        self.board.processors()
    }

    /// Asks that processor `p` be offloaded, which its next tick heeds.
    ///
    /// # Errors
    ///
    /// Refusal 6 where there is no such processor, then refusal 5 where it isn't offloadable. Nothing is asked for.
    pub fn offload(&mut self, p: u64) -> Result<(), SwitchFault>
        ensures same { SameControl self.old self.new }
        ensures asks { SwitchesBy (control_board self.old) p 1 result (control_view self.old)
            (control_view self.new) }
    {
        self.switch(p, true)
    }

    /// Asks that processor `p` be local, which its next tick heeds.
    ///
    /// # Errors
    ///
    /// As [`offload`](Control::offload).
    pub fn deoffload(&mut self, p: u64) -> Result<(), SwitchFault>
        ensures same { SameControl self.old self.new }
        ensures asks { SwitchesBy (control_board self.old) p 0 result (control_view self.old)
            (control_view self.new) }
    {
        self.switch(p, false)
    }

    /// Asks that processor `p` be offloaded (`on`) or local.
    fn switch(&mut self, p: u64, on: bool) -> Result<(), SwitchFault>
        ensures same { SameControl self.old self.new }
        ensures asks { SwitchesBy (control_board self.old) p (from_bool on) result
            (control_view self.old) (control_view self.new) }
    {
        if p >= self.processors() {
            return Err(SwitchFault::NoProcessor(p));
        }
        if !self.board.is_offloadable(p) {
            return Err(SwitchFault::NotOffloadable(p));
        }
        ask(&self.board, &mut self.seat, p, on);
        Ok(())
    }

    /// Shuts every processor, and answers the final counts of what they accepted: a second time the same ones.
    pub fn shut(&mut self) -> Counts
        ensures same { SameControl self.old self.new }
        ensures many { result.n ≡ (control_board self.old).processors }
        ensures shuts { Shuts (control_board self.old).processors result (control_view self.old)
            (control_view self.new) }
        ensures again { CountsAgain (control_board self.old).processors result
            (control_view self.old) }
    {
        let n = self.processors();
        let mut counts = Counts::new(n);
        for p in 0..n {
            let count = shut_one(&self.board, &mut self.seat, p);
            counts.set(p, count);
        }
        counts
    }

    /// Opens a barrier for what each processor has accepted when its count is read, which are the callbacks of these tickets
    /// at least, and then urges every processor to release its bypass list.
    ///
    /// # Errors
    ///
    /// The first fault in the order of the tickets: refusal 6 where there is no such processor, refusal 7 where the
    /// processor's count isn't above the ticket's number. No processor is urged.
    pub fn barrier(&mut self, tickets: &[Ticket]) -> Result<Barrier, BarrierFault>
        ensures same { SameControl self.old self.new }
        ensures opens { OpensBy (control_board self.old).processors tickets.now result
            (control_view self.old) (control_view self.new) }
    {
        let counts = read_counts(&self.board, &mut self.seat);
        if let Err(fault) = check_tickets(&counts, tickets) {
            return Err(fault);
        }
        urge_all(&self.board, &mut self.seat);
        Ok(Barrier { counts })
    }

    /// Sets the halt word, by which `run` of all parts ends.
    pub fn finish(&mut self)
        ensures same { SameControl self.old self.new }
        ensures halts { control_view self.new ≡ touched halt_word 1 (control_view self.old) }
    {
        halt(&self.board, &mut self.seat)
    }

    /// Control's board and seat, which `close` begins with.
    pub fn into_parts(self) -> (Arc<Board, Global>, Seat)
        ensures { (arc_value result.0 ≡ control_board self) × (result.1 ≡ control_seat self) }
    {
        (self.board, self.seat)
    }
}

impl ReadsTurns for Control {
    ghost use Rattle.rcu_part_control.specs.Parts.{control_board, control_seat};

    ghost board_of = { control_board };

    ghost seat_of = { control_seat };

    ghost keeps = { λ c d. Unit {0} };

    fn read_turn(&mut self, p: u64) -> u64 {
        turn_of(&self.board, &mut self.seat, p)
    }

    ghost keeps_itself = { λ c. record {} };

    ghost keeps_again = { λ b c d x y. record {} };
}
