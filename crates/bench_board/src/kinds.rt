//! The kinds of step that one seat can make again and again, each as a type.

ghost use Rattle.std.specs.Prelude.{◌≡◌, ◌≤◌, ◌<◌, ◌+◌, ℕ, IsTrue, None, [], length};
ghost use Rattle.rcu_numbers.specs.Words.{owes_of};
ghost use Rattle.rcu_board.specs.declared.board.Board.{Board};
ghost use Rattle.rcu_board.specs.declared.board.Seat.{Seat};
ghost use Rattle.rcu_board.specs.declared.board.Role.TheVariants.{Processor, Driver, Control};
ghost use Rattle.rcu_board.specs.Roles.{MayClaim, MayCount, cpu_of_role};
ghost use Rattle.rcu_board.specs.Words.{accepts_word, asks_word, board_word, halt_word, needed_word, reports_word, turns_word, urge_word, urges_word};
ghost use Rattle.rcu_board.specs.declared.board.Role.{Role};
ghost use Rattle.bench_board.specs.Stays.{HasStepped, StaysSeat};
ghost use Rattle.rcu_board.specs.Seats.{view, AtBoard, accepted_of, fresh_of, own_word};

use rcu_board::{
    Board, Claimed, Seat, accept, ask, asked, claim, come_back, count_of, finish, halt, halted,
    heard, leave, look, need, needed, shut_one, sighted, turn_of, urge,
};

/// How many numbers there are to accept or to claim.
const NUMBERS: u64 = 1_000_000;

/// A kind of step on a board for one processor.
pub(crate) trait Kind: Send + Sync {
    // What the seat needs before the round of this number.
    ghost ready: { Board → Seat → ℕ → Type 0 };

    // The word on which a seat of this role steps.
    ghost word: { Board → Role → ℕ };

    // How many steps on that word a round has.
    ghost steps: { ℕ };

    /// Makes the step. Answers whether another can follow.
    fn step(board: &Board, seat: &mut Seat, number: u64) -> bool
        requires board { AtBoard board.now seat.old }
        requires some { 0 < board.now.processors }
        requires ready { ready board.now seat.old number }
        ensures same { StaysSeat seat.old seat.new }
        ensures ready { IsTrue result → ready board.now seat.new (number + 1) }
        ensures made { IsTrue result
            → HasStepped (word board.now seat.old.role) steps seat.old seat.new };
}

pub(crate) struct Look;

impl Kind for Look {
    ghost ready = { λ board seat number. Unit {0} };

    ghost word = { λ board role. board_word };

    ghost steps = { 1 };

    fn step(board: &Board, seat: &mut Seat, _number: u64) -> bool {
        look(board, seat);
        true
    }
}

/// A step by which the processor is away, and the one by which it is back.
pub(crate) struct Away;

impl Kind for Away {
    ghost ready = { λ board seat number. (seat.role ≡ Processor 0) × (own_word (view seat) ≡ 0) };

    ghost word = { λ board role. reports_word (cpu_of_role role) };

    ghost steps = { 2 };

    fn step(board: &Board, seat: &mut Seat, _number: u64) -> bool {
        leave(board, seat, 0);
        come_back(board, seat) == 0
    }
}

/// The driver's look at a report word.
pub(crate) struct Sighted;

impl Kind for Sighted {
    ghost ready = { λ board seat number. seat.role ≡ Driver };

    ghost word = { λ board role. reports_word 0 };

    ghost steps = { 1 };

    fn step(board: &Board, seat: &mut Seat, _number: u64) -> bool {
        sighted(board, seat, 0);
        true
    }
}

pub(crate) struct Need;

impl Kind for Need {
    ghost ready = { λ board seat number. seat.role ≡ Processor 0 };

    ghost word = { λ board role. needed_word };

    ghost steps = { 1 };

    fn step(board: &Board, seat: &mut Seat, number: u64) -> bool {
        need(board, seat, number);
        true
    }
}

pub(crate) struct Needed;

impl Kind for Needed {
    ghost ready = { λ board seat number. seat.role ≡ Driver };

    ghost word = { λ board role. needed_word };

    ghost steps = { 1 };

    fn step(board: &Board, seat: &mut Seat, _number: u64) -> bool {
        needed(board, seat);
        true
    }
}

/// An accepting step and the look that has to follow.
pub(crate) struct Accept;

impl Kind for Accept {
    ghost ready = { λ board seat number. (seat.role ≡ Processor 0) × (length (accepted_of (view seat)) ≡ number) × (fresh_of (view seat) ≡ None) };

    ghost word = { λ board role. accepts_word (cpu_of_role role) };

    ghost steps = { 1 };

    fn step(board: &Board, seat: &mut Seat, number: u64) -> bool {
        if number >= NUMBERS {
            return false;
        }
        let accepted = accept(board, seat, number, number).is_some();
        look(board, seat);
        accepted
    }
}

pub(crate) struct Shut;

impl Kind for Shut {
    ghost ready = { λ board seat number. seat.role ≡ Control };

    ghost word = { λ board role. accepts_word 0 };

    ghost steps = { 1 };

    fn step(board: &Board, seat: &mut Seat, _number: u64) -> bool {
        shut_one(board, seat, 0);
        true
    }
}

pub(crate) struct Count;

impl Kind for Count {
    ghost ready = { λ board seat number. MayCount seat.role };

    ghost word = { λ board role. accepts_word 0 };

    ghost steps = { 1 };

    fn step(board: &Board, seat: &mut Seat, _number: u64) -> bool {
        count_of(board, seat, 0);
        true
    }
}

/// A claim and the step that finishes it.
pub(crate) struct Claim;

impl Kind for Claim {
    ghost ready = { λ board seat number. MayClaim seat.role × ((view seat).running ≡ []) };

    ghost word = { λ board role. turns_word (cpu_of_role role) };

    ghost steps = { 2 };

    fn step(board: &Board, seat: &mut Seat, number: u64) -> bool {
        if number >= NUMBERS {
            return false;
        }
        let Claimed::Won = claim(board, seat, number) else {
            return false;
        };
        finish(board, seat);
        true
    }
}

pub(crate) struct Turn;

impl Kind for Turn {
    ghost ready = { λ board seat number. MayCount seat.role };

    ghost word = { λ board role. turns_word 0 };

    ghost steps = { 1 };

    fn step(board: &Board, seat: &mut Seat, _number: u64) -> bool {
        turn_of(board, seat, 0);
        true
    }
}

pub(crate) struct Ask;

impl Kind for Ask {
    ghost ready = { λ board seat number. seat.role ≡ Control };

    ghost word = { λ board role. asks_word 0 };

    ghost steps = { 1 };

    fn step(board: &Board, seat: &mut Seat, number: u64) -> bool {
        ask(board, seat, 0, number % 2 == 0);
        true
    }
}

pub(crate) struct Asked;

impl Kind for Asked {
    ghost ready = { λ board seat number. seat.role ≡ Processor 0 };

    ghost word = { λ board role. asks_word (cpu_of_role role) };

    ghost steps = { 1 };

    fn step(board: &Board, seat: &mut Seat, _number: u64) -> bool {
        asked(board, seat);
        true
    }
}

pub(crate) struct Halt;

impl Kind for Halt {
    ghost ready = { λ board seat number. seat.role ≡ Control };

    ghost word = { λ board role. halt_word };

    ghost steps = { 1 };

    fn step(board: &Board, seat: &mut Seat, _number: u64) -> bool {
        halt(board, seat);
        true
    }
}

pub(crate) struct Halted;

impl Kind for Halted {
    ghost ready = { λ board seat number. seat.role ≡ Driver };

    ghost word = { λ board role. halt_word };

    ghost steps = { 1 };

    fn step(board: &Board, seat: &mut Seat, _number: u64) -> bool {
        halted(board, seat);
        true
    }
}

pub(crate) struct Urge;

impl Kind for Urge {
    ghost ready = { λ board seat number. seat.role ≡ Control };

    ghost word = { λ board role. urges_word board.processors 0 };

    ghost steps = { 1 };

    fn step(board: &Board, seat: &mut Seat, _number: u64) -> bool {
        urge(board, seat, 0);
        true
    }
}

pub(crate) struct Hear;

impl Kind for Hear {
    ghost ready = { λ board seat number. (seat.role ≡ Processor 0) × (owes_of board.offloadable 0 ≡ 1) };

    ghost word = { λ board role. urge_word board.processors (cpu_of_role role) };

    ghost steps = { 1 };

    fn step(board: &Board, seat: &mut Seat, _number: u64) -> bool {
        heard(board, seat);
        true
    }
}
