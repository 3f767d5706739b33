//! Steps of a processor's or a hand's seat that belong together.

ghost use Rattle.std.specs.Prelude.{◌≡◌, ◌≢◌, ℕ, ◌+◌, ◌*◌, ◌<◌, ◌≤◌, [], None, IfSome, IfNone, IsNone, length, true, false};
ghost use Rattle.rcu_numbers.specs.declared.sequence.TheConstants.{LAST_NUMBER};
ghost use Rattle.rcu_numbers.specs.declared.shape.TheConstants.{MOST_CALLS};
ghost use Rattle.rcu_board.specs.Plays.{looked, touched, accepted};
ghost use Rattle.rcu_board.specs.Roles.{MayClaim, cpu_of_role};
ghost use Rattle.rcu_board.specs.Seats.{view, AtBoard, SameSeat, SawShut, IsRunning, own_word, accepted_of, fresh_of, running_number};
ghost use Rattle.rcu_board.specs.Views.{seen_at, sight};
ghost use Rattle.rcu_board.specs.Words.{accepts_word, turns_word};
ghost use Rattle.rcu_board.specs.declared.board.Role.{Role};
ghost use Rattle.rcu_part_steps.specs.Changes.{Keeps, Enters, Claims, Finishes, GoesOn, Tells, StepsOnly};
ghost use Rattle.rcu_part_steps.specs.Reports.{Reports};

use rcu_board::{Board, Claimed, Seat, accept, claim, finish, go_on, look, report};

/// Accepts one callback more, and then looks, which gives its stamp. None where the processor was shut.
pub fn accept_and_stamp(
    board: &Board,
    seat: &mut Seat,
    cpu: u64,
    count: u64,
    key: u64,
) -> Option<u64>
    requires board { AtBoard board.now seat.old }
    requires role { seat.old.role ≡ Role.Processor cpu }
    requires count { length (accepted_of (view seat.old)) ≡ count }
    requires stamped { fresh_of (view seat.old) ≡ None }
    requires small { count < MOST_CALLS }
    ensures same { SameSeat seat.old seat.new }
    ensures enters { IfSome result (λ word. Enters key word (view seat.old) (view seat.new)) }
    ensures view { IfSome result (λ word.
        view seat.new
        ≡ looked word (accepted (accepts_word cpu) (2 * count + 2) key (view seat.old))) }
    ensures stamp { IfSome result (λ word.
        (word ≡ sight (view seat.new)) × (word ≤ LAST_NUMBER)) }
    ensures keeps { IfNone result (Keeps (view seat.old) (view seat.new)) }
    ensures shut { IfNone result
        (view seat.new ≡ touched (accepts_word cpu) (2 * count + 1) (view seat.old)) }
    ensures closed { SawShut cpu (view seat.old) → IsNone result }
{
    accept(board, seat, count, key)?;
    Some(look(board, seat))
}

/// Reports a quiescent state, where the processor, which is here, owes one: `passed` is the last grace period that it
/// passed. Answers the number of the grace period that counted it.
pub fn report_quiescent_state(board: &Board, seat: &mut Seat, cpu: u64, passed: u64) -> Option<u64>
    requires board { AtBoard board.now seat.old }
    requires role { seat.old.role ≡ Role.Processor cpu }
    requires stamped { fresh_of (view seat.old) ≡ None }
    requires here { own_word (view seat.old) ≡ 2 * passed }
    ensures same { SameSeat seat.old seat.new }
    ensures tells { Tells (view seat.old) (view seat.new) }
    ensures reports { Reports cpu result (view seat.old) (view seat.new) }
{
    let seq = look(board, seat);
    if seq % 4 == 0 || seq <= passed {
        return None;
    }
    report(board, seat, seq);
    Some(seq)
}

/// Looks at the number, by the seat of any part.
pub fn look_at_number(board: &Board, seat: &mut Seat) -> u64
    requires board { AtBoard board.now seat.old }
    ensures same { SameSeat seat.old seat.new }
    ensures view { view seat.new ≡ looked result (view seat.old) }
    ensures claims { ((view seat.new).claims ≡ (view seat.old).claims)
        × ((view seat.new).running ≡ (view seat.old).running) }
    ensures sight { (result ≡ sight (view seat.new)) × (result ≤ LAST_NUMBER) }
{
    look(board, seat)
}

/// A processor's or a hand's claim: whether it was won, at the board sight that there is.
pub fn try_claim(board: &Board, seat: &mut Seat, cpu: u64, number: u64) -> bool
    requires board { AtBoard board.now seat.old }
    requires who { MayClaim seat.old.role }
    requires cpu { cpu_of_role seat.old.role ≡ cpu }
    requires rests { (view seat.old).running ≡ [] }
    requires small { number < MOST_CALLS }
    ensures same { SameSeat seat.old seat.new }
    ensures won { result ≡ true → Claims cpu number (view seat.old) (view seat.new) }
    ensures lost { result ≡ false
        → Keeps (view seat.old) (view seat.new) × (sight (view seat.new) ≡ sight (view seat.old))
        × (seen_at (view seat.new) (turns_word cpu) ≢ 2 * number) }
    ensures only { StepsOnly (turns_word cpu) 1 (view seat.old) (view seat.new) }
{
    match claim(board, seat, number) {
        Claimed::Won => true,
        Claimed::Not(_) => false,
    }
}

/// Ends the claim that runs.
pub fn end_claim(board: &Board, seat: &mut Seat)
    requires board { AtBoard board.now seat.old }
    requires who { MayClaim seat.old.role }
    requires runs { IsRunning (cpu_of_role seat.old.role) (view seat.old) }
    ensures same { SameSeat seat.old seat.new }
    ensures ends { Finishes (view seat.old) (view seat.new) }
    ensures only { StepsOnly (turns_word (cpu_of_role seat.old.role)) 1 (view seat.old)
        (view seat.new) }
{
    finish(board, seat)
}

/// Ends the claim that runs, and claims the next number, by one step: an end and a claim, and nobody saw what would stand
/// between.
pub fn end_and_claim(board: &Board, seat: &mut Seat)
    requires board { AtBoard board.now seat.old }
    requires who { MayClaim seat.old.role }
    requires runs { IsRunning (cpu_of_role seat.old.role) (view seat.old) }
    ensures same { SameSeat seat.old seat.new }
    ensures goes_on { GoesOn (cpu_of_role seat.old.role) (running_number (view seat.old))
        (view seat.old) (view seat.new) }
{
    go_on(board, seat)
}
