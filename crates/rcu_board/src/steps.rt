//! The steps of the running seats, each on one word (docs/specification/tables.md, "Kinds of atomic step"). Each asks
//! that its seat is one of those that the table names.

ghost use Rattle.std.specs.Prelude.{◌≡◌, ◌≢◌, ℕ, min, ◌+◌, ◌-◌, ◌*◌, ◌/◌, ◌%◌, ◌<◌, ◌≤◌, ◌↔◌, IsTrue, IfSome, IfNone, IsNone, IfOk, IfErr, None, [], length, max, bit_or, bit_and};
ghost use Rattle.std.specs.Int.{from_bool};
ghost use Rattle.rcu_numbers.specs.declared.shape.TheConstants.{MOST_CALLS};
ghost use Rattle.rcu_numbers.specs.declared.sequence.TheConstants.{LAST_NUMBER};
ghost use Rattle.rcu_numbers.specs.Numbers.{IsIdle, IsInProgress};
ghost use Rattle.rcu_numbers.specs.Words.{all_but_of, owes_of};
ghost use Rattle.rcu_board.specs.Words.{accepts_word, turns_word, asks_word, urges_of, urges_word, urge_bits, urge_word, urge_bit, reports_word, period_of};
ghost use Rattle.rcu_board.specs.Views.{sight, seen_at};
ghost use Rattle.rcu_board.specs.Laws.{IsNumber, Accounted};
ghost use Rattle.rcu_board.specs.Plays.{touched, looked, stepped_own, report_own, leave_own, return_own, accepted, claiming, finished, urged};
ghost use Rattle.rcu_board.specs.Roles.{IsProcessor, IsDriver, IsControl, MayNeed, MayCount, MayClaim, MayHalt, cpu_of_role};
ghost use Rattle.rcu_board.specs.Seats.{view, AtBoard, SameSeat, SawShut, MayHear, IsRunning, running_number, own_word, IsAway, IsHere, AllAccounted, accepted_of, fresh_of, count_of_own};
ghost use Rattle.rcu_board.specs.Claims.{IfWon, IfNot};

use crate::board::{Board, Role, Seat};
use crate::plays::{
    Accept, Claim, Count, Drive, Finish, GoOn, Hear, Leave, Load, Look, Meet, Need, Report, Return,
    Shut, Sight, Switch, Urge,
};
use rcu_numbers::{all_but, first_bits};

/// The word of the number and the mask.
pub(crate) const BOARD_WORD: usize = 0;

/// The word of the greatest number asked for.
pub(crate) const NEEDED_WORD: usize = 1;

/// The word that `halt` sets.
pub(crate) const HALT_WORD: usize = 2;

/// Where the accept word of processor 0 stands. The urge words stand where those of the next processors would.
pub(crate) const FIRST_ACCEPTS: usize = 3;

/// Where the turn word of processor 0 stands.
pub(crate) const FIRST_TURNS: usize = 4;

/// Where the word stands that says what processor 0 is asked to be.
pub(crate) const FIRST_ASKS: usize = 5;

/// Where the report word of processor 0 stands.
pub(crate) const FIRST_REPORTS: usize = 6;

/// How many words a processor has.
pub(crate) const WORDS_EACH: usize = 4;

// ---- the board word and `needed`

/// Loads the number. A number of the seat's own that was accepted and has no stamp gets the number seen.
pub fn look(board: &Board, seat: &mut Seat) -> u64
    requires { AtBoard board.now seat.old }
    ensures same { SameSeat seat.old seat.new }
    ensures view { view seat.new ≡ looked result (view seat.old) }
    ensures number { IsNumber result }
    ensures sight { sight (view seat.new) ≡ result }
    ensures driver { seat.old.role ≡ Role.Driver → result ≡ sight (view seat.old) }
{
    board.words.load::<Look>(&mut seat.seat, BOARD_WORD)
}

/// Starts a grace period, where the driver's sight `seq` is idle. No other seat steps there, so a store does.
pub fn start(board: &Board, seat: &mut Seat, seq: u64)
    requires board { AtBoard board.now seat.old }
    requires who { IsDriver seat.old.role }
    requires seen { sight (view seat.old) ≡ seq }
    requires idle { IsIdle seq }
    requires left { seq < LAST_NUMBER }
    ensures same { SameSeat seat.old seat.new }
    ensures view { view seat.new ≡ touched 0 (seq + 1) (view seat.old) }
    ensures sight { sight (view seat.new) ≡ seq + 1 }
{
    board
        .words
        .store::<Drive>(&mut seat.seat, BOARD_WORD, seq + 1);
}

/// Ends the grace period `seq`, where the driver has seen of every processor that it was accounted for.
pub fn end(board: &Board, seat: &mut Seat, seq: u64)
    requires board { AtBoard board.now seat.old }
    requires who { IsDriver seat.old.role }
    requires seen { sight (view seat.old) ≡ seq }
    requires busy { IsInProgress seq }
    requires small { seq ≤ LAST_NUMBER }
    requires all { AllAccounted board.now.processors seq (view seat.old) }
    ensures same { SameSeat seat.old seat.new }
    ensures view { view seat.new ≡ touched 0 (seq + 3) (view seat.old) }
    ensures sight { sight (view seat.new) ≡ seq + 3 }
{
    board
        .words
        .store::<Drive>(&mut seat.seat, BOARD_WORD, seq + 3);
}

/// Reports a quiescent state of the seat's processor in the grace period `seq`, which it looked at, and for which it owes.
pub fn report(board: &Board, seat: &mut Seat, seq: u64)
    requires board { AtBoard board.now seat.old }
    requires who { IsProcessor seat.old.role }
    requires here { IsHere (view seat.old) }
    requires seen { sight (view seat.old) ≡ seq }
    requires busy { IsInProgress seq }
    requires small { seq ≤ LAST_NUMBER }
    requires owes { period_of (own_word (view seat.old)) < seq }
    ensures same { SameSeat seat.old seat.new }
    ensures view { view seat.new
        ≡ stepped_own report_own (reports_word (cpu_of_role seat.old.role)) (2 * seq)
        (view seat.old) }
    ensures counted { period_of (own_word (view seat.old)) ≡ seq - 4 }
{
    let Role::Processor(p) = seat.role else {
        unreachable!()
    };
    board.words.store::<Report>(
        &mut seat.seat,
        FIRST_REPORTS + WORDS_EACH * p as usize,
        2 * seq,
    );
}

/// The seat's processor is away from now on. `period` is the last grace period in which it was accounted for.
pub fn leave(board: &Board, seat: &mut Seat, period: u64)
    requires board { AtBoard board.now seat.old }
    requires who { IsProcessor seat.old.role }
    requires here { own_word (view seat.old) ≡ 2 * period }
    requires small { period ≤ LAST_NUMBER }
    ensures same { SameSeat seat.old seat.new }
    ensures view { view seat.new
        ≡ stepped_own leave_own (reports_word (cpu_of_role seat.old.role)) (2 * period + 1)
        (view seat.old) }
{
    let Role::Processor(p) = seat.role else {
        unreachable!()
    };
    board.words.store::<Leave>(
        &mut seat.seat,
        FIRST_REPORTS + WORDS_EACH * p as usize,
        2 * period + 1,
    );
}

/// The seat's processor is back, and answers in which grace period it was last accounted for.
pub fn come_back(board: &Board, seat: &mut Seat) -> u64
    requires board { AtBoard board.now seat.old }
    requires who { IsProcessor seat.old.role }
    requires away { IsAway (view seat.old) }
    ensures same { SameSeat seat.old seat.new }
    ensures view { view seat.new
        ≡ stepped_own return_own (reports_word (cpu_of_role seat.old.role)) (2 * result)
        (view seat.old) }
    ensures later { period_of (own_word (view seat.old)) ≤ result }
    ensures small { result ≤ LAST_NUMBER }
{
    let Role::Processor(p) = seat.role else {
        unreachable!()
    };
    let found = board
        .words
        .fetch_sub::<Return>(&mut seat.seat, FIRST_REPORTS + WORDS_EACH * p as usize, 1);
    found / 2
}

/// Loads the report word of processor `p`.
pub fn sighted(board: &Board, seat: &mut Seat, p: u64) -> u64
    requires board { AtBoard board.now seat.old }
    requires who { IsDriver seat.old.role }
    requires processor { p < board.now.processors }
    ensures same { SameSeat seat.old seat.new }
    ensures view { view seat.new ≡ touched (reports_word p) result (view seat.old) }
    ensures law { Accounted (sight (view seat.old)) result }
{
    board
        .words
        .load::<Sight>(&mut seat.seat, FIRST_REPORTS + WORDS_EACH * p as usize)
}

/// Accounts for processor `p` in the grace period `seq` on its behalf, where it is away still and was last accounted for
/// in `period`.
///
/// # Errors
///
/// The word as it was, where `p` came back.
pub fn meet(board: &Board, seat: &mut Seat, p: u64, period: u64, seq: u64) -> Result<(), u64>
    requires board { AtBoard board.now seat.old }
    requires who { IsDriver seat.old.role }
    requires processor { p < board.now.processors }
    requires seen { sight (view seat.old) ≡ seq }
    requires busy { IsInProgress seq }
    requires small { seq ≤ LAST_NUMBER }
    requires owes { period < seq }
    ensures same { SameSeat seat.old seat.new }
    ensures won { IfOk result (λ _.
        view seat.new ≡ touched (reports_word p) (2 * seq + 1) (view seat.old)) }
    ensures lost { IfErr result (λ word.
        view seat.new ≡ touched (reports_word p) word (view seat.old)) }
    ensures law { IfErr result (λ word. Accounted seq word) }
    ensures other { IfErr result (λ word. word ≢ 2 * period + 1) }
{
    let old = 2 * period + 1;
    let found = board.words.compare_exchange::<Meet>(
        &mut seat.seat,
        FIRST_REPORTS + WORDS_EACH * p as usize,
        old,
        2 * seq + 1,
    );
    if found == old {
        return Ok(());
    }
    Err(found)
}

/// Asks for the number `seq`, and answers the greatest number that was asked for before.
pub fn need(board: &Board, seat: &mut Seat, seq: u64) -> u64
    requires board { AtBoard board.now seat.old }
    requires who { MayNeed seat.old.role }
    ensures same { SameSeat seat.old seat.new }
    ensures view { view seat.new ≡ touched 1 (max result seq) (view seat.old) }
{
    board
        .words
        .fetch_max::<Need>(&mut seat.seat, NEEDED_WORD, seq)
}

/// Loads the greatest number asked for.
pub fn needed(board: &Board, seat: &mut Seat) -> u64
    requires board { AtBoard board.now seat.old }
    requires who { IsDriver seat.old.role }
    ensures same { SameSeat seat.old seat.new }
    ensures view { view seat.new ≡ touched 1 result (view seat.old) }
{
    board.words.load::<Load>(&mut seat.seat, NEEDED_WORD)
}

// ---- the accept words

/// Accepts one callback more, with this key, and answers its number, which is the old `count`; None where the
/// processor was shut.
pub fn accept(board: &Board, seat: &mut Seat, count: u64, key: u64) -> Option<u64>
    requires board { AtBoard board.now seat.old }
    requires who { IsProcessor seat.old.role }
    requires count { length (accepted_of (view seat.old)) ≡ count }
    requires stamped { fresh_of (view seat.old) ≡ None }
    requires small { count < MOST_CALLS }
    ensures same { SameSeat seat.old seat.new }
    ensures number { IfSome result (λ number. number ≡ count) }
    ensures won { IfSome result (λ number.
        view seat.new
        ≡ accepted (accepts_word (cpu_of_role seat.old.role)) (2 * count + 2) key (view seat.old)) }
    ensures shut { IfNone result
        (view seat.new
        ≡ touched (accepts_word (cpu_of_role seat.old.role)) (2 * count + 1) (view seat.old)) }
    ensures closed { SawShut (cpu_of_role seat.old.role) (view seat.old) → IsNone result }
{
    let Role::Processor(p) = seat.role else {
        unreachable!()
    };
    let old = 2 * count;
    let found = board.words.compare_exchange_with::<Accept>(
        &mut seat.seat,
        FIRST_ACCEPTS + WORDS_EACH * p as usize,
        old,
        old + 2,
        &key,
    );
    if found != old {
        return None;
    }
    Some(count)
}

/// Shuts processor `p`, and answers how many callbacks it had accepted.
pub fn shut_one(board: &Board, seat: &mut Seat, p: u64) -> u64
    requires board { AtBoard board.now seat.old }
    requires who { IsControl seat.old.role }
    requires processor { p < board.now.processors }
    ensures same { SameSeat seat.old seat.new }
    ensures view { view seat.new ≡ touched (accepts_word p) (2 * result + 1) (view seat.old) }
{
    let found = board
        .words
        .fetch_or::<Shut>(&mut seat.seat, FIRST_ACCEPTS + WORDS_EACH * p as usize, 1);
    found / 2
}

/// Loads twice the count of the callbacks that processor `p` accepted, plus 1 once it was shut. To the seat of `p` itself
/// it is the count of its own accepted list, since no other seat accepts there.
pub fn count_of(board: &Board, seat: &mut Seat, p: u64) -> u64
    requires board { AtBoard board.now seat.old }
    requires who { MayCount seat.old.role }
    requires processor { p < board.now.processors }
    ensures same { SameSeat seat.old seat.new }
    ensures view { view seat.new ≡ touched (accepts_word p) result (view seat.old) }
    ensures own { seat.old.role ≡ Role.Processor p → result / 2 ≡ count_of_own (view seat.old) }
{
    board
        .words
        .load::<Count>(&mut seat.seat, FIRST_ACCEPTS + WORDS_EACH * p as usize)
}

// ---- the turn words

/// What a claim met.
#[derive(Clone, Copy, Debug, PartialEq, Eq)]
pub enum Claimed {
    /// The claim runs.
    Won,
    /// It was not this number's turn: the turn word as it was found.
    Not(u64),
}

/// Claims `number` of the seat's own processor.
pub fn claim(board: &Board, seat: &mut Seat, number: u64) -> Claimed
    requires board { AtBoard board.now seat.old }
    requires who { MayClaim seat.old.role }
    requires rests { (view seat.old).running ≡ [] }
    requires small { number < MOST_CALLS }
    ensures same { SameSeat seat.old seat.new }
    ensures won { let p = cpu_of_role seat.old.role in
        IfWon result
        (view seat.new ≡ claiming (turns_word p) (2 * number + 1) p number (view seat.old)) }
    ensures lost { IfNot result (λ word.
        view seat.new ≡ touched (turns_word (cpu_of_role seat.old.role)) word (view seat.old)) }
    ensures other { IfNot result (λ word. word ≢ 2 * number) }
{
    let p = cpu(&seat.role);
    let old = 2 * number;
    let found = board.words.compare_exchange::<Claim>(
        &mut seat.seat,
        FIRST_TURNS + WORDS_EACH * p as usize,
        old,
        old + 1,
    );
    if found != old {
        return Claimed::Not(found);
    }
    Claimed::Won
}

/// Ends the claim that runs.
pub fn finish(board: &Board, seat: &mut Seat)
    requires board { AtBoard board.now seat.old }
    requires who { MayClaim seat.old.role }
    requires runs { IsRunning (cpu_of_role seat.old.role) (view seat.old) }
    ensures same { SameSeat seat.old seat.new }
    ensures view { view seat.new
        ≡ finished (turns_word (cpu_of_role seat.old.role)) (2 * running_number (view seat.old) + 2)
        (view seat.old) }
{
    let p = cpu(&seat.role);
    board
        .words
        .fetch_add::<Finish>(&mut seat.seat, FIRST_TURNS + WORDS_EACH * p as usize, 1);
}

/// Ends the claim that runs, and claims the next number, by one step: nobody else sees what would stand between.
pub fn go_on(board: &Board, seat: &mut Seat)
    requires board { AtBoard board.now seat.old }
    requires who { MayClaim seat.old.role }
    requires runs { IsRunning (cpu_of_role seat.old.role) (view seat.old) }
    ensures same { SameSeat seat.old seat.new }
    ensures view { let p = cpu_of_role seat.old.role in let k = running_number (view seat.old) in
        view seat.new ≡ claiming (turns_word p) (2 * (k + 1) + 1) p (k + 1)
        (finished (turns_word p) (2 * k + 2) (view seat.old)) }
    ensures later { seen_at (view seat.old) (turns_word (cpu_of_role seat.old.role))
        ≤ 2 * running_number (view seat.old) + 1 }
{
    let p = cpu(&seat.role);
    board
        .words
        .fetch_add::<GoOn>(&mut seat.seat, FIRST_TURNS + WORDS_EACH * p as usize, 2);
}

/// Loads twice the number of the next callback of processor `p` to run, plus 1 while it runs.
pub fn turn_of(board: &Board, seat: &mut Seat, p: u64) -> u64
    requires board { AtBoard board.now seat.old }
    requires who { MayCount seat.old.role }
    requires processor { p < board.now.processors }
    ensures same { SameSeat seat.old seat.new }
    ensures view { view seat.new ≡ touched (turns_word p) result (view seat.old) }
{
    board
        .words
        .load::<Load>(&mut seat.seat, FIRST_TURNS + WORDS_EACH * p as usize)
}

/// The processor whose seat or hand it is.
fn cpu(role: &Role) -> u64
    requires { MayClaim role.now }
    ensures { result ≡ cpu_of_role role.now }
{
    match role {
        Role::Processor(p) | Role::Hand(p) => *p,
        _ => unreachable!(),
    }
}

// ---- switches and urging

/// Asks that processor `p` be offloaded (`on`) or local.
pub fn ask(board: &Board, seat: &mut Seat, p: u64, on: bool)
    requires board { AtBoard board.now seat.old }
    requires who { IsControl seat.old.role }
    requires processor { p < board.now.processors }
    ensures same { SameSeat seat.old seat.new }
    ensures view { view seat.new ≡ touched (asks_word p) (from_bool on) (view seat.old) }
{
    board.words.store::<Switch>(
        &mut seat.seat,
        FIRST_ASKS + WORDS_EACH * p as usize,
        u64::from(on),
    );
}

/// Whether the seat's processor was last asked to be offloaded.
pub fn asked(board: &Board, seat: &mut Seat) -> bool
    requires board { AtBoard board.now seat.old }
    requires who { IsProcessor seat.old.role }
    ensures same { SameSeat seat.old seat.new }
    ensures view { view seat.new
        ≡ touched (asks_word (cpu_of_role seat.old.role)) (from_bool result) (view seat.old) }
{
    let Role::Processor(p) = seat.role else {
        unreachable!()
    };
    let found = board
        .words
        .load::<Switch>(&mut seat.seat, FIRST_ASKS + WORDS_EACH * p as usize);
    found == 1
}

/// Sets the halt word.
pub fn halt(board: &Board, seat: &mut Seat)
    requires board { AtBoard board.now seat.old }
    requires who { IsControl seat.old.role }
    ensures same { SameSeat seat.old seat.new }
    ensures view { view seat.new ≡ touched 2 1 (view seat.old) }
{
    board.words.store::<Switch>(&mut seat.seat, HALT_WORD, 1);
}

/// Whether the halt word was set.
pub fn halted(board: &Board, seat: &mut Seat) -> bool
    requires board { AtBoard board.now seat.old }
    requires who { MayHalt seat.old.role }
    ensures same { SameSeat seat.old seat.new }
    ensures view { view seat.new ≡ touched 2 (from_bool result) (view seat.old) }
{
    board.words.load::<Switch>(&mut seat.seat, HALT_WORD) == 1
}

/// How many urge words there are: the processors share one in 64.
pub fn urge_words(board: &Board) -> u64
    ensures { result ≡ urges_of board.now.processors }
{
    board.processors.div_ceil(64)
}

/// Urges each processor that shares the `k`-th urge word to release its bypass list: those from `64 * k` on.
pub fn urge(board: &Board, seat: &mut Seat, k: u64)
    requires board { AtBoard board.now seat.old }
    requires who { MayCount seat.old.role }
    requires word { k < urges_of board.now.processors }
    ensures same { SameSeat seat.old seat.new }
    ensures view { let i = urges_word board.now.processors k in
        let found = seen_at (view seat.new) i in
        view seat.new ≡ urged i found (bit_or found (urge_bits board.now.processors k))
        (view seat.old) }
{
    let sharing = (board.processors - 64 * k).min(64);
    let urge_word = FIRST_ACCEPTS + WORDS_EACH * (board.processors + k) as usize;
    board
        .words
        .fetch_or::<Urge>(&mut seat.seat, urge_word, first_bits(sharing));
}

/// Whether the seat's processor was urged since it last asked.
pub fn heard(board: &Board, seat: &mut Seat) -> bool
    requires board { AtBoard board.now seat.old }
    requires who { MayHear board.now seat.old.role }
    ensures same { SameSeat seat.old seat.new }
    ensures view { let p = cpu_of_role seat.old.role in
        let i = urge_word board.now.processors p in
        let found = seen_at (view seat.new) i in
        view seat.new
        ≡ urged i found (bit_and found (all_but_of (urge_bit p))) (view seat.old) }
    ensures heard { let p = cpu_of_role seat.old.role in
        IsTrue result
        ↔ (owes_of (seen_at (view seat.new) (urge_word board.now.processors p)) (urge_bit p) ≡ 1) }
{
    let Role::Processor(p) = seat.role else {
        unreachable!()
    };
    let urge_word = FIRST_ACCEPTS + WORDS_EACH * (board.processors + p / 64) as usize;
    let found = board
        .words
        .fetch_and::<Hear>(&mut seat.seat, urge_word, all_but(p % 64));
    (found >> (p % 64)) & 1 == 1
}
