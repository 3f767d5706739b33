//! Laws of places, which follow from their definitions alone: there is no code here.

ghost use Rattle.std.specs.Prelude.{◌≡◌, ◌<◌, ◌≤◌, ◌+◌, ◌++◌, ◌∷◌, [], ℕ, List, length};
ghost use Rattle.rcu_part_order.specs.Order.{Next, Remaining, between, times};
ghost use Rattle.rcu_part_order.specs.Passing.{Passed};
ghost use Rattle.rcu_part_order.specs.Places.{Accepted, Numbered, Placed, numbered, with_number};
ghost use Rattle.rcu_jobs.specs.Records.{Given};
ghost use Rattle.rcu_jobs.specs.declared.callback.Record.{Record};
ghost use Rattle.rcu_part_order.specs.Records.{AreOfBoth, AreRipe, AreSeenBy, by_number, numbered_records};

use rcu_jobs::Job;

/// How the places of a processor's own part change: a number that is accepted is held behind the others; the first that is
/// held may be claimed; the first ones that are held may be put, as one batch.
pub fn places_of_a_processor()
    ensures none { Placed [] [] [] [] }
    ensures accepts { (accepted : List Accepted) (ran put held : List Numbered) (x : Accepted)
        → Placed accepted ran put held
        → Placed (accepted ++ x ∷ []) ran put (held ++ with_number (length accepted) x ∷ []) }
    ensures claims { (accepted : List Accepted) (ran put held : List Numbered) (x : Numbered)
        → Placed accepted ran put (x ∷ held) → Placed accepted (ran ++ x ∷ []) put held }
    ensures puts { (accepted : List Accepted) (ran put batch held : List Numbered)
        → Placed accepted ran put (batch ++ held) → Placed accepted ran (put ++ batch) held }
{}

/// What follows of it: the first number that is held is as many as left the lists, and below the count; and each accepted
/// number ran here, was put, or is held.
pub fn held_in_order()
    ensures first { (accepted : List Accepted) (ran put held : List Numbered) (x : Numbered)
        → Placed accepted ran put (x ∷ held) → x.number ≡ length ran + length put }
    ensures below { (accepted : List Accepted) (ran put held : List Numbered) (x : Numbered)
        → Placed accepted ran put (x ∷ held) → x.number < length accepted }
    ensures all { (accepted : List Accepted) (ran put held : List Numbered)
        → Placed accepted ran put held → length accepted ≡ length ran + length put + length held }
{}

/// How the places of a group's part change: a batch that was drawn waits, joins the end of the list, and the first ones of
/// the list go out and are put.
pub fn places_of_a_group()
    ensures none { Passed [] [] [] [] [] }
    ensures draws { (drawn put out list batch : List Numbered) → Passed drawn put out list []
        → Passed (drawn ++ batch) put out list batch }
    ensures joins { (drawn put out list waiting : List Numbered) → Passed drawn put out list waiting
        → Passed drawn put out (list ++ waiting) [] }
    ensures takes { (drawn put batch list waiting : List Numbered)
        → Passed drawn put [] (batch ++ list) waiting → Passed drawn put batch list waiting }
    ensures puts { (drawn put out list waiting : List Numbered) → Passed drawn put out list waiting
        → Passed drawn (put ++ out) [] list waiting }
{}

/// The claims of a processor and of its hand make one order: where each number below `m` was claimed once, by the one or
/// the other, the two lists of claims have the numbers 0 to m - 1 in rising order between them, and what is on its way and
/// what is held are the numbers from `m` on.
pub fn one_order()
    ensures begins { (m : ℕ) (accepted : List Accepted) (ran put held hands back : List Numbered)
        → Placed accepted ran put held → put ≡ hands ++ back
        → ((j : ℕ) → times j ran + times j hands ≡ between 0 m j)
        → Remaining m 0 accepted ran hands back held }
    ensures next { (m k : ℕ) (accepted : List Accepted) (own hands back held : List Numbered)
        → k < m → Remaining m k accepted own hands back held
        → Next m k accepted own hands back held }
    ensures ends { (m : ℕ) (accepted : List Accepted) (own hands back held : List Numbered)
        → Remaining m m accepted own hands back held
        → (own ≡ []) × (hands ≡ []) × (numbered m accepted ≡ back ++ held) }
{}

/// What the records of a processor and of its hand are as one list, by their numbers ([`merge_records`](crate::merge_records)).
///
/// Where each number below `m` was claimed once, by the one or the other, the records have the accepted numbers 0 to
/// `m - 1` with their keys and stamps, and what is on its way and what is held are the accepted numbers from `m` on.
pub fn records_in_order<J: Job>()
    ensures order { (m : ℕ) (accepted : List Accepted) (own hands : List (Record J.Receipt))
        (back held : List Numbered)
        → Remaining m 0 accepted (numbered_records own) (numbered_records hands) back held
        → numbered 0 accepted ≡ numbered_records (by_number own hands) ++ (back ++ held) }
    ensures records { (own hands : List (Record J.Receipt))
        → AreOfBoth own hands (by_number own hands) }
    ensures given { (own hands : List (Record J.Receipt))
        → Given J.gives own → Given J.gives hands → Given J.gives (by_number own hands) }
    ensures ripe { (own hands : List (Record J.Receipt))
        → AreRipe own → AreRipe hands → AreRipe (by_number own hands) }
    ensures seen { (x : ℕ) (own hands : List (Record J.Receipt))
        → AreSeenBy x own → AreSeenBy x hands → AreSeenBy x (by_number own hands) }
{}
