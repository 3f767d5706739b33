//! Whether a lawful history is closed: what didn't run came back.

ghost use Rattle.std.specs.Prelude.{◌≡◌, ◌<◌, ◌↔◌, length, true};
ghost use Rattle.rcu_world_law.specs.Law.{IsClosed, IsOrdered, IsSettled};
ghost use Rattle.rcu_world_checker.specs.Returns.{IsAccounted, IsReturned, Settles};

use crate::kinds::{Kind, many_of, nth_of};
use crate::lawful::{has_shut, is_lawful};
use rcu_world_law::marks::Mark;

/// Whether as many callbacks of `p` ran or were handed back as it accepted.
fn is_accounted(history: &[Mark], p: u64) -> bool
    ensures { result ≡ true ↔ IsAccounted history.now p }
{
    let ran = many_of(Kind::Ran, p, history);
    let back = many_of(Kind::Back, p, history);
    many_of(Kind::Accepted, p, history) == ran + back
}

/// Whether the callback of `p` that is handed back at this place is the next one that `p` accepted, behind all that ran, and
/// `p` was shut before.
fn is_returned(history: &[Mark], place: usize, p: u64, key: u64) -> bool
    requires place { place < length history.now }
    ensures { result ≡ true ↔ IsReturned history.now place p key }
{
    let ran = many_of(Kind::Ran, p, history);
    let back = many_of(Kind::Back, p, &history[..place]);
    match nth_of(Kind::Accepted, p, ran + back, history) {
        Some((_accepted, first)) => first == key && has_shut(&history[..place], p),
        None => false,
    }
}

/// Whether the mark at this place leaves the history settled.
fn settles(history: &[Mark], place: usize) -> bool
    requires place { place < length history.now }
    ensures { result ≡ true ↔ Settles history.now place }
{
    match history[place] {
        Mark::Accepted(p, _) => is_accounted(history, p),
        Mark::Back(p, key) => is_returned(history, place, p, key),
        _ => true,
    }
}

/// Whether an ordered history is settled.
fn is_settled(history: &[Mark]) -> bool
    requires ordered { IsOrdered history.now }
    ensures { result ≡ true ↔ IsSettled history.now }
{
    for place in 0..history.len() {
        if !settles(history, place) {
            return false;
        }
    }
    true
}

/// Whether a history of `n` processors is closed: lawful, and each processor's callbacks are those that ran, then those that
/// came back, none of them before the processor was shut (docs/specification/definitions.md, "The law").
pub fn is_closed(n: u64, history: &[Mark]) -> bool
    ensures { result ≡ true ↔ IsClosed n history.now }
{
    is_lawful(n, history) && is_settled(history)
}
