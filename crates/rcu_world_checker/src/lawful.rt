//! Whether a history is lawful, mark by mark.

ghost use Rattle.std.specs.Prelude.{◌≡◌, ◌≤◌, ◌↔◌, true, length};
ghost use Rattle.rcu_world_law.specs.Law.{IsCovered, IsLawful};
ghost use Rattle.rcu_world_checker.specs.Fits.{Fits, HasReported, HaveRun, IsDue, IsOpenedBefore, IsOver, IsShutBefore};

use crate::kinds::{Kind, many_of, nth_of};
use rcu_world_law::marks::Mark;

/// Whether `q` reported after this place.
fn has_reported(history: &[Mark], after: usize, q: u64) -> bool
    ensures { result ≡ true ↔ HasReported history.now after q }
{
    for place in 0..history.len() {
        if place > after && history[place] == Mark::Reported(q) {
            return true;
        }
    }
    false
}

/// Whether each of the `n` processors reported after this place.
fn is_covered(n: u64, history: &[Mark], after: usize) -> bool
    ensures { result ≡ true ↔ IsCovered n history.now after (length history.now) }
{
    for q in 0..n {
        if !has_reported(history, after, q) {
            return false;
        }
    }
    true
}

/// Whether `p` was shut.
pub fn has_shut(history: &[Mark], p: u64) -> bool
    ensures { result ≡ true ↔ IsShutBefore history.now p }
{
    for mark in history {
        if *mark == Mark::Shut(p) {
            return true;
        }
    }
    false
}

/// Whether this callback of `p` is the first that was accepted and has not run, and each of the `n` processors reported since.
fn is_due(n: u64, history: &[Mark], p: u64, key: u64) -> bool
    ensures { result ≡ true ↔ IsDue n history.now p key }
{
    let k = many_of(Kind::Ran, p, history);
    match nth_of(Kind::Accepted, p, k, history) {
        Some((place, first)) => first == key && is_covered(n, history, place),
        None => false,
    }
}

/// Whether each callback that was accepted before one place has run before another.
fn have_run(history: &[Mark], accepted: usize, ran: usize) -> bool
    requires accepted { accepted ≤ length history.now }
    requires ran { ran ≤ length history.now }
    ensures { result ≡ true ↔ HaveRun history.now accepted ran }
{
    for place in 0..accepted {
        if let Mark::Accepted(p, _) = history[place] {
            let k = many_of(Kind::Accepted, p, &history[..place]);
            if many_of(Kind::Ran, p, &history[..ran]) <= k {
                return false;
            }
        }
    }
    true
}

/// Whether barrier `b` was opened.
pub fn was_opened(history: &[Mark], b: u64) -> bool
    ensures { result ≡ true ↔ IsOpenedBefore history.now b }
{
    for mark in history {
        if *mark == Mark::Opened(b) {
            return true;
        }
    }
    false
}

/// Whether barrier `b` was opened, and all that was accepted before that has run.
fn is_over(history: &[Mark], b: u64) -> bool
    ensures { result ≡ true ↔ IsOver history.now b }
{
    for place in 0..history.len() {
        if history[place] == Mark::Opened(b) && !have_run(history, place, history.len()) {
            return false;
        }
    }
    was_opened(history, b)
}

/// Whether a mark may be added to a history of `n` processors.
fn fits(n: u64, history: &[Mark], mark: Mark) -> bool
    ensures { result ≡ true ↔ Fits n history.now mark }
{
    match mark {
        Mark::Accepted(p, _) => !has_shut(history, p),
        Mark::Ran(p, key) => is_due(n, history, p, key),
        Mark::Opened(b) => !was_opened(history, b),
        Mark::Passed(b) => is_over(history, b),
        Mark::Reported(_) | Mark::Shut(_) | Mark::Back(_, _) => true,
    }
}

/// Whether a history of `n` processors is lawful: ordered, graced, barred, opened and shut in every prefix
/// (docs/specification/definitions.md, "The law").
pub fn is_lawful(n: u64, history: &[Mark]) -> bool
    ensures { result ≡ true ↔ IsLawful n history.now }
{
    for place in 0..history.len() {
        if !fits(n, &history[..place], history[place]) {
            return false;
        }
    }
    true
}
