//! Whether barriers stand where their counts put them.

ghost use Rattle.std.specs.Prelude.{◌≡◌, ◌↔◌, ◌≤◌, true, length};
ghost use Rattle.rcu_agreement_checker.specs.Known.{all_counts, all_known};
ghost use Rattle.rcu_agreement_checker.specs.Places.{IsBeyond, IsCounted, IsPolled, OpensAt, PassesAt};

use crate::account::{Account, count_of, turns_of};
use crate::sights::has_seen_as_many;
use rcu_world_checker::{Kind, many_of, was_opened};
use rcu_world_law::marks::Mark;

/// `counted`: what was accepted before this place, at which barrier `b` opens, is within its count.
fn is_counted(counts: &[Vec<u64>], history: &[Mark], place: usize, b: u64) -> bool
    requires { place ≤ length history.now }
    ensures { result ≡ true ↔ IsCounted (all_counts counts.now) history.now place b }
{
    for t in 0..place {
        if let Mark::Accepted(p, _) = history[t] {
            let k = many_of(Kind::Accepted, p, &history[..t]);
            if count_of(counts, b, p) <= k as u64 {
                return false;
            }
        }
    }
    true
}

/// `passed`: what runs behind this place, at which barrier `b` passes, is beyond its count.
fn is_beyond(counts: &[Vec<u64>], history: &[Mark], place: usize, b: u64) -> bool
    ensures { result ≡ true ↔ IsBeyond (all_counts counts.now) history.now place b }
{
    for u in place..history.len() {
        if let Mark::Ran(p, _) = history[u] {
            let k = many_of(Kind::Ran, p, &history[..u]);
            if count_of(counts, b, p) > k as u64 {
                return false;
            }
        }
    }
    true
}

/// `polled`: of each processor some seat saw as many run as barrier `b` counts, which passes.
fn is_polled(accounts: &[Account], counts: &[Vec<u64>], b: u64) -> bool
    ensures { result ≡ true ↔ IsPolled (all_known accounts.now) (all_counts counts.now) b }
{
    for p in 0..accounts.len() as u64 {
        if !has_seen_as_many(turns_of(accounts, p), count_of(counts, b, p)) {
            return false;
        }
    }
    true
}

/// Whether barrier `b` may open at this place: it did not open before (`opened`), and it counts what was accepted.
pub(crate) fn opens_at(counts: &[Vec<u64>], history: &[Mark], place: usize, b: u64) -> bool
    requires { place ≤ length history.now }
    ensures { result ≡ true ↔ OpensAt (all_counts counts.now) history.now place b }
{
    !was_opened(&history[..place], b) && is_counted(counts, history, place, b)
}

/// Whether barrier `b` may pass at this place: it opened before (`opened`), what it counts has run, and some seat saw that.
pub(crate) fn passes_at(
    accounts: &[Account],
    counts: &[Vec<u64>],
    history: &[Mark],
    place: usize,
    b: u64,
) -> bool
    requires { place ≤ length history.now }
    ensures { result ≡ true
        ↔ PassesAt (all_known accounts.now) (all_counts counts.now) history.now place b }
{
    was_opened(&history[..place], b)
        && is_beyond(counts, history, place, b)
        && is_polled(accounts, counts, b)
}
