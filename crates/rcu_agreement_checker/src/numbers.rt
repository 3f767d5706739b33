//! Whether acceptances and runs stand where their stamps and sights put them.

ghost use Rattle.std.specs.Prelude.{◌≡◌, ◌↔◌, ◌≤◌, true, length};
ghost use Rattle.rcu_agreement.specs.Accounts as plain;
ghost use Rattle.rcu_agreement_checker.specs.Known.{all_known};
ghost use Rattle.rcu_agreement_checker.specs.Places.{HasNoneAbove, HasNoneBelow, IsSeen, IsStamped};

use crate::account::{Account, ready_of, stamp_of};
use crate::lists::many_reports;
use rcu_world_checker::{Kind, many_of};
use rcu_world_law::marks::Mark;

/// The number of a grace period, counted from 0.
fn number_of(period: u64) -> u128
    ensures { result ≡ plain.number_of period }
{
    4 * u128::from(period) + 1
}

/// Whether no report before a place has a number above this one.
fn has_none_above(history: &[Mark], place: usize, number: u64) -> bool
    requires { place ≤ length history.now }
    ensures { result ≡ true ↔ HasNoneAbove history.now place number }
{
    for i in 0..place {
        if let Mark::Reported(q) = history[i] {
            if number_of(many_reports(q, &history[..i])) > u128::from(number) {
                return false;
            }
        }
    }
    true
}

/// Whether no report from a place on has a number below this one.
fn has_none_below(history: &[Mark], place: usize, number: u64) -> bool
    ensures { result ≡ true ↔ HasNoneBelow history.now place number }
{
    for i in place..history.len() {
        if let Mark::Reported(q) = history[i] {
            if number_of(many_reports(q, &history[..i])) < u128::from(number) {
                return false;
            }
        }
    }
    true
}

/// `stamped`: the acceptance of `p` at this place stands before each report whose number is above its stamp.
pub(crate) fn is_stamped(accounts: &[Account], history: &[Mark], place: usize, p: u64) -> bool
    requires { place ≤ length history.now }
    ensures { result ≡ true ↔ IsStamped (all_known accounts.now) history.now place p }
{
    let k = many_of(Kind::Accepted, p, &history[..place]);
    has_none_above(history, place, stamp_of(accounts, p, k))
}

/// `seen`: the run of `p` at this place stands behind each report whose number is below its sight.
pub(crate) fn is_seen(accounts: &[Account], history: &[Mark], place: usize, p: u64) -> bool
    requires { place ≤ length history.now }
    ensures { result ≡ true ↔ IsSeen (all_known accounts.now) history.now place p }
{
    let k = many_of(Kind::Ran, p, &history[..place]);
    has_none_below(history, place, ready_of(accounts, p, k))
}
