//! Whether the marks of each processor are those of its account.

ghost use Rattle.std.specs.Prelude.{◌≡◌, ◌↔◌, true, length};
ghost use Rattle.rcu_world_checker.specs.Kinds.{keys};
ghost use Rattle.rcu_world_law.specs.Invariant.{reports};
ghost use Rattle.rcu_agreement_checker.specs.Known.{all_known, known};
ghost use Rattle.rcu_agreement_checker.specs.Lists.{AreListed, AreOf, AreReported, IsOf, ListsAgree, listed};

use crate::account::Account;
use rcu_world_checker::{Kind, key_of};
use rcu_world_law::marks::Mark;

/// Whether the marks of this kind of `p` have these keys, in order.
fn has_keys(kind: Kind, p: u64, history: &[Mark], wanted: &[u64]) -> bool
    ensures { result ≡ true ↔ keys kind p history.now ≡ wanted.now }
{
    let mut met = 0;
    for mark in history {
        if let Some(key) = key_of(kind, p, *mark) {
            if met == wanted.len() || wanted[met] != key {
                return false;
            }
            met += 1;
        }
    }
    met == wanted.len()
}

/// How many reports `q` has.
pub(crate) fn many_reports(q: u64, history: &[Mark]) -> u64
    ensures { result ≡ reports q history.now }
{
    let mut many = 0;
    for mark in history {
        if *mark == Mark::Reported(q) {
            many += 1;
        }
    }
    many
}

/// Whether the mark, where it is on a list of a processor, is of one of `many` processors.
fn is_of(many: usize, mark: Mark) -> bool
    ensures { result ≡ true ↔ IsOf many mark }
{
    match mark {
        Mark::Accepted(p, _) | Mark::Reported(p) | Mark::Ran(p, _) | Mark::Back(p, _) => {
            p < many as u64
        }
        Mark::Opened(_) | Mark::Passed(_) | Mark::Shut(_) => true,
    }
}

/// Whether no mark is of a processor beyond so many.
fn are_of(many: usize, history: &[Mark]) -> bool
    ensures { result ≡ true ↔ AreOf many history.now }
{
    for mark in history {
        if !is_of(many, *mark) {
            return false;
        }
    }
    true
}

/// The list of this kind that an account has.
fn list_of(kind: Kind, account: &Account) -> &[u64]
    ensures { result.now ≡ listed kind (known account.now) }
{
    match kind {
        Kind::Accepted => account.keys.as_slice(),
        Kind::Ran => account.ran.as_slice(),
        Kind::Back => account.back.as_slice(),
    }
}

/// `accepted_is`, `ran_is` and `back_is`, by their kind: the keys of each processor are what its account says, in order.
fn are_listed(kind: Kind, accounts: &[Account], history: &[Mark]) -> bool
    requires known { AreOf (length accounts.now) history.now }
    ensures { result ≡ true ↔ AreListed kind (all_known accounts.now) history.now }
{
    for p in 0..accounts.len() {
        if !has_keys(kind, p as u64, history, list_of(kind, &accounts[p])) {
            return false;
        }
    }
    true
}

/// `reports_is`: each processor has a report for each grace period that it passed.
fn are_reported(accounts: &[Account], history: &[Mark]) -> bool
    requires known { AreOf (length accounts.now) history.now }
    ensures { result ≡ true ↔ AreReported (all_known accounts.now) history.now }
{
    for q in 0..accounts.len() {
        if many_reports(q as u64, history) != accounts[q].reports {
            return false;
        }
    }
    true
}

/// Whether the marks of each processor are those of its account.
pub(crate) fn lists_agree(accounts: &[Account], history: &[Mark]) -> bool
    ensures { result ≡ true ↔ ListsAgree (all_known accounts.now) history.now }
{
    if !are_of(accounts.len(), history) {
        return false;
    }
    are_listed(Kind::Accepted, accounts, history)
        && are_listed(Kind::Ran, accounts, history)
        && are_listed(Kind::Back, accounts, history)
        && are_reported(accounts, history)
}
