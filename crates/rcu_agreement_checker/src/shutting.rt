//! Whether processors are shut where their accounts say.

ghost use Rattle.std.specs.Prelude.{◌≡◌, ◌↔◌, ◌≤◌, true, length};
ghost use Rattle.rcu_agreement_checker.specs.Known.{all_known};
ghost use Rattle.rcu_agreement_checker.specs.Places.{IsShutAt};

use crate::account::{Account, shuts_of};
use crate::sights::has_seen;
use rcu_world_checker::{Kind, many_of};
use rcu_world_law::marks::Mark;

/// `shut`: at this place, where `p` is shut, it has accepted as many as a seat saw that saw it shut, or else all.
pub(crate) fn is_shut_at(accounts: &[Account], history: &[Mark], place: usize, p: u64) -> bool
    requires { place ≤ length history.now }
    ensures { result ≡ true ↔ IsShutAt (all_known accounts.now) history.now place p }
{
    let before = many_of(Kind::Accepted, p, &history[..place]);
    has_seen(shuts_of(accounts, p), before as u64) || before == many_of(Kind::Accepted, p, history)
}
