//! Whether a history agrees.

ghost use Rattle.std.specs.Prelude.{◌≡◌, ◌↔◌, ◌<◌, true, length};
ghost use Rattle.rcu_agreement.specs.Agreement.{Agrees};
ghost use Rattle.rcu_agreement_checker.specs.Known.{all_counts, all_known};
ghost use Rattle.rcu_agreement_checker.specs.Lists.{ListsAgree};
ghost use Rattle.rcu_agreement_checker.specs.Places.{AgreesAt};

use crate::account::Account;
use crate::barriers::{opens_at, passes_at};
use crate::lists::lists_agree;
use crate::numbers::{is_seen, is_stamped};
use crate::shutting::is_shut_at;
use rcu_world_checker::has_shut;
use rcu_world_law::marks::Mark;

/// Whether the mark at this place stands where the accounts and the counts put it.
fn place_agrees(accounts: &[Account], counts: &[Vec<u64>], history: &[Mark], place: usize) -> bool
    requires place { place < length history.now }
    ensures { result ≡ true
        ↔ AgreesAt (all_known accounts.now) (all_counts counts.now) history.now place }
{
    match history[place] {
        Mark::Accepted(p, _) => is_stamped(accounts, history, place, p),
        Mark::Reported(_) => true,
        Mark::Ran(p, _) => is_seen(accounts, history, place, p),
        Mark::Opened(b) => opens_at(counts, history, place, b),
        Mark::Passed(b) => passes_at(accounts, counts, history, place, b),
        Mark::Shut(p) => is_shut_at(accounts, history, place, p),
        // (`shut_first`)
        Mark::Back(p, _) => has_shut(&history[..place], p),
    }
}

/// Whether a history agrees with these accounts, one for each processor, and with the counts that each barrier took
/// (docs/specification/definitions.md, "Agreeing").
pub fn agrees(accounts: &[Account], counts: &[Vec<u64>], history: &[Mark]) -> bool
    ensures { result ≡ true
        ↔ Agrees (all_known accounts.now) (all_counts counts.now) history.now }
{
    for place in 0..history.len() {
        if !place_agrees(accounts, counts, history, place) {
            return false;
        }
    }
    lists_agree(accounts, history)
}
