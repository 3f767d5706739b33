//! What a group's list becomes when it looks at the number: docs/specification/rules.md, "The calls, step by step",
//! Group::turn.

ghost use Rattle.std.specs.Prelude.{◌≡◌, ℕ, ◌≤◌, IfSome};
ghost use Rattle.rcu_lists.specs.BlockSegments.{block_labelled, block_advanced_by};
ghost use Rattle.rcu_lists.specs.Labels.{callbacks_of};
ghost use Rattle.rcu_part_lists.specs.Aims.{AreUpTo, AreAimed, looked, wanted};
ghost use Rattle.rcu_part_lists.specs.Limits.{AreSafe};

use crate::views::newest_with;
use rcu_lists::BlockSegments;
use rcu_numbers::{LAST_NUMBER, snap};

/// Advances a list by the number seen and accelerates it. Answers the number that is to be asked for, if any.
pub(crate) fn look_at_blocks<J: Drop>(list: &mut BlockSegments<J>, seen: u64) -> Option<u64>
    requires later { block_advanced_by list.old ≤ seen }
    requires small { seen ≤ LAST_NUMBER }
    requires safe { AreSafe (callbacks_of (block_labelled list.old)) }
    requires aimed { AreAimed (block_advanced_by list.old) (block_labelled list.old) }
    ensures list { block_labelled list.new ≡ looked seen (block_labelled list.old) }
    ensures wanted { result ≡ wanted seen (block_labelled list.old) }
    ensures advanced { block_advanced_by list.new ≡ seen }
    ensures callbacks { callbacks_of (block_labelled list.new)
        ≡ callbacks_of (block_labelled list.old) }
    ensures aimed { AreAimed (block_advanced_by list.new) (block_labelled list.new) }
    ensures needed { (s : ℕ) → AreUpTo s (block_labelled list.old) → IfSome result (λ n. n ≤ s)
        → AreUpTo s (block_labelled list.new) }
{
    list.advance(seen);
    let aim = snap(newest_with(seen, list.newest()));
    if list.accelerate(aim) {
        Some(aim)
    } else {
        None
    }
}
