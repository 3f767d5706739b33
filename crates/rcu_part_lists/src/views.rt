//! What a list of segments becomes when a part looks at the number: docs/specification/rules.md, "The calls, step by step".

ghost use Rattle.std.specs.Prelude.{◌≡◌, ℕ, ◌≤◌, IfSome};
ghost use Rattle.rcu_lists.specs.Labels.{callbacks_of};
ghost use Rattle.rcu_lists.specs.Segments.{labelled, advanced_by, SegmentsRoom};
ghost use Rattle.rcu_lists.specs.Stamps.{greater};
ghost use Rattle.rcu_part_lists.specs.Aims.{AreUpTo, AreAimed, looked, wanted};
ghost use Rattle.rcu_part_lists.specs.Limits.{AreSafe};

use rcu_lists::Segments;
use rcu_numbers::{LAST_NUMBER, snap};

/// Advances a list by the number seen and accelerates it. Answers the number that is to be asked for, if any.
pub(crate) fn look_at<J: Drop>(list: &mut Segments<J>, seen: u64) -> Option<u64>
    requires later { advanced_by list.old ≤ seen }
    requires small { seen ≤ LAST_NUMBER }
    requires safe { AreSafe (callbacks_of (labelled list.old)) }
    requires aimed { AreAimed (advanced_by list.old) (labelled list.old) }
    ensures list { labelled list.new ≡ looked seen (labelled list.old) }
    ensures wanted { result ≡ wanted seen (labelled list.old) }
    ensures advanced { advanced_by list.new ≡ seen }
    ensures callbacks { callbacks_of (labelled list.new) ≡ callbacks_of (labelled list.old) }
    ensures aimed { AreAimed (advanced_by list.new) (labelled list.new) }
    ensures needed { (s : ℕ) → AreUpTo s (labelled list.old) → IfSome result (λ n. n ≤ s)
        → AreUpTo s (labelled list.new) }
    ensures room { (k : ℕ) → SegmentsRoom list.old k → SegmentsRoom list.new k }
{
    list.advance(seen);
    let aim = snap(newest_with(seen, list.newest()));
    if list.accelerate(aim) {
        Some(aim)
    } else {
        None
    }
}

/// The greater of the number and the newest stamp, if there is one.
pub(crate) fn newest_with(seen: u64, newest: Option<u64>) -> u64
    ensures { result ≡ greater seen newest }
{
    match newest {
        None => seen,
        Some(stamp) => seen.max(stamp),
    }
}
