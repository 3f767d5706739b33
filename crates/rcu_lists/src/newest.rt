//! The stamps of the callbacks in places.

ghost use Rattle.std.specs.Prelude.{◌≡◌, true};
ghost use Rattle.rcu_lists.specs.Filled.{filled};
ghost use Rattle.rcu_lists.specs.Stamps.{greater, last_stamp, newer_of, newest_of, stamps_from};

use rcu_jobs::Callback;

/// Whether the stamps are in order behind a last one, where those before it are in order, and the last stamp then.
pub(crate) fn stamps_behind<J>(
    places: &[Option<Callback<J>>],
    in_order: bool,
    last: u64,
) -> (bool, u64)
    ensures order { result.0 ≡ true
        → (in_order ≡ true) × (stamps_from last (filled places.now) ≡ true) }
    ensures last { result.1 ≡ last_stamp last (filled places.now) }
{
    let (mut still, mut newest) = (in_order, last);
    for place in places {
        match place {
            Some(callback) => {
                still = still && newest <= callback.stamp;
                newest = callback.stamp;
            }
            None => {}
        }
    }
    (still, newest)
}

/// The greatest stamp, and no less than this one, whatever their order.
pub(crate) fn newer_than<J>(places: &[Option<Callback<J>>], stamp: Option<u64>) -> Option<u64>
    ensures { result ≡ newer_of stamp (newest_of (filled places.now)) }
{
    let mut greatest = stamp;
    for place in places {
        match place {
            Some(callback) => greatest = Some(greater_stamp(callback.stamp, greatest)),
            None => {}
        }
    }
    greatest
}

/// The greater of a stamp and another one, if there is one.
pub(crate) fn greater_stamp(stamp: u64, other: Option<u64>) -> u64
    ensures { result ≡ greater stamp other }
{
    match other {
        Some(other) => stamp.max(other),
        None => stamp,
    }
}
