//! Bypass lists, in the words of the law.

ghost use Rattle.std.specs.Prelude.{◌≡◌, ◌++◌, ◌∷◌, [], ◌+◌, ◌≤◌, ◌||◌, length, map, not, Some, None, IsOk, OnOk, OnErr, Option};
ghost use Rattle.std.specs.VecDeque.{deque_len, deque_capacity};
ghost use Rattle.rcu_world_law.specs.LabelledLists.{call_of};
ghost use Rattle.rcu_world_law.specs.Lists.{is_nil, is_none};
ghost use Rattle.rcu_world_law.specs.Releases.{call_releases, is_late, pace_after_put, pace_after_stamp};
ghost use Rattle.rcu_lists.specs.Bypasses.{BypassRoom, bypass_qhimark};
ghost use Rattle.rcu_world_processor.specs.Batches.{batch, batches, bypassed, pace, PacesAs, is_late_at};
ghost use Rattle.rcu_world_processor.specs.Waits.{call, waiting};

use crate::batches::put_batch;
use rcu_jobs::{Callback, Job};
use rcu_lists::{Batch, Bypass, Kind, Segments};
use std::alloc::AllocError;
use std::collections::VecDeque;

/// Whether a bypass list holds no callback.
pub(crate) fn is_clear<J: Job>(bypass: &Bypass<J>) -> bool
    ensures { result ≡ is_nil (bypassed J.key_of bypass.now) }
{
    bypass.is_empty()
}

/// Adds a callback at the end, in the room that there is. Answers whether the list is due to be released.
pub(crate) fn hold<J: Job>(
    bypass: &mut Bypass<J>,
    moment: u64,
    lazy: bool,
    callback: Callback<J>,
) -> bool
    requires { BypassRoom bypass.old 1 }
    ensures items { bypassed J.key_of bypass.new
        ≡ bypassed J.key_of bypass.old ++ call J.key_of callback ∷ [] }
    ensures pace { PacesAs J.key_of (pace_after_stamp lazy moment) bypass.old bypass.new }
    ensures due { result
        ≡ call_releases lazy moment (pace bypass.old).moment (pace bypass.old).direct
        (length (bypassed J.key_of bypass.old) + 1) (not (is_none (pace bypass.old).kept_moment))
        (bypass_qhimark bypass.old) }
{
    if lazy {
        return bypass.hold(moment, Kind::Lazy, callback);
    }
    bypass.hold(moment, Kind::Plain, callback)
}

/// Takes all of the list as one batch.
pub(crate) fn flush<J: Job>(bypass: &mut Bypass<J>) -> Batch<J>
    ensures all { batch J.key_of result ≡ bypassed J.key_of bypass.old }
    ensures none { bypassed J.key_of bypass.new ≡ [] }
    ensures pace { PacesAs J.key_of (pace_after_put None) bypass.old bypass.new }
{
    bypass.flush()
}

/// Puts all of the list on a lane, as one batch, in the room that there is. A moment that is given becomes the last one.
pub(crate) fn release<J: Job>(
    bypass: &mut Bypass<J>,
    lane: &mut VecDeque<Batch<J>>,
    moment: Option<u64>,
)
    requires { deque_len lane.old + 1 ≤ deque_capacity lane.old }
    ensures lane { batches J.key_of lane.new.items
        ≡ batches J.key_of lane.old.items ++ bypassed J.key_of bypass.old ∷ [] }
    ensures none { bypassed J.key_of bypass.new ≡ [] }
    ensures pace { PacesAs J.key_of (pace_after_put moment) bypass.old bypass.new }
{
    put_batch(lane, flush(bypass));
    match moment {
        Some(last) => bypass.restart(last),
        None => {}
    }
}

/// Pours a list of segments into a bypass list. On an error nothing has moved. An empty list is always poured.
pub(crate) fn pour_all<J: Job>(
    list: &mut Segments<J>,
    bypass: &mut Bypass<J>,
) -> Result<(), AllocError>
    ensures left { OnOk result (waiting J.key_of list.new ≡ []) }
    ensures moved { OnOk result
        (bypassed J.key_of bypass.new
        ≡ bypassed J.key_of bypass.old ++ map call_of (waiting J.key_of list.old)) }
    ensures pace { OnOk result
        (pace bypass.new
        ≡ record (pace bypass.old)
        { plain = not (is_nil (waiting J.key_of list.old)) || (pace bypass.old).plain }) }
    ensures qhimark { bypass_qhimark bypass.new ≡ bypass_qhimark bypass.old }
    ensures none { waiting J.key_of list.old ≡ [] → IsOk result }
    ensures err { OnErr result
        ((waiting J.key_of list.new ≡ waiting J.key_of list.old)
        × (bypassed J.key_of bypass.new ≡ bypassed J.key_of bypass.old)
        × (pace bypass.new ≡ pace bypass.old)) }
{
    list.pour(bypass)?;
    Ok(())
}

/// Whether a tick releases the list because of its moment.
pub(crate) fn is_late<J: Job>(bypass: &Bypass<J>, moment: u64) -> bool
    ensures { result ≡ is_late_at J.key_of moment bypass.now }
{
    bypass.is_late(moment)
}
