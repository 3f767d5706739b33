//! A bypass list, and the lane that it is released on: docs/specification/rules.md, "Bypass lists".

ghost use Rattle.std.specs.Prelude.{◌≡◌, ◌≤◌, ◌||◌, length, true, false, [], ◌∷◌, ◌++◌};
ghost use Rattle.rcu_lanes.specs.Ends.{SameRear};
ghost use Rattle.rcu_lists.specs.Bypasses.{bypass_items, BypassRoom};
ghost use Rattle.rcu_lists.specs.Labels.{callbacks_of};
ghost use Rattle.rcu_lists.specs.Segments.{labelled, advanced_by};
ghost use Rattle.rcu_part_lists.specs.Lanes.{put_calls};
ghost use Rattle.rcu_part_lists.specs.Outgoing.{outgoing, IsReleased, IsReleasedIfAny, IsSentOrBack, is_due_with, kept, is_due_in_tick, in_tick, poured};
ghost use Rattle.rcu_part_lists.specs.Limits.{AreFew, AreSafe, IsSafe};

use crate::lane_ends::Outlet;
use rcu_jobs::Callback;
use rcu_lists::{Bypass, INLINE_PLACES, Kind, Segments};

/// Puts the whole list on the lane, as one batch. Where the lane finds no room, the batch becomes the list again.
pub(crate) fn send<J: Drop>(outlet: &mut Outlet<J>, bypass: &mut Bypass<J>)
    requires safe { AreSafe (bypass_items bypass.old) }
    requires few { AreFew (put_calls outlet.old.rear ++ bypass_items bypass.old) }
    ensures lane { SameRear outlet.old.rear outlet.new.rear }
    ensures released { IsReleased (outgoing outlet.old.rear bypass.old)
        (outgoing outlet.new.rear bypass.new) }
    ensures safe { AreSafe (bypass_items bypass.new) }
{
    match bypass.flush_single() {
        Some(callback) => send_single(outlet, bypass, callback),
        None => send_all(outlet, bypass),
    }
}

// Puts the callback that was alone in the list.
fn send_single<J: Drop>(outlet: &mut Outlet<J>, bypass: &mut Bypass<J>, callback: Callback<J>)
    requires none { bypass_items bypass.old ≡ [] }
    requires safe { IsSafe callback }
    requires few { AreFew (put_calls outlet.old.rear ++ callback ∷ []) }
    ensures lane { SameRear outlet.old.rear outlet.new.rear }
    ensures released { IsSentOrBack (callback ∷ []) (outgoing outlet.old.rear bypass.old)
        (outgoing outlet.new.rear bypass.new) }
    ensures safe { AreSafe (bypass_items bypass.new) }
{
    match outlet.put_single(callback) {
        Ok(()) => {}
        Err(back) => bypass.refill_single(back),
    }
}

// Puts a list of any length.
fn send_all<J: Drop>(outlet: &mut Outlet<J>, bypass: &mut Bypass<J>)
    requires safe { AreSafe (bypass_items bypass.old) }
    requires few { AreFew (put_calls outlet.old.rear ++ bypass_items bypass.old) }
    ensures lane { SameRear outlet.old.rear outlet.new.rear }
    ensures released { IsReleased (outgoing outlet.old.rear bypass.old)
        (outgoing outlet.new.rear bypass.new) }
    ensures safe { AreSafe (bypass_items bypass.new) }
{
    let mut batch = bypass.flush();
    if !outlet.put_from(&mut batch) {
        bypass.refill(batch);
    }
}

/// Adds a callback, and releases the list where that is due.
pub(crate) fn hold_or_send<J: Drop>(
    outlet: &mut Outlet<J>,
    bypass: &mut Bypass<J>,
    moment: u64,
    kind: Kind,
    callback: Callback<J>,
)
    requires room { BypassRoom bypass.old 1 }
    requires safe { AreSafe (bypass_items bypass.old) }
    requires one { IsSafe callback }
    requires few { AreFew
        (put_calls outlet.old.rear ++ (bypass_items bypass.old ++ callback ∷ [])) }
    ensures lane { SameRear outlet.old.rear outlet.new.rear }
    ensures waits { is_due_with moment kind (outgoing outlet.old.rear bypass.old) ≡ false
        → outgoing outlet.new.rear bypass.new
        ≡ kept moment kind callback (outgoing outlet.old.rear bypass.old) }
    ensures releases { is_due_with moment kind (outgoing outlet.old.rear bypass.old) ≡ true
        → IsReleased (kept moment kind callback (outgoing outlet.old.rear bypass.old))
        (outgoing outlet.new.rear bypass.new) }
    ensures safe { AreSafe (bypass_items bypass.new) }
{
    if bypass.hold(moment, kind, callback) {
        send(outlet, bypass);
    }
}

/// A tick's release, where one of its causes holds.
pub(crate) fn send_in_tick<J: Drop>(
    outlet: &mut Outlet<J>,
    bypass: &mut Bypass<J>,
    moment: u64,
    leaving: bool,
    urged: bool,
)
    requires safe { AreSafe (bypass_items bypass.old) }
    requires few { AreFew (put_calls outlet.old.rear ++ bypass_items bypass.old) }
    ensures lane { SameRear outlet.old.rear outlet.new.rear }
    ensures stays { is_due_in_tick moment leaving urged (outgoing outlet.old.rear bypass.old)
        ≡ false → outgoing outlet.new.rear bypass.new ≡ outgoing outlet.old.rear bypass.old }
    ensures releases { is_due_in_tick moment leaving urged (outgoing outlet.old.rear bypass.old)
        ≡ true
        → IsReleased (in_tick moment (outgoing outlet.old.rear bypass.old))
        (outgoing outlet.new.rear bypass.new) }
    ensures safe { AreSafe (bypass_items bypass.new) }
{
    if bypass.is_empty() {
        return;
    }
    let late = bypass.late(moment);
    if is_called(late, leaving, urged) {
        send(outlet, bypass);
    }
}

/// Whether one of the causes of a tick's release holds.
fn is_called(late: bool, leaving: bool, urged: bool) -> bool
    ensures { result ≡ (late || (leaving || urged)) }
{
    late || leaving || urged
}

/// Puts the list on the lane where it isn't empty.
pub(crate) fn send_if_any<J: Drop>(outlet: &mut Outlet<J>, bypass: &mut Bypass<J>)
    requires safe { AreSafe (bypass_items bypass.old) }
    requires few { AreFew (put_calls outlet.old.rear ++ bypass_items bypass.old) }
    ensures lane { SameRear outlet.old.rear outlet.new.rear }
    ensures released { IsReleasedIfAny (outgoing outlet.old.rear bypass.old)
        (outgoing outlet.new.rear bypass.new) }
    ensures safe { AreSafe (bypass_items bypass.new) }
{
    if !bypass.is_empty() {
        send(outlet, bypass);
    }
}

/// Pours a processor's own list into its bypass list, and puts that on the lane. Answers false where there is no room to
/// pour: nothing has moved.
pub(crate) fn pour_out<J: Drop>(
    own: &mut Segments<J>,
    outlet: &mut Outlet<J>,
    bypass: &mut Bypass<J>,
) -> bool
    requires own { AreSafe (callbacks_of (labelled own.old)) }
    requires safe { AreSafe (bypass_items bypass.old) }
    requires few { AreFew
        (put_calls outlet.old.rear
        ++ (bypass_items bypass.old ++ callbacks_of (labelled own.old))) }
    ensures lane { SameRear outlet.old.rear outlet.new.rear }
    ensures moved { result ≡ true → labelled own.new ≡ [] }
    ensures released { result ≡ true
        → IsReleasedIfAny
        (poured (callbacks_of (labelled own.old)) (outgoing outlet.old.rear bypass.old))
        (outgoing outlet.new.rear bypass.new) }
    ensures fits { bypass_items bypass.old ≡ [] → length (labelled own.old) ≤ INLINE_PLACES
        → result ≡ true }
    ensures none { labelled own.old ≡ [] → result ≡ true }
    ensures refused { result ≡ false
        → (labelled own.new ≡ labelled own.old)
        × (outgoing outlet.new.rear bypass.new ≡ outgoing outlet.old.rear bypass.old) }
    ensures advanced { advanced_by own.new ≡ advanced_by own.old }
    ensures safe { AreSafe (bypass_items bypass.new) }
{
    match own.pour(bypass) {
        Ok(()) => {
            send_if_any(outlet, bypass);
            true
        }
        Err(_) => false,
    }
}
