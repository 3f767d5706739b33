//! What a thread does between two turns.

use rcu_part_control::Pauses;
use std::rt::Clock;

/// Pauses, unless something was done.
pub(crate) fn rest<R: Clock>(rt: &R, pauses: &mut Pauses, has_moved: bool) {
    if has_moved {
        pauses.start_over();
    } else {
        pauses.pause(rt);
    }
}
