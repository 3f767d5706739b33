//! Where a callback waits.

ghost use Rattle.std.specs.Prelude.{◌≡◌, ◌+◌, ◌<◌, ◌≤◌, None, Some};
ghost use Rattle.rcuo_picture.specs.declared.places.Place.TheVariants as places;

use rcu_jobs::Mode;

/// What a processor shows after a command.
#[derive(Clone, Copy)]
pub struct Shown {
    pub mode: Mode,
    /// How many callbacks it accepted.
    pub accepted: u64,
    /// How many its own list holds.
    pub own: u64,
    /// How many its bypass list holds.
    pub bypass: u64,
    /// How many of its callbacks ran.
    pub ran: u64,
}

/// Who has a callback that waits.
#[derive(Clone, Copy)]
pub enum Place {
    /// The processor's own list.
    Own,
    /// The processor's bypass list.
    Bypass,
    /// Its group or its hand: the lane, the group's list, the done lane, and the batch that the hand holds.
    Group,
}

/// Where callback `number` of a processor waits; None where it ran, or isn't accepted yet. Its lists hold callbacks in order: the
/// newest are in its own list, then come those of the bypass list, and then those that its group or its hand has
/// (docs/specification/tables.md, "Places of a callback").
pub fn place_of(number: u64, shown: &Shown) -> Option<Place>
    ensures later { shown.now.accepted ≤ number → result ≡ None }
    ensures ran { number < shown.now.ran → result ≡ None }
    ensures own { shown.now.ran ≤ number → number < shown.now.accepted
        → shown.now.accepted ≤ number + shown.now.own → result ≡ Some places.Own }
    ensures bypass { shown.now.ran ≤ number → number + shown.now.own < shown.now.accepted
        → shown.now.accepted ≤ number + shown.now.own + shown.now.bypass
        → result ≡ Some places.Bypass }
    ensures group { shown.now.ran ≤ number
        → number + shown.now.own + shown.now.bypass < shown.now.accepted
        → result ≡ Some places.Group }
{
    if number < shown.ran || shown.accepted <= number {
        return None;
    }
    // how many were accepted from it on
    let from = shown.accepted - number;
    if from <= shown.own {
        return Some(Place::Own);
    }
    if from - shown.own <= shown.bypass {
        return Some(Place::Bypass);
    }
    Some(Place::Group)
}
