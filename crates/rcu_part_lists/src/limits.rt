//! What may be put on the lanes between the running parts.

ghost use Rattle.rcu_part_lists.specs.Limits.{IsAllowed};

use rcu_lanes::Rule;
use rcu_lists::Parcel;

/// The rule on the batches of a lane: each callback's stamp is a grace-period number, at most
/// [`rcu_numbers::LAST_NUMBER`], its number is below [`rcu_numbers::MOST_CALLS`],
/// and with all that went before they are no more than that (docs/specification/rules.md, "Limits").
#[derive(Drop)]
pub struct LaneLimits;

impl<J> Rule<Parcel<J>> for LaneLimits {
    ghost allows = { λ before parcel. IsAllowed before parcel };
}
