//! The shape of the running parts: more processors and calls than a [`Shape`](crate::Shape) has.

ghost use Rattle.std.specs.Prelude.{◌≡◌, ◌^◌, ◌<◌, ◌≤◌, ◌↔◌, IsSome, IfSome};
ghost use Rattle.rcu_numbers.specs.Limits.{IsWithinPartsLimits};

use crate::set::{PARTS_PROCESSORS, ProcessorSet};
use crate::shape::{MOST_CALLBACKS, MOST_CALLS, is_within};

/// What the running parts are opened with. Each value of it is within the limits of docs/specification/rules.md,
/// "Limits".
#[derive(Drop)]
pub struct PartsShape {
    /// How many processors there are, 1 to 1024.
    pub processors: u64,
    /// The processors that start Offloaded and may be switched.
    pub offloadable: ProcessorSet,
    /// How many neighbouring processors make a group, 1 to 1024: processor `p` is in group `p / stride`.
    pub stride: u64,
    /// How many callbacks one turn runs or gives at most, 1 to 1000000.
    pub blimit: u64,
    /// The length at which a bypass list is released, 1 to 1000000.
    pub qhimark: u64,
    /// How many callbacks each processor accepts in all, 1 to 2^53.
    pub limit: u64,
    pub ghost within: { IsWithinPartsLimits processors offloadable stride blimit qhimark limit },
}

impl PartsShape {
    /// The shape of these values, or None exactly where one is outside the limits.
    pub fn new(
        processors: u64,
        offloadable: &ProcessorSet,
        stride: u64,
        blimit: u64,
        qhimark: u64,
        limit: u64,
    ) -> Option<PartsShape>
        ensures within { IsSome result
            ↔ IsWithinPartsLimits processors offloadable.now stride blimit qhimark limit }
        ensures placed { IfSome result (λ s.
            (s.processors ≡ processors) × (s.offloadable ≡ offloadable.now) × (s.stride ≡ stride)) }
        ensures limits { IfSome result (λ s.
            (s.blimit ≡ blimit) × (s.qhimark ≡ qhimark) × (s.limit ≡ limit)) }
    {
        if !is_within(1, PARTS_PROCESSORS, processors) || !is_within(1, PARTS_PROCESSORS, stride) {
            return None;
        }
        if !offloadable.is_below(processors) {
            return None;
        }
        if !is_within(1, MOST_CALLBACKS, blimit)
            || !is_within(1, MOST_CALLBACKS, qhimark)
            || !is_within(1, MOST_CALLS, limit)
        {
            return None;
        }
        Some(PartsShape {
            processors,
            offloadable: offloadable.copied(),
            stride,
            blimit,
            qhimark,
            limit,
        })
    }
}
