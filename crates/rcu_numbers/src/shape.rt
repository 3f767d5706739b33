//! The shape of a runtime: how many processors it has, which are offloadable, and its limits.

ghost use Rattle.std.specs.Prelude.{◌≡◌, ℕ, ◌/◌, ◌^◌, ◌<◌, ◌≤◌, ◌↔◌, IsSome, IsTrue, IfSome};
ghost use Rattle.rcu_numbers.specs.Limits.{IsWithin, IsWithinLimits, IsWholeRoot};
ghost use Rattle.rcu_numbers.specs.declared.set.TheConstants.{PARTS_PROCESSORS};

/// The most processors that a setup, the program `rcuo` and the core have. The running parts have more:
/// [`PARTS_PROCESSORS`](crate::PARTS_PROCESSORS).
pub const MOST_PROCESSORS: u64 = 32;

/// The greatest value of `blimit` and `qhimark`, and of the `limit` of a [`Shape`].
pub const MOST_CALLBACKS: u64 = 1000000;

/// How many callbacks a processor of the running parts accepts in its life at most, 2^53: those of 1,024 processors together
/// are still counted in 64 bits.
pub const MOST_CALLS: u64 = 9007199254740992;

/// How many callbacks a turn runs or gives where nothing else is said.
pub const DEFAULT_BLIMIT: u64 = 10;

/// The length at which a bypass list is released where nothing else is said.
pub const DEFAULT_QHIMARK: u64 = 10000;

/// How many callbacks each processor accepts where nothing else is said.
pub const DEFAULT_LIMIT: u64 = 1000000;

/// What the core is opened with, and a runtime of at most 32 processors ([`Shape::for_parts`]). Each value of it is within the
/// limits of docs/specification/rules.md, "Limits".
#[derive(Clone, Copy, Debug, PartialEq, Eq)]
pub struct Shape {
    /// How many processors there are, 1 to 32.
    pub processors: u64,
    /// The mask of the processors that start Offloaded and may be switched: bit `p` for processor `p`.
    pub offloadable: u32,
    /// How many neighbouring processors make a group, 1 to 32: processor `p` is in group `p / stride`.
    pub stride: u64,
    /// How many callbacks one turn runs or gives at most, 1 to 1000000.
    pub blimit: u64,
    /// The length at which a bypass list is released, 1 to 1000000.
    pub qhimark: u64,
    /// How many callbacks each processor accepts in all, 1 to 1000000.
    pub limit: u64,
    pub ghost within: { IsWithinLimits processors offloadable stride blimit qhimark limit },
}

impl Shape {
    /// The shape of these values, or None exactly where one is outside the limits.
    pub fn new(
        processors: u64,
        offloadable: u32,
        stride: u64,
        blimit: u64,
        qhimark: u64,
        limit: u64,
    ) -> Option<Shape>
        ensures within { IsSome result
            ↔ IsWithinLimits processors offloadable stride blimit qhimark limit }
        ensures placed { IfSome result (λ s.
            (s.processors ≡ processors) × (s.offloadable ≡ offloadable) × (s.stride ≡ stride)) }
        ensures limits { IfSome result (λ s.
            (s.blimit ≡ blimit) × (s.qhimark ≡ qhimark) × (s.limit ≡ limit)) }
    {
        if !is_within(1, MOST_PROCESSORS, processors) || !is_within(1, MOST_PROCESSORS, stride) {
            return None;
        }
        if u64::from(offloadable) >= 1 << processors {
            return None;
        }
        if !is_within(1, MOST_CALLBACKS, blimit)
            || !is_within(1, MOST_CALLBACKS, qhimark)
            || !is_within(1, MOST_CALLBACKS, limit)
        {
            return None;
        }
        Some(Shape {
            processors,
            offloadable,
            stride,
            blimit,
            qhimark,
            limit,
        })
    }
}

pub(crate) fn is_within(least: u64, greatest: u64, n: u64) -> bool
    ensures { IsTrue result ↔ IsWithin least greatest n }
{
    least <= n && n <= greatest
}

/// The stride of a runtime of `processors` processors where none is given: their number divided by its whole square
/// root.
pub fn default_stride(processors: u64) -> u64
    requires { IsWithin 1 PARTS_PROCESSORS processors }
    ensures stride { (r : ℕ) → IsWholeRoot processors r → result ≡ processors / r }
    ensures within { IsWithin 1 processors result }
{
    processors / processors.isqrt()
}
