//! What may be put on a lane.

ghost use Rattle.std.specs.Prelude.{List, ⊤};

/// A rule on the items of a lane. The end that puts owes it for each item, and the end that draws learns it.
///
/// A rule is named by a type of its own, which derives `Drop`, so that the ends of its lane may be dropped.
pub trait Rule<T> {
    // Of all items that were put before, first to last, and the item that is put next.
    ghost allows: { List T → T → Type 0 };
}

/// The rule that allows everything.
#[derive(Drop)]
pub struct Anything;

impl<T> Rule<T> for Anything {
    ghost allows = { λ before item. ⊤ };
}
