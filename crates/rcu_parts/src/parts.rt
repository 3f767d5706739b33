//! All parts of one open.

use rcu_part_control::{Control, Driver};
use rcu_part_group::Group;
use rcu_part_hand::Hand;
use rcu_part_processor::Processor;

/// The parts of one open (docs/specification/surface.md, "rcu_parts"), each for a thread of its own. `close` asks for them
/// all, in the same order.
pub type Parts<J> = AllParts<Processor<J>, Group<J>, Hand<J>>;

/// [`Parts`], by the types of processors, groups and hands. That the type itself names these three tells each function
/// that takes or gives all parts that they fit in memory.
#[derive(Drop)]
pub struct AllParts<P, G, H> {
    /// One for each processor, in rising order.
    pub processors: Vec<P>,
    pub driver: Driver,
    /// One for each group with an offloadable member, in rising order.
    pub groups: Vec<G>,
    /// One for each offloadable processor, in rising order.
    pub hands: Vec<H>,
    pub control: Control,
}
