//! A shape of the core's, for the running parts.

ghost use Rattle.rcu_numbers.specs.Shapes.{IsShapeOf};

use crate::parts_shape::PartsShape;
use crate::set::ProcessorSet;
use crate::shape::Shape;

impl Shape {
    /// The same shape for the running parts.
    pub fn for_parts(&self) -> PartsShape
        ensures { IsShapeOf self.now result }
    {
        PartsShape {
            processors: self.processors,
            offloadable: ProcessorSet::of_mask(self.offloadable),
            stride: self.stride,
            blimit: self.blimit,
            qhimark: self.qhimark,
            limit: self.limit,
        }
    }
}
