//! A runtime of one processor, as the tests open it.

use crate::opening::Work;
use rcu_numbers::Shape;
use rcu_parts::{AllParts, Control, Driver, Group, Hand, Parts, Processor, open};
use std::alloc::Global;
use std::process::Abort;

/// All parts of a runtime of one processor, which is offloadable.
#[derive(Drop)]
pub struct AllOfOne {
    /// The processor.
    pub processor: Processor<Work>,
    /// Its group.
    pub group: Group<Work>,
    /// Its hand.
    pub hand: Option<Hand<Work>>,
    /// The driver.
    pub driver: Driver,
    /// Control.
    pub control: Control,
}

/// Opens a runtime of one processor. The test ends where memory is wanted.
fn open_one(rt: &impl Abort, alloc: Global, offloadable: bool) -> Parts<Work> {
    let shape = Shape::new(1, u32::from(offloadable), 1, 10, 16, 8).expect(rt, "a shape");
    open(alloc, &shape.for_parts()).expect(rt, "memory")
}

/// Opens a runtime of a Local processor. Answers this and the driver.
pub fn open_local(rt: &impl Abort, alloc: Global) -> (Processor<Work>, Driver) {
    let AllParts {
        mut processors,
        driver,
        groups: _,
        hands: _,
        control: _,
    } = open_one(rt, alloc, false);
    (processors.pop().expect(rt, "a processor"), driver)
}

/// Opens a runtime of an offloadable processor.
pub fn open_offloaded(rt: &impl Abort, alloc: Global) -> AllOfOne {
    let AllParts {
        mut processors,
        driver,
        mut groups,
        mut hands,
        control,
    } = open_one(rt, alloc, true);
    AllOfOne {
        processor: processors.pop().expect(rt, "a processor"),
        group: groups.pop().expect(rt, "a group"),
        hand: hands.pop(),
        driver,
        control,
    }
}
