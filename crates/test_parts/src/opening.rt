//! The parts of a runtime, as the tests open them.
//!
//! Where something is wanting the test ends here. So no test has a way out of its own, at which all that it has is dropped.

use rcu_jobs::{BoxedJob, Ticket};
use rcu_numbers::{PartsShape, Shape};
use rcu_parts::{Kept, Parts, Processor, open_with};
use std::alloc::Global;
use std::process::Abort;

/// The jobs of the tests.
pub type Work = BoxedJob<0>;

/// A job that gives its key. None where memory is wanted.
pub fn job(alloc: Global, key: u64) -> Option<Work> {
    Some(BoxedJob::new(key, Box::new(alloc, move || key).ok()?))
}

/// The same. The test ends where memory is wanted.
pub fn made_job(rt: &impl Abort, alloc: Global, key: u64) -> Work {
    job(alloc, key).expect(rt, "memory")
}

/// One call, of a job that gives its key. None where it is refused, or memory is wanted.
pub fn call(
    alloc: Global,
    processor: &mut Processor<Work>,
    moment: u64,
    key: u64,
) -> Option<Ticket> {
    processor.call_rcu(moment, job(alloc, key)?).ok()
}

/// A lazy call, as `call`.
pub fn call_lazy(
    alloc: Global,
    processor: &mut Processor<Work>,
    moment: u64,
    key: u64,
) -> Option<Ticket> {
    processor.call_rcu_lazy(moment, job(alloc, key)?).ok()
}

/// The parts of a runtime. They are dropped by hand, which is proved once, and not in each test.
pub struct Opened {
    pub parts: Parts<Work>,
}

impl Drop for Opened {
    fn drop(self) {
        let Opened { parts: _ } = self;
    }
}

/// Opens a runtime of a shape, with this choice of what is kept.
pub fn open_kept(rt: &impl Abort, alloc: Global, shape: Option<PartsShape>, kept: Kept) -> Opened {
    let shape = shape.expect(rt, "a shape");
    Opened {
        parts: open_with(alloc, &shape, kept).expect(rt, "memory"),
    }
}

/// Opens a runtime of a shape, which keeps what ran.
pub fn open_shape(rt: &impl Abort, alloc: Global, shape: Option<Shape>) -> Opened {
    let shape = shape.expect(rt, "a shape").for_parts();
    open_kept(rt, alloc, Some(shape), Kept::Whole)
}

/// Opens a runtime of a Local processor, which runs `blimit` callbacks at most in a tick and accepts `limit` in all.
pub fn open_local(rt: &impl Abort, alloc: Global, blimit: u64, limit: u64) -> Opened {
    open_shape(rt, alloc, Shape::new(1, 0, 1, blimit, 16, limit))
}

/// The same of an offloadable one, of which a turn of the group or of the hand gives or runs `blimit` at most.
pub fn open_offloaded(
    rt: &impl Abort,
    alloc: Global,
    blimit: u64,
    qhimark: u64,
    limit: u64,
) -> Opened {
    open_shape(rt, alloc, Shape::new(1, 1, 1, blimit, qhimark, limit))
}

/// The last of some parts of a kind: the only one, where a runtime has one.
pub fn last<'a, T>(rt: &impl Abort, parts: &'a mut Vec<T>) -> &'a mut T {
    parts.last_mut().expect(rt, "a part")
}
