//! What phases leave of a shape's parts.

use crate::opening::Work;
use crate::phases::phase::Phase;
use crate::phases::player::{Played, play};
use rcu_numbers::Shape;
use rcu_parts::open;
use std::alloc::Global;
use std::process::Abort;
use std::thread::Threads;

/// What these phases leave of a shape's parts. The test ends where memory is wanted.
pub(crate) fn played<R: Abort + Threads + Sync>(
    rt: &R,
    alloc: Global,
    shape: Option<Shape>,
    phases: Vec<Phase<Work>>,
) -> Played<Work> {
    let shape = shape.expect(rt, "a shape").for_parts();
    let parts = open(alloc, &shape).expect(rt, "memory");
    play(rt, alloc, parts, phases).expect(rt, "memory")
}
