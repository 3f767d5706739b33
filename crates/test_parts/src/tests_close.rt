//! What `close` and `again` answer.

use crate::opening::Work;
use crate::same::assert_same;
use rcu_jobs::Closed;
use rcu_numbers::Shape;
use rcu_parts::{close, open};
use std::process::Abort;

/// That these are the ends of four processors, of which nothing came back, and none passed a grace period.
fn assert_nothing_happened(rt: &impl Abort, closed: &Closed<Work>) {
    assert_same(
        rt,
        [closed.ran.len(), closed.back.len(), closed.reports.len()],
        [4; 3],
    );
    for back in closed.back.iter() {
        assert_same(rt, back.len(), 0);
    }
    for reports in closed.reports.iter() {
        assert_same(rt, *reports, 0);
    }
}

#[test]
fn an_empty_runtime_closes(rt: HostRuntime) {
    let shape = Shape::new(4, 0b1010, 2, 10, 16, 20).expect(&rt, "a shape");
    let parts = open::<Work>(rt.alloc(), &shape.for_parts()).expect(&rt, "memory");
    let Ok(closed) = close(rt.alloc(), parts) else {
        panic!(&rt; "no room");
    };
    assert_nothing_happened(&rt, &closed);
}
