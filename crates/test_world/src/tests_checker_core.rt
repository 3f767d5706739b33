//! What the core's own runs leave is lawful, and closed at the end; and no longer closed where a mark of it is left out.

use crate::rounds::{Numbered, PROCESSORS, after_rounds};
use crate::steps::expect;
use rcu_jobs::Closed;
use rcu_world_checker::{is_closed, is_lawful};
use rcu_world_law::marks::Mark;
use std::alloc::{AllocError, Global};
use std::process::Abort;

// A history without the mark at a place.
fn without(alloc: Global, history: &[Mark], place: usize) -> Result<Vec<Mark>, AllocError> {
    let mut rest = Vec::new(alloc);
    for (at, mark) in history.iter().enumerate() {
        if at != place {
            rest.push(*mark)?;
        }
    }
    Ok(rest)
}

// Whether a closed history is no longer closed where any one callback's mark is left out.
fn needs_each(alloc: Global, history: &[Mark]) -> Result<bool, AllocError> {
    for (place, mark) in history.iter().enumerate() {
        let counts = matches!(mark, Mark::Accepted(..) | Mark::Ran(..) | Mark::Back(..));
        let rest = without(alloc, history, place)?;
        if counts && is_closed(PROCESSORS, rest.as_slice()) {
            return Ok(false);
        }
    }
    Ok(true)
}

// A history is closed, but not without the mark of any one callback.
fn expect_closed(rt: &impl Abort, alloc: Global, history: &[Mark]) {
    let all = is_closed(PROCESSORS, history);
    let each = needs_each(alloc, history).expect(rt, "memory");
    expect(rt, "closed", (all, each), (true, true));
}

// A run is one in which all kinds of mark stand.
fn expect_all_kinds(rt: &impl Abort, history: &[Mark], closed: &Closed<Numbered>) {
    let ran = closed.ran.iter().map(|records| records.len()).min();
    let back = closed.back.iter().map(|jobs| jobs.len()).min();
    let passed = history.iter().any(|mark| matches!(mark, Mark::Passed(_)));
    let all = (ran > Some(1), back > Some(0), passed);
    expect(rt, "ran, back, passed", all, (true, true, true));
}

// Many events were made, and the history that they leave is lawful, but not closed yet.
fn expect_lawful(rt: &impl Abort, history: &[Mark], events: usize) {
    let lawful = is_lawful(PROCESSORS, history);
    let found = (events > 300, lawful, is_closed(PROCESSORS, history));
    expect(rt, "many, lawful, closed", found, (true, true, false));
}

#[test]
fn what_the_core_leaves(rt: HostRuntime) {
    let (world, events) = after_rounds(&rt, rt.alloc(), 6);
    expect_lawful(&rt, world.history(), events);
    let Ok((marks, closed)) = world.close() else {
        panic!(&rt; "no room");
    };
    expect_closed(&rt, rt.alloc(), marks.as_slice());
    expect_all_kinds(&rt, marks.as_slice(), &closed);
}
