//! Histories that are lawful or closed, and some that aren't, by the checker.

use crate::steps::expect;
use rcu_world_checker::{is_closed, is_lawful};
use rcu_world_law::marks::Mark::{Accepted, Back, Opened, Passed, Ran, Reported, Shut};

// Two processors: one callback runs, and one comes back.
#[test]
fn a_lawful_history(rt: HostRuntime) {
    let history = [
        Accepted(0, 7),
        Reported(1),
        Opened(0),
        Accepted(1, 7),
        Reported(0),
        Ran(0, 7),
        Passed(0),
        Shut(0),
        Shut(1),
        Back(1, 7),
    ];
    let lawful = [is_lawful(2, &history), is_lawful(2, &history[..9])];
    expect(&rt, "lawful", lawful, [true, true]);
    let closed = [
        is_closed(2, &history),
        is_closed(2, &history[..9]),
        is_closed(2, &[]),
    ];
    expect(&rt, "closed", closed, [true, false, true]);
}

#[test]
fn ran_without_a_report(rt: HostRuntime) {
    let lawful = [
        is_lawful(1, &[Accepted(0, 7), Ran(0, 7)]),
        is_lawful(1, &[Accepted(0, 7), Reported(0), Ran(0, 7)]),
    ];
    expect(&rt, "lawful", lawful, [false, true]);
}

#[test]
fn a_report_of_one_of_two(rt: HostRuntime) {
    let history = [Accepted(0, 7), Reported(0), Reported(0), Ran(0, 7)];
    let lawful = [is_lawful(1, &history), is_lawful(2, &history)];
    expect(&rt, "lawful", lawful, [true, false]);
}

#[test]
fn a_report_before_the_acceptance(rt: HostRuntime) {
    expect(
        &rt,
        "lawful",
        is_lawful(1, &[Reported(0), Accepted(0, 7), Ran(0, 7)]),
        false,
    );
}

#[test]
fn passed_before_it_ran(rt: HostRuntime) {
    let early = [Accepted(0, 7), Opened(0), Reported(0), Passed(0), Ran(0, 7)];
    let late = [Accepted(0, 7), Opened(0), Reported(0), Ran(0, 7), Passed(0)];
    let lawful = [
        is_lawful(1, &early),
        is_lawful(1, &late),
        // (what is accepted after a barrier was opened is no concern of it)
        is_lawful(1, &[Opened(0), Accepted(0, 7), Passed(0)]),
        is_lawful(1, &[Opened(0), Opened(1), Passed(1), Passed(0)]),
    ];
    expect(&rt, "lawful", lawful, [false, true, true, true]);
}

#[test]
fn passed_without_an_opening(rt: HostRuntime) {
    let lawful = [
        is_lawful(1, &[Passed(0)]),
        is_lawful(1, &[Passed(0), Opened(0)]),
        is_lawful(1, &[Accepted(0, 7), Opened(0), Passed(1)]),
        is_lawful(1, &[Opened(0), Passed(0)]),
    ];
    expect(&rt, "lawful", lawful, [false, false, false, true]);
}

#[test]
fn opened_twice(rt: HostRuntime) {
    let lawful = [
        is_lawful(1, &[Opened(0), Opened(0), Passed(0)]),
        is_lawful(1, &[Opened(0), Passed(0), Opened(0)]),
        is_lawful(1, &[Opened(0), Passed(0), Opened(1)]),
    ];
    expect(&rt, "lawful", lawful, [false, false, true]);
}

#[test]
fn accepted_after_shut(rt: HostRuntime) {
    let lawful = [
        is_lawful(1, &[Shut(0), Accepted(0, 7)]),
        is_lawful(2, &[Shut(0), Accepted(1, 7)]),
    ];
    expect(&rt, "lawful", lawful, [false, true]);
}

#[test]
fn back_without_shut(rt: HostRuntime) {
    let closed = [
        is_closed(1, &[Accepted(0, 7), Back(0, 7)]),
        is_closed(1, &[Accepted(0, 7), Back(0, 7), Shut(0)]),
        is_closed(1, &[Accepted(0, 7), Shut(0), Back(0, 7)]),
    ];
    expect(&rt, "closed", closed, [false, false, true]);
}

#[test]
fn out_of_order(rt: HostRuntime) {
    let history = [Accepted(0, 1), Accepted(0, 2), Reported(0), Ran(0, 2)];
    let turned = [
        Accepted(0, 1),
        Accepted(0, 2),
        Shut(0),
        Back(0, 2),
        Back(0, 1),
    ];
    let lawful = [is_lawful(1, &history), is_lawful(1, &turned)];
    expect(&rt, "lawful", lawful, [false, true]);
    expect(&rt, "closed", is_closed(1, &turned), false);
}

#[test]
fn twice(rt: HostRuntime) {
    let history = [
        Accepted(0, 1),
        Reported(0),
        Ran(0, 1),
        Reported(0),
        Ran(0, 1),
    ];
    let both = [Accepted(0, 1), Reported(0), Ran(0, 1), Shut(0), Back(0, 1)];
    let lawful = [
        is_lawful(1, &history[..4]),
        is_lawful(1, &history),
        is_lawful(1, &both),
    ];
    expect(&rt, "lawful", lawful, [true, false, true]);
    expect(&rt, "closed", is_closed(1, &both), false);
}

#[test]
fn of_another(rt: HostRuntime) {
    let lawful = [
        is_lawful(1, &[Accepted(0, 1), Reported(0), Ran(0, 2)]),
        is_lawful(1, &[Accepted(0, 1), Reported(0), Ran(1, 1)]),
    ];
    expect(&rt, "lawful", lawful, [false, false]);
    let closed = [
        is_closed(1, &[Accepted(0, 1), Shut(0), Back(0, 2)]),
        is_closed(1, &[Accepted(0, 1), Shut(0), Shut(1), Back(1, 1)]),
    ];
    expect(&rt, "closed", closed, [false, false]);
}
