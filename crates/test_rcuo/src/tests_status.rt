//! The lines of lists and totals.

use crate::expect::expect_text;
use rcu_jobs::{BoxedJob, Closed, Counts, Lists, Mode, Record};
use rcu_status::{counts, line, totals};
use std::alloc::Global;
use std::process::Abort;

fn record(receipt: u64) -> Record<u64> {
    Record {
        number: 0,
        key: receipt,
        stamp: 0,
        ready: 4,
        receipt,
    }
}

// The lists of a processor, or of a member of a group, and their lines.
static LINES: [(u64, Lists, &str); 5] = [
    (
        0,
        Lists::Cpu {
            mode: Mode::Local,
            accepted: 6,
            bypass: 0,
            lengths: [1, 1, 1, 1],
            numbers: [8, 12],
        },
        "cpu 0 Local accepted 6 bypass 0 done 1 wait 1@8 ready 1@12 next 1\n",
    ),
    (
        0,
        Lists::Cpu {
            mode: Mode::Offloaded,
            accepted: 17,
            bypass: 1,
            lengths: [0; 4],
            numbers: [0; 2],
        },
        "cpu 0 Offloaded accepted 17 bypass 1 done 0 wait 0@0 ready 0@0 next 0\n",
    ),
    (
        31,
        Lists::Cpu {
            mode: Mode::Deoffloading,
            accepted: 1,
            bypass: 0,
            lengths: [0; 4],
            numbers: [0; 2],
        },
        "cpu 31 Deoffloading accepted 1 bypass 0 done 0 wait 0@0 ready 0@0 next 0\n",
    ),
    (
        7,
        Lists::Cpu {
            mode: Mode::Offloading,
            accepted: 17,
            bypass: 0,
            lengths: [0, 0, 0, 17],
            numbers: [0; 2],
        },
        "cpu 7 Offloading accepted 17 bypass 0 done 0 wait 0@0 ready 0@0 next 17\n",
    ),
    (
        0,
        Lists::Folk {
            lengths: [0, 4, 0, 0],
            numbers: [12, 0],
        },
        "group of 0 done 0 wait 4@12 ready 0@0 next 0\n",
    ),
];

#[test]
fn lines(rt: HostRuntime) {
    for (p, lists, want) in LINES.iter() {
        expect_text(&rt, "a line", line(rt.alloc(), *p, lists).ok(), want);
    }
}

// What is left of no processor.
fn no_ends(alloc: Global) -> Closed<BoxedJob<0>> {
    Closed {
        ran: Vec::new(alloc),
        back: Vec::new(alloc),
        reports: Vec::new(alloc),
    }
}

// What is left of two processors: two receipts whose sum is above the greatest `u64`, and a job that was handed back.
fn two_ends(rt: &impl Abort, alloc: Global, job: BoxedJob<0>) -> Closed<BoxedJob<0>> {
    let records = [record(18446744073709551615), record(2)];
    let records = Vec::from_array(alloc, records).ok().expect(rt, "memory");
    let job = vec![in alloc; job].expect(rt, "memory");
    Closed {
        ran: vec![in alloc; records, Vec::new(alloc)].expect(rt, "memory"),
        back: vec![in alloc; Vec::new(alloc), job].expect(rt, "memory"),
        reports: vec![in alloc; 1, 0].expect(rt, "memory"),
    }
}

// The totals of two processors, of which the second handed a job back, without the reports and with them.
static TOTALS: [(bool, &str); 2] = [
    (
        false,
        "cpu 0 ran 2 back 0 routes 18446744073709551617\ncpu 1 ran 0 back 1 routes 0\n",
    ),
    (
        true,
        "cpu 0 ran 2 back 0 routes 18446744073709551617\ncpu 1 ran 0 back 1 routes 0\nreports 1,0\n",
    ),
];

// The totals of what is left, with the reports or without.
fn expect_totals(
    rt: &impl Abort,
    alloc: Global,
    closed: &Closed<BoxedJob<0>>,
    reports: bool,
    wanted: &str,
) {
    expect_text(rt, "totals", totals(alloc, closed, reports).ok(), wanted);
}

#[test]
fn ends(rt: HostRuntime) {
    expect_totals(&rt, rt.alloc(), &no_ends(rt.alloc()), false, "");
    let call = Box::new(rt.alloc(), || 7).ok().expect(&rt, "memory");
    let job = BoxedJob::<0>::new(5, call);
    let closed = two_ends(&rt, rt.alloc(), job);
    for (reports, wanted) in TOTALS.iter() {
        expect_totals(&rt, rt.alloc(), &closed, *reports, wanted);
    }
}

// The counts of `shut` as they are shown.
#[test]
fn shut_counts(rt: HostRuntime) {
    let mut taken = Counts::new(3);
    taken.set(1, 12);
    expect_text(&rt, "counts", counts(rt.alloc(), &taken).ok(), "0,12,0");
    let none = counts(rt.alloc(), &Counts::new(0));
    expect_text(&rt, "counts", none.ok(), "");
}
