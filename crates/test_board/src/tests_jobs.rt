//! Jobs that run, and the records that they leave.

ghost use Rattle.std.specs.Prelude.{◌≡◌, vec_len};

use crate::tests::expect;
use rcu_jobs::{BoxedJob, Callback, Counts, Job, Refused, SwitchFault, run_callback};
use std::alloc::{AllocError, Global};
use std::process::Abort;
use std::sync::Arc;
use std::sync::atomic::{AtomicU64, Ordering};
use std::thread;

const KEY_STEP: u64 = 65536;

type Work = BoxedJob<65536>;

type Flag = Arc<AtomicU64, Global>;

/// A number that jobs change, 0 at first.
fn flag(rt: &impl Abort, alloc: Global) -> Flag {
    Arc::new(alloc, AtomicU64::new(0)).expect(rt, "memory")
}

/// A version of so many hops.
fn version(alloc: Global, hops: u64) -> Result<Vec<u64>, AllocError> {
    let mut version = Vec::new(alloc);
    for hop in 0..hops {
        version.push(hop)?;
    }
    Ok(version)
}

/// The callback of this number, if it is below 10. Its job owns a version, drops it and answers how many routes it held.
fn callback(alloc: Global, number: u64) -> Result<Option<Callback<Work>>, AllocError> {
    let version = version(alloc, number)?;
    if number >= 10 || version.len() >= 10 {
        return Ok(None);
    }
    let key = number * KEY_STEP + version.len() as u64;
    let call: Box<dyn FnOnce() -> u64 + Send> = Box::new(
        alloc,
        move || -> u64
            ensures { result ≡ vec_len version }
        {
            let routes = version.len() as u64;
            drop(version);
            routes
        },
    )?;
    let job = BoxedJob::new(key, call);
    Ok(Some(Callback {
        cpu: 0,
        number,
        key,
        stamp: 4,
        job,
    }))
}

/// The callbacks of the numbers below `count`.
fn callbacks(rt: &impl Abort, alloc: Global, count: u64) -> Vec<Callback<Work>> {
    let mut callbacks = Vec::new(alloc);
    for number in 0..count {
        if let Some(callback) = callback(alloc, number).expect(rt, "memory") {
            callbacks.push(callback).expect(rt, "memory");
        }
    }
    callbacks
}

/// Runs a callback at the number 8. Answers its number, and its record's number, stamp and number at the run, its key's rest
/// and its receipt.
fn ran(callback: Callback<Work>) -> [u64; 6] {
    let number = callback.number;
    let record = run_callback(callback, 8);
    [
        number,
        record.number,
        record.stamp,
        record.ready,
        record.key % KEY_STEP,
        record.receipt,
    ]
}

#[test]
fn run_in_order(rt: HostRuntime) {
    let mut count: u64 = 0;
    for callback in callbacks(&rt, rt.alloc(), 3) {
        let wanted = [count, count, 4, 8, count, count];
        expect(&rt, "record", ran(callback), wanted);
        count = count.saturating_add(1);
    }
    expect(&rt, "how many", count, 3);
}

/// A job that gives 7, and raises a flag when its call is made.
fn raising(alloc: Global, raised: Flag) -> Result<Work, AllocError> {
    let call: Box<dyn FnOnce() -> u64 + Send> = Box::new(
        alloc,
        move || -> u64
            ensures { result ≡ 7 }
        {
            raised.store(1, Ordering::SeqCst);
            7
        },
    )?;
    Ok(BoxedJob::new(KEY_STEP + 7, call))
}

// A boxed job makes its call: a body that answers the key's rest by itself meets the promise of the receipt, too.
#[test]
fn boxed_call_is_made(rt: HostRuntime) {
    let made = flag(&rt, rt.alloc());
    let raised = Arc::try_clone(&made).expect(&rt, "memory");
    let job = raising(rt.alloc(), raised).expect(&rt, "memory");
    let before = made.load(Ordering::SeqCst);
    let found = [before, job.run(), made.load(Ordering::SeqCst)];
    expect(&rt, "made, receipt, made", found, [0, 7, 1]);
}

/// Counts how often a value of it is dropped.
struct Dropped(Flag);

impl Drop for Dropped {
    fn drop(self) {
        let Dropped(count) = self;
        count.fetch_add(1, Ordering::SeqCst);
    }
}

/// A job that gives 7, and counts that it is dropped, run or not.
fn counting(alloc: Global, count: Flag) -> Result<BoxedJob<0>, AllocError> {
    let held = Dropped(count);
    let call: Box<dyn FnOnce() -> u64 + Send> = Box::new(alloc, move || {
        drop(held);
        7
    })?;
    Ok(BoxedJob::new(5, call))
}

/// So many of these jobs.
fn counting_jobs(rt: &impl Abort, alloc: Global, count: &Flag, many: u64) -> Vec<BoxedJob<0>> {
    let mut jobs = Vec::new(alloc);
    for _ in 0..many {
        let count = Arc::try_clone(count).expect(rt, "memory");
        let job = counting(alloc, count).expect(rt, "memory");
        jobs.push(job).expect(rt, "memory");
    }
    jobs
}

/// The last one of some jobs; the others are dropped.
fn last(mut jobs: Vec<BoxedJob<0>>) -> Option<BoxedJob<0>> {
    jobs.pop()
}

#[test]
fn dropped_unrun(rt: HostRuntime) {
    let count = flag(&rt, rt.alloc());
    let jobs = counting_jobs(&rt, rt.alloc(), &count, 3);
    let last = last(jobs).expect(&rt, "empty");
    let before = count.load(Ordering::SeqCst);
    // a boxed job crosses to another thread
    let (receipt, _) = thread::join(&rt, move || last.run(), move || 0u64);
    let found = [before, receipt, count.load(Ordering::SeqCst)];
    expect(&rt, "dropped, receipt, dropped", found, [2, 7, 3]);
}

#[test]
fn refusal_numbers(rt: HostRuntime) {
    let refused = [
        Refused::Limit(7u64).number(),
        Refused::Memory(7u64).number(),
        Refused::Closed(7u64).number(),
        Refused::Closed(7u64).into_job(),
    ];
    expect(&rt, "refused", refused, [4, 2, 3, 7]);
    let faults = [
        SwitchFault::NoProcessor(3).number(),
        SwitchFault::NotOffloadable(3).number(),
    ];
    expect(&rt, "faults", faults, [6, 5]);
}

#[test]
fn counts_of_processors(rt: HostRuntime) {
    let mut counts = Counts::new(3);
    expect(&rt, "processors", counts.n, 3);
    counts.set(1, 5);
    expect(&rt, "counts", counts.of_processors(), [0, 5, 0].as_slice());
}
