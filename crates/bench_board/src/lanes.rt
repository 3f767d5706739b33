//! How many items a second cross a lane from one thread to another.

ghost use Rattle.rcu_lanes.specs.Ends.{SameRear, SameFront};

use rcu_lanes::{Draw, Front, Rear, lane, rest};
use std::alloc::{AllocError, Global};
use std::num::nearest_u64_to_f64;
use std::rt::Clock;
use std::sync::Wait;
use std::sync::atomic::{AtomicBool, Ordering};
use std::thread::Threads;
use std::time::Instant;
use std::{io, thread};

/// 64 bytes, of which the first eight are the item's number.
#[derive(Drop)]
struct Item {
    number: u64,
    _filling: [u64; 7],
}

/// What crosses a lane.
trait Load: Send + Drop {
    fn number(&self) -> u64;
}

impl Load for Item {
    fn number(&self) -> u64 {
        self.number
    }
}

/// A batch of items, under one number.
#[derive(Drop)]
struct Batch {
    number: u64,
    _items: Vec<Item>,
}

impl Load for Batch {
    fn number(&self) -> u64 {
        self.number
    }
}

const BATCH_LEN: u64 = 64;

fn make_item(number: u64) -> Item {
    Item {
        number,
        _filling: [0; 7],
    }
}

fn items(alloc: Global, count: u64) -> Result<Vec<Item>, AllocError> {
    let mut items = Vec::new(alloc);
    for number in 0..count {
        items.push(make_item(number))?;
    }
    Ok(items)
}

fn batches(alloc: Global, count: u64) -> Result<Vec<Batch>, AllocError> {
    let mut batches = Vec::new(alloc);
    for number in 0..count {
        batches.push(Batch {
            number,
            _items: items(alloc, BATCH_LEN)?,
        })?;
    }
    Ok(batches)
}

// Puts the loads in order, up to one that is refused, and then says that it stopped.
fn put_all<X: Load>(mut rear: Rear<X>, loads: Vec<X>, stopped: &AtomicBool) -> Rear<X>
    ensures { SameRear rear result }
{
    for load in loads {
        if rear.put(load).is_err() {
            break;
        }
    }
    stopped.store(true, Ordering::SeqCst);
    rear
}

// Draws until the lane is empty after the other end stopped. Counts the loads, up to one that is out of order.
fn draw_all<X: Load, R: Wait>(rt: &R, mut front: Front<X>, stopped: &AtomicBool) -> (Front<X>, u64)
    ensures { SameFront front result.0 }
{
    let mut next = 0u64;
    for _ in rt.forever() {
        let last = stopped.load(Ordering::SeqCst);
        match front.draw() {
            Draw::Got(load) if load.number() == next => next = next.wrapping_add(1),
            Draw::Got(_) => break,
            Draw::Empty if last => break,
            Draw::Empty => thread::yield_now(),
            Draw::Again => {}
        }
    }
    (front, next)
}

// How many loads crossed in order.
fn cross<X: Load, R: Threads + Wait + Sync>(
    rt: &R,
    alloc: Global,
    loads: Vec<X>,
) -> Result<u64, AllocError> {
    let (front, rear) = lane(alloc)?;
    let flag = AtomicBool::new(false);
    let stopped = &flag;
    let (rear, (front, crossed)) = thread::join(
        rt,
        move ||
            ensures { SameRear rear result }
        { put_all(rear, loads, stopped) },
        move ||
            ensures { SameFront front result.0 }
        { draw_all(rt, front, stopped) },
    );
    let mut left = rest(front, rear);
    Ok(if left.take().is_none() { crossed } else { 0 })
}

// Prints how many loads crossed a second.
fn print_rate<R: Print>(rt: &R, name: &str, crossed: u64, seconds: f64) -> io::Result<()> {
    println!(rt;
        "{crossed} {name}: {:.0} a second",
        nearest_u64_to_f64(crossed) / seconds
    )
}

// Measures how many loads cross a second.
fn time_crossing<X: Load, R: Threads + Wait + Sync + Clock + Print>(
    rt: &R,
    alloc: Global,
    name: &str,
    loads: Vec<X>,
) -> io::Result<()> {
    let start = Instant::now(rt)?;
    let crossed = cross(rt, alloc, loads)?;
    print_rate(rt, name, crossed, start.elapsed(rt)?.as_secs_f64())
}

/// Prints how many items, and how many batches, crossed a second.
pub(crate) fn time<R: Threads + Wait + Sync + Clock + Print>(
    rt: &R,
    alloc: Global,
) -> io::Result<()> {
    time_crossing(rt, alloc, "items of 64 bytes", items(alloc, 1_000_000)?)?;
    time_crossing(rt, alloc, "batches of 64 items", batches(alloc, 20_000)?)
}

// How many items of so many crossed in order.
fn cross_items<R: Threads + Wait + Sync>(
    rt: &R,
    alloc: Global,
    count: u64,
) -> Result<u64, AllocError> {
    cross(rt, alloc, items(alloc, count)?)
}

// How many batches of so many crossed in order.
fn cross_batches<R: Threads + Wait + Sync>(
    rt: &R,
    alloc: Global,
    count: u64,
) -> Result<u64, AllocError> {
    cross(rt, alloc, batches(alloc, count)?)
}

/// Hands over a fixed number of items and of batches, and prints how many came, each once and in order.
pub(crate) fn count<R: Threads + Wait + Sync + Print>(rt: &R, alloc: Global) -> io::Result<()> {
    let single = cross_items(rt, alloc, 10_000)?;
    let batched = cross_batches(rt, alloc, 500)?;
    println!(rt; "{single} items and {batched} batches crossed in order")
}
