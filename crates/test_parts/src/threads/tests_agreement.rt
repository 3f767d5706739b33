//! What threads did, by the law of the core: the history in the order of numbers, made of what `close` answered after them.

use crate::opening::Work;
use crate::same::assert_same;
use crate::threads::runs::run_keyed;
use rcu_agreement_checker::{accounts_of, agrees, witness};
use rcu_jobs::Closed;
use rcu_numbers::Shape;
use rcu_world_checker::is_closed;
use std::alloc::{AllocError, Global};

/// The keys that each of `many` processors accepts of so many jobs, which are dealt in turn, up to its limit.
fn dealt(alloc: Global, many: u64, jobs: u64, limit: usize) -> Result<Vec<Vec<u64>>, AllocError> {
    let mut keys = Vec::new(alloc);
    for p in 0..many {
        let own = (0..jobs).filter(|key| *key % many.max(1) == p);
        keys.push(own.take(limit).collect(alloc)?)?;
    }
    Ok(keys)
}

/// Whether the history in the order of numbers agrees with what `close` answered, and whether it is closed.
fn judged(
    alloc: Global,
    accepted: &[Vec<u64>],
    closed: &Closed<Work>,
) -> Result<(bool, bool), AllocError> {
    let accounts = accounts_of(alloc, accepted, closed)?;
    let history = witness(alloc, accounts.as_slice(), &[])?;
    let agreed = agrees(accounts.as_slice(), &[], history.as_slice());
    Ok((agreed, is_closed(accounts.len() as u64, history.as_slice())))
}

/// The same, where so many jobs were dealt to `many` processors up to the limit of each. None where memory is wanted.
fn judged_as_dealt(
    alloc: Global,
    many: u64,
    jobs: u64,
    limit: usize,
    closed: &Closed<Work>,
) -> Option<(bool, bool)> {
    let accepted = dealt(alloc, many, jobs, limit).ok()?;
    judged(alloc, accepted.as_slice(), closed).ok()
}

#[test]
fn four_processors_keep_the_law(rt: HostRuntime) {
    let alloc = rt.alloc();
    let shape = Shape::new(4, 0b1110, 2, 10, 10000, 1000);
    let ended = run_keyed(&rt, alloc, shape, 100);
    let found = judged_as_dealt(alloc, 4, 100, 1000, &ended.closed);
    assert_same(&rt, found, Some((true, true)));
}

#[test]
fn refused_jobs_keep_the_law(rt: HostRuntime) {
    let alloc = rt.alloc();
    let shape = Shape::new(2, 0b10, 1, 10, 10000, 2);
    let ended = run_keyed(&rt, alloc, shape, 8);
    let found = judged_as_dealt(alloc, 2, 8, 2, &ended.closed);
    // (two more jobs than there are are none that it accepted)
    let wrong = judged_as_dealt(alloc, 2, 8, 3, &ended.closed);
    assert_same(
        &rt,
        [found, wrong],
        [Some((true, true)), Some((true, false))],
    );
}

/// Swaps the first two records of processor 1. None where there are fewer.
fn swap_two(closed: &mut Closed<Work>) -> Option<()> {
    let records = closed.ran.get_mut(1)?;
    if records.len() < 2 {
        return None;
    }
    records.swap(0, 1);
    Some(())
}

#[test]
fn records_that_are_swapped(rt: HostRuntime) {
    let alloc = rt.alloc();
    let shape = Shape::new(2, 0b10, 1, 10, 10000, 1000);
    let mut ended = run_keyed(&rt, alloc, shape, 8);
    assert_same(&rt, swap_two(&mut ended.closed), Some(()));
    let found = judged_as_dealt(alloc, 2, 8, 1000, &ended.closed);
    assert_same(&rt, found, Some((true, false)));
}
