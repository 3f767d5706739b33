//! A group's list, over the blocks that batches came in.

use crate::same::assert_same;
use rcu_jobs::Callback;
use rcu_lists::{Batch, Chain};
use std::alloc::{AllocError, Global};
use std::process::Abort;

#[derive(Drop)]
struct Named;

// Adds a callback to a batch.
fn add(batch: &mut Batch<Named>, stamp: u64, number: u64) -> Result<(), AllocError> {
    batch.reserve(1)?;
    batch.add(Callback {
        cpu: 0,
        number,
        key: 7,
        stamp,
        job: Named,
    });
    Ok(())
}

// Joins to a chain a batch of so many callbacks, with the stamps from this one on. Answers whether the chain took them all.
fn join_batch(
    rt: &impl Abort,
    alloc: Global,
    chain: &mut Chain<Named>,
    stamp: u64,
    number: u64,
) -> bool {
    let mut batch = Batch::new(alloc);
    for more in 0..number {
        add(&mut batch, stamp.wrapping_add(more), more).expect(rt, "memory");
    }
    chain.join(&mut batch) && batch.is_empty()
}

// Joins such batches in order: the first stamp of each, and how many it has.
fn join_all(rt: &impl Abort, alloc: Global, chain: &mut Chain<Named>, batches: &[(u64, u64)]) {
    for (stamp, number) in batches {
        assert_same(rt, join_batch(rt, alloc, chain, *stamp, *number), true);
    }
}

// Takes the first callback, and answers its stamp.
fn first_stamp(chain: &mut Chain<Named>) -> Option<u64> {
    let first = chain.take_first()?;
    Some(first.stamp)
}

static RISING: [(u64, u64); 5] = [(0, 1), (1, 40), (41, 3), (44, 70), (114, 0)];

// One callback, forty in a block of their own, and some that join a block behind it: all come back in order.
#[test]
fn blocks_in_order(rt: HostRuntime) {
    let mut chain = Chain::new(rt.alloc());
    join_all(&rt, rt.alloc(), &mut chain, &RISING);
    assert_same(&rt, (chain.len(), chain.newest()), (114, Some(113)));
    for stamp in 0..114u64 {
        assert_same(&rt, first_stamp(&mut chain), Some(stamp));
    }
    assert_same(&rt, first_stamp(&mut chain), None);
}

static FALLING: [(u64, u64); 3] = [(8, 2), (100, 20), (4, 1)];

// Stamps that fall, and the greatest one in a block in the middle.
#[test]
fn newest_of_blocks(rt: HostRuntime) {
    let mut chain = Chain::new(rt.alloc());
    assert_same(&rt, chain.newest(), None);
    join_all(&rt, rt.alloc(), &mut chain, &FALLING);
    assert_same(&rt, chain.newest(), Some(119));
}
