//! The scenario of the list types.

ghost use Rattle.std.specs.Prelude.{◌≡◌, IfOk};
ghost use Rattle.rcu_lists.specs.Bypasses.{BypassRoom};
ghost use Rattle.rcu_lists.specs.Segments.{SegmentsRoom};

use crate::growth::{Broken, Growth, Refusals, refused_again, stands};
use crate::work::Work;
use rcu_jobs::Callback;
use rcu_lists::{Batch, Bypass, Kind, Placed, Segments};
use std::alloc::Global;

/// How many callbacks there are: more than stand in a batch without memory.
const CALLBACKS: u64 = 40;

/// How many are taken as a batch.
const TAKEN: usize = 20;

fn callback(number: u64) -> Callback<Work>
    ensures number { result.number ≡ number }
    ensures key { result.key ≡ number }
    ensures job { result.job.key ≡ number }
{
    Callback {
        cpu: 0,
        number,
        key: number,
        stamp: 0,
        job: Work { key: number },
    }
}

/// Finds room for a callback, again where it was refused.
fn find_room(refusals: &mut Refusals, list: &mut Segments<Work>) -> Result<(), Broken>
    ensures room { IfOk result (λ _. SegmentsRoom list.new 1) }
{
    let before = list.lengths();
    if list.reserve(1).is_ok() {
        return Ok(());
    }
    let same = list.lengths() == before;
    refusals.note_same(Growth::Reserve, same, "the list changed")?;
    stands(list.reserve(1).is_ok(), Growth::Reserve, "refused again")
}

/// Adds a callback, in room that is found before.
fn enqueue(refusals: &mut Refusals, list: &mut Segments<Work>, number: u64) -> Result<(), Broken> {
    find_room(refusals, list)?;
    list.enqueue(callback(number));
    Ok(())
}

/// Fills a list with callbacks, which then are done.
fn fill(refusals: &mut Refusals, list: &mut Segments<Work>) -> Result<(), Broken> {
    for number in 0..CALLBACKS {
        enqueue(refusals, list, number)?;
    }
    if list.may_accelerate(4) {
        list.accelerate(4);
    }
    list.advance(4);
    Ok(())
}

/// Takes a batch of done callbacks.
fn take_batch(refusals: &mut Refusals, list: &mut Segments<Work>) -> Result<Batch<Work>, Broken> {
    let before = (list.lengths(), list.numbers());
    if let Ok(batch) = list.take_batch(TAKEN) {
        return Ok(batch);
    }
    let same = before == (list.lengths(), list.numbers());
    refusals.note_same(Growth::TakeBatch, same, "the list changed")?;
    match list.take_batch(TAKEN) {
        Ok(batch) => Ok(batch),
        Err(_) => Err(refused_again(Growth::TakeBatch)),
    }
}

/// Pours what is left.
fn pour(
    refusals: &mut Refusals,
    list: &mut Segments<Work>,
    bypass: &mut Bypass<Work>,
) -> Result<(), Broken> {
    let before = (list.lengths(), list.numbers(), bypass.len());
    if list.pour(bypass).is_ok() {
        return Ok(());
    }
    let same = before == (list.lengths(), list.numbers(), bypass.len());
    refusals.note_same(Growth::Pour, same, "a list changed")?;
    stands(list.pour(bypass).is_ok(), Growth::Pour, "refused again")
}

/// Finds room for a lazy callback, again where it was refused.
fn find_bypass_room(refusals: &mut Refusals, bypass: &mut Bypass<Work>) -> Result<(), Broken>
    ensures room { IfOk result (λ _. BypassRoom bypass.new 1) }
{
    let before = bypass.len();
    if bypass.reserve().is_ok() {
        return Ok(());
    }
    let same = bypass.len() == before;
    refusals.note_same(Growth::BypassReserve, same, "the list changed")?;
    stands(
        bypass.reserve().is_ok(),
        Growth::BypassReserve,
        "refused again",
    )
}

/// Adds a lazy callback to a bypass list, in room that is found before.
fn hold(refusals: &mut Refusals, bypass: &mut Bypass<Work>, number: u64) -> Result<(), Broken> {
    find_bypass_room(refusals, bypass)?;
    match bypass.place(0, Kind::Lazy, callback(number)) {
        Placed::Kept => Ok(()),
        Placed::Out(_) => Err(Broken {
            at: Growth::BypassReserve,
            what: "the list was released",
        }),
    }
}

/// Takes the first callback of a batch. Whether it is the one of this number.
fn is_next(batch: &mut Batch<Work>, number: u64) -> bool {
    match batch.take_first() {
        Some(callback) => callback.number == number,
        None => false,
    }
}

/// The batch holds the callbacks from `first` up to `end`, in order.
fn check_batch(mut batch: Batch<Work>, first: u64, end: u64) -> Result<(), Broken> {
    for number in first..end {
        stands(
            is_next(&mut batch, number),
            Growth::TakeBatch,
            "a callback isn't in its place",
        )?;
    }
    stands(
        batch.is_empty(),
        Growth::TakeBatch,
        "a callback is there twice",
    )
}

/// Takes a batch of a list, pours what is left into a bypass list, and lets that grow.
fn pass_on(
    refusals: &mut Refusals,
    list: &mut Segments<Work>,
    bypass: &mut Bypass<Work>,
) -> Result<(), Broken> {
    check_batch(take_batch(refusals, list)?, 0, TAKEN as u64)?;
    pour(refusals, list, bypass)?;
    for number in CALLBACKS..2 * CALLBACKS {
        hold(refusals, bypass, number)?;
    }
    check_batch(bypass.flush(), TAKEN as u64, 2 * CALLBACKS)
}

/// The scenario: a list that is filled, cut and poured into a bypass list, which then grows.
pub fn play_lists(alloc: Global) -> Result<Refusals, Broken> {
    let mut refusals = Refusals::new();
    let mut list = Segments::new(alloc);
    fill(&mut refusals, &mut list)?;
    let mut bypass = Bypass::new(alloc, 1000);
    pass_on(&mut refusals, &mut list, &mut bypass)?;
    Ok(refusals)
}
