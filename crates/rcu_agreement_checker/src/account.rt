//! What is known of a runtime at its end.

ghost use Rattle.std.specs.Prelude.{◌≡◌, IfOk, length, map};
ghost use Rattle.rcu_agreement.specs.Accounts as plain;
ghost use Rattle.rcu_agreement.specs.Agreement as agreement;
ghost use Rattle.rcu_agreement_checker.specs.Known.{all_counts, all_known};
ghost use Rattle.rcu_agreement_checker.specs.Records.{stamps_known};

use rcu_jobs::{Closed, Job, Record};
use rcu_numbers::LAST_NUMBER;
use std::alloc::{AllocError, Global};

/// What is known of one processor (docs/specification/definitions.md, "Agreeing").
#[derive(Debug, Drop)]
pub struct Account {
    /// The keys that it accepted, in order.
    pub keys: Vec<u64>,
    /// The stamp of each of them.
    pub stamps: Vec<u64>,
    /// The keys that ran, in order.
    pub ran: Vec<u64>,
    /// The number that was seen before each of them was claimed.
    pub readies: Vec<u64>,
    /// The keys that were handed back, in order.
    pub back: Vec<u64>,
    /// How many grace periods it passed.
    pub reports: u64,
    /// How many of its callbacks had run, as each seat saw it.
    pub turns: Vec<u64>,
    /// How many it had accepted, as each seat saw it that saw it shut.
    pub shuts: Vec<u64>,
}

/// The stamps of `many` callbacks, of which the first ones have run, as these records say.
///
/// `close` answers no stamp of a callback that was handed back. It gets the greatest number here, of which agreeing asks least:
/// no report has a number above it. Nothing is lost by that, since the law asks for reports only where a callback ran.
fn stamps_of<R>(alloc: Global, ran: &[Record<R>], many: usize) -> Result<Vec<u64>, AllocError>
    ensures { IfOk result (λ stamps. stamps.items ≡ stamps_known ran.now many) }
{
    let mut stamps: Vec<u64> = ran.iter().map(|record| record.stamp).collect(alloc)?;
    stamps.resize(many, LAST_NUMBER)?;
    Ok(stamps)
}

/// The keys of the callbacks that ran, as these records say.
fn keys_run<R>(alloc: Global, ran: &[Record<R>]) -> Result<Vec<u64>, AllocError>
    ensures { IfOk result (λ keys. keys.items ≡ map (λ r. r.key) ran.now) }
{
    ran.iter().map(|record| record.key).collect(alloc)
}

/// The number that was seen before each of them was claimed.
fn readies_of<R>(alloc: Global, ran: &[Record<R>]) -> Result<Vec<u64>, AllocError>
    ensures { IfOk result (λ readies. readies.items ≡ map (λ r. r.ready) ran.now) }
{
    ran.iter().map(|record| record.ready).collect(alloc)
}

/// The keys of jobs.
fn keys_of<J: Job>(alloc: Global, jobs: &[J]) -> Result<Vec<u64>, AllocError>
    ensures { IfOk result (λ keys. keys.items ≡ map J.key_of jobs.now) }
{
    jobs.iter().map(|job| job.key()).collect(alloc)
}

impl Account {
    /// The account of a processor that accepted these keys, by the records and jobs that `close` answered of it, and by how
    /// many grace periods it passed.
    ///
    /// The records have to be those of all that ran. So `close` itself is the seat that saw how many did; a program adds what
    /// other seats saw, as the counts that `shut` gave.
    ///
    /// # Errors
    ///
    /// Want of memory.
    pub fn new<J: Job>(
        alloc: Global,
        accepted: &[u64],
        ran: &[Record<J::Receipt>],
        back: &[J],
        reports: u64,
    ) -> Result<Account, AllocError>
        ensures keys { IfOk result (λ a. a.keys.items ≡ accepted.now) }
        ensures stamps { IfOk result (λ a.
            a.stamps.items ≡ stamps_known ran.now (length accepted.now)) }
        ensures ran { IfOk result (λ a. a.ran.items ≡ map (λ r. r.key) ran.now) }
        ensures readies { IfOk result (λ a. a.readies.items ≡ map (λ r. r.ready) ran.now) }
        ensures back { IfOk result (λ a. a.back.items ≡ map J.key_of back.now) }
        ensures reports { IfOk result (λ a. a.reports ≡ reports) }
    {
        Ok(Account {
            keys: accepted.to_vec(alloc)?,
            stamps: stamps_of(alloc, ran, accepted.len())?,
            ran: keys_run(alloc, ran)?,
            readies: readies_of(alloc, ran)?,
            back: keys_of(alloc, back)?,
            reports,
            turns: vec![in alloc; ran.len() as u64]?,
            shuts: Vec::new(alloc),
        })
    }
}

/// The row of processor `p`, with nothing in it where there is none.
fn row<T>(rows: &[Vec<T>], p: usize) -> &[T] {
    match rows.get(p) {
        Some(row) => row.as_slice(),
        None => &[],
    }
}

/// The account of processor `p`, by what `close` answered, and by the keys that it accepted, in order, as the program knows them.
///
/// # Errors
///
/// Want of memory.
pub fn account_of<J: Job>(
    alloc: Global,
    p: usize,
    accepted: &[u64],
    closed: &Closed<J>,
) -> Result<Account, AllocError> {
    let ran = row(closed.ran.as_slice(), p);
    let back = row(closed.back.as_slice(), p);
    let reports = closed.reports.get(p).copied().unwrap_or(0);
    Account::new(alloc, accepted, ran, back, reports)
}

/// The account of each processor, by what `close` answered, and by the keys that each accepted, in order, as the program knows
/// them.
///
/// # Errors
///
/// Want of memory.
pub fn accounts_of<J: Job>(
    alloc: Global,
    accepted: &[Vec<u64>],
    closed: &Closed<J>,
) -> Result<Vec<Account>, AllocError> {
    let mut accounts = Vec::new(alloc);
    for (p, keys) in accepted.iter().enumerate() {
        accounts.push(account_of(alloc, p, keys.as_slice(), closed)?)?;
    }
    Ok(accounts)
}

/// The stamp of the `k`-th callback that `p` accepted, counted from 0. It is 0 where there is none.
pub(crate) fn stamp_of(accounts: &[Account], p: u64, k: usize) -> u64
    ensures { result ≡ plain.stamp_of (all_known accounts.now) p k }
{
    match accounts.get(p as usize) {
        Some(account) => account.stamps.get(k).copied().unwrap_or(0),
        None => 0,
    }
}

/// The number that was seen before the `k`-th callback of `p` that ran was claimed. It is 0 where there is none.
pub(crate) fn ready_of(accounts: &[Account], p: u64, k: usize) -> u64
    ensures { result ≡ plain.ready_of (all_known accounts.now) p k }
{
    match accounts.get(p as usize) {
        Some(account) => account.readies.get(k).copied().unwrap_or(0),
        None => 0,
    }
}

/// How many callbacks of `p` had run, as each seat saw it.
pub(crate) fn turns_of(accounts: &[Account], p: u64) -> &[u64]
    ensures { result.now ≡ (plain.account_at (all_known accounts.now) p).turns }
{
    match accounts.get(p as usize) {
        Some(account) => account.turns.as_slice(),
        None => &[],
    }
}

/// How many `p` had accepted, as each seat saw it that saw it shut.
pub(crate) fn shuts_of(accounts: &[Account], p: u64) -> &[u64]
    ensures { result.now ≡ (plain.account_at (all_known accounts.now) p).shuts }
{
    match accounts.get(p as usize) {
        Some(account) => account.shuts.as_slice(),
        None => &[],
    }
}

/// The count that barrier `b` took of processor `p`. It is 0 where it took none.
pub(crate) fn count_of(counts: &[Vec<u64>], b: u64, p: u64) -> u64
    ensures { result ≡ agreement.count_of (all_counts counts.now) b p }
{
    match counts.get(b as usize) {
        Some(counts) => counts.get(p as usize).copied().unwrap_or(0),
        None => 0,
    }
}
