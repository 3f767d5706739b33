//! The checks at the end of a run: what `close` answers beside what each thread counted.

ghost use Rattle.std.specs.Prelude.{◌↔◌, IsTrue, All};
ghost use Rattle.check_torture.specs.Left.{AreAt, AreKeyed, AreNumbered, AreReady};
ghost use Rattle.check_torture.specs.Retired.{IsVersion, version_of};

use crate::actors::Log;
use crate::counters::Counters;
use crate::flaw::Flaw;
use crate::retire::Retire;
use crate::shared::Shared;
use crate::steerer::Farewell;
use crate::versions::Age;
use rcu_jobs::{Closed, Record};
use rcu_numbers::{LAST_NUMBER, snap};

/// Whether the records are numbered 0, 1, 2, ..
fn are_numbered(records: &[Record<u64>]) -> bool
    ensures { IsTrue result ↔ AreNumbered records.now }
{
    records
        .iter()
        .enumerate()
        .all(|(place, record)| record.number == place as u64)
}

/// Whether each callback ran at a number for which it waited.
fn are_ready(records: &[Record<u64>]) -> bool
    ensures { IsTrue result ↔ AreReady records.now }
{
    records.iter().all(|record| record.stamp <= LAST_NUMBER && snap(record.stamp) <= record.ready)
}

/// Whether each receipt is that of its key.
fn are_given(records: &[Record<u64>]) -> bool
    ensures { IsTrue result ↔ All (λ r. IsVersion r.key r.receipt) records.now }
{
    records.iter().all(|record| record.receipt == record.key)
}

/// Whether each record's key stands at its place.
fn are_of_records(keys: &[u64], records: &[Record<u64>]) -> bool
    ensures { IsTrue result ↔ AreAt (λ r. r.key) keys.now records.now }
{
    records.iter().enumerate().all(|(place, record)| keys.get(place).copied() == Some(record.key))
}

/// Whether each job's key stands at its place.
fn are_of_jobs(keys: &[u64], jobs: &[Retire]) -> bool
    ensures { IsTrue result ↔ AreAt version_of keys.now jobs.now }
{
    jobs.iter().enumerate().all(|(place, job)| keys.get(place).copied() == Some(job.version))
}

/// Whether the keys of the records and then those of the jobs are these keys.
fn are_keyed(keys: &[u64], records: &[Record<u64>], jobs: &[Retire]) -> bool
    ensures { IsTrue result → AreKeyed keys.now records.now jobs.now }
{
    if keys.len() < records.len() {
        return false;
    }
    let (ran, back) = keys.split_at(records.len());
    back.len() == jobs.len() && are_of_records(ran, records) && are_of_jobs(back, jobs)
}

/// What is left of one processor.
#[derive(Clone, Copy)]
struct Left<'a> {
    cpu: u64,
    records: &'a [Record<u64>],
    jobs: &'a [Retire],
    reports: u64,
}

/// Notes what isn't as it should be of one processor.
fn check_processor(shared: &Shared, left: &Left, log: &Log, farewell: &Farewell) {
    let Left {
        cpu,
        records,
        jobs,
        reports,
    } = *left;
    let flaws = &shared.flaws;
    let keys = log.keys.as_slice();
    flaws.check(are_keyed(keys, records, jobs), Flaw::Keys);
    flaws.check(are_numbered(records), Flaw::Numbers);
    flaws.check(are_ready(records), Flaw::Ready);
    flaws.check(are_given(records), Flaw::Receipt);
    flaws.check(shared.ran(cpu) == records.len() as u64, Flaw::OutOfOrder);
    flaws.check(log.counters.reports <= reports, Flaw::Reports);
    flaws.check(!farewell.drained || jobs.is_empty(), Flaw::HandedBack);
    if let Some(counts) = farewell.shut {
        let count = counts.of_processors().get(cpu as usize).copied();
        flaws.check(count == Some(keys.len() as u64), Flaw::ShutCounts);
    }
}

/// Notes what isn't as it should be at the end of a run, and adds up what was counted.
pub(crate) fn check(
    shared: &Shared,
    closed: &Closed<Retire>,
    logs: &[Log],
    farewell: &Farewell,
) -> Counters {
    let mut sum = Counters::NONE;
    let whole = closed.ran.len() == logs.len() && closed.back.len() == logs.len();
    shared.flaws.check(whole, Flaw::Keys);
    for (cpu, log) in logs.iter().enumerate() {
        let (Some(ran), Some(back), Some(reports)) = (
            closed.ran.get(cpu),
            closed.back.get(cpu),
            closed.reports.get(cpu),
        ) else {
            shared.flaws.note(Flaw::Keys);
            continue;
        };
        let left = Left {
            cpu: cpu as u64,
            records: ran.as_slice(),
            jobs: back.as_slice(),
            reports: *reports,
        };
        check_processor(shared, &left, log, farewell);
        sum.add(&log.counters);
        sum.ran = sum.ran.saturating_add(ran.len() as u64);
        sum.back = sum.back.saturating_add(back.len() as u64);
    }
    let freed = shared.versions.count(Age::Freed) as u64;
    shared.flaws.check(freed == sum.ran, Flaw::Freed);
    sum
}
