//! What parts in slots show, and what is left of a runtime that was closed.

ghost use Rattle.std.specs.Prelude.{◌≡◌, slice_get};
ghost use Rattle.std.specs.Option.{ok_or};
ghost use Rattle.rcu_c_slots.specs.Parts.{is_closed};
ghost use Rattle.rcu_c_slots.specs.Shows.{ShowsAccepted, ShowsBack, ShowsLeft, ShowsLists, ShowsRan, ShowsReports};
ghost use Rattle.rcu_c_slots.specs.declared.fault.Fault.TheVariants.{NoneLeft};

use crate::fault::Fault;
use crate::job::ForeignJob;
use crate::part::Part;
use rcu_jobs::{Lists, Record};

/// The record in this place, if there is one.
fn record_at(records: &[Record<ForeignJob>], at: usize) -> Result<Record<ForeignJob>, Fault>
    ensures { result ≡ ok_or (slice_get records.now at) NoneLeft }
{
    let Some(record) = records.get(at) else {
        return Err(Fault::NoneLeft);
    };
    Ok(Record {
        number: record.number,
        key: record.key,
        stamp: record.stamp,
        ready: record.ready,
        receipt: record.receipt,
    })
}

impl Part {
    /// Whether it is what is left of a runtime.
    pub fn is_closed(&self) -> bool
        ensures { result ≡ is_closed self.now }
    {
        match self {
            Part::Closed(_) => true,
            _ => false,
        }
    }

    /// How many callbacks a processor accepted.
    ///
    /// # Errors
    ///
    /// The part is of another kind.
    pub fn accepted(&self) -> Result<u64, Fault>
        ensures { ShowsAccepted result self.now }
    {
        match self {
            Part::Processor(lent) => Ok(lent.processor.accepted()),
            other => Err(other.wrong_kind()),
        }
    }

    /// How many calls a processor still accepts at most.
    ///
    /// # Errors
    ///
    /// The part is of another kind.
    pub fn left(&self) -> Result<u64, Fault>
        ensures { ShowsLeft result self.now }
    {
        match self {
            Part::Processor(lent) => Ok(lent.processor.left()),
            other => Err(other.wrong_kind()),
        }
    }

    /// What a processor shows of its callbacks.
    ///
    /// # Errors
    ///
    /// The part is of another kind.
    pub fn lists(&self) -> Result<Lists, Fault>
        ensures { ShowsLists result self.now }
    {
        match self {
            Part::Processor(lent) => Ok(lent.processor.lists()),
            other => Err(other.wrong_kind()),
        }
    }

    /// The record in place `at` of those of a processor whose callbacks ran, once all parts were closed.
    ///
    /// # Errors
    ///
    /// There is no such processor, or no such record; or the part is of another kind.
    pub fn ran_at(&self, processor: u64, at: u64) -> Result<Record<ForeignJob>, Fault>
        ensures { ShowsRan processor at result self.now }
    {
        match self {
            Part::Closed(closed) => match closed.ran.get(processor as usize) {
                Some(records) => record_at(records.as_slice(), at as usize),
                None => Err(Fault::NoProcessor),
            },
            other => Err(other.wrong_kind()),
        }
    }

    /// The job in place `at` of those of a processor that are handed back, once all parts were closed.
    ///
    /// # Errors
    ///
    /// There is no such processor, or no such job; or the part is of another kind.
    pub fn back_at(&self, processor: u64, at: u64) -> Result<ForeignJob, Fault>
        ensures { ShowsBack processor at result self.now }
    {
        match self {
            Part::Closed(closed) => match closed.back.get(processor as usize) {
                Some(jobs) => match jobs.get(at as usize) {
                    Some(job) => Ok(*job),
                    None => Err(Fault::NoneLeft),
                },
                None => Err(Fault::NoProcessor),
            },
            other => Err(other.wrong_kind()),
        }
    }

    /// How many counted reports a processor made, once all parts were closed.
    ///
    /// # Errors
    ///
    /// There is no such processor; or the part is of another kind.
    pub fn reports_of(&self, processor: u64) -> Result<u64, Fault>
        ensures { ShowsReports processor result self.now }
    {
        match self {
            Part::Closed(closed) => match closed.reports.get(processor as usize) {
                Some(reports) => Ok(*reports),
                None => Err(Fault::NoProcessor),
            },
            other => Err(other.wrong_kind()),
        }
    }
}
