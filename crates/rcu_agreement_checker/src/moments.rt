//! Where a mark stands in the order of numbers.

use std::alloc::{AllocError, Global};

/// What is done between two reports of a processor, in this order, and the report that ends it.
#[derive(Clone, Copy, Debug, PartialEq, Eq, PartialOrd, Ord)]
pub(crate) enum Step {
    /// A callback is accepted that so many barriers don't count.
    Accept(u64),
    /// A callback runs.
    Run,
    /// The report.
    Report,
}

/// Where a mark stands in the order of numbers.
#[derive(Clone, Copy, Debug, PartialEq, Eq, PartialOrd, Ord)]
pub(crate) struct Moment {
    /// Behind the reports of how many grace periods it stands.
    pub(crate) period: u64,
    pub(crate) step: Step,
}

/// How many grace periods have begun at a number: each `j` with `4j + 1` up to it.
fn begun(number: u64) -> u64 {
    number / 4 + u64::from(number % 4 > 0)
}

/// How many of the barriers with these counts don't count the `k`-th callback of processor `p`.
fn barriers_without(counts: &[Vec<u64>], p: u64, k: usize) -> u64 {
    counts
        .iter()
        .filter(|counts| counts.get(p as usize).copied().unwrap_or(0) <= k as u64)
        .count() as u64
}

/// When the callbacks of processor `p` with these stamps are accepted: behind the grace periods that had begun at the stamp, as
/// late as it can be before the reports above it. Where a later callback has a smaller stamp, both stand at that one.
pub(crate) fn moments_of_acceptances(
    alloc: Global,
    counts: &[Vec<u64>],
    p: u64,
    stamps: &[u64],
) -> Result<Vec<Moment>, AllocError> {
    let mut moments = Vec::new(alloc);
    let mut period = u64::MAX;
    for (k, stamp) in stamps.iter().enumerate().rev() {
        period = period.min(begun(*stamp));
        let step = Step::Accept(barriers_without(counts, p, k));
        moments.push(Moment { period, step })?;
    }
    moments.reverse();
    Ok(moments)
}

/// When callbacks with these sights run: behind the grace periods with a number below the sight, as early as it can be. Where an
/// earlier callback has a greater sight, both stand at that one.
pub(crate) fn moments_of_runs(alloc: Global, readies: &[u64]) -> Result<Vec<Moment>, AllocError> {
    let mut moments = Vec::new(alloc);
    let mut period = 0;
    for ready in readies {
        period = period.max(begun(ready.saturating_sub(1)));
        moments.push(Moment {
            period,
            step: Step::Run,
        })?;
    }
    Ok(moments)
}
