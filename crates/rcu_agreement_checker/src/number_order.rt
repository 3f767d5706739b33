//! A history that agrees: each mark stands where its number puts it.

ghost use Rattle.std.specs.Prelude.{◌<◌, ◌≤◌, IfSome, length};

use crate::account::Account;
use crate::moments::{Moment, Step, moments_of_acceptances, moments_of_runs};
use rcu_world_checker::{Kind, many_of, nth_of};
use rcu_world_law::marks::Mark;
use std::alloc::{AllocError, Global};

/// A mark, and where it stands.
#[derive(Clone, Copy, Debug)]
struct Placed {
    moment: Moment,
    mark: Mark,
}

/// Adds what processor `p` accepted, each at its moment.
fn push_acceptances(
    placed: &mut Vec<Placed>,
    p: u64,
    keys: &[u64],
    moments: &[Moment],
) -> Result<(), AllocError> {
    for (key, moment) in keys.iter().zip(moments.iter()) {
        let mark = Mark::Accepted(p, *key);
        placed.push(Placed {
            moment: *moment,
            mark,
        })?;
    }
    Ok(())
}

/// Adds what of it ran, each at its moment.
fn push_runs(
    placed: &mut Vec<Placed>,
    p: u64,
    keys: &[u64],
    moments: &[Moment],
) -> Result<(), AllocError> {
    for (key, moment) in keys.iter().zip(moments.iter()) {
        let mark = Mark::Ran(p, *key);
        placed.push(Placed {
            moment: *moment,
            mark,
        })?;
    }
    Ok(())
}

/// Adds its reports, one in each grace period.
fn push_reports(placed: &mut Vec<Placed>, p: u64, reports: u64) -> Result<(), AllocError> {
    for period in 0..reports {
        let moment = Moment {
            period,
            step: Step::Report,
        };
        let mark = Mark::Reported(p);
        placed.push(Placed { moment, mark })?;
    }
    Ok(())
}

/// Adds what processor `p` accepted and what of it ran, and its reports, each at its moment and in order.
fn push_processor(
    alloc: Global,
    placed: &mut Vec<Placed>,
    counts: &[Vec<u64>],
    p: u64,
    account: &Account,
) -> Result<(), AllocError> {
    let accepted = moments_of_acceptances(alloc, counts, p, account.stamps.as_slice())?;
    push_acceptances(placed, p, account.keys.as_slice(), accepted.as_slice())?;
    let ran = moments_of_runs(alloc, account.readies.as_slice())?;
    push_runs(placed, p, account.ran.as_slice(), ran.as_slice())?;
    push_reports(placed, p, account.reports)
}

/// The acceptances, reports and runs of all processors, in the order of their moments.
fn in_number_order(
    alloc: Global,
    accounts: &[Account],
    counts: &[Vec<u64>],
) -> Result<Vec<Mark>, AllocError> {
    let mut placed = Vec::new(alloc);
    for (p, account) in accounts.iter().enumerate() {
        push_processor(alloc, &mut placed, counts, p as u64, account)?;
    }
    placed.sort_by_key(|at| at.moment)?;
    placed.iter().map(|at| at.mark).collect(alloc)
}

/// The place of the first acceptance that a barrier with these counts doesn't count, or the history's end.
fn first_beyond(counts: &[u64], history: &[Mark]) -> usize {
    let mut first = history.len();
    for (p, count) in counts.iter().enumerate() {
        if let Some((place, _key)) = nth_of(Kind::Accepted, p as u64, *count as usize, history) {
            first = first.min(place);
        }
    }
    first
}

/// The place of the last run of processor `p` that a barrier counts, where it counts so many. None where none ran of these.
fn last_run(p: u64, count: u64, history: &[Mark]) -> Option<usize>
    ensures { IfSome result (λ place. place < length history.now) }
{
    let many = many_of(Kind::Ran, p, history).min(count as usize);
    let (place, _key) = nth_of(Kind::Ran, p, many.checked_sub(1)?, history)?;
    Some(place)
}

/// The place behind the last run that a barrier with these counts counts.
fn behind_runs(counts: &[u64], history: &[Mark]) -> usize
    ensures { result ≤ length history.now }
{
    let mut behind = 0;
    for (p, count) in counts.iter().enumerate() {
        if let Some(place) = last_run(p as u64, *count, history) {
            behind = behind.max(place + 1);
        }
    }
    behind
}

/// Adds a barrier that took these counts: it passes as soon as what it counts has run, and opens before that as late as its
/// counts let it, before the first acceptance that it doesn't count.
fn add_barrier(history: &mut Vec<Mark>, barrier: u64, counts: &[u64]) -> Result<(), AllocError> {
    let passes = behind_runs(counts, history.as_slice());
    let opens = first_beyond(counts, history.as_slice()).min(passes);
    history.insert(passes, Mark::Passed(barrier))?;
    history.insert(opens, Mark::Opened(barrier))?;
    Ok(())
}

/// Adds that all processors are shut, and then what was handed back.
fn add_ends(history: &mut Vec<Mark>, accounts: &[Account]) -> Result<(), AllocError> {
    for p in 0..accounts.len() {
        history.push(Mark::Shut(p as u64))?;
    }
    for (p, account) in accounts.iter().enumerate() {
        for key in account.back.iter() {
            history.push(Mark::Back(p as u64, *key))?;
        }
    }
    Ok(())
}

/// A history with these accounts, and with barriers that took these counts and passed, in the order of numbers. Each callback is
/// accepted as late as its stamp lets it, and runs as early as its sight lets it:
///
/// - acceptances stand at their stamps, each before the reports that are above its stamp;
/// - the `j`-th report of each processor stands at `4j + 1`;
/// - runs stand at their sights, each behind the reports that are below its sight;
/// - each barrier opens before the first acceptance that it doesn't count, and passes when all that it counts has run;
/// - at the end all processors are shut, and what didn't run is handed back.
///
/// The order within a processor stays: where its stamps fall or its sights do, an acceptance stands before the later ones, and
/// a run behind the earlier ones. So it agrees, whatever the numbers are, where no barrier counts more than ran.
///
/// # Errors
///
/// Want of memory.
pub fn witness(
    alloc: Global,
    accounts: &[Account],
    counts: &[Vec<u64>],
) -> Result<Vec<Mark>, AllocError> {
    let mut history = in_number_order(alloc, accounts, counts)?;
    for (barrier, counts) in counts.iter().enumerate() {
        add_barrier(&mut history, barrier as u64, counts.as_slice())?;
    }
    add_ends(&mut history, accounts)?;
    Ok(history)
}
