//! The law, checked on the history of a run in the order of numbers.

use crate::actors::Log;
use crate::flaw::Flaw;
use crate::retire::Retire;
use crate::shared::Shared;
use crate::steerer::Farewell;
use rcu_agreement_checker::{Account, account_of, agrees, witness};
use rcu_jobs::Closed;
use rcu_world_checker::is_closed;
use std::alloc::{AllocError, Global};

/// How many callbacks and reports a run may have for its history to be checked, which takes the third power of that.
const MOST_MARKS: u64 = 800;

/// How many callbacks were accepted and reports were made in a run.
fn many_marks(closed: &Closed<Retire>, logs: &[Log]) -> u64 {
    let mut many: u64 = 0;
    for log in logs {
        many = many.saturating_add(log.keys.len() as u64);
    }
    for reports in closed.reports.iter() {
        many = many.saturating_add(*reports);
    }
    many
}

/// The account of processor `cpu`.
fn account_of_one(
    alloc: Global,
    cpu: usize,
    log: &Log,
    closed: &Closed<Retire>,
    farewell: &Farewell,
) -> Result<Account, AllocError> {
    let mut account = account_of(alloc, cpu, log.keys.as_slice(), closed)?;
    if let Some(counts) = farewell.shut {
        let count = counts.of_processors().get(cpu).copied();
        account.shuts.push(count.unwrap_or(0))?;
    }
    Ok(account)
}

/// The account of each processor.
fn accounts_of_run(
    alloc: Global,
    closed: &Closed<Retire>,
    logs: &[Log],
    farewell: &Farewell,
) -> Result<Vec<Account>, AllocError> {
    let mut accounts = Vec::new(alloc);
    for (cpu, log) in logs.iter().enumerate() {
        accounts.push(account_of_one(alloc, cpu, log, closed, farewell)?)?;
    }
    Ok(accounts)
}

/// Makes the history of a run in the order of numbers, where it is short enough, with the barriers that passed with these counts;
/// and notes where it doesn't agree with what `close` answered, and where the law doesn't hold of it. Answers whether it was
/// made.
///
/// # Errors
///
/// Want of memory.
pub(crate) fn check_history(
    alloc: Global,
    shared: &Shared,
    closed: &Closed<Retire>,
    logs: &[Log],
    farewell: &Farewell,
    passes: &[Vec<u64>],
) -> Result<bool, AllocError> {
    if many_marks(closed, logs) > MOST_MARKS {
        return Ok(false);
    }
    let accounts = accounts_of_run(alloc, closed, logs, farewell)?;
    let history = witness(alloc, accounts.as_slice(), passes)?;
    let agreed = agrees(accounts.as_slice(), passes, history.as_slice());
    shared.flaws.check(agreed, Flaw::Disagrees);
    let lawful = is_closed(accounts.len() as u64, history.as_slice());
    shared.flaws.check(lawful, Flaw::Unlawful);
    Ok(true)
}
