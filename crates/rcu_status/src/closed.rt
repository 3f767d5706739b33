//! The totals at the end of a run.

ghost use Rattle.std.specs.Prelude.{◌≡◌, ◌≤◌, ◌<◌, ◌++◌, IfOk, length, string_bytes, vec_len};
ghost use Rattle.rcu_status.specs.Totals.{receipts_of, reports_text, total_text, totals_text};

use crate::numbers::{append, commas};
use rcu_jobs::{Closed, Job, Record};
use std::alloc::{AllocError, Global};

/// The sum of the receipts.
fn receipts(ran: &[Record<u64>]) -> u128
    ensures { result ≡ receipts_of ran.now }
{
    let mut sum = 0u128;
    for record in ran {
        sum += u128::from(record.receipt);
    }
    sum
}

/// The line of processor `p`.
fn total(
    alloc: Global,
    p: usize,
    ran: usize,
    back: usize,
    routes: u128,
) -> Result<String, AllocError>
    ensures { IfOk result (λ s. string_bytes s ≡ total_text p ran back routes) }
{
    format!(in alloc; "cpu {p} ran {ran} back {back} routes {routes}\n")
}

/// The line of processor `p`, of what ran there and of what was handed back.
fn ends<J: Job>(
    alloc: Global,
    p: usize,
    ran: &Vec<Record<u64>>,
    back: &Vec<J>,
) -> Result<String, AllocError>
    ensures { IfOk result (λ s.
        string_bytes s ≡ total_text p (length ran.now.items) (length back.now.items)
        (receipts_of ran.now.items)) }
{
    total(alloc, p, ran.len(), back.len(), receipts(ran))
}

/// The lines of all processors.
#[tactic(auto, using(crate::proofs::Appended::appended))]
fn processors<J: Job<Receipt = u64>>(
    alloc: Global,
    closed: &Closed<J>,
) -> Result<String, AllocError>
    ensures { IfOk result (λ s.
        string_bytes s ≡ totals_text 0 closed.now.ran.items closed.now.back.items) }
{
    let mut text = String::new(alloc);
    for (p, (ran, back)) in closed.ran.iter().zip(closed.back.iter()).enumerate() {
        append(&mut text, ends(alloc, p, ran, back))?;
    }
    Ok(text)
}

/// The totals: for each processor how many of its callbacks ran, how many were handed back, and the sum of its
/// receipts, and then, where `reports` is true, how many counted reports each made. Each line ends with a line feed.
#[tactic(auto, using(crate::proofs::Appended::appended))]
pub fn totals<J: Job<Receipt = u64>>(
    alloc: Global,
    closed: &Closed<J>,
    reports: bool,
) -> Result<String, AllocError>
    ensures { IfOk result (λ s.
        string_bytes s
        ≡ totals_text 0 closed.now.ran.items closed.now.back.items
        ++ reports_text reports closed.now.reports.items) }
{
    let mut text = processors(alloc, closed)?;
    if reports {
        let counts = commas(alloc, closed.reports.as_slice())?;
        append(&mut text, format!(in alloc; "reports {counts}\n"))?;
    }
    Ok(text)
}
