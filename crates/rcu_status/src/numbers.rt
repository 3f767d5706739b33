//! Numbers with commas between them.

ghost use Rattle.std.specs.Prelude.{◌≡◌, ◌≤◌, ◌++◌, IfOk, IsOkAnd, OnOk, string_bytes, take};
ghost use Rattle.rcu_status.specs.Commas.{with_commas};

use rcu_jobs::Counts;
use std::alloc::{AllocError, Global};

/// Puts a text that was made behind another.
pub(crate) fn append(text: &mut String, made: Result<String, AllocError>) -> Result<(), AllocError>
    ensures { OnOk result
        (IsOkAnd made (λ more.
        string_bytes text.new ≡ string_bytes text.old ++ string_bytes more)) }
{
    text.push_str(made?.as_str())
}

#[tactic(auto, using(crate::proofs::Appended::appended))]
pub(crate) fn commas(alloc: Global, numbers: &[u64]) -> Result<String, AllocError>
    ensures { IfOk result (λ s. string_bytes s ≡ with_commas numbers.now) }
{
    let Some((first, others)) = numbers.split_first() else {
        return Ok(String::new(alloc));
    };
    let mut text = format!(in alloc; "{first}")?;
    for number in others {
        append(&mut text, format!(in alloc; ",{number}"))?;
    }
    Ok(text)
}

/// The counts of the processors that there are, `C0,C1,..`, as the command `shut` prints them.
pub fn counts(alloc: Global, counts: &Counts) -> Result<String, AllocError>
    ensures { IfOk result (λ s.
        string_bytes s ≡ with_commas (take counts.now.n counts.now.counts)) }
{
    commas(alloc, counts.of_processors())
}
