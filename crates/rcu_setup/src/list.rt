//! CPU lists: docs/specification/tables.md, "CPU list".

ghost use Rattle.std.specs.Prelude.{ℕ, ◌↔◌, ◌≡◌, ◌<◌, ◌≤◌, ◌^◌, IfOk, IfErr, IsSome, option_map};
ghost use Rattle.std.specs.Int.{bit_at};
ghost use Rattle.rcu_numbers.specs.declared.shape.TheConstants.{MOST_PROCESSORS};
ghost use Rattle.rcu_setup.specs.Faults.{Gives, named};
ghost use Rattle.rcu_setup.specs.List.{IsNamed, range_of, are_items, with_parts, cpu_list_of, with_range};
ghost use Rattle.rcu_setup.specs.Words.{parts};

use crate::fault::SetupFault;
use crate::limits::NUM_DIGITS;
use crate::words::number;

/// The first and the last number of an item, NUM or NUM-NUM.
#[tactic(auto, unfolding(crate::specs::List::range_of))]
fn range_of(part: &str) -> Option<(u64, u64)>
    ensures { result ≡ range_of part.now }
{
    match part.split_once('-') {
        None => {
            let only = number(part, NUM_DIGITS)?;
            Some((only, only))
        }
        Some((first, last)) => Some((number(first, NUM_DIGITS)?, number(last, NUM_DIGITS)?)),
    }
}

/// The mask with the bits of one more range.
#[tactic(auto, unfolding(crate::specs::List::with_range))]
fn with_range(n: u64, mask: u32, range: (u64, u64)) -> Result<u32, SetupFault>
    requires { n ≤ MOST_PROCESSORS }
    ensures answer { Gives (λ m. m) result (with_range n mask range) }
    ensures memory { IfErr result (λ e. IsSome (named e)) }
{
    let (first, last) = range;
    if last < first {
        return Err(SetupFault::Reversed(first, last));
    }
    if last >= n {
        return Err(SetupFault::NoProcessor(last));
    }
    let ones = (1u64 << (last + 1)) - (1u64 << first);
    Ok(mask | ones as u32)
}

/// Whether each part of the text is an item.
fn are_items(text: &str) -> bool
    ensures { result ≡ are_items text.now }
{
    text.split(',').all(|part| range_of(part).is_some())
}

/// The mask of the items of a text, from left to right.
fn with_items(text: &str, n: u64) -> Result<u32, SetupFault>
    requires { n ≤ MOST_PROCESSORS }
    ensures answer { Gives (λ m. m) result (with_parts n 0 (parts 44 text.now)) }
    ensures memory { IfErr result (λ e. IsSome (named e)) }
{
    let mut mask = 0;
    for part in text.split(',') {
        let Some(range) = range_of(part) else {
            return Err(SetupFault::BadList);
        };
        mask = with_range(n, mask, range)?;
    }
    Ok(mask)
}

fn cpu_mask(text: &str, n: u64) -> Result<u32, SetupFault>
    requires { n ≤ MOST_PROCESSORS }
    ensures answer { Gives (λ m. m) result (cpu_list_of n text.now) }
    ensures memory { IfErr result (λ e. IsSome (named e)) }
{
    if text.is_empty() {
        return Ok(0);
    }
    if text == "all" {
        return Ok(((1u64 << n) - 1) as u32);
    }
    if !are_items(text) {
        return Err(SetupFault::BadList);
    }
    with_items(text, n)
}

/// The mask of the processors that a CPU list names, among `n` processors: bit `p` for processor `p`.
///
/// # Errors
///
/// The whole text is matched first (`BadList`). Then from left to right each item is tested for a reversed range
/// (`Reversed`), and for a last number that is `n` or more (`NoProcessor`, which names it). It takes no memory, so
/// the fault is never `Memory`.
pub fn cpu_list(text: &str, n: u64) -> Result<u32, SetupFault>
    requires { n ≤ MOST_PROCESSORS }
    ensures answer { Gives (λ m. m) result (cpu_list_of n text.now) }
    ensures memory { IfErr result (λ e. IsSome (named e)) }
    // A bit is set just where the text names its processor.
    ensures bits { IfOk result (λ m. (p : ℕ) → (bit_at m p ≡ 1) ↔ IsNamed n text.now p) }
    ensures within { IfOk result (λ m. m < 2 ^ n) }
{
    cpu_mask(text, n)
}
