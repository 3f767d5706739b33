//! Grace-period numbers: `4k` is idle, `4k + 1` is in progress.

ghost use Rattle.std.specs.Prelude.{◌≡◌, ◌+◌, ◌%◌, ◌≤◌, ◌↔◌, IsTrue, IsErr, IfOk, Some, codes};
ghost use Rattle.rcu_numbers.specs.Numbers.{IsIdle, IsInProgress, IsSnap, snap_of};

use std::error::Error;
use std::fmt;

/// The greatest grace-period number, 2^31 - 4 (docs/specification/rules.md, "Limits"). It is idle, and no further
/// grace period starts from it.
pub const GREATEST_NUMBER: u64 = 2147483644;

/// The greatest grace-period number of the running parts, 2^62 - 4.
pub const LAST_NUMBER: u64 = 4611686018427387900;

/// Refusal 1: no further grace period can be numbered.
#[derive(Clone, Copy, Debug, PartialEq, Eq)]
pub struct NumbersSpent;

impl fmt::Display for NumbersSpent {
    ghost output = { λ _. Some (codes "no further grace period can be numbered") };

    fn fmt<W: fmt::Write>(&self, f: &mut fmt::Formatter<W>) -> fmt::Result {
        write!(f, "no further grace period can be numbered")
    }
}

impl Error for NumbersSpent {}

/// The number once a grace period has started from the idle number `seq`.
///
/// # Errors
///
/// `NumbersSpent` exactly where `seq` is at or above [`GREATEST_NUMBER`].
pub fn started(seq: u64) -> Result<u64, NumbersSpent>
    requires { IsIdle seq }
    ensures next { IfOk result (λ next. next ≡ seq + 1) }
    ensures spent { IsErr result ↔ (GREATEST_NUMBER ≤ seq) }
{
    if seq < GREATEST_NUMBER {
        Ok(seq + 1)
    } else {
        Err(NumbersSpent)
    }
}

/// The number once the grace period `seq` has ended: `(seq | 3) + 1`, the next idle number.
pub fn ended(seq: u64) -> u64
    requires progress { IsInProgress seq }
    requires small { seq ≤ GREATEST_NUMBER }
    ensures next { result ≡ seq + 3 }
    ensures idle { IsIdle result }
    ensures small { result ≤ GREATEST_NUMBER }
{
    (seq | 3) + 1
}

/// What a callback waits for whose processor saw `seq` after its acceptance: the least number at which a grace
/// period that began after the look has ended.
pub fn snap(seq: u64) -> u64
    requires { seq ≤ LAST_NUMBER }
    ensures least { IsSnap seq result }
    ensures value { result ≡ snap_of seq }
{
    (seq + 7) / 4 * 4
}

/// Whether a wait for the number `wanted` is over at `seq`.
pub fn done(seq: u64, wanted: u64) -> bool
    ensures { IsTrue result ↔ (wanted ≤ seq) }
{
    seq >= wanted
}
