//! All parts of one open in one object, which keeps them whole.

ghost use Rattle.std.specs.Prelude.{ℕ};

use rcu_jobs::Job;
use rcu_parts::{AllParts, Group, Hand, Processor};
use std::marker::Model;

/// Parts of which it can be said that they are whole.
pub trait Wholeness {
    // They are all parts of one open, each of which accepts so many callbacks at most.
    ghost is_whole: { ℕ → Self → Type 0 };

    /// Drops them.
    fn let_go(self);
}

impl<J: Job> Wholeness for AllParts<Processor<J>, Group<J>, Hand<J>> {
    ghost use Rattle.rcu_runtime.specs.Runtimes.{IsWhole};

    ghost is_whole = { IsWhole J.key_of J.gives };

    fn let_go(self) {
        drop(self);
    }
}

/// Parts that are whole at any time. A contract sees the parts.
///
/// Dropped, they let all go: the records of what ran, and the jobs that haven't.
pub struct Whole<A: Wholeness> {
    pub(crate) parts: A,
    /// How many callbacks each processor accepts in its life.
    pub(crate) limit: u64,
}

impl<A: Wholeness> Model for Whole<A> {
    ghost Value = { A };

    ghost view = { λ w. w.parts };

    ghost invariant = { λ w. A.is_whole w.limit w.parts };
}

impl<A: Wholeness> Whole<A> {
    ghost use Rattle.std.specs.Prelude.{◌≡◌};

    /// The parts, of which all was kept.
    pub(crate) fn into_parts(self) -> A
        ensures parts { result ≡ self }
        ensures whole { (limit : ℕ) × A.is_whole limit result }
    {
        let Whole { parts, limit: _ } = self;
        parts
    }

    /// The parts, of which all was kept, and how many callbacks each processor accepts in its life.
    pub(crate) fn into_fields(self) -> (A, u64)
        ensures parts { result.0 ≡ self }
        ensures whole { A.is_whole result.1 result.0 }
    {
        let Whole { parts, limit } = self;
        (parts, limit)
    }
}

impl<A: Wholeness> Drop for Whole<A> {
    fn drop(self) {
        let Whole { parts, limit: _ } = self;
        parts.let_go();
    }
}
