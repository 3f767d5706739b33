//! A runtime whose parts go to threads of their own, and are put together again.

ghost use Rattle.std.specs.Prelude.{◌≡◌};

use crate::whole::Whole;
use rcu_jobs::Job;
use rcu_parts::{AllParts, Group, Hand, Parts, Processor};

impl<J: Job> Whole<AllParts<Processor<J>, Group<J>, Hand<J>>> {
    ghost use Rattle.rcu_runtime.specs.Runtimes.{IsWhole};

    /// Takes the runtime apart, so that each part may go to a thread of its own: all parts, and how many callbacks each
    /// processor accepts in its life.
    pub fn take_apart(self) -> (Parts<J>, u64)
        ensures parts { result.0 ≡ self }
        ensures whole { IsWhole J.key_of J.gives result.1 result.0 }
    {
        self.into_fields()
    }

    /// Puts the parts of a runtime together again.
    pub fn put_together(parts: Parts<J>, limit: u64) -> Self
        requires whole { IsWhole J.key_of J.gives limit parts }
        ensures { result ≡ parts }
    {
        Whole { parts, limit }
    }
}
