//! Laws over runtimes, which have no code.

ghost use Rattle.rcu_parts.specs.OneOpen.{Parts};
ghost use Rattle.rcu_runtime.specs.Runtimes.{Continues};

use rcu_jobs::Job;

/// A runtime continues itself.
pub fn continues_itself<J: Job>()
    ensures itself { (parts : Parts J J.Receipt) → Continues parts parts }
{}

/// What continues a runtime that continues an earlier one continues the earlier one.
pub fn continues_again<J: Job>()
    ensures again { (old between new : Parts J J.Receipt) → Continues old between
        → Continues between new → Continues old new }
{}
