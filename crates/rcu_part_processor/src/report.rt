//! Read sections, and the reports that end them.

ghost use Rattle.std.specs.Prelude.{◌≡◌};
ghost use Rattle.rcu_part_lists.specs.ProcessorLists.{cpu_lists};
ghost use Rattle.rcu_part_processor.specs.Calls.{KeepsAll};
ghost use Rattle.rcu_part_processor.specs.Processors.{SameProcessor, lists_of, view_of, KeepsSound};
ghost use Rattle.rcu_part_steps.specs.Reports.{Reports};

use crate::processor::Processor;
use rcu_jobs::{Job, Lists};
use rcu_part_steps::report_quiescent_state;

/// A read section of a processor. While it lives no call on `&mut` of the processor compiles, so it reports no quiescent
/// state.
#[derive(Drop)]
pub struct Reading<'a, J: Job> {
    processor: &'a Processor<J>,
}

impl<J: Job> Processor<J> {
    /// Begins a read section. While it lives, no call on `&mut` of this processor compiles, so it reports no quiescent state.
    pub fn reading(&self) -> Reading<'_, J> {
        Reading { processor: self }
    }

    /// Reports a quiescent state. Answers the number of the grace period that counted it, or None.
    pub fn quiescent(&mut self) -> Option<u64>
        ensures same { SameProcessor self.old.state self.new.state }
        ensures keeps { KeepsAll self.old.state self.new.state }
        ensures reports { Reports self.old.state.cpu result (view_of self.old.state)
            (view_of self.new.state) }
        ensures sound { KeepsSound J.key_of J.gives self.old.state self.new.state }
    {
        let state = &mut self.state;
        let counted = report_quiescent_state(
            &state.board,
            &mut state.seat,
            state.cpu,
            state.passed,
        );
        if let Some(seq) = counted {
            state.passed = seq;
        }
        counted
    }

    /// What is shown of the processor's lists.
    pub fn lists(&self) -> Lists
        ensures { result ≡ cpu_lists self.now.state.accepted (lists_of self.now.state) }
    {
        self.state.lists.lists(self.state.accepted)
    }
}
