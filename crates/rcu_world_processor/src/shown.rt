//! What is shown of a processor.

ghost use Rattle.std.specs.Prelude.{◌≡◌};
ghost use Rattle.rcu_world_law.specs.LabelledLists.{lengths_of, numbers_of};
ghost use Rattle.rcu_world_processor.specs.Shown.{cpu_lists, folk_lists};
ghost use Rattle.rcu_world_processor.specs.Views.{seen};
ghost use Rattle.rcu_world_processor.specs.Waits.{waiting};

use crate::processor::WorldProcessor;
use rcu_jobs::{Job, Lists};
use rcu_lists::Segments;

fn lengths_of<J: Job>(list: &Segments<J>) -> [u64; 4]
    ensures { result ≡ lengths_of (waiting J.key_of list.now) }
{
    list.lengths()
}

fn numbers_of<J: Job>(list: &Segments<J>) -> [u64; 2]
    ensures { result ≡ numbers_of (waiting J.key_of list.now) }
{
    list.numbers()
}

impl<J: Job> WorldProcessor<J, J::Receipt> {
    /// Its mode, count, bypass list's length and own list.
    pub fn lists(&self) -> Lists
        ensures { result ≡ cpu_lists (seen J.key_of self.now) }
    {
        Lists::Cpu {
            mode: self.mode,
            accepted: self.count,
            bypass: self.bypass.len(),
            lengths: lengths_of(&self.own),
            numbers: numbers_of(&self.own),
        }
    }

    /// The list that its group keeps for it.
    pub fn group_lists(&self) -> Lists
        ensures { result ≡ folk_lists (seen J.key_of self.now) }
    {
        Lists::Folk {
            lengths: lengths_of(&self.joined),
            numbers: numbers_of(&self.joined),
        }
    }
}
