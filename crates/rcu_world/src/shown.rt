//! What a world shows of its lists.

ghost use Rattle.std.specs.Prelude.{◌≡◌, ◌<◌, length, Some, None};
ghost use Rattle.rcu_world_law.specs.States.{cpu_at};
ghost use Rattle.rcu_world_processor.specs.Shown.{cpu_lists};
ghost use Rattle.rcu_world.specs.Views.{state};
ghost use Rattle.rcu_world.specs.Shown.{group_lists};

use crate::modes::is_set;
use crate::worlds::World;
use rcu_jobs::{Job, Lists};

impl<J: Job> World<J> {
    /// How many processors the world has.
    pub fn processors(&self) -> u64
        ensures { result ≡ length (state J.key_of self.now.core).cpus }
    {
        self.core.processors.len() as u64
    }

    /// A processor's mode, count and own list.
    pub fn lists(&self, cpu: u64) -> Lists
        requires { cpu < length (state J.key_of self.now.core).cpus }
        ensures { result ≡ cpu_lists (cpu_at (state J.key_of self.now.core) cpu) }
    {
        self.core.processors[cpu as usize].lists()
    }

    /// The list that a group keeps for a processor, None where that isn't an offloadable member.
    pub fn group_lists(&self, cpu: u64) -> Option<Lists>
        ensures { result ≡ group_lists (state J.key_of self.now.core) cpu }
    {
        let i = cpu as usize;
        if i >= self.core.processors.len() {
            return None;
        }
        if !is_set(&self.core.offloadable, i) {
            return None;
        }
        Some(self.core.processors[i].group_lists())
    }
}
