//! What a caller can test of a world before it makes a call.

ghost use Rattle.std.specs.Prelude.{◌≡◌, ◌↔◌, true};
ghost use Rattle.rcu_world_law.specs.States.{is_offloadable};
ghost use Rattle.rcu_world_processor.specs.Views.{seen};
ghost use Rattle.rcu_world.specs.Turns.{IsAtRest, IsIdle};
ghost use Rattle.rcu_world.specs.Views.{state};

use crate::modes::is_set;
use crate::worlds::World;
use rcu_jobs::Job;
use rcu_world_law::who::Side;
use rcu_world_processor::WorldProcessor;

/// Whether nothing of a processor is fresh, and no claim on it runs.
fn is_idle<J: Job>(processor: &WorldProcessor<J, J::Receipt>) -> bool
    ensures { result ≡ true ↔ IsIdle (seen J.key_of processor.now) }
{
    if processor.is_fresh() {
        return false;
    }
    if processor.can_finish(Side::Local) {
        return false;
    }
    !processor.can_finish(Side::Hand)
}

impl<J: Job> World<J> {
    /// Whether there is such a processor and it is offloadable, so that it has a hand.
    pub fn has_hand(&self, cpu: u64) -> bool
        ensures { result ≡ is_offloadable (state J.key_of self.now.core) cpu }
    {
        let i = cpu as usize;
        if i >= self.core.processors.len() {
            return false;
        }
        is_set(&self.core.offloadable, i)
    }

    /// Whether nothing is fresh and no claim runs: what each turn call asks of the world, and how it leaves it
    /// (docs/specification/surface.md, "rcu_world").
    pub fn is_at_rest(&self) -> bool
        ensures { result ≡ true ↔ IsAtRest (state J.key_of self.now.core) }
    {
        for cpu in 0..self.core.processors.len() {
            if !is_idle(&self.core.processors[cpu]) {
                return false;
            }
        }
        true
    }
}
