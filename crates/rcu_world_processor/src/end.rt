//! Shutting a processor, and what is left of it at the end.

ghost use Rattle.std.specs.Prelude.{◌≡◌, true, not, length};
ghost use Rattle.rcu_world_law.specs.Places.{remaining_callbacks};
ghost use Rattle.rcu_world_processor.specs.Leaving.{IsCounted};
ghost use Rattle.rcu_world_processor.specs.Views.{seen};
ghost use Rattle.rcu_world_processor.specs.Makes.{Makes};

use crate::processor::WorldProcessor;
use rcu_jobs::Job;

impl<J: Job> WorldProcessor<J, J::Receipt> {
    /// Whether it isn't shut.
    pub fn is_open(&self) -> bool
        ensures { result ≡ not (seen J.key_of self.now).shut }
    {
        !self.shut
    }

    /// Nothing is accepted from now on.
    pub fn shut(&mut self)
        ensures step { Makes J.key_of J.gives (λ c. record c { shut = true }) self.old self.new }
    {
        self.shut = true;
    }

    /// How many accepted callbacks haven't run.
    pub fn left(&self) -> u64
        requires { IsCounted (seen J.key_of self.now) }
        ensures { result ≡ length (remaining_callbacks (seen J.key_of self.now)) }
    {
        self.count - (self.turn / 2 + self.turn % 2)
    }
}
