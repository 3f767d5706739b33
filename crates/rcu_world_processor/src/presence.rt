//! Whether a processor is away (docs/specification/rules.md, "Processors away").

ghost use Rattle.std.specs.Prelude.{◌≡◌, ◌&&◌, not, true, false};
ghost use Rattle.rcu_world_law.specs.Lists.{is_nil};
ghost use Rattle.rcu_world_processor.specs.Views.{seen};
ghost use Rattle.rcu_world_processor.specs.Makes.{Makes};

use crate::bypass::is_clear;
use crate::processor::WorldProcessor;
use rcu_jobs::Job;

impl<J: Job> WorldProcessor<J, J::Receipt> {
    /// Whether it has left, and not come back.
    pub fn is_away(&self) -> bool
        ensures { result ≡ (seen J.key_of self.now).away }
    {
        self.away
    }

    /// Whether it may leave: it is here, and its bypass list is empty.
    pub fn can_leave(&self) -> bool
        ensures { result
            ≡ (not (seen J.key_of self.now).away && is_nil (seen J.key_of self.now).bypass) }
    {
        !self.away && is_clear(&self.bypass)
    }

    /// It leaves.
    pub fn go_away(&mut self)
        ensures step { Makes J.key_of J.gives (λ c. record c { away = true }) self.old self.new }
    {
        self.away = true;
    }

    /// It comes back.
    pub fn come_back(&mut self)
        ensures step { Makes J.key_of J.gives (λ c. record c { away = false }) self.old self.new }
    {
        self.away = false;
    }
}
