//! What a tick asks of the bypass list.

ghost use Rattle.std.specs.Prelude.{◌≡◌, ◌&&◌};
ghost use Rattle.rcu_world_law.specs.Releases.{releases_in_tick, moment_of_tick, late, tick_releases};
ghost use Rattle.rcu_world_processor.specs.Views.{seen};

use crate::bypass::{is_clear, is_late};
use crate::processor::WorldProcessor;
use rcu_jobs::Job;

/// Whether a tick releases a bypass list, by the causes of that.
fn is_released(offloaded: bool, clear: bool, late: bool, asked: bool, urged: bool) -> bool
    ensures { result ≡ (offloaded && tick_releases clear late asked urged) }
{
    offloaded && !clear && (late || !asked || urged)
}

impl<J: Job> WorldProcessor<J, J::Receipt> {
    /// A tick's test by the moment.
    fn is_late(&self, moment: u64) -> bool
        ensures { result ≡ late moment (seen J.key_of self.now) }
    {
        is_late(&self.bypass, moment)
    }

    /// Whether a tick releases the bypass list. `urged` says whether it found its urge bit set.
    pub fn is_released_in_tick(&self, urged: bool, moment: u64) -> bool
        ensures { result ≡ releases_in_tick urged moment (seen J.key_of self.now) }
    {
        is_released(
            self.is_offloaded(),
            is_clear(&self.bypass),
            self.is_late(moment),
            self.asked,
            urged,
        )
    }

    /// The moment that a tick's release gives.
    pub fn moment_of_tick(&self, moment: u64) -> Option<u64>
        ensures { result ≡ moment_of_tick moment (seen J.key_of self.now) }
    {
        if self.is_late(moment) {
            Some(moment)
        } else {
            None
        }
    }
}
