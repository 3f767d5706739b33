//! How many callbacks move, or wait to move.

ghost use Rattle.std.specs.Prelude.{◌≡◌, length};
ghost use Rattle.rcu_world_law.specs.Steps.{given};
ghost use Rattle.rcu_world_processor.specs.Batches.{batch};
ghost use Rattle.rcu_world_processor.specs.Views.{seen};

use crate::batches::is_spent;
use crate::processor::WorldProcessor;
use crate::waits::count_done;
use rcu_jobs::Job;
use rcu_lists::Batch;

/// How many callbacks a batch holds.
fn batch_len<J: Job>(some: &Batch<J>) -> u64
    ensures { result ≡ length (batch J.key_of some.now) }
{
    some.len()
}

impl<J: Job> WorldProcessor<J, J::Receipt> {
    /// How many callbacks the next batch for the done lane would have.
    pub fn given_len(&self, blimit: u64) -> u64
        ensures { result ≡ length (given blimit (seen J.key_of self.now)) }
    {
        if is_spent(&self.out) {
            return blimit.min(count_done(&self.joined));
        }
        batch_len(&self.out)
    }

    /// How many callbacks the drawn batch has that waits to join the group's list.
    pub fn drawn_len(&self) -> u64
        ensures { result ≡ length (seen J.key_of self.now).drawn }
    {
        batch_len(&self.drawn)
    }

    /// How many callbacks the batch has that waits for the done lane.
    pub fn out_len(&self) -> u64
        ensures { result ≡ length (seen J.key_of self.now).out }
    {
        batch_len(&self.out)
    }
}
