//! How callbacks move on, batch by batch: from the bypass list over the lane to the group, and over the done lane to the hand.

ghost use Rattle.std.specs.Prelude.{◌≡◌, ◌≤◌, ◌&&◌, true, not};
ghost use Rattle.rcu_world_law.specs.Lists.{is_nil};
ghost use Rattle.rcu_world_law.specs.Releases.{pace_after_put};
ghost use Rattle.rcu_world_law.specs.Steps.{with_pace, puts, draws, joins, given, fetches};
ghost use Rattle.rcu_world_processor.specs.Giving.{gives_done, gives_out, gives_by_case};
ghost use Rattle.rcu_world_processor.specs.Views.{seen};
ghost use Rattle.rcu_world_processor.specs.Makes.{Makes, MakesIfOk};
ghost use Rattle.rcu_world_processor.specs.Turns.{can_draw, can_fetch};

use crate::batches::{is_bare, is_spent, move_batch, put_batch};
use crate::bypass::{is_clear, release};
use crate::processor::WorldProcessor;
use crate::waits::{count_done, join_bare, take_given};
use rcu_jobs::Job;
use std::alloc::AllocError;

impl<J: Job> WorldProcessor<J, J::Receipt> {
    /// Whether the bypass list holds a callback.
    pub fn can_put(&self) -> bool
        ensures { result ≡ not (is_nil (seen J.key_of self.now).bypass) }
    {
        !is_clear(&self.bypass)
    }

    /// Puts the bypass list on the lane, as one batch. A moment that is given becomes the last one, and the count 0.
    ///
    /// # Errors
    ///
    /// Refusal 2, want of memory: nothing changed, the kinds and the kept moment neither.
    pub fn put(&mut self, moment: Option<u64>) -> Result<(), AllocError>
        ensures step { MakesIfOk J.key_of J.gives
            (λ c. with_pace (pace_after_put moment c) (puts c)) result self.old self.new }
    {
        self.lane.reserve(1)?;
        release(&mut self.bypass, &mut self.lane, moment);
        Ok(())
    }

    /// Whether a batch stands on the lane, and none waits that was drawn.
    pub fn can_draw(&self) -> bool
        ensures { result ≡ can_draw (seen J.key_of self.now) }
    {
        !is_bare(&self.lane) && is_spent(&self.drawn)
    }

    /// Draws the first batch of the lane.
    pub fn draw(&mut self)
        requires { not (is_nil (seen J.key_of self.old).lane) ≡ true }
        ensures step { Makes J.key_of J.gives draws self.old self.new }
    {
        move_batch(&mut self.lane, &mut self.drawn);
    }

    /// Whether a batch waits that was drawn.
    pub fn can_join(&self) -> bool
        ensures { result ≡ not (is_nil (seen J.key_of self.now).drawn) }
    {
        !is_spent(&self.drawn)
    }

    /// The drawn batch joins the end of the group's list.
    ///
    /// # Errors
    ///
    /// Refusal 2, want of memory: nothing changed.
    pub fn join(&mut self) -> Result<(), AllocError>
        ensures step { MakesIfOk J.key_of J.gives joins result self.old self.new }
    {
        join_bare(&mut self.joined, &mut self.drawn)?;
        Ok(())
    }

    /// Whether there is something to give: a batch that waits, or done callbacks in the group's list.
    pub fn can_give(&self, blimit: u64) -> bool
        requires { 1 ≤ blimit }
        ensures { result ≡ not (is_nil (given blimit (seen J.key_of self.now))) }
    {
        if !is_spent(&self.out) {
            return true;
        }
        count_done(&self.joined) > 0
    }

    /// The done ones at the front of the group's list go to the done lane.
    fn give_done(&mut self, blimit: u64) -> Result<(), AllocError>
        ensures step { MakesIfOk J.key_of J.gives (gives_done blimit) result self.old self.new }
    {
        self.done_lane.reserve(1)?;
        let given = take_given(&mut self.joined, blimit)?;
        put_batch(&mut self.done_lane, given);
        Ok(())
    }

    /// What waits goes to the done lane.
    fn give_out(&mut self) -> Result<(), AllocError>
        ensures step { MakesIfOk J.key_of J.gives gives_out result self.old self.new }
    {
        self.done_lane.reserve(1)?;
        put_batch(&mut self.done_lane, self.out.take_all());
        Ok(())
    }

    /// The next batch goes to the done lane: the one that waits, or up to `blimit` done callbacks.
    ///
    /// # Errors
    ///
    /// Refusal 2, want of memory: nothing changed.
    pub fn give(&mut self, blimit: u64) -> Result<(), AllocError>
        ensures step { MakesIfOk J.key_of J.gives (gives_by_case blimit) result self.old self.new }
    {
        if is_spent(&self.out) {
            self.give_done(blimit)
        } else {
            self.give_out()
        }
    }

    /// Whether a batch stands on the done lane, and the hand holds none.
    pub fn can_fetch(&self) -> bool
        ensures { result ≡ can_fetch (seen J.key_of self.now) }
    {
        is_spent(&self.held) && !is_bare(&self.done_lane)
    }

    /// The hand takes the first batch of the done lane.
    pub fn fetch(&mut self)
        requires { not (is_nil (seen J.key_of self.old).done_lane) ≡ true }
        ensures step { Makes J.key_of J.gives fetches self.old self.new }
    {
        move_batch(&mut self.done_lane, &mut self.held);
    }
}
