//! How a callback comes in: it is accepted, stamped, and goes to the own list or to the bypass list.

ghost use Rattle.std.specs.Prelude.{◌≡◌, ◌^◌, ◌<◌, ◌&&◌, true, false, not, nat_lt, None, ◌∷◌, [], OnOk, IfOk, IsOk};
ghost use Rattle.rcu_world_law.specs.Lists.{is_none};
ghost use Rattle.rcu_world_law.specs.Releases.{pace_after_stamp, releases};
ghost use Rattle.rcu_jobs.specs.Modes.{is_offloaded};
ghost use Rattle.rcu_world_law.specs.Steps.{can_accept, accepts, stamps, fresh_calls, stamps_into, with_pace};
ghost use Rattle.rcu_lists.specs.Bypasses.{BypassRoom};
ghost use Rattle.rcu_lists.specs.Segments.{SegmentsRoom};
ghost use Rattle.rcu_world_processor.specs.Ready.{IsReady};
ghost use Rattle.rcu_world_processor.specs.Waits.{call};
ghost use Rattle.rcu_world_processor.specs.Views.{fresh_call, seen, mark_of, KeepsGiven};
ghost use Rattle.rcu_world_processor.specs.Makes.{Makes, MakesIfOk};

use crate::bypass::hold;
use crate::processor::WorldProcessor;
use crate::waits::enqueue;
use rcu_jobs::{Callback, Job};
use std::alloc::AllocError;

/// Whether no callback is fresh.
fn is_vacant<J: Job>(fresh: &Option<Callback<J>>) -> bool
    ensures { result ≡ is_none (fresh_call J.key_of fresh.now) }
{
    match fresh {
        None => true,
        Some(_) => false,
    }
}

/// Whether a callback may be accepted: not away nor shut, below the limit, none fresh.
fn may_accept(away: bool, shut: bool, count: u64, limit: u64, vacant: bool) -> bool
    ensures { result ≡ (not away && (not shut && (nat_lt count limit && vacant))) }
{
    !away && !shut && count < limit && vacant
}

impl<J: Job> WorldProcessor<J, J::Receipt> {
    /// How many callbacks it has accepted.
    pub fn count(&self) -> u64
        ensures { result ≡ (seen J.key_of self.now).count }
    {
        self.count
    }

    /// Whether it takes a callback on: it isn't away nor shut, is below the limit, and none is fresh.
    pub fn can_accept(&self, limit: u64) -> bool
        ensures { result ≡ can_accept limit (seen J.key_of self.now) }
    {
        may_accept(
            self.away,
            self.shut,
            self.count,
            limit,
            is_vacant(&self.fresh),
        )
    }

    /// Finds room for one more in the list that it goes to.
    ///
    /// # Errors
    ///
    /// Refusal 2, want of memory: nothing changed.
    pub fn reserve(&mut self) -> Result<(), AllocError>
        ensures same { seen J.key_of self.new ≡ seen J.key_of self.old }
        ensures room { OnOk result (IsReady self.new) }
        ensures given { KeepsGiven J.gives self.old self.new }
    {
        if self.mode.is_offloaded() {
            self.bypass.reserve()
        } else {
            self.own.reserve(1)
        }
    }

    /// Takes a job on, which gets the next number.
    pub fn accept(&mut self, cpu: u64, job: J)
        requires empty { (seen J.key_of self.old).fresh ≡ None }
        requires fits { (seen J.key_of self.old).count < 2 ^ 63 }
        ensures step { Makes J.key_of J.gives (accepts (J.key_of job)) self.old self.new }
        ensures ready { IsReady self.old → IsReady self.new }
    {
        let key = job.key();
        self.fresh = Some(Callback {
            cpu,
            number: self.count,
            key,
            stamp: 0,
            job,
        });
        self.count += 1;
    }

    /// Whether a callback was accepted and isn't stamped yet.
    pub fn is_fresh(&self) -> bool
        ensures { result ≡ not (is_none (seen J.key_of self.now).fresh) }
    {
        !is_vacant(&self.fresh)
    }

    /// Takes the fresh callback out, with its stamp.
    fn take_fresh(&mut self, number: u64) -> Callback<J>
        requires { not (is_none (seen J.key_of self.old).fresh) ≡ true }
        ensures step { Makes J.key_of J.gives (λ c. record c { fresh = None }) self.old self.new }
        ensures callback { fresh_calls number (seen J.key_of self.old).fresh
            ≡ call J.key_of result ∷ [] }
        ensures own { self.new.own ≡ self.old.own }
        ensures bypass { self.new.bypass ≡ self.old.bypass }
    {
        let Some(mut callback) = self.fresh.take() else {
            unreachable!()
        };
        callback.stamp = number;
        callback
    }

    /// The fresh callback goes to the own list.
    fn stamp_own(&mut self, number: u64) -> Result<bool, AllocError>
        requires { not (is_none (seen J.key_of self.old).fresh) ≡ true }
        ensures step { MakesIfOk J.key_of J.gives (stamps_into false number) result
            self.old self.new }
        ensures due { IfOk result (λ due. due ≡ false) }
        ensures succeeds { SegmentsRoom self.old.own 1 → IsOk result }
    {
        self.own.reserve(1)?;
        let callback = self.take_fresh(number);
        enqueue(&mut self.own, callback);
        Ok(false)
    }

    /// The fresh callback goes to the bypass list. Answers whether that is due to be released.
    fn stamp_offloaded(&mut self, number: u64, moment: u64, lazy: bool) -> Result<bool, AllocError>
        requires { not (is_none (seen J.key_of self.old).fresh) ≡ true }
        ensures step { MakesIfOk J.key_of J.gives
            (λ c. with_pace (pace_after_stamp lazy moment c) (stamps_into true number c)) result
            self.old self.new }
        ensures due { IfOk result (λ due.
            due ≡ releases (mark_of self.old) lazy moment (seen J.key_of self.old)) }
        ensures succeeds { BypassRoom self.old.bypass 1 → IsOk result }
    {
        self.bypass.reserve()?;
        let callback = self.take_fresh(number);
        Ok(hold(&mut self.bypass, moment, lazy, callback))
    }

    /// Stamps the fresh callback with the number that was seen after its acceptance. It goes to the bypass list where the
    /// processor is Offloaded, else to the own list. Answers whether the bypass list is due to be released; the callback
    /// stays in it until that is put.
    ///
    /// # Errors
    ///
    /// Refusal 2, want of memory: nothing changed.
    pub fn stamp(&mut self, number: u64, moment: u64, lazy: bool) -> Result<bool, AllocError>
        requires { not (is_none (seen J.key_of self.old).fresh) ≡ true }
        ensures step { MakesIfOk J.key_of J.gives (stamps number moment lazy) result
            self.old self.new }
        ensures due { IfOk result (λ due.
            due
            ≡ (is_offloaded (seen J.key_of self.old).mode && releases (mark_of self.old) lazy moment
            (seen J.key_of self.old))) }
        ensures succeeds { IsReady self.old → IsOk result }
    {
        if self.mode.is_offloaded() {
            self.stamp_offloaded(number, moment, lazy)
        } else {
            self.stamp_own(number)
        }
    }
}
