//! How callbacks run: claimed by the processor itself or by its hand, once, and finished.

ghost use Rattle.std.specs.Prelude.{◌≡◌, ◌^◌, ◌+◌, ◌<◌, ◌≤◌, ◌++◌, ◌∷◌, [], map, vec_len, vec_capacity, true, nat_le, IfOk, if◌then◌else◌};
ghost use Rattle.rcu_jobs.specs.declared.Stop.TheVariants as stops;
ghost use Rattle.rcu_numbers.specs.Numbers.{snap_of};
ghost use Rattle.rcu_numbers.specs.declared.sequence.TheConstants.{GREATEST_NUMBER};
ghost use Rattle.rcu_world_law.specs.Steps.{can_claim, claims, claimed, can_claim_held, can_finish, finishes, front, is_side};
ghost use Rattle.rcu_world_law.specs.declared.who.Side.TheVariants as sides;
ghost use Rattle.rcu_world_processor.specs.Batches.{batch};
ghost use Rattle.rcu_world_processor.specs.Waits.{call};
ghost use Rattle.rcu_world_processor.specs.Turns.{no_claim};
ghost use Rattle.rcu_jobs.specs.Records.{Given};
ghost use Rattle.rcu_world_processor.specs.Views.{run, seen};
ghost use Rattle.rcu_world_processor.specs.Makes.{Makes, MakesIfOk};

use crate::batches::{is_spent, take_first};
use crate::processor::WorldProcessor;
use crate::waits::{can_claim_first, count_done, take_front};
use rcu_jobs::{Callback, Job, Record, Stop, run_callback};
use rcu_lists::Batch;
use rcu_numbers::{done, snap};
use rcu_world_law::who::Side;
use std::alloc::AllocError;

/// Whether the wait of a callback with this stamp is over.
fn is_past(stamp: u64, sight: u64) -> bool
    requires { stamp ≤ GREATEST_NUMBER }
    ensures { result ≡ nat_le (snap_of stamp) sight }
{
    done(sight, snap(stamp))
}

/// Whether the hand may claim the first callback that it holds.
fn can_claim_first_held<J: Job>(held: &Batch<J>, sight: u64, turn: u64) -> bool
    requires { (front (batch J.key_of held.now)).stamp ≤ GREATEST_NUMBER }
    ensures { result ≡ can_claim_held sight (batch J.key_of held.now) turn }
{
    let Some(first) = held.first() else {
        return false;
    };
    is_past(first.stamp, sight) && turn % 2 == 0 && turn / 2 == first.number
}

/// Runs a callback that was claimed, and keeps its record, in the room that there is. Its key comes back.
fn run_next<J: Job>(callback: Callback<J>, sight: u64, records: &mut Vec<Record<J::Receipt>>) -> u64
    requires { vec_len records.old + 1 ≤ vec_capacity records.old }
    ensures key { result ≡ (call J.key_of callback).key }
    ensures runs { map run records.new.items
        ≡ map run records.old.items
        ++ record { call = call J.key_of callback; ready = sight } ∷ [] }
    ensures given { Given J.gives records.old.items → Given J.gives records.new.items }
{
    let record = run_callback(callback, sight);
    let key = record.key;
    records.push_reserved(record);
    key
}

/// Why a claim isn't enabled: there is none, or it isn't its turn.
fn stop_of(none: bool) -> Stop
    ensures { result ≡ (if none then stops.Empty else stops.Turn) }
{
    if none { Stop::Empty } else { Stop::Turn }
}

/// Whether a claim of that side runs.
fn runs_by(running: Option<Side>, by: Side) -> bool
    ensures { result ≡ is_side by running }
{
    match by {
        Side::Local => match running {
            Some(Side::Local) => true,
            _ => false,
        },
        Side::Hand => match running {
            Some(Side::Hand) => true,
            _ => false,
        },
    }
}

impl<J: Job> WorldProcessor<J, J::Receipt> {
    /// The turn word: `2n` while callback `n` is the next to run, `2n + 1` while it runs.
    pub fn turn(&self) -> u64
        ensures { result ≡ (seen J.key_of self.now).turn }
    {
        self.turn
    }

    /// Whether that side may claim a callback: the turn is that of its first one, whose wait is over.
    pub fn can_claim(&self, by: Side) -> bool
        requires { (front (seen J.key_of self.now).held).stamp ≤ GREATEST_NUMBER }
        ensures { result ≡ can_claim by (seen J.key_of self.now) }
    {
        match by {
            Side::Local => can_claim_first(&self.own, self.turn),
            Side::Hand => self.can_claim_held(),
        }
    }

    fn can_claim_held(&self) -> bool
        requires { (front (seen J.key_of self.now).held).stamp ≤ GREATEST_NUMBER }
        ensures { result ≡ can_claim sides.Hand (seen J.key_of self.now) }
    {
        can_claim_first_held(&self.held, self.hand_sight, self.turn)
    }

    /// Runs the first callback of that side. Its key comes back.
    ///
    /// # Errors
    ///
    /// Refusal 2, want of memory: the callback stays first and unclaimed.
    pub fn claim(&mut self, by: Side) -> Result<u64, AllocError>
        requires ready { can_claim by (seen J.key_of self.old) ≡ true }
        requires fits { (seen J.key_of self.old).turn < 2 ^ 63 }
        ensures key { IfOk result (λ key. key ≡ (claimed by (seen J.key_of self.old)).key) }
        ensures step { MakesIfOk J.key_of J.gives (claims by) result self.old self.new }
    {
        match by {
            Side::Local => self.claim_own(),
            Side::Hand => self.claim_held(),
        }
    }

    fn claim_own(&mut self) -> Result<u64, AllocError>
        requires ready { can_claim sides.Local (seen J.key_of self.old) ≡ true }
        requires fits { (seen J.key_of self.old).turn < 2 ^ 63 }
        ensures key { IfOk result (λ key.
            key ≡ (claimed sides.Local (seen J.key_of self.old)).key) }
        ensures step { MakesIfOk J.key_of J.gives (claims sides.Local) result self.old self.new }
    {
        self.records.reserve(1)?;
        let callback = take_front(&mut self.own);
        let key = run_next(callback, self.sight, &mut self.records);
        self.turn += 1;
        self.running = Some(Side::Local);
        Ok(key)
    }

    fn claim_held(&mut self) -> Result<u64, AllocError>
        requires ready { can_claim sides.Hand (seen J.key_of self.old) ≡ true }
        requires fits { (seen J.key_of self.old).turn < 2 ^ 63 }
        ensures key { IfOk result (λ key. key ≡ (claimed sides.Hand (seen J.key_of self.old)).key) }
        ensures step { MakesIfOk J.key_of J.gives (claims sides.Hand) result self.old self.new }
    {
        self.records.reserve(1)?;
        let callback = take_first(&mut self.held);
        let key = run_next(callback, self.hand_sight, &mut self.records);
        self.turn += 1;
        self.running = Some(Side::Hand);
        Ok(key)
    }

    /// Whether a claim of that side runs.
    pub fn can_finish(&self, by: Side) -> bool
        ensures { result ≡ can_finish by (seen J.key_of self.now) }
    {
        runs_by(self.running, by)
    }

    /// The claim that runs has run.
    pub fn finish(&mut self)
        requires { (seen J.key_of self.old).turn < 2 ^ 63 }
        ensures step { Makes J.key_of J.gives finishes self.old self.new }
    {
        self.turn += 1;
        self.running = None;
    }

    /// Why a claim isn't enabled.
    pub fn why_no_claim(&self, by: Side) -> Stop
        ensures { result ≡ no_claim by (seen J.key_of self.now) }
    {
        match by {
            Side::Local => stop_of(count_done(&self.own) == 0),
            Side::Hand => stop_of(is_spent(&self.held)),
        }
    }
}
