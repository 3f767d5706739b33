//! The looks of a processor, of its hand and of its group, and what they want.

ghost use Rattle.std.specs.Prelude.{◌≡◌, ◌≤◌, ◌&&◌, not, None, if◌then◌else◌};
ghost use Rattle.rcu_world_law.specs.LabelledLists.{MayAccelerate, newest, advance};
ghost use Rattle.rcu_world_law.specs.Lists.{is_none};
ghost use Rattle.rcu_numbers.specs.Numbers.{snap_of};
ghost use Rattle.rcu_numbers.specs.declared.sequence.TheConstants.{GREATEST_NUMBER};
ghost use Rattle.rcu_world_law.specs.Steps.{looks, hand_looks, group_looks};
ghost use Rattle.rcu_world_processor.specs.Members.{forgets, is_wanting, most_with};
ghost use Rattle.rcu_world_processor.specs.Views.{seen};
ghost use Rattle.rcu_world_processor.specs.Makes.{Makes};

use crate::processor::WorldProcessor;
use crate::waits::look_at;
use rcu_jobs::Job;

/// Whether a number is wanted for a member.
fn wants(member: bool, wanted: Option<u64>) -> bool
    ensures { result ≡ (member && not (is_none wanted)) }
{
    member && wanted.is_some()
}

impl<J: Job> WorldProcessor<J, J::Receipt> {
    /// The processor's look at the number: its own list is advanced and accelerated.
    pub fn look(&mut self, number: u64)
        requires small { newest number (advance number (seen J.key_of self.old).own)
            ≤ GREATEST_NUMBER }
        requires may { MayAccelerate
            (snap_of (newest number (advance number (seen J.key_of self.old).own)))
            (advance number (seen J.key_of self.old).own) }
        ensures step { Makes J.key_of J.gives (looks number) self.old self.new }
    {
        self.wanted = look_at(&mut self.own, number);
        self.sight = number;
    }

    /// The hand's look at the number.
    pub fn look_hand(&mut self, number: u64)
        ensures step { Makes J.key_of J.gives (hand_looks number) self.old self.new }
    {
        self.hand_sight = number;
    }

    /// The part of a group's look at this processor, where it is a member.
    pub fn look_as(&mut self, member: bool, number: u64)
        requires small { newest number (advance number (seen J.key_of self.old).joined)
            ≤ GREATEST_NUMBER }
        requires may { MayAccelerate
            (snap_of (newest number (advance number (seen J.key_of self.old).joined)))
            (advance number (seen J.key_of self.old).joined) }
        ensures step { Makes J.key_of J.gives (λ c. if member then group_looks number c else c)
            self.old self.new }
    {
        if member {
            self.group_wanted = look_at(&mut self.joined, number);
        }
    }

    /// The number that its own list wants and that isn't asked for yet.
    pub fn wanted(&self) -> Option<u64>
        ensures { result ≡ (seen J.key_of self.now).wanted }
    {
        self.wanted
    }

    /// What its own list wants is asked for.
    pub fn forget(&mut self)
        ensures step { Makes J.key_of J.gives (λ c. record c { wanted = None }) self.old self.new }
    {
        self.wanted = None;
    }

    /// Whether a grace period is wanted for this processor, where it is a member.
    pub fn wants_as(&self, member: bool) -> bool
        ensures { result ≡ (member && is_wanting (seen J.key_of self.now)) }
    {
        wants(member, self.group_wanted)
    }

    /// The greater of `most` and what is wanted for this processor, where it is a member.
    pub fn most_as(&self, member: bool, most: u64) -> u64
        ensures { result ≡ most_with member most (seen J.key_of self.now) }
    {
        if !member {
            return most;
        }
        match self.group_wanted {
            None => most,
            Some(number) => most.max(number),
        }
    }

    /// What is wanted for this processor is asked for, where it is a member.
    pub fn forget_as(&mut self, member: bool)
        ensures step { Makes J.key_of J.gives (λ c. if member then forgets c else c)
            self.old self.new }
    {
        if member {
            self.group_wanted = None;
        }
    }
}
