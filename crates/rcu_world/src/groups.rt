//! A group's loops over its members (docs/specification/rules.md, "Groups").

ghost use Rattle.std.specs.Prelude.{◌≡◌, ℕ, ◌≤◌};
ghost use Rattle.std.specs.List.{AllByRecursion};
ghost use Rattle.rcu_world_law.specs.Events.{each_cpu};
ghost use Rattle.rcu_world_processor.specs.Members.{is_wanting};
ghost use Rattle.rcu_world.specs.Members.{is_in_group, is_any, any_in_group, most_in_group, group_step, forget_step, AreLookable};
ghost use Rattle.rcu_world_processor.specs.Views.{AreGiven};
ghost use Rattle.rcu_world.specs.Views.{all_seen};

use crate::modes::is_set;
use rcu_jobs::Job;
use rcu_world_processor::WorldProcessor;

/// Whether processor `i` is a member of the group.
pub(crate) fn is_member_of(offloadable: &Vec<bool>, stride: u64, group: u64, i: usize) -> bool
    requires { 1 ≤ stride }
    ensures { result ≡ is_in_group offloadable.now.items stride group i }
{
    is_set(offloadable, i) && (i as u64) / stride == group
}

/// Whether the group has a member.
pub(crate) fn has_member<J: Job>(
    processors: &Vec<WorldProcessor<J, J::Receipt>>,
    offloadable: &Vec<bool>,
    stride: u64,
    group: u64,
) -> bool
    requires { 1 ≤ stride }
    ensures { result
        ≡ any_in_group offloadable.now.items stride group is_any 0
        (all_seen J.key_of processors.now.items) }
{
    for i in 0..processors.len() {
        if is_member_of(offloadable, stride, group, i) {
            return true;
        }
    }
    false
}

/// Whether a grace period is wanted for a member of the group.
pub(crate) fn wants_member<J: Job>(
    processors: &Vec<WorldProcessor<J, J::Receipt>>,
    offloadable: &Vec<bool>,
    stride: u64,
    group: u64,
) -> bool
    requires { 1 ≤ stride }
    ensures { result
        ≡ any_in_group offloadable.now.items stride group is_wanting 0
        (all_seen J.key_of processors.now.items) }
{
    for i in 0..processors.len() {
        let member = is_member_of(offloadable, stride, group, i);
        if processors[i].wants_as(member) {
            return true;
        }
    }
    false
}

/// The greatest of `needed` and what is wanted for the members of the group.
pub(crate) fn most_wanted<J: Job>(
    processors: &Vec<WorldProcessor<J, J::Receipt>>,
    offloadable: &Vec<bool>,
    stride: u64,
    group: u64,
    needed: u64,
) -> u64
    requires { 1 ≤ stride }
    ensures { result
        ≡ most_in_group offloadable.now.items stride group needed 0
        (all_seen J.key_of processors.now.items) }
{
    let mut most = needed;
    for i in 0..processors.len() {
        let member = is_member_of(offloadable, stride, group, i);
        most = processors[i].most_as(member, most);
    }
    most
}

/// What is wanted for the members of the group is asked for.
pub(crate) fn forget_members<J: Job>(
    processors: &mut Vec<WorldProcessor<J, J::Receipt>>,
    offloadable: &Vec<bool>,
    stride: u64,
    group: u64,
)
    requires { 1 ≤ stride }
    ensures forgets { all_seen J.key_of processors.new.items
        ≡ each_cpu (forget_step offloadable.now.items stride group) 0
        (all_seen J.key_of processors.old.items) }
    ensures given { (mark : ℕ) → AllByRecursion (AreGiven J.gives mark) processors.old.items
        → AllByRecursion (AreGiven J.gives mark) processors.new.items }
{
    for i in 0..processors.len() {
        let member = is_member_of(offloadable, stride, group, i);
        let p = &mut processors[i];
        p.forget_as(member);
    }
}

/// Each member's list is looked at.
pub(crate) fn look_members<J: Job>(
    processors: &mut Vec<WorldProcessor<J, J::Receipt>>,
    offloadable: &Vec<bool>,
    stride: u64,
    group: u64,
    number: u64,
)
    requires stride { 1 ≤ stride }
    requires fits { AreLookable number (all_seen J.key_of processors.old.items) }
    ensures looks { all_seen J.key_of processors.new.items
        ≡ each_cpu (group_step offloadable.now.items stride group number) 0
        (all_seen J.key_of processors.old.items) }
    ensures given { (mark : ℕ) → AllByRecursion (AreGiven J.gives mark) processors.old.items
        → AllByRecursion (AreGiven J.gives mark) processors.new.items }
{
    for i in 0..processors.len() {
        let member = is_member_of(offloadable, stride, group, i);
        let p = &mut processors[i];
        p.look_as(member, number);
    }
}
