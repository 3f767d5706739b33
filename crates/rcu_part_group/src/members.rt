//! The members of a group.

use rcu_part_lists::MemberLists;
use std::alloc::{AllocError, Global};

/// A member of a group: an offloadable processor, and what the group holds of it.
pub struct GroupMember<J> {
    pub cpu: u64,
    pub member: MemberLists<J>,
}

impl<J: Drop> GroupMember<J> {
    ghost use Rattle.std.specs.Prelude.{◌≡◌};

    /// What the group holds of it, which ends with it.
    pub fn into_lists(self) -> MemberLists<J>
        ensures { result ≡ self.member }
    {
        let GroupMember { cpu: _, member } = self;
        member
    }
}

impl<J: Drop> Drop for GroupMember<J> {
    fn drop(self) {
        let GroupMember { cpu: _, member: _ } = self;
    }
}

/// The members of a group, of which there is one at least.
///
/// The first stands in the value itself, and last: so that a job's batches fit in memory is known of all members from the
/// value's own size.
pub struct GroupMembers<J> {
    pub(crate) others: Vec<GroupMember<J>>,
    pub(crate) first: GroupMember<J>,
}

impl<J: Drop> GroupMembers<J> {
    ghost use Rattle.std.specs.Prelude.{◌≡◌, [], ◌∷◌, ◌++◌, OnErr, OnOk};
    ghost use Rattle.rcu_part_group.specs.GroupLaw.{group_members_in};

    /// One member.
    pub fn new(alloc: Global, first: GroupMember<J>) -> GroupMembers<J>
        ensures { group_members_in result ≡ first ∷ [] }
    {
        GroupMembers {
            others: Vec::new(alloc),
            first,
        }
    }

    /// One member more, behind the others.
    ///
    /// # Errors
    ///
    /// Refusal 2, want of memory. The members are as before.
    pub fn push(&mut self, group_member: GroupMember<J>) -> Result<(), AllocError>
        ensures pushed { OnOk result
            (group_members_in self.new ≡ group_members_in self.old ++ group_member ∷ []) }
        ensures same { OnErr result (group_members_in self.new ≡ group_members_in self.old) }
    {
        self.others.push(group_member)?;
        Ok(())
    }

    /// The first one, and the others.
    pub fn into_parts(self) -> (GroupMember<J>, Vec<GroupMember<J>>)
        ensures { (result.0 ≡ self.first) × (result.1 ≡ self.others) }
    {
        let GroupMembers { others, first } = self;
        (first, others)
    }
}

impl<J: Drop> Drop for GroupMembers<J> {
    fn drop(self) {
        let GroupMembers {
            others: _,
            first: _,
        } = self;
    }
}
