//! A group's part.

ghost use Rattle.std.specs.Prelude.{◌≡◌};
ghost use Rattle.std.specs.Arc.{arc_value};
ghost use Rattle.rcu_board.specs.Seats.{view, AtBoard};
ghost use Rattle.rcu_board.specs.declared.board.Role.{Role};
ghost use Rattle.rcu_part_group.specs.GroupLaw.{IsLawfulGroup, group_members_in};

use crate::members::GroupMembers;
use rcu_board::{Board, Seat};
use rcu_jobs::{Job, Lists};
use rcu_numbers::PartsShape;
use std::alloc::Global;
use std::sync::Arc;

/// What a group's part has.
#[derive(Drop)]
pub struct GroupState<J> {
    pub(crate) board: Arc<Board, Global>,
    pub(crate) seat: Seat,
    pub(crate) group: u64,
    /// How many callbacks of a member a turn gives at most.
    pub(crate) blimit: u64,
    /// In rising order of processors.
    pub(crate) members: GroupMembers<J>,
    ghost here: { AtBoard (arc_value board) seat },
    ghost role: { seat.role ≡ Role.Group group },
    ghost lawful: { IsLawfulGroup (view seat) blimit (group_members_in members) },
}

/// The part of a group: it takes what its members release, waits for the grace periods, and gives what is done to their
/// hands.
pub struct Group<J: Job> {
    pub(crate) state: GroupState<J>,
}

impl<J: Job> Group<J> {
    ghost use Rattle.std.specs.Prelude.{All};
    ghost use Rattle.rcu_board.specs.Opened.{IsNewGroup};
    ghost use Rattle.rcu_part_group.specs.GroupLaw.{AreMembers};
    ghost use Rattle.rcu_part_group.specs.Groups.{IsEmptyGroupMember, IsNewGroupOf, ShownFor, members_of};

    /// A group of a shape, from its seat and its members, of which nothing has come.
    pub fn new(
        shape: &PartsShape,
        board: Arc<Board, Global>,
        seat: Seat,
        group: u64,
        members: GroupMembers<J>,
    ) -> Group<J>
        requires seat { IsNewGroup (arc_value board) group seat }
        requires members { AreMembers (group_members_in members) }
        requires empty { All IsEmptyGroupMember (group_members_in members) }
        ensures { IsNewGroupOf shape.now (arc_value board) group seat (group_members_in members)
            result.state }
    {
        Group {
            state: GroupState {
                board,
                seat,
                group,
                blimit: shape.blimit,
                members,
            },
        }
    }

    /// The group's number.
    pub fn number(&self) -> u64
        ensures { result ≡ self.now.state.group }
    {
        self.state.group
    }

    /// What is shown of the group's list for processor `p`; None where that isn't a member.
    pub fn lists(&self, p: u64) -> Option<Lists>
        ensures { ShownFor p result (members_of self.now.state) }
    {
        self.state.members.lists(p)
    }

    // Its seat and its members.
    fn into_inner(self) -> (Seat, GroupMembers<J>)
        ensures { (result.0 ≡ self.state.seat) × (result.1 ≡ self.state.members) }
    {
        let Group {
            state: GroupState { seat, members, .. },
        } = self;
        (seat, members)
    }
}

impl<J: Job> Drop for Group<J> {
    fn drop(self) {
        let Group { state: _ } = self;
    }
}

/// The seat and the members of a group, which ends with it.
pub fn into_parts<J: Job>(group: Group<J>) -> (Seat, GroupMembers<J>)
    ensures { (result.0 ≡ group.state.seat) × (result.1 ≡ group.state.members) }
{
    group.into_inner()
}
