//! Seats that become one.

ghost use Rattle.std.specs.Prelude.{◌≡◌, ◌+◌, ◌≤◌, [], ◌∷◌, ◌++◌, map, length, vec_len, vec_capacity, All};
ghost use Rattle.rcu_board.specs.Seats.{GatheredAt, SameGathered, gathered_view};
ghost use Rattle.rcu_part_close.specs.Gathered.{gather};
ghost use Rattle.rcu_part_group.specs.Groups.{group_board, group_view, members_of};
ghost use Rattle.rcu_parts.specs.OneOpen.{members_in};

use rcu_board::{Board, Gathered, merge};
use rcu_jobs::Job;
use rcu_part_group::{Group, GroupMember, into_parts};

/// Takes in the seat of a group, whose members join the others. There is room.
fn gather_group<J: Job>(
    board: &Board,
    all: &mut Gathered,
    group: Group<J>,
    members: &mut Vec<GroupMember<J>>,
)
    requires all { GatheredAt board.now all.old }
    requires rests { (gathered_view all.old).running ≡ [] }
    requires board { group_board group.state ≡ board.now }
    requires room { vec_len members.old + length (members_of group.state)
        ≤ vec_capacity members.old }
    ensures same { SameGathered all.old all.new }
    ensures view { gathered_view all.new
        ≡ gather (gathered_view all.old) (group_view group.state ∷ []) }
    ensures rests { (gathered_view all.new).running ≡ [] }
    ensures members { members.new.items ≡ members.old.items ++ members_of group.state }
    ensures len { vec_len members.new ≡ vec_len members.old + length (members_of group.state) }
    ensures room { vec_capacity members.old ≤ vec_capacity members.new }
{
    let (seat, group_members) = into_parts(group);
    let (first, mut others) = group_members.into_parts();
    merge(board, all, seat);
    members.push_reserved(first);
    let Ok(()) = members.append(&mut others) else {
        unreachable!()
    };
}

/// Takes in the seats of all groups, whose members become one list. There is room.
pub(crate) fn gather_groups<J: Job>(
    board: &Board,
    all: &mut Gathered,
    groups: Vec<Group<J>>,
    mut members: Vec<GroupMember<J>>,
) -> Vec<GroupMember<J>>
    requires all { GatheredAt board.now all.old }
    requires rests { (gathered_view all.old).running ≡ [] }
    requires board { All (λ g. group_board g.state ≡ board.now) groups.items }
    requires none { members.items ≡ [] }
    requires room { length (members_in groups.items) ≤ vec_capacity members }
    ensures same { SameGathered all.old all.new }
    ensures view { gathered_view all.new
        ≡ gather (gathered_view all.old) (map (λ g. group_view g.state) groups.items) }
    ensures rests { (gathered_view all.new).running ≡ [] }
    ensures members { result.items ≡ members_in groups.items }
{
    for group in groups {
        gather_group(board, all, group, &mut members);
    }
    members
}
