//! The turn of a group.

ghost use Rattle.std.specs.Prelude.{◌≡◌, ◌+◌, ◌*◌, ◌≤◌, [], ◌∷◌, IfSome, length, sum_by};
ghost use Rattle.std.specs.List.{AllZip};
ghost use Rattle.rcu_board.specs.Roles.{MayNeed};
ghost use Rattle.rcu_board.specs.Seats.{view, AtBoard, SameSeat};
ghost use Rattle.rcu_board.specs.Views.{seen_at, sight, tally};
ghost use Rattle.rcu_board.specs.Words.{board_word, needed_word};
ghost use Rattle.rcu_board.specs.Frames.{KeepsLists};
ghost use Rattle.rcu_numbers.specs.declared.sequence.TheConstants.{LAST_NUMBER};
ghost use Rattle.rcu_numbers.specs.declared.set.TheConstants.{PARTS_PROCESSORS};
ghost use Rattle.rcu_part_group.specs.Each.{IsGreatest, Sums};
ghost use Rattle.rcu_part_group.specs.GroupLaw.{AreAdvancedTo, AreLoadedUpTo, AreWaitingTo, group_members_in};
ghost use Rattle.rcu_part_group.specs.Groups.{AsksFor, GivesTo, LooksAtAll, PassesOn, SameGroup, ShownFor, TakesFrom, TurnsGroup, group_view, members_of, waiting_of};

use crate::group::Group;
use crate::members::GroupMembers;
use rcu_board::{Board, Seat, need};
use rcu_jobs::{GroupTurn, Job, Lists};
use rcu_part_steps::look_at_number;

// The greater of two numbers, or the one that is there.
fn greatest(first: Option<u64>, second: Option<u64>) -> Option<u64>
    ensures { IsGreatest result (first ∷ second ∷ []) }
{
    match (first, second) {
        (Some(x), Some(y)) => Some(if x < y { y } else { x }),
        (Some(x), None) => Some(x),
        (None, y) => y,
    }
}

impl<J: Drop> GroupMembers<J> {
    // Draws what came of all members. Answers how many callbacks.
    fn take_in(&mut self) -> u64
        requires { length (group_members_in self.old) ≤ PARTS_PROCESSORS }
        ensures { Sums TakesFrom result (group_members_in self.old) (group_members_in self.new) }
    {
        let first = self.first.member.take_in();
        let mut took = 0;
        for group_member in self.others.iter_mut() {
            took += group_member.member.take_in();
        }
        first + took
    }

    // Looks at the lists of all members by the number seen. Answers the greatest number that one of them wants.
    fn look(&mut self, seen: u64) -> Option<u64>
        requires later { AreAdvancedTo seen (group_members_in self.old) }
        requires small { seen ≤ LAST_NUMBER }
        ensures { LooksAtAll seen result (group_members_in self.old) (group_members_in self.new) }
    {
        let first = self.first.member.look(seen);
        let mut most = first;
        for group_member in self.others.iter_mut() {
            let wanted = group_member.member.look(seen);
            most = greatest(most, wanted);
        }
        most
    }

    // Gives what is done to the hands of all members. Answers how many callbacks.
    fn give(&mut self, blimit: u64) -> u64
        requires many { length (group_members_in self.old) ≤ PARTS_PROCESSORS }
        requires loaded { AreLoadedUpTo blimit (group_members_in self.old) }
        ensures { Sums (GivesTo blimit) result (group_members_in self.old)
            (group_members_in self.new) }
    {
        let first = self.first.member.give(blimit);
        let mut gave = 0;
        for group_member in self.others.iter_mut() {
            gave += group_member.member.give(blimit);
        }
        first + gave
    }

    // How many callbacks of all members wait in batches.
    fn waiting(&self) -> u64
        requires { length (group_members_in self.now) ≤ PARTS_PROCESSORS }
        ensures { result ≡ sum_by waiting_of (group_members_in self.now) }
    {
        let first = self.first.member.held();
        let mut waiting = 0;
        for group_member in &self.others {
            waiting += group_member.member.held();
        }
        first + waiting
    }

    /// What is shown of the list for processor `p`; None where that isn't a member.
    pub(crate) fn lists(&self, p: u64) -> Option<Lists>
        ensures { ShownFor p result (group_members_in self.now) }
    {
        if self.first.cpu == p {
            return Some(self.first.member.lists());
        }
        for group_member in &self.others {
            if group_member.cpu == p {
                return Some(group_member.member.lists());
            }
        }
        None
    }
}

// Asks for the number `most`, if it is there.
fn want(board: &Board, seat: &mut Seat, most: Option<u64>)
    requires board { AtBoard board.now seat.old }
    requires who { MayNeed seat.old.role }
    ensures same { SameSeat seat.old seat.new }
    ensures asks { AsksFor most (view seat.old) (view seat.new) }
    ensures lists { KeepsLists (view seat.old) (view seat.new) }
    ensures sight { sight (view seat.new) ≡ sight (view seat.old) }
    ensures fresh { tally (view seat.new) board_word ≡ tally (view seat.old) board_word }
    ensures needed { IfSome most (λ n. n ≤ seen_at (view seat.new) needed_word) }
{
    if let Some(seq) = most {
        need(board, seat, seq);
    }
}

impl<J: Job> Group<J> {
    /// A turn: for each member batches are drawn, each joined to the end of its list; then one look, by which each list
    /// is advanced and accelerated, and one ask for the greatest number that is wanted; then for each member up to
    /// `blimit` done callbacks go to its hand as one batch. What is refused waits for the next turn.
    pub fn turn(&mut self) -> GroupTurn
        ensures same { SameGroup self.old.state self.new.state }
        ensures turn { TurnsGroup result self.old.state self.new.state }

        // At most `blimit` for each member, as what each gave is at most that.
        ensures few { result.gave ≤ self.old.state.blimit * length (members_of self.old.state) }

        // What each member held, and then what was drawn of it, is what was given and then what it holds.
        ensures places { AllZip PassesOn (members_of self.old.state) (members_of self.new.state) }

        // Each number that is waited for was asked for.
        ensures needed { AreWaitingTo (seen_at (group_view self.new.state) needed_word)
            (members_of self.new.state) }
        ensures fresh { tally (group_view self.new.state) board_word
            ≡ tally (group_view self.old.state) board_word + 1 }
    {
        let state = &mut self.state;
        let took = state.members.take_in();
        let seen = look_at_number(&state.board, &mut state.seat);
        let most = state.members.look(seen);
        want(&state.board, &mut state.seat, most);
        let gave = state.members.give(state.blimit);
        let held = state.members.waiting();
        GroupTurn { took, gave, held }
    }
}
