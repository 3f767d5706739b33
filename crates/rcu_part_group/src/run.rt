//! The loop of a group. It alone may wait.

ghost use Rattle.std.specs.Prelude.{◌≡◌, IfNone};
ghost use Rattle.std.specs.Int.{from_bool};
ghost use Rattle.rcu_board.specs.Plays.{touched};
ghost use Rattle.rcu_board.specs.Seats.{SawHalt};
ghost use Rattle.rcu_board.specs.Words.{halt_word};
ghost use Rattle.std.specs.List.{AllZip};
ghost use Rattle.rcu_part_group.specs.Groups.{SameGroup, PassesOn, group_view, members_of};

use crate::group::Group;
use rcu_board::halted;
use rcu_jobs::Job;
use rcu_part_control::Pauses;
use std::rt::Clock;
use std::sync::Wait;

impl<J: Job> Group<J> {
    /// Whether the runtime was halted.
    pub fn is_halted(&mut self) -> bool
        ensures same { SameGroup self.old.state self.new.state }
        ensures members { members_of self.new.state ≡ members_of self.old.state }
        ensures view { group_view self.new.state
            ≡ touched halt_word (from_bool result) (group_view self.old.state) }
    {
        let state = &mut self.state;
        halted(&state.board, &mut state.seat)
    }

    /// Turns once, unless the runtime was halted. Answers whether a callback moved.
    fn turn_unless_halted(&mut self) -> Option<bool>
        ensures same { SameGroup self.old.state self.new.state }
        ensures halted { IfNone result (SawHalt (group_view self.new.state)) }
        ensures places { AllZip PassesOn (members_of self.old.state) (members_of self.new.state) }
    {
        if self.is_halted() {
            return None;
        }
        let turned = self.turn();
        Some(turned.took > 0 || turned.gave > 0)
    }

    /// Turns until the runtime is halted, and gives the group back. Between turns that moved nothing it pauses.
    pub fn run<R: Wait + Clock>(self, rt: &R) -> Group<J>
        ensures same { SameGroup self.state result.state }
        ensures halted { SawHalt (group_view result.state) }
        ensures places { AllZip PassesOn (members_of self.state) (members_of result.state) }
    {
        let mut group = self;
        let mut pauses = Pauses::new();
        for _ in rt.forever() {
            match group.turn_unless_halted() {
                None => return group,
                Some(true) => pauses.start_over(),
                Some(false) => pauses.pause(rt),
            }
        }
        unreachable!()
    }
}
