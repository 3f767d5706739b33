//! The loop of a hand. It alone may wait.

ghost use Rattle.std.specs.Prelude.{◌≡◌, IfNone};
ghost use Rattle.std.specs.Int.{from_bool};
ghost use Rattle.rcu_board.specs.Plays.{touched};
ghost use Rattle.rcu_board.specs.Seats.{SawHalt};
ghost use Rattle.rcu_board.specs.Words.{halt_word};
ghost use Rattle.rcu_part_hand.specs.Hands.{Keeping, SameHand, AddsRecords, IsSoundHand, KeepsSoundHand, hand_view, hand_held, hand_drawn, hand_records};

use crate::hand::Hand;
use rcu_board::halted;
use rcu_jobs::Job;
use rcu_part_control::Pauses;
use std::rt::Clock;
use std::sync::Wait;

impl<J: Job> Hand<J> {
    /// Whether the runtime was halted.
    pub fn is_halted(&mut self) -> bool
        ensures same { SameHand self.old.state self.new.state }
        ensures lists { (hand_held self.new.state ≡ hand_held self.old.state)
            × (hand_drawn self.new.state ≡ hand_drawn self.old.state)
            × (hand_records self.new.state ≡ hand_records self.old.state) }
        ensures view { hand_view self.new.state
            ≡ touched halt_word (from_bool result) (hand_view self.old.state) }
        ensures sound { KeepsSoundHand J.key_of J.gives self.old.state self.new.state }
    {
        let hand = &mut self.state.hand;
        halted(&hand.board, &mut hand.seat)
    }

    /// Turns once, unless the runtime was halted. Answers whether a callback ran.
    fn turn_unless_halted(&mut self) -> Option<bool>
        ensures halted { IfNone result (SawHalt (hand_view self.new.state)) }
        ensures records { Keeping AddsRecords J.key_of J.gives self.old.state self.new.state }
    {
        if self.is_halted() {
            return None;
        }
        Some(self.turn().ran > 0)
    }

    /// Turns until the runtime is halted, and gives the hand back. Between turns that ran nothing it pauses.
    pub fn run<R: Wait + Clock>(self, rt: &R) -> Hand<J>
        ensures same { SameHand self.state result.state }
        ensures halted { SawHalt (hand_view result.state) }
        ensures records { AddsRecords self.state result.state }
        ensures sound { IsSoundHand J.key_of J.gives self.state
            → IsSoundHand J.key_of J.gives result.state }
    {
        let mut hand = self;
        let mut pauses = Pauses::new();
        for _ in rt.forever() {
            match hand.turn_unless_halted() {
                None => return hand,
                Some(true) => pauses.start_over(),
                Some(false) => pauses.pause(rt),
            }
        }
        unreachable!()
    }
}
