//! The loop of a processor. It alone may wait.

ghost use Rattle.std.specs.Prelude.{◌≡◌, IfNone};
ghost use Rattle.std.specs.Int.{from_bool};
ghost use Rattle.rcu_board.specs.Plays.{touched};
ghost use Rattle.rcu_board.specs.Seats.{SawHalt};
ghost use Rattle.rcu_board.specs.Words.{halt_word};
ghost use Rattle.rcu_part_processor.specs.Calls.{OnBoard};
ghost use Rattle.rcu_part_processor.specs.Processors.{Keeping, SameProcessor, AcceptedStays, AddsRecords, IsSound, view_of};

use crate::processor::Processor;
use rcu_board::halted;
use rcu_jobs::Job;
use rcu_part_control::Pauses;
use std::rt::Clock;
use std::sync::Wait;

impl<J: Job> Processor<J> {
    /// Whether the runtime was halted.
    pub fn is_halted(&mut self) -> bool
        ensures reads { OnBoard (λ v w. w ≡ touched halt_word (from_bool result) v) J.key_of J.gives
            self.old.state self.new.state }
    {
        let state = &mut self.state;
        halted(&state.board, &mut state.seat)
    }

    /// Reports and ticks once, unless the runtime was halted. Answers whether a report was counted or a callback ran.
    fn turn_unless_halted(&mut self, moment: u64) -> Option<bool>
        ensures halted { IfNone result (SawHalt (view_of self.new.state)) }
        ensures accepted { AcceptedStays self.old.state self.new.state }
        ensures records { Keeping AddsRecords J.key_of J.gives self.old.state self.new.state }
    {
        if self.is_halted() {
            return None;
        }
        let counted = self.quiescent().is_some();
        let ticked = self.tick(moment);
        Some(counted || ticked.ran > 0)
    }

    /// Reports and ticks until the runtime is halted, at the moments 1, 2, .. (the greatest `u64` is repeated), and gives
    /// the processor back. Between turns that did nothing it pauses.
    pub fn run<R: Wait + Clock>(self, rt: &R) -> Processor<J>
        ensures same { SameProcessor self.state result.state }
        ensures halted { SawHalt (view_of result.state) }
        ensures count { result.state.accepted ≡ self.state.accepted }
        ensures accepted { AcceptedStays self.state result.state }
        ensures records { AddsRecords self.state result.state }
        ensures sound { IsSound J.key_of J.gives self.state
            → IsSound J.key_of J.gives result.state }
    {
        let mut processor = self;
        let mut pauses = Pauses::new();
        let mut moment: u64 = 1;
        for _ in rt.forever() {
            match processor.turn_unless_halted(moment) {
                None => return processor,
                Some(true) => pauses.start_over(),
                Some(false) => pauses.pause(rt),
            }
            moment = moment.saturating_add(1);
        }
        unreachable!()
    }
}
