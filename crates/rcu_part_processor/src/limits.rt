//! Which processor it is, of how many, and what it still accepts.

ghost use Rattle.std.specs.Prelude.{◌≡◌, ◌+◌, ◌≤◌};
ghost use Rattle.rcu_numbers.specs.declared.set.TheConstants.{PARTS_PROCESSORS};
ghost use Rattle.rcu_part_processor.specs.Processors.{board_of};

use crate::processor::Processor;
use crate::running_processor::RunningProcessor;
use rcu_jobs::Job;

impl<J: Job> Processor<J> {
    /// Its number.
    pub fn cpu(&self) -> u64
        ensures { result ≡ self.now.state.cpu }
    {
        self.state.cpu
    }

    /// How many calls it still accepts at most: its limit less what it accepted.
    pub fn left(&self) -> u64
        ensures left { result + self.now.state.accepted ≡ self.now.state.limit }
    {
        self.state.limit - self.state.accepted
    }

    /// How many processors there are, 1 to 32: as many as a barrier counts that it may poll.
    pub fn processors(&self) -> u64
        ensures board { result ≡ (board_of self.now.state).processors }
        ensures few { result ≤ PARTS_PROCESSORS }
    {
        self.state.board.processors()
    }
}

impl<J: Job> RunningProcessor<J> {
    /// How many calls it still accepts at most, as [`left`](Processor::left).
    pub fn left(&self) -> u64
        ensures left { result + self.now.state.accepted ≡ self.now.state.limit }
    {
        let state = &self.state;
        state.limit - state.accepted
    }
}
