//! The drain of a runtime: it accepts nothing more, and all that it accepted runs.

ghost use Rattle.std.specs.Prelude.{IsTrue};

use crate::whole::Whole;
use rcu_jobs::Job;
use rcu_parts::{AllParts, Barrier, Group, Hand, Processor};

impl<J: Job> Whole<AllParts<Processor<J>, Group<J>, Hand<J>>> {
    ghost use Rattle.rcu_runtime.specs.Runtimes.{IsDrained, IsShut, IsShutFor};
    ghost use Rattle.rcu_runtime.specs.Waits.{DrainsBy, FindsPassed, ShutsAndOpens};

    /// Ends acceptance, and opens a barrier for all that was accepted.
    fn shut_and_open(&mut self) -> Barrier
        ensures shut { IsShutFor result.counts self.new }
        ensures begins { ShutsAndOpens result self.old self.new }
    {
        self.shut();
        let Ok(barrier) = self.barrier(&[]) else {
            unreachable!()
        };
        barrier
    }

    /// Polls a barrier that was opened once the runtime was shut. Answers whether it has passed.
    fn has_run(&mut self, barrier: &Barrier) -> bool
        requires { IsShutFor barrier.now.counts self.old }
        ensures shut { IsShutFor barrier.now.counts self.new }
        ensures drained { IsTrue result → IsDrained self.new }
        ensures finds { FindsPassed barrier.now.counts result self.old self.new }
    {
        let Ok(passed) = self.poll(barrier) else {
            unreachable!()
        };
        passed.is_some()
    }

    /// Ends acceptance, and makes turns of all parts at this moment, at most so many, until all that was accepted has run.
    /// Answers whether it has: then the runtime is drained, and [`close`](Whole::close) hands no job back.
    pub fn drain(&mut self, moment: u64, turns: u64) -> bool
        ensures shut { IsShut self.new }
        ensures drained { IsTrue result → IsDrained self.new }
        ensures turns { DrainsBy moment turns result self.old self.new }
    {
        let barrier = self.shut_and_open();
        for _made in 0..turns {
            if self.has_run(&barrier) {
                return true;
            }
            self.turn_all(moment);
        }
        self.has_run(&barrier)
    }
}
