//! What control does: switches, barriers, and the end of acceptance.

ghost use Rattle.std.specs.Prelude.{◌≡◌, IfErr, IfOk};

use crate::fault::OtherBarrier;
use crate::whole::Whole;
use rcu_jobs::{BarrierFault, Counts, Job, Passed, SwitchFault, Ticket};
use rcu_parts::{AllParts, Barrier, Group, Hand, Processor};

impl<J: Job> Whole<AllParts<Processor<J>, Group<J>, Hand<J>>> {
    ghost use Rattle.rcu_parts.specs.OneOpen.{parts_board};
    ghost use Rattle.rcu_runtime.specs.Calls.{FindsOther, OnControl, Opens, Polls, ShutsAll, Switches};

    /// Asks that processor `p` be offloaded, which its next tick heeds.
    ///
    /// # Errors
    ///
    /// Refusal 6 where there is no such processor, then refusal 5 where it isn't offloadable. Nothing is asked for.
    pub fn offload(&mut self, p: u64) -> Result<(), SwitchFault>
        ensures asks { OnControl (Switches p 1 result) self.old self.new }
    {
        self.parts.control.offload(p)
    }

    /// Asks that processor `p` be local, which its next tick heeds.
    ///
    /// # Errors
    ///
    /// As [`offload`](Runtime::offload).
    pub fn deoffload(&mut self, p: u64) -> Result<(), SwitchFault>
        ensures asks { OnControl (Switches p 0 result) self.old self.new }
    {
        self.parts.control.deoffload(p)
    }

    /// Opens a barrier for all that was accepted, the callbacks of these tickets at least, and urges every processor to
    /// release its bypass list.
    ///
    /// # Errors
    ///
    /// The first fault in the order of the tickets: refusal 6 where there is no such processor, refusal 7 where its count isn't
    /// above the ticket's number, so that it gave no such ticket.
    pub fn barrier(&mut self, tickets: &[Ticket]) -> Result<Barrier, BarrierFault>
        ensures opens { OnControl (Opens tickets.now result) self.old self.new }
    {
        self.parts.control.barrier(tickets)
    }

    /// Polls a barrier. It has passed once every callback that it counts has run; a barrier that passed passes again.
    ///
    /// # Errors
    ///
    /// The barrier counts another number of processors than this runtime has.
    pub fn poll(&mut self, barrier: &Barrier) -> Result<Option<Passed>, OtherBarrier>
        ensures ok { IfOk result (λ passed.
            OnControl (Polls barrier.now.counts passed) self.old self.new) }
        ensures number { IfOk result (λ _.
            barrier.now.counts.n ≡ (parts_board self.old).processors) }
        ensures err { IfErr result (λ _. FindsOther barrier.now.counts self.old self.new) }
    {
        if barrier.counts.n != self.parts.control.processors() {
            return Err(OtherBarrier);
        }
        let mut open = *barrier;
        Ok(open.poll(&mut self.parts.control))
    }

    /// Ends acceptance: each call from now on is refused. Answers how many callbacks each processor accepted.
    pub fn shut(&mut self) -> Counts
        ensures shuts { OnControl (ShutsAll result) self.old self.new }
    {
        self.parts.control.shut()
    }
}
