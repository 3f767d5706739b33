//! How a processor accepts a job.

ghost use Rattle.rcu_lists.specs.declared.pace.Kind.TheVariants.{Plain, Lazy};
ghost use Rattle.rcu_part_processor.specs.Calls.{CallsAs};

use crate::acceptance::{Request, accept_job};
use crate::processor::Processor;
use rcu_jobs::{Job, Refused, Ticket};
use rcu_lists::Kind;

impl<J: Job> Processor<J> {
    /// Accepts a job, which runs once a grace period that began after its acceptance has ended. An offloaded processor's
    /// call carries a moment, by which it holds callbacks back to release several together
    /// (docs/specification/rules.md, "Bypass lists").
    ///
    /// # Errors
    ///
    /// The job comes back, and nothing is accepted: refusal 4 at the limit, refusal 2 for want of memory, refusal 3 where
    /// the processor was shut.
    pub fn call_rcu(&mut self, moment: u64, job: J) -> Result<Ticket, Refused<J>>
        ensures calls { CallsAs moment Plain J.key_of J.gives job result self.old.state
            self.new.state }
    {
        self.call(moment, Kind::Plain, job)
    }

    /// Accepts a job as [`call_rcu`](Processor::call_rcu) does, but an offloaded processor may hold it back longer.
    ///
    /// # Errors
    ///
    /// As `call_rcu`.
    pub fn call_rcu_lazy(&mut self, moment: u64, job: J) -> Result<Ticket, Refused<J>>
        ensures calls { CallsAs moment Lazy J.key_of J.gives job result self.old.state
            self.new.state }
    {
        self.call(moment, Kind::Lazy, job)
    }

    // Accepts a job of either kind.
    fn call(&mut self, moment: u64, kind: Kind, job: J) -> Result<Ticket, Refused<J>>
        ensures calls { CallsAs moment kind J.key_of J.gives job result self.old.state
            self.new.state }
    {
        let state = &mut self.state;
        let request = Request {
            cpu: state.cpu,
            limit: state.limit,
            moment,
            kind,
            job,
        };
        accept_job(
            &state.board,
            &mut state.seat,
            &mut state.lists,
            &mut state.accepted,
            request,
        )
    }
}
