//! How jobs are accepted.

ghost use Rattle.std.specs.Prelude.{◌≡◌, ◌+◌, IfErr, IfOk};

use crate::fault::{NotCalled, given_back};
use crate::whole::Whole;
use rcu_jobs::{Job, Ticket};
use rcu_parts::{AllParts, Group, Hand, Processor};

impl<J: Job> Whole<AllParts<Processor<J>, Group<J>, Hand<J>>> {
    ghost use Rattle.rcu_runtime.specs.Calls.{AcceptsLazy, AcceptsPlain, GivesBack, OnProcessor};
    ghost use Rattle.rcu_runtime.specs.Runtimes.{accepted_in};

    /// Accepts a job by processor `p`. It runs once each processor has reported after that. An offloaded processor's call
    /// carries a moment, by which it holds callbacks back to release several together.
    ///
    /// # Errors
    ///
    /// The job comes back, and nothing is accepted: refusal 6 where there is no such processor, 4 at the limit, 2 for want of
    /// memory, 3 where the runtime was shut.
    pub fn call_rcu(&mut self, p: u64, moment: u64, job: J) -> Result<Ticket, NotCalled<J>>
        ensures ok { IfOk result (λ t.
            OnProcessor p (AcceptsPlain moment (J.key_of job) job t) self.old self.new) }
        ensures err { IfErr result (λ fault. GivesBack p job fault self.old self.new) }
        ensures one { IfOk result (λ _. accepted_in self.new ≡ accepted_in self.old + 1) }
        ensures none { IfErr result (λ _. accepted_in self.new ≡ accepted_in self.old) }
    {
        if p >= self.processors() {
            return Err(NotCalled::NoProcessor { cpu: p, job });
        }
        given_back(self.parts.processors[p as usize].call_rcu(moment, job))
    }

    /// Accepts a job as [`call_rcu`](Runtime::call_rcu) does, but an offloaded processor may hold it back longer.
    ///
    /// # Errors
    ///
    /// As `call_rcu`.
    pub fn call_rcu_lazy(&mut self, p: u64, moment: u64, job: J) -> Result<Ticket, NotCalled<J>>
        ensures ok { IfOk result (λ t.
            OnProcessor p (AcceptsLazy moment (J.key_of job) job t) self.old self.new) }
        ensures err { IfErr result (λ fault. GivesBack p job fault self.old self.new) }
        ensures one { IfOk result (λ _. accepted_in self.new ≡ accepted_in self.old + 1) }
        ensures none { IfErr result (λ _. accepted_in self.new ≡ accepted_in self.old) }
    {
        if p >= self.processors() {
            return Err(NotCalled::NoProcessor { cpu: p, job });
        }
        given_back(self.parts.processors[p as usize].call_rcu_lazy(moment, job))
    }
}
