//! What is seen of a runtime, and read sections.

ghost use Rattle.std.specs.Prelude.{◌≡◌, ◌+◌, ◌<◌, IfErr, IfOk, length};

use crate::fault::NoProcessor;
use crate::whole::Whole;
use rcu_jobs::{Job, Lists};
use rcu_parts::{AllParts, Group, Hand, Processor, Reading};

impl<J: Job> Whole<AllParts<Processor<J>, Group<J>, Hand<J>>> {
    ghost use Rattle.rcu_part_lists.specs.ProcessorLists.{cpu_lists};
    ghost use Rattle.rcu_part_processor.specs.Processors.{lists_of};
    ghost use Rattle.rcu_parts.specs.OneOpen.{processors_in};
    ghost use Rattle.rcu_runtime.specs.Calls.{AnswersOf, IsNone};

    /// How many processors there are.
    pub fn processors(&self) -> u64
        ensures { result ≡ length (processors_in self.now) }
    {
        self.parts.processors.len() as u64
    }

    /// Processor `p`.
    pub(crate) fn processor(&self, p: u64) -> Result<&Processor<J>, NoProcessor>
        ensures finds { AnswersOf p result (λ processor q. q ≡ processor.now) self.now }
    {
        if p >= self.processors() {
            return Err(NoProcessor { cpu: p });
        }
        Ok(&self.parts.processors[p as usize])
    }

    /// Begins a read section of processor `p`. While it lives no call that changes the runtime compiles, so nothing is
    /// reported: what was found by way of the section isn't let go.
    ///
    /// # Errors
    ///
    /// There is no such processor.
    pub fn reading(&self, p: u64) -> Result<Reading<'_, J>, NoProcessor>
        ensures there { IfOk result (λ _. p < length (processors_in self.now)) }
        ensures err { IfErr result (λ fault. IsNone p fault self.now) }
    {
        Ok(self.processor(p)?.reading())
    }

    /// What is shown of the lists of processor `p`.
    ///
    /// # Errors
    ///
    /// There is no such processor.
    pub fn lists(&self, p: u64) -> Result<Lists, NoProcessor>
        ensures shows { AnswersOf p result
            (λ lists q. lists ≡ cpu_lists q.state.accepted (lists_of q.state)) self.now }
    {
        Ok(self.processor(p)?.lists())
    }

    /// How many callbacks processor `p` has accepted.
    ///
    /// # Errors
    ///
    /// There is no such processor.
    pub fn accepted(&self, p: u64) -> Result<u64, NoProcessor>
        ensures counts { AnswersOf p result (λ count q. count ≡ q.state.accepted) self.now }
    {
        Ok(self.processor(p)?.accepted())
    }

    /// How many callbacks processor `p` still accepts in its life. Where that is none, close the runtime and open the next.
    ///
    /// # Errors
    ///
    /// There is no such processor.
    pub fn left(&self, p: u64) -> Result<u64, NoProcessor>
        ensures counts { AnswersOf p result
            (λ left q. left + q.state.accepted ≡ q.state.limit) self.now }
    {
        Ok(self.limit - self.processor(p)?.accepted())
    }
}
