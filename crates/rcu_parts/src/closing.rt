//! The end of a runtime.

ghost use Rattle.std.specs.Prelude.{◌≡◌, IfOk, IfErr};
ghost use Rattle.rcu_parts.specs.AtClose.{AccountsFor, ClosesWith};
ghost use Rattle.rcu_parts.specs.OneOpen.{AreOfOneOpen, AreSoundParts};

use crate::ends::close_in;
use crate::parts::{AllParts, Parts};
use crate::room::Reserved;
use rcu_jobs::{Closed, Job};
use rcu_part_group::Group;
use rcu_part_hand::Hand;
use rcu_part_processor::Processor;
use std::alloc::Global;

/// A runtime that could not be closed for want of memory. Nothing of it moved, and all that is left to do is to try
/// `again`.
pub type Closing<J> = AllClosing<Processor<J>, Group<J>, Hand<J>>;

/// [`Closing`], by the types of processors, groups and hands.
#[derive(Drop)]
pub struct AllClosing<P, G, H> {
    pub(crate) parts: AllParts<P, G, H>,
}

/// Closes a runtime: gives the records of all callbacks that ran, the jobs of those that didn't, and how many grace periods
/// each processor passed. Nothing is accepted afterwards, whether or not it was shut, since the processors are used up.
///
/// # Errors
///
/// Refusal 2, want of memory. No job, record or word has changed.
pub fn close<J: Job>(alloc: Global, parts: Parts<J>) -> Result<Closed<J>, Closing<J>>
    requires parts { AreOfOneOpen parts }
    ensures accounts { IfOk result (λ closed. AccountsFor parts closed) }
    ensures closes { IfOk result (λ closed.
        AreSoundParts J.key_of J.gives parts → ClosesWith J.key_of J.gives parts closed) }
    ensures left { IfErr result (λ closing. closing.parts ≡ parts) }
{
    let Ok(room) = Reserved::find(alloc, &parts.processors, &parts.hands) else {
        return Err(Closing { parts });
    };
    Ok(close_in(parts, room))
}

impl<J: Job> AllClosing<Processor<J>, Group<J>, Hand<J>> {
    /// Tries again.
    ///
    /// # Errors
    ///
    /// As [`close`].
    pub fn again(self, alloc: Global) -> Result<Closed<J>, Closing<J>>
        requires parts { AreOfOneOpen self.parts }
        ensures accounts { IfOk result (λ closed. AccountsFor self.parts closed) }
        ensures closes { IfOk result (λ closed.
            AreSoundParts J.key_of J.gives self.parts
            → ClosesWith J.key_of J.gives self.parts closed) }
        ensures left { IfErr result (λ closing. closing.parts ≡ self.parts) }
    {
        close(alloc, self.parts)
    }
}
