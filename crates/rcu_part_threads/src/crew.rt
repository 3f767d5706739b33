//! Threads that were started together, and are joined together.

ghost use Rattle.std.specs.Prelude.{◌≡◌, ◌⊎◌, [], IfErr, IfOk, Some, None, is_none};
ghost use Rattle.std.specs.List.{AllZip};

use crate::fault::ThreadsFault;
use std::alloc::Global;
use std::thread;
use std::thread::{Promise, PromisedHandle, Threads};

/// The threads of the parts of one kind, in the order of the parts; and why there is no further one, where not every part
/// has one.
#[derive(Drop)]
pub struct Crew<H> {
    pub threads: Vec<H>,
    pub fault: Option<ThreadsFault>,
}

impl<H: Drop> Crew<H> {
    /// A thread for each part.
    pub fn whole(threads: Vec<H>) -> Crew<H>
        ensures { (result.threads ≡ threads) × (result.fault ≡ None) }
    {
        Crew {
            threads,
            fault: None,
        }
    }

    /// The threads that could be made.
    pub fn partial(threads: Vec<H>) -> Crew<H>
        ensures { (result.threads ≡ threads) × (result.fault ≡ Some ThreadsFault.CannotRun) }
    {
        let fault = Some(ThreadsFault::CannotRun);
        Crew { threads, fault }
    }

    /// No thread, for want of memory.
    pub fn none(alloc: Global) -> Crew<H>
        ensures { (result.threads.items ≡ []) × (result.fault ≡ Some ThreadsFault.Memory) }
    {
        Crew {
            threads: Vec::new(alloc),
            fault: Some(ThreadsFault::Memory),
        }
    }
}

impl<H> Crew<H> {
    /// Whether every part has a thread.
    pub fn is_whole(&self) -> bool
        ensures { result ≡ is_none self.now.fault }
    {
        self.fault.is_none()
    }
}

/// Joins all threads, and gives what they gave back, in order.
///
/// # Errors
///
/// Why not every part has a thread; or want of memory. All threads were joined, and what they gave back was dropped.
pub fn join_all<T: Send + Drop, P: Promise<T>, R: Threads>(
    rt: &R,
    crew: Crew<PromisedHandle<T, P>>,
) -> Result<Vec<T>, ThreadsFault>
    ensures whole { IfOk result (λ _. crew.fault ≡ None) }
    ensures kept { IfOk result (λ parts.
        AllZip (λ h part. P.kept_by h.promise part) crew.threads.items parts.items) }
    ensures why { IfErr result (λ fault.
        (crew.fault ≡ Some fault) ⊎ (fault ≡ ThreadsFault.Memory)) }
{
    let Crew { threads, fault } = crew;
    match thread::join_promised(rt, threads) {
        Ok(parts) => match fault {
            None => Ok(parts),
            Some(fault) => Err(fault),
        },
        Err(refused) => {
            for thread in refused.value {
                thread.join(rt);
            }
            Err(ThreadsFault::Memory)
        }
    }
}
