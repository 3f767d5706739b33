//! What all threads of a run share: the table, what each processor's callbacks did so far, and the flaws.

use crate::flaw::{Flaw, Flaws};
use crate::versions::{Age, Versions};
use rcu_jobs::{Counts, Ticket};
use rcu_parts::Barrier;
use std::alloc::{AllocError, Global};
use std::sync::atomic::{AtomicU64, Ordering};
use std::sync::{Arc, Mutex};
use std::thread;

/// What is seen of one processor's callbacks while they run.
#[derive(Drop)]
struct Watch {
    /// 1 while a callback runs.
    running: AtomicU64,
    /// How many have run.
    ran: AtomicU64,
    /// How many were accepted, as the processor's own thread was told.
    accepted: AtomicU64,
}

impl Watch {
    /// Nothing was accepted.
    fn new() -> Watch {
        Watch {
            running: AtomicU64::new(0),
            ran: AtomicU64::new(0),
            accepted: AtomicU64::new(0),
        }
    }
}

/// What all threads of a run share.
#[derive(Drop)]
pub struct Shared {
    pub versions: Versions,
    pub flaws: Flaws,
    watches: Vec<Watch>,
    /// How many processors have accepted their share.
    arrived: AtomicU64,
    /// A barrier that a processor opened, for control to poll.
    handed: Mutex<Option<Barrier>>,
}

impl Shared {
    /// What the threads of `processors` processors share, with room for so many versions.
    ///
    /// # Errors
    ///
    /// Want of memory.
    pub fn new(alloc: Global, processors: u64, versions: u64) -> Result<Shared, AllocError> {
        let mut watches = Vec::new(alloc);
        for _ in 0..processors {
            watches.push(Watch::new())?;
        }
        Ok(Shared {
            versions: Versions::new(alloc, versions)?,
            flaws: Flaws::new(alloc)?,
            watches,
            arrived: AtomicU64::new(0),
            handed: Mutex::new(None),
        })
    }

    /// The callback of this ticket begins. It notes where another callback of the processor is running, and where it isn't
    /// this one's turn.
    pub fn begin(&self, ticket: Ticket) {
        if let Some(watch) = self.watches.get(ticket.cpu as usize) {
            let alone = watch.running.swap(1, Ordering::SeqCst) == 0;
            self.flaws.check(alone, Flaw::Beside);
            let turn = watch.ran.load(Ordering::SeqCst) == ticket.number;
            self.flaws.check(turn, Flaw::OutOfOrder);
        }
    }

    /// A callback of a processor ends: it frees a version, and notes where that wasn't removed, or was freed before.
    pub fn end(&self, cpu: u64, version: u64) {
        if let Some(watch) = self.watches.get(cpu as usize) {
            let age = self.versions.pass(version, Age::Freed);
            self.flaws.check(age == Some(Age::Removed), Flaw::Twice);
            watch.ran.fetch_add(1, Ordering::SeqCst);
            watch.running.store(0, Ordering::SeqCst);
        }
    }

    /// What the callback of this ticket does: it frees a version, and yields so many times before.
    pub fn free(&self, ticket: Ticket, version: u64, yields: u64) {
        self.begin(ticket);
        rest(yields);
        self.end(ticket.cpu, version);
    }

    /// How many callbacks of a processor have run.
    pub fn ran(&self, cpu: u64) -> u64 {
        match self.watches.get(cpu as usize) {
            Some(watch) => watch.ran.load(Ordering::SeqCst),
            None => 0,
        }
    }

    /// Says that a processor accepted so many callbacks.
    pub fn accept(&self, cpu: u64, accepted: u64) {
        if let Some(watch) = self.watches.get(cpu as usize) {
            watch.accepted.store(accepted, Ordering::SeqCst);
        }
    }

    /// The last ticket of each processor that accepted something.
    ///
    /// # Errors
    ///
    /// Want of memory.
    pub fn tickets(&self, alloc: Global) -> Result<Vec<Ticket>, AllocError> {
        let mut tickets = Vec::new(alloc);
        for (cpu, watch) in self.watches.iter().enumerate() {
            let accepted = watch.accepted.load(Ordering::SeqCst);
            if accepted > 0 {
                tickets.push(Ticket {
                    cpu: cpu as u64,
                    number: accepted - 1,
                })?;
            }
        }
        Ok(tickets)
    }

    /// Notes where a barrier that passed with these counts did so before the callbacks had run.
    pub fn check_passed(&self, counts: &Counts) {
        for (watch, count) in self.watches.iter().zip(counts.of_processors().iter()) {
            let over = watch.ran.load(Ordering::SeqCst) >= *count;
            self.flaws.check(over, Flaw::PassedEarly);
        }
    }

    /// Hands a barrier to control, in place of the one that waits there. It is dropped where another thread is at the place.
    pub fn hand(&self, barrier: Barrier) {
        if let Some(mut place) = self.handed.try_lock() {
            *place = Some(barrier);
        }
    }

    /// Takes the barrier that a processor handed over, if there is one.
    pub fn handed(&self) -> Option<Barrier> {
        self.handed.try_lock()?.take()
    }

    /// Says that a processor has accepted its share.
    pub fn arrive(&self) {
        self.arrived.fetch_add(1, Ordering::SeqCst);
    }

    /// Whether all processors have accepted their shares.
    pub fn have_arrived(&self) -> bool {
        self.arrived.load(Ordering::SeqCst) >= self.watches.len() as u64
    }
}

/// What the threads of `processors` processors share, with room for so many versions, to be handed to each.
///
/// # Errors
///
/// Want of memory.
pub fn share(alloc: Global, processors: u64, versions: u64) -> Result<Arc<Shared>, AllocError> {
    let shared = Shared::new(alloc, processors, versions)?;
    match Arc::new(alloc, shared) {
        Ok(shared) => Ok(shared),
        Err(_) => Err(AllocError),
    }
}

/// Yields so many times.
pub fn rest(yields: u64) {
    for _ in 0..yields {
        thread::yield_now();
    }
}
