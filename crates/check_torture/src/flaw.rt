//! What a run may find wrong, and how often it did.

use std::alloc::{AllocError, Global};
use std::sync::atomic::{AtomicU64, Ordering};

/// Something that the runtime promises never happens.
#[derive(Clone, Copy, PartialEq, Eq)]
pub enum Flaw {
    /// A callback began while another of its processor ran.
    Beside,
    /// A callback ran before an earlier one of its processor, or after a later one.
    OutOfOrder,
    /// A callback ran twice.
    Twice,
    /// A read section saw at its end a version whose callback had run.
    FreedWhileRead,
    /// A barrier passed before an earlier callback had run.
    PassedEarly,
    /// A barrier's counts leave out a callback that had been accepted before.
    Uncounted,
    /// A ticket isn't the next one of its processor.
    Ticket,
    /// The callbacks that ran and those handed back aren't those accepted, in order.
    Keys,
    /// The records' numbers aren't 0, 1, 2, ..
    Numbers,
    /// A callback ran by a number below that for which it had to wait.
    Ready,
    /// A receipt isn't that of its record's key.
    Receipt,
    /// A callback was handed back after a barrier with all tickets had passed.
    HandedBack,
    /// The counts of a shut aren't those of the accepted callbacks.
    ShutCounts,
    /// As many callbacks ran as records tell of, but not as many versions are freed.
    Freed,
    /// Fewer reports are told of than a processor was told were counted.
    Reports,
    /// The history in the order of numbers doesn't agree with what `close` answered.
    Disagrees,
    /// That history isn't closed under the law.
    Unlawful,
}

impl Flaw {
    /// All of them.
    pub const ALL: [Flaw; 17] = [
        Flaw::Beside,
        Flaw::OutOfOrder,
        Flaw::Twice,
        Flaw::FreedWhileRead,
        Flaw::PassedEarly,
        Flaw::Uncounted,
        Flaw::Ticket,
        Flaw::Keys,
        Flaw::Numbers,
        Flaw::Ready,
        Flaw::Receipt,
        Flaw::HandedBack,
        Flaw::ShutCounts,
        Flaw::Freed,
        Flaw::Reports,
        Flaw::Disagrees,
        Flaw::Unlawful,
    ];

    /// What it is, in words.
    pub fn text(self) -> &'static str {
        match self {
            Flaw::Beside => "a callback began while another of its processor ran",
            Flaw::OutOfOrder => "a callback ran out of its order",
            Flaw::Twice => "a callback ran of a version that was not removed, or twice",
            Flaw::FreedWhileRead => "a read section saw a version whose callback had run",
            Flaw::PassedEarly => "a barrier passed before an earlier callback had run",
            Flaw::Uncounted => "a barrier left out a callback that had been accepted",
            Flaw::Ticket => "a ticket was not the next of its processor",
            Flaw::Keys => "what ran and was handed back was not what was accepted",
            Flaw::Numbers => "records were not numbered 0, 1, 2, ..",
            Flaw::Ready => "a callback ran before its grace period had ended",
            Flaw::Receipt => "a receipt was not that of its key",
            Flaw::HandedBack => "a callback was handed back after a barrier with all tickets",
            Flaw::ShutCounts => "a shut counted otherwise than was accepted",
            Flaw::Freed => "as many versions were not freed as callbacks ran",
            Flaw::Reports => "fewer reports were counted than a processor was told of",
            Flaw::Disagrees => "a history in the order of numbers did not agree with the answer",
            Flaw::Unlawful => "a history in the order of numbers was not closed under the law",
        }
    }
}

/// How often each flaw was met. All threads share it.
#[derive(Drop)]
pub struct Flaws {
    /// The count of `Flaw::ALL[i]` at place `i`.
    counts: Vec<AtomicU64>,
}

impl Flaws {
    /// None was met.
    ///
    /// # Errors
    ///
    /// Want of memory.
    pub fn new(alloc: Global) -> Result<Flaws, AllocError> {
        let mut counts = Vec::new(alloc);
        for _ in Flaw::ALL {
            counts.push(AtomicU64::new(0))?;
        }
        Ok(Flaws { counts })
    }

    /// Counts a flaw.
    pub fn note(&self, flaw: Flaw) {
        for (met, count) in Flaw::ALL.iter().zip(self.counts.iter()) {
            if *met == flaw {
                count.fetch_add(1, Ordering::SeqCst);
            }
        }
    }

    /// Counts a flaw unless all is as it should be.
    pub fn check(&self, holds: bool, flaw: Flaw) {
        if !holds {
            self.note(flaw);
        }
    }

    /// How often a flaw was met.
    pub fn count(&self, flaw: Flaw) -> u64 {
        let mut times: u64 = 0;
        for (met, count) in Flaw::ALL.iter().zip(self.counts.iter()) {
            if *met == flaw {
                times = count.load(Ordering::SeqCst);
            }
        }
        times
    }

    /// Adds how often others met each flaw.
    pub fn add(&self, more: &Flaws) {
        for (count, others) in self.counts.iter().zip(more.counts.iter()) {
            count.fetch_add(others.load(Ordering::SeqCst), Ordering::SeqCst);
        }
    }

    /// How many flaws were met.
    pub fn sum(&self) -> u64 {
        let mut sum: u64 = 0;
        for count in self.counts.iter() {
            sum = sum.saturating_add(count.load(Ordering::SeqCst));
        }
        sum
    }
}
