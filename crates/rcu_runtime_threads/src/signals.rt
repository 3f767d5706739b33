//! What the threads of one run tell each other: when it begins, how many workers have ended, and when it is over.

use std::sync::atomic::{AtomicBool, AtomicU64, Ordering};

/// The signals of one run. They are no words of the board, so a runtime goes on after its run is over.
#[derive(Drop)]
pub struct Signals {
    begun: AtomicBool,
    over: AtomicBool,
    /// How many workers have ended.
    ended: AtomicU64,
}

impl Signals {
    /// The run has not begun.
    pub fn new() -> Signals {
        Signals {
            begun: AtomicBool::new(false),
            over: AtomicBool::new(false),
            ended: AtomicU64::new(0),
        }
    }

    /// Every part has its thread: the workers begin.
    pub fn begin(&self) {
        self.begun.store(true, Ordering::SeqCst);
    }

    /// Whether the workers may begin.
    pub fn has_begun(&self) -> bool {
        self.begun.load(Ordering::SeqCst)
    }

    /// All threads end.
    pub fn end(&self) {
        self.over.store(true, Ordering::SeqCst);
    }

    /// Whether the run is over.
    pub fn is_over(&self) -> bool {
        self.over.load(Ordering::SeqCst)
    }

    /// One more worker has ended.
    pub fn count_ended(&self) {
        self.ended.fetch_add(1, Ordering::SeqCst);
    }

    /// How many workers have ended.
    pub fn ended(&self) -> u64 {
        self.ended.load(Ordering::SeqCst)
    }
}
