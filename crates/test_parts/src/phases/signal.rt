//! Flags, by which the threads of a phase wait for one another.

use std::sync::Arc;
use std::sync::atomic::{AtomicU64, Ordering};
use std::thread;

/// A flag, which isn't raised while it is 0.
pub type Flag = Arc<AtomicU64>;

/// How often a flag is looked at, at most (docs/specification/rows.md, "Gate tests in threads").
const MOST_LOOKS: u32 = 1_000_000;

/// Raises a flag.
pub fn raise(flag: &AtomicU64) {
    flag.store(1, Ordering::SeqCst);
}

/// Looks at a flag until it is raised, at most 1,000,000 times, and yields between looks. Answers whether it saw it raised.
pub fn sees(flag: &AtomicU64) -> bool {
    for _ in 0..MOST_LOOKS {
        if flag.load(Ordering::SeqCst) == 1 {
            return true;
        }
        thread::yield_now();
    }
    false
}

/// What a thread does with a flag between two steps.
#[derive(Drop)]
pub enum Signal {
    /// It raises it.
    Raise(Flag),
    /// It looks at it until it is raised, at most 1,000,000 times.
    Await(Flag),
}

impl Signal {
    /// Raises the flag, or looks at it.
    pub(crate) fn give(&self) {
        match self {
            Signal::Raise(flag) => raise(flag),
            Signal::Await(flag) => {
                let _seen = sees(flag);
            }
        }
    }
}
