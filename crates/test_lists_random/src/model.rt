//! The labelled list, with its rules as they are worded: no segments, no bounds.

use std::alloc::{AllocError, Global};

/// How far a callback has come.
#[derive(Clone, Copy, PartialEq, Eq)]
pub enum Label {
    Done,
    Numbered(u64),
    Bare,
}

/// A callback, of which only the stamp matters here.
#[derive(Clone, Copy)]
pub struct Entry {
    label: Label,
    stamp: u64,
}

/// The entries, oldest first.
#[derive(Drop)]
pub struct LabelledList {
    entries: Vec<Entry>,
}

impl LabelledList {
    pub fn new(alloc: Global) -> LabelledList {
        LabelledList {
            entries: Vec::new(alloc),
        }
    }

    pub fn enqueue(&mut self, stamp: u64) -> Result<(), AllocError> {
        self.entries.push(Entry {
            label: Label::Bare,
            stamp,
        })?;
        Ok(())
    }

    pub fn advance(&mut self, seq: u64) {
        for entry in self.entries.iter_mut() {
            if let Label::Numbered(number) = entry.label {
                if number <= seq {
                    entry.label = Label::Done;
                }
            }
        }
    }

    /// Whether `accelerate(seq)` may be called.
    pub fn may_accelerate(&self, seq: u64) -> bool {
        for entry in &self.entries {
            if let Label::Numbered(number) = entry.label {
                if number > seq {
                    return false;
                }
            }
            if least_number_for(entry.stamp) > u128::from(seq) {
                return false;
            }
        }
        true
    }

    pub fn accelerate(&mut self, seq: u64) -> bool {
        let [first, second] = self.numbers();
        let two_below = first < seq && 0 < second && second < seq;
        if !two_below {
            for entry in self.entries.iter_mut() {
                if entry.label == Label::Bare {
                    entry.label = Label::Numbered(seq);
                }
            }
        }
        self.count(Label::Numbered(seq)) > 0
    }

    /// The stamp of the first callback, if that is done, which leaves.
    pub fn take_done(&mut self) -> Option<u64> {
        let first = *self.entries.first()?;
        if first.label != Label::Done {
            return None;
        }
        self.entries.remove(0);
        Some(first.stamp)
    }

    pub fn newest(&self) -> Option<u64> {
        let mut newest = None;
        for entry in &self.entries {
            newest = match newest {
                Some(stamp) if stamp > entry.stamp => Some(stamp),
                _ => Some(entry.stamp),
            };
        }
        newest
    }

    /// The two numbers that are there, 0 where there is none.
    pub fn numbers(&self) -> [u64; 2] {
        let mut first = 0;
        let mut second = 0;
        for entry in &self.entries {
            if let Label::Numbered(number) = entry.label {
                if first == 0 {
                    first = number;
                } else if number != first {
                    second = number;
                }
            }
        }
        [first, second]
    }

    /// How many are done, have the first number, the second one, and none.
    pub fn lengths(&self) -> [u64; 4] {
        let [first, second] = self.numbers();
        [
            self.count(Label::Done),
            self.count(Label::Numbered(first)),
            self.count(Label::Numbered(second)),
            self.count(Label::Bare),
        ]
    }

    fn count(&self, label: Label) -> u64 {
        self.entries
            .iter()
            .filter(|entry| entry.label == label)
            .count() as u64
    }
}

// The least idle number at which a grace period that began after `stamp` has ended. That grace period is the next one
// that may begin: its own number is one above the first idle number from `stamp` on.
fn least_number_for(stamp: u64) -> u128 {
    let past_idle = u128::from(stamp % 4);
    let idle = if past_idle == 0 {
        u128::from(stamp)
    } else {
        u128::from(stamp) + 4 - past_idle
    };
    let in_progress = idle + 1;
    in_progress + 3
}
