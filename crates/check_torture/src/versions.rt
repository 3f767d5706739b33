//! The versions of a table, and what has become of each.

ghost use Rattle.std.specs.Prelude.{◌≡◌, min};
ghost use Rattle.check_torture.specs.Ages.{word_of};

use std::alloc::{AllocError, Global};
use std::sync::atomic::{AtomicU64, Ordering};

/// How many slots the table has. Each shows one version.
pub const SLOTS: u64 = 16;

/// What has become of a version.
#[derive(Clone, Copy, PartialEq, Eq)]
pub enum Age {
    /// It is in the table, or was never in it.
    Current,
    /// It was taken out of the table; readers that found it before may still look at it.
    Removed,
    /// Its callback has run.
    Freed,
}

impl Age {
    /// The word that says so.
    fn word(self) -> u64
        ensures { result ≡ word_of self }
    {
        match self {
            Age::Current => 0,
            Age::Removed => 1,
            Age::Freed => 2,
        }
    }

    /// What this word says.
    fn of_word(word: u64) -> Age
        ensures { word_of result ≡ min word 2 }
    {
        match word {
            0 => Age::Current,
            1 => Age::Removed,
            _ => Age::Freed,
        }
    }
}

/// A table that shows a version in each slot, and the age of every version. All threads share it.
#[derive(Drop)]
pub struct Versions {
    /// The word of each version's age.
    ages: Vec<AtomicU64>,
    /// The number of the version that each slot shows.
    slots: Vec<AtomicU64>,
    /// How many versions were made.
    made: AtomicU64,
}

impl Versions {
    /// A table whose slots show the versions 0, 1, .., and room for so many versions more.
    ///
    /// # Errors
    ///
    /// Want of memory.
    pub fn new(alloc: Global, more: u64) -> Result<Versions, AllocError> {
        let mut ages = Vec::new(alloc);
        for _ in 0..SLOTS.saturating_add(more) {
            ages.push(AtomicU64::new(Age::Current.word()))?;
        }
        let mut slots = Vec::new(alloc);
        for version in 0..SLOTS {
            slots.push(AtomicU64::new(version))?;
        }
        Ok(Versions {
            ages,
            slots,
            made: AtomicU64::new(SLOTS),
        })
    }

    /// Puts a new version into a slot, and takes out the version that was there. Answers that one, or None where no version
    /// is left to be made.
    pub fn replace(&self, slot: u64) -> Option<u64> {
        let place = self.slots.get(slot as usize)?;
        let version = self.made.fetch_add(1, Ordering::SeqCst);
        self.ages.get(version as usize)?;
        let removed = place.swap(version, Ordering::SeqCst);
        self.pass(removed, Age::Removed);
        Some(removed)
    }

    /// The version that a slot shows.
    pub fn shown(&self, slot: u64) -> Option<u64> {
        Some(self.slots.get(slot as usize)?.load(Ordering::SeqCst))
    }

    /// What has become of a version. None where there is no such version.
    pub fn age(&self, version: u64) -> Option<Age> {
        let word = self.ages.get(version as usize)?.load(Ordering::SeqCst);
        Some(Age::of_word(word))
    }

    /// Gives a version this age. Answers the one before.
    pub fn pass(&self, version: u64, age: Age) -> Option<Age> {
        let word = self
            .ages
            .get(version as usize)?
            .swap(age.word(), Ordering::SeqCst);
        Some(Age::of_word(word))
    }

    /// How many versions are of this age.
    pub fn count(&self, age: Age) -> usize {
        self.ages
            .iter()
            .filter(|word| word.load(Ordering::SeqCst) == age.word())
            .count()
    }
}
