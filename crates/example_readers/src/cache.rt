//! The cache that all threads share, and the job by which an old version of it is let go.

ghost use Rattle.std.specs.Prelude.{◌≡◌};

use rcu_runtime_threads::{Job, Reading};
use std::sync::Arc;
use std::sync::atomic::{AtomicU64, Ordering};

/// How many versions may be there at once: the current one, and those that wait until no reader can look at them.
const PLACES: usize = 4;

/// What stands in a place that has no version.
const FREE: u64 = u64::MAX;

/// A read-mostly cache: a place for each version that is there, which place has the current one, and how many were published
/// after the first.
#[derive(Drop)]
pub struct Cache {
    places: [AtomicU64; PLACES],
    current: AtomicU64,
    published: AtomicU64,
}

impl Cache {
    /// A cache with version 0.
    pub fn new() -> Cache {
        let place = AtomicU64::new;
        Cache {
            places: [place(0), place(FREE), place(FREE), place(FREE)],
            current: AtomicU64::new(0),
            published: AtomicU64::new(0),
        }
    }

    fn place(&self, at: u64) -> &AtomicU64 {
        &self.places[at as usize % PLACES]
    }

    /// How many versions were published after the first.
    pub fn published(&self) -> u64 {
        self.published.load(Ordering::SeqCst)
    }

    /// No version comes any more: as many as there could be count as published, so that nobody waits for one.
    pub fn end(&self) {
        self.published.store(u64::MAX, Ordering::SeqCst);
    }

    /// The version that is current. It looks twice, and answers None where it was let go meanwhile, which no reader sees.
    pub fn read(&self, _section: &Reading<'_, Retired>) -> Option<u64> {
        let place = self.place(self.current.load(Ordering::SeqCst));
        let version = place.load(Ordering::SeqCst);
        let is_there = version != FREE && version == place.load(Ordering::SeqCst);
        is_there.then_some(version)
    }

    /// Publishes the next version, where a place is free, and answers the place of the one before, which is to be retired.
    pub fn publish(&self) -> Option<u64> {
        let mut places = self.places.iter();
        let free = places.position(|place| place.load(Ordering::SeqCst) == FREE)? as u64;
        let place = self.place(free);
        let before = self.published.fetch_add(1, Ordering::SeqCst);
        place.store(before.saturating_add(1), Ordering::SeqCst);
        Some(self.current.swap(free, Ordering::SeqCst))
    }
}

/// The job: the version in this place is let go.
#[derive(Drop)]
pub struct Retired {
    pub cache: Arc<Cache>,
    pub place: u64,
}

/// The receipt: which version was let go, of which place.
#[derive(Clone, Copy, Debug, PartialEq, Eq)]
pub struct Freed {
    pub place: u64,
    pub version: u64,
}

impl Job for Retired {
    type Receipt = Freed;

    // The key is the place,
    ghost key_of = { λ job. job.place };

    // and the receipt is of that place.
    ghost gives = { λ place freed. freed.place ≡ place };

    fn key(&self) -> u64 {
        self.place
    }

    fn run(self) -> Freed {
        let Retired { cache, place } = self;
        let version = cache.place(place).swap(FREE, Ordering::SeqCst);
        Freed { place, version }
    }
}
