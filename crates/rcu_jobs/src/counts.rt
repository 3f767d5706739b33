//! One count for each processor, without memory.

ghost use Rattle.std.specs.Prelude.{◌≡◌, ◌≢◌, ℕ, ◌<◌, ◌≤◌, length, take, replicate, slice_index, slice_set};
ghost use Rattle.rcu_jobs.specs.declared.counts.TheConstants.{MOST};

/// How many processors a runtime has at most.
const MOST: usize = 1024;

/// A count for each of `n` processors; the counts from `n` on are 0.
#[derive(Clone, Copy, Debug, PartialEq, Eq)]
pub struct Counts {
    /// How many processors there are, at most 1024.
    pub n: u64,
    /// The count of processor `p` at place `p`.
    pub counts: [u64; MOST],
    pub ghost fits: { n ≤ MOST },
    pub ghost others: { (p : ℕ) → n ≤ p → p < MOST → slice_index counts p ≡ 0 },
}

impl Counts {
    /// No count of any of `n` processors.
    pub fn new(n: u64) -> Counts
        requires { n ≤ MOST }
        ensures processors { result.n ≡ n }
        ensures zero { result.counts ≡ replicate MOST 0 }
    {
        Counts {
            n,
            counts: [0; MOST],
        }
    }

    /// Sets the count of processor `p`.
    pub fn set(&mut self, p: u64, count: u64)
        requires { p < self.old.n }
        ensures processors { self.new.n ≡ self.old.n }
        ensures one { self.new.counts ≡ slice_set self.old.counts p count }
    {
        self.counts[p as usize] = count;
    }

    /// The counts of the processors that there are.
    pub fn of_processors(&self) -> &[u64]
        ensures { result.now ≡ take self.now.n self.now.counts }
    {
        &self.counts[..self.n as usize]
    }
}
