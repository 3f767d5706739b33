//! Sets of processors.

ghost use Rattle.std.specs.Prelude.{◌≡◌, ◌≢◌, ℕ, ◌*◌, ◌/◌, ◌%◌, ◌^◌, ◌<◌, ◌≤◌, ◌↔◌, IsTrue, length};
ghost use Rattle.rcu_numbers.specs.Words.{all_of, owes_of};
ghost use Rattle.rcu_numbers.specs.Sets.{number_of_words};
ghost use Rattle.rcu_numbers.specs.declared.set.TheConstants.{PARTS_PROCESSORS, WORDS};

use std::marker::Model;

/// The most processors that the running parts have.
pub const PARTS_PROCESSORS: u64 = 1024;

/// How many words a set has.
const WORDS: usize = 16;

/// A set of processors of the running parts. A contract sees the number that has bit `p` for each processor `p` of it.
#[derive(Drop)]
pub struct ProcessorSet {
    words: [u64; WORDS],
}

impl Model for ProcessorSet {
    ghost Value = { ℕ };

    ghost view = { λ s. number_of_words s.words };

    ghost invariant = { λ s. length s.words ≡ WORDS };
}

impl ProcessorSet {
    /// No processor.
    pub fn new() -> ProcessorSet
        ensures { result ≡ 0 }
    {
        ProcessorSet { words: [0; WORDS] }
    }

    /// The processors of a mask: `p` where bit `p` stands in it.
    pub fn of_mask(mask: u32) -> ProcessorSet
        ensures { result ≡ mask }
    {
        let mut words = [0; WORDS];
        words[0] = u64::from(mask);
        ProcessorSet { words }
    }

    /// The processors of sixteen words: `p` where bit `p % 64` stands in word `p / 64`.
    pub fn of_words(words: &[u64; 16]) -> ProcessorSet
        ensures { result ≡ number_of_words words.now }
    {
        ProcessorSet { words: *words }
    }

    /// The first `n` processors.
    pub fn of_first(n: u64) -> ProcessorSet
        requires { n ≤ PARTS_PROCESSORS }
        ensures { result ≡ all_of n }
    {
        let mut set = ProcessorSet::new();
        for p in 0..n {
            set.add(p);
        }
        set
    }

    /// Whether processor `p` is in it.
    pub fn has(&self, p: u64) -> bool
        ensures { IsTrue result ↔ (owes_of self.now p ≡ 1) }
    {
        let words = &self.words;
        if p >= PARTS_PROCESSORS {
            return false;
        }
        (words[p as usize / 64] >> (p % 64)) & 1 == 1
    }

    /// Puts processor `p` into it, where it isn't there yet.
    pub fn add(&mut self, p: u64)
        requires { p < PARTS_PROCESSORS }
        ensures added { owes_of self.new p ≡ 1 }
        ensures others { (q : ℕ) → q ≢ p → owes_of self.new q ≡ owes_of self.old q }
    {
        self.words[p as usize / 64] |= 1 << (p % 64);
    }

    /// Whether each processor of it is one of the first `n`.
    pub fn is_below(&self, n: u64) -> bool
        ensures { IsTrue result ↔ (self.now < 2 ^ n) }
    {
        let words = &self.words;
        for p in n..64 * words.len() as u64 {
            if self.has(p) {
                return false;
            }
        }
        true
    }

    /// The same set again.
    pub fn copied(&self) -> ProcessorSet
        ensures { result ≡ self.now }
    {
        ProcessorSet { words: self.words }
    }
}
