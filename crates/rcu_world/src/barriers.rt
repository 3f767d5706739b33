//! What is kept of a barrier.

ghost use Rattle.std.specs.Prelude.{◌≡◌, ◌*◌, ◌<◌, ◌||◌, false, Some, nat_le, slice_set, slice_index_or, length, replicate, IfOk, None};
ghost use Rattle.rcu_world_law.specs.Lists.{is_none};
ghost use Rattle.rcu_world_law.specs.Lists.{all_of, value_or};
ghost use Rattle.rcu_world_law.specs.States.{count_at};
ghost use Rattle.rcu_world.specs.Barrings.{barrier};

use std::alloc::{AllocError, Global};

#[derive(Drop)]
pub struct Barring {
    pub(crate) passed: bool,
    pub(crate) counts: Vec<Option<u64>>,
    pub(crate) seen: Vec<bool>,
}

fn repeated<T: Copy + Drop>(alloc: Global, item: T, n: usize) -> Result<Vec<T>, AllocError>
    ensures { IfOk result (λ list. list.items ≡ replicate n item) }
{
    let mut list = Vec::new(alloc);
    for place in 0..n {
        list.push(item)?;
    }
    Ok(list)
}

fn all_of(seen: &Vec<bool>) -> bool
    ensures { result ≡ all_of seen.now.items }
{
    for b in seen {
        if !*b {
            return false;
        }
    }
    true
}

impl Barring {
    /// Nothing is counted.
    pub fn new(alloc: Global, n: usize) -> Result<Self, AllocError>
        ensures { IfOk result (λ b.
            barrier b
            ≡ record { passed = false; counts = replicate n None; seen = replicate n false }) }
    {
        Ok(Barring {
            passed: false,
            counts: repeated(alloc, None, n)?,
            seen: repeated(alloc, false, n)?,
        })
    }

    pub fn is_uncounted(&self, i: usize) -> bool
        ensures { result ≡ is_none (count_at (barrier self.now) i) }
    {
        i >= self.counts.len() || self.counts[i].is_none()
    }

    /// Keeps the count of a processor.
    pub fn count(&mut self, i: usize, count: u64)
        requires { i < length self.old.counts.items }
        ensures { barrier self.new
            ≡ record (barrier self.old)
            { counts = slice_set (barrier self.old).counts i (Some count) } }
    {
        self.counts[i] = Some(count);
    }

    /// Whether a processor's turn has come as far as its count.
    pub fn see(&mut self, i: usize, turn: u64)
        requires counts { i < length self.old.counts.items }
        requires seen { i < length self.old.seen.items }
        ensures { barrier self.new
            ≡ record (barrier self.old) {
              seen = slice_set (barrier self.old).seen i
                  (slice_index_or (barrier self.old).seen i false || nat_le
                  (2 * value_or (count_at (barrier self.old) i)) turn);
            } }
    {
        let count = match self.counts[i] {
            None => 0,
            Some(count) => count,
        };
        if count <= turn / 2 {
            self.seen[i] = true;
        }
    }

    pub fn is_seen(&self) -> bool
        ensures { result ≡ all_of self.now.seen.items }
    {
        all_of(&self.seen)
    }

    /// Whether a processor was seen to have come as far as its count.
    pub fn has_seen(&self, i: usize) -> bool
        ensures { result ≡ slice_index_or (barrier self.now).seen i false }
    {
        i < self.seen.len() && self.seen[i]
    }

    /// The count that is kept of a processor, 0 where there is none.
    pub fn kept(&self, i: usize) -> u64
        ensures { result ≡ value_or (count_at (barrier self.now) i) }
    {
        if i >= self.counts.len() {
            return 0;
        }
        match self.counts[i] {
            None => 0,
            Some(count) => count,
        }
    }
}
