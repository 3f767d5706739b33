//! Random numbers.

ghost use Rattle.std.specs.Prelude.{◌<◌};

use rand_core::utils::NextWord;
use rand_pcg::Pcg32;

/// Of how many parts of one run the numbers differ.
const PARTS: u64 = 64;

/// Random numbers, which differ by the seed, the run, and the part that draws them.
#[derive(Drop)]
pub struct Chance {
    generator: Pcg32,
}

impl Chance {
    /// The numbers of this part of a run. Control is part 0, and processor `p` is part `p + 1`.
    pub fn new(seed: u64, run: u64, part: u64) -> Chance {
        Chance {
            generator: Pcg32::new(seed, run.wrapping_mul(PARTS).wrapping_add(part)),
        }
    }

    /// A number of 32 bits.
    pub fn word(&mut self) -> u32 {
        self.generator.next_word()
    }

    /// A number below the bound.
    pub fn below(&mut self, bound: u64) -> u64
        requires { 0 < bound }
        ensures { result < bound }
    {
        u64::from(self.word()) % bound
    }

    /// True once in so many times.
    pub fn once_in(&mut self, times: u64) -> bool
        requires { 0 < times }
    {
        self.below(times) == 0
    }
}
