//! The board's word.

ghost use Rattle.std.specs.Prelude.{◌≡◌, ◌≢◌, ℕ, ◌+◌, ◌^◌, ◌<◌, ◌≤◌, ◌↔◌, IsTrue, bit_and};
ghost use Rattle.rcu_numbers.specs.declared.shape.TheConstants.{MOST_PROCESSORS};
ghost use Rattle.rcu_numbers.specs.Words.{Board, Owes, all_but_of, all_of, board_of, mask_of, number_of, owes_of, packed};

use std::marker::Model;

/// The board's word: the grace-period number in bits 32 to 62, and in bits 0 to 31 the mask of the processors that
/// still owe a report of a quiescent state (docs/specification/rules.md, "Quiescent reports"). Bit 63 is 0.
#[derive(Clone, Copy, Debug, PartialEq, Eq)]
pub struct BoardWord {
    bits: u64,
}

impl Model for BoardWord {
    ghost Value = { Board };

    ghost view = { λ w. board_of w.bits };

    ghost invariant = { λ w. w.bits < 9223372036854775808 };

    ghost inverse = { λ b. record { bits = packed b.seq b.mask } };
}

impl BoardWord {
    /// The word with the number `seq` and the processors of `mask` owing a report.
    pub fn pack(seq: u64, mask: u32) -> BoardWord
        requires { seq < 2147483648 }
        ensures { result ≡ record { seq = seq; mask = mask } }
    {
        BoardWord {
            bits: seq * 4294967296 + u64::from(mask),
        }
    }

    /// The word that stands in these 64 bits, of which bit 63 is 0.
    pub fn from_bits(bits: u64) -> BoardWord
        requires { bits < 9223372036854775808 }
        ensures { result ≡ board_of bits }
    {
        BoardWord { bits }
    }

    /// The 64 bits of the word.
    pub fn bits(self) -> u64
        ensures { result ≡ packed self.seq self.mask }
    {
        self.bits
    }

    /// The grace-period number.
    pub fn seq(self) -> u64
        ensures same { result ≡ self.seq }
        ensures small { result < 2147483648 }
    {
        self.bits / 4294967296
    }

    /// The mask of the processors that owe a report, bit `p` for processor `p`.
    pub fn mask(self) -> u32
        ensures { result ≡ self.mask }
    {
        (self.bits % 4294967296) as u32
    }

    /// Whether processor `p` owes a report.
    pub fn owes(self, p: u64) -> bool
        requires { p < MOST_PROCESSORS }
        ensures { IsTrue result ↔ Owes self p }
    {
        (self.mask() >> p) & 1 == 1
    }

    /// The word after the report of processor `p`: it owes none, and nothing else changed.
    pub fn reported(self, p: u64) -> BoardWord
        requires { p < MOST_PROCESSORS }
        ensures number { result.seq ≡ self.seq }
        ensures cleared { ¬ Owes result p }
        ensures others { (q : ℕ) → q < MOST_PROCESSORS → q ≢ p → Owes result q ↔ Owes self q }
    {
        BoardWord {
            bits: self.bits & all_but(p),
        }
    }
}

/// The mask of the first `n` processors, as a start sets it.
pub fn all_processors(n: u64) -> u32
    requires { n ≤ MOST_PROCESSORS }
    ensures value { result ≡ all_of n }
    ensures all { (p : ℕ) → p < n → owes_of result p ≡ 1 }
{
    ((1u64 << n) - 1) as u32
}

/// The first `n` bits of a word.
pub fn first_bits(n: u64) -> u64
    requires { 0 < n × n ≤ 64 }
    ensures { result ≡ all_of n }
{
    u64::MAX >> (64 - n)
}

/// What a word is joined with, bit by bit, so that bit `p` is cleared: every bit but `p`.
pub fn all_but(p: u64) -> u64
    requires { p < 64 }
    ensures { result ≡ all_but_of p }
{
    !(1u64 << p)
}

/// The laws of the word, for whoever works on its 64 bits by atomic operations: `packed` gives back the number and
/// the mask that it took; a report clears bit `p`, no other bit, and not the number; where a grace period starts each
/// of the first `n` processors owes a report, and where it ends none does.
pub fn word_laws()
    ensures number { (s m : ℕ) → m < 4294967296 → number_of (packed s m) ≡ s }
    ensures mask { (s m : ℕ) → m < 4294967296 → mask_of (packed s m) ≡ m }
    ensures cleared { (word p : ℕ) → p < MOST_PROCESSORS
        → owes_of (bit_and word (all_but_of p)) p ≡ 0 }
    ensures others { (word p q : ℕ) → p < MOST_PROCESSORS → q < MOST_PROCESSORS → q ≢ p
        → owes_of (bit_and word (all_but_of p)) q ≡ owes_of word q }
    ensures kept { (word p : ℕ) → p < MOST_PROCESSORS → word < 18446744073709551616
        → number_of (bit_and word (all_but_of p)) ≡ number_of word }
    ensures begun { (s n p : ℕ) → p < n → n ≤ MOST_PROCESSORS
        → owes_of (packed s (all_of n)) p ≡ 1 }
    ensures over { (s p : ℕ) → p < MOST_PROCESSORS → owes_of (packed s 0) p ≡ 0 }
{}
