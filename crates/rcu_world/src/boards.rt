//! The board of the core: its word, in which the processors of the core alone owe reports.

ghost use Rattle.std.specs.Prelude.{◌≡◌, ◌+◌, ◌<◌, ◌≤◌, ◌%◌, false, true, length, replicate, slice_index_or, slice_set};
ghost use Rattle.rcu_numbers.specs.declared.shape.TheConstants.{MOST_PROCESSORS};
ghost use Rattle.rcu_world_law.specs.Lists.{none_owes};
ghost use Rattle.rcu_numbers.specs.declared.sequence.TheConstants.{GREATEST_NUMBER};

use rcu_numbers::{BoardWord, all_processors, ended};
use std::marker::Model;

/// The grace-period number, and which of the core's processors owe a report of a quiescent state
/// (docs/specification/rules.md, "Quiescent reports").
#[derive(Drop)]
pub struct Board {
    word: BoardWord,
    processors: u64,
}

impl Model for Board {
    ghost use Rattle.rcu_world.specs.Boards.{GracePeriod, IsBoardOf, bits};

    ghost Value = { GracePeriod };

    ghost view = { λ b. record { number = b.word.seq; owing = bits b.processors b.word.mask } };

    ghost invariant = { λ b. IsBoardOf b.processors b.word };
}

impl Board {
    /// The number 0, and no processor owes a report.
    pub(crate) fn new(processors: u64) -> Board
        requires { processors ≤ MOST_PROCESSORS }
        ensures { result ≡ record { number = 0; owing = replicate processors false } }
    {
        Board {
            word: BoardWord::pack(0, 0),
            processors,
        }
    }

    /// The grace-period number.
    pub(crate) fn number(&self) -> u64
        ensures { result ≡ self.now.number }
    {
        self.word.seq()
    }

    /// Whether the core has this processor and it owes a report.
    pub(crate) fn owes(&self, cpu: u64) -> bool
        ensures { result ≡ slice_index_or self.now.owing cpu false }
    {
        cpu < self.processors && self.word.owes(cpu)
    }

    /// Whether no processor owes a report.
    pub(crate) fn none_owes(&self) -> bool
        ensures { result ≡ none_owes self.now.owing }
    {
        self.word.mask() == 0
    }

    /// A processor reports a quiescent state.
    pub(crate) fn report(&mut self, cpu: u64)
        requires { cpu < length self.old.owing }
        ensures { self.new ≡ record self.old { owing = slice_set self.old.owing cpu false } }
    {
        self.word = self.word.reported(cpu);
    }

    /// A grace period starts: each processor owes a report.
    pub(crate) fn start(&mut self)
        requires { self.old.number < GREATEST_NUMBER }
        ensures { self.new
            ≡ record
            { number = self.old.number + 1; owing = replicate (length self.old.owing) true } }
    {
        self.word = BoardWord::pack(self.word.seq() + 1, all_processors(self.processors));
    }

    /// The grace period ends.
    pub(crate) fn end(&mut self)
        requires progress { self.old.number % 4 ≡ 1 }
        requires small { self.old.number ≤ GREATEST_NUMBER }
        requires reported { none_owes self.old.owing ≡ true }
        ensures { self.new ≡ record self.old { number = self.old.number + 3 } }
    {
        self.word = BoardWord::pack(ended(self.word.seq()), 0);
    }
}
