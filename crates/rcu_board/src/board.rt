//! What the parts share, and what each of them steps with.

ghost use Rattle.std.specs.Prelude.{◌≡◌, ◌+◌, ◌*◌, ◌<◌, ◌≤◌, ◌^◌, ◌↔◌, IsTrue};
ghost use Rattle.rcu_numbers.specs.declared.set.TheConstants.{PARTS_PROCESSORS};
ghost use Rattle.rcu_board.specs.Memory.{id_of, many};
ghost use Rattle.rcu_board.specs.Roles.{SeatOfRole, FirstSeat};
ghost use Rattle.rcu_board.specs.declared.padding.TheConstants.{LINE_WORDS};
ghost use Rattle.rcu_board.specs.Words.{words_of};
ghost use Rattle.rcu_numbers.specs.Words.{owes_of};

use crate::padding::Words;
use crate::view::View;
use rcu_numbers::ProcessorSet;

/// What a board was made for: how many processors, and which are offloadable.
#[derive(Drop)]
pub struct Frame {
    pub processors: u64,
    pub offloadable: ProcessorSet,
}

/// The words that all parts share (docs/specification/tables.md, "Words of the board"). Each changes only by the steps
/// of this crate, and between any two steps of any threads they and the views of all seats keep the board's rule,
/// `BoardRule` in specs/Laws. To share a board among threads, put it into an `Arc`.
///
/// ```text
/// number                 the driver: start, end
/// needed                 processors and groups: need
/// halt                   control: halt
/// A_p  calls accepted    processor p: accept; control: shut_one
/// T_p  turns             processor p and its hand: claim, finish
/// S_p  asked             control: ask
/// Q_p  passed, away      processor p: report, leave, come_back; the driver, while p is away: meet
/// urges                  control, and who opens a barrier: urge; processor p its own bit: heard
/// ```
#[derive(Drop)]
pub struct Board {
    pub(crate) words: Words,
    pub(crate) processors: u64,
    pub(crate) offloadable: ProcessorSet,
    ghost sized: { (id_of words).words ≡ LINE_WORDS * words_of processors },
    ghost framed: { words.table.shared.key.processors ≡ processors },
    ghost few: { processors ≤ PARTS_PROCESSORS },
}

impl Board {
    /// How many processors there are, 1 to 1024.
    pub fn processors(&self) -> u64
        ensures same { result ≡ self.now.processors }
        ensures few { result ≤ PARTS_PROCESSORS }
    {
        self.processors
    }

    /// Whether processor `p` starts Offloaded and may be switched.
    pub fn is_offloadable(&self, p: u64) -> bool
        ensures { IsTrue result ↔ (owes_of self.now.offloadable p ≡ 1) }
    {
        self.offloadable.has(p)
    }
}

/// Whose seat it is.
#[derive(Clone, Copy, Debug, PartialEq, Eq)]
pub enum Role {
    /// Of the processor of this number.
    Processor(u64),
    /// Of the hand of the processor of this number.
    Hand(u64),
    /// Of the group of this number.
    Group(u64),
    Driver,
    Control,
}

/// What one part steps with. It has no bytes but the role's; what it knows is its view, which exists in proofs alone.
#[derive(Drop)]
pub struct Seat {
    pub(crate) seat: atomic_table::Seat<u64, View>,
    pub(crate) role: Role,
    ghost of_role: { SeatOfRole role (many seat.table_id) seat.me },
}

impl Seat {
    /// Whose seat it is.
    pub fn role(&self) -> Role
        ensures { result ≡ self.now.role }
    {
        self.role
    }
}

/// The first seat of a board, from which all others are split.
#[derive(Drop)]
pub struct Maker {
    pub(crate) seat: atomic_table::Seat<u64, View>,
    ghost first_seat: { FirstSeat (many seat.table_id) seat.me },
}

/// A seat that takes in others, and can make no more steps of any role.
#[derive(Drop)]
pub struct Gathered {
    pub(crate) seat: atomic_table::Seat<u64, View>,
    ghost live: { 0 < seat.me.0.weight },
}
