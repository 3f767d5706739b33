//! What turns answer, and what parts show of their lists.

use crate::modes::Mode;

/// What a part shows of a list: `lengths` are those of done, wait, next-ready and next, `numbers` those of wait and
/// next-ready, 0 while empty.
#[derive(Clone, Copy, Debug, PartialEq, Eq)]
pub enum Lists {
    /// A processor: its mode, how many callbacks it accepted, the length of its bypass list, and its own list.
    Cpu {
        mode: Mode,
        accepted: u64,
        bypass: u64,
        lengths: [u64; 4],
        numbers: [u64; 2],
    },
    /// The list that a group keeps for an offloadable processor.
    Folk {
        lengths: [u64; 4],
        numbers: [u64; 2],
    },
}

/// Why a turn ran no more callbacks: the first of these that holds before the next one.
#[derive(Clone, Copy, Debug, PartialEq, Eq)]
pub enum Stop {
    /// It ran `blimit` callbacks.
    Limit,
    /// Another step on the lane was in the way of a hand's draw.
    Again,
    /// No callback is left.
    Empty,
    /// The next callback's wait isn't over, or its claim wasn't won.
    Turn,
    /// No room for the next record was found.
    Memory,
}

/// A processor's tick: how many callbacks it ran, and why no more.
#[derive(Clone, Copy, Debug, PartialEq, Eq)]
pub struct Ticked {
    pub ran: u64,
    pub stop: Stop,
}

/// A turn of the driver, which starts and ends all grace periods.
#[derive(Clone, Copy, Debug, PartialEq, Eq)]
pub enum DriverTurn {
    /// No grace period is in progress, and none is needed.
    Idle,
    /// It started the grace period of this number.
    Started(u64),
    /// It ended a grace period; the number is this one now.
    Ended(u64),
    /// The processor of this number is the first that still owes a report.
    Waits(u64),
    /// Refusal 1: a grace period is needed that can't be numbered.
    Spent,
}

/// A turn of a group.
#[derive(Clone, Copy, Debug, PartialEq, Eq)]
pub struct GroupTurn {
    /// How many callbacks it drew from its members' lanes.
    pub took: u64,
    /// How many callbacks it put on the lanes to their hands.
    pub gave: u64,
    /// How many callbacks wait in batches that were drawn but not joined, or taken out but not put.
    pub held: u64,
}

/// A turn of a hand: how many callbacks it ran, and why no more.
#[derive(Clone, Copy, Debug, PartialEq, Eq)]
pub struct HandTurn {
    pub ran: u64,
    pub stop: Stop,
}
