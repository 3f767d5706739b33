//! The events of the core, and what comes of one (docs/specification/tables.md, "Events of the core").

use rcu_world_law::who::{Side, Who};

/// One atomic step. Processors, groups and barriers are named by their numbers.
#[derive(Drop)]
pub enum Event<J> {
    Accept { cpu: u64, job: J },
    Stamp { cpu: u64, moment: u64, lazy: bool },
    Put { cpu: u64, moment: Option<u64> },
    Report { cpu: u64 },
    Start,
    End,
    Look { cpu: u64 },
    LookGroup { group: u64 },
    LookHand { cpu: u64 },
    Need { who: Who },
    Draw { cpu: u64 },
    Join { cpu: u64 },
    Give { cpu: u64 },
    Fetch { cpu: u64 },
    Claim { cpu: u64, by: Side },
    Finish { cpu: u64, by: Side },
    Ask { cpu: u64, on: bool },
    Heed { cpu: u64 },
    Settle { cpu: u64 },
    Open { barrier: u64 },
    Count { barrier: u64, cpu: u64 },
    Turn { barrier: u64, cpu: u64 },
    Pass { barrier: u64 },
    Shut { cpu: u64 },
    Urge,
    Hear { cpu: u64 },
    Leave { cpu: u64 },
    Return { cpu: u64 },
    Meet { cpu: u64 },
}

/// What came of an event.
#[derive(Drop)]
pub enum Answer<J> {
    Done,
    /// Done, and the list that the callback went to is to be put.
    Due,
    /// It isn't enabled. Its job comes back.
    Skipped(Option<J>),
    /// No room was found. Its job comes back.
    Memory(Option<J>),
}
