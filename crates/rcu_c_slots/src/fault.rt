//! Why a call on a slot does nothing.

ghost use Rattle.std.specs.Prelude.{◌≡◌};
ghost use Rattle.rcu_jobs.specs.Refusals.{number_of, switch_number};
ghost use Rattle.rcu_c_slots.specs.Faults.{fault_number, refusal, switch_refusal, stop_fault};

use crate::job::ForeignJob;
use rcu_jobs::{Refused, Stop, SwitchFault};

/// Why a call did nothing. The first seven are the refusals of docs/specification/surface.md, "Refusals by number", under
/// their numbers.
#[derive(Clone, Copy, Debug, PartialEq, Eq)]
pub enum Fault {
    /// No further grace period can be numbered.
    Spent,
    /// A growth was refused.
    Memory,
    /// The processor was shut.
    Closed,
    /// The processor accepted as many callbacks as its limit allows.
    Limit,
    /// The processor isn't offloadable.
    NotOffloadable,
    /// There is no such processor.
    NoProcessor,
    /// The callback isn't accepted yet.
    Ahead,
    /// The slot is empty.
    Empty,
    /// The slot has a part of another kind.
    Other,
    /// A callback runs between `begin` and `finish`.
    Running,
    /// No callback runs.
    NotRunning,
    /// The slot has a part already.
    Full,
    /// The slot's part is of another open, or of another place.
    Foreign,
    /// A number is outside the limits.
    Shape,
    /// There are fewer slots than parts.
    Few,
    /// A read section is open.
    Reading,
    /// No callback is ready here: a processor's own list has none that is done, a hand holds none and drew none. After a close,
    /// no further record or job is left.
    NoneLeft,
    /// The first callback here isn't begun: its claim wasn't won, or, of a hand, its wait isn't over.
    Turn,
    /// A hand holds no callback and drew none, since another step on the lane was in the way.
    Again,
    /// The processor is away.
    Away,
    /// The processor isn't away.
    NotAway,
}

impl Fault {
    /// The fault's number, as `enum rcuo_answer` of `include/rcuo.h` has it.
    pub fn number(self) -> u32
        ensures { result ≡ fault_number self }
    {
        match self {
            Fault::Spent => 1,
            Fault::Memory => 2,
            Fault::Closed => 3,
            Fault::Limit => 4,
            Fault::NotOffloadable => 5,
            Fault::NoProcessor => 6,
            Fault::Ahead => 7,
            Fault::Empty => 8,
            Fault::Other => 9,
            Fault::Running => 10,
            Fault::NotRunning => 11,
            Fault::Full => 12,
            Fault::Foreign => 13,
            Fault::Shape => 14,
            Fault::Few => 15,
            Fault::Reading => 16,
            Fault::NoneLeft => 17,
            Fault::Turn => 18,
            Fault::Again => 19,
            Fault::Away => 21,
            Fault::NotAway => 22,
        }
    }
}

/// The fault of a refused job, which the caller still has.
pub fn fault_of_refusal(refused: Refused<ForeignJob>) -> Fault
    ensures { result ≡ refusal refused }
{
    match refused {
        Refused::Limit(_) => Fault::Limit,
        Refused::Memory(_) => Fault::Memory,
        Refused::Closed(_) => Fault::Closed,
    }
}

/// The fault of a refused switch.
pub fn fault_of_switch(fault: SwitchFault) -> Fault
    ensures { result ≡ switch_refusal fault }
{
    match fault {
        SwitchFault::NoProcessor(_) => Fault::NoProcessor,
        SwitchFault::NotOffloadable(_) => Fault::NotOffloadable,
    }
}

/// Why nothing was begun.
pub fn fault_of_stop(stop: Stop) -> Fault
    ensures { result ≡ stop_fault stop }
{
    match stop {
        Stop::Limit | Stop::Turn => Fault::Turn,
        Stop::Again => Fault::Again,
        Stop::Empty => Fault::NoneLeft,
        Stop::Memory => Fault::Memory,
    }
}
