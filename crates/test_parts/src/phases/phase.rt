//! What the parts do in a phase, and what their calls answer.

ghost use Rattle.std.specs.Prelude.{◌≡◌, []};

use crate::phases::signal::Signal;
use rcu_jobs::{BarrierFault, Ticked, Ticket};
use std::alloc::Global;

/// A call of a processor (docs/specification/surface.md, "rcu_parts"). A moment is of the caller's clock.
#[derive(Drop)]
pub enum Act<J> {
    /// `call_rcu`. A refused job is dropped.
    Call { moment: u64, job: J },
    /// `call_rcu_lazy`.
    Lazy { moment: u64, job: J },
    /// `quiescent`.
    Report,
    /// `tick`.
    Tick { moment: u64 },
}

/// What the thread of the processors does next.
#[derive(Drop)]
pub enum Step<J> {
    /// A call of processor `cpu`.
    On { cpu: usize, act: Act<J> },
    /// Something with a flag.
    Sign(Signal),
}

/// What a call of a processor answered.
#[derive(Clone, Copy, PartialEq, Eq)]
pub enum Answer {
    /// A job was accepted.
    Accepted(Ticket),
    /// A job was refused, by this number (docs/specification/surface.md, "Refusals by number").
    Refused(u64),
    /// The grace period of which a report was counted, if it was.
    Reported(Option<u64>),
    /// A tick.
    Ticked(Ticked),
    /// There is no such processor.
    NoProcessor,
}

/// What the thread of the driver and control does next.
#[derive(Drop)]
pub enum Move {
    /// A turn of the driver.
    Drive,
    /// Control asks that this processor be local.
    Deoffload(u64),
    /// Control opens a barrier with these tickets, in place of the one that is open.
    Open(Vec<Ticket>),
    /// Control polls the barrier that is open.
    Poll,
    /// Something with a flag.
    Sign(Signal),
}

/// What control's barrier answered.
#[derive(Clone, Copy, PartialEq, Eq)]
pub enum Reply {
    /// It was opened.
    Opened,
    /// It was refused. None is open.
    Refused(BarrierFault),
    /// It was polled, and waits.
    Waits,
    /// It was polled, and has passed. It stays open.
    Passed,
    /// None was open when it was polled.
    NoBarrier,
}

/// What each thread does in a phase.
#[derive(Drop)]
pub struct Phase<J> {
    /// The processors.
    pub steps: Vec<Step<J>>,
    /// How often all groups take a turn.
    pub group_turns: u64,
    /// How often all hands take a turn.
    pub hand_turns: u64,
    /// The driver and control.
    pub moves: Vec<Move>,
}

impl<J: Drop> Phase<J> {
    /// A phase in which nothing is done.
    pub fn new(alloc: Global) -> Phase<J>
        ensures steps { result.steps.items ≡ [] }
        ensures turns { (result.group_turns ≡ 0) × (result.hand_turns ≡ 0) }
        ensures moves { result.moves.items ≡ [] }
    {
        Phase {
            steps: Vec::new(alloc),
            group_turns: 0,
            hand_turns: 0,
            moves: Vec::new(alloc),
        }
    }
}
