//! Which growth was refused, and what did not stand after it.

ghost use Rattle.std.specs.Prelude.{◌≡◌, ◌↔◌, IsOk, IsTrue, IfErr, IfOk, None, Some};

use std::alloc::{AllocError, AllocFailed};
use std::fmt;
use thiserror::Error;

/// A growth of the table "After want of memory" (docs/specification/surface.md), by the call that wanted it.
#[derive(Clone, Copy, PartialEq, Eq)]
pub enum Growth {
    OpenBoard,
    Lane,
    LanePut,
    Reserve,
    TakeBatch,
    Pour,
    BypassReserve,
    Open,
    WorldNew,
    CallRcu,
    CallRcuLazy,
    /// The put of a batch that a call released. The call is Ok.
    CallPut,
    TickPut,
    TickPour,
    TickRecord,
    /// A drawn batch that could not be joined.
    GroupJoin,
    /// A batch of done callbacks.
    GroupBatch,
    GroupPut,
    HandRecord,
    Quiescent,
    DriverTurn,
    Barrier,
    Poll,
    Shut,
    Close,
    WorldRun,
    WorldClose,
    ReadSetup,
    ScriptLine,
    Line,
    Totals,
}

impl Growth {
    /// The call's name, and of a call that grows in more than one place, at which.
    fn name(self) -> &'static str {
        match self {
            Growth::OpenBoard => "open_board",
            Growth::Lane => "lane",
            Growth::LanePut => "put",
            Growth::Reserve => "Segments::reserve",
            Growth::TakeBatch => "take_batch",
            Growth::Pour => "pour",
            Growth::BypassReserve => "Bypass::reserve",
            Growth::Open => "open",
            Growth::WorldNew => "World::new",
            Growth::CallRcu => "call_rcu",
            Growth::CallRcuLazy => "call_rcu_lazy",
            Growth::CallPut => "the put of call_rcu",
            Growth::TickPut => "the put of tick",
            Growth::TickPour => "the pour of tick",
            Growth::TickRecord => "a record of tick",
            Growth::GroupJoin => "the join of Group::turn",
            Growth::GroupBatch => "the batch of Group::turn",
            Growth::GroupPut => "the put of Group::turn",
            Growth::HandRecord => "a record of Hand::turn",
            Growth::Quiescent => "quiescent",
            Growth::DriverTurn => "driver_turn",
            Growth::Barrier => "barrier",
            Growth::Poll => "poll",
            Growth::Shut => "shut",
            Growth::Close => "close",
            Growth::WorldRun => "World::run",
            Growth::WorldClose => "World::close",
            Growth::ReadSetup => "read_setup",
            Growth::ScriptLine => "script_line",
            Growth::Line => "line",
            Growth::Totals => "totals",
        }
    }
}

impl fmt::Display for Growth {
    fn fmt<W: fmt::Write>(&self, f: &mut fmt::Formatter<W>) -> fmt::Result {
        f.write_str(self.name())
    }
}

impl fmt::Debug for Growth {
    fn fmt<W: fmt::Write>(&self, f: &mut fmt::Formatter<W>) -> fmt::Result {
        f.write_str(self.name())
    }
}

/// What the specification says of a call did not stand.
#[derive(Clone, Copy, Debug, Error)]
#[error("{at}: {what}")]
pub struct Broken {
    /// The growth after which it did not.
    pub at: Growth,
    /// What did not.
    pub what: &'static str,
}

/// Why a scenario ended early.
#[derive(Clone, Copy, Debug, Error)]
pub enum Fault {
    /// What the specification says of a call did not stand.
    #[error(transparent)]
    Broken(#[from] Broken),
    /// A list of the scenario's own could not grow.
    #[error("a list of the scenario")]
    Own,
}

impl From<AllocError> for Fault {
    fn from(_error: AllocError) -> Fault {
        Fault::Own
    }
}

impl<T: Drop> From<AllocFailed<T>> for Fault {
    fn from(_error: AllocFailed<T>) -> Fault {
        Fault::Own
    }
}

/// Ok where `holds`, which is what stands after a call.
pub fn stands(holds: bool, at: Growth, what: &'static str) -> Result<(), Broken>
    ensures ok { IsOk result ↔ IsTrue holds }
    ensures named { IfErr result (λ broken. broken.at ≡ at) }
{
    if holds {
        Ok(())
    } else {
        Err(Broken { at, what })
    }
}

/// A growth was refused where one had been refused before.
pub fn refused_again(at: Growth) -> Broken
    ensures named { result.at ≡ at }
{
    Broken {
        at,
        what: "refused again",
    }
}

/// Which growth was refused in a run. One is, at most.
#[derive(Clone, Copy)]
pub struct Refusals {
    first: Option<Growth>,
}

impl Refusals {
    pub fn new() -> Refusals
        ensures { result.first ≡ None }
    {
        Refusals { first: None }
    }

    /// The growth that was refused, if one was.
    pub fn first(self) -> Option<Growth>
        ensures { result ≡ self.first }
    {
        self.first
    }

    /// Notes a refusal. Whoever refuses one allocation never sees two.
    pub fn note(&mut self, growth: Growth) -> Result<(), Broken>
        ensures once { IfOk result (λ _. self.old.first ≡ None) }
        ensures noted { IfOk result (λ _. self.new.first ≡ Some growth) }
        ensures first { self.old.first ≡ None → IsOk result }
        ensures stays { IfErr result (λ _. self.new ≡ self.old) }
        ensures named { IfErr result (λ broken. broken.at ≡ growth) }
    {
        stands(
            self.first.is_none(),
            growth,
            "refused where there is memory",
        )?;
        self.first = Some(growth);
        Ok(())
    }

    /// Notes a refusal, after which all has to be the same.
    pub fn note_same(
        &mut self,
        growth: Growth,
        same: bool,
        what: &'static str,
    ) -> Result<(), Broken>
        ensures once { IfOk result (λ _. self.old.first ≡ None) }
        ensures same { IfOk result (λ _. IsTrue same) }
        ensures noted { IfOk result (λ _. self.new.first ≡ Some growth) }
        ensures named { IfErr result (λ broken. broken.at ≡ growth) }
    {
        self.note(growth)?;
        stands(same, growth, what)
    }
}
