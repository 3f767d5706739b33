//! What a slot's box has: a part, and where it belongs.

ghost use Rattle.std.specs.Prelude.{◌≡◌};
ghost use Rattle.rcu_c_slots.specs.declared.part.Part.TheVariants as kind;
ghost use Rattle.rcu_c_slots.specs.Parts.{if_resting, kind_of, not_away, not_resting, not_running, wrong_kind};

use crate::fault::Fault;
use crate::job::ForeignJob;
use crate::lent::{LentHand, LentProcessor};
use rcu_jobs::Closed;
use rcu_parts::{Away, Closing, Control, Driver, Group};
use std::mem::{forget, replace};

/// An open, by its number, and how many parts of each kind it made.
#[derive(Clone, Copy, Debug, PartialEq, Eq)]
pub struct Opening {
    pub number: u64,
    pub processors: u64,
    pub groups: u64,
    pub hands: u64,
}

/// A part of any kind, for jobs of another language; or what is left of all of them.
#[derive(Drop)]
pub enum Part {
    /// A processor, whether or not a callback of it runs.
    Processor(LentProcessor),
    /// A processor that is away.
    Away(Away<ForeignJob>),
    /// A hand, whether or not a callback of it runs.
    Hand(LentHand),
    Group(Group<ForeignJob>),
    Driver(Driver),
    Control(Control),
    /// All parts, which could not be closed for want of memory.
    Closing(Closing<ForeignJob>),
    /// What is left of all parts.
    Closed(Closed<ForeignJob>),
    /// No part, in the midst of a call.
    Nothing,
}

/// The kinds of parts.
#[derive(Clone, Copy, Debug, PartialEq, Eq)]
pub enum PartKind {
    Processor,
    Hand,
    /// A processor or a hand of which a callback runs.
    Running,
    /// A processor that is away.
    Away,
    Group,
    Driver,
    Control,
    Closing,
    /// What is left of a runtime, or nothing.
    Other,
}

/// By whether a callback of a part runs, of which this is the job that was handed out.
fn if_resting<T: Copy>(job: &Option<ForeignJob>, rests: T, runs: T) -> T
    ensures { result ≡ if_resting job.now rests runs }
{
    match job {
        None => rests,
        Some(_) => runs,
    }
}

impl Part {
    /// Puts a part where none is.
    pub fn fill(&mut self, part: Part)
        requires none { self.old ≡ kind.Nothing }
        ensures { self.new ≡ part }
    {
        forget(replace(self, part));
    }

    /// Its kind.
    pub fn kind(&self) -> PartKind
        ensures { result ≡ kind_of self.now }
    {
        match self {
            Part::Processor(lent) => if_resting(&lent.job, PartKind::Processor, PartKind::Running),
            Part::Hand(lent) => if_resting(&lent.job, PartKind::Hand, PartKind::Running),
            Part::Away(_) => PartKind::Away,
            Part::Group(_) => PartKind::Group,
            Part::Driver(_) => PartKind::Driver,
            Part::Control(_) => PartKind::Control,
            Part::Closing(_) => PartKind::Closing,
            _ => PartKind::Other,
        }
    }

    /// What a call answers that isn't one of this kind of part.
    pub fn wrong_kind(&self) -> Fault
        ensures { result ≡ wrong_kind self.now }
    {
        match self {
            Part::Nothing => Fault::Empty,
            Part::Away(_) => Fault::Away,
            _ => Fault::Other,
        }
    }

    /// What a call answers that wants a part of which no callback runs, and that isn't away.
    pub fn not_resting(&self) -> Fault
        ensures { result ≡ not_resting self.now }
    {
        match self {
            Part::Nothing => Fault::Empty,
            Part::Away(_) => Fault::Away,
            Part::Processor(lent) => if_resting(&lent.job, Fault::Other, Fault::Running),
            Part::Hand(lent) => if_resting(&lent.job, Fault::Other, Fault::Running),
            _ => Fault::Other,
        }
    }

    /// What a call answers that wants a part of which a callback runs.
    pub fn not_running(&self) -> Fault
        ensures { result ≡ not_running self.now }
    {
        match self {
            Part::Nothing => Fault::Empty,
            Part::Away(_) => Fault::NotRunning,
            Part::Processor(lent) => if_resting(&lent.job, Fault::NotRunning, Fault::Other),
            Part::Hand(lent) => if_resting(&lent.job, Fault::NotRunning, Fault::Other),
            _ => Fault::Other,
        }
    }

    /// What a call answers that wants a processor that is away.
    pub fn not_away(&self) -> Fault
        ensures { result ≡ not_away self.now }
    {
        match self {
            Part::Nothing => Fault::Empty,
            Part::Processor(_) => Fault::NotAway,
            _ => Fault::Other,
        }
    }
}

/// A part with its open, and its place among the open's parts of its kind.
#[derive(Drop)]
pub struct Lent {
    pub opening: Opening,
    pub at: u64,
    pub part: Part,
}
