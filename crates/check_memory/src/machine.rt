//! The runtime that a scenario drives: the parts or the core. It has a local processor and an offloadable one.

ghost use Rattle.std.specs.Prelude.{◌≡◌, ◌↔◌, IfOk, IfSome, IsSome, IsTrue, vec_len};
ghost use Rattle.check_memory.specs.Ends.{AreFirst, AreNext, EndsWhole, IsWhole, accepted_in};
ghost use Rattle.check_memory.specs.Shows.{bypass_in, done_in, length_in, lengths_in, lists_of, mode_in, number_of};

use crate::growth::{Broken, Growth, stands};
use crate::script::Action;
use crate::work::{Work, key_at};
use rcu_jobs::{Closed, Counts, GroupTurn, Lists, Mode, Record, Stop, Ticket};
use rcu_numbers::Shape;

/// One of the two processors.
#[derive(Clone, Copy)]
pub enum Cpu {
    Local,
    Offloadable,
}

impl Cpu {
    pub fn number(self) -> u64
        ensures { result ≡ number_of self }
    {
        match self {
            Cpu::Local => 0,
            Cpu::Offloadable => 1,
        }
    }

    pub fn place(self) -> usize
        ensures { result ≡ number_of self }
    {
        self.number() as usize
    }
}

/// The shape of two processors, of which the second is offloadable and a group of its own. A turn runs or gives one
/// callback more than stand in a batch without memory.
pub fn shape() -> Option<Shape>
    ensures some { IsSome result }
    ensures two { IfSome result (λ s. (s.processors ≡ 2) × (s.offloadable ≡ 2)) }
    ensures turn { IfSome result (λ s. s.blimit ≡ 17) }
{
    Shape::new(2, 0b10, 1, 17, 1000, 1000)
}

/// What a runtime shows of its lists.
#[derive(Clone, Copy, PartialEq, Eq)]
pub struct Shown {
    pub local: Lists,
    pub offloadable: Lists,
    pub member: Lists,
}

impl Shown {
    pub fn of(&self, cpu: Cpu) -> Lists
        ensures { result ≡ lists_of self.now cpu }
    {
        match cpu {
            Cpu::Local => self.local,
            Cpu::Offloadable => self.offloadable,
        }
    }
}

/// How many callbacks a processor accepted.
pub fn accepted(lists: Lists) -> u64
    ensures { result ≡ accepted_in lists }
{
    match lists {
        Lists::Cpu { accepted, .. } => accepted,
        Lists::Folk { .. } => 0,
    }
}

/// How many callbacks stand in a bypass list.
pub fn bypass(lists: Lists) -> u64
    ensures { result ≡ bypass_in lists }
{
    match lists {
        Lists::Cpu { bypass, .. } => bypass,
        Lists::Folk { .. } => 0,
    }
}

pub fn mode(lists: Lists) -> Mode
    ensures { result ≡ mode_in lists }
{
    match lists {
        Lists::Cpu { mode, .. } => mode,
        Lists::Folk { .. } => Mode::Offloaded,
    }
}

fn lengths(lists: Lists) -> [u64; 4]
    ensures { result ≡ lengths_in lists }
{
    match lists {
        Lists::Cpu { lengths, .. } | Lists::Folk { lengths, .. } => lengths,
    }
}

/// How many callbacks are done in a list.
pub fn done(lists: Lists) -> u64
    ensures { result ≡ done_in lists }
{
    let [done, _, _, _] = lengths(lists);
    done
}

/// How many callbacks stand in a list's segments.
pub fn length(lists: Lists) -> u64
    ensures { result ≡ length_in lists }
{
    let [done, wait, ready, next] = lengths(lists);
    done.wrapping_add(wait)
        .wrapping_add(ready)
        .wrapping_add(next)
}

/// What a call answered.
#[derive(Clone, Copy)]
pub enum Answer {
    Accepted(Ticket),
    /// Want of memory, with the key of the job that came back.
    Refused(u64),
    /// A tick, or the turn of a hand.
    Ran { ran: u64, stop: Stop },
    Turned(GroupTurn),
    Shut(Counts),
    /// Whether a barrier passed at once.
    Polled(bool),
    /// Whether a report counted.
    Reported(bool),
    Done,
    /// Want of memory, of this growth.
    Memory(Growth),
    /// An answer that no call of the script has.
    Other,
}

/// A runtime that makes the actions of a script, one call each.
pub trait Machine {
    // What holds of the runtime between two calls.
    ghost holds: { Self → Type 0 };

    /// Makes a call. A job that is handed in has this key.
    fn make(&mut self, action: Action, moment: u64, key: u64) -> Answer
        requires { holds self.old }
        ensures { holds self.new };

    fn shown(&self) -> Option<Shown>;
}

/// Whether the records are those of the first callbacks, in order.
fn are_first(cpu: u64, ran: &[Record<u64>]) -> bool
    ensures { IsTrue result ↔ AreFirst cpu ran.now }
{
    ran.iter().enumerate().all(|(place, record)| {
        let key = key_at(cpu, place as u64);
        record.number == place as u64 && record.key == key && record.receipt == key
    })
}

/// Whether the jobs are those of the callbacks from `first` on, in order.
fn are_next(cpu: u64, first: u64, back: &[Work]) -> bool
    ensures { IsTrue result ↔ AreNext cpu first back.now }
{
    back.iter().enumerate().all(|(place, job)| job.key
        == key_at(cpu, first.wrapping_add(place as u64)))
}

/// Whether so many callbacks of a processor ran or were handed back, once and in their places.
fn are_whole(cpu: u64, many: u64, ran: &[Record<u64>], back: &[Work]) -> bool
    ensures { IsTrue result → IsWhole cpu many ran.now back.now }
{
    let count = ran.len() as u64;
    count <= many
        && many - count == back.len() as u64
        && are_first(cpu, ran)
        && are_next(cpu, count, back)
}

/// Whether each callback that a processor accepted was run or handed back, once and in its place.
fn is_whole(closed: &Closed<Work>, cpu: u64, many: u64) -> bool
    ensures { IsTrue result → EndsWhole cpu many closed.now }
{
    let (Some(ran), Some(back)) = (closed.ran.get(cpu as usize), closed.back.get(cpu as usize))
    else {
        return false;
    };
    are_whole(cpu, many, ran.as_slice(), back.as_slice())
}

/// What a close gives is whole, by what the runtime showed before it.
pub fn check_closed(growth: Growth, closed: &Closed<Work>, shown: &Shown) -> Result<(), Broken>
    ensures local { IfOk result (λ _. EndsWhole 0 (accepted_in shown.now.local) closed.now) }
    ensures offloadable { IfOk result (λ _.
        EndsWhole 1 (accepted_in shown.now.offloadable) closed.now) }
    ensures reports { IfOk result (λ _. vec_len closed.now.reports ≡ 2) }
{
    let whole = is_whole(closed, 0, accepted(shown.local))
        && is_whole(closed, 1, accepted(shown.offloadable));
    stands(whole, growth, "a callback is lost, or in a wrong place")?;
    stands(
        closed.reports.len() == 2,
        growth,
        "the reports of a processor are missing",
    )
}
