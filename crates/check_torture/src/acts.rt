//! What a processor's thread does: random calls, read sections, reports, ticks and barriers.

ghost use Rattle.std.specs.Prelude.{IfErr, IfOk, IfSome, IsTrue, None, Some, ◌≡◌, ◌+◌, ◌<◌, ◌↔◌, [], length};
ghost use Rattle.check_torture.specs.Acts.{ActsBeside, CallsAs, CallsOnce, CountsBarrier, CountsCall, ReportsOnce};
ghost use Rattle.check_torture.specs.Kept.{Accepts, GoesOn, Keeps};
ghost use Rattle.check_torture.specs.Left.{IsCount};
ghost use Rattle.check_torture.specs.Sums.{one_current, one_freed, one_removed};
ghost use Rattle.check_torture.specs.declared.versions.Age.TheVariants.{Current, Freed, Removed};

use crate::chance::Chance;
use crate::counters::Counters;
use crate::flaw::{Flaw, Flaws};
use crate::retire::Retire;
use crate::shared::{Shared, rest};
use crate::versions::{Age, SLOTS, Versions};
use rcu_jobs::{Refused, Ticket};
use rcu_lists::Kind;
use rcu_parts::{Barrier, Processor, Reading};
use std::alloc::Global;
use std::sync::Arc;

/// Of how many calls one is lazy.
const LAZY: u64 = 4;

/// Of how many callbacks one yields while it runs, and of how many sections one is long.
const LONG: u64 = 64;

/// How often those yield, at most.
const LONGEST: u64 = 100;

/// How often a short section yields, at most.
const SHORTEST: u64 = 3;

/// How many other things are done before a call, at most.
const OTHERS: u64 = 4;

/// Of how many calls one begins a burst, in which nothing is done but calls; and how many calls that has, at most.
const BURSTS: u64 = 2_000;

const BURST: u64 = 500;

/// Of how many other things one is a barrier.
const BARRIERS: u64 = 4_000;

/// By how much the moment rises from one thing to the next, at most.
const PACE: u64 = 3;

/// How a call ended.
#[derive(Clone, Copy, PartialEq, Eq)]
pub(crate) enum Called {
    /// It was accepted.
    Accepted,
    /// It was refused for want of memory or at the limit, or no version was left to retire.
    Refused,
    /// It was refused since the processor is shut.
    Shut,
}

/// A processor, with what its thread keeps beside it.
#[derive(Drop)]
pub(crate) struct Actor {
    pub(crate) processor: Processor<Retire>,
    /// The processor's number.
    pub(crate) cpu: u64,
    pub(crate) shared: Arc<Shared>,
    pub(crate) chance: Chance,
    /// The moment of the next call or tick.
    pub(crate) moment: u64,
    /// How many calls are left of a burst.
    pub(crate) burst: u64,
    /// The keys of the jobs that were accepted, in order.
    pub(crate) keys: Vec<u64>,
    pub(crate) counters: Counters,
}

/// Takes out a version of the table, and makes the job that frees it under this ticket. None where no version is left to be
/// made, or for want of memory.
fn retire(shared: &Arc<Shared>, chance: &mut Chance, ticket: Ticket) -> Option<Retire>
    ensures { IfSome result (λ job. job.ticket ≡ ticket) }
{
    let yields = if chance.once_in(LONG) {
        chance.below(LONGEST)
    } else {
        0
    };
    let shared = Arc::try_clone(shared).ok()?;
    let version = shared.versions.replace(chance.below(SLOTS))?;
    Some(Retire {
        version,
        ticket,
        yields,
        shared,
    })
}

/// Looks at the version that a slot shows, as long as the read section lives. Answers what has become of it in the end.
fn look(_section: &Reading<Retire>, versions: &Versions, slot: u64, yields: u64) -> Option<Age> {
    let version = versions.shown(slot)?;
    rest(yields);
    versions.age(version)
}

/// A read section of this processor. Answers what has become of the version that it found when it ends.
pub(crate) fn read(
    processor: &Processor<Retire>,
    versions: &Versions,
    chance: &mut Chance,
) -> Option<Age> {
    let most = if chance.once_in(LONG) {
        LONGEST
    } else {
        SHORTEST
    };
    let section = processor.reading();
    look(&section, versions, chance.below(SLOTS), chance.below(most))
}

/// Counts a read section that saw this at its end.
pub(crate) fn saw(counters: &mut Counters, flaws: &Flaws, seen: Option<Age>)
    ensures current { seen ≡ Some Current → counters.new ≡ one_current counters.old }
    ensures removed { seen ≡ Some Removed → counters.new ≡ one_removed counters.old }
    ensures freed { seen ≡ Some Freed → counters.new ≡ one_freed counters.old }
    ensures missing { seen ≡ None → counters.new ≡ one_freed counters.old }
{
    match seen {
        Some(Age::Current) => counters.current = counters.current.saturating_add(1),
        Some(Age::Removed) => counters.removed = counters.removed.saturating_add(1),
        Some(Age::Freed) | None => {
            counters.freed = counters.freed.saturating_add(1);
            flaws.note(Flaw::FreedWhileRead);
        }
    }
}

/// The processor leaves, while its thread rests, and is back. Answers whether there was room to leave.
fn leave_and_return(processor: Processor<Retire>, yields: u64) -> (Processor<Retire>, bool)
    ensures { Keeps 0 0 processor result.0 }
{
    match processor.leave() {
        Ok(away) => {
            rest(yields);
            (away.come_back(), true)
        }
        Err(processor) => (processor, false),
    }
}

/// How many calls the burst has that begins now; 0 where none does.
fn next_burst(chance: &mut Chance) -> u64
    ensures { result < BURST }
{
    if chance.once_in(BURSTS) {
        chance.below(BURST)
    } else {
        0
    }
}

/// Whether a barrier that processor `cpu` opened counts so many callbacks of its own.
fn counts_own(barrier: &Barrier, cpu: u64, accepted: u64) -> bool
    ensures { IsTrue result ↔ IsCount cpu accepted barrier.now.counts }
{
    let own = barrier.counts.of_processors().get(cpu as usize).copied();
    own == Some(accepted)
}

/// A call of this kind.
fn call_as(
    processor: &mut Processor<Retire>,
    kind: Kind,
    moment: u64,
    job: Retire,
) -> Result<Ticket, Refused<Retire>>
    ensures kind { IfOk result (λ t. CallsAs kind moment job t processor.old processor.new) }
    ensures accepted { IfOk result (λ _. Accepts 1 processor.old processor.new) }
    ensures refused { IfErr result (λ _. Accepts 0 processor.old processor.new) }
{
    match kind {
        Kind::Plain => processor.call_rcu(moment, job),
        Kind::Lazy => processor.call_rcu_lazy(moment, job),
    }
}

impl Actor {
    /// A processor that has accepted nothing yet, with its thread's random numbers.
    pub(crate) fn new(
        alloc: Global,
        processor: Processor<Retire>,
        cpu: u64,
        shared: Arc<Shared>,
        chance: Chance,
    ) -> Actor
        ensures processor { result.processor ≡ processor }
        ensures cpu { result.cpu ≡ cpu }
        ensures keys { result.keys.items ≡ [] }
        ensures reports { result.counters.reports ≡ 0 }
    {
        Actor {
            processor,
            cpu,
            shared,
            chance,
            moment: 0,
            burst: 0,
            keys: Vec::new(alloc),
            counters: Counters::NONE,
        }
    }

    /// Counts a callback that was accepted.
    fn accepted(&mut self, ticket: Ticket, kind: Kind)
        ensures { CountsCall kind self.old self.new }
    {
        let accepted = ticket.number.saturating_add(1);
        self.shared.accept(self.cpu, accepted);
        self.counters.callbacks = self.counters.callbacks.saturating_add(1);
        self.counters.lazy = self
            .counters
            .lazy
            .saturating_add(u64::from(kind == Kind::Lazy));
    }

    /// Hands this job to the processor.
    fn call(&mut self, job: Retire) -> Called
        ensures goes_on { GoesOn self.old self.new }
        ensures accepted { result ≡ Called.Accepted
            → length self.new.keys.items ≡ length self.old.keys.items + 1 }
        ensures once { result ≡ Called.Accepted → CallsOnce job self.old self.new }
    {
        let Ok(()) = self.keys.reserve(1) else {
            return Called::Refused;
        };
        let key = job.version;
        let expected = job.ticket;
        let kind = if self.chance.once_in(LAZY) {
            Kind::Lazy
        } else {
            Kind::Plain
        };
        match call_as(&mut self.processor, kind, self.moment, job) {
            Ok(ticket) => {
                self.keys.push_reserved(key);
                self.shared.flaws.check(ticket == expected, Flaw::Ticket);
                self.accepted(ticket, kind);
                Called::Accepted
            }
            Err(Refused::Closed(_)) => Called::Shut,
            Err(_) => Called::Refused,
        }
    }

    /// An update of the table: the version that is taken out is retired by a call.
    pub(crate) fn update(&mut self) -> Called
        ensures { GoesOn self.old self.new }
    {
        let ticket = Ticket {
            cpu: self.cpu,
            number: self.processor.accepted(),
        };
        let called = match retire(&self.shared, &mut self.chance, ticket) {
            Some(job) => self.call(job),
            None => Called::Refused,
        };
        let refused = u64::from(called != Called::Accepted);
        self.counters.refused = self.counters.refused.saturating_add(refused);
        called
    }

    /// A report.
    fn report(&mut self)
        ensures { ReportsOnce self.old self.new }
    {
        let counted = self.processor.quiescent().is_some();
        self.counters.reports = self.counters.reports.saturating_add(u64::from(counted));
    }

    /// Opens a barrier, and leaves it to control to poll it.
    pub(crate) fn open_barrier(&mut self)
        ensures { CountsBarrier self.old self.new }
    {
        let barrier = self.processor.barrier();
        let counted = counts_own(&barrier, self.cpu, self.processor.accepted());
        self.shared.flaws.check(counted, Flaw::Uncounted);
        self.shared.hand(barrier);
        self.counters.barriers = self.counters.barriers.saturating_add(1);
    }

    /// The processor is away for a while, and back.
    pub(crate) fn away_for_a_while(self) -> Actor
        ensures { ActsBeside self result }
    {
        let Actor {
            processor,
            cpu,
            shared,
            mut chance,
            moment,
            burst,
            keys,
            mut counters,
        } = self;
        let (processor, left) = leave_and_return(processor, chance.below(LONGEST));
        counters.leaves = counters.leaves.saturating_add(u64::from(left));
        Actor {
            processor,
            cpu,
            shared,
            chance,
            moment,
            burst,
            keys,
            counters,
        }
    }

    /// Something other than a call.
    pub(crate) fn act(&mut self)
        ensures { ActsBeside self.old self.new }
    {
        self.moment = self.moment.saturating_add(self.chance.below(PACE));
        if self.chance.once_in(BARRIERS) {
            self.open_barrier();
            return;
        }
        match self.chance.below(3) {
            0 => {
                let seen = read(&self.processor, &self.shared.versions, &mut self.chance);
                saw(&mut self.counters, &self.shared.flaws, seen);
            }
            1 => self.report(),
            _ => {
                self.processor.tick(self.moment);
            }
        }
    }

    /// Some other things, unless this is a burst; and then an update.
    pub(crate) fn round(&mut self) -> Called
        ensures { GoesOn self.old self.new }
    {
        if self.burst > 0 {
            self.burst -= 1;
            return self.update();
        }
        self.burst = next_burst(&mut self.chance);
        for _ in 0..self.chance.below(OTHERS) {
            self.act();
        }
        self.update()
    }
}
