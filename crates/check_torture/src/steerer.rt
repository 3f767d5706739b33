//! What control's thread does: random switches, barriers with tickets, and the end of a run.

ghost use Rattle.std.specs.Prelude.{◌≡◌, IfSome, true, false};
ghost use Rattle.rcu_part_control.specs.Parts.{control_board};
ghost use Rattle.check_torture.specs.Kept.{Steers, SteersOn};
ghost use Rattle.check_torture.specs.Sums.{sum_up};

use crate::chance::Chance;
use crate::counters::Counters;
use crate::flaw::Flaw;
use crate::plan::Ending;
use crate::shared::Shared;
use rcu_jobs::Counts;
use rcu_parts::{Barrier, Control};
use std::alloc::Global;
use std::rt::Clock;
use std::sync::{Arc, Wait};
use std::thread;
use std::time::Duration;

/// How long control sleeps between two acts, in microseconds, at most.
const NAP: u64 = 300;

/// How often a barrier is polled before it is dropped, at most.
const POLLS: u64 = 100;

/// Of how many acts one is a barrier.
const BARRIERS: u64 = 8;

/// Control, with what its thread keeps beside it.
#[derive(Drop)]
pub(crate) struct Steerer {
    pub(crate) control: Control,
    pub(crate) processors: u64,
    pub(crate) shared: Arc<Shared>,
    pub(crate) chance: Chance,
    pub(crate) counters: Counters,
    /// The counts of each barrier that passed.
    pub(crate) passes: Vec<Vec<u64>>,
}

/// How a run ended.
#[derive(Clone, Copy)]
pub(crate) struct Farewell {
    /// What a shut counted, where there was one.
    pub(crate) shut: Option<Counts>,
    /// Whether a barrier with all tickets has passed.
    pub(crate) drained: bool,
}

/// Sleeps for a short time.
fn nap(chance: &mut Chance, clock: &impl Clock) {
    thread::sleep(clock, Duration::from_micros(chance.below(NAP)));
}

/// Keeps the counts of a barrier that passed; but not where there is no memory for them.
fn keep_counts(passes: &mut Vec<Vec<u64>>, counts: &Counts) {
    if let Ok(counts) = counts.of_processors().to_vec(*passes.allocator()) {
        let _ = passes.push(counts);
    }
}

impl Steerer {
    /// Asks for a switch of some processor, which isn't done where that isn't offloadable.
    fn switch(&mut self)
        ensures { SteersOn self.old self.new }
    {
        let p = self.chance.below(self.processors.max(1));
        let asked = if self.chance.once_in(2) {
            self.control.offload(p)
        } else {
            self.control.deoffload(p)
        };
        self.counters.switches = self
            .counters
            .switches
            .saturating_add(u64::from(asked.is_ok()));
    }

    /// Polls a barrier some times. Where it passes, what it counted has to have run.
    fn poll(&mut self, clock: &impl Clock, barrier: Barrier)
        requires open { (control_board self.old.control).processors ≡ barrier.counts.n }
        ensures { SteersOn self.old self.new }
    {
        let mut barrier = barrier;
        for _ in 0..self.chance.below(POLLS) {
            if let Some(passed) = barrier.poll(&mut self.control) {
                self.shared.check_passed(&passed.counts);
                keep_counts(&mut self.passes, &passed.counts);
                self.counters.passed = self.counters.passed.saturating_add(1);
                return;
            }
            nap(&mut self.chance, clock);
        }
    }

    /// Opens a barrier with the last ticket of each processor. None for want of memory, or where it is refused, which is a
    /// flaw.
    fn open_barrier(&mut self, alloc: Global) -> Option<Barrier>
        ensures steers { SteersOn self.old self.new }
        ensures open { IfSome result (λ b.
            (control_board self.new.control).processors ≡ b.counts.n) }
    {
        let tickets = self.shared.tickets(alloc).ok()?;
        let Ok(barrier) = self.control.barrier(tickets.as_slice()) else {
            self.shared.flaws.note(Flaw::Uncounted);
            return None;
        };
        self.counters.barriers = self.counters.barriers.saturating_add(1);
        let many = tickets.len() as u64;
        self.counters.tickets = self.counters.tickets.saturating_add(many);
        Some(barrier)
    }

    /// A barrier of control's own, and then one that a processor opened.
    fn pass_barriers(&mut self, clock: &impl Clock, alloc: Global)
        ensures { SteersOn self.old self.new }
    {
        let Some(own) = self.open_barrier(alloc) else {
            return;
        };
        self.poll(clock, own);
        let Some(handed) = self.shared.handed() else {
            return;
        };
        if handed.counts.n == own.counts.n {
            self.poll(clock, handed);
        }
    }

    /// Random acts until all processors have accepted their shares.
    fn steer<R: Wait + Clock>(&mut self, rt: &R, alloc: Global)
        ensures { SteersOn self.old self.new }
    {
        for _ in rt.forever() {
            if self.shared.have_arrived() {
                return;
            }
            if self.chance.once_in(BARRIERS) {
                self.pass_barriers(rt, alloc);
            } else {
                self.switch();
            }
            nap(&mut self.chance, rt);
        }
    }

    /// Waits until a barrier with all tickets has passed. Answers whether there was one.
    fn drain<R: Wait + Clock>(&mut self, rt: &R, alloc: Global) -> bool
        ensures steers { Steers self.old self.new }
        ensures told { result ≡ true
            → self.new.counters.drained ≡ sum_up self.old.counters.drained 1 }
        ensures stays { result ≡ false
            → self.new.counters.drained ≡ self.old.counters.drained }
        ensures many { self.new.processors ≡ self.old.processors }
    {
        let Some(barrier) = self.open_barrier(alloc) else {
            return false;
        };
        let passed = barrier.wait(rt, &mut self.control);
        self.shared.check_passed(&passed.counts);
        keep_counts(&mut self.passes, &passed.counts);
        self.counters.passed = self.counters.passed.saturating_add(1);
        self.counters.drained = self.counters.drained.saturating_add(1);
        true
    }

    /// Ends a run, up to the halt.
    fn end<R: Wait + Clock>(&mut self, rt: &R, alloc: Global, ending: Ending) -> Farewell
        ensures { Steers self.old self.new }
    {
        let drained = match ending {
            Ending::DrainThenShut | Ending::Drain => self.drain(rt, alloc),
            Ending::Shut | Ending::Halt => false,
        };
        let shut = match ending {
            Ending::DrainThenShut | Ending::Shut => Some(self.control.shut()),
            Ending::Drain | Ending::Halt => None,
        };
        Farewell { shut, drained }
    }

    /// Leads a run from its beginning up to the halt; but not where a part has no thread, for which it would wait in vain.
    pub(crate) fn lead<R: Wait + Clock>(
        &mut self,
        rt: &R,
        alloc: Global,
        ending: Ending,
        are_running: bool,
    ) -> Farewell
        ensures { Steers self.old self.new }
    {
        if !are_running {
            return Farewell {
                shut: None,
                drained: false,
            };
        }
        self.steer(rt, alloc);
        self.end(rt, alloc, ending)
    }
}
