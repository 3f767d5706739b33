//! What a begin comes to, taken apart, and whether a barrier passes.

use crate::opening::Work;
use rcu_jobs::Stop;
use rcu_parts::{Barrier, Begins, Control, Hand, Processor, RunningHand, RunningProcessor};

/// What a begin of a processor comes to.
pub type ProcessorBegins = Begins<RunningProcessor<Work>, Work, Processor<Work>>;

/// What a begin of a hand comes to.
pub type HandBegins = Begins<RunningHand<Work>, Work, Hand<Work>>;

/// The claim that a processor's begin won, and the job. None where it won none.
pub fn running(begun: ProcessorBegins) -> Option<(RunningProcessor<Work>, Work)> {
    match begun {
        Begins::Runs(running, job) => Some((running, job)),
        Begins::Stops(_, _) => None,
    }
}

/// The processor whose begin won no claim, and why. None where it won one.
pub fn stopped(begun: ProcessorBegins) -> Option<(Processor<Work>, Stop)> {
    match begun {
        Begins::Runs(_, _) => None,
        Begins::Stops(processor, stop) => Some((processor, stop)),
    }
}

/// The claim that a hand's begin won, and the job. None where it won none.
pub fn hand_running(begun: HandBegins) -> Option<(RunningHand<Work>, Work)> {
    match begun {
        Begins::Runs(running, job) => Some((running, job)),
        Begins::Stops(_, _) => None,
    }
}

/// The hand whose begin won no claim, and why. None where it won one.
pub fn hand_stopped(begun: HandBegins) -> Option<(Hand<Work>, Stop)> {
    match begun {
        Begins::Runs(_, _) => None,
        Begins::Stops(hand, stop) => Some((hand, stop)),
    }
}

/// Whether a barrier passes, by control. False where it counts other processors than there are.
pub fn passes(barrier: &mut Barrier, control: &mut Control) -> bool {
    if barrier.counts.n != control.processors() {
        return false;
    }
    barrier.poll(control).is_some()
}
