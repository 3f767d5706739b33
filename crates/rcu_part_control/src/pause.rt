//! What a part does between two turns that found nothing to do.

ghost use Rattle.std.specs.Prelude.{◌≤◌};
ghost use Rattle.rcu_part_control.specs.declared.pause.TheConstants.{LONGEST_SLEEP};

use crossbeam_utils::Backoff;
use std::rt::Clock;
use std::thread;
use std::time::Duration;

/// The first sleep, and the longest one, in microseconds.
const FIRST_SLEEP: u64 = 50;

const LONGEST_SLEEP: u64 = 1000;

/// How many sleeps are as short as the first one, before they grow: some milliseconds in all, so that a part that often
/// finds work looks again soon.
const SHORT_SLEEPS: u64 = 64;

/// The pauses of a part whose turns find nothing to do: it spins, then yields its processor, then sleeps, for some
/// milliseconds 50 microseconds at a time, and in the end a millisecond. It never waits for anything: after each pause the
/// part looks again.
#[derive(Drop)]
pub struct Pauses {
    backoff: Backoff,
    sleep: u64,
    // How many sleeps are left before they grow.
    left: u64,
    ghost short: { sleep ≤ LONGEST_SLEEP },
}

impl Pauses {
    /// The shortest pause comes first.
    pub fn new() -> Pauses {
        Pauses {
            backoff: Backoff::new(),
            sleep: FIRST_SLEEP,
            left: SHORT_SLEEPS,
        }
    }

    /// Pauses, and once the short sleeps are over longer than the time before, up to a millisecond.
    pub fn pause(&mut self, clock: &impl Clock) {
        if !self.backoff.is_completed() {
            self.backoff.snooze();
            return;
        }
        thread::sleep(clock, Duration::from_micros(self.sleep));
        if self.left > 0 {
            self.left -= 1;
        } else {
            self.sleep = (2 * self.sleep).min(LONGEST_SLEEP);
        }
    }

    /// The shortest pause comes next.
    pub fn start_over(&mut self) {
        self.backoff.reset();
        self.sleep = FIRST_SLEEP;
        self.left = SHORT_SLEEPS;
    }
}
