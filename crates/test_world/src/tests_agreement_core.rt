//! What the core leaves agrees with what its `close` answers; and an answer that was tampered with is refused.

use crate::rounds::{Numbered, PROCESSORS, after_rounds, key_of};
use crate::steps::expect;
use rcu_agreement_checker::{Account, accounts_of, agrees, witness};
use rcu_jobs::Closed;
use rcu_world_checker::{Kind, is_closed, many_of};
use rcu_world_law::marks::Mark;
use std::alloc::{AllocError, Global};
use std::process::Abort;

// How many rounds a run has.
const ROUNDS: u64 = 6;

// The keys that each processor accepted: one in each round and two more, but that processor 0 was shut before the last.
fn accepted_keys(alloc: Global) -> Result<Vec<Vec<u64>>, AllocError> {
    let mut keys = Vec::new(alloc);
    for cpu in 0..PROCESSORS {
        let rounds = if cpu == 0 {
            0..ROUNDS + 1
        } else {
            0..ROUNDS + 2
        };
        keys.push(rounds.map(|round| key_of(round, cpu)).collect(alloc)?)?;
    }
    Ok(keys)
}

// What each barrier counted: what each processor had accepted where it opened.
fn barrier_counts(alloc: Global, history: &[Mark]) -> Result<Vec<Vec<u64>>, AllocError> {
    let mut counts = Vec::new(alloc);
    for place in 0..history.len() {
        if let Mark::Opened(_) = history[place] {
            let before = &history[..place];
            let accepted = (0..PROCESSORS).map(|p| many_of(Kind::Accepted, p, before) as u64);
            counts.push(accepted.collect(alloc)?)?;
        }
    }
    Ok(counts)
}

// What a run of the core left: its own history, the accounts of its answer, and the counts of its barriers.
#[derive(Drop)]
struct Remains {
    history: Vec<Mark>,
    accounts: Vec<Account>,
    counts: Vec<Vec<u64>>,
}

// What is left, by the core's history and its answer.
fn remains_of(
    alloc: Global,
    history: Vec<Mark>,
    closed: &Closed<Numbered>,
) -> Result<Remains, AllocError> {
    let keys = accepted_keys(alloc)?;
    let accounts = accounts_of(alloc, keys.as_slice(), closed)?;
    let counts = barrier_counts(alloc, history.as_slice())?;
    Ok(Remains {
        history,
        accounts,
        counts,
    })
}

// What so many rounds leave.
fn run_rounds(rt: &impl Abort, alloc: Global) -> Remains {
    let (world, _events) = after_rounds(rt, alloc, ROUNDS);
    let Ok((history, closed)) = world.close() else {
        panic!(rt; "no room");
    };
    remains_of(alloc, history, &closed).expect(rt, "memory")
}

// By whom an answer is refused.
#[derive(Clone, Copy, Debug, PartialEq, Eq)]
struct Refused {
    // The core's own history doesn't agree with it.
    own: bool,
    // The witness made of it doesn't agree with it,
    witness: bool,
    // or isn't closed.
    closed: bool,
}

impl Remains {
    // By whom the answer is refused.
    fn refused(&self, alloc: Global) -> Result<Refused, AllocError> {
        let accounts = self.accounts.as_slice();
        let counts = self.counts.as_slice();
        let made = witness(alloc, accounts, counts)?;
        Ok(Refused {
            own: !agrees(accounts, counts, self.history.as_slice()),
            witness: !agrees(accounts, counts, made.as_slice()),
            closed: !is_closed(PROCESSORS, made.as_slice()),
        })
    }

    // The answer is refused by these.
    fn expect(&self, rt: &impl Abort, alloc: Global, wanted: Refused) {
        let refused = self.refused(alloc).expect(rt, "memory");
        expect(rt, "refused", refused, wanted);
    }

    // The account of processor 1.
    fn account(&mut self, rt: &impl Abort) -> &mut Account {
        self.accounts.get_mut(1).expect(rt, "an account")
    }

    // Two of its records change places.
    fn swap_records(&mut self, rt: &impl Abort) {
        let ran = &mut self.account(rt).ran;
        assert!(rt; ran.len() > 2);
        ran.swap(1, 2);
    }

    // A record comes before the report that it waits for.
    fn ready_at_once(&mut self, rt: &impl Abort) {
        let own = self.account(rt);
        let stamp = own.stamps.first().copied().expect(rt, "a stamp");
        *own.readies.first_mut().expect(rt, "a record") = stamp;
    }

    // The last barrier counts all that was accepted.
    fn count_all(&mut self, rt: &impl Abort) {
        let accepted = self.account(rt).keys.len() as u64;
        let counts = self.counts.last_mut().expect(rt, "a barrier");
        *counts.get_mut(1).expect(rt, "a count") = accepted;
    }
}

#[test]
fn the_core_agrees(rt: HostRuntime) {
    let left = run_rounds(&rt, rt.alloc());
    expect(&rt, "barriers", left.counts.len(), ROUNDS as usize);
    let wanted = Refused {
        own: false,
        witness: false,
        closed: false,
    };
    left.expect(&rt, rt.alloc(), wanted);
}

#[test]
fn two_records_swapped(rt: HostRuntime) {
    let mut left = run_rounds(&rt, rt.alloc());
    left.swap_records(&rt);
    let wanted = Refused {
        own: true,
        witness: false,
        closed: true,
    };
    left.expect(&rt, rt.alloc(), wanted);
}

#[test]
fn a_job_dropped(rt: HostRuntime) {
    let mut left = run_rounds(&rt, rt.alloc());
    let dropped = left.account(&rt).back.pop();
    expect(&rt, "dropped", dropped.is_some(), true);
    let wanted = Refused {
        own: true,
        witness: false,
        closed: true,
    };
    left.expect(&rt, rt.alloc(), wanted);
}

#[test]
fn a_record_before_its_report(rt: HostRuntime) {
    let mut left = run_rounds(&rt, rt.alloc());
    left.ready_at_once(&rt);
    // (the core's own history still agrees: a smaller sight says less)
    let wanted = Refused {
        own: false,
        witness: false,
        closed: true,
    };
    left.expect(&rt, rt.alloc(), wanted);
}

// A history in which the first mark of this kind stands one place earlier.
fn one_earlier(history: &mut [Mark], wanted: Mark) -> bool {
    for place in 1..history.len() {
        if history[place] == wanted {
            history.swap(place - 1, place);
            return true;
        }
    }
    false
}

#[test]
fn a_barrier_that_passed_early(rt: HostRuntime) {
    let mut left = run_rounds(&rt, rt.alloc());
    let found = one_earlier(left.history.as_mut_slice(), Mark::Passed(0));
    let closed = is_closed(PROCESSORS, left.history.as_slice());
    expect(&rt, "found, closed", (found, closed), (true, false));
    let wanted = Refused {
        own: true,
        witness: false,
        closed: false,
    };
    left.expect(&rt, rt.alloc(), wanted);
}

#[test]
fn a_barrier_that_passed_over_a_job(rt: HostRuntime) {
    let mut left = run_rounds(&rt, rt.alloc());
    left.count_all(&rt);
    // (the witness lets it open before the job was accepted, whose stamp nobody knows)
    let wanted = Refused {
        own: true,
        witness: true,
        closed: false,
    };
    left.expect(&rt, rt.alloc(), wanted);
}
