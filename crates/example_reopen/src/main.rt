//! An example: a program that makes more calls than one processor accepts in its life. When the processor accepts no more, the
//! program closes the runtime, opens the next, and first calls the jobs that came back there, in order. Each runtime runs in
//! threads. docs/embedding.md, "Limits, errors, want of memory", speaks of it.
//!
//! # What is proved
//!
//! - Runtimes one after another, in threads; each first calls the jobs that came back.
//! - Its worker never gives up.
//! - By `Caller`'s `step` under `Worker` (`ends_as`), `Number`'s `run` under `Job` (`gives`).
//! - Of each as many ran or come back as it accepted; of the last, which is drained, none comes back.
//! - By `close` (`none_lost`, `none_back`).
#![tactic(auto)]

ghost use Rattle.std.specs.Prelude.{◌≡◌, ◌≢◌, IfOk, IsTrue};
ghost use Rattle.rcu_runtime_threads.specs.Ends.{HasNoneBack, LosesNone};

use rcu_runtime_threads::{
    Answer, AnyFault, Closed, Ending, Job, NoSteering, Record, Runtime, Shape, Step, Worker, open,
    run_or_drop,
};
use std::alloc::{AllocError, Global};
use std::collections::VecDeque;
use std::mem;

/// How many calls are made in all, how many a processor accepts in its life, and with how many it reports.
const CALLS: u64 = 2_500_000;

const LIMIT: u64 = 1_000_000;

const EVERY: u64 = 1000;

/// How many turns the last runtime gets to run what is left, and how many runtimes there are at most, one after another.
const LAST_TURNS: u64 = 10_000;

const MOST_RUNTIMES: u64 = 100;

/// A job whose key and receipt are its number.
#[derive(Drop)]
struct Number(u64);

impl Job for Number {
    type Receipt = u64;

    ghost key_of = { λ job. job.0 };

    ghost gives = { λ key receipt. receipt ≡ key };

    fn key(&self) -> u64 {
        self.0
    }

    fn run(self) -> u64 {
        self.0
    }
}

/// The worker: it calls the jobs that came back, and then new ones, until its processor accepts no more.
#[derive(Drop)]
struct Caller {
    back: VecDeque<Number>,
    /// The number of the next new job.
    next: u64,
    /// The job that wasn't accepted, if there is one.
    refused: Option<Number>,
}

impl Caller {
    /// Takes what came back of a runtime: in the next one it is called first, then what wasn't accepted.
    fn take_back(&mut self, back: Vec<Number>) -> Result<(), AllocError> {
        let mut rest = mem::replace(&mut self.back, VecDeque::from(back));
        if let Some(job) = self.refused.take() {
            self.back.push_back(job)?;
        }
        self.back.append(&mut rest)
    }

    /// Whether no call is left.
    fn has_called_all(&self) -> bool {
        self.next >= CALLS && self.back.is_empty() && self.refused.is_none()
    }

    /// The next call, of a job that came back before a new one.
    fn call(&mut self) -> Step<Number>
        ensures { result ≢ Step.Fail }
    {
        let job = self.back.pop_front().unwrap_or(Number(self.next));
        if job.0 >= CALLS {
            return Step::Done;
        }
        self.next = self.next.max(job.0 + 1);
        Step::Call { moment: 0, job }
    }
}

impl Worker<Number> for Caller {
    ghost use Rattle.rcu_runtime_threads.specs.declared.worker.WorkerEnd.TheVariants.{Done};

    // It never gives up.
    ghost ends_as = { λ end caller. end ≡ Done };

    fn step(&mut self, answer: Answer<Number>) -> Step<Number>
        ensures { result ≢ Step.Fail }
    {
        match answer {
            Answer::Refused(refused) => {
                self.refused = Some(refused.into_job());
                Step::Done
            }
            Answer::Called(ticket) if ticket.number % EVERY == 0 => Step::Report,
            Answer::Reported(_) => Step::Tick { moment: 0 },
            _ => self.call(),
        }
    }
}

/// Closes a runtime, the last one drained: as many ran or come back as it accepted, and none of the last one comes back.
fn close(alloc: Global, runtime: Runtime<Number>, last: bool) -> Result<Closed<Number>, AnyFault>
    ensures none_lost { IfOk result (LosesNone runtime) }
    ensures none_back { IsTrue last → IfOk result (λ closed. HasNoneBack closed) }
{
    if last {
        return runtime.drain_and_close(alloc, 0, LAST_TURNS);
    }
    Ok(runtime.close_or_drop(alloc)?)
}

/// Sees that the receipts of these records are the numbers from `first` on, in order. Answers the number after the last one.
fn follow(records: &Vec<Record<u64>>, first: u64) -> Result<u64, AnyFault> {
    let mut next = first;
    for record in records {
        if record.receipt != next {
            return Err(AnyFault::Own("a job ran out of order"));
        }
        let Some(after) = next.checked_add(1) else {
            return Err(AnyFault::Own("no number is left"));
        };
        next = after;
    }
    Ok(next)
}

/// Runtimes, one after another, until all calls have run. Prints how many jobs ran.
fn main(rt: HostRuntime) -> Result<(), AnyFault> {
    let alloc = rt.alloc();
    let shape = Shape::new(1, 0, 1, EVERY, EVERY, LIMIT).ok_or(AnyFault::NoShape)?;
    let mut callers = Vec::new(alloc);
    callers.push(Caller {
        back: VecDeque::new(alloc),
        next: 0,
        refused: None,
    })?;
    let mut ran = 0;
    for _ in 0..MOST_RUNTIMES {
        let runtime = open::<Number>(alloc, &shape.for_parts())?;
        let ending = Ending::AtOnce;
        let worked = run_or_drop(&rt, alloc, runtime, callers, &mut NoSteering, ending)?;
        callers = worked.workers;
        let is_last = callers.iter().all(|caller| caller.has_called_all());
        let closed = close(alloc, worked.runtime, is_last)?;
        for records in &closed.ran {
            ran = follow(records, ran)?;
        }
        if is_last {
            return Ok(println!(rt; "{ran} calls ran, each once and in order")?);
        }
        for (caller, back) in callers.iter_mut().zip(closed.back) {
            caller.take_back(back)?;
        }
    }
    Err(AnyFault::Own("not all calls were made"))
}
