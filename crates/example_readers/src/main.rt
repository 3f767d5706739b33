//! An example in threads: a read-mostly cache, whose readers never wait and whose old versions are let go by `call_rcu`.
//!
//! A processor publishes its versions, which is offloaded, local for a while, and offloaded again. docs/embedding.md walks
//! through it.
//!
//! # What is proved
//!
//! - A cache in threads: as many versions were let go or come back as were accepted.
//! - By `close` (`none_lost`).
//! - None comes back of a drained runtime, and each receipt is of its record's place.
//! - By `Retired`'s `run` under `Job` (`gives`), `close` (`none_back`, `receipts`).
#![tactic(auto)]

mod cache;

ghost use Rattle.std.specs.Prelude.{⊤, IfOk};
ghost use Rattle.rcu_runtime_threads.specs.Ends.{HasNoneBack, HaveReceipts, IsDrained, LosesNone};

use cache::{Cache, Retired};
use rcu_runtime_threads::{
    Answer, AnyFault, Closed, Ending, Job, NoSteering, Order, Reading, Reply, Runtime, Shape,
    Steering, Step, Worked, Worker, WorkerEnd, open, run_or_drop,
};
use std::alloc::{AllocError, Global};
use std::sync::Arc;

/// The publisher's processor, which is the last one and offloadable; the others read.
const PUBLISHER: u64 = 3;

/// How often each reader reads in a run, and how many versions a run publishes.
const READS: u64 = 2000;

const VERSIONS: u64 = 90;

/// What a worker does: all processors have workers of one type.
#[derive(Drop)]
enum Task {
    /// It reads so many times more.
    Read { left: u64 },
    /// It publishes versions up to this one.
    Publish { last: u64 },
}

/// A worker.
#[derive(Drop)]
struct Member {
    cache: Arc<Cache>,
    task: Task,
    /// The worker's clock: how many ticks its processor made.
    moment: u64,
    /// How often it read, and how many reads saw a version that was let go.
    reads: u64,
    torn: u64,
}

impl Member {
    /// What it does where it has reported and ticked.
    fn next(&mut self) -> Step<Retired> {
        match &mut self.task {
            Task::Read { left: 0 } => Step::Done,
            Task::Read { left } => {
                *left -= 1;
                Step::Read
            }
            Task::Publish { last } if self.cache.published() >= *last => Step::Done,
            Task::Publish { last: _ } => self.publish(),
        }
    }

    /// Publishes a version, where a place is free, and retires the one before.
    fn publish(&self) -> Step<Retired> {
        let Ok(cache) = Arc::try_clone(&self.cache) else {
            return self.give_up();
        };
        let Some(place) = cache.publish() else {
            return Step::Pause;
        };
        let (moment, job) = (self.moment, Retired { cache, place });
        Step::Call { moment, job }
    }

    /// Gives up, so that nobody waits for more versions.
    fn give_up(&self) -> Step<Retired> {
        self.cache.end();
        Step::Fail
    }
}

impl Worker<Retired> for Member {
    fn step(&mut self, answer: Answer<Retired>) -> Step<Retired>
        ensures { ⊤ }
    {
        match answer {
            Answer::WasRead | Answer::Called(_) | Answer::Paused => Step::Report,
            Answer::Reported(_) => {
                self.moment = self.moment.saturating_add(1);
                let moment = self.moment;
                Step::Tick { moment }
            }
            Answer::Refused(_) => self.give_up(),
            _ => self.next(),
        }
    }

    fn read(&mut self, section: &Reading<'_, Retired>) {
        self.reads = self.reads.saturating_add(1);
        if self.cache.read(section).is_none() {
            self.torn = self.torn.saturating_add(1);
        }
    }
}

/// Has the publisher's processor run its callbacks itself once a third of the versions is out, and has it offloaded again
/// after two thirds.
#[derive(Drop)]
struct Switcher {
    cache: Arc<Cache>,
    switches: u64,
}

impl Steering for Switcher {
    fn order(&mut self, reply: Reply) -> Order {
        if let Reply::Switched(_) = reply {
            self.switches = self.switches.saturating_add(1);
        }
        let published = self.cache.published();
        match self.switches {
            0 if published >= VERSIONS / 3 => Order::Deoffload(PUBLISHER),
            1 if published >= 2 * VERSIONS / 3 => Order::Offload(PUBLISHER),
            0 | 1 => Order::Pause,
            _ => Order::Done,
        }
    }
}

/// The workers of a run that publishes versions up to `last`, in the order of their processors.
fn members(alloc: Global, cache: &Arc<Cache>, last: u64) -> Result<Vec<Member>, AllocError> {
    let mut members = Vec::new(alloc);
    for cpu in 0..=PUBLISHER {
        let task = if cpu == PUBLISHER {
            Task::Publish { last }
        } else {
            Task::Read { left: READS }
        };
        members.push(Member {
            cache: Arc::try_clone(cache)?,
            task,
            moment: 0,
            reads: 0,
            torn: 0,
        })?;
    }
    Ok(members)
}

/// Closes a runtime: as many versions were let go or come back as it accepted, none comes back of a drained one, and each
/// receipt is of its record's place.
fn close(alloc: Global, runtime: Runtime<Retired>) -> Result<Closed<Retired>, AllocError>
    ensures none_lost { IfOk result (LosesNone runtime) }
    ensures none_back { IsDrained runtime → IfOk result (λ closed. HasNoneBack closed) }
    ensures receipts { IfOk result (λ closed. HaveReceipts ⟦<Retired as Job>⟧.gives closed) }
{
    runtime.close_or_drop(alloc)
}

/// Prints what the workers of a run saw, if none of them gave up.
fn show(rt: &impl Print, worked: &Worked<Retired, Member>) -> Result<(), AnyFault> {
    if worked.ends.contains(&WorkerEnd::Failed) {
        return Err(AnyFault::Own("a worker gave up"));
    }
    for (cpu, member) in worked.workers.iter().enumerate() {
        let (reads, torn) = (member.reads, member.torn);
        println!(rt; "worker {cpu}: {reads} reads, {torn} of them torn")?;
    }
    Ok(())
}

/// Two runs of one runtime. The first ends once all that was retired was let go, the second drains the runtime.
fn main(rt: HostRuntime) -> Result<(), AnyFault> {
    let alloc = rt.alloc();
    let shape = Shape::new(PUBLISHER + 1, 1 << PUBLISHER, 2, 10, 16, 1000);
    let shape = shape.ok_or(AnyFault::NoShape)?;
    let cache = Arc::new(alloc, Cache::new())?;
    let runtime = open::<Retired>(alloc, &shape.for_parts())?;

    let mut switcher = Switcher {
        cache: Arc::try_clone(&cache)?,
        switches: 0,
    };
    let workers = members(alloc, &cache, VERSIONS)?;
    let ending = Ending::AfterBarrier;
    let worked = run_or_drop(&rt, alloc, runtime, workers, &mut switcher, ending)?;
    show(&rt, &worked)?;

    let workers = members(alloc, &cache, 2 * VERSIONS)?;
    let ending = Ending::Drained;
    let worked = run_or_drop(&rt, alloc, worked.runtime, workers, &mut NoSteering, ending)?;
    show(&rt, &worked)?;

    let closed = close(alloc, worked.runtime)?;
    for (cpu, (records, jobs)) in closed.ran.iter().zip(&closed.back).enumerate() {
        let (ran, back) = (records.len(), jobs.len());
        println!(rt; "processor {cpu}: {ran} versions were let go, {back} jobs are handed back")?;
    }
    Ok(())
}
