//! An example in one thread: a read-mostly table whose old versions are retired by `call_rcu`.
//!
//! Readers may still look at these. docs/embedding.md, "In one thread", walks through it.
//!
//! # What is proved
//!
//! - A table whose old versions are retired: one made of another has one row more.
//! - By `Version::with`, `Version::generation`.
//! - Its runtime accepted as many as the table went through; as many were let go or handed back.
//! - By `Table` (`pace`), `run_once` (`none_lost`).
//! - Each receipt is of the version that its record names.
//! - By `Retired`'s `run` under `Job` (`gives`), `run_once` (`receipts`).
#![tactic(auto)]

ghost use Rattle.std.specs.Prelude.{◌≡◌, ◌+◌, IfOk, vec_len};
ghost use Rattle.std.specs.Arc.{arc_value};
ghost use Rattle.rcu_runtime.specs.Ends.{HaveReceipts, back_in, ran_in};
ghost use Rattle.rcu_runtime.specs.Runtimes.{accepted_in};

use rcu_runtime::{AnyFault, Closed, Job, Reading, Runtime, Shape, Ticket, open};
use std::alloc::{AllocError, Global};
use std::mem;
use std::sync::Arc;

/// Where packets for a destination go next.
#[derive(Clone, Copy, Debug, PartialEq, Eq)]
struct Row {
    destination: u32,
    hop: u32,
}

/// A version of the table, which never changes. Each update adds a row, so generation `g` has `g` rows.
#[derive(Drop)]
struct Version {
    rows: Vec<Row>,
}

impl Version {
    /// Its generation.
    fn generation(&self) -> u64
        ensures { result ≡ vec_len self.now.rows }
    {
        self.rows.len() as u64
    }

    /// The next generation, which has one row more.
    fn with(&self, row: Row) -> Result<Version, AllocError>
        ensures { IfOk result (λ next. vec_len next.rows ≡ vec_len self.now.rows + 1) }
    {
        let mut rows = self.rows.clone()?;
        rows.push(row)?;
        Ok(Version { rows })
    }

    /// The hop of the newest row for a destination.
    fn hop_to(&self, destination: u32) -> Option<u32> {
        let mut newest_first = self.rows.iter().rev();
        let newest = newest_first.find(|row| row.destination == destination)?;
        Some(newest.hop)
    }
}

/// The job: a version that was replaced. Readers that found it before may still look at it; the job that lets go of it runs
/// when none of them can any more.
#[derive(Drop)]
struct Retired(Arc<Version>);

/// The receipt: which version was let go, and whether nobody else held it any more.
#[derive(Clone, Copy, Debug, PartialEq, Eq)]
struct Freed {
    generation: u64,
    was_last: bool,
}

impl Job for Retired {
    type Receipt = Freed;

    // The key is the generation that is retired,
    ghost key_of = { λ job. vec_len (arc_value job.0).rows };

    // and the receipt is of that generation.
    ghost gives = { λ generation freed. freed.generation ≡ generation };

    fn key(&self) -> u64 {
        self.0.generation()
    }

    fn run(self) -> Freed {
        let Retired(version) = self;
        Freed {
            generation: version.generation(),
            was_last: Arc::into_inner(version).is_some(),
        }
    }
}

/// A table of two processors, of which the second is offloadable. Its runtime accepted as many versions as it went through.
#[derive(Drop)]
struct Table {
    alloc: Global,
    runtime: Runtime<Retired>,
    current: Arc<Version>,
    ghost pace: { accepted_in runtime ≡ vec_len (arc_value current).rows },
}

/// A version that a reader looks at. It doesn't outlive its read section.
#[derive(Drop)]
struct Seen<'s> {
    version: Arc<Version>,
    section: &'s Reading<'s, Retired>,
}

impl Table {
    /// A table with no row.
    fn new(alloc: Global) -> Result<Table, AnyFault> {
        let shape = Shape::new(2, 0b10, 1, 10, 16, 100).ok_or(AnyFault::NoShape)?;
        let rows = Vec::new(alloc);
        Ok(Table {
            alloc,
            current: Arc::new(alloc, Version { rows })?,
            runtime: open(alloc, &shape.for_parts())?,
        })
    }

    /// The current version, for a reader.
    fn read<'s>(&self, section: &'s Reading<'s, Retired>) -> Result<Seen<'s>, AllocError> {
        let version = Arc::try_clone(&self.current)?;
        Ok(Seen { version, section })
    }

    /// Publishes a version with one row more, and retires the one before by `call_rcu` of processor `p`.
    ///
    /// # Errors
    ///
    /// Want of memory, or a refusal. Then the table is as before.
    fn update(&mut self, p: u64, moment: u64, row: Row) -> Result<Ticket, AnyFault> {
        let next = Arc::new(self.alloc, self.current.with(row)?)?;
        let old = mem::replace(&mut self.current, next);
        match self.runtime.call_rcu(p, moment, Retired(old)) {
            Ok(ticket) => Ok(ticket),
            Err(refused) => {
                let number = refused.number();
                self.current = refused.into_job().0;
                Err(AnyFault::Refused(number))
            }
        }
    }
}

/// Retires a version by processor `p`.
fn retire(rt: &impl Print, table: &mut Table, p: u64, moment: u64) -> Result<Ticket, AnyFault> {
    let generation = table.current.generation();
    let hop = 1;
    let destination = 7;
    let ticket = table.update(p, moment, Row { destination, hop })?;
    let number = ticket.number;
    println!(rt; "call {number} of processor {p} retires generation {generation}")?;
    Ok(ticket)
}

/// A reader on processor `p` looks at the current version.
fn look(rt: &impl Print, table: &Table, p: u64) -> Result<(), AnyFault> {
    let section = table.runtime.reading(p)?;
    let seen = table.read(&section)?;
    println!(rt; "reader: hop to 7 is {:?}", seen.version.hop_to(7))?;
    Ok(())
}

/// Processor 0 retires a version that a reader on processor 1 looked at. It is let go once both have reported.
fn retire_one(rt: &impl Print, table: &mut Table) -> Result<(), AnyFault> {
    look(rt, table, 1)?;
    retire(rt, table, 0, 1)?;
    table.runtime.tick(0, 1)?;
    println!(rt; "driver: {:?}", table.runtime.turn_driver())?;
    table.runtime.quiescent(0)?;
    println!(rt; "driver: {:?}", table.runtime.turn_driver())?;
    table.runtime.quiescent(1)?;
    println!(rt; "driver: {:?}", table.runtime.turn_driver())?;
    println!(rt; "processor 0: {:?}", table.runtime.tick(0, 2)?)?;
    Ok(())
}

/// Each processor retires a version, and a barrier with both tickets passes.
fn pass_a_barrier(rt: &impl Print, table: &mut Table) -> Result<(), AnyFault> {
    let tickets = [retire(rt, table, 0, 3)?, retire(rt, table, 1, 3)?];
    let barrier = table.runtime.barrier(&tickets)?;
    table.runtime.turn_until_passed(&barrier, 4, 3)?;
    println!(rt; "the barrier has passed")?;
    look(rt, table, 0)
}

/// Versions of a table are retired, and its runtime is closed. Each version but the last is either let go or handed back, and
/// each receipt is of the version that its record names.
fn run_once(rt: &impl Print, alloc: Global) -> Result<(Arc<Version>, Closed<Retired>), AnyFault>
    ensures none_lost { IfOk result (λ ended.
        ran_in ended.1 + back_in ended.1 ≡ vec_len (arc_value ended.0).rows) }
    ensures receipts { IfOk result (λ ended. HaveReceipts ⟦<Retired as Job>⟧.gives ended.1) }
{
    let mut table = Table::new(alloc)?;
    retire_one(rt, &mut table)?;
    pass_a_barrier(rt, &mut table)?;
    // One more is retired that no turn is left to run.
    retire(rt, &mut table, 1, 20)?;
    table.runtime.shut();
    Ok((table.current, table.runtime.close_or_drop(alloc)?))
}

/// Prints what ran, in order, and what is handed back.
fn main(rt: HostRuntime) -> Result<(), AnyFault> {
    let (current, closed) = run_once(&rt, rt.alloc())?;
    for (cpu, records) in closed.ran.iter().enumerate() {
        for record in records {
            let (number, ready, freed) = (record.number, record.ready, record.receipt);
            println!(rt; "processor {cpu} ran call {number} at {ready}: {freed:?}")?;
        }
    }
    for (cpu, jobs) in closed.back.iter().enumerate() {
        for Retired(version) in jobs {
            let generation = version.generation();
            println!(rt; "processor {cpu} hands back generation {generation}")?;
        }
    }
    println!(rt; "the table is at generation {}", current.generation())?;
    Ok(())
}
