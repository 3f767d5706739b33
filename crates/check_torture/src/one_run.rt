//! One run: all parts of one open in threads of their own, from the first call to `close`, and the checks at the end.

ghost use Rattle.std.specs.Prelude.{◌≡◌, IfErr, IfOk, OnOk, is_ok, true};
ghost use Rattle.rcu_parts.specs.AtClose.{ClosesWith};
ghost use Rattle.rcu_parts.specs.OneOpen.{AreOfOneOpen, AreSoundParts};
ghost use Rattle.rcu_threads.specs.Ends.{ClosesSame};
ghost use Rattle.check_torture.specs.Ends.{HaveKept};
ghost use Rattle.check_torture.specs.Retired.{IsVersion, version_of};
ghost use Rattle.rcu_part_control.specs.Parts.{SameControl};

use crate::actors::{Log, MORE, MOST_REFUSED, Parted, join_actors, start_actors};
use crate::chance::Chance;
use crate::checks::check;
use crate::counters::Counters;
use crate::flaw::Flaws;
use crate::history::check_history;
use crate::plan::Plan;
use crate::retire::Retire;
use crate::shared::{Shared, share};
use crate::steerer::{Farewell, Steerer};
use rcu_jobs::Closed;
use rcu_parts::{AllParts, Control, Parts, close, open, same_parts};
use rcu_threads::{ThreadsFault, join_all, join_driver, start_driver, start_groups, start_hands};
use std::alloc::Global;
use std::rt::Clock;
use std::sync::{Arc, Wait};
use std::thread::Threads;

/// How control led a run.
#[derive(Drop)]
struct Course {
    farewell: Farewell,
    /// The counts of each barrier that passed.
    passes: Vec<Vec<u64>>,
    /// What control counted.
    counters: Counters,
}

/// What is left when all threads of a run have ended.
#[derive(Drop)]
struct Ended {
    parts: Parts<Retire>,
    logs: Vec<Log>,
    course: Course,
}

/// What is left of a run.
#[derive(Drop)]
pub(crate) struct Outcome {
    pub(crate) closed: Closed<Retire>,
    pub(crate) counters: Counters,
}

/// Leads a run by control, and then sets the halt word.
fn lead<R: Wait + Clock>(
    rt: &R,
    alloc: Global,
    control: Control,
    shared: Arc<Shared>,
    plan: &Plan,
    run: u64,
    are_running: bool,
) -> (Control, Course)
    ensures { SameControl control result.0 }
{
    let mut steerer = Steerer {
        control,
        processors: plan.processors,
        shared,
        chance: Chance::new(plan.seed, run, 0),
        counters: Counters::NONE,
        passes: Vec::new(alloc),
    };
    let farewell = steerer.lead(rt, alloc, plan.ending(run), are_running);
    let Steerer {
        mut control,
        counters,
        passes,
        ..
    } = steerer;
    control.finish();
    let course = Course {
        farewell,
        passes,
        counters,
    };
    (control, course)
}

/// The first fault, if there is one.
fn first_fault<D, G, H, P>(
    driver: &Result<D, ThreadsFault>,
    groups: &Result<G, ThreadsFault>,
    hands: &Result<H, ThreadsFault>,
    parted: &Result<P, ThreadsFault>,
) -> Result<(), ThreadsFault>
    ensures driver { OnOk result (is_ok driver.now ≡ true) }
    ensures groups { OnOk result (is_ok groups.now ≡ true) }
    ensures hands { OnOk result (is_ok hands.now ≡ true) }
    ensures parted { OnOk result (is_ok parted.now ≡ true) }
{
    match (driver, groups, hands, parted) {
        (Err(fault), ..) | (_, Err(fault), ..) | (_, _, Err(fault), _) | (.., Err(fault)) => {
            Err(*fault)
        }
        _ => Ok(()),
    }
}

/// Runs all parts of an open in threads of their own.
///
/// # Errors
///
/// A thread can't be made, or want of memory. All threads that were started have ended.
fn run_parts<R: Threads + Wait + Clock + Copy + Send + 'static>(
    rt: &R,
    alloc: Global,
    parts: Parts<Retire>,
    shared: &Arc<Shared>,
    plan: &Plan,
    run: u64,
) -> Result<Ended, ThreadsFault>
    ensures { IfOk result (λ ended. HaveKept parts ended.parts) }
{
    let Ok(own) = Arc::try_clone(shared) else {
        return Err(ThreadsFault::Memory);
    };
    let AllParts {
        processors,
        driver,
        groups,
        hands,
        control,
    } = parts;
    let driver = start_driver(rt, driver);
    let groups = start_groups(rt, alloc, groups);
    let hands = start_hands(rt, alloc, hands);
    let actors = start_actors(rt, alloc, processors, shared, plan, run);
    let are_running = driver.is_some()
        && groups.is_whole()
        && hands.is_whole()
        && actors.is_whole();
    let (control, course) = lead(rt, alloc, control, own, plan, run, are_running);
    let driver = join_driver(rt, driver);
    let groups = join_all(rt, groups);
    let hands = join_all(rt, hands);
    let parted = join_actors(rt, alloc, actors);
    // (asked of all four at once: each `?` of its own would have to drop what the others gave)
    first_fault(&driver, &groups, &hands, &parted)?;
    let driver = driver.unwrap();
    let groups = groups.unwrap();
    let hands = hands.unwrap();
    let Parted { processors, logs } = parted.unwrap();
    let parts = AllParts {
        driver,
        groups,
        hands,
        processors,
        control,
    };
    Ok(Ended {
        parts,
        logs,
        course,
    })
}

/// Closes all parts.
///
/// # Errors
///
/// Want of memory.
fn close_all(alloc: Global, parts: Parts<Retire>) -> Result<Closed<Retire>, ThreadsFault>
    requires parts { AreOfOneOpen parts }
    requires sound { AreSoundParts version_of IsVersion parts }
    ensures closes { IfOk result (λ closed. ClosesWith version_of IsVersion parts closed) }
    ensures memory { IfErr result (λ fault. fault ≡ ThreadsFault.Memory) }
{
    match close(alloc, parts) {
        Ok(closed) => Ok(closed),
        Err(_) => Err(ThreadsFault::Memory),
    }
}

/// Checks what is left of a run, and its history, and adds up what was counted.
///
/// # Errors
///
/// Want of memory.
fn count_up(
    alloc: Global,
    shared: &Shared,
    closed: &Closed<Retire>,
    logs: &[Log],
    course: &Course,
) -> Result<Counters, ThreadsFault> {
    let Course {
        farewell,
        passes,
        counters,
    } = course;
    let mut sum = check(shared, closed, logs, farewell);
    sum.add(counters);
    let Ok(made) = check_history(alloc, shared, closed, logs, farewell, passes.as_slice()) else {
        return Err(ThreadsFault::Memory);
    };
    sum.histories = u64::from(made);
    Ok(sum)
}

/// Runs all parts of an open in threads of their own, closes the runtime, and checks what is left.
///
/// # Errors
///
/// A thread can't be made, or want of memory. All threads that were started have ended.
fn run_to_end<R: Threads + Wait + Clock + Copy + Send + 'static>(
    rt: &R,
    alloc: Global,
    parts: Parts<Retire>,
    shared: &Arc<Shared>,
    plan: &Plan,
    run: u64,
) -> Result<Outcome, ThreadsFault>
    requires parts { AreOfOneOpen parts }
    requires sound { AreSoundParts version_of IsVersion parts }
    ensures { IfOk result (λ outcome. ClosesSame version_of IsVersion parts outcome.closed) }
{
    let ended = run_parts(rt, alloc, parts, shared, plan, run)?;
    let Ended {
        parts,
        logs,
        course,
    } = ended;
    same_parts::<Retire>();
    let closed = close_all(alloc, parts)?;
    let counters = count_up(alloc, shared, &closed, logs.as_slice(), &course)?;
    Ok(Outcome { closed, counters })
}

/// How many versions a run may make.
fn versions_of(plan: &Plan) -> u64 {
    let spare = plan
        .processors
        .saturating_mul(MORE.saturating_add(MOST_REFUSED));
    plan.callbacks.saturating_add(spare)
}

/// What a run counted, and the flaws that it met.
#[derive(Drop)]
pub struct Report {
    pub counters: Counters,
    pub shared: Arc<Shared>,
}

/// Opens the parts of a shape that is drawn for this run, runs them in threads of their own, closes them, and checks what is
/// left.
///
/// # Errors
///
/// A thread can't be made, or want of memory. All threads that were started have ended.
pub fn run_once<R: Threads + Wait + Clock + Copy + Send + 'static>(
    rt: &R,
    alloc: Global,
    plan: &Plan,
    run: u64,
) -> Result<Report, ThreadsFault> {
    let mut chance = Chance::new(plan.seed, run, 0);
    let Some(shape) = plan.shape(&mut chance) else {
        return Err(ThreadsFault::CannotRun);
    };
    let Ok(shared) = share(alloc, plan.processors, versions_of(plan)) else {
        return Err(ThreadsFault::Memory);
    };
    let Ok(parts) = open(alloc, &shape.for_parts()) else {
        return Err(ThreadsFault::Memory);
    };
    let Outcome { counters, .. } = run_to_end(rt, alloc, parts, &shared, plan, run)?;
    Ok(Report { counters, shared })
}
