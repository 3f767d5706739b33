//! The scenario of the core.

ghost use Rattle.std.specs.Prelude.{IfOk};
ghost use Rattle.check_memory.specs.Driven.{IsDrivenWorld, LeavesDriven};
ghost use Rattle.check_memory.specs.Works.{IsOwnKey, key_of_work};
ghost use Rattle.rcu_world.specs.Worlds.{IsWorld};

use crate::growth::{Broken, Fault, Growth, Refusals, refused_again, stands};
use crate::machine::{Answer, Cpu, Machine, Shown, check_closed, shape};
use crate::parts::called;
use crate::script::{Action, ONE_MARK, SHORT_SCRIPT};
use crate::steps::{Progress, shown};
use crate::work::Work;
use rcu_jobs::{BarrierFault, Closed};
use rcu_world::{Event, World};
use std::alloc::{AllocError, Global};

/// How many events are handed to `run` at the end.
const EVENTS: usize = 4;

/// How many lengths of the history the short script begins at.
const LENGTHS: u64 = 8;

/// Opens a barrier and, where `polls`, polls it.
fn open_barrier(world: &mut World<Work>, polls: bool) -> Answer
    requires { IsDrivenWorld world.old }
    ensures { IsDrivenWorld world.new }
{
    let name = match world.barrier(None, &[]) {
        Ok(name) => name,
        Err(BarrierFault::Memory) => return Answer::Memory(Growth::Barrier),
        Err(_) => return Answer::Other,
    };
    if !polls {
        return Answer::Done;
    }
    match world.poll(name) {
        Ok(passed) => Answer::Polled(passed.is_some()),
        Err(_) => Answer::Memory(Growth::Poll),
    }
}

/// Asks the offloadable processor to be offloaded, or local.
fn ask(world: &mut World<Work>, on: bool) -> Answer
    requires { IsDrivenWorld world.old }
    ensures { IsDrivenWorld world.new }
{
    let asked = if on {
        world.offload(1)
    } else {
        world.deoffload(1)
    };
    match asked {
        Ok(()) => Answer::Done,
        Err(_) => Answer::Other,
    }
}

/// A call of a processor.
fn make_at(world: &mut World<Work>, cpu: Cpu, action: Action, moment: u64, key: u64) -> Answer
    requires { IsDrivenWorld world.old }
    ensures { IsDrivenWorld world.new }
{
    let number = cpu.number();
    if number >= world.processors() {
        return Answer::Other;
    }
    if world.is_away(number) {
        return Answer::Other;
    }
    match action {
        Action::Call(_) => called(world.call_rcu(number, moment, Work { key })),
        Action::Lazy(_) => called(world.call_rcu_lazy(number, moment, Work { key })),
        Action::Report(_) => match world.quiescent(number) {
            Ok(counted) => Answer::Reported(counted.is_some()),
            Err(_) => Answer::Memory(Growth::Quiescent),
        },
        Action::Tick(_) => match world.tick(number, moment) {
            Ok(ticked) => Answer::Ran {
                ran: ticked.ran,
                stop: ticked.stop,
            },
            Err(_) => Answer::Memory(Growth::TickRecord),
        },
        _ => Answer::Other,
    }
}

/// A turn of the only group.
fn turn_group(world: &mut World<Work>) -> Answer
    requires { IsDrivenWorld world.old }
    ensures { LeavesDriven Growth.GroupJoin result world.new }
{
    if !world.has_group(1) {
        return Answer::Other;
    }
    match world.group_turn(1) {
        Ok(turn) => Answer::Turned(turn),
        Err(_) => Answer::Memory(Growth::GroupJoin),
    }
}

/// A turn of the only hand.
fn turn_hand(world: &mut World<Work>) -> Answer
    requires { IsDrivenWorld world.old }
    ensures { LeavesDriven Growth.HandRecord result world.new }
{
    if !world.has_hand(1) {
        return Answer::Other;
    }
    match world.hand_turn(1) {
        Ok(turn) => Answer::Ran {
            ran: turn.ran,
            stop: turn.stop,
        },
        Err(_) => Answer::Memory(Growth::HandRecord),
    }
}

/// A turn of the driver.
fn drive(world: &mut World<Work>) -> Answer
    requires { IsDrivenWorld world.old }
    ensures { LeavesDriven Growth.DriverTurn result world.new }
{
    match world.driver_turn() {
        Ok(_) => Answer::Done,
        Err(_) => Answer::Memory(Growth::DriverTurn),
    }
}

/// Shuts both processors.
fn shut(world: &mut World<Work>) -> Answer
    requires { IsDrivenWorld world.old }
    ensures { LeavesDriven Growth.Shut result world.new }
{
    match world.shut() {
        Ok(counts) => Answer::Shut(counts),
        Err(_) => Answer::Memory(Growth::Shut),
    }
}

impl Machine for World<Work> {
    ghost holds = { IsDrivenWorld };

    fn make(&mut self, action: Action, moment: u64, key: u64) -> Answer {
        match action {
            Action::Call(cpu) | Action::Lazy(cpu) | Action::Report(cpu) | Action::Tick(cpu) => {
                make_at(self, cpu, action, moment, key)
            }
            Action::Group => turn_group(self),
            Action::Hand => turn_hand(self),
            Action::Drive => drive(self),
            Action::Ask(on) => ask(self, on),
            Action::Barrier => open_barrier(self, false),
            Action::Poll => open_barrier(self, true),
            Action::Shut => shut(self),
        }
    }

    fn shown(&self) -> Option<Shown> {
        if self.processors() != 2 {
            return None;
        }
        Some(Shown {
            local: self.lists(0),
            offloadable: self.lists(1),
            member: self.group_lists(1)?,
        })
    }
}

/// Opens the world.
fn open_world(alloc: Global, refusals: &mut Refusals) -> Result<World<Work>, Broken>
    ensures driven { IfOk result IsDrivenWorld }
{
    let shape = shape().ok_or(Broken {
        at: Growth::WorldNew,
        what: "no shape",
    })?;
    if let Ok(world) = World::new(alloc, shape) {
        return Ok(world);
    }
    refusals.note(Growth::WorldNew)?;
    match World::new(alloc, shape) {
        Ok(world) => Ok(world),
        Err(_) => Err(refused_again(Growth::WorldNew)),
    }
}

/// The events that are handed to `run`.
fn make_events(alloc: Global) -> Result<Vec<Event<Work>>, AllocError> {
    let mut events = Vec::new(alloc);
    for _ in 0..EVENTS {
        events.push(Event::Urge)?;
    }
    Ok(events)
}

/// So many events came back of a `run` that was refused, and no list changed.
fn check_back(
    refusals: &mut Refusals,
    world: &World<Work>,
    before: &Shown,
    back: usize,
) -> Result<(), Broken> {
    refusals.note_same(Growth::WorldRun, back == EVENTS, "not all events came back")?;
    let same = *before == shown(world)?;
    stands(same, Growth::WorldRun, "a list changed")
}

/// Hands events to `run`, which change no list.
fn run_events(alloc: Global, refusals: &mut Refusals, world: &mut World<Work>) -> Result<(), Fault>
    requires { IsWorld key_of_work IsOwnKey world.old.core }
    ensures { IsWorld key_of_work IsOwnKey world.new.core }
{
    let before = shown(world)?;
    let events = make_events(alloc)?;
    let Err(back) = world.run(events) else {
        return Ok(());
    };
    check_back(refusals, world, &before, back.len())?;
    stands(world.run(back).is_ok(), Growth::WorldRun, "refused again")?;
    Ok(())
}

/// A world that came back of its `close` shows what it showed before, and its history has as many marks.
fn check_kept(
    refusals: &mut Refusals,
    back: &World<Work>,
    last: &Shown,
    marks: usize,
) -> Result<(), Broken>
    requires { IsWorld key_of_work IsOwnKey back.now.core }
{
    let same = *last == shown(back)? && marks == back.history().len();
    refusals.note_same(Growth::WorldClose, same, "the world changed")
}

/// Closes the world, or tries it again. `last` is what it shows.
fn close_world(
    refusals: &mut Refusals,
    world: World<Work>,
    last: &Shown,
) -> Result<Closed<Work>, Broken>
    requires { IsWorld key_of_work IsOwnKey world.core }
{
    let marks = world.history().len();
    let back = match world.close() {
        Ok((_, closed)) => return Ok(closed),
        Err(back) => back,
    };
    check_kept(refusals, &back, last, marks)?;
    match back.close() {
        Ok((_, closed)) => Ok(closed),
        Err(_) => Err(refused_again(Growth::WorldClose)),
    }
}

/// The short script on a world whose history has so many marks before it: among some lengths in a row is one at which the
/// history grows at each call.
fn play_short(alloc: Global, refusals: Refusals, marks: u64) -> Result<Refusals, Broken> {
    let mut progress = Progress::new(refusals);
    let mut world = open_world(alloc, &mut progress.refusals)?;
    progress.repeat(&mut world, marks, ONE_MARK)?;
    progress.perform(&mut world, SHORT_SCRIPT)?;
    Ok(progress.refusals)
}

/// The short script on histories of some lengths in a row.
fn play_all_short(alloc: Global) -> Result<Refusals, Broken> {
    let mut refusals = Refusals::new();
    for marks in 0..LENGTHS {
        refusals = play_short(alloc, refusals, marks)?;
    }
    Ok(refusals)
}

/// Each call of the table, and `run`. Answers what the world shows then.
fn perform_all(
    alloc: Global,
    progress: &mut Progress,
    world: &mut World<Work>,
) -> Result<Shown, Fault>
    requires { IsDrivenWorld world.old }
    ensures { IsWorld key_of_work IsOwnKey world.new.core }
{
    progress.perform_all(world)?;
    run_events(alloc, &mut progress.refusals, world)?;
    Ok(shown(world)?)
}

/// The scenario: `World::new`, each call of the table, `run`, `close`.
pub fn play_world(alloc: Global) -> Result<Refusals, Fault> {
    let mut refusals = play_all_short(alloc)?;
    let mut world = open_world(alloc, &mut refusals)?;
    let mut progress = Progress::new(refusals);
    let last = perform_all(alloc, &mut progress, &mut world)?;
    let closed = close_world(&mut progress.refusals, world, &last)?;
    check_closed(Growth::WorldClose, &closed, &last)?;
    Ok(progress.refusals)
}
