//! The commands of a script, one call of a world each, and the totals.

ghost use Rattle.std.specs.Prelude.{◌≡◌, count_by, false, vec_len};
ghost use Rattle.std.specs.Option.{is_some};
ghost use Rattle.rcuo_script.specs.Calls.{is_barrier, is_call, is_show};
ghost use Rattle.rcuo_script.specs.Faults.{Outputs};
ghost use Rattle.rcuo_script.specs.Scripts.{PrintsScript, Writes};
ghost use Rattle.rcu_world_replay.specs.Printed.{IsAnswer, Prints};
ghost use Rattle.rcu_world_replay.specs.Scripts.{Replays};
ghost use Rattle.rcu_jobs.specs.Promised.{Promised};
ghost use Rattle.rcu_world.specs.Turns.{IsAtRest};
ghost use Rattle.rcu_world.specs.Views.{state};
ghost use Rattle.rcu_world.specs.Worlds.{IsWorld};
ghost use Rattle.rcu_world.specs.Stays.{StaysWorld};
ghost use Rattle.rcu_world_replay.specs.Answers.{AnswersAs};

use crate::commands::{
    barrier, call, come_back, driver, group, hand, leave, poll, quiet, show, shut, switch, tick,
};
use rcu_jobs::{BoxedJob, Job};
use rcu_setup::{Command, Setup};
use rcu_world::World;
use rcuo_script::{Fault, Line, Verb, is_show, job_for, write_line, write_totals};
use std::alloc::{AllocError, Global};
use std::collections::VecDeque;
use std::io::Write;

/// Runs the commands of the setup's script over the core, one call of a world each, and prints for each the line of the
/// answer that its call gave. Then it closes the world and prints the totals. It takes a job for each call line, in order.
///
/// # Errors
///
/// The fault of a failed write, after which nothing more is written; want of memory, but for a call's, which is printed.
pub fn replay<W: Write>(
    alloc: Global,
    setup: &Setup,
    jobs: Vec<BoxedJob<65536>>,
    writer: &mut W,
) -> Result<(), Fault>
    requires jobs { vec_len jobs ≡ count_by is_call setup.now.script.items }
    ensures prints { Outputs result (Writes (W.contents writer.old) (W.contents writer.new)
        (Replays (λ job. job.key) (Promised 65536) setup.now jobs.items)) }
{
    let mut world = World::new(alloc, setup.shape)?;
    perform_all(alloc, &mut world, setup, jobs, writer)?;
    let Ok((_, closed)) = world.close() else {
        return Err(Fault::memory());
    };
    write_totals(alloc, &closed, true, writer)
}

/// All commands of the script, in order, until one fails.
fn perform_all<J: Job<Receipt = u64>, W: Write>(
    alloc: Global,
    world: &mut World<J>,
    setup: &Setup,
    jobs: Vec<J>,
    writer: &mut W,
) -> Result<(), Fault>
    requires world { IsWorld J.key_of J.gives world.old.core }
    requires rest { IsAtRest (state J.key_of world.old.core) }
    requires jobs { vec_len jobs ≡ count_by is_call setup.now.script.items }
    ensures prints { Outputs result (Writes (W.contents writer.old) (W.contents writer.new)
        (PrintsScript (Prints J.key_of) (state J.key_of world.old.core)
        (state J.key_of world.new.core) setup.now.script.items jobs.items)) }
    ensures kept { IsWorld J.key_of J.gives world.new.core }
{
    let mut opened = None;
    let mut left = VecDeque::from_vec(jobs);
    for command in &setup.script {
        let job = job_for(command, &mut left);
        perform(alloc, world, &mut opened, command, job, writer)?;
    }
    Ok(())
}

/// The line that answers a command other than `show`, with its job if it is a call. `opened` is the name of the barrier
/// that is open.
///
/// # Errors
///
/// Want of memory, but for a call's, which is a line.
pub fn answer<J: Job<Receipt = u64>>(
    alloc: Global,
    world: &mut World<J>,
    opened: &mut Option<u64>,
    command: &Command,
    job: Option<J>,
) -> Result<Line, AllocError>
    requires world { IsWorld J.key_of J.gives world.old.core }
    requires rest { IsAtRest (state J.key_of world.old.core) }
    requires job { is_some job ≡ is_call command.now }
    requires line { is_show command.now ≡ false }
    ensures answers { AnswersAs J.key_of J.gives
        (λ old line new. IsAnswer J.key_of old opened.old command.now job line new opened.new)
        result world.old.core world.new.core }
    ensures barrier { is_barrier command.now ≡ false → opened.new ≡ opened.old }
{
    match (command, job) {
        (Command::Call { cpu, moment, .. }, Some(job)) => {
            Ok(call(world, Verb::Call, *cpu, *moment, job))
        }
        (Command::Lazy { cpu, moment, .. }, Some(job)) => {
            Ok(call(world, Verb::Lazy, *cpu, *moment, job))
        }
        (Command::Quiet { cpu }, None) => quiet(world, *cpu),
        (Command::Tick { cpu, moment }, None) => tick(world, *cpu, *moment),
        (Command::Driver, None) => driver(world),
        (Command::Group { group: place }, None) => group(world, *place),
        (Command::Hand { cpu }, None) => hand(world, *cpu),
        (Command::Offload { cpu }, None) => Ok(switch(world, Verb::Offload, *cpu)),
        (Command::Deoffload { cpu }, None) => Ok(switch(world, Verb::Deoffload, *cpu)),
        (Command::Leave { cpu }, None) => Ok(leave(world, *cpu)),
        (Command::Return { cpu }, None) => Ok(come_back(world, *cpu)),
        (Command::Barrier, None) => barrier(world, opened),
        (Command::Poll, None) => poll(world, opened),
        (Command::Shut, None) => shut(alloc, world),
        _ => unreachable!(),
    }
}

/// One command, with its job if it is a call, and what it prints. `opened` is the name of the barrier that is open.
fn perform<J: Job<Receipt = u64>, W: Write>(
    alloc: Global,
    world: &mut World<J>,
    opened: &mut Option<u64>,
    command: &Command,
    job: Option<J>,
    writer: &mut W,
) -> Result<(), Fault>
    requires world { IsWorld J.key_of J.gives world.old.core }
    requires rest { IsAtRest (state J.key_of world.old.core) }
    requires job { is_some job ≡ is_call command.now }
    ensures prints { Outputs result (Writes (W.contents writer.old) (W.contents writer.new) (λ text.
        Prints J.key_of (state J.key_of world.old.core) opened.old command.now job text
        (state J.key_of world.new.core) opened.new)) }
    ensures stays { StaysWorld J.key_of J.gives world.old.core world.new.core }
{
    if is_show(command) {
        return show(alloc, world, writer);
    }
    let line = answer(alloc, world, opened, command, job)?;
    write_line(line, writer)
}
