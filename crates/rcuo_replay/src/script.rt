//! The commands of a script, one call of a part each, and the totals.

ghost use Rattle.std.specs.Prelude.{◌≡◌, IfErr, IfOk, count_by, false, vec_len};
ghost use Rattle.std.specs.Option.{is_some};
ghost use Rattle.rcu_jobs.specs.Promised.{Promised};
ghost use Rattle.rcuo_script.specs.Calls.{is_barrier, is_call, is_show};
ghost use Rattle.rcuo_script.specs.Faults.{IsWantOfMemory, Outputs};
ghost use Rattle.rcuo_script.specs.Scripts.{PrintsScript, Writes};
ghost use Rattle.rcuo_replay.specs.Printed.{IsAnswer, IsOfParts, Prints};
ghost use Rattle.rcuo_replay.specs.ScriptParts.{KeepsParts};
ghost use Rattle.rcuo_replay.specs.Scripts.{Replays};

use crate::commands::{
    barrier, call, come_back, driver, group, hand, leave, poll, quiet, show, shut, switch, tick,
};
use crate::parts::{ScriptParts, all_back, all_here};
use rcu_jobs::{BoxedJob, Job};
use rcu_parts::{Barrier, close, open};
use rcu_setup::{Command, Setup};
use rcuo_script::{Fault, Line, Verb, is_show, job_for, write_line, write_totals};
use std::alloc::Global;
use std::collections::VecDeque;
use std::io::Write;

/// Runs the commands of the setup's script over the running parts, one call of a part each, and prints for each the line of
/// the answer that its call gave. Then each processor that is away comes back, and it closes the runtime and prints the
/// totals. It takes a job for each call line, in order.
///
/// # Errors
///
/// The fault of a failed write, after which nothing more is written; want of memory, but for a call's, which is printed.
pub fn replay<W: Write>(
    alloc: Global,
    setup: &Setup,
    jobs: Vec<BoxedJob<65536>>,
    writer: &mut W,
) -> Result<(), Fault>
    requires jobs { vec_len jobs ≡ count_by is_call setup.now.script.items }
    ensures prints { Outputs result (Writes (W.contents writer.old) (W.contents writer.new)
        (Replays (λ job. job.key) (Promised 65536) setup.now jobs.items)) }
{
    let start = open(alloc, &setup.shape.for_parts())?;
    let mut parts = all_here(alloc, start)?;
    perform_all(alloc, &mut parts, setup, jobs, writer)?;
    let back = all_back(alloc, parts)?;
    let Ok(closed) = close(alloc, back) else {
        return Err(Fault::memory());
    };
    write_totals(alloc, &closed, true, writer)
}

/// All commands of the script, in order, until one fails.
fn perform_all<J: Job<Receipt = u64>, W: Write>(
    alloc: Global,
    parts: &mut ScriptParts<J>,
    setup: &Setup,
    jobs: Vec<J>,
    writer: &mut W,
) -> Result<(), Fault>
    requires jobs { vec_len jobs ≡ count_by is_call setup.now.script.items }
    ensures prints { Outputs result (Writes (W.contents writer.old) (W.contents writer.new)
        (PrintsScript (Prints J.key_of) parts.old parts.new setup.now.script.items jobs.items)) }
    ensures kept { KeepsParts J.key_of J.gives parts.old parts.new }
{
    let mut opened = None;
    let mut left = VecDeque::from_vec(jobs);
    for command in &setup.script {
        let job = job_for(command, &mut left);
        perform(alloc, parts, &mut opened, command, job, writer)?;
    }
    Ok(())
}

/// One command, with its job if it is a call, and what it prints. `opened` is the barrier that is open.
fn perform<J: Job<Receipt = u64>, W: Write>(
    alloc: Global,
    parts: &mut ScriptParts<J>,
    opened: &mut Option<Barrier>,
    command: &Command,
    job: Option<J>,
    writer: &mut W,
) -> Result<(), Fault>
    requires job { is_some job ≡ is_call command.now }
    requires ours { IsOfParts parts.old opened.old }
    ensures prints { Outputs result (Writes (W.contents writer.old) (W.contents writer.new)
        (λ text. Prints J.key_of parts.old opened.old command.now job text parts.new opened.new)) }
    ensures kept { KeepsParts J.key_of J.gives parts.old parts.new }
    ensures ours { IsOfParts parts.new opened.new }
{
    if is_show(command) {
        return show(alloc, &parts.processors, &parts.groups, writer);
    }
    let line = answer(alloc, parts, opened, command, job)?;
    write_line(line, writer)
}

/// The line that answers a command other than `show`, with its job if it is a call.
fn answer<J: Job<Receipt = u64>>(
    alloc: Global,
    parts: &mut ScriptParts<J>,
    opened: &mut Option<Barrier>,
    command: &Command,
    job: Option<J>,
) -> Result<Line, Fault>
    requires job { is_some job ≡ is_call command.now }
    requires line { is_show command.now ≡ false }
    requires ours { IsOfParts parts.old opened.old }
    ensures line { IfOk result (λ line.
        IsAnswer J.key_of parts.old opened.old command.now job line parts.new opened.new) }
    ensures why { IfErr result IsWantOfMemory }
    ensures barrier { is_barrier command.now ≡ false → opened.new ≡ opened.old }
    ensures kept { KeepsParts J.key_of J.gives parts.old parts.new }
    ensures ours { IsOfParts parts.new opened.new }
{
    let n = parts.processors.len();
    match (command, job) {
        (Command::Call { cpu, moment, .. }, Some(job)) => {
            Ok(call(&mut parts.processors, Verb::Call, *cpu, *moment, job))
        }
        (Command::Lazy { cpu, moment, .. }, Some(job)) => {
            Ok(call(&mut parts.processors, Verb::Lazy, *cpu, *moment, job))
        }
        (Command::Quiet { cpu }, None) => Ok(quiet(&mut parts.processors, *cpu)),
        (Command::Tick { cpu, moment }, None) => Ok(tick(&mut parts.processors, *cpu, *moment)),
        (Command::Driver, None) => Ok(driver(&mut parts.driver)),
        (Command::Group { group: number }, None) => Ok(group(&mut parts.groups, *number)),
        (Command::Hand { cpu }, None) => Ok(hand(&mut parts.hands, n, *cpu)),
        (Command::Offload { cpu }, None) => Ok(switch(&mut parts.control, Verb::Offload, *cpu)),
        (Command::Deoffload { cpu }, None) => Ok(switch(&mut parts.control, Verb::Deoffload, *cpu)),
        (Command::Leave { cpu }, None) => Ok(leave(&mut parts.processors, *cpu)),
        (Command::Return { cpu }, None) => Ok(come_back(&mut parts.processors, *cpu)),
        (Command::Barrier, None) => Ok(barrier(&mut parts.control, opened)),
        (Command::Poll, None) => Ok(poll(&mut parts.control, opened)),
        (Command::Shut, None) => shut(alloc, &mut parts.control),
        _ => unreachable!(),
    }
}
