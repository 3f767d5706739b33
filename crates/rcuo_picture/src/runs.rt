//! The run of a script over the core, command by command.

ghost use Rattle.std.specs.Option.{is_some};
ghost use Rattle.std.specs.Prelude.{◌≡◌, IfOk, IfSome, None, false, string_bytes, true, vec_len};
ghost use Rattle.rcuo_picture.specs.Keys.{IsKey, key_in};
ghost use Rattle.rcuo_picture.specs.Steps.{HasAnswer, step_text};
ghost use Rattle.rcuo_script.specs.Calls.{is_call, is_show};
ghost use Rattle.rcu_world.specs.Turns.{IsAtRest};
ghost use Rattle.rcu_world.specs.Views.{state};
ghost use Rattle.rcu_world.specs.Worlds.{IsWorld};

use crate::places::Shown;
use rcu_jobs::{Job, Lists, Mode};
use rcu_setup::{Command, Setup};
use rcu_world::World;
use rcu_world_law::marks::Mark;
use rcu_world_replay::answer;
use rcuo_script::{Line, is_show};
use std::alloc::{AllocError, Global};

/// The most commands of a script that are drawn: more can't be read.
pub const MOST_STEPS: usize = 500;

/// The job of a call line: it has a key, and answers it.
#[derive(Clone, Copy, Drop)]
pub struct KeyJob {
    key: u64,
}

impl Job for KeyJob {
    type Receipt = u64;

    ghost key_of = { λ job. job.key };

    ghost gives = { λ key receipt. receipt ≡ key };

    fn key(&self) -> u64 {
        self.key
    }

    fn run(self) -> u64 {
        self.key
    }
}

/// A command's answer, and what each processor shows after it.
#[derive(Drop)]
pub struct Step {
    /// The line that `replay` prints, or `show`.
    pub text: String,
    /// The answer, None of `show`.
    pub line: Option<Line>,
    pub shown: Vec<Shown>,
}

/// The run of a script.
#[derive(Drop)]
pub struct Run {
    /// Of each processor whether it has a hand.
    pub hands: Vec<bool>,
    /// The groups that have a part.
    pub groups: Vec<u64>,
    pub steps: Vec<Step>,
    /// How many commands the script has; of the first [`MOST_STEPS`] there are steps.
    pub commands: usize,
}

impl Run {
    /// How many columns the picture has: one for each step, and one for what is handed back at the end.
    pub fn columns(&self) -> usize {
        self.steps.len().saturating_add(1)
    }
}

/// How many callbacks of the processor ran.
fn ran_of(history: &[Mark], cpu: u64) -> u64 {
    let mut ran = 0u64;
    for mark in history {
        match mark {
            Mark::Ran(of, _) if *of == cpu => ran = ran.saturating_add(1),
            _ => {}
        }
    }
    ran
}

/// How many callbacks a list of these four segments has.
fn total(lengths: [u64; 4]) -> u64 {
    let [done, wait, ready, next] = lengths;
    done.saturating_add(wait)
        .saturating_add(ready)
        .saturating_add(next)
}

/// What a processor shows.
fn shown(lists: Lists, ran: u64) -> Shown {
    match lists {
        Lists::Cpu {
            mode,
            accepted,
            bypass,
            lengths,
            ..
        } => Shown {
            mode,
            accepted,
            own: total(lengths),
            bypass,
            ran,
        },
        Lists::Folk { .. } => Shown {
            mode: Mode::Local,
            accepted: 0,
            own: 0,
            bypass: 0,
            ran,
        },
    }
}

/// What all processors show.
fn all_shown(alloc: Global, world: &World<KeyJob>) -> Result<Vec<Shown>, AllocError>
    requires { IsWorld key_in IsKey world.now.core }
{
    let mut all = Vec::new(alloc);
    let history = world.history();
    for cpu in 0..world.processors() {
        all.push(shown(world.lists(cpu), ran_of(history, cpu)))?;
    }
    Ok(all)
}

/// The job of this key, if the command is a call.
fn job_of(command: &Command, key: u64) -> Option<KeyJob>
    ensures call { is_some result ≡ is_call command.now }
    ensures key { IfSome result (λ job. job.key ≡ key) }
{
    match command {
        Command::Call { .. } | Command::Lazy { .. } => Some(KeyJob { key }),
        _ => None,
    }
}

/// The text of an answer, or of the command that has none.
fn text_of(alloc: Global, line: &Option<Line>) -> Result<String, AllocError>
    ensures text { IfOk result (λ text. string_bytes text ≡ step_text line.now) }
{
    match line {
        Some(line) => format!(in alloc; "{line}"),
        None => format!(in alloc; "show"),
    }
}

/// A step of this answer, with what each processor shows after it.
fn step_of(alloc: Global, world: &World<KeyJob>, line: Option<Line>) -> Result<Step, AllocError>
    requires world { IsWorld key_in IsKey world.now.core }
    ensures line { IfOk result (λ step. step.line ≡ line) }
    ensures text { IfOk result (λ step. string_bytes step.text ≡ step_text line) }
{
    let text = text_of(alloc, &line)?;
    let shown = all_shown(alloc, world)?;
    Ok(Step { text, line, shown })
}

/// One command, with a job of this key if it is a call, and what it answers. `opened` is the name of the barrier that is open.
fn perform(
    alloc: Global,
    world: &mut World<KeyJob>,
    opened: &mut Option<u64>,
    command: &Command,
    key: u64,
) -> Result<Step, AllocError>
    requires world { IsWorld key_in IsKey world.old.core }
    requires rest { IsAtRest (state key_in world.old.core) }
    ensures kept { IsWorld key_in IsKey world.new.core }
    ensures rest { IsAtRest (state key_in world.new.core) }
    ensures show { is_show command.now ≡ true → IfOk result (λ step. step.line ≡ None) }
    ensures line { is_show command.now ≡ false → IfOk result (λ step.
        HasAnswer key (state key_in world.old.core) opened.old command.now step.line
        (state key_in world.new.core) opened.new) }
    ensures text { IfOk result (λ step. string_bytes step.text ≡ step_text step.line) }
{
    if is_show(command) {
        return step_of(alloc, world, None);
    }
    let line = answer(alloc, world, opened, command, job_of(command, key))?;
    step_of(alloc, world, Some(line))
}

/// Of each processor whether it has a hand.
fn hands(alloc: Global, world: &World<KeyJob>) -> Result<Vec<bool>, AllocError> {
    let mut hands = Vec::new(alloc);
    for cpu in 0..world.processors() {
        hands.push(world.has_hand(cpu))?;
    }
    Ok(hands)
}

/// The groups that have a part.
fn groups(alloc: Global, world: &World<KeyJob>) -> Result<Vec<u64>, AllocError>
    requires { IsWorld key_in IsKey world.now.core }
{
    let mut groups = Vec::new(alloc);
    for group in 0..world.processors() {
        if world.has_group(group) {
            groups.push(group)?;
        }
    }
    Ok(groups)
}

/// Runs the first [`MOST_STEPS`] commands of the setup's script.
///
/// # Errors
///
/// Want of memory.
pub fn play(alloc: Global, setup: &Setup) -> Result<Run, AllocError>
    ensures commands { IfOk result (λ run. run.commands ≡ vec_len setup.now.script) }
{
    let mut world = World::new(alloc, setup.shape)?;
    let mut steps = Vec::new(alloc);
    let mut opened = None;
    for command in setup.script.iter().take(MOST_STEPS) {
        let key = steps.len() as u64;
        steps.push(perform(alloc, &mut world, &mut opened, command, key)?)?;
    }
    Ok(Run {
        hands: hands(alloc, &world)?,
        groups: groups(alloc, &world)?,
        steps,
        commands: setup.script.len(),
    })
}
