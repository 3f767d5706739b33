//! Phases as they are written down: lines that say what each thread does, one after another.

use crate::opening::{Work, made_job};
use crate::phases::phase::{Act, Move, Phase, Step};
use crate::phases::signal::{Flag, Signal, raise, sees};
use rcu_jobs::Ticket;
use std::alloc::Global;
use std::process::Abort;
use std::sync::Arc;
use std::sync::atomic::AtomicU64;

/// A line of a phase.
#[derive(Clone, Copy)]
pub(crate) enum Line {
    /// The next phase begins.
    Next,
    /// Processor 0 makes a call at a moment, of a job of this key.
    Call(u64, u64),
    /// Processor 0 makes a call of a job of this key, which raises the first flag and looks for the second. It gives 1 where it
    /// saw that raised, else 0.
    CallWaiting(u64),
    /// Processor 0 reports.
    Report,
    /// Processor 0 ticks so often.
    Tick(u64),
    /// Processor 0 goes on once the first flag is raised.
    Await,
    /// Processor 0 raises the second flag.
    Raise,
    /// All groups take so many turns.
    Groups(u64),
    /// All hands take so many turns.
    Hands(u64),
    /// The driver takes a turn.
    Drive,
    /// Control asks that processor 0 be local.
    Deoffload,
    /// Control opens a barrier with the ticket of the first callback of processor 0.
    Open,
    /// Control goes on once the first flag is raised.
    AwaitToPoll,
    /// Control polls so often.
    Poll(u64),
    /// Control raises the second flag.
    RaisePolled,
}

/// The two flags of a row: the first is raised by a job that runs, and the second by who waits for it.
#[derive(Drop)]
struct Flags {
    running: Flag,
    seen: Flag,
}

/// A flag that isn't raised.
fn new_flag(rt: &impl Abort, alloc: Global) -> Flag {
    Arc::new(alloc, AtomicU64::new(0)).expect(rt, "memory")
}

/// The same flag, once more.
fn another(rt: &impl Abort, flag: &Flag) -> Flag {
    Arc::try_clone(flag).expect(rt, "a flag")
}

/// A job that raises the first flag and looks for the second.
fn waiting_job(rt: &impl Abort, alloc: Global, key: u64, flags: &Flags) -> Work {
    let running = another(rt, &flags.running);
    let seen = another(rt, &flags.seen);
    let call = Box::new(alloc, move || {
        raise(&running);
        u64::from(sees(&seen))
    });
    Work::new(key, call.ok().expect(rt, "memory"))
}

/// What processor 0 does next.
fn add_act(rt: &impl Abort, phase: &mut Phase<Work>, act: Act<Work>) {
    let step = Step::On { cpu: 0, act };
    phase.steps.push(step).expect(rt, "memory");
}

/// Processor 0 makes a call of this job next.
fn add_call(rt: &impl Abort, phase: &mut Phase<Work>, moment: u64, job: Work) {
    add_act(rt, phase, Act::Call { moment, job });
}

/// Processor 0 ticks so often next.
fn add_ticks(rt: &impl Abort, phase: &mut Phase<Work>, many: u64) {
    for _ in 0..many {
        add_act(rt, phase, Act::Tick { moment: 0 });
    }
}

/// What the driver and control do next.
fn add_move(rt: &impl Abort, phase: &mut Phase<Work>, next: Move) {
    phase.moves.push(next).expect(rt, "memory");
}

/// Control polls so often next.
fn add_polls(rt: &impl Abort, phase: &mut Phase<Work>, many: u64) {
    for _ in 0..many {
        add_move(rt, phase, Move::Poll);
    }
}

/// Control opens a barrier next, with the ticket of the first callback.
fn add_open(rt: &impl Abort, alloc: Global, phase: &mut Phase<Work>) {
    let tickets = vec![in alloc; Ticket { cpu: 0, number: 0 }];
    add_move(rt, phase, Move::Open(tickets.expect(rt, "memory")));
}

/// Between the steps of processor 0 a flag is looked at or raised.
fn add_sign(rt: &impl Abort, phase: &mut Phase<Work>, signal: Signal) {
    phase.steps.push(Step::Sign(signal)).expect(rt, "memory");
}

/// Adds a line to the phase that it belongs to.
fn add_line(rt: &impl Abort, alloc: Global, flags: &Flags, phase: &mut Phase<Work>, line: Line) {
    match line {
        Line::Next => {}
        Line::Call(moment, key) => add_call(rt, phase, moment, made_job(rt, alloc, key)),
        Line::CallWaiting(key) => add_call(rt, phase, 0, waiting_job(rt, alloc, key, flags)),
        Line::Report => add_act(rt, phase, Act::Report),
        Line::Tick(many) => add_ticks(rt, phase, many),
        Line::Await => add_sign(rt, phase, Signal::Await(another(rt, &flags.running))),
        Line::Raise => add_sign(rt, phase, Signal::Raise(another(rt, &flags.seen))),
        Line::Groups(turns) => phase.group_turns = turns,
        Line::Hands(turns) => phase.hand_turns = turns,
        Line::Drive => add_move(rt, phase, Move::Drive),
        Line::Deoffload => add_move(rt, phase, Move::Deoffload(0)),
        Line::Open => add_open(rt, alloc, phase),
        Line::AwaitToPoll => {
            add_move(
                rt,
                phase,
                Move::Sign(Signal::Await(another(rt, &flags.running))),
            )
        }
        Line::Poll(many) => add_polls(rt, phase, many),
        Line::RaisePolled => {
            add_move(
                rt,
                phase,
                Move::Sign(Signal::Raise(another(rt, &flags.seen))),
            )
        }
    }
}

/// Adds a phase in which nothing is done yet.
fn add_phase(rt: &impl Abort, alloc: Global, phases: &mut Vec<Phase<Work>>) {
    phases.push(Phase::new(alloc)).expect(rt, "memory");
}

/// The phases of these lines.
pub(crate) fn phases_of(rt: &impl Abort, alloc: Global, lines: &[Line]) -> Vec<Phase<Work>> {
    let flags = Flags {
        running: new_flag(rt, alloc),
        seen: new_flag(rt, alloc),
    };
    let mut phases = Vec::new(alloc);
    add_phase(rt, alloc, &mut phases);
    for line in lines {
        if let Line::Next = *line {
            add_phase(rt, alloc, &mut phases);
        }
        let phase = phases.last_mut().expect(rt, "a phase");
        add_line(rt, alloc, &flags, phase, *line);
    }
    phases
}
