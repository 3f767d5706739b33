//! Each check of a call is handed steps that it must refuse, one for each thing that it says.

use crate::checks::{Step, check, check_again};
use crate::growth::{Broken, Growth};
use crate::machine::{Answer, Cpu, Shown};
use crate::script::Action;
use rcu_jobs::{GroupTurn, Lists, Mode, Stop, Ticket};
use std::io;

/// What a processor shows, with callbacks in the first and in the last segment of its own list.
fn cpu(mode: Mode, accepted: u64, bypass: u64, done: u64, next: u64) -> Lists {
    Lists::Cpu {
        mode,
        accepted,
        bypass,
        lengths: [done, 0, 0, next],
        numbers: [0, 0],
    }
}

/// A local processor that accepted so many, of which so many are left, all of them done.
fn local(accepted: u64, done: u64) -> Lists {
    cpu(Mode::Local, accepted, 0, done, 0)
}

/// An offloaded processor that accepted so many, the last of which are in its bypass list.
fn offloaded(accepted: u64, bypass: u64) -> Lists {
    cpu(Mode::Offloaded, accepted, bypass, 0, 0)
}

/// The list of a group, with so many done.
fn member(done: u64) -> Lists {
    Lists::Folk {
        lengths: [done, 0, 0, 0],
        numbers: [0, 0],
    }
}

/// What is shown before each step: three callbacks of the local processor are left of five, and of the offloadable one two are
/// in the bypass list, and one with the group.
fn shown() -> Shown {
    Shown {
        local: local(5, 3),
        offloadable: offloaded(5, 2),
        member: member(1),
    }
}

/// A step between what is shown here.
fn between(before: Shown, action: Action, answer: Answer, after: Shown) -> Step {
    Step {
        action,
        before,
        answer,
        after,
        held: 0,
        asked_on: true,
        refused: None,
    }
}

/// A step that changes nothing.
fn idle(action: Action, answer: Answer) -> Step {
    between(shown(), action, answer, shown())
}

/// A step after which the local processor shows this.
fn of_local(action: Action, answer: Answer, after: Lists) -> Step {
    let before = shown();
    between(
        before,
        action,
        answer,
        Shown {
            local: after,
            ..before
        },
    )
}

/// A step by which what the offloadable processor shows becomes this.
fn of_offloadable(action: Action, answer: Answer, old: Lists, new: Lists) -> Step {
    let before = Shown {
        offloadable: old,
        ..shown()
    };
    between(
        before,
        action,
        answer,
        Shown {
            offloadable: new,
            ..before
        },
    )
}

/// The answer of a call that was accepted as this one of the processor.
fn accepted(cpu: u64, number: u64) -> Answer {
    Answer::Accepted(Ticket { cpu, number })
}

/// The answer of a turn that ran so many.
fn ran(ran: u64, stop: Stop) -> Answer {
    Answer::Ran { ran, stop }
}

/// The answer of a group's turn that gave so many.
fn gave(gave: u64) -> Answer {
    Answer::Turned(GroupTurn {
        took: 0,
        gave,
        held: 0,
    })
}

/// Calls that were refused, and changed something or gave another job back.
fn refused_calls() -> [Step; 3] {
    let call = Action::Call(Cpu::Local);
    let want = Answer::Memory(Growth::Quiescent);
    [
        of_local(Action::Report(Cpu::Local), want, local(5, 2)),
        idle(call, Answer::Refused(4)),
        of_local(call, Answer::Refused(5), local(5, 2)),
    ]
}

/// Calls that were accepted, and say so wrongly, or whose callback isn't where it should be.
fn accepted_calls() -> [Step; 4] {
    let call = Action::Call(Cpu::Local);
    let lazy = Action::Lazy(Cpu::Offloadable);
    [
        of_local(call, accepted(0, 4), local(6, 4)),
        of_local(call, accepted(0, 5), local(5, 4)),
        of_local(call, accepted(0, 5), local(6, 3)),
        of_offloadable(lazy, accepted(1, 5), offloaded(5, 2), offloaded(6, 2)),
    ]
}

/// Ticks of the local processor, which lose a callback, say that the next one has no room for its record where none is
/// there, or that another part claims.
fn local_ticks() -> [Step; 3] {
    let tick = Action::Tick(Cpu::Local);
    [
        idle(tick, ran(1, Stop::Limit)),
        of_local(tick, ran(3, Stop::Memory), local(5, 0)),
        idle(tick, ran(0, Stop::Turn)),
    ]
}

/// Ticks of the offloadable processor, which change another list, want memory for the record of no callback, lose one of the
/// batch that came back, of what was poured, or of what could not be poured, or don't heed what was asked: to offload, or not to.
fn ticks() -> [Step; 7] {
    let tick = Action::Tick(Cpu::Offloadable);
    let none = ran(0, Stop::Empty);
    let offloading = cpu(Mode::Offloading, 5, 0, 0, 3);
    let kept = of_offloadable(tick, none, offloaded(5, 0), offloaded(5, 0));
    [
        of_local(tick, none, local(5, 2)),
        idle(tick, ran(0, Stop::Memory)),
        of_offloadable(tick, none, offloaded(5, 2), offloaded(5, 1)),
        of_offloadable(tick, none, offloading, offloaded(5, 1)),
        of_offloadable(tick, none, offloading, cpu(Mode::Offloading, 5, 0, 0, 2)),
        of_offloadable(tick, none, offloading, cpu(Mode::Local, 5, 0, 0, 3)),
        Step {
            asked_on: false,
            ..kept
        },
    ]
}

/// Turns of the group and of the hand, which lose a callback or change another list.
fn turns() -> [Step; 3] {
    [
        idle(Action::Group, gave(1)),
        of_local(Action::Group, gave(0), local(5, 2)),
        of_local(Action::Hand, ran(0, Stop::Empty), local(5, 2)),
    ]
}

/// Calls that change no list, and answer something else or change one.
fn other_calls() -> [Step; 2] {
    [
        idle(Action::Poll, Answer::Polled(false)),
        of_local(Action::Drive, Answer::Done, local(5, 2)),
    ]
}

/// Calls that were made again after a growth was refused, which is refused once more, or which don't go on where they stopped.
fn stuck() -> [(Growth, Step); 4] {
    let report = Action::Report(Cpu::Local);
    let again = Step {
        refused: Some(Growth::Quiescent),
        ..idle(report, Answer::Reported(true))
    };
    let none = ran(0, Stop::Empty);
    let put = Step {
        held: 1,
        ..idle(Action::Group, gave(0))
    };
    [
        (Growth::Quiescent, again),
        (Growth::Quiescent, idle(report, Answer::Reported(false))),
        (Growth::HandRecord, idle(Action::Hand, none)),
        (Growth::GroupPut, put),
    ]
}

/// Says what a check says of a step.
fn tell(rt: &HostRuntime, checked: Result<(), Broken>) -> io::Result<()> {
    match checked {
        Ok(()) => println!(rt; "stands"),
        Err(broken) => println!(rt; "{broken}"),
    }
}

/// Says what the checks say of these steps.
fn tell_all(rt: &HostRuntime, steps: &[Step]) -> io::Result<()> {
    for step in steps {
        tell(rt, check(*step).map(|_| ()))?;
    }
    Ok(())
}

/// Says what the checks say of each step that they must refuse, a line each; of one that they let through it is `stands`.
///
/// # Errors
///
/// That of a failed write.
pub fn tell_flawed(rt: &HostRuntime) -> io::Result<()> {
    tell_all(rt, &refused_calls())?;
    tell_all(rt, &accepted_calls())?;
    tell_all(rt, &local_ticks())?;
    tell_all(rt, &ticks())?;
    tell_all(rt, &turns())?;
    tell_all(rt, &other_calls())?;
    for (growth, step) in &stuck() {
        tell(rt, check_again(step, *growth))?;
    }
    Ok(())
}
