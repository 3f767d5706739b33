//! What stands after a call: docs/specification/surface.md, "After want of memory".

ghost use Rattle.std.specs.Prelude.{◌≡◌, IfOk, Some};

use crate::growth::{Broken, Growth, stands};
use crate::machine::{Answer, Cpu, Shown, accepted, bypass, done, length, mode};
use crate::script::Action;
use crate::steps::next_key;
use rcu_jobs::{GroupTurn, Mode, Stop, Ticket};

/// A call, with what the runtime showed before and after it.
#[derive(Clone, Copy)]
pub struct Step {
    pub action: Action,
    pub before: Shown,
    pub answer: Answer,
    pub after: Shown,
    /// How many callbacks the group held in batches before.
    pub held: u64,
    /// Whether the offloadable processor was last asked to be offloaded.
    pub asked_on: bool,
    /// The growth that was refused, once that is known.
    pub refused: Option<Growth>,
}

impl Step {
    /// Whether the call, made again after this growth was refused, goes on where it stopped.
    fn goes_on(&self, growth: Growth) -> bool {
        match (growth, self.answer) {
            (Growth::TickRecord | Growth::HandRecord, Answer::Ran { ran, .. }) => ran > 0,
            (Growth::GroupPut, Answer::Turned(turn)) => {
                // (the batch is put first, alone)
                turn.gave == self.held && length(self.after.member) == length(self.before.member)
            }
            (Growth::Quiescent, Answer::Reported(counted)) => counted,
            _ => true,
        }
    }

    fn is_unchanged(&self) -> bool {
        self.before == self.after
    }
}

/// Checks what stands after a call, and says which growth was refused, if one was.
pub fn check(step: Step) -> Result<Step, Broken>
    ensures same { IfOk result (λ s. s ≡ record step { refused = s.refused }) }
{
    let refused = check_call(&step)?;
    Ok(Step { refused, ..step })
}

/// Checks what stands after a call. Answers the growth that was refused, if one was.
fn check_call(step: &Step) -> Result<Option<Growth>, Broken> {
    match (step.action, step.answer) {
        (_, Answer::Memory(growth)) => check_memory(step, growth),
        (Action::Call(cpu), Answer::Accepted(ticket)) => {
            check_accepted(step, Growth::CallRcu, cpu, ticket)
        }
        (Action::Lazy(cpu), Answer::Accepted(ticket)) => {
            check_accepted(step, Growth::CallRcuLazy, cpu, ticket)
        }
        (Action::Call(_), Answer::Refused(key)) => check_refused(step, Growth::CallRcu, key),
        (Action::Lazy(_), Answer::Refused(key)) => check_refused(step, Growth::CallRcuLazy, key),
        (Action::Tick(Cpu::Local), Answer::Ran { ran, stop }) => check_local(step, ran, stop),
        (Action::Tick(Cpu::Offloadable), Answer::Ran { ran, stop }) => check_tick(step, ran, stop),
        (Action::Hand, Answer::Ran { stop, .. }) => check_hand(step, stop),
        (Action::Group, Answer::Turned(turn)) => check_group(step, turn),
        _ => check_other(step),
    }
}

/// Checks that a call, made again after this growth was refused, isn't refused once more, and goes on where it stopped.
pub fn check_again(again: &Step, growth: Growth) -> Result<(), Broken> {
    stands(again.refused.is_none(), growth, "refused again")?;
    stands(
        again.goes_on(growth),
        growth,
        "the next turn doesn't go on where it stopped",
    )
}

/// A call that answered want of memory, and hands nothing back.
fn check_memory(step: &Step, growth: Growth) -> Result<Option<Growth>, Broken>
    ensures refused { IfOk result (λ refused. refused ≡ Some growth) }
{
    stands(step.is_unchanged(), growth, "a refused call changed a list")?;
    Ok(Some(growth))
}

/// A call whose job came back.
fn check_refused(step: &Step, growth: Growth, key: u64) -> Result<Option<Growth>, Broken>
    ensures refused { IfOk result (λ refused. refused ≡ Some growth) }
{
    let same_job = key == next_key(step.action, &step.before);
    stands(same_job, growth, "another job came back")?;
    stands(step.is_unchanged(), growth, "a refused call changed a list")?;
    Ok(Some(growth))
}

/// A call that was accepted. Each has a moment of its own, so a plain callback releases the bypass list, unless the lane has
/// no room for it.
fn check_accepted(
    step: &Step,
    growth: Growth,
    cpu: Cpu,
    ticket: Ticket,
) -> Result<Option<Growth>, Broken> {
    let (old, new) = (step.before.of(cpu), step.after.of(cpu));
    let number = accepted(old);
    let named = (ticket.cpu, ticket.number) == (cpu.number(), number);
    let counted = accepted(new) == number.wrapping_add(1);
    stands(named, growth, "another ticket")?;
    stands(counted, growth, "another count")?;
    if mode(old) != Mode::Offloaded {
        let longer = length(new) == length(old).wrapping_add(1);
        stands(longer, growth, "the callback isn't in the own list")?;
        return Ok(None);
    }
    if growth == Growth::CallRcu && bypass(new) == 0 {
        return Ok(None);
    }
    let kept = bypass(new) == bypass(old).wrapping_add(1);
    stands(kept, growth, "the callback isn't in the bypass list")?;
    if growth == Growth::CallRcu {
        return Ok(Some(Growth::CallPut));
    }
    Ok(None)
}

/// A tick of the local processor.
fn check_local(step: &Step, ran: u64, stop: Stop) -> Result<Option<Growth>, Broken> {
    let (old, new) = (step.before.local, step.after.local);
    let left = length(new).wrapping_add(ran) == length(old);
    stands(left, Growth::TickRecord, "a callback is lost")?;
    match stop {
        Stop::Memory => {
            stands(
                done(new) > 0,
                Growth::TickRecord,
                "the callback isn't first",
            )?;
            Ok(Some(Growth::TickRecord))
        }
        Stop::Turn | Stop::Again => Err(Broken {
            at: Growth::TickRecord,
            what: "no other part claims",
        }),
        Stop::Limit | Stop::Empty => Ok(None),
    }
}

/// A tick of the offloadable processor, late for any bypass list.
fn check_tick(step: &Step, ran: u64, stop: Stop) -> Result<Option<Growth>, Broken> {
    let (old, new) = (step.before.offloadable, step.after.offloadable);
    let left = length(new).wrapping_add(ran) == length(old);
    let others = (step.before.local, step.before.member) == (step.after.local, step.after.member);
    stands(others, Growth::TickPut, "a tick changed another list")?;
    if stop == Stop::Memory {
        let first = left && done(new) > 0;
        stands(first, Growth::TickRecord, "the callback isn't first")?;
        return Ok(Some(Growth::TickRecord));
    }
    if bypass(new) > 0 {
        return check_put(step);
    }
    check_switch(step, left)
}

/// A tick whose batch came back: the bypass list is what it was, or what was poured into it.
fn check_put(step: &Step) -> Result<Option<Growth>, Broken> {
    let (old, new) = (step.before.offloadable, step.after.offloadable);
    let has = (mode(new), bypass(new), length(new));
    let (expected, what) = if mode(old) == Mode::Offloaded {
        (
            (mode(old), bypass(old), length(old)),
            "the batch isn't the bypass list again",
        )
    } else {
        (
            (Mode::Offloaded, length(old), 0),
            "what was poured isn't the bypass list",
        )
    };
    stands(has == expected, Growth::TickPut, what)?;
    Ok(Some(Growth::TickPut))
}

/// A tick that left nothing in the bypass list: it heeded what was asked of it, unless the own list could not be poured.
fn check_switch(step: &Step, left: bool) -> Result<Option<Growth>, Broken> {
    let new = step.after.offloadable;
    if mode(new) == Mode::Offloading {
        stands(left, Growth::TickPour, "something moved")?;
        return Ok(Some(Growth::TickPour));
    }
    let heeded = if step.asked_on {
        mode(new) == Mode::Offloaded && length(new) == 0
    } else {
        left && mode(new) != Mode::Offloaded
    };
    stands(heeded, Growth::TickPour, "the switch isn't heeded")?;
    Ok(None)
}

/// A turn of the group: what it took, or had held, is in its list, held or given.
fn check_group(step: &Step, turn: GroupTurn) -> Result<Option<Growth>, Broken> {
    let GroupTurn { took, gave, held } = turn;
    let (old, new) = (step.before.member, step.after.member);
    let had = length(old).wrapping_add(step.held).wrapping_add(took);
    let has = length(new).wrapping_add(held).wrapping_add(gave);
    let processors = (step.before.local, step.before.offloadable);
    let others = processors == (step.after.local, step.after.offloadable);
    stands(had == has, Growth::GroupPut, "a callback is lost")?;
    stands(others, Growth::GroupPut, "a turn changed another list")?;
    if held > 0 && took > 0 {
        return Ok(Some(Growth::GroupJoin));
    }
    if held > 0 {
        return Ok(Some(Growth::GroupPut));
    }
    if done(new) > 0 && gave == 0 {
        return Ok(Some(Growth::GroupBatch));
    }
    Ok(None)
}

/// A turn of the hand.
fn check_hand(step: &Step, stop: Stop) -> Result<Option<Growth>, Broken> {
    stands(
        step.is_unchanged(),
        Growth::HandRecord,
        "a turn changed another list",
    )?;
    if stop == Stop::Memory {
        return Ok(Some(Growth::HandRecord));
    }
    Ok(None)
}

/// A call that changes no list.
fn check_other(step: &Step) -> Result<Option<Growth>, Broken> {
    let (growth, expected) = match (step.action, step.answer) {
        (Action::Report(_), Answer::Reported(_)) => (Growth::Quiescent, true),
        (Action::Drive, Answer::Done) => (Growth::DriverTurn, true),
        (Action::Ask(_), Answer::Done) => (Growth::TickPour, true),
        (Action::Barrier, Answer::Done) => (Growth::Barrier, true),
        (Action::Poll, Answer::Polled(passed)) => (Growth::Poll, passed),
        (Action::Shut, Answer::Shut(counts)) => {
            let all = [accepted(step.after.local), accepted(step.after.offloadable)];
            (Growth::Shut, counts.of_processors() == all.as_slice())
        }
        _ => (Growth::Open, false),
    };
    stands(expected, growth, "another answer")?;
    stands(step.is_unchanged(), growth, "the call changed a list")?;
    Ok(None)
}
