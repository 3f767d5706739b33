//! The scenario of the running parts, all of which one thread drives.

ghost use Rattle.std.specs.Prelude.{◌≡◌, All, IfErr, IfOk};
ghost use Rattle.std.specs.List.{AllZip};
ghost use Rattle.rcu_part_control.specs.Parts.{SameControl};
ghost use Rattle.check_memory.specs.Answers.{refused_as};
ghost use Rattle.check_memory.specs.Driven.{AreDriven};
ghost use Rattle.check_memory.specs.Works.{IsOwnKey, key_of_work};
ghost use Rattle.check_memory.specs.declared.machine.Answer.TheVariants.{Accepted};
ghost use Rattle.rcu_part_group.specs.Groups.{SameGroup};
ghost use Rattle.rcu_part_hand.specs.Hands.{IsSoundHand, SameHand};
ghost use Rattle.rcu_part_processor.specs.Processors.{IsSound, SameProcessor};

use crate::growth::{Broken, Growth, Refusals, refused_again};
use crate::machine::{Answer, Machine, Shown, check_closed, shape};
use crate::script::Action;
use crate::steps::{Progress, shown};
use crate::work::Work;
use rcu_jobs::{Closed, Refused, Ticket};
use rcu_part_control::Control;
use rcu_parts::{Group, Hand, Parts, Processor, close, open};
use std::alloc::Global;

/// What a call of either kind answered.
pub fn called(answer: Result<Ticket, Refused<Work>>) -> Answer
    ensures accepted { IfOk answer (λ ticket. result ≡ Accepted ticket) }
    ensures refused { IfErr answer (λ refused. result ≡ refused_as refused) }
{
    match answer {
        Ok(ticket) => Answer::Accepted(ticket),
        Err(Refused::Memory(job)) => Answer::Refused(job.key),
        Err(Refused::Limit(_) | Refused::Closed(_)) => Answer::Other,
    }
}

/// A call of a processor.
fn make_one(processor: &mut Processor<Work>, action: Action, moment: u64, key: u64) -> Answer
    ensures same { SameProcessor processor.old.state processor.new.state }
    ensures sound { IsSound key_of_work IsOwnKey processor.old.state
        → IsSound key_of_work IsOwnKey processor.new.state }
{
    match action {
        Action::Call(_) => called(processor.call_rcu(moment, Work { key })),
        Action::Lazy(_) => called(processor.call_rcu_lazy(moment, Work { key })),
        Action::Report(_) => Answer::Reported(processor.quiescent().is_some()),
        Action::Tick(_) => {
            let ticked = processor.tick(moment);
            Answer::Ran {
                ran: ticked.ran,
                stop: ticked.stop,
            }
        }
        _ => Answer::Other,
    }
}

/// A call of the processor at this place.
fn make_at(
    processors: &mut Vec<Processor<Work>>,
    place: usize,
    action: Action,
    moment: u64,
    key: u64,
) -> Answer
    ensures same { AllZip (λ p q. SameProcessor p.state q.state) processors.old.items
        processors.new.items }
    ensures sound { All (λ p. IsSound key_of_work IsOwnKey p.state) processors.old.items
        → All (λ p. IsSound key_of_work IsOwnKey p.state) processors.new.items }
{
    if place >= processors.len() {
        return Answer::Other;
    }
    make_one(&mut processors[place], action, moment, key)
}

/// A turn of the only group.
fn turn_group(groups: &mut Vec<Group<Work>>) -> Answer
    ensures { AllZip (λ g h. SameGroup g.state h.state) groups.old.items groups.new.items }
{
    if groups.is_empty() {
        return Answer::Other;
    }
    Answer::Turned(groups[0].turn())
}

/// A turn of the only hand.
fn turn_hand(hands: &mut Vec<Hand<Work>>) -> Answer
    ensures same { AllZip (λ h i. SameHand h.state i.state) hands.old.items hands.new.items }
    ensures sound { All (λ h. IsSoundHand key_of_work IsOwnKey h.state) hands.old.items
        → All (λ h. IsSoundHand key_of_work IsOwnKey h.state) hands.new.items }
{
    if hands.is_empty() {
        return Answer::Other;
    }
    let turn = hands[0].turn();
    Answer::Ran {
        ran: turn.ran,
        stop: turn.stop,
    }
}

/// Asks the offloadable processor to be offloaded, or local.
fn ask(control: &mut Control, on: bool) -> Answer
    ensures { SameControl control.old control.new }
{
    let asked = if on {
        control.offload(1)
    } else {
        control.deoffload(1)
    };
    match asked {
        Ok(()) => Answer::Done,
        Err(_) => Answer::Other,
    }
}

/// Opens a barrier and, where `polls`, polls it.
fn open_barrier(control: &mut Control, polls: bool) -> Answer
    ensures { SameControl control.old control.new }
{
    let Ok(mut barrier) = control.barrier(&[]) else {
        return Answer::Other;
    };
    if !polls {
        return Answer::Done;
    }
    Answer::Polled(barrier.poll(control).is_some())
}

impl Machine for Parts<Work> {
    ghost holds = { AreDriven };

    fn make(&mut self, action: Action, moment: u64, key: u64) -> Answer {
        match action {
            Action::Call(cpu) | Action::Lazy(cpu) | Action::Report(cpu) | Action::Tick(cpu) => {
                make_at(&mut self.processors, cpu.place(), action, moment, key)
            }
            Action::Group => turn_group(&mut self.groups),
            Action::Hand => turn_hand(&mut self.hands),
            Action::Drive => {
                self.driver.turn();
                Answer::Done
            }
            Action::Ask(on) => ask(&mut self.control, on),
            Action::Barrier => open_barrier(&mut self.control, false),
            Action::Poll => open_barrier(&mut self.control, true),
            Action::Shut => Answer::Shut(self.control.shut()),
        }
    }

    fn shown(&self) -> Option<Shown> {
        let [local, offloadable] = self.processors.as_slice() else {
            return None;
        };
        let [group] = self.groups.as_slice() else {
            return None;
        };
        Some(Shown {
            local: local.lists(),
            offloadable: offloadable.lists(),
            member: group.lists(1)?,
        })
    }
}

/// Opens the parts.
fn open_parts(alloc: Global, refusals: &mut Refusals) -> Result<Parts<Work>, Broken>
    ensures driven { IfOk result AreDriven }
{
    let shape = shape().ok_or(Broken {
        at: Growth::Open,
        what: "no shape",
    })?;
    if let Ok(parts) = open(alloc, &shape.for_parts()) {
        return Ok(parts);
    }
    refusals.note(Growth::Open)?;
    match open(alloc, &shape.for_parts()) {
        Ok(parts) => Ok(parts),
        Err(_) => Err(refused_again(Growth::Open)),
    }
}

/// Closes the parts, or tries it again.
fn close_parts(
    alloc: Global,
    refusals: &mut Refusals,
    parts: Parts<Work>,
) -> Result<Closed<Work>, Broken>
    requires { AreDriven parts }
{
    let closing = match close(alloc, parts) {
        Ok(closed) => return Ok(closed),
        Err(closing) => closing,
    };
    refusals.note(Growth::Close)?;
    match closing.again(alloc) {
        Ok(closed) => Ok(closed),
        Err(_) => Err(refused_again(Growth::Close)),
    }
}

/// Each call of the table. Answers what the parts show then.
fn perform_all(progress: &mut Progress, parts: &mut Parts<Work>) -> Result<Shown, Broken>
    requires { AreDriven parts.old }
    ensures driven { AreDriven parts.new }
{
    progress.perform_all(parts)?;
    shown(parts)
}

/// The scenario: `open`, each call of the table, `close`.
pub fn play_parts(alloc: Global) -> Result<Refusals, Broken> {
    let mut refusals = Refusals::new();
    let mut parts = open_parts(alloc, &mut refusals)?;
    let mut progress = Progress::new(refusals);
    let last = perform_all(&mut progress, &mut parts)?;
    let closed = close_parts(alloc, &mut progress.refusals, parts)?;
    check_closed(Growth::Close, &closed, &last)?;
    Ok(progress.refusals)
}
