//! The commands of a script: the call of a part that each makes, and the line of its answer.

ghost use Rattle.std.specs.Prelude.{◌≡◌, ◌≢◌, ◌<◌, ◌≤◌, All, IfErr, IfNone, IfOk, IfSome, vec_capacity, vec_len};
ghost use Rattle.std.specs.List.{insert};
ghost use Rattle.rcu_part_control.specs.Parts.{control_board, SameDriver};
ghost use Rattle.rcu_part_processor.specs.Processors.{KeepsSound, SameProcessor};
ghost use Rattle.rcuo_replay.specs.Changes.{AmongProcessors, KeepSoundHands, OnControl, SameGroups, SameHands};
ghost use Rattle.rcuo_replay.specs.Outcomes.{Calls, CallsOne, IsCall, IsGroup, IsGroupAt, IsHand, IsHandAt, IsLeave, IsOfBoard, IsQuiet, IsReturn, IsTick, OpensBarrier, PollsBarrier, ShownIn, ShowsFrom, ShowsOne, ShutsAll, Switches, TellsOne, TicksOne, TurnsDriver};
ghost use Rattle.rcuo_replay.specs.Presences.{KeepsPresence};
ghost use Rattle.rcuo_script.specs.Faults.{IsWantOfMemory, Outputs};
ghost use Rattle.rcuo_script.specs.Scripts.{Writes};

use crate::presence::{Presence, ScriptProcessor, leave_one, lists_of, return_one};
use rcu_jobs::{Job, Lists, Refused, Ticket};
use rcu_parts::{Barrier, Control, Driver, Group, Hand, Processor};
use rcu_status::counts;
use rcuo_script::{Fault, Line, Verb, write_lists};
use std::alloc::Global;
use std::io::Write;

/// A call of either kind.
fn call_one<J: Job>(
    processor: &mut Processor<J>,
    verb: Verb,
    moment: u64,
    job: J,
) -> Result<Ticket, Refused<J>>
    ensures calls { Calls J.key_of verb moment job result processor.old processor.new }
    ensures same { SameProcessor processor.old.state processor.new.state }
    ensures sound { KeepsSound J.key_of J.gives processor.old.state processor.new.state }
{
    match verb {
        Verb::Lazy => processor.call_rcu_lazy(moment, job),
        _ => processor.call_rcu(moment, job),
    }
}

/// A call of this processor, which drops its job where it is refused.
fn call_here<J: Job>(
    processor: &mut ScriptProcessor<J>,
    verb: Verb,
    cpu: u64,
    moment: u64,
    job: J,
) -> Line
    ensures line { CallsOne J.key_of verb cpu moment job result processor.old processor.new }
    ensures kept { KeepsPresence J.key_of J.gives processor.old processor.new }
{
    let Presence::Here(processor) = processor else {
        return Line::away(verb, cpu);
    };
    match call_one(processor, verb, moment, job) {
        Ok(ticket) => Line::Number {
            verb,
            cpu,
            number: ticket.number,
        },
        Err(refused) => Line::Refused {
            verb,
            place: cpu,
            refusal: refused.number(),
        },
    }
}

/// `call` and `lazy`: the job goes in, or is dropped where it is refused.
pub fn call<J: Job>(
    processors: &mut Vec<ScriptProcessor<J>>,
    verb: Verb,
    cpu: u64,
    moment: u64,
    job: J,
) -> Line
    ensures line { AmongProcessors J.key_of J.gives
        (IsCall J.key_of verb cpu moment job result) processors.old.items processors.new.items }
{
    let place = cpu as usize;
    if place >= processors.len() {
        return Line::no_such(verb, cpu);
    }
    call_here(&mut processors[place], verb, cpu, moment, job)
}

/// A report of this processor.
fn quiet_here<J: Job>(processor: &mut ScriptProcessor<J>, cpu: u64) -> Line
    ensures line { TellsOne cpu result processor.old processor.new }
    ensures kept { KeepsPresence J.key_of J.gives processor.old processor.new }
{
    let Presence::Here(processor) = processor else {
        return Line::away(Verb::Quiet, cpu);
    };
    match processor.quiescent() {
        Some(seq) => Line::Counted { cpu, seq },
        None => Line::Nothing { cpu },
    }
}

/// `quiet`: a report of a quiescent state.
pub fn quiet<J: Job>(processors: &mut Vec<ScriptProcessor<J>>, cpu: u64) -> Line
    ensures line { AmongProcessors J.key_of J.gives (IsQuiet cpu result)
        processors.old.items processors.new.items }
{
    let place = cpu as usize;
    if place >= processors.len() {
        return Line::no_such(Verb::Quiet, cpu);
    }
    quiet_here(&mut processors[place], cpu)
}

/// A turn of this processor.
fn tick_here<J: Job>(processor: &mut ScriptProcessor<J>, cpu: u64, moment: u64) -> Line
    ensures line { TicksOne cpu moment result processor.old processor.new }
    ensures kept { KeepsPresence J.key_of J.gives processor.old processor.new }
{
    let Presence::Here(processor) = processor else {
        return Line::away(Verb::Tick, cpu);
    };
    let ticked = processor.tick(moment);
    Line::Ran {
        verb: Verb::Tick,
        cpu,
        ran: ticked.ran,
    }
}

/// `tick`: a processor's turn.
pub fn tick<J: Job>(processors: &mut Vec<ScriptProcessor<J>>, cpu: u64, moment: u64) -> Line
    ensures line { AmongProcessors J.key_of J.gives (IsTick cpu moment result)
        processors.old.items processors.new.items }
{
    let place = cpu as usize;
    if place >= processors.len() {
        return Line::no_such(Verb::Tick, cpu);
    }
    tick_here(&mut processors[place], cpu, moment)
}

/// Puts a processor that was taken out into its place again.
fn put_back<J: Job>(
    processors: &mut Vec<ScriptProcessor<J>>,
    place: usize,
    processor: ScriptProcessor<J>,
)
    requires place { place ≤ vec_len processors.old }
    requires room { vec_len processors.old < vec_capacity processors.old }
    ensures { processors.new.items ≡ insert processors.old.items place processor }
{
    // (where there is room it can't fail)
    processors.insert(place, processor).unwrap();
}

/// `leave`: the processor is away from now on. It is here still where its lane has no room for its bypass list.
pub fn leave<J: Job>(processors: &mut Vec<ScriptProcessor<J>>, cpu: u64) -> Line
    ensures line { AmongProcessors J.key_of J.gives (IsLeave cpu result)
        processors.old.items processors.new.items }
{
    let place = cpu as usize;
    if place >= processors.len() {
        return Line::no_such(Verb::Leave, cpu);
    }
    let (processor, line) = leave_one(processors.remove(place), cpu);
    put_back(processors, place, processor);
    line
}

/// `return`: the processor that was away is back.
pub fn come_back<J: Job>(processors: &mut Vec<ScriptProcessor<J>>, cpu: u64) -> Line
    ensures line { AmongProcessors J.key_of J.gives (IsReturn cpu result)
        processors.old.items processors.new.items }
{
    let place = cpu as usize;
    if place >= processors.len() {
        return Line::no_such(Verb::Return, cpu);
    }
    let (processor, line) = return_one(processors.remove(place), cpu);
    put_back(processors, place, processor);
    line
}

/// `driver`: a turn of the driver.
pub fn driver(driver: &mut Driver) -> Line
    ensures line { TurnsDriver result driver.old driver.new }
    ensures same { SameDriver driver.old driver.new }
{
    Line::Driver(driver.turn())
}

/// Where the part of a group stands.
fn place_of_group<J: Job>(groups: &Vec<Group<J>>, number: u64) -> Option<usize>
    ensures found { IfSome result (λ place. IsGroupAt place number groups.now.items) }
    ensures none { IfNone result (All (λ g. g.state.group ≢ number) groups.now.items) }
{
    for place in 0..groups.len() {
        if groups[place].number() == number {
            return Some(place);
        }
    }
    None
}

/// `group`: a group's turn.
pub fn group<J: Job>(groups: &mut Vec<Group<J>>, number: u64) -> Line
    ensures line { IsGroup number result groups.old.items groups.new.items }
    ensures same { SameGroups groups.old.items groups.new.items }
{
    let Some(place) = place_of_group(groups, number) else {
        return Line::no_such(Verb::Group, number);
    };
    let turn = groups[place].turn();
    Line::Group {
        group: number,
        took: turn.took,
        gave: turn.gave,
    }
}

/// Where the part of a processor's hand stands.
fn place_of_hand<J: Job>(hands: &Vec<Hand<J>>, cpu: u64) -> Option<usize>
    ensures found { IfSome result (λ place. IsHandAt place cpu hands.now.items) }
    ensures none { IfNone result (All (λ h. h.state.hand.cpu ≢ cpu) hands.now.items) }
{
    for place in 0..hands.len() {
        if hands[place].cpu() == cpu {
            return Some(place);
        }
    }
    None
}

/// `hand`: the turn of a processor's hand. There are `n` processors.
pub fn hand<J: Job>(hands: &mut Vec<Hand<J>>, n: usize, cpu: u64) -> Line
    ensures line { IsHand n cpu result hands.old.items hands.new.items }
    ensures same { SameHands hands.old.items hands.new.items }
    ensures sound { KeepSoundHands J.key_of J.gives hands.old.items hands.new.items }
{
    let Some(place) = place_of_hand(hands, cpu) else {
        if cpu < n as u64 {
            return Line::not_offloadable(Verb::Hand, cpu);
        }
        return Line::no_such(Verb::Hand, cpu);
    };
    let turn = hands[place].turn();
    Line::Ran {
        verb: Verb::Hand,
        cpu,
        ran: turn.ran,
    }
}

/// `offload` and `deoffload`: asks for the switch.
pub fn switch(control: &mut Control, verb: Verb, cpu: u64) -> Line
    ensures line { OnControl (Switches verb cpu result) control.old control.new }
{
    let answer = match verb {
        Verb::Offload => control.offload(cpu),
        _ => control.deoffload(cpu),
    };
    match answer {
        Ok(()) => Line::Asked { verb, cpu },
        Err(fault) => Line::Refused {
            verb,
            place: cpu,
            refusal: fault.number(),
        },
    }
}

/// `barrier`: opens a barrier, in place of the one that was open.
pub fn barrier(control: &mut Control, opened: &mut Option<Barrier>) -> Line
    ensures line { OnControl (λ old new. OpensBarrier result old new opened.new)
        control.old control.new }
    ensures many { IsOfBoard (control_board control.new) opened.new }
{
    let Ok(barrier) = control.barrier(&[]) else {
        // (a barrier without tickets is never refused)
        unreachable!()
    };
    *opened = Some(barrier);
    Line::Opened
}

/// `poll`: asks whether the barrier that is open has passed. If it has, it is open no longer.
pub fn poll(control: &mut Control, opened: &mut Option<Barrier>) -> Line
    requires open { IsOfBoard (control_board control.old) opened.old }
    ensures line { OnControl (λ old new. PollsBarrier opened.old result old new opened.new)
        control.old control.new }
    ensures many { IsOfBoard (control_board control.new) opened.new }
{
    let Some(mut barrier) = *opened else {
        return Line::NoBarrier;
    };
    match barrier.poll(control) {
        None => Line::Waits,
        Some(_) => {
            *opened = None;
            Line::Passed
        }
    }
}

/// `shut`: shuts all processors.
pub fn shut(alloc: Global, control: &mut Control) -> Result<Line, Fault>
    ensures line { OnControl (λ old new. IfOk result (λ line. ShutsAll line old new))
        control.old control.new }
    ensures why { IfErr result IsWantOfMemory }
{
    let last = control.shut();
    Ok(Line::Shut(counts(alloc, &last)?))
}

/// What is shown of a processor by its group, if it has one.
fn shown_in<J: Job>(groups: &Vec<Group<J>>, cpu: u64) -> Option<Lists>
    ensures { ShownIn cpu result groups.now.items }
{
    for place in 0..groups.len() {
        if let Some(lists) = groups[place].lists(cpu) {
            return Some(lists);
        }
    }
    None
}

/// The lines of one processor.
fn show_one<J: Job, W: Write>(
    alloc: Global,
    cpu: u64,
    processor: &ScriptProcessor<J>,
    groups: &Vec<Group<J>>,
    writer: &mut W,
) -> Result<(), Fault>
    ensures shows { Outputs result (Writes (W.contents writer.old) (W.contents writer.new)
        (ShowsOne cpu processor.now groups.now.items)) }
{
    write_lists(alloc, cpu, &lists_of(processor), writer)?;
    match shown_in(groups, cpu) {
        Some(lists) => write_lists(alloc, cpu, &lists, writer),
        None => Ok(()),
    }
}

/// `show`: the lists of each processor, and of its group where it is offloadable.
pub fn show<J: Job, W: Write>(
    alloc: Global,
    processors: &Vec<ScriptProcessor<J>>,
    groups: &Vec<Group<J>>,
    writer: &mut W,
) -> Result<(), Fault>
    ensures shows { Outputs result (Writes (W.contents writer.old) (W.contents writer.new)
        (ShowsFrom 0 processors.now.items groups.now.items)) }
{
    for cpu in 0..processors.len() {
        show_one(alloc, cpu as u64, &processors[cpu], groups, writer)?;
    }
    Ok(())
}
