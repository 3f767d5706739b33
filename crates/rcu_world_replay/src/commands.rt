//! The commands of a script: the call that each makes, and the line of its answer.

ghost use Rattle.std.specs.Prelude.{◌<◌, length, None};
ghost use Rattle.std.specs.Io.KnownBytes.{Appends};
ghost use Rattle.rcuo_script.specs.Faults.{Outputs};
ghost use Rattle.rcu_world.specs.Turns.{IsAtRest};
ghost use Rattle.rcu_world.specs.Views.{state};
ghost use Rattle.rcu_world.specs.Worlds.{IsWorld};
ghost use Rattle.rcu_world_replay.specs.Outcomes.{IsBarrier, IsCall, IsDriver, IsGroup, IsHand, IsLeave, IsPoll, IsQuiet, IsReturn, IsShut, IsSwitch, IsTick, shown, shown_one};
ghost use Rattle.rcu_world_replay.specs.Answers.{AnswersAs, TellsAs};

use rcu_jobs::Job;
use rcu_status::counts;
use rcu_world::World;
use rcuo_script::{Fault, Line, Verb, write_lists};
use std::alloc::{AllocError, Global};
use std::io::Write;

/// `call` and `lazy`: the job goes in, or is dropped where it is refused.
#[tactic(auto, using(crate::proofs::Refusals::no_call))]
pub fn call<J: Job>(world: &mut World<J>, verb: Verb, cpu: u64, moment: u64, job: J) -> Line
    requires world { IsWorld J.key_of J.gives world.old.core }
    requires rest { IsAtRest (state J.key_of world.old.core) }
    ensures tells { TellsAs J.key_of J.gives
        (λ old line new. IsCall old verb cpu moment (J.key_of job) line new) result
        world.old.core world.new.core }
{
    if cpu >= world.processors() {
        return Line::no_such(verb, cpu);
    }
    if world.is_away(cpu) {
        return Line::away(verb, cpu);
    }
    let answer = if verb == Verb::Lazy {
        world.call_rcu_lazy(cpu, moment, job)
    } else {
        world.call_rcu(cpu, moment, job)
    };
    match answer {
        Ok(ticket) => Line::Number {
            verb,
            cpu,
            number: ticket.number,
        },
        Err(refused) => Line::Refused {
            verb,
            place: cpu,
            refusal: refused.number(),
        },
    }
}

/// `quiet`: a report of a quiescent state.
pub fn quiet<J: Job>(world: &mut World<J>, cpu: u64) -> Result<Line, AllocError>
    requires world { IsWorld J.key_of J.gives world.old.core }
    requires rest { IsAtRest (state J.key_of world.old.core) }
    ensures answers { AnswersAs J.key_of J.gives (λ old line new. IsQuiet old cpu line new) result
        world.old.core world.new.core }
{
    if cpu >= world.processors() {
        return Ok(Line::no_such(Verb::Quiet, cpu));
    }
    if world.is_away(cpu) {
        return Ok(Line::away(Verb::Quiet, cpu));
    }
    match world.quiescent(cpu)? {
        Some(seq) => Ok(Line::Counted { cpu, seq }),
        None => Ok(Line::Nothing { cpu }),
    }
}

/// `tick`: a processor's turn.
pub fn tick<J: Job>(world: &mut World<J>, cpu: u64, moment: u64) -> Result<Line, AllocError>
    requires world { IsWorld J.key_of J.gives world.old.core }
    requires rest { IsAtRest (state J.key_of world.old.core) }
    ensures answers { AnswersAs J.key_of J.gives (λ old line new. IsTick old cpu moment line new)
        result world.old.core world.new.core }
{
    if cpu >= world.processors() {
        return Ok(Line::no_such(Verb::Tick, cpu));
    }
    if world.is_away(cpu) {
        return Ok(Line::away(Verb::Tick, cpu));
    }
    let ticked = world.tick(cpu, moment)?;
    Ok(Line::Ran {
        verb: Verb::Tick,
        cpu,
        ran: ticked.ran,
    })
}

/// `leave`: the processor is away from now on. It is here still where its bypass list finds no room as it is put.
pub fn leave<J: Job>(world: &mut World<J>, cpu: u64) -> Line
    requires world { IsWorld J.key_of J.gives world.old.core }
    requires rest { IsAtRest (state J.key_of world.old.core) }
    ensures tells { TellsAs J.key_of J.gives (λ old line new. IsLeave old cpu line new) result
        world.old.core world.new.core }
{
    if cpu >= world.processors() {
        return Line::no_such(Verb::Leave, cpu);
    }
    if world.is_away(cpu) {
        return Line::away(Verb::Leave, cpu);
    }
    match world.leave(cpu) {
        Ok(()) => Line::Left { cpu },
        Err(_) => Line::no_room(Verb::Leave, cpu),
    }
}

/// `return`: the processor that was away is back.
pub fn come_back<J: Job>(world: &mut World<J>, cpu: u64) -> Line
    requires world { IsWorld J.key_of J.gives world.old.core }
    requires rest { IsAtRest (state J.key_of world.old.core) }
    ensures tells { TellsAs J.key_of J.gives (λ old line new. IsReturn old cpu line new) result
        world.old.core world.new.core }
{
    if cpu >= world.processors() {
        return Line::no_such(Verb::Return, cpu);
    }
    if !world.is_away(cpu) {
        return Line::not_away(Verb::Return, cpu);
    }
    world.come_back(cpu);
    Line::Returned { cpu }
}

/// `driver`: a turn of the driver.
pub fn driver<J: Job>(world: &mut World<J>) -> Result<Line, AllocError>
    requires world { IsWorld J.key_of J.gives world.old.core }
    requires rest { IsAtRest (state J.key_of world.old.core) }
    ensures answers { AnswersAs J.key_of J.gives IsDriver result world.old.core world.new.core }
{
    Ok(Line::Driver(world.driver_turn()?))
}

/// `group`: a group's turn.
pub fn group<J: Job>(world: &mut World<J>, group: u64) -> Result<Line, AllocError>
    requires world { IsWorld J.key_of J.gives world.old.core }
    requires rest { IsAtRest (state J.key_of world.old.core) }
    ensures answers { AnswersAs J.key_of J.gives (λ old line new. IsGroup old group line new) result
        world.old.core world.new.core }
{
    if !world.has_group(group) {
        return Ok(Line::no_such(Verb::Group, group));
    }
    let turn = world.group_turn(group)?;
    Ok(Line::Group {
        group,
        took: turn.took,
        gave: turn.gave,
    })
}

/// `hand`: a hand's turn.
#[tactic(auto, using(crate::proofs::Refusals::no_hand))]
pub fn hand<J: Job>(world: &mut World<J>, cpu: u64) -> Result<Line, AllocError>
    requires world { IsWorld J.key_of J.gives world.old.core }
    requires rest { IsAtRest (state J.key_of world.old.core) }
    ensures answers { AnswersAs J.key_of J.gives (λ old line new. IsHand old cpu line new) result
        world.old.core world.new.core }
{
    if cpu >= world.processors() {
        return Ok(Line::no_such(Verb::Hand, cpu));
    }
    if !world.has_hand(cpu) {
        return Ok(Line::not_offloadable(Verb::Hand, cpu));
    }
    let turn = world.hand_turn(cpu)?;
    Ok(Line::Ran {
        verb: Verb::Hand,
        cpu,
        ran: turn.ran,
    })
}

/// `offload` and `deoffload`: asks for the switch.
pub fn switch<J: Job>(world: &mut World<J>, verb: Verb, cpu: u64) -> Line
    requires world { IsWorld J.key_of J.gives world.old.core }
    requires rest { IsAtRest (state J.key_of world.old.core) }
    ensures tells { TellsAs J.key_of J.gives (λ old line new. IsSwitch old verb cpu line new) result
        world.old.core world.new.core }
{
    let answer = if verb == Verb::Offload {
        world.offload(cpu)
    } else {
        world.deoffload(cpu)
    };
    match answer {
        Ok(()) => Line::Asked { verb, cpu },
        Err(fault) => Line::Refused {
            verb,
            place: cpu,
            refusal: fault.number(),
        },
    }
}

/// `barrier`: opens a barrier, in place of the one that was open.
pub fn barrier<J: Job>(world: &mut World<J>, opened: &mut Option<u64>) -> Result<Line, AllocError>
    requires world { IsWorld J.key_of J.gives world.old.core }
    requires rest { IsAtRest (state J.key_of world.old.core) }
    ensures answers { AnswersAs J.key_of J.gives (λ old line new. IsBarrier old line new opened.new)
        result world.old.core world.new.core }
{
    let Ok(name) = world.barrier(None, &[]) else {
        // (a barrier without tickets is refused for want of memory alone)
        return Err(AllocError);
    };
    *opened = Some(name);
    Ok(Line::Opened)
}

/// `poll`: asks whether the barrier that is open has passed. If it has, it is open no longer.
pub fn poll<J: Job>(world: &mut World<J>, opened: &mut Option<u64>) -> Result<Line, AllocError>
    requires world { IsWorld J.key_of J.gives world.old.core }
    requires rest { IsAtRest (state J.key_of world.old.core) }
    ensures answers { AnswersAs J.key_of J.gives
        (λ old line new. IsPoll old opened.old line new opened.new) result
        world.old.core world.new.core }
{
    let Some(name) = *opened else {
        return Ok(Line::NoBarrier);
    };
    if world.poll(name)?.is_none() {
        return Ok(Line::Waits);
    }
    *opened = None;
    Ok(Line::Passed)
}

/// `shut`: shuts all processors.
pub fn shut<J: Job>(alloc: Global, world: &mut World<J>) -> Result<Line, AllocError>
    requires world { IsWorld J.key_of J.gives world.old.core }
    requires rest { IsAtRest (state J.key_of world.old.core) }
    ensures answers { AnswersAs J.key_of J.gives IsShut result world.old.core world.new.core }
{
    let last = world.shut()?;
    Ok(Line::Shut(counts(alloc, &last)?))
}

/// The lines of one processor.
fn show_one<J: Job, W: Write>(
    alloc: Global,
    world: &World<J>,
    cpu: u64,
    writer: &mut W,
) -> Result<(), Fault>
    requires { cpu < length (state J.key_of world.now.core).cpus }
    ensures shows { Outputs result (Appends (W.contents writer.old) (W.contents writer.new)
        (shown_one (state J.key_of world.now.core) cpu)) }
{
    write_lists(alloc, cpu, &world.lists(cpu), writer)?;
    match world.group_lists(cpu) {
        Some(lists) => write_lists(alloc, cpu, &lists, writer),
        None => Ok(()),
    }
}

/// `show`: the lists of each processor, and of its group where it is offloadable.
pub fn show<J: Job, W: Write>(alloc: Global, world: &World<J>, writer: &mut W) -> Result<(), Fault>
    requires { IsWorld J.key_of J.gives world.now.core }
    ensures shows { Outputs result (Appends (W.contents writer.old) (W.contents writer.new)
        (shown (length (state J.key_of world.now.core).cpus) (state J.key_of world.now.core))) }
{
    for cpu in 0..world.processors() {
        show_one(alloc, world, cpu, writer)?;
    }
    Ok(())
}
