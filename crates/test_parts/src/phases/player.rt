//! The phases, one after another, and the end.

ghost use Rattle.std.specs.Prelude.{◌≡◌, IfOk, Ok};
ghost use denote.Param.Send.{IsSend};
ghost use Rattle.std.specs.Thread.{IsSync};
ghost use Rattle.rcu_parts.specs.OneOpen.{AreOfOneOpen, AreSoundParts};
ghost use Rattle.test_parts.specs.Kept.{ClosesSame, GroupsKeep, HandsKeep, ProcessorsKeep};
ghost use Rattle.test_parts.specs.Company.{CompanyKeeps, parts_of};
ghost use Rattle.rcu_part_control.specs.Parts.{SameControl, SameDriver};

use crate::phases::acts::act_all;
use crate::phases::company::{Callers, Center, Company};
use crate::phases::moves::move_all;
use crate::phases::phase::{Answer, Move, Phase, Reply, Step};
use crate::phases::turns::{turn_groups, turn_hands};
use rcu_jobs::{Closed, Job};
use rcu_parts::{AllParts, Group, Hand, Parts, Processor, close, same_parts};
use std::alloc::{AllocError, Global};
use std::thread;
use std::thread::Threads;

/// Both, where both are there.
fn both<A: Drop, B: Drop>(
    first: Result<A, AllocError>,
    second: Result<B, AllocError>,
) -> Result<(A, B), AllocError>
    ensures first { IfOk result (λ t. first ≡ Ok t.0) }
    ensures second { IfOk result (λ t. second ≡ Ok t.1) }
{
    Ok((first?, second?))
}

/// The processors in one thread, and the driver with control in another.
fn run_callers<J: Job<Receipt = u64>, R: Threads + Sync>(
    rt: &R,
    callers: Callers<Processor<J>>,
    steps: Vec<Step<J>>,
    center: Center,
    moves: Vec<Move>,
) -> Result<(Callers<Processor<J>>, Center), AllocError>
    ensures processors { IfOk result (λ t.
        ProcessorsKeep J.key_of J.gives callers.processors.items t.0.processors.items) }
    ensures driver { IfOk result (λ t. SameDriver center.driver t.1.driver) }
    ensures control { IfOk result (λ t. SameControl center.control t.1.control) }
{
    let (callers, center) = thread::join(
        rt,
        move || -> Result<Callers<Processor<J>>, AllocError>
            requires { IsSend J.row }
            ensures { IfOk result (λ new.
                ProcessorsKeep J.key_of J.gives callers.processors.items new.processors.items) }
        { act_all(callers, steps) },
        move || -> Result<Center, AllocError>
            ensures { IfOk result (λ new.
                SameDriver center.driver new.driver × SameControl center.control new.control) }
        { move_all(center, moves) },
    );
    both(callers, center)
}

/// The groups in one thread, and the hands in another.
fn run_takers<J: Job<Receipt = u64>, R: Threads + Sync>(
    rt: &R,
    groups: Vec<Group<J>>,
    group_turns: u64,
    hands: Vec<Hand<J>>,
    hand_turns: u64,
) -> (Vec<Group<J>>, Vec<Hand<J>>)
    ensures groups { GroupsKeep groups.items result.0.items }
    ensures hands { HandsKeep J.key_of J.gives hands.items result.1.items }
{
    thread::join(
        rt,
        move || -> Vec<Group<J>>
            requires { IsSend J.row }
            ensures { GroupsKeep groups.items result.items }
        { turn_groups(groups, group_turns) },
        move || -> Vec<Hand<J>>
            ensures { HandsKeep J.key_of J.gives hands.items result.items }
        { turn_hands(hands, hand_turns) },
    )
}

/// All parts after a phase, where memory sufficed.
fn gather<P: Drop, G: Drop, H: Drop>(
    near: Result<(Callers<P>, Center), AllocError>,
    far: (Vec<G>, Vec<H>),
) -> Result<Company<P, G, H>, AllocError>
    ensures near { IfOk result (λ new. near ≡ Ok (new.callers, new.center)) }
    ensures far { IfOk result (λ new. far ≡ (new.groups, new.hands)) }
{
    let (callers, center) = near?;
    let (groups, hands) = far;
    Ok(Company {
        callers,
        groups,
        hands,
        center,
    })
}

/// One phase: the four threads are started together, and joined.
fn run_phase<J: Job<Receipt = u64>, R: Threads + Sync>(
    rt: &R,
    company: Company<Processor<J>, Group<J>, Hand<J>>,
    phase: Phase<J>,
) -> Result<Company<Processor<J>, Group<J>, Hand<J>>, AllocError>
    ensures { IfOk result (λ new. CompanyKeeps J.key_of J.gives company new) }
{
    let Company {
        callers,
        groups,
        hands,
        center,
    } = company;
    let Phase {
        steps,
        group_turns,
        hand_turns,
        moves,
    } = phase;
    let (near, far) = thread::join(
        rt,
        move || -> Result<(Callers<Processor<J>>, Center), AllocError>
            requires { IsSend J.row × IsSync R.row }
            ensures { IfOk result (λ t.
                ProcessorsKeep J.key_of J.gives callers.processors.items t.0.processors.items
                × SameDriver center.driver t.1.driver × SameControl center.control t.1.control) }
        { run_callers(rt, callers, steps, center, moves) },
        move || -> (Vec<Group<J>>, Vec<Hand<J>>)
            requires { IsSend J.row × IsSync R.row }
            ensures { GroupsKeep groups.items result.0.items
                × HandsKeep J.key_of J.gives hands.items result.1.items }
        { run_takers(rt, groups, group_turns, hands, hand_turns) },
    );
    gather(near, far)
}

/// All phases, one after another.
fn run_phases<J: Job<Receipt = u64>, R: Threads + Sync>(
    rt: &R,
    company: Company<Processor<J>, Group<J>, Hand<J>>,
    phases: Vec<Phase<J>>,
) -> Result<Company<Processor<J>, Group<J>, Hand<J>>, AllocError>
    ensures { IfOk result (λ new. CompanyKeeps J.key_of J.gives company new) }
{
    let mut company = company;
    for phase in phases {
        company = run_phase(rt, company, phase)?;
    }
    Ok(company)
}

/// All parts before the first phase.
fn assemble<P, G, H>(alloc: Global, parts: AllParts<P, G, H>) -> Company<P, G, H>
    ensures { parts_of result ≡ parts }
{
    let AllParts {
        processors,
        driver,
        groups,
        hands,
        control,
    } = parts;
    Company {
        callers: Callers {
            processors,
            answers: Vec::new(alloc),
        },
        groups,
        hands,
        center: Center {
            driver,
            control,
            barrier: None,
            replies: Vec::new(alloc),
        },
    }
}

/// All parts after the last phase, and what was answered.
fn dismiss<P, G, H>(company: Company<P, G, H>) -> (AllParts<P, G, H>, Vec<Answer>, Vec<Reply>)
    ensures { result.0 ≡ parts_of company }
{
    let Company {
        callers: Callers {
            processors,
            answers,
        },
        groups,
        hands,
        center: Center {
            driver,
            control,
            barrier: _,
            replies,
        },
    } = company;
    let parts = AllParts {
        processors,
        driver,
        groups,
        hands,
        control,
    };
    (parts, answers, replies)
}

/// What is left after the last phase, and what was answered in all phases.
#[derive(Drop)]
pub struct Played<J: Job> {
    /// What `close` answered.
    pub closed: Closed<J>,
    /// What the calls of the processors answered, in order.
    pub answers: Vec<Answer>,
    /// What control's barriers answered, in order.
    pub replies: Vec<Reply>,
}

/// Runs the phases one after another, and closes the runtime. In each phase four threads are started together, and joined:
/// that of the processors, that of the groups, that of the hands, and that of the driver and control.
///
/// # Errors
///
/// Want of memory. All threads that were started have ended.
pub fn play<J: Job<Receipt = u64>, R: Threads + Sync>(
    rt: &R,
    alloc: Global,
    parts: Parts<J>,
    phases: Vec<Phase<J>>,
) -> Result<Played<J>, AllocError>
    requires parts { AreOfOneOpen parts }
    requires sound { AreSoundParts J.key_of J.gives parts }
    ensures { IfOk result (λ played. ClosesSame J.key_of J.gives parts played.closed) }
{
    let company = assemble(alloc, parts);
    let (ended, answers, replies) = dismiss(run_phases(rt, company, phases)?);
    same_parts::<J>();
    let Ok(closed) = close(alloc, ended) else {
        return Err(AllocError);
    };
    Ok(Played {
        closed,
        answers,
        replies,
    })
}
