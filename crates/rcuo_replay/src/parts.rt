//! The parts of a script, of whose processors some may be away.

ghost use Rattle.std.specs.Prelude.{◌≡◌, ◌≤◌, [], IfOk, vec_capacity, vec_len};
ghost use Rattle.std.specs.List.{AllZip};
ghost use Rattle.rcuo_replay.specs.Presences.{IsBack, IsHere, KeepEachBack};
ghost use Rattle.rcuo_replay.specs.ScriptParts.{AllComeBack, AreAllHere};

use crate::presence::{Presence, ScriptProcessor, bring_back};
use rcu_jobs::Job;
use rcu_parts::{AllParts, Group, Hand, Parts, Processor};
use std::alloc::{AllocError, Global};

/// The parts of a script: those of one open, but that a processor may be away.
pub type ScriptParts<J> = AllParts<ScriptProcessor<J>, Group<J>, Hand<J>>;

/// Each processor is here.
fn each_here<J: Job>(
    processors: Vec<Processor<J>>,
    room: Vec<ScriptProcessor<J>>,
) -> Vec<ScriptProcessor<J>>
    requires room { (room.items ≡ []) × (vec_len processors ≤ vec_capacity room) }
    ensures { AllZip IsHere processors.items result.items }
{
    let mut all = room;
    for processor in processors {
        all.push_reserved(Presence::Here(processor));
    }
    all
}

/// Each processor that is away comes back.
fn each_back<J: Job>(
    processors: Vec<ScriptProcessor<J>>,
    room: Vec<Processor<J>>,
) -> Vec<Processor<J>>
    requires room { (room.items ≡ []) × (vec_len processors ≤ vec_capacity room) }
    ensures back { AllZip IsBack processors.items result.items }
    ensures kept { KeepEachBack J.key_of J.gives processors.items result.items }
{
    let mut all = room;
    for processor in processors {
        all.push_reserved(bring_back(processor));
    }
    all
}

/// All parts of a new open, with each processor here.
///
/// # Errors
///
/// Want of memory.
pub fn all_here<J: Job>(alloc: Global, parts: Parts<J>) -> Result<ScriptParts<J>, AllocError>
    ensures { IfOk result (λ here. AreAllHere parts here) }
{
    let room = Vec::with_capacity(alloc, parts.processors.len())?;
    let AllParts {
        processors,
        driver,
        groups,
        hands,
        control,
    } = parts;
    Ok(AllParts {
        processors: each_here(processors, room),
        driver,
        groups,
        hands,
        control,
    })
}

/// All parts as `close` asks for them: each processor that is away comes back.
///
/// # Errors
///
/// Want of memory.
pub fn all_back<J: Job>(alloc: Global, parts: ScriptParts<J>) -> Result<Parts<J>, AllocError>
    ensures back { IfOk result (λ back. AllComeBack parts back) }
    ensures kept { IfOk result (λ back.
        KeepEachBack J.key_of J.gives parts.processors.items back.processors.items) }
{
    let room = Vec::with_capacity(alloc, parts.processors.len())?;
    let AllParts {
        processors,
        driver,
        groups,
        hands,
        control,
    } = parts;
    Ok(AllParts {
        processors: each_back(processors, room),
        driver,
        groups,
        hands,
        control,
    })
}
