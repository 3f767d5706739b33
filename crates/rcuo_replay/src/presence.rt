//! A processor in a script: here, or away.

ghost use Rattle.std.specs.Prelude.{◌≡◌};
ghost use Rattle.rcuo_replay.specs.Outcomes.{LeavesAs, LeavesOne, ReturnsOne};
ghost use Rattle.rcuo_replay.specs.Presences.{ComesBack, IsBack, KeepsPresence, lists_shown, without_bypass};
ghost use Rattle.rcuo_replay.specs.declared.presence.Presence.TheVariants as presence;

use rcu_jobs::{Job, Lists};
use rcu_parts::{Away, Processor};
use rcuo_script::{Line, Verb};

/// A processor that is away, with what `show` prints of it: its own list waits, and nothing changes there until it is back.
#[derive(Drop)]
pub struct Absent<A> {
    pub away: A,
    /// What it has, in its own list; its bypass list is empty.
    pub lists: Lists,
}

/// A processor of a script's parts. That the type itself names what a processor is here, and what it is away, tells each
/// function that takes one that both fit in memory.
#[derive(Drop)]
pub enum Presence<P, A> {
    /// It is here.
    Here(P),
    /// It left, and isn't back.
    Away(Absent<A>),
}

/// A processor of a script's parts, for jobs of type `J`.
pub type ScriptProcessor<J> = Presence<Processor<J>, Away<J>>;

/// What is shown of a processor once its bypass list is empty.
fn without_bypass(lists: Lists) -> Lists
    ensures { result ≡ without_bypass lists }
{
    match lists {
        Lists::Cpu {
            mode,
            accepted,
            bypass: _,
            lengths,
            numbers,
        } => Lists::Cpu {
            mode,
            accepted,
            bypass: 0,
            lengths,
            numbers,
        },
        other => other,
    }
}

/// A processor that is here leaves, where its lane has room for what its bypass list holds.
fn leave_here<J: Job>(processor: Processor<J>, cpu: u64) -> (ScriptProcessor<J>, Line)
    ensures line { LeavesAs cpu result.1 processor result.0 }
    ensures kept { KeepsPresence J.key_of J.gives (presence.Here processor) result.0 }
{
    let lists = without_bypass(processor.lists());
    match processor.leave() {
        Ok(away) => (Presence::Away(Absent { away, lists }), Line::Left { cpu }),
        Err(processor) => (Presence::Here(processor), Line::no_room(Verb::Leave, cpu)),
    }
}

/// A processor that was away is back.
fn return_away<J: Job>(absent: Absent<Away<J>>) -> Processor<J>
    ensures back { ComesBack absent.away result }
    ensures kept { KeepsPresence J.key_of J.gives (presence.Away absent) (presence.Here result) }
{
    let Absent { away, lists: _ } = absent;
    away.come_back()
}

/// `leave` of this processor, and the line of its answer.
pub fn leave_one<J: Job>(processor: ScriptProcessor<J>, cpu: u64) -> (ScriptProcessor<J>, Line)
    ensures line { LeavesOne cpu result.1 processor result.0 }
    ensures kept { KeepsPresence J.key_of J.gives processor result.0 }
{
    match processor {
        Presence::Here(processor) => leave_here(processor, cpu),
        Presence::Away(absent) => (Presence::Away(absent), Line::away(Verb::Leave, cpu)),
    }
}

/// `return` of this processor, and the line of its answer.
pub fn return_one<J: Job>(processor: ScriptProcessor<J>, cpu: u64) -> (ScriptProcessor<J>, Line)
    ensures line { ReturnsOne cpu result.1 processor result.0 }
    ensures kept { KeepsPresence J.key_of J.gives processor result.0 }
{
    match processor {
        Presence::Here(processor) => (Presence::Here(processor), Line::not_away(Verb::Return, cpu)),
        Presence::Away(absent) => (Presence::Here(return_away(absent)), Line::Returned { cpu }),
    }
}

/// The processor, which comes back where it is away.
pub fn bring_back<J: Job>(processor: ScriptProcessor<J>) -> Processor<J>
    ensures back { IsBack processor result }
    ensures kept { KeepsPresence J.key_of J.gives processor (presence.Here result) }
{
    match processor {
        Presence::Here(processor) => processor,
        Presence::Away(absent) => return_away(absent),
    }
}

/// What `show` prints of its own lists.
pub fn lists_of<J: Job>(processor: &ScriptProcessor<J>) -> Lists
    ensures { result ≡ lists_shown processor.now }
{
    match processor {
        Presence::Here(processor) => processor.lists(),
        Presence::Away(absent) => absent.lists,
    }
}
