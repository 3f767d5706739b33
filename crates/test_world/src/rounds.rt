//! Runs of the core in which all kinds of mark stand: rounds of calls, grace periods, barriers and switches.

ghost use Rattle.rcu_world.specs.Worlds.{IsWorld};

use crate::tests_world::run;
use rcu_jobs::Job;
use rcu_numbers::Shape;
use rcu_world::{Event, World};
use rcu_world_law::who::{Side, Who};
use std::alloc::{AllocError, Global};
use std::process::Abort;

// How many processors there are: a local one, and two offloadable ones of one group.
pub(crate) const PROCESSORS: u64 = 3;

// A job whose receipt is its key.
#[derive(Drop)]
pub(crate) struct Numbered {
    pub(crate) key: u64,
}

impl Job for Numbered {
    type Receipt = u64;

    ghost key_of = { λ job. job.key };

    ghost gives = { λ key receipt. Unit {0} };

    fn key(&self) -> u64 {
        self.key
    }

    fn run(self) -> u64 {
        self.key
    }
}

pub(crate) type Events = Vec<Event<Numbered>>;

// The key of a processor's call in a round.
pub(crate) fn key_of(round: u64, cpu: u64) -> u64 {
    round.wrapping_mul(8).wrapping_add(cpu)
}

// These events follow.
fn push_all<const N: usize>(
    events: &mut Events,
    more: [Event<Numbered>; N],
) -> Result<(), AllocError> {
    let Ok(mut more) = Vec::from_array(*events.allocator(), more) else {
        return Err(AllocError);
    };
    events.append(&mut more)
}

// A processor's call, with all that may follow from it.
fn call_events(round: u64, cpu: u64) -> [Event<Numbered>; 7] {
    let job = Numbered {
        key: key_of(round, cpu),
    };
    let (moment, lazy) = (round, round % 3 == 2);
    [
        Event::Accept { cpu, job },
        Event::Stamp { cpu, moment, lazy },
        Event::Put { cpu, moment: None },
        Event::Look { cpu },
        Event::Need { who: Who::Cpu(cpu) },
        Event::Draw { cpu },
        Event::Join { cpu },
    ]
}

// A call of each processor.
fn push_calls(events: &mut Events, round: u64) -> Result<(), AllocError> {
    for cpu in 0..PROCESSORS {
        push_all(events, call_events(round, cpu))?;
    }
    let who = Who::Group(0);
    push_all(events, [Event::LookGroup { group: 0 }, Event::Need { who }])
}

// A grace period.
fn push_grace_period(events: &mut Events) -> Result<(), AllocError> {
    push_all(
        events,
        [
            Event::Start,
            Event::Report { cpu: 0 },
            Event::Report { cpu: 1 },
            Event::Report { cpu: 2 },
            Event::End,
            Event::LookGroup { group: 0 },
        ],
    )
}

// What a processor and its hand may run.
fn run_events(cpu: u64) -> [Event<Numbered>; 8] {
    let (own, hand) = (Side::Local, Side::Hand);
    [
        Event::Look { cpu },
        Event::Give { cpu },
        Event::LookHand { cpu },
        Event::Fetch { cpu },
        Event::Claim { cpu, by: own },
        Event::Finish { cpu, by: own },
        Event::Claim { cpu, by: hand },
        Event::Finish { cpu, by: hand },
    ]
}

// What each processor and its hand may run.
fn push_runs(events: &mut Events) -> Result<(), AllocError> {
    for cpu in 0..PROCESSORS {
        push_all(events, run_events(cpu))?;
    }
    Ok(())
}

// A switch of processor 1 to and fro.
fn switch_events(round: u64) -> [Event<Numbered>; 5] {
    let on = round % 2 == 0;
    let moment = None;
    [
        Event::Ask { cpu: 1, on },
        Event::Hear { cpu: 1 },
        Event::Heed { cpu: 1 },
        Event::Put { cpu: 1, moment },
        Event::Settle { cpu: 1 },
    ]
}

// The opening of a barrier of this name.
fn opening_events(barrier: u64) -> [Event<Numbered>; 5] {
    [
        Event::Open { barrier },
        Event::Count { barrier, cpu: 0 },
        Event::Count { barrier, cpu: 1 },
        Event::Count { barrier, cpu: 2 },
        Event::Urge,
    ]
}

// A poll of the barrier of this name.
fn poll_events(barrier: u64) -> [Event<Numbered>; 4] {
    [
        Event::Turn { barrier, cpu: 0 },
        Event::Turn { barrier, cpu: 1 },
        Event::Turn { barrier, cpu: 2 },
        Event::Pass { barrier },
    ]
}

// A round.
fn push_round(events: &mut Events, round: u64) -> Result<(), AllocError> {
    push_calls(events, round)?;
    push_all(events, opening_events(round))?;
    push_grace_period(events)?;
    push_runs(events)?;
    push_all(events, poll_events(round))?;
    push_all(events, switch_events(round))
}

// So many rounds. Processor 0 is shut in the midst of the last one, and its last callback has no time to run.
fn push_rounds(events: &mut Events, rounds: u64) -> Result<(), AllocError> {
    for round in 0..rounds {
        push_round(events, round)?;
    }
    push_calls(events, rounds)?;
    push_all(events, [Event::Shut { cpu: 0 }])?;
    push_calls(events, rounds.wrapping_add(1))
}

// A core that went through so many rounds, and how many events those are.
pub(crate) fn after_rounds(rt: &impl Abort, alloc: Global, rounds: u64) -> (World<Numbered>, usize)
    ensures { IsWorld ⟦<Numbered as Job>⟧.key_of ⟦<Numbered as Job>⟧.gives result.0.core }
{
    let mut events = Vec::new(alloc);
    push_rounds(&mut events, rounds).expect(rt, "memory");
    let shape = Shape::new(PROCESSORS, 0b110, 3, 10, 4, 100).expect(rt, "a shape");
    let Ok(mut world) = World::new(alloc, shape) else {
        panic!(rt; "memory");
    };
    let many = run(rt, &mut world, events).len();
    (world, many)
}
