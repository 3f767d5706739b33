//! The core, event by event and by its turn calls.

ghost use Rattle.rcu_world.specs.Worlds.{IsWorld};
ghost use Rattle.test_world.specs.Resting.{IsResting};

use crate::steps::Step::{
    Call, Deoffload, Drive, Group, Lazy, Offload, Open, Poll, Report, Show, Tick,
};
use crate::steps::{
    Boxed, Keyed, Step, boxed, call, deoffload, expect, offload, one_processor, open, open_by,
    play, tick,
};
use rcu_jobs::{
    BarrierFault, BoxedJob, Closed, DriverTurn, Job, Mode, Stop, SwitchFault, Ticked, Ticket,
};
use rcu_world::{Answer, Event, World};
use rcu_world_law::marks::Mark;
use rcu_world_law::who::{Side, Who};
use std::alloc::Global;
use std::process::Abort;

// Runs the events.
pub(crate) fn run<J: Job>(
    rt: &impl Abort,
    world: &mut World<J>,
    events: Vec<Event<J>>,
) -> Vec<Answer<J>>
    requires { IsWorld J.key_of J.gives world.old.core }
    ensures { IsWorld J.key_of J.gives world.new.core }
{
    world.run(events).ok().expect(rt, "room")
}

// Whether these of the events are done, and no others.
fn are_done<J>(answers: &[Answer<J>], wanted: &[bool]) -> bool {
    let done = answers.iter().map(|answer| matches!(answer, Answer::Done));
    done.eq(wanted.iter().copied())
}

// Runs the events, of which these are done, and no others.
pub(crate) fn expect_done<J: Job>(
    rt: &impl Abort,
    world: &mut World<J>,
    events: Vec<Event<J>>,
    wanted: &[bool],
)
    requires { IsWorld J.key_of J.gives world.old.core }
    ensures { IsWorld J.key_of J.gives world.new.core }
{
    let answers = run(rt, world, events);
    expect(rt, "done", are_done(answers.as_slice(), wanted), true);
}

// What is left of a world.
pub(crate) fn close(rt: &impl Abort, world: World<Boxed>) -> (Vec<Mark>, Closed<Boxed>)
    requires { IsWorld ⟦<BoxedJob<65536> as Job>⟧.key_of ⟦<BoxedJob<65536> as Job>⟧.gives
        world.core }
{
    let Ok(left) = world.close() else {
        panic!(rt; "no room");
    };
    left
}

// A callback of key 65543, up to its claim, which isn't finished.
fn until_claimed(rt: &impl Abort, alloc: Global) -> Vec<Event<Boxed>> {
    let job = boxed(alloc, 65543).expect(rt, "a job");
    let (moment, lazy) = (1, false);
    let (who, by) = (Who::Cpu(0), Side::Local);
    let events = vec![in alloc;
        Event::Accept { cpu: 0, job },
        Event::Stamp {
            cpu: 0,
            moment,
            lazy,
        },
        Event::Look { cpu: 0 },
        Event::Need { who },
        Event::Start,
        Event::Report { cpu: 0 },
        Event::End,
        Event::Look { cpu: 0 },
        Event::Claim { cpu: 0, by },
    ];
    events.expect(rt, "memory")
}

// What is left where the events end between a claim and its finish: the job counts as run.
fn expect_claimed(rt: &impl Abort, marks: &[Mark], closed: &Closed<Boxed>) {
    let expected = [
        Mark::Accepted(0, 65543),
        Mark::Reported(0),
        Mark::Ran(0, 65543),
        Mark::Shut(0),
    ];
    let record = closed.ran.first().and_then(|ran| ran.first());
    expect(
        rt,
        "marks, receipt, reports",
        (
            marks,
            record.map(|record| record.receipt),
            closed.reports.first().copied(),
        ),
        (expected.as_slice(), Some(7), Some(1)),
    );
}

// The row `cut-core`, with boxed jobs.
#[test]
fn boxed_jobs_run(rt: HostRuntime) {
    let mut world = one_processor::<Boxed>(&rt, rt.alloc(), 0, 10);
    let events = until_claimed(&rt, rt.alloc());
    expect_done(&rt, &mut world, events, &[true; 9]);
    expect(&rt, "at rest", world.is_at_rest(), false);
    let (marks, closed) = close(&rt, world);
    expect_claimed(&rt, marks.as_slice(), &closed);
}

// What is done between the call and the last tick of the row `first-run`.
static FIRST_RUN: [Step; 5] = [
    Tick(0, 0),
    Drive(DriverTurn::Started(1)),
    Report(Some(1)),
    Report(None),
    Drive(DriverTurn::Ended(4)),
];

// The row `first-run`, up to the tick that runs its callback.
fn run_first<J: Job + Keyed>(
    rt: &impl Abort,
    alloc: Global,
    world: &mut World<J>,
) -> (Ticket, Ticked)
    requires { IsResting J.key_of J.gives world.old.core }
    ensures { IsResting J.key_of J.gives world.new.core }
{
    let ticket = call(rt, world, 0, J::of_key(alloc, 65537));
    play(rt, alloc, world, &FIRST_RUN);
    (ticket, tick(rt, world, 0))
}

// The row `first-run`, and the ample memory of each of its calls.
#[test]
fn first_run(rt: HostRuntime) {
    let mut world = one_processor::<Boxed>(&rt, rt.alloc(), 0, 10);
    let at_first = world.is_at_rest();
    let called = run_first(&rt, rt.alloc(), &mut world);
    let ticket = Ticket { cpu: 0, number: 0 };
    let (ran, stop) = (1, Stop::Empty);
    expect(
        &rt,
        "at rest; ticket, last tick; marks, at rest",
        (
            at_first,
            called,
            (world.history().len(), world.is_at_rest()),
        ),
        (true, (ticket, Ticked { ran, stop }), (3, true)),
    );
}

// A world is closed, and its processor hands so many jobs back.
fn expect_back(rt: &impl Abort, world: World<Boxed>, wanted: usize)
    requires { IsWorld ⟦<BoxedJob<65536> as Job>⟧.key_of ⟦<BoxedJob<65536> as Job>⟧.gives
        world.core }
{
    let (_marks, closed) = close(rt, world);
    let back = closed.back.first().map(|jobs| jobs.len());
    expect(rt, "back", back, Some(wanted));
}

static TWO_GENERATIONS: [Step; 6] = [
    Call(0, 65538),
    Tick(0, 0),
    Drive(DriverTurn::Started(1)),
    Lazy(0, 65539),
    Tick(0, 0),
    Show(Mode::Local, 2, [0, 1, 1, 0], [4, 8]),
];

// The first half of the row `two-generations`, with its line of `show`.
#[test]
fn two_generations(rt: HostRuntime) {
    let mut world = one_processor::<Boxed>(&rt, rt.alloc(), 0, 10);
    play(&rt, rt.alloc(), &mut world, &TWO_GENERATIONS);
    expect_back(&rt, world, 2);
}

// What a barrier answers to the ticket of a call that isn't made yet, to one of a processor that isn't there, by processor 0,
// and to one of the last call.
fn three_barriers<J: Job>(rt: &impl Abort, world: &mut World<J>) -> [Result<u64, BarrierFault>; 3]
    requires { IsResting J.key_of J.gives world.old.core }
    ensures { IsResting J.key_of J.gives world.new.core }
{
    let early = open(world, &[Ticket { cpu: 0, number: 3 }]);
    let elsewhere = open_by(rt, world, &[Ticket { cpu: 1, number: 0 }]);
    let opened = open(world, &[Ticket { cpu: 0, number: 2 }]);
    [early, elsewhere, opened]
}

// What is answered where a processor that isn't there is switched, and one that is.
fn two_switches<J: Job>(world: &mut World<J>) -> [Result<(), SwitchFault>; 2]
    requires { IsResting J.key_of J.gives world.old.core }
    ensures { IsResting J.key_of J.gives world.new.core }
{
    let elsewhere = offload(world, 1);
    [elsewhere, deoffload(world, 0)]
}

// How many callbacks of processor 0 the counts of `shut` have.
fn shut_count<J: Job>(rt: &impl Abort, world: &mut World<J>) -> Option<u64>
    requires { IsResting J.key_of J.gives world.old.core }
{
    let counts = world.shut().expect(rt, "memory");
    counts.of_processors().first().copied()
}

static THREE_CALLS: [Step; 3] = [Call(5, 0), Call(5, 1), Call(5, 2)];

// The row `barrier-tickets`, with three accepted, and the counts of `shut`.
#[test]
fn barrier_tickets(rt: HostRuntime) {
    let mut world = one_processor::<Boxed>(&rt, rt.alloc(), 1, 10);
    play(&rt, rt.alloc(), &mut world, &THREE_CALLS);
    let barriers = three_barriers(&rt, &mut world);
    let ahead = Err(BarrierFault::Ahead { cpu: 0, count: 3 });
    let nowhere = Err(BarrierFault::NoProcessor(1));
    expect(&rt, "barriers", barriers, [ahead, nowhere, Ok(0)]);
    let switches = two_switches(&mut world);
    let wanted = [Err(SwitchFault::NoProcessor(1)), Ok(())];
    expect(&rt, "switches", switches, wanted);
    expect(&rt, "count", shut_count(&rt, &mut world), Some(3));
}

static PASSES_ONCE: [Step; 11] = [
    Call(5, 65536),
    Open,
    Poll(None),
    Tick(5, 0),
    Drive(DriverTurn::Started(1)),
    Report(Some(1)),
    Drive(DriverTurn::Ended(4)),
    Poll(None),
    Tick(5, 1),
    Poll(Some(1)),
    // (a barrier that has passed)
    Poll(None),
];

// A barrier passes in one poll, and only once all that it counted has run.
#[test]
fn a_barrier_passes_once(rt: HostRuntime) {
    let mut world = one_processor::<Boxed>(&rt, rt.alloc(), 0, 10);
    play(&rt, rt.alloc(), &mut world, &PASSES_ONCE);
}

// A callback that is called, stamped, and put on the lane where its processor is Offloaded.
fn called(job: Boxed) -> [Event<Boxed>; 3] {
    let (moment, lazy) = (0, false);
    [
        Event::Accept { cpu: 0, job },
        Event::Stamp {
            cpu: 0,
            moment,
            lazy,
        },
        Event::Put {
            cpu: 0,
            moment: None,
        },
    ]
}

// A grace period, from what is wanted to its end.
fn grace_period(who: Who) -> [Event<Boxed>; 4] {
    [
        Event::Need { who },
        Event::Start,
        Event::Report { cpu: 0 },
        Event::End,
    ]
}

// These events follow.
fn push_all<const N: usize>(
    rt: &impl Abort,
    events: &mut Vec<Event<Boxed>>,
    more: [Event<Boxed>; N],
) {
    let more = Vec::from_array(*events.allocator(), more).ok();
    events
        .append(&mut more.expect(rt, "memory"))
        .expect(rt, "memory");
}

// A callback that its group has and that waits for no grace period any more, on its way to the hand.
fn push_given(rt: &impl Abort, events: &mut Vec<Event<Boxed>>, job: Boxed) {
    push_all(rt, events, called(job));
    let joins = [
        Event::Draw { cpu: 0 },
        Event::Join { cpu: 0 },
        Event::LookGroup { group: 0 },
    ];
    push_all(rt, events, joins);
    push_all(rt, events, grace_period(Who::Group(0)));
    let gives = [Event::LookGroup { group: 0 }, Event::Give { cpu: 0 }];
    push_all(rt, events, gives);
}

// Five callbacks that the hand runs.
fn push_five_runs(rt: &impl Abort, alloc: Global, events: &mut Vec<Event<Boxed>>) {
    let by = Side::Hand;
    for key in 0..5u64 {
        push_given(rt, events, boxed(alloc, key).expect(rt, "a job"));
        let run = [
            Event::LookHand { cpu: 0 },
            Event::Fetch { cpu: 0 },
            Event::Claim { cpu: 0, by },
            Event::Finish { cpu: 0, by },
        ];
        push_all(rt, events, run);
    }
}

// Callback 5 is with the hand, and callback 6 is done in the processor's own list.
fn push_two_ready(rt: &impl Abort, alloc: Global, events: &mut Vec<Event<Boxed>>) {
    push_given(rt, events, boxed(alloc, 5).expect(rt, "a job"));
    let local = [Event::Ask { cpu: 0, on: false }, Event::Heed { cpu: 0 }];
    push_all(rt, events, local);
    push_all(rt, events, called(boxed(alloc, 6).expect(rt, "a job")));
    push_all(rt, events, [Event::Look { cpu: 0 }]);
    push_all(rt, events, grace_period(Who::Cpu(0)));
    let looks = [
        Event::Look { cpu: 0 },
        Event::LookHand { cpu: 0 },
        Event::Fetch { cpu: 0 },
    ];
    push_all(rt, events, looks);
}

// The hand claims 5, the processor claims 6, the hand finishes, the processor claims 6 and finishes.
fn two_sides(rt: &impl Abort, alloc: Global) -> Vec<Event<Boxed>> {
    let (own, hand) = (Side::Local, Side::Hand);
    let events = vec![in alloc;
        Event::Claim { cpu: 0, by: hand },
        Event::Claim { cpu: 0, by: own },
        Event::Finish { cpu: 0, by: hand },
        Event::Claim { cpu: 0, by: own },
        Event::Finish { cpu: 0, by: own },
    ];
    events.expect(rt, "memory")
}

// Five callbacks run, the hand has the sixth, and the processor the seventh.
fn until_two_ready(rt: &impl Abort, alloc: Global) -> Vec<Event<Boxed>> {
    let mut events = Vec::new(alloc);
    push_five_runs(rt, alloc, &mut events);
    push_two_ready(rt, alloc, &mut events);
    events
}

// The claims of the row `turn-word-claims`, after the events in which five callbacks ran: the one that isn't won is skipped.
fn expect_claims(
    rt: &impl Abort,
    world: &mut World<Boxed>,
    first: Vec<Event<Boxed>>,
    sides: Vec<Event<Boxed>>,
)
    requires { IsWorld ⟦<BoxedJob<65536> as Job>⟧.key_of ⟦<BoxedJob<65536> as Job>⟧.gives
        world.old.core }
    ensures { IsWorld ⟦<BoxedJob<65536> as Job>⟧.key_of ⟦<BoxedJob<65536> as Job>⟧.gives
        world.new.core }
{
    let _answers = run(rt, world, first);
    expect(rt, "ran", ran_in(world.history()), 5);
    expect_done(rt, world, sides, &[true, false, true, true, true]);
}

// Whether the records of processor 0 are of the numbers up to 7, in order.
fn ran_in_order(closed: &Closed<Boxed>) -> Option<bool> {
    let records = closed.ran.first()?;
    Some(records.iter().map(|record| record.number).eq(0..7u64))
}

// The row `turn-word-claims` on the core.
#[test]
fn turn_word_claims(rt: HostRuntime) {
    let mut world = one_processor::<Boxed>(&rt, rt.alloc(), 1, 5);
    let first = until_two_ready(&rt, rt.alloc());
    let sides = two_sides(&rt, rt.alloc());
    expect_claims(&rt, &mut world, first, sides);
    let (_marks, closed) = close(&rt, world);
    expect(&rt, "in order", ran_in_order(&closed), Some(true));
}

// How many callbacks ran.
fn ran_in(history: &[Mark]) -> usize {
    history
        .iter()
        .filter(|mark| matches!(mark, Mark::Ran(..)))
        .count()
}

static SWITCH_AND_POUR: [Step; 21] = [
    Deoffload,
    Tick(0, 0),
    Call(0, 0),
    Call(0, 1),
    Call(0, 2),
    Tick(0, 0),
    Drive(DriverTurn::Started(1)),
    Call(0, 3),
    // grace period 1 ends, which one callback waited for, and the second one begins
    Tick(0, 0),
    Report(Some(1)),
    Drive(DriverTurn::Ended(4)),
    Tick(0, 1),
    Drive(DriverTurn::Started(5)),
    Call(0, 4),
    Tick(0, 1),
    Call(0, 5),
    Show(Mode::Local, 6, [1; 4], [8, 12]),
    Offload,
    Tick(0, 0),
    Group(4),
    Show(Mode::Offloaded, 6, [0; 4], [0; 2]),
];

// Whether the jobs that processor 0 hands back are those of the keys from 2 up to 6, in order.
fn back_in_order(closed: &Closed<Boxed>) -> Option<bool> {
    let back = closed.back.first()?;
    Some(back.iter().map(|job| job.key()).eq(2..6u64))
}

// The row `switch-and-pour`: what waits in the own list is poured, and the four jobs come back in order.
#[test]
fn switch_and_pour(rt: HostRuntime) {
    let mut world = one_processor::<Boxed>(&rt, rt.alloc(), 1, 1);
    play(&rt, rt.alloc(), &mut world, &SWITCH_AND_POUR);
    let (_marks, closed) = close(&rt, world);
    expect(&rt, "in order", back_in_order(&closed), Some(true));
}
