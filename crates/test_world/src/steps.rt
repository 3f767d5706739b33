//! Steps of a test on a core at rest, each with the answer that the test wants: its processor 0, its group 0 and its barrier 0
//! do them.
//!
//! Where something is wanting the test ends here. So no test has a way out of its own, at which all that it has is dropped.

ghost use Rattle.std.specs.Prelude.{◌≡◌, ◌∷◌, ◌%◌, [], false};
ghost use Rattle.rcu_world_law.specs.Events.CoreEvent.{Report, Return};
ghost use Rattle.rcu_world_law.specs.States.{cpu_at};
ghost use Rattle.rcu_world.specs.Turns.{driver_events, leave_events};
ghost use Rattle.rcu_world.specs.Views.{state};
ghost use Rattle.test_world.specs.Resting.{IsResting, RestsAfter};

use rcu_jobs::{
    BarrierFault, BoxedJob, Counts, DriverTurn, Job, Lists, Mode, Passed, SwitchFault, Ticked,
    Ticket,
};
use rcu_numbers::Shape;
use rcu_world::World;
use std::alloc::Global;
use std::fmt::{Debug, Display};
use std::process::Abort;

/// A job in a box, which hands out its key's rest.
pub(crate) type Boxed = BoxedJob<65536>;

/// What is done, and what it has to answer.
#[derive(Clone, Copy)]
pub(crate) enum Step {
    /// A call at a moment, of a job of a key.
    Call(u64, u64),
    /// The same, which may wait for longer.
    Lazy(u64, u64),
    /// A tick at a moment, which runs so many.
    Tick(u64, u64),
    /// A turn of the driver.
    Drive(DriverTurn),
    /// A report of a quiescent state, and the grace period that it counts for.
    Report(Option<u64>),
    /// The processor leaves.
    Leave,
    /// It comes back.
    ComeBack,
    /// A turn of the group, which draws so many.
    Group(u64),
    /// The processor is asked to be offloaded.
    Offload,
    /// It is asked not to be.
    Deoffload,
    /// The barrier is opened.
    Open,
    /// A poll of the barrier, which passes over so many.
    Poll(Option<u64>),
    /// What is shown of the processor's lists, where its bypass list is empty: its mode, how many it accepted, and the lists'
    /// lengths and numbers.
    Show(Mode, u64, [u64; 4], [u64; 2]),
}

/// What is found is what is wanted, of what is named: a word, or a step's place.
pub(crate) fn expect<W: Display + Drop, T: PartialEq + Debug + Drop>(
    rt: &impl Abort,
    what: W,
    found: T,
    wanted: T,
) {
    if found != wanted {
        panic!(rt; "{what}: found {found:?}, wanted {wanted:?}");
    }
}

/// A job that hands out its key's rest. None where memory is wanted.
pub(crate) fn boxed(alloc: Global, key: u64) -> Option<Boxed> {
    let call: Box<dyn FnOnce() -> u64 + Send> = Box::new(
        alloc,
        move || -> u64
            ensures { result ≡ key % 65536 }
        { key % 65536 },
    )
    .ok()?;
    Some(BoxedJob::<65536>::new(key, call))
}

/// A job that is made by its key.
pub(crate) trait Keyed: Sized {
    fn of_key(alloc: Global, key: u64) -> Option<Self>;
}

impl Keyed for BoxedJob<65536> {
    fn of_key(alloc: Global, key: u64) -> Option<Self> {
        boxed(alloc, key)
    }
}

/// A core of one processor, at rest.
pub(crate) fn one_processor<J: Job>(
    rt: &impl Abort,
    alloc: Global,
    offloadable: u32,
    blimit: u64,
) -> World<J>
    ensures { IsResting J.key_of J.gives result.core }
{
    let shape = Shape::new(1, offloadable, 1, blimit, 100, 10).expect(rt, "a shape");
    let Ok(world) = World::new(alloc, shape) else {
        panic!(rt; "memory");
    };
    world
}

/// A processor that is here.
pub(crate) fn expect_here<J: Job>(rt: &impl Abort, world: &World<J>, cpu: u64)
    ensures { (cpu_at (state J.key_of world.now.core) cpu).away ≡ false }
{
    if world.is_away(cpu) {
        panic!(rt; "away");
    }
}

/// Processor 0 leaves.
fn leave<J: Job>(rt: &impl Abort, world: &mut World<J>) -> bool
    requires { IsResting J.key_of J.gives world.old.core }
    ensures { RestsAfter J.key_of J.gives (leave_events 0) world.old.core world.new.core }
{
    expect_here(rt, world, 0);
    world.leave(0).expect(rt, "memory");
    world.is_away(0)
}

/// Processor 0 comes back.
fn come_back<J: Job>(rt: &impl Abort, world: &mut World<J>) -> bool
    requires { IsResting J.key_of J.gives world.old.core }
    ensures { RestsAfter J.key_of J.gives (λ w. Return 0 ∷ []) world.old.core world.new.core }
{
    if !world.is_away(0) {
        panic!(rt; "here");
    }
    world.come_back(0);
    world.is_away(0)
}

/// A call that is accepted.
pub(crate) fn call<J: Job>(
    rt: &impl Abort,
    world: &mut World<J>,
    moment: u64,
    job: Option<J>,
) -> Ticket
    requires { IsResting J.key_of J.gives world.old.core }
    ensures { IsResting J.key_of J.gives world.new.core }
{
    let job = job.expect(rt, "a job");
    expect_here(rt, world, 0);
    world.call_rcu(0, moment, job).ok().expect(rt, "a ticket")
}

/// A lazy call that is accepted.
fn call_lazily<J: Job>(rt: &impl Abort, world: &mut World<J>, moment: u64, job: Option<J>) -> Ticket
    requires { IsResting J.key_of J.gives world.old.core }
    ensures { IsResting J.key_of J.gives world.new.core }
{
    let job = job.expect(rt, "a job");
    expect_here(rt, world, 0);
    world
        .call_rcu_lazy(0, moment, job)
        .ok()
        .expect(rt, "a ticket")
}

/// A tick.
pub(crate) fn tick<J: Job>(rt: &impl Abort, world: &mut World<J>, moment: u64) -> Ticked
    requires { IsResting J.key_of J.gives world.old.core }
    ensures { IsResting J.key_of J.gives world.new.core }
{
    expect_here(rt, world, 0);
    world.tick(0, moment).expect(rt, "memory")
}

/// A turn of the driver.
fn drive<J: Job>(rt: &impl Abort, world: &mut World<J>) -> DriverTurn
    requires { IsResting J.key_of J.gives world.old.core }
    ensures { RestsAfter J.key_of J.gives driver_events world.old.core world.new.core }
{
    world.driver_turn().expect(rt, "memory")
}

/// A report of a quiescent state.
fn report<J: Job>(rt: &impl Abort, world: &mut World<J>) -> Option<u64>
    requires { IsResting J.key_of J.gives world.old.core }
    ensures { RestsAfter J.key_of J.gives (λ w. Report 0 ∷ []) world.old.core world.new.core }
{
    expect_here(rt, world, 0);
    world.quiescent(0).expect(rt, "memory")
}

/// A turn of the group. Answers how many it drew.
fn turn_group<J: Job>(rt: &impl Abort, world: &mut World<J>) -> u64
    requires { IsResting J.key_of J.gives world.old.core }
    ensures { IsResting J.key_of J.gives world.new.core }
{
    if !world.has_group(0) {
        panic!(rt; "no group");
    }
    world.group_turn(0).expect(rt, "memory").took
}

/// A processor is asked to be offloaded.
pub(crate) fn offload<J: Job>(world: &mut World<J>, cpu: u64) -> Result<(), SwitchFault>
    requires { IsResting J.key_of J.gives world.old.core }
    ensures { IsResting J.key_of J.gives world.new.core }
{
    world.offload(cpu)
}

/// It is asked not to be.
pub(crate) fn deoffload<J: Job>(world: &mut World<J>, cpu: u64) -> Result<(), SwitchFault>
    requires { IsResting J.key_of J.gives world.old.core }
    ensures { IsResting J.key_of J.gives world.new.core }
{
    world.deoffload(cpu)
}

/// A barrier is opened with these tickets.
pub(crate) fn open<J: Job>(world: &mut World<J>, tickets: &[Ticket]) -> Result<u64, BarrierFault>
    requires { IsResting J.key_of J.gives world.old.core }
    ensures { IsResting J.key_of J.gives world.new.core }
{
    world.barrier(None, tickets)
}

/// The same by processor 0.
pub(crate) fn open_by<J: Job>(
    rt: &impl Abort,
    world: &mut World<J>,
    tickets: &[Ticket],
) -> Result<u64, BarrierFault>
    requires { IsResting J.key_of J.gives world.old.core }
    ensures { IsResting J.key_of J.gives world.new.core }
{
    expect_here(rt, world, 0);
    world.barrier(Some(0), tickets)
}

/// A poll of barrier 0.
fn poll<J: Job>(rt: &impl Abort, world: &mut World<J>) -> Option<Passed>
    requires { IsResting J.key_of J.gives world.old.core }
    ensures { IsResting J.key_of J.gives world.new.core }
{
    world.poll(0).expect(rt, "memory")
}

/// A barrier of one processor that passed over so many.
fn passed_over(count: u64) -> Passed {
    let mut counts = Counts::new(1);
    counts.set(0, count);
    Passed { counts }
}

/// What `lists` shows of a processor whose bypass list is empty.
fn shown(mode: Mode, accepted: u64, lengths: [u64; 4], numbers: [u64; 2]) -> Lists {
    Lists::Cpu {
        mode,
        accepted,
        bypass: 0,
        lengths,
        numbers,
    }
}

/// One step.
fn play_one<J: Job + Keyed>(
    rt: &impl Abort,
    alloc: Global,
    world: &mut World<J>,
    at: usize,
    step: Step,
)
    requires { IsResting J.key_of J.gives world.old.core }
    ensures { IsResting J.key_of J.gives world.new.core }
{
    match step {
        Step::Call(moment, key) => {
            let job = J::of_key(alloc, key);
            expect(rt, at, call(rt, world, moment, job).cpu, 0)
        }
        Step::Lazy(moment, key) => {
            let job = J::of_key(alloc, key);
            expect(rt, at, call_lazily(rt, world, moment, job).cpu, 0)
        }
        Step::Tick(moment, ran) => expect(rt, at, tick(rt, world, moment).ran, ran),
        Step::Drive(turn) => expect(rt, at, drive(rt, world), turn),
        Step::Report(counted) => expect(rt, at, report(rt, world), counted),
        Step::Leave => expect(rt, at, leave(rt, world), true),
        Step::ComeBack => expect(rt, at, come_back(rt, world), false),
        Step::Group(took) => expect(rt, at, turn_group(rt, world), took),
        Step::Offload => expect(rt, at, offload(world, 0), Ok(())),
        Step::Deoffload => expect(rt, at, deoffload(world, 0), Ok(())),
        Step::Open => expect(rt, at, open(world, &[]), Ok(0)),
        Step::Poll(count) => expect(rt, at, poll(rt, world), count.map(passed_over)),
        Step::Show(mode, accepted, lengths, numbers) => {
            let lists = shown(mode, accepted, lengths, numbers);
            expect(rt, at, world.lists(0), lists)
        }
    }
}

/// The steps in order.
pub(crate) fn play<J: Job + Keyed>(
    rt: &impl Abort,
    alloc: Global,
    world: &mut World<J>,
    steps: &[Step],
)
    requires { IsResting J.key_of J.gives world.old.core }
    ensures { IsResting J.key_of J.gives world.new.core }
{
    for at in 0..steps.len() {
        play_one(rt, alloc, world, at, steps[at]);
    }
}
