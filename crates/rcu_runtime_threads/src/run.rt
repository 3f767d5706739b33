//! The run of all parts in threads.

ghost use Rattle.std.specs.Prelude.{◌≡◌, vec_len};
ghost use Rattle.rcu_runtime_threads.specs.Rooms.{AreHalvesFor, IsRoomFor};
ghost use Rattle.rcu_runtime_threads.specs.Runs.{ComeBack, HaveWorked, KeepsUnbegun};
ghost use Rattle.rcu_runtime_threads.specs.Says.{AreSameWorkers, HaveEndedAs};
ghost use Rattle.rcu_runtime_threads.specs.Steers.{EndsBy, Oversees, Passes};
ghost use Rattle.rcu_part_control.specs.Parts.{SameControl};

use crate::crew::{join, join_all};
use crate::pairs::{Halves, pair, part};
use crate::rooms::AllReserved;
use crate::signals::Signals;
use crate::steering::{Steering, open, steer};
use crate::threads::{start_driver, start_groups, start_hands, start_posts};
use crate::worker::{Worker, WorkerEnd};
use rcu_jobs::Job;
use rcu_part_control::{Control, Pauses};
use rcu_parts::{AllParts, Parts};
use std::alloc::Global;
use std::rt::Clock;
use std::sync::{Arc, Wait};
use std::thread::Threads;

/// What a run waits for once every worker has ended, before all threads end.
#[derive(Clone, Copy, Debug, PartialEq, Eq)]
pub enum Ending {
    /// Nothing.
    AtOnce,
    /// That all that was accepted has run.
    AfterBarrier,
    /// The same, once the runtime is shut: then it is drained.
    Drained,
}

/// Waits until so many workers have ended.
fn wait_for_workers<R: Wait + Clock>(rt: &R, signals: &Signals, many: u64) {
    let mut pauses = Pauses::new();
    for _ in rt.forever() {
        if signals.ended() >= many {
            return;
        }
        pauses.pause(rt);
    }
    unreachable!()
}

/// Opens a barrier, and waits until it has passed.
fn pass<R: Wait + Clock>(rt: &R, control: &mut Control)
    ensures same { SameControl control.old control.new }
    ensures passes { Passes control.old control.new }
{
    open(control).wait(rt, control);
}

/// Waits for what the ending waits for.
fn settle<R: Wait + Clock>(rt: &R, control: &mut Control, ending: Ending)
    ensures same { SameControl control.old control.new }
    ensures ends { EndsBy ending control.old control.new }
{
    match ending {
        Ending::AtOnce => {}
        Ending::AfterBarrier => pass(rt, control),
        Ending::Drained => {
            control.shut();
            pass(rt, control);
        }
    }
}

/// What is done while all parts run: the workers begin, control is steered, and once all workers have ended comes what the
/// ending waits for. Where some part has no thread, nothing. Answers whether all parts had one.
fn oversee<G: Steering, R: Wait + Clock>(
    rt: &R,
    control: &mut Control,
    signals: &Signals,
    steering: &mut G,
    many: u64,
    ending: Ending,
) -> bool
    ensures same { SameControl control.old control.new }
    ensures oversees { Oversees G.may ending result control.old control.new }
{
    if signals.is_over() {
        return false;
    }
    signals.begin();
    steer(rt, control, steering);
    wait_for_workers(rt, signals, many);
    settle(rt, control, ending);
    true
}

/// What a run leaves: all parts, the workers and their ends in the order of their processors, and whether each part had a
/// thread.
#[derive(Drop)]
pub(crate) struct Ran<P, W> {
    pub(crate) parts: P,
    pub(crate) workers: Vec<W>,
    pub(crate) ends: Vec<WorkerEnd>,
    pub(crate) has_begun: bool,
}

/// Runs all parts, each in a thread of its own, the processors with their workers.
pub(crate) fn run_parts<
    J: Job<Receipt = S> + 'static,
    W: Worker<J> + 'static,
    R: Threads + Wait + Clock + Copy + Send + 'static,
    S: Send + Drop + 'static,
    G: Steering,
>(
    rt: &R,
    parts: Parts<J>,
    workers: Vec<W>,
    steering: &mut G,
    ending: Ending,
    rooms: AllReserved<J, W>,
) -> Ran<Parts<J>, W>
    requires many { vec_len workers ≡ vec_len parts.processors }
    requires posts { IsRoomFor (vec_len parts.processors) rooms.posts }
    requires at_posts { rooms.at_posts.many ≡ vec_len parts.processors }
    requires halves { AreHalvesFor (vec_len parts.processors) rooms.halves }
    requires others { (rooms.groups.many ≡ vec_len parts.groups)
        × (rooms.hands.many ≡ vec_len parts.hands) }
    ensures parts { HaveWorked J.key_of J.gives parts result.parts }
    ensures control { Oversees G.may ending result.has_begun parts.control result.parts.control }
    ensures workers { ComeBack workers result.workers result.ends }
    ensures names { AreSameWorkers W.name_of workers result.workers }
    ensures unbegun { KeepsUnbegun workers result.workers result.ends }
    ensures ended { HaveEndedAs W.ends_as result.workers result.ends }
{
    let AllParts {
        processors,
        driver,
        groups,
        hands,
        mut control,
    } = parts;
    let AllReserved {
        signals,
        posts,
        at_posts,
        halves,
        groups: at_groups,
        hands: at_hands,
    } = rooms;
    let many = workers.len() as u64;
    let posts = pair(processors, workers, posts);
    let driver = start_driver(rt, driver, &signals);
    let groups = start_groups(rt, groups, &signals, at_groups);
    let hands = start_hands(rt, hands, &signals, at_hands);
    let posts = start_posts(rt, posts, &signals, at_posts);
    let has_begun = oversee(rt, &mut control, &signals, steering, many, ending);
    signals.end();
    let driver = join(rt, driver);
    let groups = join_all(rt, groups);
    let hands = join_all(rt, hands);
    let posts = join_all(rt, posts);
    let Halves {
        processors,
        workers,
        ends,
    } = part(posts, halves);
    Ran {
        parts: AllParts {
            driver,
            groups,
            hands,
            processors,
            control,
        },
        workers,
        ends,
        has_begun,
    }
}
