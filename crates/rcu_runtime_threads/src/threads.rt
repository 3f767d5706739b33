//! Threads for the parts.

ghost use Rattle.std.specs.Prelude.{◌≡◌, ◌≤◌, vec_len};
ghost use Rattle.std.specs.List.{AllZip};
ghost use denote.Param.Send.{IsSend};
ghost use Rattle.rcu_runtime_threads.specs.Crews.{HasBegun};
ghost use Rattle.rcu_runtime_threads.specs.Stays.{GroupStays, HandStays};
ghost use Rattle.rcu_runtime_threads.specs.Steps.{PostWorks};
ghost use Rattle.rcu_part_control.specs.Parts.{SameDriver};

use crate::crew::{Crew, Reserved, Started};
use crate::part::{Running, Station, Stays, Working, Works};
use crate::post::run_post;
use crate::signals::Signals;
use crate::turns::{run_driver, run_group, run_hand};
use crate::worker::Worker;
use rcu_jobs::Job;
use rcu_part_control::Driver;
use rcu_parts::{Group, Hand};
use std::alloc::Global;
use std::rt::Clock;
use std::snapshot::Snapshot;
use std::sync::{Arc, Wait};
use std::thread;
use std::thread::Threads;

/// Starts a thread for the driver.
pub(crate) fn start_driver<R: Threads + Wait + Clock + Copy + Send + 'static>(
    rt: &R,
    driver: Driver,
    signals: &Arc<Signals, Global>,
) -> Started<Running<Driver>, Driver>
    ensures { HasBegun (λ thread. thread.promise.0.value) SameDriver driver result }
{
    let Ok(shared) = Arc::try_clone(signals) else {
        signals.end();
        return Started::Back(run_driver(driver, rt, signals));
    };
    let own = *rt;
    let promise = Stays(Snapshot::of(&driver));
    let run = move || -> Driver
        ensures { SameDriver driver result }
    { run_driver(driver, &own, &shared) };
    match thread::spawn_with(rt, promise, run) {
        Ok(thread) => Started::Running(thread),
        Err(refused) => {
            signals.end();
            Started::Back((refused.value)())
        }
    }
}

/// Starts a thread for a group.
pub(crate) fn start_group<
    J: Job<Receipt = S> + 'static,
    R: Threads + Wait + Clock + Copy + Send + 'static,
    S: Send + Drop + 'static,
>(rt: &R, group: Group<J>, signals: &Arc<Signals, Global>) -> Started<Running<Group<J>>, Group<J>>
    ensures { HasBegun (λ thread. thread.promise.0.value) GroupStays group result }
{
    let Ok(shared) = Arc::try_clone(signals) else {
        signals.end();
        return Started::Back(run_group(group, rt, signals));
    };
    let own = *rt;
    let promise = Stays(Snapshot::of(&group));
    let run = move || -> Group<J>
        requires { IsSend J.row × IsSend R.row × IsSend S.row }
        ensures { GroupStays group result }
    { run_group(group, &own, &shared) };
    match thread::spawn_with(rt, promise, run) {
        Ok(thread) => Started::Running(thread),
        Err(refused) => {
            signals.end();
            Started::Back((refused.value)())
        }
    }
}

/// Starts a thread for each group.
pub(crate) fn start_groups<
    J: Job<Receipt = S> + 'static,
    R: Threads + Wait + Clock + Copy + Send + 'static,
    S: Send + Drop + 'static,
>(
    rt: &R,
    groups: Vec<Group<J>>,
    signals: &Arc<Signals, Global>,
    room: Reserved<Running<Group<J>>, Group<J>>,
) -> Crew<Running<Group<J>>, Group<J>>
    requires { vec_len groups ≤ room.many }
    ensures { AllZip (HasBegun (λ thread. thread.promise.0.value) GroupStays) groups.items
        result.started.items }
{
    let Reserved {
        mut started,
        ended,
        many: _,
    } = room;
    for group in groups {
        started.push_reserved(start_group(rt, group, signals));
    }
    Crew { started, ended }
}

/// Starts a thread for a hand.
pub(crate) fn start_hand<
    J: Job<Receipt = S> + 'static,
    R: Threads + Wait + Clock + Copy + Send + 'static,
    S: Send + Drop + 'static,
>(rt: &R, hand: Hand<J>, signals: &Arc<Signals, Global>) -> Started<Running<Hand<J>>, Hand<J>>
    ensures { HasBegun (λ thread. thread.promise.0.value) (HandStays J.key_of J.gives) hand result }
{
    let Ok(shared) = Arc::try_clone(signals) else {
        signals.end();
        return Started::Back(run_hand(hand, rt, signals));
    };
    let own = *rt;
    let promise = Stays(Snapshot::of(&hand));
    let run = move || -> Hand<J>
        requires { IsSend J.row × IsSend R.row × IsSend S.row }
        ensures { HandStays J.key_of J.gives hand result }
    { run_hand(hand, &own, &shared) };
    match thread::spawn_with(rt, promise, run) {
        Ok(thread) => Started::Running(thread),
        Err(refused) => {
            signals.end();
            Started::Back((refused.value)())
        }
    }
}

/// Starts a thread for each hand.
pub(crate) fn start_hands<
    J: Job<Receipt = S> + 'static,
    R: Threads + Wait + Clock + Copy + Send + 'static,
    S: Send + Drop + 'static,
>(
    rt: &R,
    hands: Vec<Hand<J>>,
    signals: &Arc<Signals, Global>,
    room: Reserved<Running<Hand<J>>, Hand<J>>,
) -> Crew<Running<Hand<J>>, Hand<J>>
    requires { vec_len hands ≤ room.many }
    ensures { AllZip (HasBegun (λ thread. thread.promise.0.value) (HandStays J.key_of J.gives))
        hands.items result.started.items }
{
    let Reserved {
        mut started,
        ended,
        many: _,
    } = room;
    for hand in hands {
        started.push_reserved(start_hand(rt, hand, signals));
    }
    Crew { started, ended }
}

/// Starts a thread for a processor with its worker.
pub(crate) fn start_post<
    J: Job<Receipt = S> + 'static,
    W: Worker<J> + 'static,
    R: Threads + Wait + Clock + Copy + Send + 'static,
    S: Send + Drop + 'static,
>(
    rt: &R,
    post: Station<J, W>,
    signals: &Arc<Signals, Global>,
) -> Started<Working<J, W>, Station<J, W>>
    ensures { HasBegun (λ thread. thread.promise.0.value)
        (PostWorks J.key_of J.gives W.name_of W.ends_as) post result }
{
    let Ok(shared) = Arc::try_clone(signals) else {
        signals.end();
        return Started::Back(run_post(post, rt, signals));
    };
    let own = *rt;
    let promise = Works(Snapshot::of(&post));
    let run = move || -> Station<J, W>
        requires { IsSend J.row × IsSend W.row × IsSend R.row × IsSend S.row }
        ensures { PostWorks J.key_of J.gives W.name_of W.ends_as post result }
    { run_post(post, &own, &shared) };
    match thread::spawn_with(rt, promise, run) {
        Ok(thread) => Started::Running(thread),
        Err(refused) => {
            signals.end();
            Started::Back((refused.value)())
        }
    }
}

/// Starts a thread for each post.
pub(crate) fn start_posts<
    J: Job<Receipt = S> + 'static,
    W: Worker<J> + 'static,
    R: Threads + Wait + Clock + Copy + Send + 'static,
    S: Send + Drop + 'static,
>(
    rt: &R,
    posts: Vec<Station<J, W>>,
    signals: &Arc<Signals, Global>,
    room: Reserved<Working<J, W>, Station<J, W>>,
) -> Crew<Working<J, W>, Station<J, W>>
    requires { vec_len posts ≤ room.many }
    ensures { AllZip (HasBegun (λ thread. thread.promise.0.value)
        (PostWorks J.key_of J.gives W.name_of W.ends_as)) posts.items result.started.items }
{
    let Reserved {
        mut started,
        ended,
        many: _,
    } = room;
    for post in posts {
        started.push_reserved(start_post(rt, post, signals));
    }
    Crew { started, ended }
}
