//! What the thread of a part promises.

use crate::post::Post;
use crate::worker::Worker;
use rcu_jobs::Job;
use rcu_part_control::Driver;
use rcu_parts::{Group, Hand, Processor};
use std::snapshot::Snapshot;
use std::thread::{Promise, PromisedHandle};

/// The promise of a thread that runs a part: what comes back is the same part.
#[derive(Drop)]
pub struct Stays<P>(pub Snapshot<P>);

impl Promise<Driver> for Stays<Driver> {
    ghost use Rattle.rcu_part_control.specs.Parts.{SameDriver};

    ghost kept_by = { λ p d. SameDriver p.0.value d };
}

impl<J: Job> Promise<Group<J>> for Stays<Group<J>> {
    ghost use Rattle.rcu_runtime_threads.specs.Stays.{GroupStays};

    ghost kept_by = { λ p g. GroupStays p.0.value g };
}

impl<J: Job> Promise<Hand<J>> for Stays<Hand<J>> {
    ghost use Rattle.rcu_runtime_threads.specs.Stays.{HandStays};

    ghost kept_by = { λ p h. HandStays J.key_of J.gives p.0.value h };
}

/// The promise of a thread in which a worker works: what comes back is the same processor.
#[derive(Drop)]
pub struct Works<P>(pub Snapshot<P>);

impl<J: Job, W: Worker<J>> Promise<Post<Processor<J>, W>> for Works<Post<Processor<J>, W>> {
    ghost use Rattle.rcu_runtime_threads.specs.Steps.{PostWorks};

    ghost kept_by = { λ p q. PostWorks J.key_of J.gives W.name_of W.ends_as p.0.value q };
}

/// A thread that runs a part.
pub(crate) type Running<P> = PromisedHandle<P, Stays<P>>;

/// A processor with its worker.
pub(crate) type Station<J, W> = Post<Processor<J>, W>;

/// A thread in which a worker works.
pub(crate) type Working<J, W> = PromisedHandle<Station<J, W>, Works<Station<J, W>>>;
