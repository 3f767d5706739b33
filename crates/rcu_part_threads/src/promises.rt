//! What a thread promises of the part that it gives back.

use crate::runs::Runs;
use rcu_part_control::Driver;
use rcu_part_group::Group;
use rcu_part_hand::Hand;
use std::snapshot::Snapshot;
use std::thread::{Promise, PromisedHandle};

/// The promise of a thread that runs a part: what it gives back is what comes back of this part. The driver, a group, a hand
/// or a processor that runs until the runtime is halted comes back the same, once it saw the halt word set.
#[derive(Drop)]
pub struct Stays<P>(pub Snapshot<P>);

impl<P: Runs> Promise<P::Back> for Stays<P> {
    ghost kept_by = { λ p back. P.comes_back p.0.value back };
}

/// A thread that runs a part.
pub(crate) type Running<P> = PromisedHandle<<P as Runs>::Back, Stays<P>>;

/// A thread that runs the driver.
pub type RunningDriver = PromisedHandle<Driver, Stays<Driver>>;

/// A thread that runs a group.
pub type RunningGroup<J> = PromisedHandle<Group<J>, Stays<Group<J>>>;

/// A thread that runs a hand.
pub type RunningHand<J> = PromisedHandle<Hand<J>, Stays<Hand<J>>>;
