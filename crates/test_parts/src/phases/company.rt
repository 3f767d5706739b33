//! All parts between two phases.

ghost use Rattle.std.proofs.Props.{props};
ghost use Rattle.test_parts.specs.Kept.{IsOurs};

use crate::phases::phase::{Answer, Reply};
use rcu_parts::{Barrier, Control, Driver};

/// The processors, and what their calls answered, in order.
#[derive(Drop)]
pub struct Callers<P> {
    pub processors: Vec<P>,
    pub answers: Vec<Answer>,
}

/// The driver and control, the barrier that is open, and what it answered so far, in order.
#[derive(Drop)]
pub struct Center {
    pub driver: Driver,
    pub control: Control,
    pub barrier: Option<Barrier>,
    pub replies: Vec<Reply>,
    ghost ours: { IsOurs control barrier } by { Prim.hlevel props },
}

/// All parts between two phases, with what was answered so far.
#[derive(Drop)]
pub struct Company<P, G, H> {
    pub callers: Callers<P>,
    pub groups: Vec<G>,
    pub hands: Vec<H>,
    pub center: Center,
}
