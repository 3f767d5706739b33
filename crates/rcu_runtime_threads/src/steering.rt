//! What a program hands in for control: a steering, which says step by step what control does.

ghost use Rattle.std.specs.Prelude.{◌≡◌, ⊤};
ghost use Rattle.rcu_runtime_threads.specs.Steers.{IsSteered, Steers};
ghost use Rattle.rcu_part_control.specs.Parts.{SameControl};

use crate::pauses::rest;
use rcu_jobs::{Counts, Passed, SwitchFault};
use rcu_part_control::{Control, Pauses};
use rcu_parts::Barrier;
use std::rt::Clock;
use std::sync::Wait;

/// What control does next.
#[derive(Clone, Copy, Debug)]
pub enum Order {
    /// Asks that this processor be offloaded: `Switched` answers.
    Offload(u64),
    /// Asks that this processor be local: `Switched` answers.
    Deoffload(u64),
    /// Opens a barrier: `Opened` answers.
    OpenBarrier,
    /// Polls a barrier: `Polled` or `OtherBarrier` answers.
    PollBarrier(Barrier),
    /// Ends acceptance: `Shut` answers.
    Shut,
    /// Nothing: the thread sleeps a little. `Paused` answers.
    Pause,
    /// No order comes after it.
    Done,
}

/// What the order before came to.
#[derive(Clone, Copy, Debug)]
pub enum Reply {
    /// No order came before.
    Began,
    /// The switch was asked for, or why it wasn't.
    Switched(Result<(), SwitchFault>),
    /// The barrier that was opened.
    Opened(Barrier),
    /// The barrier has passed, or None.
    Polled(Option<Passed>),
    /// The barrier counts another number of processors, so another runtime opened it.
    OtherBarrier,
    /// How many callbacks each processor accepted.
    Shut(Counts),
    /// The pause is over.
    Paused,
    /// The last order was made.
    Ended,
}

/// What a program does with control. It never has control: it says what that does, and is told what came of it.
pub trait Steering {
    ghost use Rattle.rcu_runtime_threads.specs.declared.steering.Order.{Order};

    // What it may order. Left out, anything.
    ghost may: { Order → Type 0 } = { λ order. ⊤ };

    /// The next order, where this is what the one before came to.
    fn order(&mut self, reply: Reply) -> Order
        ensures { may result };
}

/// A steering that orders nothing.
#[derive(Clone, Copy, Debug)]
pub struct NoSteering;

impl Steering for NoSteering {
    ghost use Rattle.rcu_runtime_threads.specs.declared.steering.Order.TheVariants.{Done};

    ghost may = { λ order. order ≡ Done };

    fn order(&mut self, _reply: Reply) -> Order
        ensures { result ≡ Order.Done }
    {
        Order::Done
    }
}

/// Polls a barrier, if it is one of this runtime.
fn poll(control: &mut Control, barrier: Barrier) -> Reply
    ensures stays { SameControl control.old control.new }
    ensures does { Steers (Order.PollBarrier barrier) result control.old control.new }
{
    if barrier.counts.n != control.processors() {
        return Reply::OtherBarrier;
    }
    let mut barrier = barrier;
    Reply::Polled(barrier.poll(control))
}

/// Opens a barrier with no tickets.
pub(crate) fn open(control: &mut Control) -> Barrier
    ensures stays { SameControl control.old control.new }
    ensures does { Steers Order.OpenBarrier (Reply.Opened result) control.old control.new }
{
    let Ok(barrier) = control.barrier(&[]) else {
        unreachable!()
    };
    barrier
}

/// Makes one order.
fn obey(control: &mut Control, order: Order) -> Reply
    ensures stays { SameControl control.old control.new }
    ensures does { Steers order result control.old control.new }
{
    match order {
        Order::Offload(p) => Reply::Switched(control.offload(p)),
        Order::Deoffload(p) => Reply::Switched(control.deoffload(p)),
        Order::OpenBarrier => Reply::Opened(open(control)),
        Order::PollBarrier(barrier) => poll(control, barrier),
        Order::Shut => Reply::Shut(control.shut()),
        Order::Pause => Reply::Paused,
        Order::Done => Reply::Ended,
    }
}

/// Makes the orders of a steering, one after another, until the last one.
pub(crate) fn steer<G: Steering, R: Wait + Clock>(rt: &R, control: &mut Control, steering: &mut G)
    ensures same { SameControl control.old control.new }
    ensures steers { IsSteered G.may control.old control.new }
{
    let mut reply = Reply::Began;
    let mut pauses = Pauses::new();
    for _ in rt.forever() {
        reply = obey(control, steering.order(reply));
        if let Reply::Ended = reply {
            return;
        }
        rest(rt, &mut pauses, !matches!(&reply, Reply::Paused));
    }
    unreachable!()
}
