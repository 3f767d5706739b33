//! Calls of a processor or a hand.

ghost use Rattle.std.specs.Prelude.{◌≡◌, ◌≢◌, ◌↔◌, IsTrue};
ghost use Rattle.std.specs.Option.{unwrap_or};
ghost use Rattle.rcu_c.specs.Exports.{Refuses, Tells, TellsShown, job_of, kind_of_call};
ghost use Rattle.rcu_c.specs.Words.{AreListWords};
ghost use Rattle.rcu_c_slots.specs.Away.{LeavesBy, ReturnsBy};
ghost use Rattle.rcu_c_slots.specs.Polls.{PollsStateBy, StartsPollBy};
ghost use Rattle.rcu_c_slots.specs.Processors.{CallsBy, ReportsBy};
ghost use Rattle.rcu_c_slots.specs.Runs.{BeginsBy, FinishesBy, GoesOnBy};
ghost use Rattle.rcu_c_slots.specs.Shows.{ShowsAccepted, ShowsLeft, ShowsLists};
ghost use Rattle.rcu_c_slots.specs.declared.fault.Fault.TheVariants.{Reading};

use crate::words::{ListWords, TicketWords, words_of_lists};
use rcu_c_slots::{Fault, ForeignJob, Slot};
use rcu_jobs::Ticket;
use rcu_lists::Kind;
use std::alloc::Global;

/// A plain call, or a lazy one.
fn kind_of_call(lazy: bool) -> Kind
    ensures { result ≡ kind_of_call lazy }
{
    if lazy { Kind::Lazy } else { Kind::Plain }
}

/// `rcuo_call` and `rcuo_call_lazy`: accepts a job, which comes by its words, and gives its ticket.
#[unsafe(no_mangle)]
pub extern "C" fn rcuo_slot_call(
    alloc: Global,
    slot: &mut Slot,
    lazy: bool,
    moment: u64,
    key: u64,
    function: u64,
    argument: u64,
    ticket: &mut TicketWords,
) -> u32
    ensures tells { Tells (CallsBy (kind_of_call lazy) moment (job_of key function argument))
        (λ t. (ticket.new.processor ≡ t.cpu) × (ticket.new.number ≡ t.number)) result slot.old
        slot.new }
    ensures stays { result ≢ 0 → ticket.new ≡ ticket.old }
{
    let job = ForeignJob {
        key,
        function,
        argument,
    };
    match slot.call(alloc, kind_of_call(lazy), moment, job) {
        Ok(Ticket { cpu, number }) => {
            *ticket = TicketWords {
                processor: cpu,
                number,
            };
            0
        }
        Err(fault) => fault.number(),
    }
}

/// Whether a read section of the slot's processor is open.
fn is_read(slot: &Slot) -> bool
    ensures { IsTrue result ↔ (slot.now.reading ≢ 0) }
{
    slot.reading != 0
}

/// `rcuo_quiescent`: reports a quiescent state, unless a read section is open.
#[unsafe(no_mangle)]
pub extern "C" fn rcuo_slot_quiescent(alloc: Global, slot: &mut Slot, counted: &mut u64) -> u32
    ensures tells { slot.old.reading ≡ 0
        → Tells ReportsBy (λ n. counted.new ≡ unwrap_or n 0) result slot.old slot.new }
    ensures reading { slot.old.reading ≢ 0 → Refuses Reading result slot.old slot.new }
    ensures stays { result ≢ 0 → counted.new ≡ counted.old }
{
    if is_read(slot) {
        return Fault::Reading.number();
    }
    match slot.quiescent(alloc) {
        Ok(number) => {
            *counted = number.unwrap_or(0);
            0
        }
        Err(fault) => fault.number(),
    }
}

/// `rcuo_leave`: the processor is away, unless a read section is open.
#[unsafe(no_mangle)]
pub extern "C" fn rcuo_slot_leave(alloc: Global, slot: &mut Slot) -> u32
    ensures tells { slot.old.reading ≡ 0
        → Tells LeavesBy (λ _. Unit {0}) result slot.old slot.new }
    ensures reading { slot.old.reading ≢ 0 → Refuses Reading result slot.old slot.new }
{
    if is_read(slot) {
        return Fault::Reading.number();
    }
    match slot.leave(alloc) {
        Ok(()) => 0,
        Err(fault) => fault.number(),
    }
}

/// `rcuo_return`: the processor is back.
#[unsafe(no_mangle)]
pub extern "C" fn rcuo_slot_return(alloc: Global, slot: &mut Slot) -> u32
    ensures { Tells ReturnsBy (λ _. Unit {0}) result slot.old slot.new }
{
    match slot.come_back(alloc) {
        Ok(()) => 0,
        Err(fault) => fault.number(),
    }
}

/// `rcuo_start_poll`: asks for a grace period, and gives its cookie.
#[unsafe(no_mangle)]
pub extern "C" fn rcuo_slot_start_poll(alloc: Global, slot: &mut Slot, cookie: &mut u64) -> u32
    ensures tells { Tells StartsPollBy (λ n. cookie.new ≡ n) result slot.old slot.new }
    ensures stays { result ≢ 0 → cookie.new ≡ cookie.old }
{
    match slot.start_poll(alloc) {
        Ok(number) => {
            *cookie = number;
            0
        }
        Err(fault) => fault.number(),
    }
}

/// `rcuo_poll_state`: whether the grace period of a cookie has ended.
#[unsafe(no_mangle)]
pub extern "C" fn rcuo_slot_poll_state(
    alloc: Global,
    slot: &mut Slot,
    cookie: u64,
    elapsed: &mut bool,
) -> u32
    ensures tells { Tells (PollsStateBy cookie) (λ over. elapsed.new ≡ over) result slot.old
        slot.new }
    ensures stays { result ≢ 0 → elapsed.new ≡ elapsed.old }
{
    match slot.poll_state(alloc, cookie) {
        Ok(over) => {
            *elapsed = over;
            0
        }
        Err(fault) => fault.number(),
    }
}

/// `rcuo_begin`: begins a callback, and hands its job out.
#[unsafe(no_mangle)]
pub extern "C" fn rcuo_slot_begin(
    alloc: Global,
    slot: &mut Slot,
    moment: u64,
    job: &mut ForeignJob,
) -> u32
    ensures tells { Tells (BeginsBy moment) (λ begun. job.new ≡ begun) result slot.old slot.new }
    ensures stays { result ≢ 0 → job.new ≡ job.old }
{
    match slot.begin(alloc, moment, job) {
        Ok(()) => 0,
        Err(fault) => fault.number(),
    }
}

/// `rcuo_finish`: ends the callback that was begun.
#[unsafe(no_mangle)]
pub extern "C" fn rcuo_slot_finish(alloc: Global, slot: &mut Slot) -> u32
    ensures { Tells FinishesBy (λ _. Unit {0}) result slot.old slot.new }
{
    match slot.finish(alloc) {
        Ok(()) => 0,
        Err(fault) => fault.number(),
    }
}

/// `rcuo_next`: ends the callback that was begun, and then begins another and hands its job out.
#[unsafe(no_mangle)]
pub extern "C" fn rcuo_slot_next(
    alloc: Global,
    slot: &mut Slot,
    moment: u64,
    job: &mut ForeignJob,
) -> u32
    ensures tells { Tells (GoesOnBy moment) (λ begun. job.new ≡ begun) result slot.old slot.new }
    ensures stays { result ≢ 0 → job.new ≡ job.old }
{
    match slot.next(alloc, moment, job) {
        Ok(()) => 0,
        Err(fault) => fault.number(),
    }
}

/// `rcuo_accepted`: how many callbacks a processor accepted.
#[unsafe(no_mangle)]
pub extern "C" fn rcuo_slot_accepted(alloc: Global, slot: &mut Slot, accepted: &mut u64) -> u32
    ensures tells { TellsShown ShowsAccepted (λ n. accepted.new ≡ n) result slot.old slot.new }
    ensures stays { result ≢ 0 → accepted.new ≡ accepted.old }
{
    match slot.accepted(alloc) {
        Ok(number) => {
            *accepted = number;
            0
        }
        Err(fault) => fault.number(),
    }
}

/// `rcuo_left`: how many calls a processor still accepts at most.
#[unsafe(no_mangle)]
pub extern "C" fn rcuo_slot_left(alloc: Global, slot: &mut Slot, left: &mut u64) -> u32
    ensures tells { TellsShown ShowsLeft (λ n. left.new ≡ n) result slot.old slot.new }
    ensures stays { result ≢ 0 → left.new ≡ left.old }
{
    match slot.left(alloc) {
        Ok(number) => {
            *left = number;
            0
        }
        Err(fault) => fault.number(),
    }
}

/// `rcuo_lists`: what a processor shows of its callbacks.
#[unsafe(no_mangle)]
pub extern "C" fn rcuo_slot_lists(alloc: Global, slot: &mut Slot, lists: &mut ListWords) -> u32
    ensures tells { TellsShown ShowsLists (AreListWords lists.new) result slot.old slot.new }
    ensures stays { result ≢ 0 → lists.new ≡ lists.old }
{
    match slot.lists(alloc) {
        Ok(shown) => {
            *lists = words_of_lists(shown);
            0
        }
        Err(fault) => fault.number(),
    }
}
