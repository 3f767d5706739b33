//! The row group-beside-caller of docs/specification/rows.md, in two threads.

use crate::opening::{Work, call, open_offloaded};
use crate::same::assert_same;
use rcu_jobs::Lists;
use rcu_parts::{Group, Processor};
use std::alloc::Global;
use std::process::Abort;
use std::thread;

/// Has a processor make 100 calls, some of them held back by their moments. Answers how many were accepted.
fn call_100(alloc: Global, processor: Processor<Work>) -> (Processor<Work>, u64) {
    let mut processor = processor;
    let mut accepted: u64 = 0;
    for number in 0..100 {
        let ticket = call(alloc, &mut processor, number / 25, number);
        accepted = accepted.wrapping_add(u64::from(ticket.is_some()));
    }
    (processor, accepted)
}

/// Turns a group so often. Answers how many callbacks it took.
fn turn_often(group: Group<Work>, turns: u64) -> (Group<Work>, u64) {
    let mut group = group;
    let mut took: u64 = 0;
    for _ in 0..turns {
        took = took.wrapping_add(group.turn().took);
    }
    (group, took)
}

/// Turns a group until a turn takes nothing, at most 100 times. Answers how many callbacks it took.
fn turn_to_the_end(group: &mut Group<Work>) -> u64 {
    let mut took: u64 = 0;
    for _ in 0..100 {
        let turn = group.turn();
        if turn.took == 0 {
            break;
        }
        took = took.wrapping_add(turn.took);
    }
    took
}

/// How many callbacks a processor's bypass list holds.
fn bypassed(processor: &Processor<Work>) -> u64 {
    match processor.lists() {
        Lists::Cpu { bypass, .. } => bypass,
        Lists::Folk { .. } => 0,
    }
}

/// An offloaded processor and its group.
fn processor_and_group(rt: &impl Abort, alloc: Global) -> (Processor<Work>, Group<Work>) {
    let mut all = open_offloaded(rt, alloc, 10, 10000, 100);
    let processor = all.parts.processors.pop().expect(rt, "a processor");
    (processor, all.parts.groups.pop().expect(rt, "a group"))
}

#[test]
fn group_beside_caller(rt: HostRuntime) {
    let (processor, group) = processor_and_group(&rt, rt.alloc());
    let alloc = rt.alloc();
    let ((processor, accepted), (mut group, beside)) = thread::join(
        &rt,
        move || call_100(alloc, processor),
        move || turn_often(group, 1000),
    );
    let took = beside.wrapping_add(turn_to_the_end(&mut group));
    let found = took.wrapping_add(bypassed(&processor));
    assert_same(&rt, (accepted, found), (100, 100));
}
