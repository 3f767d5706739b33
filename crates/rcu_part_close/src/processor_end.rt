//! The end of one processor.

ghost use Rattle.std.specs.Prelude.{◌≡◌, ℕ, ◌+◌, ◌≤◌, [], ◌++◌, length, drop, vec_capacity};
ghost use Rattle.rcu_part_lists.specs.ProcessorLists.{holding, held_in, put_by, rear_of};
ghost use Rattle.rcu_part_lists.specs.Helds.{drawn_by, front_of as hands_front, taken_by};
ghost use Rattle.rcu_part_lists.specs.MemberLists.{front_of, rear_of as done_rear};
ghost use Rattle.rcu_lanes.specs.Ends.{SameLane};
ghost use Rattle.rcu_part_close.specs.Ends.{EndsWith, HasRoom, left_of};
ghost use Rattle.rcu_part_close.specs.Moving.{jobs_of};
ghost use Rattle.rcu_part_order.specs.Recorded.{left_in, ran_of};
ghost use Rattle.rcu_part_order.specs.Records.{by_number};

use crate::ended::ProcessorEnd;
use crate::taken::{take_drawn, take_lists, take_undrawn};
use rcu_jobs::Job;
use rcu_lanes::rest;
use rcu_part_lists::{Held, MemberLists, ProcessorLists};
use rcu_part_order::{Records, merge_records};
use std::collections::VecDeque;

/// Ends an offloadable processor, in the room that was found: from its lists, what its group holds of it, what its hand
/// holds, and what processor and hand ran.
///
/// The jobs of what the processor put on its lane and the hand didn't take come back, and then those of what it holds.
pub fn end_offloadable<J: Job>(
    processor_lists: ProcessorLists<J>,
    member: MemberLists<J>,
    held: Held<J>,
    own: Records<J::Receipt>,
    hands: Records<J::Receipt>,
    room: ProcessorEnd<J, J::Receipt>,
) -> ProcessorEnd<J, J::Receipt>
    requires lane { SameLane (front_of member) (rear_of processor_lists) }
    requires done_lane { SameLane (hands_front held) (done_rear member) }
    requires room { (jobs : ℕ) × HasRoom (length (left_in own) + length (left_in hands)) jobs room
        × (length (put_by (holding processor_lists)) + length (held_in (holding processor_lists))
        ≤ length (taken_by held) + jobs) }
    ensures passed { put_by (holding processor_lists)
        ≡ taken_by held ++ drop (length (taken_by held)) (put_by (holding processor_lists)) }
    ensures back { result.back.items ≡ jobs_of (left_of (holding processor_lists) (taken_by held)) }

    // The records of all that ran are the first numbers, and the jobs those of the others.
    ensures ends { EndsWith J.key_of J.gives (ran_of own) (ran_of hands) (holding processor_lists)
        (taken_by held) (drawn_by held) (by_number (ran_of own) (ran_of hands))
        result.back.items }

    // The records that are left are answered, by their numbers.
    ensures kept { result.ran.items ≡ by_number (left_in own) (left_in hands) }
{
    let (done_front, mut batch) = held.into_parts();
    let (rear, own_list, mut bypass) = processor_lists.into_parts();
    let (front, done_rear, list, mut drawn, mut out) = member.into_parts();
    let done_lane = rest(done_front, done_rear);
    let lane = rest(front, rear);
    let ProcessorEnd { ran, mut back } = room;
    take_drawn(&mut batch, done_lane, &mut out, list, &mut back);
    take_undrawn(&mut drawn, lane, &mut back);
    take_lists(&mut bypass, own_list, &mut back);
    let ran = merge_records(
        VecDeque::from(own.into_left()),
        VecDeque::from(hands.into_left()),
        ran,
    );
    ProcessorEnd { ran, back }
}

/// Ends a processor that isn't offloadable, which has put nothing on its lane, in the room that was found for its jobs.
pub fn end_local<J: Job>(
    processor_lists: ProcessorLists<J>,
    own: Records<J::Receipt>,
    mut back: Vec<J>,
) -> ProcessorEnd<J, J::Receipt>
    requires none { put_by (holding processor_lists) ≡ [] }
    requires no_job { back.items ≡ [] }
    requires room { length (held_in (holding processor_lists)) ≤ vec_capacity back }
    ensures kept { result.ran.items ≡ left_in own }
    ensures back { result.back.items ≡ jobs_of (held_in (holding processor_lists)) }
    ensures ends { EndsWith J.key_of J.gives (ran_of own) [] (holding processor_lists) [] []
        (ran_of own) result.back.items }
{
    let (_, own_list, mut bypass) = processor_lists.into_parts();
    take_lists(&mut bypass, own_list, &mut back);
    ProcessorEnd {
        ran: own.into_left(),
        back,
    }
}
