//! The room that `close` finds before anything moves.

ghost use Rattle.std.specs.Prelude.{◌≡◌, IfOk, Option, drop, length, map};
ghost use Rattle.std.specs.List.{AllZip};
ghost use Rattle.rcu_board.specs.Seats.{reports_of};
ghost use Rattle.rcu_part_close.specs.Parts.{HandPart, hand_kept, hand_ran, hand_taken};
ghost use Rattle.rcu_part_processor.specs.Processors.{view_of};
ghost use Rattle.rcu_parts.specs.AtClose.{cpu_part, cpu_parts, hand_for, hands_after};
ghost use Rattle.rcu_parts.specs.Rooms.{FitsAll, FitsCpu};

use rcu_jobs::{Job, Record};
use rcu_part_close::ProcessorEnd;
use rcu_part_group::GroupMember;
use rcu_part_hand::Hand;
use rcu_part_processor::Processor;
use std::alloc::{AllocError, Global};

/// Room for what is left of all processors, and how many grace periods each passed.
pub(crate) struct Reserved<J: Job> {
    /// Of each processor.
    pub(crate) ends: Vec<ProcessorEnd<J, J::Receipt>>,
    pub(crate) ran: Vec<Vec<Record<J::Receipt>>>,
    pub(crate) back: Vec<Vec<J>>,
    /// How many grace periods each passed.
    pub(crate) reports: Vec<u64>,
    /// For the members of all groups.
    pub(crate) members: Vec<GroupMember<J>>,
}

impl<J: Job> Reserved<J> {
    /// Room for these processors, these hands, and as many members of groups.
    pub(crate) fn find(
        alloc: Global,
        processors: &Vec<Processor<J>>,
        hands: &Vec<Hand<J>>,
    ) -> Result<Reserved<J>, AllocError>
        ensures { IfOk result (λ room. FitsAll processors.now.items hands.now.items room) }
    {
        let n = processors.len();
        Ok(Reserved {
            ends: find_ends(alloc, processors, hands)?,
            ran: Vec::with_capacity(alloc, n)?,
            back: Vec::with_capacity(alloc, n)?,
            reports: count_reports(alloc, processors)?,
            members: Vec::with_capacity(alloc, hands.len())?,
        })
    }
}

/// How many grace periods each processor passed.
fn count_reports<J: Job>(
    alloc: Global,
    processors: &Vec<Processor<J>>,
) -> Result<Vec<u64>, AllocError>
    ensures { IfOk result (λ reports.
        reports.items ≡ map (λ p. reports_of (view_of p.state)) processors.now.items) }
{
    let mut reports = Vec::with_capacity(alloc, processors.len())?;
    for processor in processors.iter() {
        reports.push_reserved(processor.reports());
    }
    Ok(reports)
}

/// Room for what is left of each processor. The offloadable ones have these hands, in order.
fn find_ends<J: Job>(
    alloc: Global,
    processors: &Vec<Processor<J>>,
    hands: &Vec<Hand<J>>,
) -> Result<Vec<ProcessorEnd<J, J::Receipt>>, AllocError>
    ensures { IfOk result (λ ends.
        AllZip FitsCpu (cpu_parts processors.now.items hands.now.items) ends.items) }
{
    let mut ends = Vec::with_capacity(alloc, processors.len())?;
    let mut next = 0;
    for processor in processors.iter() {
        let (ran, left, after) = counted_by_hand(processor, hands, next);
        ends.push_reserved(find_end(alloc, processor, ran, left)?);
        next = after;
    }
    Ok(ends)
}

/// How many callbacks the hand of a processor ran, if it has one, where this many hands are those of processors before it; of how
/// many of these the records are left; and how many hands are not those of processors behind it.
fn counted_by_hand<J: Job>(
    processor: &Processor<J>,
    hands: &Vec<Hand<J>>,
    before: usize,
) -> (usize, usize, usize)
    ensures ran { result.0
        ≡ length (hand_ran (hand_for processor.now (drop before hands.now.items))) }
    ensures kept { result.1
        ≡ length (hand_kept (hand_for processor.now (drop before hands.now.items))) }
    ensures left { drop result.2 hands.now.items
        ≡ hands_after processor.now (drop before hands.now.items) }
{
    if !processor.is_offloadable() {
        return (0, 0, before);
    }
    match hands.get(before) {
        Some(hand) => (hand.ran(), hand.records_left(), before + 1),
        None => (0, 0, before),
    }
}

/// Room for what is left of this processor and of its hand, which ran so many callbacks, of whose records so many are left.
fn find_end<J: Job>(
    alloc: Global,
    processor: &Processor<J>,
    ran: usize,
    left: usize,
) -> Result<ProcessorEnd<J, J::Receipt>, AllocError>
    ensures { IfOk result (λ room.
        (hand : Option (HandPart J J.Receipt)) → length (hand_kept hand) ≡ left
        → length (hand_taken hand) ≡ ran → FitsCpu (cpu_part processor.now hand) room) }
{
    let Some(all) = processor.ran().checked_add(ran) else {
        return Err(AllocError);
    };
    let Some(records) = processor.records_left().checked_add(left) else {
        return Err(AllocError);
    };
    let jobs = (processor.accepted() as usize).saturating_sub(all);
    ProcessorEnd::with_room(alloc, records, jobs)
}
