//! Merging by numbers.

ghost use Rattle.std.specs.Prelude.{◌≡◌, ◌+◌, ◌≤◌, [], ◌++◌, length, vec_capacity, IfNone};
ghost use Rattle.std.specs.Option.{option_to_list};
ghost use Rattle.rcu_part_order.specs.Records.{by_number, is_hands_next};

use rcu_jobs::Record;
use std::collections::VecDeque;

/// Whether the next record by its number is the hand's: it has one, and the processor's first, if there is one, has a greater
/// number.
fn is_hands<R>(own: &VecDeque<Record<R>>, hands: &VecDeque<Record<R>>) -> bool
    ensures { result ≡ is_hands_next own.now.items hands.now.items }
{
    match (own.front(), hands.front()) {
        (Some(first), Some(other)) => other.number < first.number,
        (Some(_), None) => false,
        (None, _) => true,
    }
}

/// Takes the next record by its number, if one is left.
fn take_next<R>(own: &mut VecDeque<Record<R>>, hands: &mut VecDeque<Record<R>>) -> Option<Record<R>>
    ensures next { by_number own.old.items hands.old.items
        ≡ option_to_list result ++ by_number own.new.items hands.new.items }
    ensures fewer { length own.old.items + length hands.old.items
        ≡ length (option_to_list result) + (length own.new.items + length hands.new.items) }
    ensures none { IfNone result ((own.new.items ≡ []) × (hands.new.items ≡ [])) }
{
    if is_hands(own, hands) {
        hands.pop_front()
    } else {
        own.pop_front()
    }
}

/// The records of a processor and of its hand, each in the order of their numbers, as one list in that order: in the empty
/// list `all`, which has room for them.
pub fn merge_records<R: Drop>(
    mut own: VecDeque<Record<R>>,
    mut hands: VecDeque<Record<R>>,
    mut all: Vec<Record<R>>,
) -> Vec<Record<R>>
    requires none { all.items ≡ [] }
    requires room { length own.items + length hands.items ≤ vec_capacity all }
    ensures merged { result.items ≡ by_number own.items hands.items }
{
    while let Some(record) = take_next(&mut own, &mut hands) {
        all.push_reserved(record);
    }
    all
}
