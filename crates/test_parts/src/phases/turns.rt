//! The threads of the groups and of the hands.

ghost use Rattle.std.specs.Prelude.{All};
ghost use Rattle.std.specs.List.{AllZip};
ghost use Rattle.rcu_part_hand.specs.Hands.{IsSoundHand, SameHand};
ghost use Rattle.test_parts.specs.Kept.{GroupsKeep, HandsKeep};

use rcu_jobs::Job;
use rcu_parts::{Group, Hand};
use std::thread;

/// A turn of each group.
fn turn_each_group<J: Job<Receipt = u64>>(groups: &mut Vec<Group<J>>)
    ensures { GroupsKeep groups.old.items groups.new.items }
{
    for place in 0..groups.len() {
        groups[place].turn();
    }
}

/// So many turns of each group.
pub(crate) fn turn_groups<J: Job<Receipt = u64>>(groups: Vec<Group<J>>, turns: u64) -> Vec<Group<J>>
    ensures { GroupsKeep groups.items result.items }
{
    let mut groups = groups;
    for _ in 0..turns {
        turn_each_group(&mut groups);
        thread::yield_now();
    }
    groups
}

/// A turn of each hand.
fn turn_each_hand<J: Job<Receipt = u64>>(hands: &mut Vec<Hand<J>>)
    ensures { HandsKeep J.key_of J.gives hands.old.items hands.new.items }
{
    for place in 0..hands.len() {
        hands[place].turn();
    }
}

/// So many turns of each hand.
pub(crate) fn turn_hands<J: Job<Receipt = u64>>(hands: Vec<Hand<J>>, turns: u64) -> Vec<Hand<J>>
    ensures { HandsKeep J.key_of J.gives hands.items result.items }
{
    let mut hands = hands;
    for _ in 0..turns {
        turn_each_hand(&mut hands);
        thread::yield_now();
    }
    hands
}
