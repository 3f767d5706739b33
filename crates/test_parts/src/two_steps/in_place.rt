//! Parts in place, of which a callback begins and ends where they stand.

use crate::opening::Work;
use rcu_jobs::Stop;
use rcu_parts::{HandInPlace, ProcessorInPlace};

/// Begins a callback of a processor, and answers its job, or why none was begun. None where one runs.
pub fn begin(processor: &mut ProcessorInPlace<Work>, moment: u64) -> Option<Result<Work, Stop>> {
    if processor.is_running() {
        return None;
    }
    Some(processor.begin(moment))
}

/// Ends the callback of a processor that runs. Answers whether one did.
pub fn finish(processor: &mut ProcessorInPlace<Work>, receipt: u64) -> bool {
    if !processor.is_running() {
        return false;
    }
    processor.finish(receipt);
    true
}

/// Begins a callback of a hand, and answers its job, or why none was begun. None where one runs.
pub fn hand_begin(hand: &mut HandInPlace<Work>) -> Option<Result<Work, Stop>> {
    if hand.is_running() {
        return None;
    }
    Some(hand.begin())
}

/// Ends the callback of a hand that runs. Answers whether one did.
pub fn hand_finish(hand: &mut HandInPlace<Work>, receipt: u64) -> bool {
    if !hand.is_running() {
        return false;
    }
    hand.finish(receipt);
    true
}
