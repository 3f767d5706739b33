//! Random steps on both lists.

use crate::model::LabelledList;
use rand_core::utils::NextWord;
use rand_pcg::Pcg32;
use rcu_jobs::Callback;
use rcu_lists::Segments;
use std::alloc::{AllocError, Global};

/// How many steps are made.
pub const STEPS: u64 = 10_000;

/// The first step after which the two lists differ, if there is one.
pub fn first_difference(alloc: Global) -> Result<Option<u64>, AllocError> {
    let mut random = Pcg32::new(42, 54);
    let mut list = Segments::new(alloc);
    let mut model = LabelledList::new(alloc);
    for step in 0..STEPS {
        let kind = random.next_word() % 10;
        // Numbers rise along the steps, and stamps are mostly, but not always, in order.
        let seq = step / 4 + u64::from(random.next_word() % 24);
        let agree = match kind {
            0..=2 => {
                list.reserve(1)?;
                list.enqueue(callback(seq));
                model.enqueue(seq)?;
                true
            }
            3 | 4 => {
                list.advance(seq);
                model.advance(seq);
                true
            }
            5..=7 => list.take_done().map(|taken| taken.stamp) == model.take_done(),
            _ => accelerate_both(&mut list, &mut model, seq + 16),
        };
        if !agree || !same(&list, &model) {
            return Ok(Some(step));
        }
    }
    Ok(None)
}

fn callback(stamp: u64) -> Callback<()> {
    Callback {
        cpu: 0,
        number: 0,
        key: 0,
        stamp,
        job: (),
    }
}

// Accelerates both lists where that may be done. Whether they agree on that, and in their answers.
fn accelerate_both(list: &mut Segments<()>, model: &mut LabelledList, seq: u64) -> bool {
    let may = list.may_accelerate(seq);
    if may != model.may_accelerate(seq) {
        return false;
    }
    !may || list.accelerate(seq) == model.accelerate(seq)
}

fn same(list: &Segments<()>, model: &LabelledList) -> bool {
    list.lengths() == model.lengths()
        && list.numbers() == model.numbers()
        && list.newest() == model.newest()
}
