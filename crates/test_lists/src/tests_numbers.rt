//! Numbers and shapes at their limits.

use crate::same::assert_same;
use rcu_numbers::{
    BoardWord, MOST_CALLS, NumbersSpent, PartsShape, ProcessorSet, Shape, all_but, all_processors,
    default_stride, done, ended, first_bits, snap, started,
};

#[test]
fn number_values(rt: HostRuntime) {
    assert_same(&rt, [snap(0), snap(1), snap(4), snap(5)], [4, 8, 8, 12]);
    assert_same(&rt, [ended(1), ended(5)], [4, 8]);
    let starts = [started(0), started(2147483640), started(2147483644)];
    assert_same(&rt, starts, [Ok(1), Ok(2147483641), Err(NumbersSpent)]);
    assert_same(&rt, [done(4, 4), done(3, 4)], [true, false]);
}

#[test]
fn word_values(rt: HostRuntime) {
    let packed = [
        BoardWord::pack(1, 3).bits(),
        BoardWord::pack(4, 0).bits(),
        BoardWord::pack(5, 4294967295).bits(),
    ];
    assert_same(&rt, packed, [4294967299, 17179869184, 25769803775]);
    let word = BoardWord::from_bits(25769803775);
    assert_same(&rt, (word.seq(), word.mask()), (5, 4294967295));
    let reported = word.reported(31);
    assert_same(&rt, [word.owes(31), reported.owes(31)], [true, false]);
    assert_same(
        &rt,
        [reported.mask(), all_processors(32)],
        [2147483647, 4294967295],
    );
    assert_same(&rt, all_but(0), 18446744073709551614);
}

#[test]
fn default_strides(rt: HostRuntime) {
    let strides = [
        default_stride(1),
        default_stride(2),
        default_stride(3),
        default_stride(4),
        default_stride(5),
        default_stride(16),
        default_stride(17),
        default_stride(32),
        default_stride(1000),
        default_stride(1024),
    ];
    assert_same(&rt, strides, [1, 2, 3, 2, 2, 4, 4, 6, 32, 32]);
}

#[test]
fn shapes_within_the_limits(rt: HostRuntime) {
    // the third has a bit at place n
    let made = [
        Shape::new(32, 4294967295, 6, 10, 10000, 1000000).is_some(),
        Shape::new(2, 3, 2, 1, 1, 1).is_some(),
        Shape::new(2, 4, 2, 1, 1, 1).is_some(),
        Shape::new(33, 0, 1, 1, 1, 1).is_some(),
        Shape::new(1, 0, 1, 0, 1, 1).is_some(),
        Shape::new(1, 0, 1, 1, 1, 1000001).is_some(),
    ];
    assert_same(&rt, made, [true, true, false, false, false, false]);
}

#[test]
fn sets_of_processors(rt: HostRuntime) {
    let mut set = ProcessorSet::of_mask(0b110);
    let has = [set.has(0), set.has(1), set.has(2), set.has(32)];
    assert_same(&rt, has, [false, true, true, false]);
    set.add(700);
    let has = [set.has(700), set.has(699), set.has(636), set.has(1)];
    assert_same(&rt, has, [true, false, false, true]);
    let below = [set.copied().is_below(701), set.copied().is_below(700)];
    assert_same(&rt, below, [true, false]);
    assert_same(&rt, [set.has(1024), set.has(u64::MAX)], [false, false]);
    let all = ProcessorSet::of_first(1024).has(1023);
    assert_same(&rt, [all, ProcessorSet::new().is_below(0)], [true, true]);
    let set = ProcessorSet::of_words(&[0, 1, 0, 0, 0, 0, 0, 0, 0, 0, 0, 0, 0, 0, 0, 1 << 63]);
    let has = [set.has(64), set.has(1023), set.has(63), set.has(65)];
    assert_same(&rt, has, [true, true, false, false]);
    assert_same(&rt, [first_bits(1), first_bits(64)], [1, u64::MAX]);
}

#[test]
fn parts_shapes_within_the_limits(rt: HostRuntime) {
    let none = ProcessorSet::new();
    let all = ProcessorSet::of_first(1024);
    // of the second, processor 1023 isn't there
    let made = [
        PartsShape::new(1024, &all, 1024, 1000000, 1000000, MOST_CALLS).is_some(),
        PartsShape::new(1023, &all, 1, 1, 1, 1).is_some(),
        PartsShape::new(1025, &none, 1, 1, 1, 1).is_some(),
        PartsShape::new(0, &none, 1, 1, 1, 1).is_some(),
        PartsShape::new(1, &none, 1025, 1, 1, 1).is_some(),
        PartsShape::new(1, &none, 1, 1000001, 1, 1).is_some(),
        PartsShape::new(1, &none, 1, 1, 1, 0).is_some(),
        PartsShape::new(1, &none, 1, 1, 1, MOST_CALLS + 1).is_some(),
    ];
    assert_same(
        &rt,
        made,
        [true, false, false, false, false, false, false, false],
    );
    let shape = Shape::new(2, 0b10, 1, 3, 4, 5)
        .expect(&rt, "within the limits")
        .for_parts();
    let counts = [
        shape.processors,
        shape.stride,
        shape.blimit,
        shape.qhimark,
        shape.limit,
    ];
    assert_same(&rt, counts, [2, 1, 3, 4, 5]);
    let offloadable = [shape.offloadable.has(1), shape.offloadable.has(0)];
    assert_same(&rt, offloadable, [true, false]);
}
