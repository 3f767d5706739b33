//! The keys that make the shape, and other whole numbers: docs/specification/rules.md, "Limits".

ghost use Rattle.std.specs.Prelude.{◌≡◌, ◌<◌, ◌≤◌, ◌^◌, Ok, Err, IfOk, codes};
ghost use Rattle.rcu_numbers.specs.declared.shape.TheConstants.{MOST_PROCESSORS};
ghost use Rattle.toml.specs.Data.{get_member};
ghost use Rattle.toml.specs.View.{table_view, view};
ghost use Rattle.rcu_setup.specs.Faults.{Gives, key_name, missing_processors};
ghost use Rattle.rcu_setup.specs.Numbers.{default_stride_of, nocbs_of, shape_of, shape_view, whole_in, whole_or};

use crate::fault::{Key, SetupFault};
use crate::keys::at;
use crate::list::cpu_list;
use rcu_numbers::{
    DEFAULT_BLIMIT, DEFAULT_LIMIT, DEFAULT_QHIMARK, MOST_CALLBACKS, MOST_PROCESSORS, Shape,
    default_stride,
};
use toml::{Table, Value};

/// A whole number from `least` to `most`.
fn whole(key: Key, least: u64, most: u64, value: &Value) -> Result<u64, SetupFault>
    ensures answer { Gives (λ n. n) result (whole_in key least most (view value.now)) }
    ensures within { IfOk result (λ n. (least ≤ n) × (n ≤ most)) }
{
    let Some(number) = value.as_integer() else {
        return Err(SetupFault::WrongKind(key));
    };
    match u64::try_from(number) {
        Ok(number) if least <= number && number <= most => Ok(number),
        _ => Err(SetupFault::OutOfRange(key)),
    }
}

/// The number at a key, or `other` where the key is absent.
#[tactic(auto, unfolding(crate::specs::Numbers::whole_or))]
pub(crate) fn whole_or(
    table: &Table,
    key: Key,
    least: u64,
    most: u64,
    other: u64,
) -> Result<u64, SetupFault>
    requires { (least ≤ other) × (other ≤ most) }
    ensures answer { Gives (λ n. n) result
        (whole_or key least most (Ok other) (get_member (key_name key) (table_view table.now))) }
    ensures within { IfOk result (λ n. (least ≤ n) × (n ≤ most)) }
{
    match at(table, key) {
        Some(value) => whole(key, least, most, value),
        None => Ok(other),
    }
}

#[tactic(auto, unfolding(crate::specs::Numbers::whole_or))]
fn processors(table: &Table) -> Result<u64, SetupFault>
    ensures answer { Gives (λ n. n) result
        (whole_or Key.Processors 1 MOST_PROCESSORS (Err missing_processors)
        (get_member (codes "processors") (table_view table.now))) }
    ensures within { IfOk result (λ n. (1 ≤ n) × (n ≤ MOST_PROCESSORS)) }
{
    match at(table, Key::Processors) {
        Some(value) => whole(Key::Processors, 1, MOST_PROCESSORS, value),
        None => Err(SetupFault::MissingProcessors),
    }
}

/// The mask of the offloadable processors, among `n`.
#[tactic(auto, unfolding(crate::specs::Numbers::nocbs_of))]
fn nocbs(table: &Table, n: u64) -> Result<u32, SetupFault>
    requires { n ≤ MOST_PROCESSORS }
    ensures answer { Gives (λ m. m) result
        (nocbs_of n (get_member (codes "nocbs") (table_view table.now))) }
    ensures within { IfOk result (λ m. m < 2 ^ n) }
{
    let Some(value) = at(table, Key::Nocbs) else {
        return Ok(0);
    };
    match value.as_str() {
        Some(text) => cpu_list(text, n),
        None => Err(SetupFault::WrongKind(Key::Nocbs)),
    }
}

/// The stride of `n` processors where none is given.
fn stride_of(n: u64) -> u64
    requires { (1 ≤ n) × (n ≤ MOST_PROCESSORS) }
    ensures value { result ≡ default_stride_of n }
    ensures within { (1 ≤ result) × (result ≤ MOST_PROCESSORS) }
{
    default_stride(n)
}

/// The shape that the keys from `processors` to `limit` give.
#[tactic(auto, unfolding(crate::specs::Numbers::shape_of))]
pub(crate) fn shape(table: &Table) -> Result<Shape, SetupFault>
    ensures { Gives shape_view result (shape_of (table_view table.now)) }
{
    let n = processors(table)?;
    let offloadable = nocbs(table, n)?;
    let stride = whole_or(table, Key::Stride, 1, MOST_PROCESSORS, stride_of(n))?;
    let blimit = whole_or(table, Key::Blimit, 1, MOST_CALLBACKS, DEFAULT_BLIMIT)?;
    let qhimark = whole_or(table, Key::Qhimark, 1, MOST_CALLBACKS, DEFAULT_QHIMARK)?;
    let limit = whole_or(table, Key::Limit, 1, MOST_CALLBACKS, DEFAULT_LIMIT)?;
    Ok(Shape {
        processors: n,
        offloadable,
        stride,
        blimit,
        qhimark,
        limit,
    })
}
