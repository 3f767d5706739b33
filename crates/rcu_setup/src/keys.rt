//! The keys of a setup: docs/specification/tables.md, "Setup keys".

ghost use Rattle.std.specs.Prelude.{◌≡◌, true, IfSome, option_map};
ghost use Rattle.std.specs.List.{list_all};
ghost use Rattle.toml.specs.Data.{get_member};
ghost use Rattle.toml.specs.View.{table_view, view};
ghost use Rattle.rcu_setup.specs.Faults.{Gives, key_name, named, unknown_key};
ghost use Rattle.rcu_setup.specs.Keys.{is_key, is_key_byte, known, shown};

use crate::fault::{Key, SetupFault};
use std::alloc::Global;
use toml::{Table, Value};

/// The value at a key.
pub(crate) fn at(table: &Table, key: Key) -> Option<&Value>
    ensures { option_map (λ v. view v.now) result
        ≡ get_member (key_name key) (table_view table.now) }
{
    table.get(key.name())
}

#[tactic(auto, unfolding(crate::specs::Keys::is_key))]
fn is_key(name: &str) -> bool
    ensures { result ≡ is_key name.now }
{
    match name {
        "processors"
        | "nocbs"
        | "stride"
        | "blimit"
        | "qhimark"
        | "limit"
        | "routes"
        | "script"
        | "calls" => true,
        _ => false,
    }
}

fn are_key_bytes(name: &str) -> bool
    ensures { result ≡ list_all is_key_byte name.now }
{
    name.bytes().all(|byte| matches!(byte, b'a'..=b'z' | b'A'..=b'Z' | b'0'..=b'9' | b'_' | b'-'))
}

/// The fault of an unknown key.
#[tactic(auto, unfolding(crate::specs::Keys::shown))]
fn unknown(alloc: Global, name: &str) -> SetupFault
    ensures { IfSome (named result) (λ f. f ≡ unknown_key (shown name.now)) }
{
    let shown = if !name.is_empty() && are_key_bytes(name) {
        name
    } else {
        "?"
    };
    match String::from_str(alloc, shown) {
        Ok(shown) => SetupFault::UnknownKey(shown),
        Err(_) => SetupFault::Memory,
    }
}

/// Whether each key of a table is known. The fault names the first by byte order that isn't.
pub(crate) fn known(alloc: Global, table: &Table) -> Result<(), SetupFault>
    ensures { Gives (λ _. true) result (known (table_view table.now)) }
{
    for (name, _value) in table {
        if !is_key(name.as_str()) {
            return Err(unknown(alloc, name.as_str()));
        }
    }
    Ok(())
}
