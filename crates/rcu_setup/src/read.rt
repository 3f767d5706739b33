//! Reading a whole setup, in the order of tests of docs/specification/tables.md, "Order of tests".

ghost use Rattle.std.specs.Prelude.{◌≡◌, ◌≤◌, IfOk, vec_len};
ghost use Rattle.toml.specs.View.{table_view};
ghost use Rattle.rcu_setup.specs.Faults.{Gives};
ghost use Rattle.rcu_setup.specs.Setup.{setup_of, setup_view, table_setup};

use crate::arrays::{lines, routes, texts_or_none};
use crate::fault::{Key, SetupFault};
use crate::keys::known;
use crate::limits::{MOST_BYTES, MOST_CALLS, MOST_LINES, MOST_ROUTES};
use crate::numbers::{shape, whole_or};
use crate::setup::Setup;
use std::alloc::Global;
use toml::Table;

#[tactic(auto, unfolding(crate::specs::Setup::table_setup))]
fn table_setup(alloc: Global, table: &Table) -> Result<Setup, SetupFault>
    ensures { Gives setup_view result (table_setup (table_view table.now)) }
{
    known(alloc, table)?;
    let shape = shape(table)?;
    let routes = {
        let texts = texts_or_none(alloc, table, Key::Routes, MOST_ROUTES)?;
        routes(alloc, texts.as_slice())?
    };
    let script = {
        let texts = texts_or_none(alloc, table, Key::Script, MOST_LINES)?;
        lines(alloc, texts.as_slice())?
    };
    let most_calls = shape.limit.min(MOST_CALLS);
    let calls = whole_or(table, Key::Calls, 0, most_calls, 0)?;
    Ok(Setup {
        shape,
        calls,
        routes,
        script,
    })
}

/// The setup that a text says, or the first fault in the order of tests.
///
/// # Errors
///
/// The text first (`NotToml`), then unknown keys (the first by byte order), missing `processors`, then the keys in
/// the order `processors`, `nocbs`, `stride`, `blimit`, `qhimark`, `limit`, `routes`, `script`, `calls`, for each its
/// kind, then its range, then its grammar. `Memory` may stand in place of any answer.
pub fn read_setup(alloc: Global, text: &str) -> Result<Setup, SetupFault>
    ensures { Gives setup_view result (setup_of text.now) }
{
    if text.len() > MOST_BYTES {
        return Err(SetupFault::NotToml);
    }
    match toml::table_from_str(alloc, text) {
        Ok(table) => table_setup(alloc, &table),
        Err(error) if error.is_memory() => Err(SetupFault::Memory),
        Err(_) => Err(SetupFault::NotToml),
    }
}
