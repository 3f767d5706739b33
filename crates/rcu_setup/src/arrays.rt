//! The keys that are arrays of strings, `routes` and `script`.

ghost use Rattle.std.specs.Prelude.{◌≡◌, ◌≤◌, [], map, IfOk, length, vec_len};
ghost use Rattle.toml.specs.Data.{get_member};
ghost use Rattle.toml.specs.View.{table_view, view};
ghost use Rattle.rcu_setup.specs.Faults.{Gives, bad_line, bad_route, key_name, or_fault};
ghost use Rattle.rcu_setup.specs.Arrays.{lines_of, lines_view, route_view, routes_of, routes_view, texts_in, texts_or_none, texts_view};
ghost use Rattle.rcu_setup.specs.Line.{line_of, words_line};
ghost use Rattle.rcu_setup.specs.Words.{parts, route};

use crate::fault::{Key, SetupFault};
use crate::keys::at;
use crate::line::{Command, script_line};
use crate::words::route;
use std::alloc::Global;
use toml::{Table, Value};

/// The texts of an array.
fn texts<'a>(alloc: Global, key: Key, value: &'a Value) -> Result<Vec<&'a str>, SetupFault>
    ensures { Gives texts_view result (texts_in key (view value.now)) }
{
    let Some(items) = value.as_array() else {
        return Err(SetupFault::WrongKind(key));
    };
    let mut found = Vec::new(alloc);
    for item in items {
        let Some(text) = item.as_str() else {
            return Err(SetupFault::WrongKind(key));
        };
        found.push(text)?;
    }
    Ok(found)
}

/// The texts of the array at a key, `most` at most, and none where the key is absent.
#[tactic(auto, unfolding(crate::specs::Arrays::texts_or_none))]
pub(crate) fn texts_or_none(
    alloc: Global,
    table: &Table,
    key: Key,
    most: usize,
) -> Result<Vec<&str>, SetupFault>
    ensures answer { Gives texts_view result
        (texts_or_none key most (get_member (key_name key) (table_view table.now))) }
    ensures few { IfOk result (λ found. vec_len found ≤ most) }
{
    let Some(value) = at(table, key) else {
        return Ok(Vec::new(alloc));
    };
    let texts = texts(alloc, key, value)?;
    if texts.len() > most {
        return Err(SetupFault::OutOfRange(key));
    }
    Ok(texts)
}

/// The route that the text of item `i` says.
fn route_at(alloc: Global, text: &str, i: u64) -> Result<(String, u32), SetupFault>
    ensures { Gives route_view result (or_fault (bad_route i) (route text.now)) }
{
    let Some((name, hop)) = route(text) else {
        return Err(SetupFault::BadRoute(i));
    };
    Ok((String::from_str(alloc, name)?, hop))
}

/// The routes that the texts say, each `NAME=HOP`.
pub(crate) fn routes(alloc: Global, texts: &[&str]) -> Result<Vec<(String, u32)>, SetupFault>
    ensures answer { Gives routes_view result (routes_of 1 [] (map (λ s. s.now) texts.now)) }
    ensures each { IfOk result (λ found. vec_len found ≡ length texts.now) }
{
    let mut found = Vec::new(alloc);
    for (i, text) in texts.iter().enumerate() {
        found.push(route_at(alloc, text, i as u64 + 1)?)?;
    }
    Ok(found)
}

/// The command that the text of item `i` says.
fn line_at(alloc: Global, text: &str, i: u64) -> Result<Command, SetupFault>
    ensures { Gives line_of result (or_fault (bad_line i) (words_line (parts 32 text.now))) }
{
    match script_line(alloc, text) {
        Ok(command) => Ok(command),
        Err(SetupFault::Memory) => Err(SetupFault::Memory),
        Err(_) => Err(SetupFault::BadLine(i)),
    }
}

/// The commands that the texts say.
pub(crate) fn lines(alloc: Global, texts: &[&str]) -> Result<Vec<Command>, SetupFault>
    ensures answer { Gives lines_view result (lines_of 1 [] (map (λ s. s.now) texts.now)) }
    ensures each { IfOk result (λ found. vec_len found ≡ length texts.now) }
{
    let mut found = Vec::new(alloc);
    for (i, text) in texts.iter().enumerate() {
        found.push(line_at(alloc, text, i as u64 + 1)?)?;
    }
    Ok(found)
}
