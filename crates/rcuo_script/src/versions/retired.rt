//! The versions that are retired, one for each call.

ghost use Rattle.std.specs.Prelude.{◌≡◌, ◌≤◌, ◌+◌, ◌*◌, ◌<◌, [], ◌∷◌, ◌++◌, IfOk, OnOk, List, count_by, length, option_to_list, vec_len};
ghost use Rattle.std.specs.Option.{option_len};
ghost use Rattle.indexmap.specs.IndexMap.{index_map_len};
ghost use Rattle.rcu_setup.specs.Arrays.{routes_view};
ghost use Rattle.rcu_setup.specs.Words.{Route};
ghost use Rattle.rcuo_script.specs.Calls.{is_call, route_in};
ghost use Rattle.rcuo_script.specs.Routes.{routes_of_calls, routes_of_round, routes_of_rounds, with_routes};
ghost use Rattle.rcuo_script.specs.Versions.{AreVersions, AreWithinBudget, HasRetired};

use crate::calls::route_of;
use crate::versions::table::{
    KEY_STEP, Retired, Version, added_bytes, first_version, next_version,
};
use rcu_setup::{Command, Setup};
use std::alloc::{AllocError, Global};
use std::mem;

/// How many bytes all versions of a run may take, by the count of [`added_bytes`]. A setup may ask for far more than a machine
/// has, as each call line copies the whole table.
const MOST_BYTES: u64 = 1 << 30;

/// The current version, and those that were retired before it.
#[derive(Drop)]
struct Retiring {
    current: Version,
    /// How many bytes the current version takes, by the count of its routes and names.
    bytes: u64,
    /// How many bytes the next versions may take in all.
    left: u64,
    retired: Vec<Retired>,
}

impl Retiring {
    /// Version 0, which the setup's routes make. None is retired yet.
    fn of_routes(alloc: Global, setup: &Setup) -> Result<Retiring, AllocError>
        ensures none { IfOk result (λ retiring. vec_len retiring.retired ≡ 0) }
        ensures first { IfOk result
            (HasRetired (with_routes [] (routes_view setup.now.routes)) []) }
        ensures small { IfOk result (λ retiring. index_map_len retiring.current ≤ 64) }
    {
        let (current, bytes) = first_version(alloc, setup.routes.as_slice())?;
        let Some(left) = MOST_BYTES.checked_sub(bytes) else {
            return Err(AllocError);
        };
        Ok(Retiring {
            current,
            bytes,
            left,
            retired: Vec::new(alloc),
        })
    }

    /// Makes the next version, with one route set, and retires the current one. Its growth is refused where all versions
    /// would take more than [`MOST_BYTES`].
    fn retire(&mut self, alloc: Global, name: &str, hop: u32) -> Result<(), AllocError>
        requires small { index_map_len self.old.current < 65536 }
        requires few { vec_len self.old.retired < 65536 }
        ensures more { OnOk result (vec_len self.new.retired ≡ vec_len self.old.retired + 1) }
        ensures small { OnOk result
            (index_map_len self.new.current ≤ index_map_len self.old.current + 1) }
        ensures version { (first calls : List Route) → HasRetired first calls self.old
            → OnOk result (HasRetired first (calls ++ (name.now, hop) ∷ []) self.new) }
    {
        let Some(bytes) = self.bytes.checked_add(added_bytes(&self.current, name)) else {
            return Err(AllocError);
        };
        let Some(left) = self.left.checked_sub(bytes) else {
            return Err(AllocError);
        };
        let next = next_version(alloc, &self.current, name, hop)?;
        let key = self.retired.len() as u64 * KEY_STEP + self.current.len() as u64;
        let table = mem::replace(&mut self.current, next);
        self.retired.push(Retired { key, table })?;
        self.bytes = bytes;
        self.left = left;
        Ok(())
    }
}

/// The one that a command retires, if it is a call line.
fn retire_for(alloc: Global, retiring: &mut Retiring, command: &Command) -> Result<(), AllocError>
    requires small { index_map_len retiring.old.current < 65536 }
    requires few { vec_len retiring.old.retired < 65536 }
    ensures many { OnOk result
        (vec_len retiring.new.retired
        ≡ vec_len retiring.old.retired + option_len (route_in command.now)) }
    ensures small { OnOk result
        (index_map_len retiring.new.current ≤ index_map_len retiring.old.current + 1) }
    ensures versions { (first calls : List Route) → HasRetired first calls retiring.old
        → OnOk result
        (HasRetired first (calls ++ option_to_list (route_in command.now)) retiring.new) }
{
    match route_of(command) {
        Some((name, hop)) => retiring.retire(alloc, name, hop),
        None => Ok(()),
    }
}

/// Those that a script's call lines retire, one each, in order.
fn retire_by_script(
    alloc: Global,
    retiring: &mut Retiring,
    script: &[Command],
) -> Result<(), AllocError>
    requires none { vec_len retiring.old.retired ≡ 0 }
    requires small { index_map_len retiring.old.current ≤ 64 }
    requires few { length script.now ≤ 50000 }
    ensures many { OnOk result (vec_len retiring.new.retired ≡ count_by is_call script.now) }
    ensures versions { (first : List Route) → HasRetired first [] retiring.old
        → OnOk result (HasRetired first (routes_of_calls script.now) retiring.new) }
{
    for command in script {
        retire_for(alloc, retiring, command)?;
    }
    Ok(())
}

/// Those that one round of `threads` retires: for each processor `P` one, whose next version sets route `cP` to the
/// round's number.
fn retire_round(
    alloc: Global,
    retiring: &mut Retiring,
    processors: u64,
    round: u64,
) -> Result<(), AllocError>
    requires processors { processors ≤ 32 }
    requires round { round < 1000 }
    requires few { vec_len retiring.old.retired ≤ 32 * round }
    requires small { index_map_len retiring.old.current ≤ 64 + vec_len retiring.old.retired }
    ensures more { OnOk result
        (vec_len retiring.new.retired ≡ vec_len retiring.old.retired + processors) }
    ensures small { OnOk result
        (index_map_len retiring.new.current ≤ 64 + vec_len retiring.new.retired) }
    ensures versions { (first calls : List Route) → HasRetired first calls retiring.old
        → OnOk result (HasRetired first (calls ++ routes_of_round round processors) retiring.new) }
{
    for cpu in 0..processors {
        let name = format!(in alloc; "c{cpu}")?;
        retiring.retire(alloc, name.as_str(), round as u32)?;
    }
    Ok(())
}

/// Those that all rounds of `threads` retire, in order.
fn retire_by_rounds(
    alloc: Global,
    retiring: &mut Retiring,
    processors: u64,
    calls: u64,
) -> Result<(), AllocError>
    requires processors { processors ≤ 32 }
    requires calls { calls ≤ 1000 }
    requires none { vec_len retiring.old.retired ≡ 0 }
    requires small { index_map_len retiring.old.current ≤ 64 }
    ensures many { OnOk result (vec_len retiring.new.retired ≡ calls * processors) }
    ensures versions { (first : List Route) → HasRetired first [] retiring.old
        → OnOk result (HasRetired first (routes_of_rounds processors calls) retiring.new) }
{
    for round in 0..calls {
        retire_round(alloc, retiring, processors, round)?;
    }
    Ok(())
}

/// The versions of the route table that a script retires, in order: one for each of its call lines.
///
/// # Errors
///
/// Want of memory, also where all versions would take more than a budget of 1 GiB.
pub fn versions_by_script(alloc: Global, setup: &Setup) -> Result<Vec<Retired>, AllocError>
    ensures many { IfOk result (λ retired.
        vec_len retired ≡ count_by is_call setup.now.script.items) }
    ensures versions { IfOk result
        (AreVersions (routes_view setup.now.routes) (routes_of_calls setup.now.script.items)) }
    ensures within { OnOk result
        (AreWithinBudget (routes_view setup.now.routes) (routes_of_calls setup.now.script.items)) }
{
    let mut retiring = Retiring::of_routes(alloc, setup)?;
    retire_by_script(alloc, &mut retiring, setup.script.as_slice())?;
    Ok(retiring.retired)
}

/// The versions of the route table that the rounds of calls in threads retire, in order: one for each call of each
/// processor.
///
/// # Errors
///
/// Want of memory, also where all versions would take more than a budget of 1 GiB.
pub fn versions_by_rounds(alloc: Global, setup: &Setup) -> Result<Vec<Retired>, AllocError>
    ensures many { IfOk result (λ retired.
        vec_len retired ≡ setup.now.calls * setup.now.shape.processors) }
    ensures versions { IfOk result (AreVersions (routes_view setup.now.routes)
        (routes_of_rounds setup.now.shape.processors setup.now.calls)) }
    ensures within { OnOk result (AreWithinBudget (routes_view setup.now.routes)
        (routes_of_rounds setup.now.shape.processors setup.now.calls)) }
{
    let mut retiring = Retiring::of_routes(alloc, setup)?;
    retire_by_rounds(alloc, &mut retiring, setup.shape.processors, setup.calls)?;
    Ok(retiring.retired)
}
