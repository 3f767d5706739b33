//! One version of the route table.

ghost use Rattle.std.specs.Prelude.{◌≡◌, ◌≤◌, ◌+◌, ◌%◌, ℕ, [], IfOk, OnOk, length, map};
ghost use Rattle.indexmap.specs.IndexMap.{index_map_len};
ghost use Rattle.rcu_setup.specs.Arrays.{route_view};
ghost use Rattle.rcuo_script.specs.Routes.{bytes_of, routes_in, with_route, with_routes};

use indexmap::IndexMap;
use std::alloc::{AllocError, Global};

/// A version of the route table: the hop of each name.
pub type Version = IndexMap<String, u32>;

/// How far apart the keys of two versions are.
pub const KEY_STEP: u64 = 65536;

/// A version that is retired. Its key is the version's number times 65536, plus the number of its routes.
#[derive(Drop)]
pub struct Retired {
    pub key: u64,
    pub table: Version,
    pub ghost promised: { index_map_len table ≡ key % 65536 },
}

/// How many bytes a route takes beside its name, at most: its place in the map, with what a list keeps spare.
const ROUTE_BYTES: u64 = 128;

/// How many bytes more than this version the one with this route takes, at most. A name that is there takes its place.
pub fn added_bytes(version: &Version, name: &str) -> u64
    ensures { (hop : ℕ) → bytes_of (with_route (routes_in version.now) (name.now, hop))
        ≡ bytes_of (routes_in version.now) + result }
{
    if version.contains_key(name) {
        0
    } else {
        ROUTE_BYTES + name.len() as u64
    }
}

/// Sets a route. A name that is there keeps its place.
fn set_route(alloc: Global, version: &mut Version, name: &str, hop: u32) -> Result<(), AllocError>
    ensures small { OnOk result (index_map_len version.new ≤ index_map_len version.old + 1) }
    ensures routes { OnOk result
        (routes_in version.new ≡ with_route (routes_in version.old) (name.now, hop)) }
{
    let name = String::from_str(alloc, name)?;
    version.insert(name, hop)?;
    Ok(())
}

/// A copy with one route set.
pub fn next_version(
    alloc: Global,
    version: &Version,
    name: &str,
    hop: u32,
) -> Result<Version, AllocError>
    ensures small { IfOk result (λ v. index_map_len v ≤ index_map_len version.now + 1) }
    ensures routes { IfOk result (λ v.
        routes_in v ≡ with_route (routes_in version.now) (name.now, hop)) }
{
    let mut copy = version.clone()?;
    set_route(alloc, &mut copy, name, hop)?;
    Ok(copy)
}

/// Version 0, which the setup's routes make, and how many bytes it takes, by the count of [`added_bytes`].
pub fn first_version(alloc: Global, routes: &[(String, u32)]) -> Result<(Version, u64), AllocError>
    ensures small { IfOk result (λ v. index_map_len v.0 ≤ length routes.now) }
    ensures routes { IfOk result (λ v. routes_in v.0 ≡ with_routes [] (map route_view routes.now)) }
    ensures bytes { IfOk result (λ v. v.1 ≡ bytes_of (routes_in v.0)) }
{
    let mut version = Version::new(alloc);
    let mut bytes = 0u64;
    for (name, hop) in routes {
        let Some(more) = bytes.checked_add(added_bytes(&version, name.as_str())) else {
            return Err(AllocError);
        };
        set_route(alloc, &mut version, name.as_str(), *hop)?;
        bytes = more;
    }
    Ok((version, bytes))
}
