//! The versions of the route table that a plan's run retires: docs/specification/program.md, "Route table".

ghost use Rattle.std.specs.Prelude.{◌≡◌, IfOk, vec_len};
ghost use Rattle.rcu_setup.specs.Arrays.{routes_view};
ghost use Rattle.rcuo_script.specs.Versions.{AreVersions};
ghost use Rattle.rcuo_plan.specs.Plan.{calls_for, jobs_for};

use crate::plan::{Plan, Subcommand};
use rcuo_script::{Retired, versions_by_rounds, versions_by_script};
use std::alloc::{AllocError, Global};

/// The versions of the route table that are retired, in order: in `replay` one for each call line of the script, in
/// `threads` one for each call of each processor.
///
/// # Errors
///
/// Want of memory, also where all versions would take more than a budget of 1 GiB.
pub fn versions(alloc: Global, plan: &Plan) -> Result<Vec<Retired>, AllocError>
    ensures many { IfOk result (λ retired.
        vec_len retired ≡ jobs_for plan.now.subcommand plan.now.setup) }
    ensures versions { IfOk result
        (AreVersions (routes_view plan.now.setup.routes)
        (calls_for plan.now.subcommand plan.now.setup)) }
{
    match plan.subcommand {
        Subcommand::Replay => versions_by_script(alloc, &plan.setup),
        Subcommand::Threads => versions_by_rounds(alloc, &plan.setup),
    }
}
