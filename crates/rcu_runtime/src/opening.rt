//! Opening a runtime.

ghost use Rattle.std.specs.Prelude.{◌≡◌, IfOk};
ghost use Rattle.rcu_parts.specs.Openings.{IsOpened};
ghost use Rattle.rcu_runtime.specs.Runtimes.{accepted_in};

use crate::runtime::Runtime;
use crate::whole::Whole;
use rcu_jobs::Job;
use rcu_numbers::PartsShape;
use std::alloc::{AllocError, Global};

/// Opens a runtime of this shape. All lists and counts are empty; exactly the offloadable processors are Offloaded.
///
/// # Errors
///
/// Want of memory; then nothing was made.
pub fn open<J: Job>(alloc: Global, shape: &PartsShape) -> Result<Runtime<J>, AllocError>
    ensures opened { IfOk result (λ runtime. IsOpened shape.now runtime) }
    ensures none { IfOk result (λ runtime. accepted_in runtime ≡ 0) }
{
    let limit = shape.limit;
    let parts = rcu_parts::open::<J>(alloc, shape)?;

    Ok(Whole { parts, limit })
}
