//! What a setup says.

ghost use Rattle.std.specs.Prelude.{◌≤◌, vec_len};

use crate::line::Command;
use rcu_numbers::Shape;

/// A setup.
#[derive(Drop)]
pub struct Setup {
    pub shape: Shape,
    /// How many calls `threads` makes on each processor.
    pub calls: u64,
    /// The name and the hop of each item of `routes`, in order, also where a name is given again.
    pub routes: Vec<(String, u32)>,
    /// The commands of `replay`, in order.
    pub script: Vec<Command>,
    pub ghost few_routes: { vec_len routes ≤ 64 },
    pub ghost few_lines: { vec_len script ≤ 50000 },
    pub ghost few_calls: { calls ≤ 1000 },
}
