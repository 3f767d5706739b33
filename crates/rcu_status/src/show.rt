//! The lines of `show`.

ghost use Rattle.std.specs.Prelude.{◌≡◌, ◌++◌, IfOk, string_bytes, Some};
ghost use Rattle.rcu_status.specs.Line.{line_text, mode_name, segments_text};

use rcu_jobs::{Lists, Mode};
use std::alloc::{AllocError, Global};
use std::fmt;

/// A mode's name.
fn mode_name(mode: Mode) -> &'static str
    ensures { result.now ≡ mode_name mode }
{
    match mode {
        Mode::Local => "Local",
        Mode::Offloading => "Offloading",
        Mode::Offloaded => "Offloaded",
        Mode::Deoffloading => "Deoffloading",
    }
}

/// The four segments of a callback list: `done D wait W@X ready R@Y next N`.
#[derive(Drop)]
struct Segments {
    lengths: [u64; 4],
    numbers: [u64; 2],
}

impl fmt::Display for Segments {
    ghost output = { λ segments. Some (segments_text segments.lengths segments.numbers) };

    fn fmt<W: fmt::Write>(&self, f: &mut fmt::Formatter<W>) -> fmt::Result {
        let [done, wait, ready, next] = self.lengths;
        let [wait_number, ready_number] = self.numbers;
        write!(
            f,
            "done {done} wait {wait}@{wait_number} ready {ready}@{ready_number} next {next}"
        )
    }
}

/// The line of processor `p`, or of its group, by the kind of `lists`. It ends with a line feed.
pub fn line(alloc: Global, p: u64, lists: &Lists) -> Result<String, AllocError>
    ensures { IfOk result (λ s. string_bytes s ≡ line_text p lists.now) }
{
    match *lists {
        Lists::Cpu {
            mode,
            accepted,
            bypass,
            lengths,
            numbers,
        } => {
            let mode = mode_name(mode);
            let segments = Segments { lengths, numbers };
            format!(in alloc; "cpu {p} {mode} accepted {accepted} bypass {bypass} {segments}\n")
        }
        Lists::Folk { lengths, numbers } => {
            let segments = Segments { lengths, numbers };
            format!(in alloc; "group of {p} {segments}\n")
        }
    }
}
