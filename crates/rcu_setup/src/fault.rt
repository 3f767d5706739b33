//! What is wrong with a setup: docs/specification/tables.md, "Fault lines".

ghost use Rattle.std.specs.Prelude.{◌≡◌, ◌++◌, Some, codes};
ghost use Rattle.std.specs.Fmt.{WritesOnOk, decimal};
ghost use Rattle.rcu_setup.specs.declared.fault.SetupFault.TheVariants.{Memory};
ghost use Rattle.rcu_setup.specs.Faults.{key_name, setup_fault_text};

use std::alloc::{AllocError, AllocFailed};
use std::error::Error;
use std::fmt;

/// A key of a setup: docs/specification/tables.md, "Setup keys".
#[derive(Clone, Copy, PartialEq, Eq)]
pub enum Key {
    Processors,
    Nocbs,
    Stride,
    Blimit,
    Qhimark,
    Limit,
    Routes,
    Script,
    Calls,
}

impl Key {
    /// The key as it is written.
    pub(crate) fn name(self) -> &'static str
        ensures { result.now ≡ key_name self }
    {
        match self {
            Key::Processors => "processors",
            Key::Nocbs => "nocbs",
            Key::Stride => "stride",
            Key::Blimit => "blimit",
            Key::Qhimark => "qhimark",
            Key::Limit => "limit",
            Key::Routes => "routes",
            Key::Script => "script",
            Key::Calls => "calls",
        }
    }
}

impl fmt::Display for Key {
    ghost output = { λ key. Some (key_name key) };

    fn fmt<W: fmt::Write>(&self, f: &mut fmt::Formatter<W>) -> fmt::Result {
        f.write_str(self.name())
    }
}

/// What is wrong with a setup, a CPU list or a line of a script. Its message is its fault line.
#[derive(Drop)]
pub enum SetupFault {
    /// A growth was refused.
    Memory,
    /// The text is refused, or longer than [`MOST_BYTES`](crate::MOST_BYTES).
    NotToml,
    /// A key that no setup has, `?` where it is empty or has other characters than ASCII letters, digits, `_` and `-`.
    UnknownKey(String),
    /// There is no `processors`.
    MissingProcessors,
    /// Another kind of value, also of an array's item.
    WrongKind(Key),
    /// A number outside the limits, or too many routes or script lines.
    OutOfRange(Key),
    /// A CPU list that isn't in the grammar.
    BadList,
    /// A range whose first number is above its last.
    Reversed(u64, u64),
    /// The last number of an item, where there is no such processor.
    NoProcessor(u64),
    /// The number of a script line, from 1.
    BadLine(u64),
    /// The number of a route, from 1.
    BadRoute(u64),
}

/// Writes a text, and a number behind it.
fn write_numbered<W: fmt::Write>(f: &mut fmt::Formatter<W>, text: &str, number: u64) -> fmt::Result
    ensures { WritesOnOk W.write_str_gives f.old result (text.now ++ decimal number) f.new }
{
    write!(f, "{text}{number}")
}

impl fmt::Display for SetupFault {
    ghost output = { λ fault. Some (codes "fault " ++ setup_fault_text fault) };

    fn fmt<W: fmt::Write>(&self, f: &mut fmt::Formatter<W>) -> fmt::Result {
        match self {
            SetupFault::Memory => f.write_str("fault 2: no memory"),
            SetupFault::NotToml => f.write_str("fault 10: not a TOML document"),
            SetupFault::UnknownKey(key) => write!(f, "fault 11: unknown key {key}"),
            SetupFault::MissingProcessors => f.write_str("fault 12: missing key processors"),
            SetupFault::WrongKind(key) => write!(f, "fault 13: wrong kind of {key}"),
            SetupFault::OutOfRange(key) => write!(f, "fault 14: {key} is out of range"),
            SetupFault::BadList => f.write_str("fault 15: bad list"),
            SetupFault::Reversed(first, last) => write!(
                f,
                "fault 16: reversed range {first}-{last}"
            ),
            SetupFault::NoProcessor(p) => write_numbered(f, "fault 17: no processor ", *p),
            SetupFault::BadLine(i) => write_numbered(f, "fault 18: bad line ", *i),
            SetupFault::BadRoute(i) => write_numbered(f, "fault 18: bad route ", *i),
        }
    }
}

/// The same words as `Display`.
impl fmt::Debug for SetupFault {
    fn fmt<W: fmt::Write>(&self, f: &mut fmt::Formatter<W>) -> fmt::Result {
        fmt::Display::fmt(self, f)
    }
}

impl Error for SetupFault {}

impl From<AllocError> for SetupFault {
    ghost from_gives = { λ _ fault. fault ≡ Memory };

    fn from(_error: AllocError) -> SetupFault {
        SetupFault::Memory
    }
}

impl<T: Drop> From<AllocFailed<T>> for SetupFault {
    ghost from_gives = { λ _ fault. fault ≡ Memory };

    fn from(_error: AllocFailed<T>) -> SetupFault {
        SetupFault::Memory
    }
}
