//! The modes of a processor: docs/specification/rules.md, "Modes".

ghost use Rattle.std.specs.Prelude.{◌≡◌};
ghost use Rattle.rcu_jobs.specs.Modes.{first_mode, is_deoffloading, is_offloaded};

/// Where a processor's new callbacks go (docs/specification/rules.md, "Modes").
///
/// ```text
/// Offloaded ──── asked off, its bypass list is empty ───► Deoffloading ──── all that was offloaded has run ───► Local
/// Local, Deoffloading ──── asked on ───► Offloading ──── its own list is poured ───► Offloaded
/// Offloading ──── asked off ───► Deoffloading
/// ```
#[derive(Clone, Copy, Debug, PartialEq, Eq)]
pub enum Mode {
    /// To its own list. Its tick runs them.
    Local,
    /// To its own list, until its tick finds room to pour it into the bypass list.
    Offloading,
    /// To its bypass list. Its hand runs them.
    Offloaded,
    /// To its own list, while callbacks of the time before still wait with its group or hand.
    Deoffloading,
}

impl Mode {
    /// The mode in which a processor starts.
    pub fn first(offloadable: bool) -> Mode
        ensures { result ≡ first_mode offloadable }
    {
        if offloadable {
            Mode::Offloaded
        } else {
            Mode::Local
        }
    }

    /// Whether new callbacks go to the bypass list.
    pub fn is_offloaded(self) -> bool
        ensures { result ≡ is_offloaded self }
    {
        match self {
            Mode::Offloaded => true,
            _ => false,
        }
    }

    /// Whether callbacks of the time before may still wait with the group or the hand.
    pub fn is_deoffloading(self) -> bool
        ensures { result ≡ is_deoffloading self }
    {
        match self {
            Mode::Deoffloading => true,
            _ => false,
        }
    }
}
