//! What some seat saw.

ghost use Rattle.std.specs.Prelude.{◌≡◌, ◌↔◌, ◌≤◌, true};
ghost use Rattle.std.specs.List.{Any};

/// Whether a seat saw just this.
pub(crate) fn has_seen(sights: &[u64], wanted: u64) -> bool
    ensures { result ≡ true ↔ Any (λ sight. sight ≡ wanted) sights.now }
{
    sights.iter().any(|sight| *sight == wanted)
}

/// Whether a seat saw as many as this, or more.
pub(crate) fn has_seen_as_many(sights: &[u64], wanted: u64) -> bool
    ensures { result ≡ true ↔ Any (λ sight. wanted ≤ sight) sights.now }
{
    sights.iter().any(|sight| wanted <= *sight)
}
