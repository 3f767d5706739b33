//! The lists of a processor: how many callbacks are on one, and where the k-th one stands in the history.

ghost use Rattle.std.specs.Prelude.{◌≡◌, ◌≤◌, None, IfSome, length};
ghost use Rattle.rcu_world_checker.specs.Kinds.{IsNth, in_list, key_in, keys};

use rcu_world_law::marks::Mark;

/// A list of a processor (docs/specification/definitions.md, "Lists of a processor").
#[derive(Clone, Copy, Debug, PartialEq, Eq)]
pub enum Kind {
    /// What it accepted.
    Accepted,
    /// What ran.
    Ran,
    /// What was handed back.
    Back,
}

/// The key of a mark of this kind of `p`. None where the mark is another.
pub fn key_of(kind: Kind, p: u64, mark: Mark) -> Option<u64>
    ensures { key_in kind p mark ≡ in_list result }
{
    let (q, key) = match (kind, mark) {
        (Kind::Accepted, Mark::Accepted(q, key)) => (q, key),
        (Kind::Ran, Mark::Ran(q, key)) => (q, key),
        (Kind::Back, Mark::Back(q, key)) => (q, key),
        _ => return None,
    };
    if q == p { Some(key) } else { None }
}

/// How many marks of this kind `p` has.
pub fn many_of(kind: Kind, p: u64, history: &[Mark]) -> usize
    ensures { result ≡ length (keys kind p history.now) }
{
    let mut many = 0;
    for mark in history {
        if key_of(kind, p, *mark).is_some() {
            many += 1;
        }
    }
    many
}

/// Where the `k`-th mark of this kind of `p` stands, counted from 0, and its key. None where there are fewer.
pub fn nth_of(kind: Kind, p: u64, k: usize, history: &[Mark]) -> Option<(usize, u64)>
    ensures found { IfSome result (λ it. IsNth kind history.now p k it.0 it.1) }
    ensures none { result ≡ None → length (keys kind p history.now) ≤ k }
{
    let mut many = 0;
    for place in 0..history.len() {
        if let Some(key) = key_of(kind, p, history[place]) {
            if many == k {
                return Some((place, key));
            }
            many += 1;
        }
    }
    None
}
