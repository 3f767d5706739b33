//! The small words of the grammar: numbers, names and hops.

ghost use Rattle.std.specs.Prelude.{◌≡◌, ◌<◌, ◌≤◌, length};
ghost use Rattle.std.specs.List.{list_all};
ghost use Rattle.std.specs.Char.{is_ascii_digit};
ghost use Rattle.std.specs.Str.{all_ascii_digits};
ghost use Rattle.rcu_setup.specs.Words.{number, hop, is_name, is_name_byte, route};
ghost use Rattle.std.specs.Prelude.{option_map};

use crate::limits::{HOP_DIGITS, NAME_LENGTH};

/// Whether each byte is an ASCII digit.
fn all_digits(text: &str) -> bool
    ensures { result ≡ all_ascii_digits text.now }
{
    text.bytes().all(|byte| byte.is_ascii_digit())
}

/// The value of one to `most` ASCII digits.
#[tactic(auto, using(crate::proofs::Numerals::number_parsed), unfolding(crate::specs::Words::number))]
pub(crate) fn number(text: &str, most: usize) -> Option<u64>
    requires { most ≤ 18 }
    ensures { result ≡ number most text.now }
{
    if text.is_empty() || text.len() > most || !all_digits(text) {
        return None;
    }
    text.parse().ok()
}

/// The number of a HOP.
#[tactic(auto, using(crate::proofs::Numerals::hop_small), unfolding(crate::specs::Words::hop))]
pub(crate) fn hop(text: &str) -> Option<u32>
    ensures { result ≡ hop text.now }
{
    let hop = number(text, HOP_DIGITS)?;
    Some(hop as u32)
}

fn all_name_bytes(text: &str) -> bool
    ensures { result ≡ list_all is_name_byte text.now }
{
    text.bytes()
        .all(|byte| matches!(byte, b'a'..=b'z' | b'0'..=b'9'))
}

/// Whether the text is a NAME.
pub(crate) fn is_name(text: &str) -> bool
    ensures { result ≡ is_name text.now }
{
    !text.is_empty() && text.len() <= NAME_LENGTH && all_name_bytes(text)
}

/// The name and the hop of a route, `NAME=HOP`.
#[tactic(auto, unfolding(crate::specs::Words::route))]
pub(crate) fn route(text: &str) -> Option<(&str, u32)>
    ensures { option_map (λ r. (r.0.now, r.1)) result ≡ route text.now }
{
    let (name, hop_text) = text.split_once('=')?;
    let hop = hop(hop_text)?;
    if is_name(name) {
        Some((name, hop))
    } else {
        None
    }
}
