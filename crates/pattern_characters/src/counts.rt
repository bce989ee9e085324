//! Quantifiers in braces.
ghost use Rattle.std.specs.Prelude.{◌≡◌, option_map};
ghost use Rattle.pattern_characters.specs.Counts as spec;

use crate::characters::{after, number};
use crate::parts::Count;

// Reads what follows the comma: a number or none.
fn after_comma(least: u32, text: &[char]) -> (Count, &[char])
    ensures count { Some (result.0, result.1.now) ≡ spec.after_comma least text.now }
{
    match number(text) {
        Some((most, rest)) => (
            Count {
                min: least,
                max: Some(most),
            },
            rest,
        ),
        None => (
            Count {
                min: least,
                max: None,
            },
            text,
        ),
    }
}

// Reads what follows the first number, up to the brace.
fn after_least(least: u32, text: &[char]) -> (Count, &[char])
    ensures count { Some (result.0, result.1.now) ≡ spec.after_least least text.now }
{
    match after(',', text) {
        Some(rest) => after_comma(least, rest),
        None => (
            Count {
                min: least,
                max: Some(least),
            },
            text,
        ),
    }
}

/// Reads a quantifier in braces, after the opening one.
#[tactic(auto, unfolding(crate::specs::Counts::braces))]
pub fn braces(text: &[char]) -> Option<(Count, &[char])>
    ensures braces { option_map (λ p. (p.0, p.1.now)) result ≡ spec.braces text.now }
{
    let (least, rest) = number(text)?;
    let (count, rest) = after_least(least, rest);
    let rest = after('}', rest)?;
    Some((count, rest))
}

/// Returns whether the numbers are in order.
pub fn in_order(count: Count) -> bool
    ensures order { result ≡ spec.in_order count }
{
    match count.max {
        Some(most) => count.min <= most,
        None => true,
    }
}
