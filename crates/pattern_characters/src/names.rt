//! The names of groups.
ghost use Rattle.std.specs.Prelude.{◌≡◌, ◌&&◌, IfOk, option_map};
ghost use Rattle.unicode.specs.Binary.{is_id_start, is_id_continue};
ghost use Rattle.pattern_characters.specs.Names as spec;

use crate::characters::{after, unicode_escape};
use crate::faults::OutOfMemory;
use std::alloc::Global;
use unicode::properties::{is_id_continue, is_id_start};

// Reads one character of a name.
#[tactic(auto, unfolding(crate::specs::Names::name_char))]
fn name_char(text: &[char]) -> Option<(u32, &[char])>
    ensures char { option_map (λ p. (p.0, p.1.now)) result ≡ spec.name_char text.now }
{
    match text {
        [] => None,
        ['\\', rest @ ..] => {
            let rest = after('u', rest)?;
            unicode_escape(true, rest)
        }
        [c, rest @ ..] => Some((*c as u32, rest)),
    }
}

// Returns whether a code point is a character of ID_Start.
fn has_id_start(c: u32) -> bool
    ensures has { result ≡ (spec.is_scalar c && is_id_start c) }
{
    match char::from_u32(c) {
        Some(c) => is_id_start(c),
        None => false,
    }
}

// Returns whether a code point is a character of ID_Continue.
fn has_id_continue(c: u32) -> bool
    ensures has { result ≡ (spec.is_scalar c && is_id_continue c) }
{
    match char::from_u32(c) {
        Some(c) => is_id_continue(c),
        None => false,
    }
}

// Returns whether a name may have this code point, at its start or further on.
fn is_name_char(first: bool, c: u32) -> bool
    ensures is { result ≡ spec.is_name_char first c }
{
    if first {
        has_id_start(c) || c == 36 || c == 95
    } else {
        has_id_continue(c) || c == 36 || c == 0x200C || c == 0x200D
    }
}

// Reads one character that a name may have.
fn allowed(first: bool, text: &[char]) -> Option<(u32, &[char])>
    ensures allowed { option_map (λ p. (p.0, p.1.now)) result ≡ spec.allowed first (spec.name_char text.now) }
{
    let (c, rest) = name_char(text)?;
    if is_name_char(first, c) {
        Some((c, rest))
    } else {
        None
    }
}

// Returns the text after the `>` that ends a name, if the text begins with it and there is a name.
fn ended(first: bool, text: &[char]) -> Option<&[char]>
    ensures ended { option_map (λ t. t.now) result ≡ spec.ended first text.now }
{
    if first {
        return None;
    }
    after('>', text)
}

/// Reads a name up to its `>`.
///
/// # Errors
///
/// Fails if memory cannot be allocated.
#[tactic(auto, unfolding(crate::specs::Names::name_from, crate::specs::Names::name))]
pub fn name(alloc: Global, text: &[char]) -> Result<Option<(Vec<u32>, &[char])>, OutOfMemory>
    ensures name { IfOk result (λ o. option_map (λ p. (p.0.items, p.1.now)) o ≡ spec.name text.now) }
{
    let mut so_far = Vec::new(alloc);
    let mut rest = text;
    let mut steps = text;
    loop {
        let [_, fewer @ ..] = steps else {
            return Ok(None);
        };
        let first = so_far.is_empty();
        if let Some(left) = ended(first, rest) {
            return Ok(Some((so_far, left)));
        }
        let Some((c, left)) = allowed(first, rest) else {
            return Ok(None);
        };
        so_far.push(c)?;
        rest = left;
        steps = fewer;
    }
}
