//! Properties of characters by their names.
ghost use Rattle.std.specs.Prelude.{◌≡◌, ◌<◌, ◌==◌, IfOk, IfSome, option_map, position, length, None, Some};
ghost use Rattle.pattern_characters.specs.Properties as spec;
ghost use Rattle.pattern_characters.specs.Telling.{Tells};

use crate::characters::{is_digit, is_letter};
use crate::faults::{Fault, Stop};
use std::alloc::{AllocError, Global};
use unicode::sets::{Set, by_name, by_value, normalize};

// Returns the index of the first mark.
fn place_of(mark: char, text: &[char]) -> Option<usize>
    ensures place { result ≡ position (λ c. c == mark) text.now }
    ensures within { IfSome result (λ n. n < length text.now) }
{
    text.iter().position(|c| *c == mark)
}

// Returns the texts before and after the first mark.
fn cut(mark: char, text: &[char]) -> Option<(&[char], &[char])>
    ensures cut { option_map (λ p. (p.0.now, p.1.now)) result ≡ spec.cut mark text.now }
{
    match place_of(mark, text) {
        Some(at) => Some((&text[..at], &text[at + 1..])),
        None => None,
    }
}

// Returns whether the name of a property may have this character.
fn is_name_char(c: char) -> bool
    ensures is { result ≡ spec.is_name_char c }
{
    is_letter(c) || is_digit(c) || c == '_'
}

// Returns whether all these characters may stand in the name of a property.
fn are_name_chars(name: &[char]) -> bool
    ensures are { result ≡ spec.are_name_chars name.now }
{
    let mut rest = name;
    loop {
        match rest {
            [] => return true,
            [c, left @ ..] if is_name_char(*c) => rest = left,
            _ => return false,
        }
    }
}

// Returns the set of a property by its name.
fn set_by_name(alloc: Global, name: &[char]) -> Result<Option<Set>, AllocError>
    ensures set { IfOk result (λ o. o ≡ spec.set_of name.now None) }
{
    if !are_name_chars(name) {
        return Ok(None);
    }
    let name = normalize(alloc, name)?;
    match by_name(name.as_slice()) {
        Ok(set) => Ok(Some(set)),
        Err(_) => Ok(None),
    }
}

// Returns the set of a property with a value, both by their names.
fn set_by_value(alloc: Global, name: &[char], value: &[char]) -> Result<Option<Set>, AllocError>
    ensures set { IfOk result (λ o. o ≡ spec.set_of name.now (Some (name.now, value.now))) }
{
    if !are_name_chars(name) {
        return Ok(None);
    }
    if !are_name_chars(value) {
        return Ok(None);
    }
    let name = normalize(alloc, name)?;
    let value = normalize(alloc, value)?;
    match by_value(name.as_slice(), value.as_slice()) {
        Ok(set) => Ok(Some(set)),
        Err(_) => Ok(None),
    }
}

// Returns the set that a text names.
#[tactic(auto, unfolding(crate::specs::Properties::set_named))]
fn set_named(alloc: Global, text: &[char]) -> Result<Option<Set>, AllocError>
    ensures set { IfOk result (λ o. o ≡ spec.set_named text.now) }
{
    match cut('=', text) {
        Some((name, value)) => Ok(set_by_value(alloc, name, value)?),
        None => Ok(set_by_name(alloc, text)?),
    }
}

// Returns the name of a property in braces or by one letter, and what follows it.
fn name_in(extended: bool, text: &[char]) -> Option<(&[char], &[char])>
    ensures name { option_map (λ p. (p.0.now, p.1.now)) result ≡ spec.name_in extended text.now }
{
    match text {
        [] => None,
        ['{', rest @ ..] => cut('}', rest),
        [_, rest @ ..] if extended => Some((&text[..1], rest)),
        _ => None,
    }
}

// Reads what follows `\p`.
#[tactic(auto, unfolding(crate::specs::Properties::property))]
pub(crate) fn property(alloc: Global, extended: bool, text: &[char]) -> Result<(Set, &[char]), Stop>
    ensures property { Tells (λ p. (p.0, p.1.now)) result (spec.property extended text.now) }
{
    let Some((name, rest)) = name_in(extended, text) else {
        return Err(Stop::Refused(Fault::UnknownProperty));
    };
    let Some(set) = set_named(alloc, name)? else {
        return Err(Stop::Refused(Fault::UnknownProperty));
    };
    Ok((set, rest))
}
