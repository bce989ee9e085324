//! The place from which a search goes on.
ghost use Rattle.std.specs.Prelude.{◌≡◌, ◌+◌, ◌-◌, ◌&&◌, nat_le, length};
ghost use Rattle.pattern_trees.specs.Matching.{after_char, after_reference, after_taken, has_in, only_if, same_chars};

use crate::chars::{are_same_chars, next_char};
use pattern_trees::{CharSet, Span};

/// Returns the place if the search goes on.
pub fn only_if(goes_on: bool, place: usize) -> Option<usize>
    ensures next { result ≡ only_if goes_on place }
{
    if goes_on { Some(place) } else { None }
}

// Returns whether there is a character and the set has it.
fn has_in(set: &CharSet, c: Option<char>) -> bool
    ensures has { result ≡ has_in set.now.spans.items c }
{
    match c {
        None => false,
        Some(c) => set.has(c),
    }
}

/// Returns the place after a character of the set, ahead or back.
pub fn after_char(set: &CharSet, ahead: bool, s: &[char], place: usize) -> Option<usize>
    ensures next { result ≡ after_char set.now.spans.items ahead s.now place }
{
    if ahead {
        if place < s.len() && has_in(set, next_char(true, s, place)) {
            return Some(place + 1);
        }
        return None;
    }
    if place > 0 && has_in(set, next_char(false, s, place)) {
        return Some(place - 1);
    }
    None
}

// Returns whether the text that a group captured stands after a place.
fn is_ahead(s: &[char], span: Span, place: usize) -> bool
    ensures ahead { result ≡ (nat_le (place + (span.stop - span.start)) (length s.now) && same_chars (span.stop - span.start) s.now span.start place) }
{
    let count = span.stop.saturating_sub(span.start);
    place <= s.len() && count <= s.len() - place && are_same_chars(s, count, span.start, place)
}

// Returns whether the text that a group captured stands before a place.
fn is_behind(s: &[char], span: Span, place: usize) -> bool
    ensures behind { result ≡ (nat_le (span.stop - span.start) place && same_chars (span.stop - span.start) s.now span.start (place - (span.stop - span.start))) }
{
    let count = span.stop.saturating_sub(span.start);
    count <= place && are_same_chars(s, count, span.start, place - count)
}

// Returns the place after the text that a group captured, ahead or back.
fn after_taken(span: Span, ahead: bool, s: &[char], place: usize) -> Option<usize>
    ensures next { result ≡ after_taken span ahead s.now place }
{
    let count = span.stop.saturating_sub(span.start);
    if ahead {
        if is_ahead(s, span, place) {
            return place.checked_add(count);
        }
        return None;
    }
    if is_behind(s, span, place) {
        return Some(place - count);
    }
    None
}

/// Returns the place after a back reference, ahead or back.
pub fn after_reference(taken: Option<Span>, ahead: bool, s: &[char], place: usize) -> Option<usize>
    ensures next { result ≡ after_reference taken ahead s.now place }
{
    match taken {
        None => Some(place),
        Some(span) => after_taken(span, ahead, s, place),
    }
}
