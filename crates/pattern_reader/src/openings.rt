//! What begins a group.
ghost use Rattle.std.specs.Prelude.{◌≡◌, option_map};
ghost use Rattle.pattern_characters.specs.Characters.{seen};
ghost use Rattle.pattern_reader.specs.Openings as spec;
ghost use Rattle.pattern_characters.specs.Telling.{Tells};

use crate::parts::Opening;
use pattern_characters::{Fault, Flags, Grammar, Stop, after, is_digit, is_letter, name};
use pattern_trees::Look;
use std::alloc::Global;

// Returns no flags.
pub(crate) fn no_flags() -> Flags
    ensures none { result ≡ spec.no_flags }
{
    Flags {
        ignore_case: false,
        dot_all: false,
        multiline: false,
    }
}

// Returns whether there are no flags.
fn are_none(f: Flags) -> bool
    ensures are { result ≡ spec.are_none f }
{
    !(f.ignore_case || f.dot_all || f.multiline)
}

// Returns the flags with the one of a letter, or the fault of a letter that has none.
fn with_flag(f: Flags, c: char) -> Result<Option<Flags>, Fault>
    ensures flag { result ≡ spec.with_flag f c }
{
    match c {
        'i' if f.ignore_case => Err(Fault::BadFlags),
        'i' => Ok(Some(Flags {
            ignore_case: true,
            ..f
        })),
        's' if f.dot_all => Err(Fault::BadFlags),
        's' => Ok(Some(Flags { dot_all: true, ..f })),
        'm' if f.multiline => Err(Fault::BadFlags),
        'm' => Ok(Some(Flags {
            multiline: true,
            ..f
        })),
        _ if is_letter(c) => Err(Fault::OtherFlags),
        _ => Ok(None),
    }
}

// Reads flags.
#[tactic(auto, unfolding(crate::specs::Openings::modifiers))]
fn modifiers(text: &[char]) -> Result<(Flags, &[char]), Fault>
    ensures modifiers { seen (λ p. (p.0, p.1.now)) result ≡ spec.modifiers spec.no_flags text.now }
{
    let mut flags = no_flags();
    let mut rest = text;
    loop {
        let [c, left @ ..] = rest else {
            return Ok((flags, rest));
        };
        let Some(more) = with_flag(flags, *c)? else {
            return Ok((flags, rest));
        };
        flags = more;
        rest = left;
    }
}

// Returns a flag with one to set and one to clear.
fn changed(old: bool, on: bool, off: bool) -> bool
    ensures changed { result ≡ spec.changed old on off }
{
    (old || on) && !off
}

// Returns the flags with some set and some cleared.
fn updated(f: Flags, on: Flags, off: Flags) -> Flags
    ensures updated { result ≡ spec.updated f on off }
{
    Flags {
        ignore_case: changed(f.ignore_case, on.ignore_case, off.ignore_case),
        dot_all: changed(f.dot_all, on.dot_all, off.dot_all),
        multiline: changed(f.multiline, on.multiline, off.multiline),
    }
}

// Returns whether a flag is both set and cleared.
fn meet(on: Flags, off: Flags) -> bool
    ensures meet { result ≡ spec.meet on off }
{
    (on.ignore_case && off.ignore_case)
        || (on.dot_all && off.dot_all)
        || (on.multiline && off.multiline)
}

// Reads what follows all flags: the colon, or the closing bracket.
fn body_or_none(grammar: Grammar, f: Flags, text: &[char]) -> Result<(Opening, &[char]), Fault>
    ensures body { seen (λ p. (p.0, p.1.now)) result ≡ spec.body_or_none grammar f text.now }
{
    match text {
        [':', rest @ ..] => Ok((Opening::Plain(f), rest)),
        [')', rest @ ..] if grammar.extended => Ok((Opening::Inline(f), rest)),
        _ => Err(Fault::BadOpening),
    }
}

// Reads the flags to clear, and what follows them.
#[tactic(auto, unfolding(crate::specs::Openings::cleared))]
fn cleared(
    grammar: Grammar,
    f: Flags,
    on: Flags,
    text: &[char],
) -> Result<(Opening, &[char]), Fault>
    ensures cleared { seen (λ p. (p.0, p.1.now)) result ≡ spec.cleared grammar f on text.now }
{
    let (off, rest) = modifiers(text)?;
    let (opening, rest) = body_or_none(grammar, updated(f, on, off), rest)?;
    if are_none(on) && are_none(off) {
        return Err(Fault::BadFlags);
    }
    if meet(on, off) {
        return Err(Fault::BadFlags);
    }
    Ok((opening, rest))
}

// Reads what follows the flags to set.
fn after_set(
    grammar: Grammar,
    f: Flags,
    on: Flags,
    text: &[char],
) -> Result<(Opening, &[char]), Fault>
    ensures after { seen (λ p. (p.0, p.1.now)) result ≡ spec.after_set grammar f on text.now }
{
    match text {
        ['-', rest @ ..] => cleared(grammar, f, on, rest),
        [')', ..] if are_none(on) => Err(Fault::BadOpening),
        _ => body_or_none(grammar, updated(f, on, no_flags()), text),
    }
}

// Reads the flags of a group.
#[tactic(auto, unfolding(crate::specs::Openings::flagged))]
fn flagged(grammar: Grammar, f: Flags, text: &[char]) -> Result<(Opening, &[char]), Fault>
    ensures flagged { seen (λ p. (p.0, p.1.now)) result ≡ spec.flagged grammar f text.now }
{
    let (on, rest) = modifiers(text)?;
    after_set(grammar, f, on, rest)
}

// Returns what begins a lookaround.
fn look(ahead: bool, wanted: bool) -> Opening
    ensures look { result ≡ spec.look ahead wanted }
{
    Opening::Around(Look { ahead, wanted })
}

// Reads the name of a group.
#[tactic(auto, unfolding(crate::specs::Openings::of_name))]
fn of_name(alloc: Global, text: &[char]) -> Result<(Opening, &[char]), Stop>
    ensures name { Tells (λ p. (p.0, p.1.now)) result (spec.of_name text.now) }
{
    match name(alloc, text)? {
        Some((_, rest)) => Ok((Opening::Capture, rest)),
        None => Err(Stop::Refused(Fault::BadName)),
    }
}

// Reads what follows `?<`.
fn after_angle(alloc: Global, text: &[char]) -> Result<(Opening, &[char]), Stop>
    ensures angle { Tells (λ p. (p.0, p.1.now)) result (spec.after_angle text.now) }
{
    match text {
        [] => Err(Stop::Refused(Fault::BadName)),
        ['=', rest @ ..] => Ok((look(false, true), rest)),
        ['!', rest @ ..] => Ok((look(false, false), rest)),
        _ => of_name(alloc, text),
    }
}

// Returns the fault of a text after `?P` that begins no name.
fn p_fault(text: &[char]) -> Fault
    ensures fault { result ≡ spec.p_fault text.now }
{
    match text {
        ['=' | '>', ..] => Fault::OtherOpening,
        _ => Fault::BadOpening,
    }
}

// Reads what follows `?P`.
fn after_p(alloc: Global, text: &[char]) -> Result<(Opening, &[char]), Stop>
    ensures p { Tells (λ p. (p.0, p.1.now)) result (spec.after_p text.now) }
{
    match after('<', text) {
        Some(rest) => of_name(alloc, rest),
        None => Err(Stop::Refused(p_fault(text))),
    }
}

// Returns whether a character after `(?` begins a group in other engines alone.
fn is_other(c: char) -> bool
    ensures is { result ≡ spec.is_other c }
{
    is_digit(c)
        || matches!(
            c,
            '#' | '&' | '\'' | '(' | '*' | '+' | '>' | '?' | '^' | '{' | '|'
        )
}

// Reads what follows `(?`.
fn after_mark(
    alloc: Global,
    grammar: Grammar,
    f: Flags,
    text: &[char],
) -> Result<(Opening, &[char]), Stop>
    ensures mark { Tells (λ p. (p.0, p.1.now)) result (spec.after_mark grammar f text.now) }
{
    match text {
        [] => Err(Stop::Refused(Fault::BadOpening)),
        ['=', rest @ ..] => Ok((look(true, true), rest)),
        ['!', rest @ ..] => Ok((look(true, false), rest)),
        ['<', rest @ ..] => after_angle(alloc, rest),
        ['P', rest @ ..] if grammar.extended => after_p(alloc, rest),
        [c, ..] if is_other(*c) => Err(Stop::Refused(Fault::OtherOpening)),
        _ => Ok(flagged(grammar, f, text)?),
    }
}

// Reads what begins a group, after its opening bracket.
#[tactic(auto, unfolding(crate::specs::Openings::opening))]
pub(crate) fn opening(
    alloc: Global,
    grammar: Grammar,
    f: Flags,
    text: &[char],
) -> Result<(Opening, &[char]), Stop>
    ensures opening { Tells (λ p. (p.0, p.1.now)) result (spec.opening grammar f text.now) }
{
    match text {
        ['?', rest @ ..] => after_mark(alloc, grammar, f, rest),
        _ => Ok((Opening::Capture, text)),
    }
}
