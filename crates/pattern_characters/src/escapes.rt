//! What an escape stands for.
ghost use Rattle.std.specs.Prelude.{◌≡◌, ◌≤◌, ◌<◌, ◌∷◌, ◌==◌, ◌||◌, ◌&&◌, IfSome, IfOk, option_map};
ghost use Rattle.pattern_characters.specs.Characters.{seen, Text};
ghost use Rattle.pattern_characters.specs.Escapes as spec;
ghost use Rattle.pattern_characters.specs.Sets.{IsMember};
ghost use Rattle.pattern_characters.specs.Telling.{Tells};

use crate::characters::{hex_pair, is_digit, is_letter, is_octal, octal, unicode_escape};
use crate::faults::{Fault, Stop};
use crate::parts::{Grammar, Letter, Member};
use crate::properties::property;
use std::alloc::Global;

// Returns the character of a control escape.
fn control(c: char) -> Option<u32>
    ensures control { result ≡ spec.control c }
    ensures small { IfSome result (λ n. n < 128) }
{
    match c {
        'f' => Some(12),
        'n' => Some(10),
        'r' => Some(13),
        't' => Some(9),
        'v' => Some(11),
        _ => None,
    }
}

// Returns whether a character has a meaning of its own, so that a backslash takes it away.
fn is_syntax(c: char) -> bool
    ensures is { result ≡ spec.is_syntax c }
{
    matches!(
        c,
        '$' | '(' | ')' | '*' | '+' | '.' | '/' | '?' | '[' | '\\' | ']' | '^' | '{' | '|' | '}'
    )
}

// Returns whether `\c` may stand before this character.
fn is_control_letter(grammar: Grammar, in_class: bool, c: char) -> bool
    ensures is { result ≡ spec.is_control_letter grammar in_class c }
{
    is_letter(c) || (!grammar.strict && in_class && (is_digit(c) || c == '_'))
}

// Reads what follows `\c`; `text` begins with the c.
fn control_letter(grammar: Grammar, in_class: bool, text: &[char]) -> Result<(u32, &[char]), Fault>
    ensures letter { (rest : Text) → text.now ≡ 99 ∷ rest → seen (λ p. (p.0, p.1.now)) result ≡ spec.control_letter grammar in_class rest }
    ensures small { IfOk result (λ p. p.0 < 128) }
{
    match text {
        [_, c, rest @ ..] if is_control_letter(grammar, in_class, *c) => {
            Ok((*c as u32 % 32, rest))
        }
        _ if grammar.strict => Err(Fault::BadEscape),
        _ => Ok((92, text)),
    }
}

// Reads what follows the digit of an escape.
fn of_digit(grammar: Grammar, c: char, rest: &[char]) -> Result<(u32, &[char]), Fault>
    ensures digit { seen (λ p. (p.0, p.1.now)) result ≡ spec.of_digit grammar c rest.now }
    ensures small { IfOk result (λ p. p.0 ≤ 0x10_FFFF) }
{
    if grammar.strict {
        return match rest {
            [d, ..] if is_digit(*d) => Err(Fault::BadEscape),
            _ if c == '0' => Ok((0, rest)),
            _ => Err(Fault::BadEscape),
        };
    }
    if is_octal(c) {
        return Ok(octal(c as u32 - 48, rest));
    }
    Ok((c as u32, rest))
}

// Returns what was read after a letter, or in the older grammar the letter itself.
fn or_itself<'a>(
    grammar: Grammar,
    c: char,
    rest: &'a [char],
    read: Option<(u32, &'a [char])>,
) -> Result<(u32, &'a [char]), Fault>
    requires small { IfSome read (λ p. p.0 ≤ 0x10_FFFF) }
    ensures itself { seen (λ p. (p.0, p.1.now)) result ≡ spec.or_itself grammar c rest.now (option_map (λ p. (p.0, p.1.now)) read.entry) }
    ensures small { IfOk result (λ p. p.0 ≤ 0x10_FFFF) }
{
    match read {
        Some((v, after)) => Ok((v, after)),
        None if grammar.strict => Err(Fault::BadEscape),
        None => Ok((c as u32, rest)),
    }
}

// Reads an escape that stands for its own character.
fn identity(grammar: Grammar, c: char, rest: &[char]) -> Result<(u32, &[char]), Fault>
    ensures identity { seen (λ p. (p.0, p.1.now)) result ≡ spec.identity grammar c rest.now }
    ensures small { IfOk result (λ p. p.0 ≤ 0x10_FFFF) }
{
    if grammar.strict {
        if is_syntax(c) {
            return Ok((c as u32, rest));
        }
        return Err(Fault::BadEscape);
    }
    if c == 'k' && grammar.named {
        return Err(Fault::BadEscape);
    }
    Ok((c as u32, rest))
}

// Returns the character of an escape that only a class has.
fn in_class_escape(grammar: Grammar, in_class: bool, c: char) -> Option<u32>
    ensures escape { result ≡ spec.in_class_escape grammar in_class c }
    ensures small { IfSome result (λ n. n < 128) }
{
    if !in_class {
        return None;
    }
    match c {
        'b' => Some(8),
        '-' if grammar.strict => Some(45),
        _ => None,
    }
}

// Reads an escape that begins with a letter or a digit of its own.
fn of_letter<'a>(
    grammar: Grammar,
    in_class: bool,
    c: char,
    rest: &'a [char],
    text: &'a [char],
) -> Result<(u32, &'a [char]), Fault>
    requires whole { text.now ≡ c ∷ rest.now }
    ensures letter { seen (λ p. (p.0, p.1.now)) result ≡ spec.of_letter grammar in_class c rest.now }
    ensures small { IfOk result (λ p. p.0 ≤ 0x10_FFFF) }
{
    match c {
        'c' => control_letter(grammar, in_class, text),
        '0'..='9' => of_digit(grammar, c, rest),
        'x' => or_itself(grammar, c, rest, hex_pair(rest)),
        'u' => or_itself(
            grammar,
            c,
            rest,
            unicode_escape(grammar.strict || grammar.extended, rest),
        ),
        _ => identity(grammar, c, rest),
    }
}

// Reads an escape of one character.
#[tactic(auto, unfolding(crate::specs::Escapes::character))]
fn character(grammar: Grammar, in_class: bool, text: &[char]) -> Result<(u32, &[char]), Fault>
    ensures character { seen (λ p. (p.0, p.1.now)) result ≡ spec.character grammar in_class text.now }
    ensures small { IfOk result (λ p. p.0 ≤ 0x10_FFFF) }
{
    let [c, rest @ ..] = text else {
        return Err(Fault::BadEscape);
    };
    if let Some(v) = control(*c) {
        return Ok((v, rest));
    }
    if let Some(v) = in_class_escape(grammar, in_class, *c) {
        return Ok((v, rest));
    }
    of_letter(grammar, in_class, *c, rest, text)
}

// Returns the set of a letter.
fn letter_member(c: char) -> Option<Member>
    ensures member { result ≡ spec.letter_member c }
    ensures small { IfSome result (λ m. IsMember m) }
{
    match c {
        'd' => Some(Member::Of(Letter::Digits, false)),
        'D' => Some(Member::Of(Letter::Digits, true)),
        's' => Some(Member::Of(Letter::Spaces, false)),
        'S' => Some(Member::Of(Letter::Spaces, true)),
        'w' => Some(Member::Of(Letter::Words, false)),
        'W' => Some(Member::Of(Letter::Words, true)),
        _ => None,
    }
}

// Returns whether the letter begins a property.
fn is_property(grammar: Grammar, c: char) -> bool
    ensures is { result ≡ ((grammar.strict || grammar.extended) && ((c == 112) || (c == 80))) }
{
    (grammar.strict || grammar.extended) && (c == 'p' || c == 'P')
}

/// Reads an escape, after its backslash.
///
/// # Errors
///
/// Fails if the text is refused or memory cannot be allocated.
#[tactic(auto, unfolding(crate::specs::Escapes::member))]
pub fn member(
    alloc: Global,
    grammar: Grammar,
    in_class: bool,
    text: &[char],
) -> Result<(Member, &[char]), Stop>
    ensures member { Tells (λ p. (p.0, p.1.now)) result (spec.member grammar in_class text.now) }
    ensures small { IfOk result (λ p. IsMember p.0) }
{
    let [c, rest @ ..] = text else {
        return Err(Stop::Refused(Fault::BadEscape));
    };
    if let Some(m) = letter_member(*c) {
        return Ok((m, rest));
    }
    if is_property(grammar, *c) {
        let (set, left) = property(alloc, grammar.extended, rest)?;
        return Ok((Member::With(set, *c == 'P'), left));
    }
    let (v, left) = character(grammar, in_class, text)?;
    Ok((Member::One(v), left))
}
