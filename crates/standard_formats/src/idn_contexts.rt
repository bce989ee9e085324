//! The places of middle dots and the like in labels.
//!
//! (RFC 5892, appendices A.3 to A.9)
ghost use Rattle.std.specs.Prelude.{◌≡◌, ◌==◌};
ghost use Rattle.std.specs.List.{list_any};
ghost use Rattle.standard_formats.specs.IdnCharacters.{is_arabic_digit as arabic, is_extended_arabic_digit as extended};
ghost use Rattle.standard_formats.specs.IdnContexts as spec;

use crate::idn_characters::{is_arabic_digit, is_extended_arabic_digit};
use ucd_script::Script;

fn is_of(script: Script, character: char) -> bool
    ensures script { result ≡ spec.is_of script character }
{
    Script::for_char(character).number() == script.number()
}

fn fits_middle_dot(before: char, character: char) -> bool
    ensures fits { result ≡ spec.fits_middle_dot before character }
{
    (character != '\u{B7}' || before == 'l') && (before != '\u{B7}' || character == 'l')
}

fn fits_keraia(before: char, character: char) -> bool
    ensures fits { result ≡ spec.fits_keraia before character }
{
    before != '\u{375}' || is_of(Script::Greek, character)
}

fn fits_geresh(before: char, character: char) -> bool
    ensures fits { result ≡ spec.fits_geresh before character }
{
    !(character == '\u{5F3}' || character == '\u{5F4}') || is_of(Script::Hebrew, before)
}

fn may_follow(before: char, character: char) -> bool
    ensures follow { result ≡ spec.may_follow before character }
{
    fits_middle_dot(before, character)
        && fits_keraia(before, character)
        && fits_geresh(before, character)
}

/// Returns whether each character of a label, and its end, may follow the one before.
fn follow(label: &[char]) -> bool
    ensures follow { result ≡ spec.follow 46 label.now }
{
    let mut before = '.';
    let mut rest = label;
    while let [first, left @ ..] = rest {
        if !may_follow(before, *first) {
            return false;
        }
        before = *first;
        rest = left;
    }
    may_follow(before, '.')
}

fn is_japanese(character: char) -> bool
    ensures japanese { result ≡ spec.is_japanese character }
{
    is_of(Script::Hiragana, character)
        || is_of(Script::Katakana, character)
        || is_of(Script::Han, character)
}

fn has_katakana_dot(label: &[char]) -> bool
    ensures dot { result ≡ list_any (λ c. c == 0x30FB) label.now }
{
    label.iter().any(|character| *character == '\u{30FB}')
}

fn has_japanese(label: &[char]) -> bool
    ensures japanese { result ≡ list_any spec.is_japanese label.now }
{
    label.iter().any(|character| is_japanese(*character))
}

fn has_arabic_digit(label: &[char]) -> bool
    ensures digit { result ≡ list_any arabic label.now }
{
    label
        .iter()
        .any(|character| is_arabic_digit(u32::from(*character)))
}

fn has_extended_arabic_digit(label: &[char]) -> bool
    ensures digit { result ≡ list_any extended label.now }
{
    label.iter().any(|character| is_extended_arabic_digit(u32::from(*character)))
}

/// Returns whether the characters of a label are in places that they may have.
pub(crate) fn fits_contexts(label: &[char]) -> bool
    ensures fits { result ≡ spec.fits_contexts label.now }
{
    follow(label)
        && (!has_katakana_dot(label) || has_japanese(label))
        && (!has_arabic_digit(label) || !has_extended_arabic_digit(label))
}
