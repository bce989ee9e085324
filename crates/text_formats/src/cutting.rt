//! Cutting a text: at the first mark, after a character, after digits.
ghost use Rattle.std.specs.Prelude.{◌≡◌, ◌<◌, ◌==◌, IfSome, length, option_map, position, take, drop};
ghost use Rattle.text_formats.specs.Cutting as spec;
ghost use Rattle.text_formats.specs.Cutting.{text_read};

use crate::characters::is_digit;

/// Splits a text after this many characters, or at its end.
pub fn split(text: &[u8], count: usize) -> (&[u8], &[u8])
    ensures front { result.0.now ≡ take count text.now }
    ensures back { result.1.now ≡ drop count text.now }
{
    if count <= text.len() {
        text.split_at(count)
    } else {
        (text, &[])
    }
}

// Returns the index of the first mark.
fn place_of(text: &[u8], mark: u8) -> Option<usize>
    ensures place { result ≡ position (λ c. c == mark) text.now }
    ensures within { IfSome result (λ n. n < length text.now) }
{
    text.iter().position(|byte| *byte == mark)
}

/// Returns the texts before and after the first mark.
pub fn cut(text: &[u8], mark: u8) -> Option<(&[u8], &[u8])>
    ensures cut { option_map (λ p. (p.0.now, p.1.now)) result ≡ spec.cut mark text.now }
    ensures shorter { IfSome result (λ p. length p.1.now < length text.now) }
{
    match place_of(text, mark) {
        Some(at) => Some((&text[..at], &text[at + 1..])),
        None => None,
    }
}

/// Returns the text after this character, if the text begins with it.
pub fn after(text: &[u8], mark: u8) -> Option<&[u8]>
    ensures after { text_read result ≡ spec.after mark text.now }
{
    match text {
        [first, rest @ ..] if *first == mark => Some(rest),
        _ => None,
    }
}

/// Returns the text after the digits that it begins with, if there are any.
pub fn past_digits(text: &[u8]) -> &[u8]
    ensures past { result.now ≡ spec.past_digits text.now }
{
    let mut rest = text;
    loop {
        match rest {
            [first, left @ ..] if is_digit(*first) => rest = left,
            _ => return rest,
        }
    }
}

// Returns the text after its first digits, if it begins with one or more.
pub(crate) fn after_digits(text: &[u8]) -> Option<&[u8]>
    ensures after { text_read result ≡ spec.after_digits text.now }
{
    match text {
        [first, rest @ ..] if is_digit(*first) => Some(past_digits(rest)),
        _ => None,
    }
}
