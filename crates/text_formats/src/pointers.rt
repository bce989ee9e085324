//! Pointers into JSON values. (RFC 6901)
ghost use Rattle.std.specs.Prelude.{◌≡◌};
ghost use Rattle.text_formats.specs.Pointers as spec;

use crate::characters::is_digit;
use crate::cutting::past_digits;

// Returns whether each tilde of a text is followed by `0` or `1`.
fn is_escaped(text: &[u8]) -> bool
    ensures escaped { result ≡ spec.is_escaped text.now }
{
    let mut rest = text;
    loop {
        match rest {
            [b'~', b'0' | b'1', left @ ..] => rest = left,
            [b'~', ..] => return false,
            [_, left @ ..] => rest = left,
            [] => return true,
        }
    }
}

fn is_pointer(text: &[u8]) -> bool
    ensures pointer { result ≡ spec.is_pointer text.now }
{
    match text {
        [] => true,
        [first, rest @ ..] => *first == b'/' && is_escaped(rest),
    }
}

/// Returns whether a text is a JSON Pointer, such as `/foo/0`.
pub fn is_json_pointer(text: &str) -> bool
    ensures pointer { result ≡ spec.is_pointer text.now }
{
    is_pointer(text.as_bytes())
}

fn is_hash_or_pointer(text: &[u8]) -> bool
    ensures hash_or_pointer { result ≡ spec.is_hash_or_pointer text.now }
{
    match text {
        [b'#', rest @ ..] => rest.is_empty(),
        _ => is_pointer(text),
    }
}

/// Returns whether a text is a relative JSON Pointer, such as `1/objects`.
pub fn is_relative_json_pointer(text: &str) -> bool
    ensures relative_pointer { result ≡ spec.is_relative_pointer text.now }
{
    match text.as_bytes() {
        [b'0', rest @ ..] => is_hash_or_pointer(rest),
        [first, rest @ ..] => is_digit(*first) && is_hash_or_pointer(past_digits(rest)),
        [] => false,
    }
}
