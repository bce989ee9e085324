//! Names of hosts. (RFC 1123, section 2.1)
ghost use Rattle.std.specs.Prelude.{◌≡◌, nat_le};
ghost use Rattle.std.specs.List.{list_all, list_any};
ghost use Rattle.text_formats.specs.Hostnames as spec;

use crate::characters::{is_digit, is_letter};
use crate::parts::Part;

fn is_label_character(wide: bool, byte: u8) -> bool
    ensures label { result ≡ spec.is_label_character wide byte }
{
    is_letter(byte) || is_digit(byte) || byte == b'-' || wide && 128 <= byte
}

fn are_label_characters(wide: bool, text: &[u8]) -> bool
    ensures label { result ≡ list_all (spec.is_label_character wide) text.now }
{
    text.iter().all(|byte| is_label_character(wide, *byte))
}

fn has_wide(text: &[u8]) -> bool
    ensures wide { result ≡ list_any (λ c. nat_le 128 c) text.now }
{
    text.iter().any(|byte| 128 <= *byte)
}

fn is_short_label(text: &[u8]) -> bool
    ensures short { result ≡ spec.is_short_label text.now }
{
    text.len() <= 63 || has_wide(text)
}

// Returns whether a text is a label: letters, digits and hyphens, without a hyphen at either end.
// If `wide` is true, characters outside ASCII are allowed too.
pub(crate) fn is_label(wide: bool, text: &[u8]) -> bool
    ensures label { result ≡ spec.is_label wide text.now }
{
    1 <= text.len()
        && is_short_label(text)
        && are_label_characters(wide, text)
        && text[0] != b'-'
        && text[text.len() - 1] != b'-'
}

/// Returns whether a text is the name of a host, such as `www.example.com`.
pub fn is_hostname(text: &str) -> bool
    ensures hostname { result ≡ spec.is_hostname text.now }
{
    text.len() <= 253 && Part::Label(false).is_each(text.as_bytes(), b'.')
}
