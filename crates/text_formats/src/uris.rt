//! Uniform resource identifiers, and references to them. (RFC 3986; RFC 3987)
ghost use Rattle.std.specs.Prelude.{◌≡◌};
ghost use Rattle.std.specs.List.{list_all};
ghost use Rattle.uri_references.specs.Views.{components_of};
ghost use Rattle.text_formats.specs.Cutting as Cutting;
ghost use Rattle.text_formats.specs.Uris as spec;
ghost use Rattle.text_formats.specs.Cutting.{text_read};

use crate::addresses::is_ipv6_in;
use crate::characters::{are_digits, are_hex_digits, is_digit, is_hex_digit, is_letter};
use crate::cutting::cut;
use uri_references::Components;

// A class of characters: those of a host's name, of the user information before a host, of a path,
// of a query or fragment, of a template's literals, or of the names of its variables.
#[derive(Clone, Copy)]
pub(crate) enum Class {
    Name,
    User,
    Path,
    Fragment,
    Literal,
    Variable,
}

fn is_unreserved(byte: u8) -> bool
    ensures unreserved { result ≡ spec.is_unreserved byte }
{
    is_letter(byte) || is_digit(byte) || matches!(byte, b'-' | b'.' | b'_' | b'~')
}

fn is_sub_delim(byte: u8) -> bool
    ensures sub_delim { result ≡ spec.is_sub_delim byte }
{
    b"!$&'()*+,;=".contains(&byte)
}

fn is_common(byte: u8) -> bool
    ensures common { result ≡ spec.is_common byte }
{
    is_unreserved(byte) || is_sub_delim(byte)
}

// Returns whether a byte stands for itself in a template.
fn is_literal(byte: u8) -> bool
    ensures literal { result ≡ spec.is_literal byte }
{
    matches!(byte, b'!' | b'#' | b'$' | b'&' | b'('..=b';' | b'=' | b'?'..=b'[' | b']' | b'_')
        || matches!(byte, b'a'..=b'z' | b'~')
}

fn is_of_variable(byte: u8) -> bool
    ensures variable { result ≡ spec.is_of_variable byte }
{
    is_letter(byte) || is_digit(byte) || byte == b'_' || byte == b'.'
}

impl Class {
    fn has_ascii(self, byte: u8) -> bool
        ensures of { result ≡ spec.is_ascii_of self byte }
    {
        match self {
            Class::Name => is_common(byte),
            Class::User => is_common(byte) || byte == b':',
            Class::Path => is_common(byte) || matches!(byte, b':' | b'@' | b'/'),
            Class::Fragment => is_common(byte) || matches!(byte, b':' | b'@' | b'/' | b'?'),
            Class::Literal => is_literal(byte),
            Class::Variable => is_of_variable(byte),
        }
    }

    // Returns whether a byte is in the class. If `wide` is true, bytes of characters outside ASCII
    // are in it too.
    fn has(self, wide: bool, byte: u8) -> bool
        ensures of { result ≡ spec.is_of wide self byte }
    {
        self.has_ascii(byte) || wide && 128 <= byte
    }

    // Returns whether a text consists of characters of the class and percent-encoded octets.
    pub(crate) fn makes(self, wide: bool, text: &[u8]) -> bool
        ensures made { result ≡ spec.is_made wide self text.now }
    {
        let mut rest = text;
        loop {
            match rest {
                [] => return true,
                [b'%', first, second, left @ ..] => {
                    if !(is_hex_digit(*first) && is_hex_digit(*second)) {
                        return false;
                    }
                    rest = left;
                }
                [byte, left @ ..] => {
                    if !self.has(wide, *byte) {
                        return false;
                    }
                    rest = left;
                }
            }
        }
    }
}

fn is_scheme_character(byte: u8) -> bool
    ensures scheme { result ≡ spec.is_scheme_character byte }
{
    is_letter(byte) || is_digit(byte) || matches!(byte, b'+' | b'-' | b'.')
}

fn are_scheme_characters(text: &[u8]) -> bool
    ensures scheme { result ≡ list_all spec.is_scheme_character text.now }
{
    text.iter().all(|byte| is_scheme_character(*byte))
}

fn is_scheme(text: &[u8]) -> bool
    ensures scheme { result ≡ spec.is_scheme text.now }
{
    match text {
        [first, rest @ ..] => is_letter(*first) && are_scheme_characters(rest),
        [] => false,
    }
}

fn is_port_end(text: &[u8]) -> bool
    ensures port { result ≡ spec.is_port_end text.now }
{
    match text {
        [] => true,
        [first, rest @ ..] => *first == b':' && are_digits(rest),
    }
}

fn is_future_character(byte: u8) -> bool
    ensures future { result ≡ spec.is_future_character byte }
{
    is_unreserved(byte) || is_sub_delim(byte) || byte == b':'
}

fn are_future_characters(text: &[u8]) -> bool
    ensures future { result ≡ list_all spec.is_future_character text.now }
{
    text.iter().all(|byte| is_future_character(*byte))
}

fn is_future_after(text: &[u8]) -> bool
    ensures future { result ≡ spec.is_future_after (Cutting.cut 46 text.now) }
{
    match cut(text, b'.') {
        Some((version, address)) => {
            !version.is_empty()
                && are_hex_digits(version)
                && !address.is_empty()
                && are_future_characters(address)
        }
        None => false,
    }
}

fn is_future(text: &[u8]) -> bool
    ensures future { result ≡ spec.is_future text.now }
{
    match text {
        [b'v' | b'V', rest @ ..] => is_future_after(rest),
        _ => false,
    }
}

fn is_bracketed(text: &[u8]) -> bool
    ensures bracketed { result ≡ spec.is_bracketed (Cutting.cut 93 text.now) }
{
    match cut(text, b']') {
        Some((address, rest)) => (is_ipv6_in(address) || is_future(address)) && is_port_end(rest),
        None => false,
    }
}

fn is_named(wide: bool, text: &[u8]) -> bool
    ensures named { result ≡ spec.is_named wide text.now (Cutting.cut 58 text.now) }
{
    match cut(text, b':') {
        Some((name, port)) => Class::Name.makes(wide, name) && are_digits(port),
        None => Class::Name.makes(wide, text),
    }
}

fn is_host(wide: bool, text: &[u8]) -> bool
    ensures host { result ≡ spec.is_host wide text.now }
{
    match text {
        [] => true,
        [b'[', rest @ ..] => is_bracketed(rest),
        _ => is_named(wide, text),
    }
}

fn is_authority(wide: bool, text: &[u8]) -> bool
    ensures authority { result ≡ spec.is_authority wide text.now }
{
    match cut(text, b'@') {
        Some((user, host)) => Class::User.makes(wide, user) && is_host(wide, host),
        None => is_host(wide, text),
    }
}

fn scheme_fits(scheme: Option<&str>) -> bool
    ensures fits { result ≡ spec.scheme_fits (text_read scheme.entry) }
{
    match scheme {
        Some(scheme) => is_scheme(scheme.as_bytes()),
        None => true,
    }
}

fn authority_fits(wide: bool, authority: Option<&str>) -> bool
    ensures fits { result ≡ spec.authority_fits wide (text_read authority.entry) }
{
    match authority {
        Some(authority) => is_authority(wide, authority.as_bytes()),
        None => true,
    }
}

fn end_fits(wide: bool, end: Option<&str>) -> bool
    ensures fits { result ≡ spec.end_fits wide (text_read end.entry) }
{
    match end {
        Some(end) => Class::Fragment.makes(wide, end.as_bytes()),
        None => true,
    }
}

fn begins_with_colon(text: &[u8]) -> bool
    ensures begins { result ≡ spec.begins_with_colon text.now }
{
    matches!(text, [b':', ..])
}

fn path_fits(wide: bool, components: &Components<'_>) -> bool
    ensures fits { result ≡ spec.path_fits wide (components_of components.now) }
{
    let path = components.path.as_bytes();
    Class::Path.makes(wide, path)
        && (components.scheme.is_some()
            || components.authority.is_some()
            || !begins_with_colon(path))
}

pub(crate) fn fit(wide: bool, components: &Components<'_>) -> bool
    ensures fit { result ≡ spec.fit wide (components_of components.now) }
{
    scheme_fits(components.scheme)
        && authority_fits(wide, components.authority)
        && path_fits(wide, components)
        && end_fits(wide, components.query)
        && end_fits(wide, components.fragment)
}

/// Returns whether a text is a URI reference, such as `../other?query`.
pub fn is_uri_reference(text: &str) -> bool
    ensures uri_reference { result ≡ spec.is_uri_reference text.now }
{
    fit(false, &Components::of(text))
}

/// Returns whether a text is a URI, such as `http://example.com/path`.
///
/// Unlike a URI reference, a URI always has a scheme.
pub fn is_uri(text: &str) -> bool
    ensures uri { result ≡ spec.is_uri text.now }
{
    let components = Components::of(text);
    components.scheme.is_some() && fit(false, &components)
}
