//! Addresses of electronic mail.
//!
//! RFC 5321, sections 4.1.2 and 4.1.3; RFC 6531, section 3.3. If `wide` is true, the addresses are
//! internationalized: characters outside ASCII are allowed.
ghost use Rattle.std.specs.Prelude.{◌≡◌, codes};
ghost use Rattle.std.specs.List.{list_all};
ghost use Rattle.std.specs.Str.{str_eq_ignore_ascii_case};
ghost use Rattle.text_formats.specs.Cutting as Cutting;
ghost use Rattle.text_formats.specs.Emails as spec;
ghost use Rattle.text_formats.specs.Cutting.{text_read};

use crate::addresses::{is_mail_ipv4, is_mail_ipv6};
use crate::characters::{is_digit, is_letter};
use crate::cutting::{after, cut, split};
use crate::parts::Part;

fn is_atom_character(wide: bool, byte: u8) -> bool
    ensures atom { result ≡ spec.is_atom_character wide byte }
{
    is_letter(byte)
        || is_digit(byte)
        || b"!#$%&'*+-/=?^_`{|}~".contains(&byte)
        || wide && 128 <= byte
}

fn are_atom_characters(wide: bool, text: &[u8]) -> bool
    ensures atom { result ≡ list_all (spec.is_atom_character wide) text.now }
{
    text.iter().all(|byte| is_atom_character(wide, *byte))
}

// Returns whether a text is an atom: at least one character, and no space, quotation mark or other
// mark with a meaning of its own.
pub(crate) fn is_atom(wide: bool, text: &[u8]) -> bool
    ensures atom { result ≡ spec.is_atom wide text.now }
{
    !text.is_empty() && are_atom_characters(wide, text)
}

fn is_quoted_character(wide: bool, byte: u8) -> bool
    ensures quoted { result ≡ spec.is_quoted_character wide byte }
{
    matches!(byte, 32..=33 | 35..=91 | 93..=126) || wide && 128 <= byte
}

// Returns the text after the quotation mark that closes a quoted text.
fn after_quoted(wide: bool, text: &[u8]) -> Option<&[u8]>
    ensures after { text_read result ≡ spec.after_quoted wide text.now }
{
    let mut rest = text;
    loop {
        match rest {
            [b'"', left @ ..] => return Some(left),
            [b'\\', 32..=126, left @ ..] => rest = left,
            [first, left @ ..] if is_quoted_character(wide, *first) => rest = left,
            _ => return None,
        }
    }
}

fn after_dot_string(wide: bool, text: &[u8]) -> Option<&[u8]>
    ensures after { text_read result ≡ spec.after_dot_string wide (Cutting.cut 64 text.now) }
{
    match cut(text, b'@') {
        Some((front, back)) if Part::Atom(wide).is_each(front, b'.') => Some(back),
        _ => None,
    }
}

// Returns the text after a local part and `@`.
fn after_local_part(wide: bool, text: &[u8]) -> Option<&[u8]>
    ensures after { text_read result ≡ spec.after_local_part wide text.now }
{
    match text {
        [b'"', rest @ ..] => match after_quoted(wide, rest) {
            Some(left) => after(left, b'@'),
            None => None,
        },
        _ => after_dot_string(wide, text),
    }
}

// Returns whether a text is `IPv6:`, in letters of either case.
fn is_tag(text: &[u8]) -> bool
    ensures tag { result ≡ str_eq_ignore_ascii_case text.now (codes "IPv6:") }
{
    text.eq_ignore_ascii_case(b"IPv6:")
}

fn is_literal(text: &[u8]) -> bool
    ensures literal { result ≡ spec.is_literal text.now }
{
    let (tag, address) = split(text, 5);
    is_mail_ipv4(text) || is_tag(tag) && is_mail_ipv6(address)
}

fn is_literal_before_bracket(text: &[u8]) -> bool
    ensures literal { result ≡ spec.is_literal_before (Cutting.cut 93 text.now) }
{
    match cut(text, b']') {
        Some((literal, rest)) => is_literal(literal) && rest.is_empty(),
        None => false,
    }
}

fn is_domain(wide: bool, text: &[u8]) -> bool
    ensures domain { result ≡ spec.is_domain wide text.now }
{
    match text {
        [] => false,
        [b'[', literal @ ..] => is_literal_before_bracket(literal),
        _ => Part::Label(wide).is_each(text, b'.'),
    }
}

fn is_mailbox(wide: bool, text: &[u8]) -> bool
    ensures mailbox { result ≡ spec.is_mailbox wide text.now }
{
    match after_local_part(wide, text) {
        Some(domain) => text.len().saturating_sub(domain.len()) <= 65
            && domain.len() <= 255
            && is_domain(wide, domain),
        None => false,
    }
}

/// Returns whether a text is a mail address, such as `joe.bloggs@example.com`.
pub fn is_email(text: &str) -> bool
    ensures email { result ≡ spec.is_email text.now }
{
    is_mailbox(false, text.as_bytes())
}

/// Returns whether a text is an internationalized mail address.
///
/// An example is `실례@실례.테스트`.
pub fn is_idn_email(text: &str) -> bool
    ensures email { result ≡ spec.is_idn_email text.now }
{
    is_mailbox(true, text.as_bytes())
}
