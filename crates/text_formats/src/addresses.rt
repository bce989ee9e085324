//! Addresses of the Internet Protocol.
//!
//! RFC 3986, section 3.2.2; RFC 4291, section 2.2; in mail RFC 5321, section 4.1.3.
ghost use Rattle.std.specs.Prelude.{◌≡◌, ◌≤◌, ◌+◌, IfSome, length, ◌<◌, ◌^◌};
ghost use Rattle.std.specs.List.{list_all};
ghost use Rattle.text_formats.specs.Addresses as spec;
ghost use Rattle.text_formats.specs.Cutting.{parts};

use crate::characters::{are_hex_digits, is_digit, value};
use crate::cutting::cut;
use crate::parts::Part;

// What the last part of an IPv6 address may be: a group, or an IPv4 address too, by the grammar of
// references or that of mail.
#[derive(Clone, Copy)]
pub(crate) enum Ending {
    Group,
    Ipv4,
    MailIpv4,
}

// Returns whether a text is a number from 0 to 255 without a leading zero.
fn is_octet(text: &[u8]) -> bool
    ensures octet { result ≡ spec.is_octet text.now }
{
    match text {
        [a] => is_digit(*a),
        [a, b] => is_digit(*a) && is_digit(*b) && 1 <= value(*a),
        [a, b, c] => {
            is_digit(*a)
                && is_digit(*b)
                && is_digit(*c)
                && 1 <= value(*a)
                && 100 * value(*a) + 10 * value(*b) + value(*c) <= 255
        }
        _ => false,
    }
}

#[tactic(auto, using(crate::proofs::Parting::each_after, crate::proofs::Parting::each_alone))]
// Returns whether each part of a text between dots is a number from 0 to 255.
fn are_octets(text: &[u8]) -> bool
    ensures each { result ≡ list_all spec.is_octet (parts 46 text.now) }
{
    let mut rest = text;
    while let Some((part, left)) = cut(rest, b'.') {
        if !is_octet(part) {
            return false;
        }
        rest = left;
    }
    is_octet(rest)
}

/// Returns whether the characters of a text are an IPv4 address.
pub fn is_ipv4_in(text: &[u8]) -> bool
    ensures ipv4 { result ≡ spec.is_ipv4 text.now }
{
    text.iter().filter(|byte| **byte == b'.').count() == 3 && are_octets(text)
}

/// Returns whether a text is an IPv4 address, such as `127.0.0.1`.
pub fn is_ipv4(text: &str) -> bool
    ensures ipv4 { result ≡ spec.is_ipv4 text.now }
{
    is_ipv4_in(text.as_bytes())
}

// Returns whether a text is a number from 0 to 255 of at most three digits.
pub(crate) fn is_snum(text: &[u8]) -> bool
    ensures snum { result ≡ spec.is_snum text.now }
{
    match text {
        [a] => is_digit(*a),
        [a, b] => is_digit(*a) && is_digit(*b),
        [a, b, c] => {
            is_digit(*a)
                && is_digit(*b)
                && is_digit(*c)
                && 100 * value(*a) + 10 * value(*b) + value(*c) <= 255
        }
        _ => false,
    }
}

// Returns whether the characters of a text are an IPv4 address as in mail.
pub(crate) fn is_mail_ipv4(text: &[u8]) -> bool
    ensures ipv4 { result ≡ spec.is_mail_ipv4 text.now }
{
    text.iter().filter(|byte| **byte == b'.').count() == 3 && Part::Snum.is_each(text, b'.')
}

fn is_group(text: &[u8]) -> bool
    ensures group { result ≡ spec.is_group text.now }
{
    1 <= text.len() && text.len() <= 4 && are_hex_digits(text)
}

fn may_end(ending: Ending, text: &[u8]) -> bool
    ensures end { result ≡ spec.may_end ending text.now }
{
    match ending {
        Ending::Group => false,
        Ending::Ipv4 => is_ipv4_in(text),
        Ending::MailIpv4 => is_mail_ipv4(text),
    }
}

fn last_groups(ending: Ending, text: &[u8]) -> Option<usize>
    ensures groups { result ≡ spec.last_groups ending text.now }
    ensures few { IfSome result (λ n. n ≤ 2) }
{
    if is_group(text) {
        Some(1)
    } else if may_end(ending, text) {
        Some(2)
    } else {
        None
    }
}

fn groups(ending: Ending, text: &[u8]) -> Option<usize>
    ensures groups { result ≡ spec.groups ending (parts 58 text.now) }
    ensures few { IfSome result (λ n. n ≤ length text.now + 2) }
{
    let mut count = 0;
    let mut rest = text;
    while let Some((group, left)) = cut(rest, b':') {
        if !is_group(group) {
            return None;
        }
        count += 1;
        rest = left;
    }
    match last_groups(ending, rest) {
        Some(last) => Some(count + last),
        None => None,
    }
}

fn groups_if_any(ending: Ending, text: &[u8]) -> Option<usize>
    ensures groups { result ≡ spec.groups_if_any ending text.now }
    ensures few { IfSome result (λ n. n ≤ length text.now + 2) }
{
    if text.is_empty() {
        Some(0)
    } else {
        groups(ending, text)
    }
}

// Returns the index of the first `::`.
fn gap(text: &[u8]) -> Option<usize>
    ensures gap { result ≡ spec.gap_from 0 text.now }
    ensures within { IfSome result (λ n. n + 2 ≤ length text.now) }
{
    let mut at = 0;
    let mut rest = text;
    loop {
        match rest {
            [b':', b':', ..] => return Some(at),
            [_, left @ ..] => {
                at += 1;
                rest = left;
            }
            [] => return None,
        }
    }
}

fn have_at_most(most: usize, left: Option<usize>, right: Option<usize>) -> bool
    requires few_left { IfSome left (λ n. n ≤ 2 ^ 63) }
    requires few_right { IfSome right (λ n. n < 2 ^ 63) }
    ensures most { result ≡ spec.have_at_most most left right }
{
    match left {
        Some(left) => match right {
            Some(right) => left + right <= most,
            None => false,
        },
        None => false,
    }
}

fn is_ipv6_with(ending: Ending, most: usize, text: &[u8]) -> bool
    ensures ipv6 { result ≡ spec.is_ipv6_with ending most text.now (spec.gap_from 0 text.now) }
{
    match gap(text) {
        Some(at) => {
            let left = groups_if_any(Ending::Group, &text[..at]);
            have_at_most(most, left, groups_if_any(ending, &text[at + 2..]))
        }
        None => groups_if_any(ending, text) == Some(8),
    }
}

/// Returns whether the characters of a text are an IPv6 address.
pub fn is_ipv6_in(text: &[u8]) -> bool
    ensures ipv6 { result ≡ spec.is_ipv6 text.now }
{
    is_ipv6_with(Ending::Ipv4, 7, text)
}

// Returns whether the characters of a text are an IPv6 address as in mail.
pub(crate) fn is_mail_ipv6(text: &[u8]) -> bool
    ensures ipv6 { result ≡ spec.is_mail_ipv6 text.now }
{
    is_ipv6_with(Ending::MailIpv4, 6, text)
}

/// Returns whether a text is an IPv6 address, such as `2001:db8::1`.
pub fn is_ipv6(text: &str) -> bool
    ensures ipv6 { result ≡ spec.is_ipv6 text.now }
{
    is_ipv6_in(text.as_bytes())
}
