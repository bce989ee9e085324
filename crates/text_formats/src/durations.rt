//! Durations. (RFC 3339, appendix A)
ghost use Rattle.std.specs.Prelude.{◌≡◌};
ghost use Rattle.text_formats.specs.Durations as spec;
ghost use Rattle.text_formats.specs.Cutting.{text_read};

use crate::cutting::after_digits;

// Returns the text after this letter, capital or small, if the text begins with it.
fn after_letter(letter: u8, text: &[u8]) -> Option<&[u8]>
    ensures after { text_read result ≡ spec.after_letter letter text.now }
{
    match text {
        [first, rest @ ..] if first.eq_ignore_ascii_case(&letter) => Some(rest),
        _ => None,
    }
}

// Returns the text after one or more digits and a unit.
fn after_count(text: &[u8], unit: u8) -> Option<&[u8]>
    ensures after { text_read result ≡ spec.after_count unit text.now }
{
    match after_digits(text) {
        Some(rest) => after_letter(unit, rest),
        None => None,
    }
}

// Returns whether a text is a number with a unit, and nothing more.
fn is_last(text: &[u8], unit: u8) -> bool
    ensures last { result ≡ spec.is_last (spec.after_count unit text.now) }
{
    match after_count(text, unit) {
        Some(rest) => rest.is_empty(),
        None => false,
    }
}

fn is_minutes(text: &[u8]) -> bool
    ensures minutes { result ≡ spec.is_minutes text.now }
{
    match after_count(text, b'M') {
        Some(rest) => rest.is_empty() || is_last(rest, b'S'),
        None => false,
    }
}

fn is_hours(text: &[u8]) -> bool
    ensures hours { result ≡ spec.is_hours text.now }
{
    match after_count(text, b'H') {
        Some(rest) => rest.is_empty() || is_minutes(rest),
        None => false,
    }
}

fn is_clock(text: &[u8]) -> bool
    ensures clock { result ≡ spec.is_clock text.now }
{
    match text {
        [first, rest @ ..] if first.eq_ignore_ascii_case(&b'T') => is_hours(rest)
            || is_minutes(rest)
            || is_last(rest, b'S'),
        _ => false,
    }
}

fn is_end(text: &[u8]) -> bool
    ensures end { result ≡ spec.is_end text.now }
{
    text.is_empty() || is_clock(text)
}

fn is_days(text: &[u8]) -> bool
    ensures days { result ≡ spec.is_days text.now }
{
    match after_count(text, b'D') {
        Some(rest) => is_end(rest),
        None => false,
    }
}

fn is_months(text: &[u8]) -> bool
    ensures months { result ≡ spec.is_months text.now }
{
    match after_count(text, b'M') {
        Some(rest) => is_end(rest) || is_days(rest),
        None => false,
    }
}

fn is_years(text: &[u8]) -> bool
    ensures years { result ≡ spec.is_years text.now }
{
    match after_count(text, b'Y') {
        Some(rest) => is_end(rest) || is_months(rest),
        None => false,
    }
}

/// Returns whether a text is a duration, such as `P4DT12H30M5S`.
///
/// Its letters may be small too.
pub fn is_duration(text: &str) -> bool
    ensures duration { result ≡ spec.is_duration text.now }
{
    match text.as_bytes() {
        [first, rest @ ..] if first.eq_ignore_ascii_case(&b'P') => {
            is_days(rest)
                || is_months(rest)
                || is_years(rest)
                || is_clock(rest)
                || is_last(rest, b'W')
        }
        _ => false,
    }
}
