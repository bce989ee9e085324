//! Dates and times of day. (RFC 3339, section 5.6)
ghost use Rattle.std.specs.Prelude.{◌≡◌, ◌≤◌, ◌<◌, IfSome};
ghost use Rattle.text_formats.specs.Dates as spec;
ghost use Rattle.text_formats.specs.Cutting.{text_read};

use crate::characters::{fits, four, two};
use crate::cutting::{after_digits, split};

fn is_leap_year(year: u32) -> bool
    ensures leap { result ≡ spec.is_leap_year year }
{
    year % 4 == 0 && (year % 100 != 0 || year % 400 == 0)
}

fn days_in(year: u32, month: u32) -> u32
    ensures days { result ≡ spec.days_in year month }
{
    match month {
        2 if is_leap_year(year) => 29,
        2 => 28,
        4 | 6 | 9 | 11 => 30,
        _ => 31,
    }
}

fn is_day(year: u32, month: u32, day: u32) -> bool
    ensures day { result ≡ spec.is_day year month day }
{
    1 <= month && month <= 12 && 1 <= day && day <= days_in(year, month)
}

fn is_date_in(text: &[u8]) -> bool
    ensures date { result ≡ spec.is_date text.now }
{
    fits(b"0000-00-00", text) && is_day(four(text, 0), two(text, 5), two(text, 8))
}

/// Returns whether a text is a date, such as `2024-02-29`.
pub fn is_date(text: &str) -> bool
    ensures date { result ≡ spec.is_date text.now }
{
    is_date_in(text.as_bytes())
}

// Returns the minutes by which UTC is ahead of a time with this signed offset.
fn signed_offset(sign: u8, text: &[u8]) -> Option<u32>
    ensures offset { result ≡ spec.signed_offset sign text.now }
    ensures small { IfSome result (λ n. n ≤ 1440) }
{
    if fits(b"00:00", text) && two(text, 0) <= 23 && two(text, 3) <= 59 {
        let minutes = 60 * two(text, 0) + two(text, 3);
        Some(if sign == b'-' {
            minutes
        } else {
            1440 - minutes
        })
    } else {
        None
    }
}

// Returns the minutes by which UTC is ahead of a time with this offset.
fn offset(text: &[u8]) -> Option<u32>
    ensures offset { result ≡ spec.offset text.now }
    ensures small { IfSome result (λ n. n ≤ 1440) }
{
    match text {
        [b'Z' | b'z'] => Some(0),
        [sign, rest @ ..] if *sign == b'+' || *sign == b'-' => signed_offset(*sign, rest),
        _ => None,
    }
}

// Returns the text after a fraction of a second, or the text itself if it has no decimal point.
fn after_fraction(text: &[u8]) -> Option<&[u8]>
    ensures after { text_read result ≡ spec.after_fraction text.now }
{
    match text {
        [b'.', rest @ ..] => after_digits(rest),
        _ => Some(text),
    }
}

fn offset_after(text: Option<&[u8]>) -> Option<u32>
    ensures offset { result ≡ spec.offset_after (text_read text.entry) }
    ensures small { IfSome result (λ n. n ≤ 1440) }
{
    match text {
        Some(text) => offset(text),
        None => None,
    }
}

// Returns whether a minute of a day has this second: 60 is allowed only in the last minute in UTC.
fn is_second(second: u32, minutes: u32, minutes_ahead: Option<u32>) -> bool
    requires day { minutes < 1440 }
    requires small { IfSome minutes_ahead (λ n. n ≤ 1440) }
    ensures second { result ≡ spec.is_second second minutes minutes_ahead }
{
    match minutes_ahead {
        Some(minutes_ahead) => second <= 59
            || second == 60 && (minutes + minutes_ahead) % 1440 == 1439,
        None => false,
    }
}

fn is_time_of_day(text: &[u8], left: &[u8]) -> bool
    ensures time { result ≡ spec.is_time_of_day text.now left.now }
{
    fits(b"00:00:00", text)
        && two(text, 0) <= 23
        && two(text, 3) <= 59
        && is_second(
            two(text, 6),
            60 * two(text, 0) + two(text, 3),
            offset_after(after_fraction(left)),
        )
}

fn is_time_in(text: &[u8]) -> bool
    ensures time { result ≡ spec.is_time text.now }
{
    let (time, left) = split(text, 8);
    is_time_of_day(time, left)
}

/// Returns whether a text is a time of day with an offset from UTC.
///
/// An example is `23:20:50.52Z`.
pub fn is_time(text: &str) -> bool
    ensures time { result ≡ spec.is_time text.now }
{
    is_time_in(text.as_bytes())
}

fn is_time_after_t(text: &[u8]) -> bool
    ensures time { result ≡ spec.is_time_after_t text.now }
{
    match text {
        [b'T' | b't', time @ ..] => is_time_in(time),
        _ => false,
    }
}

/// Returns whether a text is a date and a time of day with an offset from UTC.
///
/// An example is `1985-04-12T23:20:50.52Z`.
pub fn is_date_time(text: &str) -> bool
    ensures date_time { result ≡ spec.is_date_time text.now }
{
    let bytes = text.as_bytes();
    let (date, left) = split(bytes, 10);
    is_date_in(date) && is_time_after_t(left)
}
