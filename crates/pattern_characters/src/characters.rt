//! Numbers in digits, and characters by their numbers.
ghost use Rattle.std.specs.Prelude.{◌≡◌, ◌<◌, ◌≤◌, IfSome, option_map};
ghost use Rattle.pattern_characters.specs.Characters as spec;

/// The last code point.
pub(crate) const LAST: u32 = 0x10_FFFF;

/// Returns whether a character is a decimal digit.
pub fn is_digit(c: char) -> bool
    ensures is { result ≡ spec.is_digit c }
{
    c >= '0' && c <= '9'
}

// Returns whether a character is an octal digit.
pub(crate) fn is_octal(c: char) -> bool
    ensures is { result ≡ spec.is_octal c }
{
    c >= '0' && c <= '7'
}

/// Returns whether a character is a letter of ASCII.
pub fn is_letter(c: char) -> bool
    ensures is { result ≡ spec.is_letter c }
{
    (c >= 'A' && c <= 'Z') || (c >= 'a' && c <= 'z')
}

/// Returns the text after this character, if the text begins with it.
pub fn after(mark: char, text: &[char]) -> Option<&[char]>
    ensures after { option_map (λ t. t.now) result ≡ spec.after mark text.now }
{
    match text {
        [first, rest @ ..] if *first == mark => Some(rest),
        _ => None,
    }
}

// Returns the number that a hexadecimal digit stands for.
pub(crate) fn hex_digit(c: char) -> Option<u32>
    ensures digit { result ≡ spec.hex_digit c }
    ensures small { IfSome result (λ n. n < 16) }
{
    match c {
        '0'..='9' => Some(c as u32 - 48),
        'A'..='F' => Some(c as u32 - 55),
        'a'..='f' => Some(c as u32 - 87),
        _ => None,
    }
}

// Reads two hexadecimal digits.
pub(crate) fn hex_pair(text: &[char]) -> Option<(u32, &[char])>
    ensures pair { option_map (λ p. (p.0, p.1.now)) result ≡ spec.hex_pair text.now }
    ensures small { IfSome result (λ p. p.0 < 256) }
{
    let [a, b, rest @ ..] = text else {
        return None;
    };
    let high = hex_digit(*a)?;
    let low = hex_digit(*b)?;
    Some((16 * high + low, rest))
}

// Reads four hexadecimal digits.
#[tactic(auto, unfolding(crate::specs::Characters::hex_four))]
pub(crate) fn hex_four(text: &[char]) -> Option<(u32, &[char])>
    ensures four { option_map (λ p. (p.0, p.1.now)) result ≡ spec.hex_four text.now }
    ensures small { IfSome result (λ p. p.0 < 65536) }
{
    let (high, rest) = hex_pair(text)?;
    let (low, rest) = hex_pair(rest)?;
    Some((256 * high + low, rest))
}

// Returns the number with one more hexadecimal digit, if that is a code point.
fn with_digit(value: u32, c: char) -> Option<u32>
    requires small { value ≤ 0x10_FFFF }
    ensures digit { result ≡ spec.with_digit value (spec.hex_digit c) }
    ensures small { IfSome result (λ n. n ≤ 0x10_FFFF) }
{
    let digit = hex_digit(c)?;
    let value = 16 * value + digit;
    if value <= LAST { Some(value) } else { None }
}

// Reads hexadecimal digits up to the closing brace.
fn hex_from(text: &[char]) -> Option<(u32, &[char])>
    ensures from { option_map (λ p. (p.0, p.1.now)) result ≡ spec.hex_from (Some 0) text.now }
    ensures small { IfSome result (λ p. p.0 ≤ 0x10_FFFF) }
{
    let mut value = 0u32;
    let mut rest = text;
    loop {
        let [c, left @ ..] = rest else {
            return None;
        };
        if *c == '}' {
            return Some((value, left));
        }
        value = with_digit(value, *c)?;
        rest = left;
    }
}

// Reads hexadecimal digits, one or more, and the closing brace.
#[tactic(auto, unfolding(crate::specs::Characters::code_point))]
pub(crate) fn code_point(text: &[char]) -> Option<(u32, &[char])>
    ensures point { option_map (λ p. (p.0, p.1.now)) result ≡ spec.code_point text.now }
    ensures small { IfSome result (λ p. p.0 ≤ 0x10_FFFF) }
{
    match text {
        ['}', ..] => None,
        _ => hex_from(text),
    }
}

// Reads the second half of a surrogate pair.
#[tactic(auto, unfolding(crate::specs::Characters::second_half))]
fn second_half(text: &[char]) -> Option<(u32, &[char])>
    ensures half { option_map (λ p. (p.0, p.1.now)) result ≡ spec.second_half text.now }
    ensures small { IfSome result (λ p. (0xDC00 ≤ p.0) × (p.0 ≤ 0xDFFF)) }
{
    let rest = after('\\', text)?;
    let rest = after('u', rest)?;
    let (value, rest) = hex_four(rest)?;
    if value >= 0xDC00 && value <= 0xDFFF {
        Some((value, rest))
    } else {
        None
    }
}

// Reads four hexadecimal digits, and those of a second half after a first one.
#[tactic(auto, unfolding(crate::specs::Characters::unit))]
fn unit(text: &[char]) -> Option<(u32, &[char])>
    ensures unit { option_map (λ p. (p.0, p.1.now)) result ≡ spec.unit text.now }
    ensures small { IfSome result (λ p. p.0 ≤ 0x10_FFFF) }
{
    let (value, rest) = hex_four(text)?;
    if value < 0xD800 || value > 0xDBFF {
        return Some((value, rest));
    }
    match second_half(rest) {
        Some((low, rest)) => Some(((value - 0xD800) * 0x400 + (low - 0xDC00) + 0x1_0000, rest)),
        None => Some((value, rest)),
    }
}

// Reads what follows `\u`.
#[tactic(auto, unfolding(crate::specs::Characters::unicode_escape))]
pub(crate) fn unicode_escape(braces: bool, text: &[char]) -> Option<(u32, &[char])>
    ensures escape { option_map (λ p. (p.0, p.1.now)) result ≡ spec.unicode_escape braces text.now }
    ensures small { IfSome result (λ p. p.0 ≤ 0x10_FFFF) }
{
    match text {
        ['{', rest @ ..] if braces => code_point(rest),
        [] => None,
        _ => unit(text),
    }
}

// Reads decimal digits.
fn digits(text: &[char]) -> (u32, &[char])
    ensures value { result.0 ≡ (spec.digits 0 text.now).0 }
    ensures rest { result.1.now ≡ (spec.digits 0 text.now).1 }
{
    let mut value = 0u32;
    let mut rest = text;
    loop {
        match rest {
            [c, left @ ..] if is_digit(*c) => {
                value = value.saturating_mul(10).saturating_add(*c as u32 - 48);
                rest = left;
            }
            _ => return (value, rest),
        }
    }
}

/// Reads decimal digits, one or more.
#[tactic(auto, unfolding(crate::specs::Characters::number))]
pub fn number(text: &[char]) -> Option<(u32, &[char])>
    ensures number { option_map (λ p. (p.0, p.1.now)) result ≡ spec.number text.now }
{
    match text {
        [c, ..] if is_digit(*c) => Some(digits(text)),
        _ => None,
    }
}

// Returns the number with the octal digit that the text begins with, if it may have one.
fn more_octal(may: bool, value: u32, text: &[char]) -> (u32, &[char])
    requires small { value < 64 }
    ensures value { result.0 ≡ (spec.more_octal may value text.now).0 }
    ensures rest { result.1.now ≡ (spec.more_octal may value text.now).1 }
    ensures small { result.0 < 512 }
{
    match text {
        [c, rest @ ..] if may && is_octal(*c) => (8 * value + (*c as u32 - 48), rest),
        _ => (value, text),
    }
}

// Reads what follows the first digit of an octal escape.
#[tactic(auto, unfolding(crate::specs::Characters::octal))]
pub(crate) fn octal(first: u32, text: &[char]) -> (u32, &[char])
    requires small { first < 8 }
    ensures value { result.0 ≡ (spec.octal first text.now).0 }
    ensures rest { result.1.now ≡ (spec.octal first text.now).1 }
    ensures small { result.0 ≤ 0x10_FFFF }
{
    match text {
        [c, rest @ ..] if is_octal(*c) => more_octal(
            first <= 3,
            8 * first + (*c as u32 - 48),
            rest,
        ),
        _ => (first, text),
    }
}
