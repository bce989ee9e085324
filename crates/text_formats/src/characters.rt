//! Classes of ASCII characters, and the numbers that decimal digits denote.
ghost use Rattle.std.specs.Prelude.{◌≡◌, ◌<◌, ◌+◌, IsTrue, length};
ghost use Rattle.std.specs.List.{list_all};
ghost use Rattle.text_formats.specs.Characters as spec;

/// Returns whether a character is `0` to `9`.
pub fn is_digit(byte: u8) -> bool
    ensures digit { result ≡ spec.is_digit byte }
{
    byte.is_ascii_digit()
}

/// Returns whether a character is `A` to `Z` or `a` to `z`.
pub fn is_letter(byte: u8) -> bool
    ensures letter { result ≡ spec.is_letter byte }
{
    byte.is_ascii_alphabetic()
}

/// Returns whether a character is a digit, `A` to `F` or `a` to `f`.
pub fn is_hex_digit(byte: u8) -> bool
    ensures hex_digit { result ≡ spec.is_hex_digit byte }
{
    byte.is_ascii_hexdigit()
}

/// Returns whether each character of a text is a digit.
pub fn are_digits(text: &[u8]) -> bool
    ensures digits { result ≡ list_all spec.is_digit text.now }
{
    text.iter().all(|byte| is_digit(*byte))
}

/// Returns whether each character of a text is a hex digit.
pub fn are_hex_digits(text: &[u8]) -> bool
    ensures digits { result ≡ list_all spec.is_hex_digit text.now }
{
    text.iter().all(|byte| is_hex_digit(*byte))
}

// Returns the number that a decimal digit denotes.
pub(crate) fn value(byte: u8) -> u32
    ensures value { result ≡ spec.value byte }
    ensures small { result < 256 }
{
    u32::from(byte.saturating_sub(b'0'))
}

// Returns the number that the two decimal digits at this index denote.
pub(crate) fn two(text: &[u8], at: usize) -> u32
    requires { at + 1 < length text.now }
    ensures two { result ≡ spec.two text.now at }
    ensures small { result < 4096 }
{
    10 * value(text[at]) + value(text[at + 1])
}

// Returns the number that the four decimal digits at this index denote.
pub(crate) fn four(text: &[u8], at: usize) -> u32
    requires { at + 3 < length text.now }
    ensures four { result ≡ spec.four text.now at }
{
    100 * two(text, at) + two(text, at + 2)
}

fn is_like(like: u8, byte: u8) -> bool
    ensures like { result ≡ spec.is_like like byte }
{
    match like {
        b'0' => is_digit(byte),
        b'x' => is_hex_digit(byte),
        _ => byte == like,
    }
}

// Returns whether each character of a picture matches the one at the same index in a text.
fn are_like(picture: &[u8], text: &[u8]) -> bool
    ensures like { result ≡ spec.are_like picture.now text.now }
{
    let mut left = picture;
    let mut rest = text;
    while let [like, picture_left @ ..] = left {
        match rest {
            [byte, text_left @ ..] if is_like(*like, *byte) => {
                left = picture_left;
                rest = text_left;
            }
            _ => return false,
        }
    }
    true
}

/// Returns whether a text matches a picture and has its length.
///
/// In a picture, `0` matches any digit and `x` any hex digit.
pub fn fits(picture: &[u8], text: &[u8]) -> bool
    ensures fits { result ≡ spec.fits picture.now text.now }
    ensures same_length { IsTrue result → length text.now ≡ length picture.now }
{
    text.len() == picture.len() && are_like(picture, text)
}
