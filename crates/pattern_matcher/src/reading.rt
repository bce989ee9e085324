//! Reads texts, as characters and as patterns.
ghost use Rattle.std.specs.Prelude.{◌≡◌, ◌≤◌, IfOk, chars, length, option_map, string_bytes, take, true};
ghost use Rattle.pattern_matcher.specs.PatternMatching.{fault_text, reading_of};
ghost use Rattle.pattern_matcher.specs.ReadViews.{reading_seen};

use pattern_reader::{Pattern, read};
use schema_reports::OutOfMemory;
use std::alloc::Global;

/// Returns the characters of a text.
///
/// # Errors
///
/// Out of memory.
pub fn chars_of(alloc: Global, text: &str) -> Result<Vec<char>, OutOfMemory>
    ensures chars { IfOk result (λ v. v.items ≡ chars text.now) }
{
    let mut chars = Vec::with_capacity(alloc, text.len())?;
    for c in text.chars() {
        chars.push(c)?;
    }
    Ok(chars)
}

/// Copies the characters of a text into a buffer.
///
/// Returns whether the text fits and is all ASCII. Otherwise some of it may be copied.
pub fn copy_ascii(buffer: &mut [char], text: &str) -> bool
    ensures copied { result ≡ true → take (length text.now) buffer.new ≡ chars text.now }
    ensures fits { result ≡ true → length text.now ≤ length buffer.new }
{
    let bytes = text.as_bytes();
    if buffer.len() < bytes.len() {
        return false;
    }
    let mut seen = 0u8;
    for i in 0..bytes.len() {
        let byte = bytes[i];
        seen |= byte;
        buffer[i] = byte as char;
    }
    seen < 128
}

/// Reads a text as a pattern; `None` if it cannot be read.
///
/// # Errors
///
/// Out of memory.
pub fn read_pattern(alloc: Global, text: &str) -> Result<Option<Pattern>, OutOfMemory>
    ensures reading { IfOk result (λ o. option_map reading_seen o ≡ reading_of text.now) }
{
    let chars = chars_of(alloc, text)?;
    let reading = read(alloc, chars.as_slice())?;
    Ok(reading.ok())
}

/// Returns why a text cannot be read as a pattern; `None` if it can.
///
/// The text also says whether it breaks a rule of the standard or is only not supported, and at
/// which character.
///
/// # Errors
///
/// Out of memory.
pub fn fault_text(alloc: Global, text: &str) -> Result<Option<String>, OutOfMemory>
    ensures fault { IfOk result (λ o. option_map string_bytes o ≡ fault_text text.now) }
{
    let chars = chars_of(alloc, text)?;
    let reading = read(alloc, chars.as_slice())?;
    match reading.err() {
        Some(error) => Ok(Some(format!(in alloc; "{error}")?)),
        None => Ok(None),
    }
}
