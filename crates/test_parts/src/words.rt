//! Words of a program.
use schema_reports::OutOfMemory;
use serde_json::Value;
use std::alloc::Global;
use std::env::{Env, FillError};

/// Returns the bytes of a word.
///
/// For a text they are its own bytes, for `null` some that are not UTF-8, and otherwise those of
/// the value as JSON.
fn word_of(alloc: Global, word: &Value) -> Result<Vec<u8>, OutOfMemory> {
    match word {
        Value::Null => Vec::from_slice(alloc, &[34, 255, 34]),
        Value::String(text) => Vec::from_slice(alloc, text.as_bytes()),
        _ => word.to_vec(alloc),
    }
}

/// Returns these words, followed by the words in a list.
///
/// # Errors
///
/// Out of memory.
pub fn with_words(
    alloc: Global,
    words: Vec<Vec<u8>>,
    list: &[Value],
) -> Result<Vec<Vec<u8>>, OutOfMemory> {
    let mut words = words;
    for word in list {
        words.push(word_of(alloc, word)?)?;
    }
    Ok(words)
}

/// A process with its name and two words, the second long and not UTF-8.
#[derive(Drop)]
pub struct TwoWords {}

impl Env for TwoWords {
    fn arg(&self, i: usize, buf: &mut [u8]) -> Result<usize, FillError> {
        if i == 1 && buf.len() >= 1 {
            buf[0] = 97;
            return Ok(1);
        }
        if i == 2 {
            if buf.len() < 300 {
                return Err(FillError::TooLong);
            }
            buf[299] = 255;
            return Ok(300);
        }
        Err(FillError::NotPresent)
    }

    fn var(&self, _name: &str, _buf: &mut [u8]) -> Result<usize, FillError> {
        Err(FillError::NotPresent)
    }

    fn var_at(&self, _i: usize, _buf: &mut [u8]) -> Result<usize, FillError> {
        Err(FillError::NotPresent)
    }
}

/// Returns whether these are the two words of `TwoWords`.
pub fn are_two_words(words: &[Vec<u8>]) -> bool {
    match words {
        [first, second] => {
            first.as_slice() == b"a".as_slice()
                && second.len() == 300
                && second.last().copied() == Some(255)
        }
        _ => false,
    }
}
