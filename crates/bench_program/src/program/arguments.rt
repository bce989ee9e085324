//! The arguments of the process.
use schema_reports::OutOfMemory;
use std::alloc::{AllocError, Global};
use std::env::{Env, FillError};

/// The size in bytes that is tried first for an argument.
const FIRST_SIZE: usize = 256;

/// Returns the arguments after the program's name, as bytes.
///
/// They need not be UTF-8. No contract says which arguments a process is given.
///
/// # Errors
///
/// Out of memory.
pub fn given_words<R: Env>(alloc: Global, rt: &R) -> Result<Vec<Vec<u8>>, OutOfMemory> {
    let mut words = Vec::new(alloc);
    for place in 1..usize::MAX {
        match word_at(alloc, rt, place)? {
            Some(word) => words.push(word)?,
            None => break,
        }
    }
    Ok(words)
}

/// Returns the argument with this number.
///
/// If it does not fit into the buffer, one of twice the size is tried next.
fn word_at<R: Env>(alloc: Global, rt: &R, place: usize) -> Result<Option<Vec<u8>>, OutOfMemory> {
    let mut size = FIRST_SIZE;
    for _ in 0..usize::BITS {
        let mut word = Vec::new(alloc);
        word.resize(size, 0u8)?;
        match rt.arg(place, word.as_mut_slice()) {
            Ok(length) => {
                word.truncate(length);
                return Ok(Some(word));
            }
            Err(FillError::TooLong) => size = size.saturating_add(size),
            Err(FillError::NotPresent) => return Ok(None),
        }
    }
    Err(AllocError)
}
