//! The tests of `contentEncoding` and `contentMediaType`.
ghost use Rattle.std.specs.Prelude.{◌≡◌, IfOk};
ghost use Rattle.schema_traits.specs.Showing.{Yields};
ghost use Rattle.standard_formats.specs.Contents as spec;

use base64::DecodeAllocError;
use base64::engine::general_purpose::STANDARD;
use schema_reports::OutOfMemory;
use serde_json::Value;
use std::alloc::{AllocError, Global};

fn is_break(byte: u8) -> bool
    ensures broken { result ≡ spec.is_break byte }
{
    byte == b'\r' || byte == b'\n'
}

/// Returns the bytes of a text that are not line breaks.
fn unbroken(alloc: Global, text: &str) -> Result<Vec<u8>, OutOfMemory>
    ensures unbroken { IfOk result (λ bytes. bytes.items ≡ spec.unbroken text.now) }
{
    text.as_bytes()
        .iter()
        .copied()
        .filter(|byte| !is_break(*byte))
        .collect(alloc)
}

/// Returns whether a text is base64, line breaks aside.
///
/// # Errors
///
/// Out of memory.
pub fn is_base64(alloc: Global, text: &str) -> Result<bool, OutOfMemory>
    ensures base64 { Yields result (spec.is_base64 text.now) }
{
    let bytes = unbroken(alloc, text)?;
    match STANDARD.decode(alloc, bytes.as_slice()) {
        Ok(_) => Ok(true),
        Err(error) => match error {
            DecodeAllocError::DecodeError(_) => Ok(false),
            DecodeAllocError::OutOfMemory => Err(AllocError {}),
        },
    }
}

/// Returns whether a text is JSON.
///
/// # Errors
///
/// Out of memory.
pub fn is_json(alloc: Global, text: &str) -> Result<bool, OutOfMemory>
    ensures json { Yields result (spec.is_json text.now) }
{
    match Value::from_str(alloc, text) {
        Ok(_) => Ok(true),
        Err(error) => {
            if error.is_memory() {
                Err(AllocError {})
            } else {
                Ok(false)
            }
        }
    }
}

#[tactic(auto, using(crate::proofs::TextTests::told_text, crate::proofs::TextTests::told_other))]
fn is_json_bytes(alloc: Global, bytes: &[u8]) -> Result<bool, OutOfMemory>
    ensures json { Yields result (spec.is_json_bytes bytes.now) }
{
    match std::str::from_utf8(bytes) {
        Ok(text) => is_json(alloc, text),
        Err(_) => Ok(false),
    }
}

/// Returns whether a text is JSON in base64, line breaks aside.
///
/// # Errors
///
/// Out of memory.
pub fn is_json_in_base64(alloc: Global, text: &str) -> Result<bool, OutOfMemory>
    ensures json { Yields result (spec.is_json_in_base64 text.now) }
{
    let encoded = unbroken(alloc, text)?;
    match STANDARD.decode(alloc, encoded.as_slice()) {
        Ok(bytes) => is_json_bytes(alloc, bytes.as_slice()),
        Err(error) => match error {
            DecodeAllocError::DecodeError(_) => Ok(false),
            DecodeAllocError::OutOfMemory => Err(AllocError {}),
        },
    }
}
