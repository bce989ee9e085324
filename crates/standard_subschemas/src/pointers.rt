//! JSON pointers, and the paths that they name (RFC 6901, sections 3, 4 and 7).
ghost use Rattle.std.specs.Prelude.{◌≡◌, false, option_map, string_bytes, ◌==◌};
ghost use Rattle.std.specs.List.{slice_split};
ghost use Rattle.std.specs.Str.{all_ascii_digits};
ghost use Rattle.std.specs.Str.Lossy.{utf8_lossy};
ghost use Rattle.percent_encoding.specs.Percent.{percent_decode};
ghost use Rattle.serde_json.specs.Find.{unescape};
ghost use Rattle.serde_json.specs.View.{view};
ghost use Rattle.schema_traits.specs.SchemaViews.{schema_step_of};
ghost use Rattle.standard_subschemas.specs.DocumentPointersLead.{PointersLead};
ghost use Rattle.standard_subschemas.specs.DocumentPointers.{has_whole_escapes, index_named, is_index, is_read, path_by_pointer};
ghost use Rattle.standard_subschemas.specs.DocumentPointers.{ends_escape, path_named, path_of_pointer, step_named};
ghost use Rattle.schema_traits.specs.Showing.{Yields, Shows};

use crate::rules::Rule;
use crate::steps::value_below;
use percent_encoding::percent_decode;
use schema_reports::OutOfMemory;
use schema_traits::{SchemaPath, SchemaStep};
use serde_json::Value;
use std::alloc::Global;
use std::rc::RcStr;

/// Decodes the percent-encoding of a fragment.
///
/// # Errors
///
/// Out of memory.
pub fn decoded(alloc: Global, fragment: &str) -> Result<String, OutOfMemory>
    ensures decoded { Shows string_bytes result (utf8_lossy (percent_decode fragment.now)) }
{
    percent_decode(fragment.as_bytes())
        .decode_utf8_lossy(alloc)?
        .into_owned(alloc)
}

/// Decodes `~1` as `/` and `~0` as `~`.
fn unescaped(alloc: Global, segment: &str) -> Result<String, OutOfMemory>
    ensures unescaped { Shows string_bytes result (unescape segment.now) }
{
    let mut text = String::new(alloc);
    let mut rest = segment;
    'escapes: while let Some((before, after)) = rest.split_once('~') {
        text.push_str(before)?;
        if let Some(more) = after.strip_prefix('1') {
            text.push_str("/")?;
            rest = more;
        } else if let Some(more) = after.strip_prefix('0') {
            text.push_str("~")?;
            rest = more;
        } else {
            text.push_str("~")?;
            rest = after;
        }
    }
    text.push_str(rest)?;
    Ok(text)
}

fn all_digits(bytes: &[u8]) -> bool
    ensures digits { result ≡ all_ascii_digits bytes.now }
{
    for byte in bytes {
        if *byte < b'0' || *byte > b'9' {
            return false;
        }
    }
    true
}

/// Returns whether a segment is digits, without a leading 0 before others.
fn is_index(segment: &[u8]) -> bool
    ensures index { result ≡ is_index segment.now }
{
    if segment.is_empty() {
        return false;
    }
    if segment.len() > 1 && segment[0] == b'0' {
        return false;
    }
    all_digits(segment)
}

/// Returns a segment as an index, if it is one.
fn index_named(segment: &str) -> Option<usize>
    ensures index { result ≡ index_named segment.now }
{
    if is_index(segment.as_bytes()) {
        segment.parse().ok()
    } else {
        None
    }
}

fn step_named(
    alloc: Global,
    segment: &str,
    value: &Value,
) -> Result<Option<SchemaStep>, OutOfMemory>
    ensures step { Shows (option_map schema_step_of) result (step_named segment.now (view value.now)) }
{
    match value {
        Value::Object(_) => Ok(Some(SchemaStep::Member(RcStr::from_string(unescaped(
            alloc, segment,
        )?)?))),
        Value::Array(_) => match index_named(segment) {
            Some(index) => Ok(Some(SchemaStep::Item(index))),
            None => Ok(None),
        },
        _ => Ok(None),
    }
}

fn path_of_segments(
    alloc: Global,
    segments: &str,
    document: &Value,
) -> Result<Option<SchemaPath>, OutOfMemory>
    ensures path { Yields result (path_named (slice_split (λ b. b == 47) segments.now) (view document.now)) }
{
    let mut path = SchemaPath::root(alloc);
    let mut reached = document;
    for segment in segments.split('/') {
        let Some(step) = step_named(alloc, segment, reached)? else {
            return Ok(None);
        };
        let Some(below) = value_below(reached, &step) else {
            return Ok(None);
        };
        path.push(step)?;
        reached = below;
    }
    Ok(Some(path))
}

/// Returns the path that a pointer names in a document.
///
/// Each step is the name of a member or the index of an item. If a step leads nowhere, there is no
/// path.
///
/// # Errors
///
/// Out of memory.
pub fn path_of_pointer(
    alloc: Global,
    pointer: &str,
    document: &Value,
) -> Result<Option<SchemaPath>, OutOfMemory>
    ensures path { Yields result (path_of_pointer pointer.now (view document.now)) }
{
    if pointer.is_empty() {
        return Ok(Some(SchemaPath::root(alloc)));
    }
    match pointer.strip_prefix('/') {
        Some(segments) => path_of_segments(alloc, segments, document),
        None => Ok(None),
    }
}

fn ends_escape(byte: u8) -> bool
    ensures ends { result ≡ ends_escape byte }
{
    byte == b'0' || byte == b'1'
}

/// Returns whether each `~` is followed by `0` or `1`.
fn has_whole_escapes(pointer: &[u8]) -> bool
    ensures whole { result ≡ has_whole_escapes false pointer.now }
{
    let mut begun = false;
    for byte in pointer {
        if begun && !ends_escape(*byte) {
            return false;
        }
        begun = *byte == b'~';
    }
    !begun
}

/// Returns whether a text is read as a pointer: by the narrow rule, any is.
fn is_read(rule: Rule, pointer: &str) -> bool
    ensures read { result ≡ is_read rule pointer.now }
{
    match rule {
        Rule::Narrow => true,
        Rule::Standard => has_whole_escapes(pointer.as_bytes()),
    }
}

/// Returns the path that a pointer names in a document, by a rule.
///
/// By the standard's rule a text is no pointer if a `~` stands before a character other than `0`
/// and `1`, and then there is no path.
///
/// # Errors
///
/// Out of memory.
pub fn path_by_pointer(
    alloc: Global,
    rule: Rule,
    pointer: &str,
    document: &Value,
) -> Result<Option<SchemaPath>, OutOfMemory>
    ensures path { Yields result (path_by_pointer rule pointer.now (view document.now)) }
{
    if is_read(rule, pointer) {
        path_of_pointer(alloc, pointer, document)
    } else {
        Ok(None)
    }
}

/// A law: the pointer of a path leads back to the path.
///
/// It holds in every document that has a value there. The function does nothing.
pub fn pointers_lead()
    ensures lead { PointersLead }
{}
