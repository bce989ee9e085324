//! Absolute locations: a URI, `#`, and a pointer as a URI fragment.
ghost use Rattle.std.specs.Prelude.{◌≡◌, ◌++◌, ◌∷◌, option_map, string_bytes, drop};
ghost use Rattle.schema_reports.specs.Showing.{Adds, Shows};
ghost use Rattle.theory_definitions.specs.Plan.{encoded};
ghost use Rattle.schema_node_table.specs.NodeTable.{absolute_in};
ghost use Rattle.schema_node_table.specs.NodeViews.{node_of};

use crate::node::Node;
use percent_encoding::{AsciiSet, NON_ALPHANUMERIC, ascii_set, percent_encode};
use schema_reports::OutOfMemory;
use std::alloc::Global;

// The ASCII bytes that are escaped in a URI fragment (RFC 3986, 3.5).
const ESCAPED: AsciiSet = ascii_set!(
    NON_ALPHANUMERIC
        .remove(b'-')
        .remove(b'.')
        .remove(b'_')
        .remove(b'~')
        .remove(b'!')
        .remove(b'$')
        .remove(b'&')
        .remove(b'\'')
        .remove(b'(')
        .remove(b')')
        .remove(b'*')
        .remove(b'+')
        .remove(b',')
        .remove(b';')
        .remove(b'=')
        .remove(b':')
        .remove(b'@')
        .remove(b'/')
);

// Appends bytes. Those that a URI fragment cannot hold are percent-encoded.
fn push_encoded(text: &mut String, bytes: &[u8]) -> Result<(), OutOfMemory>
    ensures encoded { Adds result text.old text.new (encoded bytes.now) }
{
    percent_encode(bytes, ESCAPED).append_to(text)
}

fn bytes_from(bytes: &[u8], start: usize) -> &[u8]
    ensures dropped { result.now ≡ drop start bytes.now }
{
    if start < bytes.len() {
        &bytes[start..]
    } else {
        &[]
    }
}

/// Appends `#` and a pointer, from its byte `start` on, as a URI fragment.
///
/// # Errors
///
/// Out of memory.
pub fn push_fragment(text: &mut String, pointer: &str, start: usize) -> Result<(), OutOfMemory>
    ensures added { Adds result text.old text.new (35 ∷ encoded (drop start pointer.now)) }
{
    text.push('#')?;
    push_encoded(text, bytes_from(pointer.as_bytes(), start))
}

// The URI of a resource, with a pointer from its byte `start` on as the fragment.
#[inline(never)]
fn absolute_text(
    alloc: Global,
    base: &str,
    location: &str,
    start: usize,
) -> Result<String, OutOfMemory>
    ensures text { Shows string_bytes result (base.now ++ (35 ∷ encoded (drop start location.now))) }
{
    let mut text = String::from_str(alloc, base)?;
    push_fragment(&mut text, location, start)?;
    Ok(text)
}

/// Returns the absolute form of a location, if its URI is shown.
///
/// That is the URI of the node's resource.
///
/// # Errors
///
/// Out of memory.
#[inline(always)]
pub fn absolute_location<K>(
    alloc: Global,
    node: &Node<K>,
    location: &str,
) -> Result<Option<String>, OutOfMemory>
    ensures absolute { Shows (option_map string_bytes) result (absolute_in (node_of node.now) location.now) }
{
    match &node.base {
        None => Ok(None),
        Some(base) => Ok(Some(absolute_text(alloc, base.as_str(), location, node.start)?)),
    }
}
