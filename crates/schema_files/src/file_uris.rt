//! Paths of files, and their URIs (RFC 8089, section 2).
ghost use Rattle.std.specs.Prelude.{◌≡◌, option_map, string_bytes};
ghost use Rattle.schema_traits.specs.Readings.{text_read};
ghost use Rattle.schema_traits.specs.Showing.{Shows};
ghost use Rattle.uri_references.specs.Views.{components_of};
ghost use Rattle.schema_files.specs.FileUris as spec;
ghost use Rattle.schema_files.specs.FileUris.{PathsReturn, file_uri, is_file, is_here, is_rooted, path_of_uri, rooted, uri_of_path};

use percent_encoding::{AsciiSet, NON_ALPHANUMERIC, ascii_set, percent_encode};
use schema_reports::OutOfMemory;
use standard_subschemas::decoded;
use std::alloc::Global;
use uri_references::{Components, resolve_normally};

// The ASCII bytes that are escaped in the path of a URI (RFC 3986, section 3.3).
pub const ESCAPED: AsciiSet = ascii_set!(
    NON_ALPHANUMERIC
        .remove(b'-')
        .remove(b'.')
        .remove(b'_')
        .remove(b'~')
        .remove(b'!')
        .remove(b'$')
        .remove(b'&')
        .remove(b'\'')
        .remove(b'(')
        .remove(b')')
        .remove(b'*')
        .remove(b'+')
        .remove(b',')
        .remove(b';')
        .remove(b'=')
        .remove(b':')
        .remove(b'@')
        .remove(b'/')
);

/// Returns the URI of the file at a path that begins at the root.
///
/// # Errors
///
/// Out of memory.
pub fn uri_of_path(alloc: Global, path: &str) -> Result<String, OutOfMemory>
    ensures uri { Shows string_bytes result (uri_of_path path.now) }
{
    let mut uri = String::from_str(alloc, "file://")?;
    percent_encode(path.as_bytes(), ESCAPED).append_to(&mut uri)?;
    Ok(uri)
}

/// Returns whether a URI with this authority is of this machine.
fn is_here(authority: Option<&str>) -> bool
    ensures here { result ≡ is_here (text_read authority.entry) }
{
    match authority {
        Some(host) => host.is_empty() || host == "localhost",
        None => true,
    }
}

fn is_rooted(path: &str) -> bool
    ensures rooted { result ≡ is_rooted path.now }
{
    let bytes = path.as_bytes();
    bytes.len() > 0 && bytes[0] == b'/'
}

/// Returns whether these are the components of the URI of a file.
fn is_file(components: &Components<'_>) -> bool
    ensures file { result ≡ is_file (components_of components.now) }
{
    components.scheme == Some("file")
        && is_here(components.authority)
        && components.query.is_none()
        && is_rooted(components.path)
}

/// Returns the path of the file with a URI, if it is the URI of a file on this machine.
///
/// Bytes that are not UTF-8 become U+FFFD.
///
/// # Errors
///
/// Out of memory.
pub fn path_of_uri(alloc: Global, uri: &str) -> Result<Option<String>, OutOfMemory>
    ensures path { Shows (option_map string_bytes) result (path_of_uri uri.now) }
{
    let components = Components::of(uri);
    if is_file(&components) {
        Ok(Some(decoded(alloc, components.path)?))
    } else {
        Ok(None)
    }
}

/// Returns a path that begins at the root: the file's own, or else that from the folder.
fn rooted(alloc: Global, folder: &str, file: &str) -> Result<String, OutOfMemory>
    ensures rooted { Shows string_bytes result (rooted folder.now file.now) }
{
    if is_rooted(file) {
        return String::from_str(alloc, file);
    }
    let mut path = String::from_str(alloc, folder)?;
    path.push_str("/")?;
    path.push_str(file)?;
    Ok(path)
}

/// Returns the URI of a file whose path begins at the root or else in a folder.
///
/// It has no `.` and `..` in its path.
///
/// # Errors
///
/// Out of memory.
pub fn file_uri(alloc: Global, folder: &str, file: &str) -> Result<String, OutOfMemory>
    ensures uri { Shows string_bytes result (file_uri folder.now file.now) }
{
    let path = rooted(alloc, folder, file)?;
    let uri = uri_of_path(alloc, path.as_str())?;
    resolve_normally(alloc, "", uri.as_str())
}

/// A law: the path of the URI of a path is the path.
///
/// It holds of each path that begins at the root. The function does nothing.
pub fn paths_return()
    ensures returns { PathsReturn }
{}
