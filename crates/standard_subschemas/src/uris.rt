//! References and URIs (RFC 3986, sections 3, 4, 5.2 and 6.2.2.1).
ghost use Rattle.std.specs.Prelude.{◌≡◌, option_and_then, option_map, string_bytes, unwrap_or};
ghost use Rattle.serde_json.specs.View.{view};
ghost use Rattle.schema_drafts.specs.KeywordViews.{draft_of};
ghost use Rattle.standard_subschemas.specs.SubschemaRules.{identifier};
ghost use Rattle.uri_references.specs.Normal.{normalized};
ghost use Rattle.standard_subschemas.specs.DocumentUris.{is_absolute, own_uri, resolve_narrowly, resolve_uri, root_base, written_uri};
ghost use Rattle.schema_traits.specs.Showing.{Shows, Agrees};

use crate::identifiers::{identifier, without_fragment};
use crate::refusals::refusal;
use crate::rules::Rule;
use schema_drafts::Draft;
use schema_reports::OutOfMemory;
use schema_traits::LookupError;
use serde_json::Value;
use std::alloc::Global;
use uri_references::{normalized, resolve, resolve_normally};

/// Returns whether the URI has a scheme.
///
/// It has one if a `:` comes before any `/`, `?` or `#`.
fn is_absolute(uri: &str) -> bool
    ensures absolute { result ≡ is_absolute uri.now }
{
    for byte in uri.as_bytes() {
        if *byte == b':' {
            return true;
        }
        if *byte == b'/' || *byte == b'?' || *byte == b'#' {
            return false;
        }
    }
    false
}

/// Returns a URI with its scheme and its host in lower case.
///
/// # Errors
///
/// Out of memory.
pub fn normal_uri(alloc: Global, uri: &str) -> Result<String, OutOfMemory>
    ensures normal { Shows string_bytes result (normalized uri.now) }
{
    normalized(alloc, uri)
}

/// Returns the URI of the schema with an identifier, read against a base.
///
/// # Errors
///
/// Out of memory.
pub fn own_uri(
    alloc: Global,
    rule: Rule,
    base: &str,
    identifier: &str,
) -> Result<Option<String>, OutOfMemory>
    ensures uri { Shows (option_map string_bytes) result (own_uri rule base.now identifier.now) }
{
    match rule {
        Rule::Narrow => {
            if is_absolute(identifier) {
                Ok(Some(String::from_str(alloc, without_fragment(identifier))?))
            } else {
                Ok(None)
            }
        }
        Rule::Standard => {
            let uri = resolve_normally(alloc, base, identifier)?;
            Ok(Some(String::from_str(alloc, without_fragment(uri.as_str()))?))
        }
    }
}

/// Returns the URI of an identifier by the standard's rule, in the case in which it is written.
///
/// # Errors
///
/// Out of memory.
pub fn written_uri(alloc: Global, base: &str, identifier: &str) -> Result<String, OutOfMemory>
    ensures uri { Shows string_bytes result (written_uri base.now identifier.now) }
{
    let uri = resolve(alloc, base, identifier)?;
    String::from_str(alloc, without_fragment(uri.as_str()))
}

/// Returns the URI of a schema, whose identifier is read against a base.
///
/// # Errors
///
/// Out of memory.
pub fn uri_of(
    alloc: Global,
    rule: Rule,
    base: &str,
    draft: Draft,
    schema: &Value,
) -> Result<Option<String>, OutOfMemory>
    ensures uri { Shows (option_map string_bytes) result
        (option_and_then (own_uri rule base.now) (identifier (draft_of draft) (view schema.now))) }
{
    match identifier(draft, schema) {
        Some(id) => own_uri(alloc, rule, base, id),
        None => Ok(None),
    }
}

/// Returns the schema's own URI, or else the base.
pub fn or_base<'t>(own: &'t Option<String>, base: &'t str) -> &'t str
    ensures base { result.now ≡ unwrap_or (option_map string_bytes own.now) base.now }
{
    match own {
        Some(uri) => uri.as_str(),
        None => base,
    }
}

/// Returns the base inside a document that is supplied under a URI.
///
/// # Errors
///
/// Out of memory.
pub fn root_base(
    alloc: Global,
    rule: Rule,
    uri: &str,
    draft: Draft,
    schema: &Value,
) -> Result<String, OutOfMemory>
    ensures base { Shows string_bytes result (root_base rule uri.now (draft_of draft) (view schema.now)) }
{
    let around = without_fragment(uri);
    match rule {
        Rule::Narrow => String::from_str(alloc, around),
        Rule::Standard => {
            let around = normal_uri(alloc, around)?;
            let own = uri_of(alloc, Rule::Standard, around.as_str(), draft, schema)?;
            String::from_str(alloc, or_base(&own, around.as_str()))
        }
    }
}

/// Resolves a reference by the narrow rule.
///
/// An empty reference or a fragment refers to the base, and a URI with a scheme to itself.
fn resolve_narrowly(alloc: Global, base: &str, reference: &str) -> Result<String, LookupError>
    ensures resolved { Agrees string_bytes result (resolve_narrowly base.now reference.now) }
{
    if reference.is_empty() {
        return Ok(String::from_str(alloc, without_fragment(base))?);
    }
    if reference.as_bytes()[0] == b'#' {
        let mut uri = String::from_str(alloc, without_fragment(base))?;
        uri.push_str(reference)?;
        return Ok(uri);
    }
    if is_absolute(reference) {
        return Ok(String::from_str(alloc, reference)?);
    }
    let text = "this resolver does not resolve the reference ";
    Err(refusal(alloc, text, reference))
}

/// Resolves a reference against a base.
///
/// By the standard's rule it is resolved as in RFC 3986, section 5.2, and its scheme and host are in
/// lower case.
///
/// # Errors
///
/// Out of memory. By the narrow rule, a reference is refused unless it is empty, a fragment, or a
/// URI with a scheme.
pub fn resolve_uri(
    alloc: Global,
    rule: Rule,
    base: &str,
    reference: &str,
) -> Result<String, LookupError>
    ensures resolved { Agrees string_bytes result (resolve_uri rule base.now reference.now) }
{
    match rule {
        Rule::Narrow => resolve_narrowly(alloc, base, reference),
        Rule::Standard => Ok(resolve_normally(alloc, base, reference)?),
    }
}
