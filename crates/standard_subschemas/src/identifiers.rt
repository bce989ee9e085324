//! Identifiers of schemas, and their names.
ghost use Rattle.std.specs.Prelude.{◌≡◌};
ghost use Rattle.serde_json.specs.View.{view};
ghost use Rattle.schema_drafts.specs.KeywordViews.{draft_of};
ghost use Rattle.standard_subschemas.specs.SubschemaRules.{dynamic_name, fragment_of, identifier, identifier_name, name_in_identifier};
ghost use Rattle.standard_subschemas.specs.SubschemaRules.{plain_fragment, plain_name, unless_fragment, without_fragment};
ghost use Rattle.schema_traits.specs.Readings.{text_read};

use crate::drafts::text_member;
use crate::rules::Rule;
use schema_drafts::Draft;
use serde_json::Value;

fn identifier_name(draft: Draft) -> &'static str
    ensures name { result.now ≡ identifier_name (draft_of draft) }
{
    match draft {
        Draft::Draft4 => "id",
        _ => "$id",
    }
}

/// Returns the text, unless it is only a fragment.
fn unless_fragment<'v>(text: Option<&'v str>) -> Option<&'v str>
    ensures kept { text_read result ≡ unless_fragment (text_read text.entry) }
{
    match text {
        None => None,
        Some(uri) => {
            let bytes = uri.as_bytes();
            if bytes.len() > 0 && bytes[0] == b'#' {
                None
            } else {
                Some(uri)
            }
        }
    }
}

/// Returns the identifier of a schema: its `$id`, or `id` in draft 4.
///
/// A fragment alone is not an identifier, and in drafts 4 to 7 a schema with a `$ref` has none.
pub fn identifier<'v>(draft: Draft, value: &'v Value) -> Option<&'v str>
    ensures identifier { text_read result ≡ identifier (draft_of draft) (view value.now) }
{
    if draft.is_before_2019_09() && value.get("$ref").is_some() {
        return None;
    }
    unless_fragment(text_member(value, identifier_name(draft)))
}

/// Returns the text before the first `#`, or all of it if there is none.
pub fn without_fragment(uri: &str) -> &str
    ensures before { result.now ≡ without_fragment uri.now }
{
    match uri.split_once('#') {
        Some((before, _)) => before,
        None => uri,
    }
}

/// Returns the text after the first `#`, or nothing if there is none.
pub fn fragment_of(uri: &str) -> &str
    ensures fragment { result.now ≡ fragment_of uri.now }
{
    match uri.split_once('#') {
        Some((_, fragment)) => fragment,
        None => "",
    }
}

/// Returns the fragment, if it is neither empty nor a pointer.
fn plain_fragment(fragment: &str) -> Option<&str>
    ensures plain { text_read result ≡ plain_fragment fragment.now }
{
    let bytes = fragment.as_bytes();
    if bytes.len() > 0 && bytes[0] != b'/' {
        Some(fragment)
    } else {
        None
    }
}

/// Returns the fragment of the identifier, if it is a name.
///
/// A schema with a `$ref` has none.
fn name_in_identifier<'v>(draft: Draft, value: &'v Value) -> Option<&'v str>
    ensures name { text_read result ≡ name_in_identifier (draft_of draft) (view value.now) }
{
    if value.get("$ref").is_some() {
        return None;
    }
    match text_member(value, identifier_name(draft)) {
        Some(uri) => plain_fragment(fragment_of(uri)),
        None => None,
    }
}

/// Returns the name of a schema: its `$anchor`.
///
/// By the standard's rule, drafts 4 to 7 use the fragment of the identifier instead.
pub fn plain_name<'v>(rule: Rule, draft: Draft, value: &'v Value) -> Option<&'v str>
    ensures name { text_read result ≡ plain_name rule (draft_of draft) (view value.now) }
{
    match rule {
        Rule::Standard if draft.is_before_2019_09() => name_in_identifier(draft, value),
        _ => text_member(value, "$anchor"),
    }
}

/// Returns the dynamic name of a schema: its `$dynamicAnchor`.
///
/// By the standard's rule there is none before 2020-12.
pub fn dynamic_name<'v>(rule: Rule, draft: Draft, value: &'v Value) -> Option<&'v str>
    ensures name { text_read result ≡ dynamic_name rule (draft_of draft) (view value.now) }
{
    match rule {
        Rule::Narrow => text_member(value, "$dynamicAnchor"),
        Rule::Standard => match draft {
            Draft::Draft202012 | Draft::Unknown => text_member(value, "$dynamicAnchor"),
            _ => None,
        },
    }
}
