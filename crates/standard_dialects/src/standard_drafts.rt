//! The drafts that the standards' own URIs name.
ghost use Rattle.std.specs.Prelude.{◌≡◌};
ghost use Rattle.schema_drafts.specs.KeywordViews.{draft_of};
ghost use Rattle.standard_dialects.specs.StandardDrafts.{draft_under, is_either, standard_draft};

use schema_drafts::Draft;
use standard_subschemas::{fragment_of, without_fragment};

/// Returns whether a text is one of two URIs.
fn is_either(one: &str, other: &str, text: &str) -> bool
    ensures either { result ≡ is_either one.now other.now text.now }
{
    text == one || text == other
}

/// Returns the draft that a URI without a fragment names.
fn draft_under(uri: &str) -> Draft
    ensures draft { draft_of result ≡ draft_under uri.now }
{
    if is_either(
        "http://json-schema.org/draft-04/schema",
        "https://json-schema.org/draft-04/schema",
        uri,
    ) {
        return Draft::Draft4;
    }
    if is_either(
        "http://json-schema.org/draft-06/schema",
        "https://json-schema.org/draft-06/schema",
        uri,
    ) {
        return Draft::Draft6;
    }
    if is_either(
        "http://json-schema.org/draft-07/schema",
        "https://json-schema.org/draft-07/schema",
        uri,
    ) {
        return Draft::Draft7;
    }
    if is_either(
        "https://json-schema.org/draft/2019-09/schema",
        "http://json-schema.org/draft/2019-09/schema",
        uri,
    ) {
        return Draft::Draft201909;
    }
    if is_either(
        "https://json-schema.org/draft/2020-12/schema",
        "http://json-schema.org/draft/2020-12/schema",
        uri,
    ) {
        return Draft::Draft202012;
    }
    if is_either(
        "https://json-schema.org/schema",
        "http://json-schema.org/schema",
        uri,
    ) {
        return Draft::Draft202012;
    }
    Draft::Unknown
}

/// Returns the draft that a URI of a standard names.
///
/// The scheme is `http` or `https`, and an empty fragment may follow. The draft is unknown for any
/// other URI.
pub fn standard_draft(uri: &str) -> Draft
    ensures draft { draft_of result ≡ standard_draft uri.now }
{
    if fragment_of(uri).is_empty() {
        draft_under(without_fragment(uri))
    } else {
        Draft::Unknown
    }
}
