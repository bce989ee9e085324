//! The drafts that `$schema` names.
ghost use Rattle.std.specs.Prelude.{◌≡◌};
ghost use Rattle.serde_json.specs.View.{view};
ghost use Rattle.schema_drafts.specs.KeywordViews.{draft_of};
ghost use Rattle.standard_subschemas.specs.SubschemaRules.{detected, draft_of_uri, text_member};
ghost use Rattle.schema_traits.specs.Readings.{text_read};

use schema_drafts::Draft;
use serde_json::Value;

/// Returns the string under a name, if the value has one.
pub fn text_member<'v>(value: &'v Value, name: &str) -> Option<&'v str>
    ensures text { text_read result ≡ text_member name.now (view value.now) }
{
    value.get(name)?.as_str()
}

/// Returns the draft that a URI names, with or without a final `#`.
fn draft_of_uri(uri: &str) -> Draft
    ensures draft { draft_of result ≡ draft_of_uri uri.now }
{
    match uri {
        "http://json-schema.org/draft-04/schema" | "http://json-schema.org/draft-04/schema#" =>
            Draft::Draft4,
        "http://json-schema.org/draft-06/schema" | "http://json-schema.org/draft-06/schema#" =>
            Draft::Draft6,
        "http://json-schema.org/draft-07/schema" | "http://json-schema.org/draft-07/schema#" =>
            Draft::Draft7,
        "https://json-schema.org/draft/2019-09/schema"
        | "https://json-schema.org/draft/2019-09/schema#" => Draft::Draft201909,
        "https://json-schema.org/draft/2020-12/schema"
        | "https://json-schema.org/draft/2020-12/schema#" => Draft::Draft202012,
        "https://json-schema.org/schema" | "https://json-schema.org/schema#" => Draft::Draft202012,
        _ => Draft::Unknown,
    }
}

/// Returns the draft of a value inside a schema of the given draft.
///
/// It is the draft that the value's `$schema` names, or else the given one.
pub fn detected(draft: Draft, value: &Value) -> Draft
    ensures draft { draft_of result ≡ detected (draft_of draft) (view value.now) }
{
    match text_member(value, "$schema") {
        Some(uri) => draft_of_uri(uri),
        None => draft,
    }
}
