//! The vocabularies that a meta-schema puts in force.
ghost use Rattle.std.specs.Prelude.{◌≡◌, IfOk, option_map};
ghost use Rattle.serde_json.specs.View.{view};
ghost use Rattle.theory_definitions.specs.VocabularySets.{HoldSame};
ghost use Rattle.schema_drafts.specs.KeywordViews.{draft_of, vocabulary_of};
ghost use Rattle.schema_traits.specs.Readings.{fields};
ghost use Rattle.schema_traits.specs.Showing.{Shows};
ghost use Rattle.standard_dialects.specs.ListedVocabularies as spec;
ghost use Rattle.standard_dialects.specs.ListedVocabularies.{HoldSameIf, in_force, is_true, known_vocabulary, listed, listed_among};

use schema_drafts::{Draft, Vocabulary, VocabularySet};
use schema_reports::OutOfMemory;
use serde_json::{Map, Value};
use std::alloc::Global;

fn vocabulary_of_2019_09(uri: &str) -> Option<Vocabulary>
    ensures vocabulary { option_map vocabulary_of result ≡ spec.vocabulary_of_2019_09 uri.now }
{
    if uri == "https://json-schema.org/draft/2019-09/vocab/core" {
        return Some(Vocabulary::Core);
    }
    if uri == "https://json-schema.org/draft/2019-09/vocab/applicator" {
        return Some(Vocabulary::Applicator);
    }
    if uri == "https://json-schema.org/draft/2019-09/vocab/validation" {
        return Some(Vocabulary::Validation);
    }
    if uri == "https://json-schema.org/draft/2019-09/vocab/meta-data" {
        return Some(Vocabulary::Metadata);
    }
    if uri == "https://json-schema.org/draft/2019-09/vocab/format" {
        return Some(Vocabulary::Format);
    }
    if uri == "https://json-schema.org/draft/2019-09/vocab/content" {
        return Some(Vocabulary::Content);
    }
    None
}

fn vocabulary_of_2020_12(uri: &str) -> Option<Vocabulary>
    ensures vocabulary { option_map vocabulary_of result ≡ spec.vocabulary_of_2020_12 uri.now }
{
    if uri == "https://json-schema.org/draft/2020-12/vocab/core" {
        return Some(Vocabulary::Core);
    }
    if uri == "https://json-schema.org/draft/2020-12/vocab/applicator" {
        return Some(Vocabulary::Applicator);
    }
    if uri == "https://json-schema.org/draft/2020-12/vocab/unevaluated" {
        return Some(Vocabulary::Unevaluated);
    }
    if uri == "https://json-schema.org/draft/2020-12/vocab/validation" {
        return Some(Vocabulary::Validation);
    }
    if uri == "https://json-schema.org/draft/2020-12/vocab/meta-data" {
        return Some(Vocabulary::Metadata);
    }
    if uri == "https://json-schema.org/draft/2020-12/vocab/format-annotation" {
        return Some(Vocabulary::FormatAnnotation);
    }
    if uri == "https://json-schema.org/draft/2020-12/vocab/format-assertion" {
        return Some(Vocabulary::FormatAssertion);
    }
    if uri == "https://json-schema.org/draft/2020-12/vocab/content" {
        return Some(Vocabulary::Content);
    }
    None
}

/// Returns the vocabulary that a draft knows by a URI.
fn known_vocabulary(draft: Draft, uri: &str) -> Option<Vocabulary>
    ensures vocabulary { option_map vocabulary_of result ≡ known_vocabulary (draft_of draft) uri.now }
{
    match draft {
        Draft::Draft201909 => vocabulary_of_2019_09(uri),
        _ => vocabulary_of_2020_12(uri),
    }
}

/// Returns a vocabulary that is listed, if it is in force.
///
/// A known one is, except that the one for formats of 2019-09 and an unknown one have to be
/// required.
fn in_force(
    alloc: Global,
    draft: Draft,
    uri: &str,
    required: bool,
) -> Result<Option<Vocabulary>, OutOfMemory>
    ensures vocabulary { Shows (option_map vocabulary_of) result (in_force required uri.now (known_vocabulary (draft_of draft) uri.now)) }
{
    match known_vocabulary(draft, uri) {
        Some(Vocabulary::Format) if !required => Ok(None),
        Some(vocabulary) => Ok(Some(vocabulary)),
        None if required => Ok(Some(Vocabulary::Custom(String::from_str(alloc, uri)?))),
        None => Ok(None),
    }
}

/// Returns whether a value is `true`.
fn is_true(value: &Value) -> bool
    ensures is { result ≡ is_true (view value.now) }
{
    value.as_bool() == Some(true)
}

/// Returns the vocabularies that the members of a `$vocabulary` put in force.
fn listed_among(
    alloc: Global,
    draft: Draft,
    members: &Map<String, Value>,
) -> Result<VocabularySet, OutOfMemory>
    ensures same { IfOk result (λ set. HoldSame set (listed_among (draft_of draft) (fields members.now))) }
{
    let mut set = VocabularySet::new(alloc);
    for (uri, value) in members {
        let listed = in_force(alloc, draft, uri.as_str(), is_true(value))?;
        if let Some(vocabulary) = listed {
            set.add(vocabulary)?;
        }
    }
    Ok(set)
}

/// Returns the vocabularies that a meta-schema in a draft puts in force.
///
/// `None` if it has no `$vocabulary` that is an object. Each vocabulary that the draft knows is in
/// force if it is listed. An unknown one is if its value is `true`, and is ignored otherwise.
///
/// # Errors
///
/// Out of memory.
pub fn vocabularies_listed(
    alloc: Global,
    draft: Draft,
    schema: &Value,
) -> Result<Option<VocabularySet>, OutOfMemory>
    ensures listed { IfOk result (λ o. HoldSameIf o (listed (draft_of draft) (view schema.now))) }
{
    let Some(value) = schema.get("$vocabulary") else {
        return Ok(None);
    };
    match value {
        Value::Object(members) => Ok(Some(listed_among(alloc, draft, members)?)),
        Value::Null => Ok(None),
        Value::Bool(_) => Ok(None),
        Value::Number(_) => Ok(None),
        Value::String(_) => Ok(None),
        Value::Array(_) => Ok(None),
    }
}
