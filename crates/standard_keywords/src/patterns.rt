//! Patterns of a schema that cannot be read as regular expressions.
ghost use Rattle.std.specs.Prelude.{◌∷◌, [], string_bytes, ◌++◌, codes};
ghost use Rattle.serde_json.specs.Find.{as_object, as_str, get_member};
ghost use Rattle.serde_json.specs.View.{view};
ghost use Rattle.schema_drafts.specs.KeywordViews.{builtin_text};
ghost use Rattle.schema_traits.specs.KeywordViews.{option_list};
ghost use Rattle.schema_traits.specs.MakerViews.{is_own, name_of};
ghost use Rattle.keyword_makers.specs.Members.{names_of};
ghost use Rattle.schema_traits.specs.Showing.{Shows};
ghost use Rattle.standard_keywords.specs.Patterns.{names_in, pattern_refusal, refusal_among, refusal_in, unreadable_text};
ghost use Rattle.schema_traits.specs.Readings.{fields};
ghost use Rattle.standard_keywords.specs.MakerWords.{ShowsRefusal};

use keyword_makers::value_in;
use pattern_matcher::{fault_text, is_readable};
use schema_drafts::BuiltinKeyword;
use schema_reports::{Instance, OutOfMemory};
use schema_traits::KeywordOrigin;
use serde_json::{Map, Value};
use std::alloc::Global;

/// What happens to a schema with a pattern that cannot be read.
///
/// A pattern is the value of `pattern`, or a name under `patternProperties`. `pattern_matcher`
/// decides whether it can be read as a regular expression.
#[derive(Clone, Copy)]
pub enum UnreadablePatterns {
    /// The schema is refused.
    ///
    /// The error is located at the keyword and names the pattern.
    Refused,
    /// The keyword is made, and the matcher decides what its matches yield.
    LeftToTheMatcher,
}

// Returns a text with a fault after a colon.
fn with_fault(text: String, fault: &str) -> Result<String, OutOfMemory>
    ensures text { Shows string_bytes result (string_bytes text ++ codes ": " ++ fault.now) }
{
    let mut text = text;
    text.push_str(": ")?;
    text.push_str(fault)?;
    Ok(text)
}

fn unreadable_text(alloc: Global, pattern: &str) -> Result<String, OutOfMemory>
    ensures text { Shows string_bytes result (unreadable_text pattern.now) }
{
    let mut text = Instance::Name(pattern).text(alloc)?;
    text.push_str(" is not a \"regex\"")?;
    match fault_text(alloc, pattern)? {
        Some(fault) => with_fault(text, fault.as_str()),
        None => Ok(text),
    }
}

fn refusal_of(alloc: Global, pattern: &str) -> Result<Option<String>, OutOfMemory>
    ensures refusal { ShowsRefusal result (refusal_among (pattern.now ∷ [])) }
{
    if is_readable(alloc, pattern)? {
        return Ok(None);
    }
    let text = unreadable_text(alloc, pattern)?;
    Ok(Some(text))
}

/// Returns the refusal of the first name that cannot be read, if there is one.
///
/// Each name is a pattern.
fn refusal_of_names(
    alloc: Global,
    members: &Map<String, Value>,
) -> Result<Option<String>, OutOfMemory>
    ensures refusal { ShowsRefusal result (refusal_among (names_of (fields members.now))) }
{
    for (name, _) in members {
        let refusal = refusal_of(alloc, name.as_str())?;
        if refusal.is_some() {
            return Ok(refusal);
        }
    }
    Ok(None)
}

/// Returns the refusal of the value of `pattern`, if it cannot be read.
fn refusal_of_pattern(alloc: Global, value: &Value) -> Result<Option<String>, OutOfMemory>
    ensures refusal { ShowsRefusal result (refusal_among (option_list (as_str (view value.now)))) }
{
    match value.as_str() {
        Some(pattern) => refusal_of(alloc, pattern),
        None => Ok(None),
    }
}

/// Returns the refusal of the value of `patternProperties`, if there is one.
///
/// There is one if a name cannot be read as a pattern.
fn refusal_of_patterns(alloc: Global, value: &Value) -> Result<Option<String>, OutOfMemory>
    ensures refusal { ShowsRefusal result (refusal_among (names_in (as_object (view value.now)))) }
{
    match value.as_object() {
        Some(members) => refusal_of_names(alloc, members),
        None => Ok(None),
    }
}

/// Returns the refusal of a member, if it holds a pattern that cannot be read.
fn refusal_in(
    alloc: Global,
    keyword: BuiltinKeyword,
    value: &Value,
) -> Result<Option<String>, OutOfMemory>
    ensures refusal { ShowsRefusal result (refusal_in (builtin_text keyword) (view value.now)) }
{
    match keyword {
        BuiltinKeyword::Pattern => refusal_of_pattern(alloc, value),
        BuiltinKeyword::PatternProperties => refusal_of_patterns(alloc, value),
        // These hold no pattern.
        BuiltinKeyword::TypeKeyword
        | BuiltinKeyword::Const
        | BuiltinKeyword::Enum
        | BuiltinKeyword::Minimum
        | BuiltinKeyword::Maximum
        | BuiltinKeyword::ExclusiveMinimum
        | BuiltinKeyword::ExclusiveMaximum
        | BuiltinKeyword::MultipleOf
        | BuiltinKeyword::MinLength
        | BuiltinKeyword::MaxLength
        | BuiltinKeyword::MinItems
        | BuiltinKeyword::MaxItems
        | BuiltinKeyword::MinProperties
        | BuiltinKeyword::MaxProperties
        | BuiltinKeyword::DependentRequired
        | BuiltinKeyword::UniqueItems => Ok(None),
        BuiltinKeyword::Required
        | BuiltinKeyword::Properties
        | BuiltinKeyword::PropertyNames
        | BuiltinKeyword::Items
        | BuiltinKeyword::PrefixItems
        | BuiltinKeyword::AllOf
        | BuiltinKeyword::AnyOf
        | BuiltinKeyword::OneOf
        | BuiltinKeyword::Not
        | BuiltinKeyword::If => Ok(None),
        BuiltinKeyword::AdditionalProperties => Ok(None),
        BuiltinKeyword::AdditionalItems
        | BuiltinKeyword::Contains
        | BuiltinKeyword::Dependencies
        | BuiltinKeyword::DependentSchemas => Ok(None),
        BuiltinKeyword::Format
        | BuiltinKeyword::ContentEncoding
        | BuiltinKeyword::ContentMediaType
        | BuiltinKeyword::ContentSchema => Ok(None),
        BuiltinKeyword::UnevaluatedProperties
        | BuiltinKeyword::UnevaluatedItems
        | BuiltinKeyword::Ref
        | BuiltinKeyword::RecursiveRef
        | BuiltinKeyword::DynamicRef => Ok(None),
    }
}

/// Returns the text of the refusal, if a pattern is why the table refuses.
///
/// # Errors
///
/// Out of memory.
pub fn pattern_refusal(
    unreadable: UnreadablePatterns,
    alloc: Global,
    origin: KeywordOrigin<'_>,
    object: &Map<String, Value>,
) -> Result<Option<String>, OutOfMemory>
    ensures refusal { ShowsRefusal result (pattern_refusal unreadable (is_own origin.entry) (name_of origin.entry) (get_member (name_of
        origin.entry) (fields object.now))) }
{
    match unreadable {
        UnreadablePatterns::LeftToTheMatcher => Ok(None),
        UnreadablePatterns::Refused => match origin {
            KeywordOrigin::Own(_) => Ok(None),
            KeywordOrigin::Builtin(entry) => match value_in(object, entry.keyword.as_str()) {
                Some(value) => refusal_in(alloc, entry.keyword, value),
                None => Ok(None),
            },
        },
    }
}
