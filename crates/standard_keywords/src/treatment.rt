//! What the table does with each keyword of the standard.
//!
//! One function of draft, object and name decides which table makes a keyword. `unevaluatedItems`
//! and `unevaluatedProperties` are refused: they depend on what subschemas evaluate, also through
//! references, and no turn sees that.
ghost use Rattle.std.specs.Prelude.{◌≡◌, codes, string_bytes};
ghost use Rattle.serde_json.specs.Find.{get_member};
ghost use Rattle.schema_drafts.specs.KeywordViews.{builtin_text, draft_of};
ghost use Rattle.standard_basics.specs.Makers.{has_prefix};
ghost use Rattle.schema_traits.specs.Readings.{fields};
ghost use Rattle.schema_traits.specs.Showing.{Shows};
ghost use Rattle.standard_keywords.specs.Treatments.{is_any_older_list, refusal_text, treated};

use keyword_makers::value_in;
use schema_drafts::{BuiltinKeyword, Draft};
use schema_reports::OutOfMemory;
use serde_json::{Map, Value};
use standard_basics::is_older_list;
use std::alloc::Global;

/// What the table does with a keyword of the standard.
#[derive(Clone, Copy)]
pub enum Treatment {
    /// `standard_assertions` makes it.
    Asserted,
    /// `standard_applicators` makes it.
    Applied,
    /// `standard_pattern_properties` makes it.
    Gated,
    /// `standard_basics` makes it.
    Basic,
    /// `standard_formats` makes it, if it asserts.
    Formatted,
    /// It asserts nothing, so nothing is made.
    Silent,
    /// The schema is refused.
    Refused,
}

/// Returns whether `items` is a list of schemas, one for each place.
///
/// Only drafts before 2020-12 allow such a list.
fn has_older_items(draft: Draft, object: &Map<String, Value>) -> bool
    ensures older { result ≡ is_any_older_list (draft_of draft) (get_member (codes "items") (fields object.now)) }
{
    match value_in(object, "items") {
        Some(value) => is_older_list(draft, value),
        None => false,
    }
}

/// Returns whether `items` continues after `prefixItems` in this draft.
///
/// Such a draft has no `additionalItems`.
fn has_prefix(draft: Draft) -> bool
    ensures prefix { result ≡ has_prefix (draft_of draft) }
{
    match draft {
        Draft::Draft202012 => true,
        Draft::Unknown => true,
        _ => false,
    }
}

/// Returns what the table does with the member of an object under this keyword.
///
/// The draft is one that has the keyword.
pub fn treatment_of(draft: Draft, object: &Map<String, Value>, keyword: BuiltinKeyword) -> Treatment
    ensures treated { result ≡ treated (draft_of draft) (fields object.now) (builtin_text keyword) }
{
    match keyword {
        BuiltinKeyword::TypeKeyword
        | BuiltinKeyword::Const
        | BuiltinKeyword::Enum
        | BuiltinKeyword::Minimum
        | BuiltinKeyword::Maximum
        | BuiltinKeyword::ExclusiveMinimum
        | BuiltinKeyword::ExclusiveMaximum
        | BuiltinKeyword::MultipleOf
        | BuiltinKeyword::MinLength
        | BuiltinKeyword::MaxLength
        | BuiltinKeyword::MinItems
        | BuiltinKeyword::MaxItems
        | BuiltinKeyword::MinProperties
        | BuiltinKeyword::MaxProperties
        | BuiltinKeyword::DependentRequired
        | BuiltinKeyword::UniqueItems => Treatment::Asserted,
        BuiltinKeyword::Required
        | BuiltinKeyword::Pattern
        | BuiltinKeyword::Properties
        | BuiltinKeyword::PropertyNames
        | BuiltinKeyword::PrefixItems
        | BuiltinKeyword::AllOf
        | BuiltinKeyword::AnyOf
        | BuiltinKeyword::OneOf
        | BuiltinKeyword::Not
        | BuiltinKeyword::If => Treatment::Basic,
        BuiltinKeyword::Items => {
            if has_older_items(draft, object) {
                Treatment::Applied
            } else {
                Treatment::Basic
            }
        }
        BuiltinKeyword::AdditionalItems => {
            if has_prefix(draft) {
                Treatment::Silent
            } else {
                Treatment::Applied
            }
        }
        BuiltinKeyword::Contains
        | BuiltinKeyword::Dependencies
        | BuiltinKeyword::DependentSchemas => Treatment::Applied,
        BuiltinKeyword::PatternProperties | BuiltinKeyword::AdditionalProperties =>
            Treatment::Gated,
        BuiltinKeyword::Format
        | BuiltinKeyword::ContentEncoding
        | BuiltinKeyword::ContentMediaType => Treatment::Formatted,
        BuiltinKeyword::ContentSchema => Treatment::Silent,
        BuiltinKeyword::UnevaluatedProperties
        | BuiltinKeyword::UnevaluatedItems
        | BuiltinKeyword::Ref
        | BuiltinKeyword::RecursiveRef
        | BuiltinKeyword::DynamicRef => Treatment::Refused,
    }
}

/// Returns the text of the refusal of a keyword.
///
/// # Errors
///
/// Out of memory.
pub fn refusal_text(alloc: Global, name: &str) -> Result<String, OutOfMemory>
    ensures text { Shows string_bytes result (refusal_text name.now) }
{
    let mut text = String::from_str(alloc, "\"")?;
    text.push_str(name)?;
    text.push_str("\" is not supported")?;
    Ok(text)
}
