//! The values of the assertions, as their draft reads them.
ghost use Rattle.std.specs.Prelude.{◌≡◌};
ghost use Rattle.serde_json.specs.Find.{as_array, as_number, as_object};
ghost use Rattle.serde_json.specs.View.{items_view, view};
ghost use Rattle.schema_drafts.specs.KeywordViews.{draft_of};
ghost use Rattle.standard_assertions.specs.Values.{are_text_lists, are_texts, count_made, dependents_made, enum_made, has_text_lists};
ghost use Rattle.standard_assertions.specs.Values.{integers_of, is_any_text_list, is_draft_4, limit_made, multiple_made};
ghost use Rattle.standard_assertions.specs.Values.{size_limit, size_made, type_made};
ghost use Rattle.schema_traits.specs.Showing.{Yields};
ghost use Rattle.schema_traits.specs.Readings.{fields};

use crate::assertion::Assertion;
use crate::limits::LimitKind;
use crate::numbers::HeldNumber;
use crate::sizes::SizeKind;
use crate::types::{Integers, TypeList};
use json_values::{HeldValue, is_less, natural_of};
use schema_drafts::Draft;
use schema_reports::OutOfMemory;
use serde_json::{Map, Number, Value};
use standard_basics::{CountKind, type_named, types_of};
use std::alloc::Global;

/// Returns whether the draft takes numbers as they are written.
pub fn is_draft_4(draft: Draft) -> bool
    ensures draft_4 { result ≡ is_draft_4 (draft_of draft) }
{
    matches!(draft, Draft::Draft4)
}

/// Returns the numbers that count as integers in a draft.
pub fn integers_of(draft: Draft) -> Integers
    ensures integers { result ≡ integers_of (draft_of draft) }
{
    if is_draft_4(draft) {
        Integers::Written
    } else {
        Integers::Valued
    }
}

/// Makes `type`.
pub fn type_made(
    alloc: Global,
    integers: Integers,
    value: &Value,
) -> Result<Option<Assertion>, OutOfMemory>
    ensures made { Yields result (type_made integers (view value.now)) }
{
    match value {
        Value::String(name) => match type_named(name.as_str()) {
            Some(name) => Ok(Some(Assertion::Type(integers, name))),
            None => Ok(None),
        },
        Value::Array(values) => match types_of(alloc, values.as_slice())? {
            Some(names) => Ok(Some(Assertion::Types(integers, TypeList { names }))),
            None => Ok(None),
        },
        _ => Ok(None),
    }
}

/// Makes `enum`.
pub fn enum_made(alloc: Global, value: &Value) -> Result<Option<Assertion>, OutOfMemory>
    ensures made { Yields result (enum_made (view value.now)) }
{
    if value.is_array() {
        let values = HeldValue::of(alloc, value)?;
        Ok(Some(Assertion::Enum(values)))
    } else {
        Ok(None)
    }
}

/// Makes a keyword that limits numbers.
pub fn limit_made(kind: LimitKind, value: &Value) -> Option<Assertion>
    ensures made { result ≡ limit_made kind (view value.now) }
{
    match HeldNumber::of(value) {
        Some(limit) => Some(Assertion::Limit(kind, limit)),
        None => None,
    }
}

/// Makes `multipleOf`.
pub fn multiple_made(value: &Value) -> Option<Assertion>
    ensures made { result ≡ multiple_made (view value.now) }
{
    let divisor = HeldNumber::of(value)?;
    if is_less(&Number::from(0u64), divisor.as_number()) {
        Some(Assertion::MultipleOf(divisor))
    } else {
        None
    }
}

/// Returns the limit, if the draft reads the value as one.
fn size_limit(draft: Draft, value: &Value) -> Option<u64>
    ensures limit { result ≡ size_limit (draft_of draft) (view value.now) }
{
    if is_draft_4(draft) {
        value.as_u64()
    } else {
        match value.as_number() {
            Some(number) => natural_of(number),
            None => None,
        }
    }
}

/// Makes a keyword that limits a count of items or members.
pub fn size_made(kind: SizeKind, draft: Draft, value: &Value) -> Option<Assertion>
    ensures made { result ≡ size_made kind (draft_of draft) (view value.now) }
{
    match size_limit(draft, value) {
        Some(limit) => Some(Assertion::Size(kind, limit)),
        None => None,
    }
}

/// Makes a keyword that limits a count of characters or members.
pub fn count_made(kind: CountKind, draft: Draft, value: &Value) -> Option<Assertion>
    ensures made { result ≡ count_made kind (draft_of draft) (view value.now) }
{
    match size_limit(draft, value) {
        Some(limit) => Some(Assertion::Count(kind, limit)),
        None => None,
    }
}

fn are_texts(values: &[Value]) -> bool
    ensures texts { result ≡ are_texts (items_view values.now) }
{
    for value in values {
        if !value.is_string() {
            return false;
        }
    }
    true
}

fn is_text_list(value: &Value) -> bool
    ensures list { result ≡ is_any_text_list (as_array (view value.now)) }
{
    match value.as_array() {
        Some(values) => are_texts(values.as_slice()),
        None => false,
    }
}

fn are_text_lists(members: &Map<String, Value>) -> bool
    ensures lists { result ≡ are_text_lists (fields members.now) }
{
    for (_, value) in members.iter() {
        if !is_text_list(value) {
            return false;
        }
    }
    true
}

/// Makes `dependentRequired`.
pub fn dependents_made(alloc: Global, value: &Value) -> Result<Option<Assertion>, OutOfMemory>
    ensures made { Yields result (dependents_made (view value.now)) }
{
    if has_text_lists(value) {
        let dependents = HeldValue::of(alloc, value)?;
        Ok(Some(Assertion::DependentRequired(dependents)))
    } else {
        Ok(None)
    }
}

/// Returns whether a value is an object whose members are lists of texts.
fn has_text_lists(value: &Value) -> bool
    ensures lists { result ≡ has_text_lists (as_object (view value.now)) }
{
    match value.as_object() {
        Some(members) => are_text_lists(members),
        None => false,
    }
}
