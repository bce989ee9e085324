//! The keywords `const`, `enum` and `uniqueItems`.
//!
//! (JSON Schema Validation 2020-12, 6.1.2, 6.1.3 and 6.4.3)
ghost use Rattle.std.specs.Prelude.{◌≡◌, ◌++◌, IfOk, false, string_bytes};
ghost use Rattle.serde_json.specs.Data.{string};
ghost use Rattle.serde_json.specs.View.{items_view, view};
ghost use Rattle.serde_json.specs.Written.{compact_text, has_float, items_have_float};
ghost use Rattle.schema_reports.specs.InstanceViews.{subject_of};
ghost use Rattle.json_values.specs.Equality.{has_equal};
ghost use Rattle.standard_assertions.specs.Constants.{constant_text, distinct_text, has_distinct_items, is_constant, is_listed};
ghost use Rattle.standard_assertions.specs.Constants.{items_in, listed_text, more_values, parting, values_text};
ghost use Rattle.keyword_authoring.specs.TextWords.{Adds, ShowsText};
ghost use Rattle.schema_traits.specs.Showing.{Yields};

use json_values::{HeldValue, are_all_distinct, are_all_distinct_by_pairs, is_among};
use schema_reports::{Instance, OutOfMemory};
use serde_json::Value;
use std::alloc::Global;

/// Returns whether an instance equals the constant.
pub fn is_constant(constant: &HeldValue, instance: Instance<'_>) -> bool
    ensures constant { result ≡ is_constant constant.now (subject_of instance.entry) }
{
    match instance {
        Instance::Name(name) => constant.equals_text(name),
        Instance::Value(value) => constant.equals(value),
    }
}

/// Returns the error's text for a constant, which it shows.
///
/// # Errors
///
/// Out of memory.
pub fn constant_text(alloc: Global, constant: &HeldValue) -> Result<String, OutOfMemory>
    ensures text { IfOk result (λ text. has_float constant.now ≡ false → string_bytes text ≡ constant_text constant.now) }
{
    let mut text = constant.text(alloc)?;
    text.push_str(" was expected")?;
    Ok(text)
}

/// Returns the items of a list, or an empty slice for any other value.
fn items_in(values: &HeldValue) -> &[Value]
    ensures items { items_view result.now ≡ items_in values.now }
{
    match values.as_value().as_array() {
        Some(items) => items.as_slice(),
        None => &[],
    }
}

fn is_text_among(text: &str, values: &[Value]) -> bool
    ensures among { result ≡ has_equal (string text.now) (items_view values.now) }
{
    for value in values {
        if Some(text) == value.as_str() {
            return true;
        }
    }
    false
}

/// Returns whether an instance equals one of the values of a list.
pub fn is_listed(values: &HeldValue, instance: Instance<'_>) -> bool
    ensures listed { result ≡ is_listed values.now (subject_of instance.entry) }
{
    match instance {
        Instance::Name(name) => is_text_among(name, items_in(values)),
        Instance::Value(value) => is_among(value, items_in(values)),
    }
}

/// Returns the error's text for a list of values, which it shows.
///
/// # Errors
///
/// Out of memory.
pub fn listed_text(
    alloc: Global,
    values: &HeldValue,
    instance: Instance<'_>,
) -> Result<String, OutOfMemory>
    ensures text { IfOk result (λ text. has_float values.now ≡ false → ShowsText instance.entry (listed_text values.now) text) }
{
    let mut text = instance.text(alloc)?;
    text.push_str(" is not one of ")?;
    push_values(alloc, items_in(values), &mut text)?;
    Ok(text)
}

/// Appends the values, separated by commas, and by ` or ` before the last one.
fn push_values(alloc: Global, values: &[Value], text: &mut String) -> Result<(), OutOfMemory>
    ensures pushed { IfOk result (λ _. items_have_float (items_view values.now) ≡ false → Adds (values_text (items_view values.now))
        text.old text.new) }
{
    match values.split_first() {
        None => Ok(()),
        Some((first, others)) => {
            push_value(alloc, "", first, text)?;
            push_more(alloc, others, text)
        }
    }
}

/// Returns the words before a value, given the values that follow it.
fn parting(others: &[Value]) -> &'static str
    ensures parting { result.now ≡ parting (items_view others.now) }
{
    match others.split_first() {
        None => " or ",
        Some(_) => ", ",
    }
}

/// Appends the values after the first, each with the words before it.
fn push_more(alloc: Global, values: &[Value], text: &mut String) -> Result<(), OutOfMemory>
    ensures pushed { IfOk result (λ _. items_have_float (items_view values.now) ≡ false → Adds (more_values (items_view values.now))
        text.old text.new) }
{
    let mut rest = values;
    while let Some((first, others)) = rest.split_first() {
        push_value(alloc, parting(others), first, text)?;
        rest = others;
    }
    Ok(())
}

fn push_value(
    alloc: Global,
    before: &str,
    value: &Value,
    text: &mut String,
) -> Result<(), OutOfMemory>
    ensures pushed { IfOk result (λ _. has_float (view value.now) ≡ false
        → string_bytes text.new ≡ string_bytes text.old ++ before.now ++ compact_text (view value.now)) }
{
    text.push_str(before)?;
    let shown = value.to_string(alloc)?;
    text.push_str(shown.as_str())
}

/// Like `has_distinct_items`, but allocates nothing.
///
/// Therefore, it compares each pair of items.
pub fn has_distinct_items_by_pairs(instance: Instance<'_>) -> bool
    ensures distinct { result ≡ has_distinct_items (subject_of instance.entry) }
{
    match instance {
        Instance::Name(_) => true,
        Instance::Value(value) => match value.as_array() {
            None => true,
            Some(items) => are_all_distinct_by_pairs(items.as_slice()),
        },
    }
}

/// Returns whether an instance has no two equal items, or is no list.
///
/// # Errors
///
/// Out of memory.
pub fn has_distinct_items(alloc: Global, instance: Instance<'_>) -> Result<bool, OutOfMemory>
    ensures distinct { Yields result (has_distinct_items (subject_of instance.entry)) }
{
    match instance {
        Instance::Name(_) => Ok(true),
        Instance::Value(value) => match value.as_array() {
            None => Ok(true),
            Some(items) => are_all_distinct(alloc, items.as_slice()),
        },
    }
}

/// Returns the error's text for items that are not distinct.
///
/// # Errors
///
/// Out of memory.
pub fn distinct_text(alloc: Global, instance: Instance<'_>) -> Result<String, OutOfMemory>
    ensures text { IfOk result (ShowsText instance.entry distinct_text) }
{
    let mut text = instance.text(alloc)?;
    text.push_str(" has non-unique elements")?;
    Ok(text)
}
