//! `dependentRequired` (JSON Schema Validation 2020-12, 6.5.4).
ghost use Rattle.std.specs.Prelude.{◌≡◌, map};
ghost use Rattle.serde_json.specs.Find.{as_array};
ghost use Rattle.serde_json.specs.View.{items_view, view};
ghost use Rattle.schema_reports.specs.InstanceViews.{subject_of};
ghost use Rattle.schema_traits.specs.KeywordViews.{is_nil};
ghost use Rattle.standard_basics.specs.Words.{required_text};
ghost use Rattle.standard_assertions.specs.Dependents.{missing_dependents, missing_names, missing_of, wanted_by_each, AddsRequired};
ghost use Rattle.schema_traits.specs.Readings.{ListsTexts, fields};

use json_values::HeldValue;
use keyword_authoring::has_member;
use schema_reports::{Instance, OutOfMemory};
use serde_json::{Map, Value};
use standard_basics::required_text;
use std::alloc::Global;

/// Returns whether an instance has a member for each of the names.
///
/// A value that is no text names nothing.
#[tactic(auto, using(crate::proofs::Missing::either_missing))]
fn has_each(names: &[Value], instance: Instance<'_>) -> bool
    ensures each { result ≡ is_nil (missing_names (items_view names.now) (subject_of instance.entry)) }
{
    for name in names {
        if let Some(name) = name.as_str() {
            if !has_member(instance, name) {
                return false;
            }
        }
    }
    true
}

/// Returns whether an instance has a member for each name in a list.
fn has_each_of(names: &Value, instance: Instance<'_>) -> bool
    ensures each { result ≡ is_nil (missing_of (as_array (view names.now)) (subject_of instance.entry)) }
{
    match names.as_array() {
        Some(names) => has_each(names.as_slice(), instance),
        None => true,
    }
}

/// Returns whether an instance has all members that these members require.
#[tactic(auto, using(crate::proofs::Missing::either_missing))]
fn meets(dependents: &Map<String, Value>, instance: Instance<'_>) -> bool
    ensures meets { result ≡ is_nil (wanted_by_each (fields dependents.now) (subject_of instance.entry)) }
{
    for (name, wanted) in dependents.iter() {
        if has_member(instance, name.as_str()) && !has_each_of(wanted, instance) {
            return false;
        }
    }
    true
}

/// Returns whether an instance has all members that its own members require.
pub fn has_dependents(dependents: &HeldValue, instance: Instance<'_>) -> bool
    ensures meets { result ≡ is_nil (missing_dependents dependents.now (subject_of instance.entry)) }
{
    match dependents.as_value().as_object() {
        Some(members) => meets(members, instance),
        None => true,
    }
}

/// Appends an error's text for each of the names that the instance lacks.
fn push_missing(
    alloc: Global,
    names: &[Value],
    instance: Instance<'_>,
    texts: &mut Vec<String>,
) -> Result<(), OutOfMemory>
    ensures pushed { AddsRequired (missing_names (items_view names.now) (subject_of instance.entry)) texts.old texts.new result }
{
    for name in names {
        if let Some(name) = name.as_str() {
            if !has_member(instance, name) {
                texts.push(required_text(alloc, name)?)?;
            }
        }
    }
    Ok(())
}

/// Appends an error's text for each name in a list that the instance lacks.
fn push_missing_of(
    alloc: Global,
    names: &Value,
    instance: Instance<'_>,
    texts: &mut Vec<String>,
) -> Result<(), OutOfMemory>
    ensures pushed { AddsRequired (missing_of (as_array (view names.now)) (subject_of instance.entry)) texts.old texts.new result }
{
    match names.as_array() {
        Some(names) => push_missing(alloc, names.as_slice(), instance, texts),
        None => Ok(()),
    }
}

/// Appends an error's text for each missing name that a member requires.
fn push_wanted(
    alloc: Global,
    dependents: &Map<String, Value>,
    instance: Instance<'_>,
    texts: &mut Vec<String>,
) -> Result<(), OutOfMemory>
    ensures pushed { AddsRequired (wanted_by_each (fields dependents.now) (subject_of instance.entry)) texts.old texts.new result }
{
    for (name, wanted) in dependents.iter() {
        if has_member(instance, name.as_str()) {
            push_missing_of(alloc, wanted, instance, texts)?;
        }
    }
    Ok(())
}

/// Returns the texts of the errors, one for each missing name.
///
/// # Errors
///
/// Out of memory.
pub fn missing_texts(
    alloc: Global,
    dependents: &HeldValue,
    instance: Instance<'_>,
) -> Result<Vec<String>, OutOfMemory>
    ensures texts { ListsTexts result (map required_text (missing_dependents dependents.now (subject_of instance.entry))) }
{
    let mut texts = Vec::new(alloc);
    if let Some(members) = dependents.as_value().as_object() {
        push_wanted(alloc, members, instance, &mut texts)?;
    }
    Ok(texts)
}
