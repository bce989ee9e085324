//! The patterns in documents.
ghost use Rattle.std.specs.Prelude.{◌∷◌, [], map};
ghost use Rattle.serde_json.specs.View.{items_view, view};
ghost use Rattle.pattern_matcher.specs.SchemaPatterns.{given_by, member_names_of, names_of, patterns_in, patterns_in_items};
ghost use Rattle.pattern_matcher.specs.SchemaPatterns.{patterns_in_members, patterns_of, text_of};
ghost use Rattle.schema_traits.specs.Readings.{AddsTexts, ListsTexts, fields};

use schema_reports::OutOfMemory;
use serde_json::{Map, Value};
use std::alloc::Global;

/// Returns the patterns in documents, in order.
///
/// These are each text under a member `pattern`, and each member's name under a member
/// `patternProperties`, anywhere in the documents.
///
/// # Errors
///
/// Out of memory.
pub fn patterns_of(alloc: Global, documents: &[&Value]) -> Result<Vec<String>, OutOfMemory>
    ensures patterns { ListsTexts result (patterns_of (map (λ d. view d.now) documents.now)) }
{
    let mut texts = Vec::new(alloc);
    for document in documents {
        push_patterns(alloc, document, &mut texts)?;
    }
    Ok(texts)
}

#[cycle(walk)]
fn push_patterns(alloc: Global, value: &Value, texts: &mut Vec<String>) -> Result<(), OutOfMemory>
    ensures pushed { AddsTexts texts.old.items texts.new.items (patterns_in (view value.now)) result }
{
    match value {
        Value::Null => Ok(()),
        Value::Bool(_) => Ok(()),
        Value::Number(_) => Ok(()),
        Value::String(_) => Ok(()),
        Value::Array(items) => push_patterns_of_items(alloc, items, texts),
        Value::Object(members) => push_patterns_of_members(alloc, members, texts),
    }
}

#[cycle(walk)]
fn push_patterns_of_items(
    alloc: Global,
    items: &Vec<Value>,
    texts: &mut Vec<String>,
) -> Result<(), OutOfMemory>
    ensures pushed { AddsTexts texts.old.items texts.new.items (patterns_in_items (items_view items.now.items)) result }
{
    for item in items {
        push_patterns(alloc, item, texts)?;
    }
    Ok(())
}

#[cycle(walk)]
fn push_patterns_of_members(
    alloc: Global,
    members: &Map<String, Value>,
    texts: &mut Vec<String>,
) -> Result<(), OutOfMemory>
    ensures pushed { AddsTexts texts.old.items texts.new.items (patterns_in_members (fields members.now)) result }
{
    for (name, member) in members.iter() {
        push_given(alloc, name.as_str(), member, texts)?;
        push_patterns(alloc, member, texts)?;
    }
    Ok(())
}

// Adds the patterns that a member itself holds, not those of the values inside it.
fn push_given(
    alloc: Global,
    name: &str,
    member: &Value,
    texts: &mut Vec<String>,
) -> Result<(), OutOfMemory>
    ensures pushed { AddsTexts texts.old.items texts.new.items (given_by name.now (view member.now)) result }
{
    if name == "pattern" {
        return push_text_of(alloc, member, texts);
    }
    if name == "patternProperties" {
        return push_member_names(alloc, member, texts);
    }
    Ok(())
}

fn push_text_of(alloc: Global, value: &Value, texts: &mut Vec<String>) -> Result<(), OutOfMemory>
    ensures pushed { AddsTexts texts.old.items texts.new.items (text_of (view value.now)) result }
{
    if let Some(text) = value.as_str() {
        texts.push(String::from_str(alloc, text)?)?;
    }
    Ok(())
}

fn push_member_names(
    alloc: Global,
    value: &Value,
    texts: &mut Vec<String>,
) -> Result<(), OutOfMemory>
    ensures pushed { AddsTexts texts.old.items texts.new.items (member_names_of (view value.now)) result }
{
    match value.as_object() {
        Some(members) => push_names(alloc, members, texts),
        None => Ok(()),
    }
}

fn push_names(
    alloc: Global,
    members: &Map<String, Value>,
    texts: &mut Vec<String>,
) -> Result<(), OutOfMemory>
    ensures pushed { AddsTexts texts.old.items texts.new.items (names_of (fields members.now)) result }
{
    for (name, _) in members.iter() {
        texts.push(String::from_str(alloc, name.as_str())?)?;
    }
    Ok(())
}
