//! Values that are written in a shorter form.
//!
//! In a list, an object whose member `@times` is `[count, value]` stands for this many copies of
//! the value; if there are several values, the group is repeated. In an object, a member `@members`
//! that is `[count, name, value]` stands for this many members. In their texts and names, `{}` is
//! replaced by the number of the copy, from 0, and `{+}` by the next number. An object whose member
//! `@within` is `[count, name, value]` is the value inside this many objects, each with this one
//! member. An object whose member `@text` is `[count, text, last]` is the text this many times, and
//! then the last text. The repeated part is grown first, so a number belongs to the innermost
//! repetition around it.

use serde_json::{Map, Value};
use std::alloc::{AllocError, Global};

/// A repetition: the count, and the repeated parts.
#[derive(Clone, Copy)]
struct Repetition<'v> {
    count: u64,
    first: &'v Value,
    /// The first again, if there is no second.
    second: &'v Value,
    /// The whole list, whose first item is the count.
    list: &'v [Value],
}

// Returns the repetition that the value of a member describes.
fn repetition_in<'v>(value: &'v Value) -> Option<Repetition<'v>> {
    let count = value.get(0).and_then(Value::as_u64)?;
    let first = value.get(1)?;
    let second = value.get(2).unwrap_or(first);
    let list = value.as_array()?.as_slice();
    Some(Repetition {
        count,
        first,
        second,
        list,
    })
}

// Returns the text with a number for `{}`, and the next number for `{+}`.
fn numbered_text(alloc: Global, text: &str, number: u64) -> Result<String, AllocError> {
    if !text.contains("{") {
        return String::from_str(alloc, text);
    }
    let here = format!(in alloc; "{number}")?;
    let next = format!(in alloc; "{}", number.saturating_add(1))?;
    let text = text.replace(alloc, "{}", here.as_str())?;
    text.as_str().replace(alloc, "{+}", next.as_str())
}

// Returns a copy of a value with the texts and the names of members numbered.
#[cycle(numbering)]
fn numbered(alloc: Global, value: &Value, number: u64) -> Result<Value, AllocError> {
    match value {
        Value::String(text) => Ok(Value::String(numbered_text(alloc, text.as_str(), number)?)),
        Value::Array(items) => Ok(Value::Array(numbered_items(alloc, items, number)?)),
        Value::Object(members) => Ok(Value::Object(numbered_members(alloc, members, number)?)),
        _ => value.clone(),
    }
}

// Like `numbered`, for items.
#[cycle(numbering)]
fn numbered_items(
    alloc: Global,
    items: &Vec<Value>,
    number: u64,
) -> Result<Vec<Value>, AllocError> {
    let mut copies = Vec::new(alloc);
    for item in items {
        copies.push(numbered(alloc, item, number)?)?;
    }
    Ok(copies)
}

// Like `numbered`, for members.
#[cycle(numbering)]
fn numbered_members(
    alloc: Global,
    members: &Map<String, Value>,
    number: u64,
) -> Result<Map<String, Value>, AllocError> {
    let mut copies = Map::new(alloc);
    for (name, member) in members.iter() {
        let name = numbered_text(alloc, name.as_str(), number)?;
        let copy = numbered(alloc, member, number)?;
        drop(copies.insert(name, copy)?);
    }
    Ok(copies)
}

// Adds the numbered copies of a group of values: the items of the list after the first one.
fn push_group(
    alloc: Global,
    items: &mut Vec<Value>,
    list: &[Value],
    number: u64,
) -> Result<(), AllocError> {
    for value in list.iter().skip(1) {
        items.push(numbered(alloc, value, number)?)?;
    }
    Ok(())
}

// Adds a group of values this many times.
fn push_times(
    alloc: Global,
    items: &mut Vec<Value>,
    count: u64,
    list: &[Value],
) -> Result<(), AllocError> {
    for number in 0..count {
        push_group(alloc, items, list, number)?;
    }
    Ok(())
}

// Adds this many numbered members.
fn insert_times(
    alloc: Global,
    members: &mut Map<String, Value>,
    count: u64,
    name: &str,
    value: &Value,
) -> Result<(), AllocError> {
    for number in 0..count {
        let name = numbered_text(alloc, name, number)?;
        let member = numbered(alloc, value, number)?;
        drop(members.insert(name, member)?);
    }
    Ok(())
}

// Returns a value inside this many objects, each with one member.
fn within(alloc: Global, count: u64, name: &str, value: Value) -> Result<Value, AllocError> {
    let mut outer = value;
    for _ in 0..count {
        let mut members = Map::new(alloc);
        drop(members.insert(String::from_str(alloc, name)?, outer)?);
        outer = Value::Object(members);
    }
    Ok(outer)
}

// Returns a text this many times, and then another one.
fn repeated_text(alloc: Global, count: u64, text: &str, last: &str) -> Result<String, AllocError> {
    let mut whole = String::new(alloc);
    for _ in 0..count {
        whole.push_str(text)?;
    }
    whole.push_str(last)?;
    Ok(whole)
}

/// Returns the value that a shorter form stands for.
///
/// If nothing is repeated in it, the result is a copy.
///
/// # Errors
///
/// Out of memory.
#[cycle(grow)]
pub fn grown(alloc: Global, value: &Value) -> Result<Value, AllocError> {
    match value {
        Value::Array(items) => Ok(Value::Array(grown_items(alloc, items)?)),
        Value::Object(members) => whole(alloc, grown_members(alloc, members)?),
        _ => value.clone(),
    }
}

// Like `grown`, for items.
#[cycle(grow)]
fn grown_items(alloc: Global, items: &Vec<Value>) -> Result<Vec<Value>, AllocError> {
    let mut copies = Vec::new(alloc);
    for item in items {
        let copy = grown(alloc, item)?;
        push_whole(alloc, &mut copies, copy)?;
    }
    Ok(copies)
}

// Like `grown`, for members.
#[cycle(grow)]
fn grown_members(
    alloc: Global,
    members: &Map<String, Value>,
) -> Result<Map<String, Value>, AllocError> {
    let mut copies = Map::new(alloc);
    for (name, member) in members.iter() {
        let copy = grown(alloc, member)?;
        insert_whole(alloc, &mut copies, name.as_str(), copy)?;
    }
    Ok(copies)
}

// Adds an item whose parts are grown.
fn push_whole(alloc: Global, items: &mut Vec<Value>, item: Value) -> Result<(), AllocError> {
    match item.get("@times").and_then(repetition_in) {
        Some(times) => push_times(alloc, items, times.count, times.list),
        None => Ok(items.push(item)?),
    }
}

// Adds a member whose parts are grown.
fn insert_whole(
    alloc: Global,
    members: &mut Map<String, Value>,
    name: &str,
    member: Value,
) -> Result<(), AllocError> {
    if name == "@members" {
        if let Some(times) = repetition_in(&member) {
            let name = times.first.as_str().unwrap_or("");
            return insert_times(alloc, members, times.count, name, times.second);
        }
    }
    drop(members.insert(String::from_str(alloc, name)?, member)?);
    Ok(())
}

// Returns the value of an object whose members are grown.
fn whole(alloc: Global, members: Map<String, Value>) -> Result<Value, AllocError> {
    if let Some(within_of) = members.get("@within").and_then(repetition_in) {
        let name = within_of.first.as_str().unwrap_or("");
        return within(alloc, within_of.count, name, within_of.second.clone()?);
    }
    if let Some(text) = members.get("@text").and_then(repetition_in) {
        let first = text.first.as_str().unwrap_or("");
        let last = text.second.as_str().unwrap_or("");
        let text = repeated_text(alloc, text.count, first, last)?;
        return Ok(Value::String(text));
    }
    Ok(Value::Object(members))
}
