//! Rows as they are written.
ghost use Rattle.std.specs.Prelude.{◌≡◌, IfOk, option_map};
ghost use Rattle.serde_json.specs.Read.{read as read_text};
ghost use Rattle.serde_json.specs.View.{view};

use crate::call::Call;
use crate::case::Table;
use serde_json::{Category, Value};
use std::alloc::{AllocError, Global};

/// Returns the value on a line, or `None` if it is not JSON.
///
/// # Errors
///
/// Out of memory.
pub fn row_in(alloc: Global, line: &str) -> Result<Option<Value>, AllocError>
    ensures read { IfOk result (λ row. option_map view row ≡ read_text line.now) }
{
    match Value::from_str(alloc, line) {
        Ok(row) => Ok(Some(row)),
        Err(error) => match error.classify() {
            Category::Memory => Err(AllocError),
            _ => Ok(None),
        },
    }
}

/// The shape of a row's member.
#[derive(Clone, Copy)]
enum Shape {
    Any,
    Text,
    /// The name of a call.
    Call,
    /// The name of a table.
    Table,
    /// A whole number from 0.
    Count,
    /// A whole number from 1, of at most 32 bits.
    Runs,
    /// The number of a draft.
    Draft,
    Truth,
    Texts,
    /// Pairs of a text and a value.
    Pairs,
}

/// The members that a row may have.
const SHAPES: [(&str, Shape); 22] = [
    ("name", Shape::Text),
    ("call", Shape::Call),
    ("schema", Shape::Any),
    ("instance", Shape::Any),
    ("want", Shape::Any),
    ("draft", Shape::Draft),
    ("default", Shape::Draft),
    ("base", Shape::Text),
    ("limit", Shape::Count),
    ("nested", Shape::Count),
    ("nested_limit", Shape::Count),
    ("run_limit", Shape::Runs),
    ("work_limit", Shape::Count),
    ("depth_limit", Shape::Count),
    ("check", Shape::Truth),
    ("formats", Shape::Truth),
    ("declares", Shape::Texts),
    ("requires", Shape::Texts),
    ("unfinished", Shape::Texts),
    ("documents", Shape::Pairs),
    ("uri", Shape::Text),
    ("entry", Shape::Text),
];

/// The members that a row must have.
const NEEDED: [&str; 4] = ["name", "call", "schema", "want"];

// Returns the shape of the member with this name, or `None` if no row has such a member.
fn shape_of(name: &str) -> Option<Shape> {
    if name == "table" {
        return Some(Shape::Table);
    }
    for (other, shape) in &SHAPES {
        if *other == name {
            return Some(*shape);
        }
    }
    None
}

// Returns whether a value is a list of texts.
fn is_texts(value: &Value) -> bool {
    match value.as_array() {
        Some(items) => items.iter().all(|item| item.is_string()),
        None => false,
    }
}

// Returns whether a value is a pair of a text and another value.
fn is_pair(value: &Value) -> bool {
    match value.as_array() {
        Some(items) => items.len() == 2 && items.iter().take(1).all(|item| item.is_string()),
        None => false,
    }
}

// Returns whether a value is a list of such pairs.
fn is_pairs(value: &Value) -> bool {
    match value.as_array() {
        Some(items) => items.iter().all(|item| is_pair(item)),
        None => false,
    }
}

// Returns whether a value is the number of a draft.
fn is_draft(value: &Value) -> bool {
    matches!(value.as_u64(), Some(4 | 6 | 7 | 2019 | 2020))
}

// Returns whether a value is a number of runs that a call may make.
fn is_run_limit(value: &Value) -> bool {
    match value.as_u64() {
        Some(number) => number >= 1 && u32::try_from(number).is_ok(),
        None => false,
    }
}

// Returns whether a value is the name of a call.
fn is_call(value: &Value) -> bool {
    match value.as_str() {
        Some(name) => Call::named(name).is_some(),
        None => false,
    }
}

// Returns whether a value is the name of a table.
fn is_table(value: &Value) -> bool {
    match value.as_str() {
        Some(name) => Table::named(name).is_some(),
        None => false,
    }
}

fn has_shape(value: &Value, shape: Shape) -> bool {
    match shape {
        Shape::Any => true,
        Shape::Text => value.is_string(),
        Shape::Call => is_call(value),
        Shape::Table => is_table(value),
        Shape::Count => value.is_u64(),
        Shape::Runs => is_run_limit(value),
        Shape::Draft => is_draft(value),
        Shape::Truth => value.is_boolean(),
        Shape::Texts => is_texts(value),
        Shape::Pairs => is_pairs(value),
    }
}

// Returns the fault of a member, if it has one.
fn fault_of(alloc: Global, name: &str, value: &Value) -> Result<Option<String>, AllocError> {
    match shape_of(name) {
        None => Ok(Some(format!(in alloc; "unknown member {name}")?)),
        Some(shape) => {
            if has_shape(value, shape) {
                return Ok(None);
            }
            Ok(Some(format!(in alloc; "the member {name} cannot be {value}")?))
        }
    }
}

/// Returns the fault of a row's shape, or `None` if it has none.
///
/// A row must be an object that has the members that every row needs, and no unknown ones. Each
/// member must have its shape, and `documents` requires `uri`.
///
/// # Errors
///
/// Out of memory.
pub fn fault_in(alloc: Global, row: &Value) -> Result<Option<String>, AllocError> {
    let Some(members) = row.as_object() else {
        return Ok(Some(String::from_str(alloc, "the row is no object")?));
    };
    for name in &NEEDED {
        if row.get(*name).is_none() {
            return Ok(Some(format!(in alloc; "no member {name}")?));
        }
    }
    if row.get("documents").is_some() && row.get("uri").is_none() {
        return Ok(Some(String::from_str(alloc, "documents and no uri")?));
    }
    for (name, value) in members.iter() {
        if let Some(fault) = fault_of(alloc, name.as_str(), value)? {
            return Ok(Some(fault));
        }
    }
    Ok(None)
}
