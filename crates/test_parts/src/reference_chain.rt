//! A chain of references.
use schema_reports::OutOfMemory;
use serde_json::Value;
use std::alloc::Global;

/// Adds the definitions of a chain.
///
/// Each refers to the next, and the last accepts texts.
fn push_chain(count: u16, text: &mut String) -> Result<(), OutOfMemory> {
    for number in 0..count {
        let next = number.saturating_add(1);
        write!(text, r##""c{number}":{{"$ref":"#/$defs/c{next}"}},"##)?;
    }
    write!(text, r##""c{count}":{{"type":"string"}}"##)
}

/// Adds a row that validates the number 1 against a chain of references.
fn push_row(references: u16, text: &mut String) -> Result<(), OutOfMemory> {
    text.push_str(r##"["",{"$ref":"#/$defs/c0","$defs":{"##)?;
    push_chain(references, text)?;
    text.push_str("}},1]")
}

/// Returns a row that validates the number 1 against a chain of references.
///
/// Each definition refers to the next, and the last accepts texts.
///
/// # Errors
///
/// Out of memory.
pub fn row_of(alloc: Global, references: u16) -> Result<Value, serde_json::Error> {
    let mut text = String::new(alloc);
    push_row(references, &mut text)?;
    Value::from_str(alloc, text.as_str())
}
