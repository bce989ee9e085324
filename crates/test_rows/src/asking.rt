//! Lines that are read as rows, and the answers to them.
ghost use Rattle.std.specs.Prelude.{◌≡◌, IfOk, None, false};
ghost use Rattle.serde_json.specs.Read.{read as read_text};
ghost use Rattle.test_rows.specs.Rows.{is_right_answer};

use crate::growing::grown;
use crate::reading::{fault_in, row_in};
use serde_json::Value;
use std::alloc::{AllocError, Global};
use std::collections::BTreeSet;

/// Answers cases.
pub trait Answering {
    /// Returns the answer to a case, as JSON.
    ///
    /// If the value is not a case, the answer is `{"fault": text}`.
    ///
    /// # Errors
    ///
    /// Out of memory.
    fn answer(&self, alloc: Global, case: &Value) -> Result<Value, AllocError>;
}

/// The result of a row.
///
/// It is the fault of the row itself, or the row in its full form with the answer to it.
#[derive(Drop)]
pub enum RowAnswer {
    Fault(String),
    Given(Value, Value),
}

/// The result of a line, and the name of its row if one could be read.
#[derive(Drop)]
pub struct Line {
    pub name: Option<String>,
    pub answer: RowAnswer,
}

// Returns the fault of a row's shape or name. The name is added to `names`, where it must be new.
fn fault_of(
    alloc: Global,
    names: &mut BTreeSet<String>,
    row: &Value,
) -> Result<Option<String>, AllocError> {
    if let Some(fault) = fault_in(alloc, row)? {
        return Ok(Some(fault));
    }
    let name = row.get("name").and_then(Value::as_str).unwrap_or("");
    if names.insert(String::from_str(alloc, name)?)? {
        Ok(None)
    } else {
        Ok(Some(String::from_str(alloc, "another row has this name")?))
    }
}

// Returns a row with the answer to it.
fn answered<A: Answering>(alloc: Global, cases: &A, row: Value) -> Result<RowAnswer, AllocError> {
    let given = cases.answer(alloc, &row)?;
    Ok(RowAnswer::Given(row, given))
}

fn answer_of<A: Answering>(
    alloc: Global,
    cases: &A,
    names: &mut BTreeSet<String>,
    row: &Value,
) -> Result<RowAnswer, AllocError> {
    match fault_of(alloc, names, row)? {
        Some(fault) => Ok(RowAnswer::Fault(fault)),
        None => answered(alloc, cases, grown(alloc, row)?),
    }
}

fn name_of(alloc: Global, row: &Value) -> Result<Option<String>, AllocError> {
    match row.get("name").and_then(Value::as_str) {
        Some(name) => Ok(Some(String::from_str(alloc, name)?)),
        None => Ok(None),
    }
}

// Returns the result of a row, and its name.
fn asked<A: Answering>(
    alloc: Global,
    cases: &A,
    names: &mut BTreeSet<String>,
    row: &Value,
) -> Result<Line, AllocError> {
    let name = name_of(alloc, row)?;
    let answer = answer_of(alloc, cases, names, row)?;
    Ok(Line { name, answer })
}

/// Returns the result of a line, and adds the row's name to `names`.
///
/// If the name is there already, the row has a fault.
///
/// # Errors
///
/// Out of memory.
pub fn line_in<A: Answering>(
    alloc: Global,
    cases: &A,
    names: &mut BTreeSet<String>,
    text: &str,
) -> Result<Line, AllocError>
    ensures unread { IfOk result (λ line. read_text text.now ≡ None → is_right_answer line.answer ≡ false) }
{
    match row_in(alloc, text)? {
        Some(row) => asked(alloc, cases, names, &row),
        None => Ok(Line {
            name: None,
            answer: RowAnswer::Fault(String::from_str(alloc, "the line is no JSON")?),
        }),
    }
}
