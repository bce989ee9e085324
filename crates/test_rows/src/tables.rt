//! Tables of rows, which tests read.
//!
//! A table is a JSON text: an array of rows, each an array of columns.

ghost use Rattle.std.specs.Prelude.{◌≡◌, All, List, None, Ok, Some, codes, true, unwrap_or};
ghost use Rattle.std.specs.Fn.{FnReturnsAt};
ghost use Rattle.serde_json.specs.Data.{array};
ghost use Rattle.serde_json.specs.Find.{as_str, at};
ghost use Rattle.serde_json.specs.Read.{read as read_text};
ghost use Rattle.serde_json.specs.View.{items_view, view};
ghost use Rattle.test_rows.specs.Tables.{list_in};

use serde_json::Value;
use std::alloc::{AllocError, Global};

/// Returns the column of this number in a row, or the row if it has none.
pub fn column(row: &Value, number: usize) -> &Value
    ensures column { view result.now ≡ unwrap_or (at number (view row.now)) (view row.now) }
{
    row.get(number).unwrap_or(row)
}

/// Returns the text of a column, or an empty one.
pub fn text_at(row: &Value, number: usize) -> &str
    ensures text { result.now ≡ unwrap_or (as_str (unwrap_or (at number (view row.now)) (view row.now))) (codes "") }
{
    column(row, number).as_str().unwrap_or("")
}

/// Returns the items of the list in a column, or none.
pub fn list_at(row: &Value, number: usize) -> &[Value]
    ensures list { items_view result.now ≡ list_in (unwrap_or (at number (view row.now)) (view row.now)) }
{
    match column(row, number).as_array() {
        Some(list) => list.as_slice(),
        None => &[],
    }
}

/// Returns the number in a column, if there is one.
pub fn number_at(row: &Value, number: usize) -> Option<usize> {
    match column(row, number).as_u64() {
        Some(number) => usize::try_from(number).ok(),
        None => None,
    }
}

/// Adds words, with nothing between them.
pub fn push_all(log: &mut String, words: &[&str]) -> Result<(), AllocError> {
    for word in words {
        log.push_str(word)?;
    }
    Ok(())
}

/// Returns the texts in a list. An item that is not a text becomes empty.
pub fn texts_of(alloc: Global, list: &[Value]) -> Result<Vec<String>, AllocError> {
    let mut texts = Vec::new(alloc);
    for text in list {
        texts.push(String::from_str(alloc, text.as_str().unwrap_or(""))?)?;
    }
    Ok(texts)
}

/// Returns the text that a row wants.
///
/// It is the first column, or the texts of the list there, joined.
pub fn wanted_of(alloc: Global, row: &Value) -> Result<String, AllocError> {
    let mut wanted = String::from_str(alloc, text_at(row, 0))?;
    for part in list_at(row, 0) {
        wanted.push_str(part.as_str().unwrap_or("?"))?;
    }
    Ok(wanted)
}

/// Returns the number of the first row of a table for which `holds` is false.
///
/// Rows are counted from 0. Returns 0 if the table has no rows.
///
/// # Errors
///
/// The text is not JSON, or out of memory.
pub fn wrong_row<F: Fn(&Value) -> Result<bool, AllocError>>(
    alloc: Global,
    table: &str,
    holds: F,
) -> Result<Option<usize>, serde_json::Error>
    requires callable { F.IsAlwaysCallable holds }
    ensures hold { result ≡ Ok None → (rows : List Value) × (read_text table.now ≡ Some (array (items_view rows)))
        × All (λ row. FnReturnsAt F.Fn holds row (Ok true)) rows }
{
    let table = Value::from_str(alloc, table)?;
    let Some(rows) = table.as_array() else {
        return Ok(Some(0));
    };
    for (number, row) in rows.iter().enumerate() {
        if !holds(row)? {
            return Ok(Some(number));
        }
    }
    Ok(if rows.is_empty() { Some(0) } else { None })
}
