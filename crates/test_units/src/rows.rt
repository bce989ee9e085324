//! Tables of rows, and the test of each row.
//!
//! A row is right if its result is the text in its first column, or the texts there, one after the
//! other.
use crate::context_tests::{CONTEXTS, tell_context};
use crate::json_value_tests::{VALUES, tell_values};
use crate::kept_path_tests::{KEPT, tell_kept};
use crate::keyword_table_tests::{KEYWORDS, tell_keyword};
use schema_reports::OutOfMemory;
use serde_json::Value;
use std::alloc::Global;
use test_rows::{wanted_of, wrong_row};

/// The subject of a table's rows.
#[derive(Clone, Copy)]
enum Rows {
    Contexts,
    Kept,
    Keywords,
    Values,
}

fn tell(alloc: Global, rows: Rows, row: &Value, log: &mut String) -> Result<(), OutOfMemory> {
    match rows {
        Rows::Contexts => tell_context(alloc, row, log),
        Rows::Kept => tell_kept(alloc, row, log),
        Rows::Keywords => tell_keyword(alloc, row, log),
        Rows::Values => tell_values(alloc, row, log),
    }
}

fn is_right(alloc: Global, rows: Rows, row: &Value) -> Result<bool, OutOfMemory> {
    let mut log = String::new(alloc);
    let told = tell(alloc, rows, row, &mut log);
    let wanted = wanted_of(alloc, row);
    told?;
    Ok(log == wanted?)
}

/// The tables, each with the subject of its rows and its name.
const TABLES: [(Rows, &str, &str); 4] = [
    (Rows::Contexts, "contexts", CONTEXTS),
    (Rows::Kept, "kept paths", KEPT),
    (Rows::Keywords, "keywords", KEYWORDS),
    (Rows::Values, "values", VALUES),
];

/// Returns the name of the first table with a wrong row, and the row's number.
fn first_wrong(alloc: Global) -> Result<Option<(&'static str, usize)>, serde_json::Error> {
    for (rows, name, table) in &TABLES {
        if let Some(number) = wrong_row(alloc, table, |row| is_right(alloc, *rows, row))? {
            return Ok(Some((*name, number)));
        }
    }
    Ok(None)
}

#[test]
fn rows_hold(rt: HostRuntime) -> Result<(), serde_json::Error> {
    assert_eq!(rt; first_wrong(rt.alloc())?, None);
    Ok(())
}
