//! Tables of rows, and the test of each row.
//!
//! A row is right if its result is the text in its first column, or the texts there, one after the
//! other.
use crate::asking::tell_by;
use crate::failing_matcher_tests::{FAILURES, WANTING, tell_failure, tell_wanting};
use crate::growing_tests::{GROWING, tell_growing};
use crate::leaf_tests::{LEAVES, tell_leaf};
use crate::mark_tests::MARKS;
use crate::program_tests::{ANSWERS, FAULTS, WRITES, tell_program};
use crate::reservation_tests::{RESERVATIONS, tell_numbers};
use crate::vocabulary_tests::{VOCABULARIES, tell_names};
use keyword_makers::TableByValue;
use schema_reports::OutOfMemory;
use serde_json::Value;
use standard_basics::{BasicKeyword, BasicTable};
use std::alloc::Global;
use test_laws::{BothOnce, ItemsKeyword, ItemsTable};
use test_parts::MarkingTable;
use test_rows::{wanted_of, wrong_row};

/// The subject of a table's rows.
#[derive(Clone, Copy)]
pub(crate) enum Rows {
    Failures,
    Growing,
    Leaves,
    Marks,
    Program,
    Reservations,
    Retries,
    Vocabularies,
    Wanting,
}

fn tell(alloc: Global, rows: Rows, row: &Value, log: &mut String) -> Result<(), OutOfMemory> {
    match rows {
        Rows::Failures => tell_failure(alloc, row, log),
        Rows::Growing => tell_growing(alloc, row, log),
        Rows::Leaves => tell_leaf(alloc, row, log),
        Rows::Marks => tell_by::<BothOnce, TableByValue<MarkingTable>>(
            alloc,
            &TableByValue {
                keywords: MarkingTable {},
            },
            row,
            log,
        ),
        Rows::Program => tell_program(alloc, row, log),
        Rows::Reservations => {
            tell_numbers::<ItemsKeyword, ItemsTable>(alloc, &ItemsTable {}, row, log)
        }
        Rows::Retries => tell_by::<BasicKeyword, BasicTable>(alloc, &BasicTable {}, row, log),
        Rows::Vocabularies => tell_names(alloc, row, log),
        Rows::Wanting => tell_wanting(alloc, row, log),
    }
}

fn is_right(alloc: Global, rows: Rows, row: &Value) -> Result<bool, OutOfMemory> {
    let mut log = String::new(alloc);
    let told = tell(alloc, rows, row, &mut log);
    let wanted = wanted_of(alloc, row);
    told?;
    Ok(log == wanted?)
}

/// Returns the number of the first wrong row of a table.
pub(crate) fn wrong(
    alloc: Global,
    rows: Rows,
    table: &str,
) -> Result<Option<usize>, serde_json::Error> {
    wrong_row(alloc, table, |row| is_right(alloc, rows, row))
}

/// The tables, each with the subject of its rows and its name.
///
/// Each table says why its rows are not in `test_check_rows`.
const TABLES: [(Rows, &str, &str); 10] = [
    (Rows::Failures, "failures", FAILURES),
    (Rows::Growing, "growing", GROWING),
    (Rows::Leaves, "leaves", LEAVES),
    (Rows::Marks, "marks", MARKS),
    (Rows::Program, "answers", ANSWERS),
    (Rows::Program, "faults", FAULTS),
    (Rows::Program, "writes", WRITES),
    (Rows::Reservations, "reservations", RESERVATIONS),
    (Rows::Vocabularies, "vocabularies", VOCABULARIES),
    (Rows::Wanting, "wanting", WANTING),
];

/// Returns the name of the first table with a wrong row, and the row's number.
fn first_wrong(alloc: Global) -> Result<Option<(&'static str, usize)>, serde_json::Error> {
    for (rows, name, table) in &TABLES {
        if let Some(number) = wrong(alloc, *rows, table)? {
            return Ok(Some((*name, number)));
        }
    }
    Ok(None)
}

#[test]
fn rows_hold(rt: HostRuntime) -> Result<(), serde_json::Error> {
    assert_eq!(rt; first_wrong(rt.alloc())?, None);
    Ok(())
}
