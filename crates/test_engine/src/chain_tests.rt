//! A thousand references, one inside the other.
//!
//! The rows of `test_check_rows` have two hundred, since the program that reads them is also built
//! by Rattle's own compiler, and then has no room for more on a usual stack.
use crate::asking::listed;
use schema_reports::OutOfMemory;
use serde_json::Value;
use std::alloc::Global;
use test_parts::row_of;
use test_rows::{number_at, text_at, units_counted};

/// Returns the list of a chain of this many references.
fn list_of_chain(alloc: Global, references: u16) -> Result<Value, serde_json::Error> {
    let row = row_of(alloc, references)?;
    let list = listed(alloc, &row);
    drop(row);
    Ok(list?)
}

/// Returns whether the counts of a list are those of a chain.
///
/// There are 1,002 units, one of them with errors, and the last one is below a thousand references.
fn tells_chain(alloc: Global, counted: &Value) -> Result<bool, OutOfMemory> {
    let mut path = "/$ref".repeat(alloc, 1000)?;
    path.push_str("/type")?;
    Ok(
        number_at(counted, 0) == Some(1002)
            && number_at(counted, 1) == Some(1)
            && text_at(counted, 2) == path.as_str(),
    )
}

#[test]
fn a_thousand_references_are_listed(rt: HostRuntime) -> Result<(), serde_json::Error> {
    let list = list_of_chain(rt.alloc(), 999)?;
    let counted = units_counted(rt.alloc(), &list);
    drop(list);
    let counted = counted?;
    let told = tells_chain(rt.alloc(), &counted);
    drop(counted);
    assert!(rt; told?);
    Ok(())
}
