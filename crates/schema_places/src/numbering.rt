//! Builds the rows of a value: one for each of its places, in the order of their numbers.
ghost use Rattle.std.specs.Prelude.{◌≡◌, ◌++◌, OnOk, length};
ghost use Rattle.schema_reports.specs.Showing.{Yields};
ghost use Rattle.serde_json.specs.Data.{array, object};
ghost use Rattle.serde_json.specs.View.{items_view, members_view, view};
ghost use Rattle.schema_places.specs.Rows.{NamesAscend, NamesAscendInItems, NamesAscendInMembers, member_rows, rows_at};

use crate::rows::Table;
use schema_reports::OutOfMemory;
use serde_json::{Map, Value};
use std::alloc::Global;

// The number of rows that a new table has room for. A small instance needs no more.
const FIRST_ROWS: usize = 64;

// The number of item and name numbers that a new table has room for.
const FIRST_NUMBERS: usize = 32;

/// Builds the rows of a value.
pub(crate) fn lay_out<'i>(alloc: Global, value: &'i Value) -> Result<Table<'i>, OutOfMemory>
    ensures rows { Yields result (rows_at 0 (view value.now)) }
    ensures ascend { OnOk result (NamesAscend (view value.now)) }
{
    let mut table = Table::with_room(alloc, FIRST_ROWS, FIRST_NUMBERS)?;
    push_value(value, &mut table)?;
    Ok(table)
}

// Adds the rows of a value and of everything below it. Inlined into the loops below, so that a
// value that is neither an array nor an object costs no call.
#[cycle(number)]
#[inline(always)]
fn push_value<'i>(value: &'i Value, table: &mut Table<'i>) -> Result<(), OutOfMemory>
    ensures rows { OnOk result (table.new ≡ table.old ++ rows_at (length table.old) (view value.now)) }
    ensures ascend { OnOk result (NamesAscend (view value.now)) }
{
    match value {
        Value::Array(items) => {
            if items.is_empty() {
                return table.push_row();
            }
            push_items(items, table)
        }
        Value::Object(members) => {
            if members.is_empty() {
                return table.push_row();
            }
            push_members(members, table)
        }
        _ => table.push_row(),
    }
}

// Adds the rows of an array and of everything below it.
#[cycle(number)]
fn push_items<'i>(items: &'i Vec<Value>, table: &mut Table<'i>) -> Result<(), OutOfMemory>
    ensures rows { OnOk result (table.new ≡ table.old ++ rows_at (length table.old) (array (items_view items.now.items))) }
    ensures ascend { OnOk result (NamesAscendInItems (items_view items.now.items)) }
{
    let place = table.len();
    table.push_row()?;
    table.reserve(items.len())?;
    for item in items {
        push_value(item, table)?;
    }
    table.put_items(place, items.len())?;
    Ok(())
}

// Adds the rows of an object and of everything below it.
#[cycle(number)]
fn push_members<'i>(
    members: &'i Map<String, Value>,
    table: &mut Table<'i>,
) -> Result<(), OutOfMemory>
    ensures rows { OnOk result (table.new ≡ table.old ++ rows_at (length table.old) (object (members_view members.now.entries))) }
    ensures ascend { OnOk result (NamesAscendInMembers (members_view members.now.entries)) }
{
    let place = table.len();
    table.push_row()?;
    push_parts(members, table)?;
    table.put_members(place, members.len())?;
    Ok(())
}

// Adds the rows of an object's members and of their names. Many objects have a single member, which
// needs no iterator.
#[cycle(number)]
#[inline(always)]
fn push_parts<'i>(members: &'i Map<String, Value>, table: &mut Table<'i>) -> Result<(), OutOfMemory>
    ensures rows { OnOk result (table.new ≡ table.old ++ member_rows (length table.old) (members_view members.now.entries)) }
    ensures ascend { OnOk result (NamesAscendInMembers (members_view members.now.entries)) }
{
    if members.len() == 1 {
        if let Some((only_name, only_member)) = members.first_key_value() {
            table.push_name(only_name.as_str())?;
            push_value(only_member, table)?;
            return Ok(());
        }
    }
    push_each(members, table)
}

// Like `push_parts`, but iterates over any number of members.
#[cycle(number)]
#[inline(never)]
fn push_each<'i>(members: &'i Map<String, Value>, table: &mut Table<'i>) -> Result<(), OutOfMemory>
    ensures rows { OnOk result (table.new ≡ table.old ++ member_rows (length table.old) (members_view members.now.entries)) }
    ensures ascend { OnOk result (NamesAscendInMembers (members_view members.now.entries)) }
{
    table.reserve(members.len().saturating_mul(2))?;
    for (name, member) in members.iter() {
        table.push_name(name.as_str())?;
        push_value(member, table)?;
    }
    Ok(())
}
