//! The places of a document's schemas: its objects and booleans.
//!
//! They are listed before any schema is compiled, so a map that leaves places out fails its proof
//! here.
ghost use Rattle.std.specs.Prelude.{◌≡◌, ◌++◌, ◌∷◌, [], IfOk, OnOk};
ghost use Rattle.serde_json.specs.View.{items_view, members_view, view};
ghost use Rattle.schema_traits.specs.SchemaViews.{schema_step_of};
ghost use Rattle.schema_keys.specs.Compiling.{Each};
ghost use Rattle.schema_keys.specs.DocumentSchemas.{IndicesFit, schemas_in, schemas_in_items};
ghost use Rattle.schema_keys.specs.DocumentSchemas.{schemas_in_members, StaysFit};
ghost use Rattle.schema_traits.specs.Showing.{Yields};

use schema_reports::OutOfMemory;
use schema_traits::{SchemaPath, SchemaStep};
use serde_json::{Map, Value};
use std::alloc::Global;
use std::rc::RcStr;

/// Returns the paths of a document's objects and booleans.
///
/// They are in the order of its text, outer ones first.
///
/// # Errors
///
/// Out of memory.
pub fn schemas_in(alloc: Global, document: &Value) -> Result<Vec<SchemaPath>, OutOfMemory>
    ensures schemas { IfOk result (λ v. v.items ≡ schemas_in [] (view document.now)) }
    ensures fit { IfOk result (λ v. Each IndicesFit v.items) }
{
    let mut paths = Vec::new(alloc);
    push_schemas(alloc, &SchemaPath::root(alloc), document, &mut paths)?;
    Ok(paths)
}

fn one_below(path: &SchemaPath, step: SchemaStep) -> Result<SchemaPath, OutOfMemory>
    ensures below { Yields result (path.now ++ schema_step_of step ∷ []) }
{
    let mut below = path.clone()?;
    below.push(step)?;
    Ok(below)
}

/// Appends the paths of the schemas in the value at a path.
#[cycle(walk)]
fn push_schemas(
    alloc: Global,
    path: &SchemaPath,
    value: &Value,
    paths: &mut Vec<SchemaPath>,
) -> Result<(), OutOfMemory>
    ensures added { OnOk result (paths.new.items ≡ paths.old.items ++ schemas_in path.now (view value.now)) }
    ensures fit { OnOk result (StaysFit path.now paths.old.items paths.new.items) }
{
    match value {
        Value::Bool(_) => {
            paths.push(path.clone()?)?;
            Ok(())
        }
        Value::Object(members) => {
            paths.push(path.clone()?)?;
            push_member_schemas(alloc, path, members, paths)
        }
        Value::Array(items) => push_item_schemas(alloc, path, items, paths),
        _ => Ok(()),
    }
}

/// Appends those in the items of the array at a path.
#[cycle(walk)]
fn push_item_schemas(
    alloc: Global,
    path: &SchemaPath,
    items: &Vec<Value>,
    paths: &mut Vec<SchemaPath>,
) -> Result<(), OutOfMemory>
    ensures added { OnOk result (paths.new.items ≡ paths.old.items ++ schemas_in_items path.now 0 (items_view items.now.items)) }
    ensures fit { OnOk result (StaysFit path.now paths.old.items paths.new.items) }
{
    for (index, item) in items.iter().enumerate() {
        let below = one_below(path, SchemaStep::Item(index))?;
        push_schemas(alloc, &below, item, paths)?;
    }
    Ok(())
}

/// Appends those in the members of the object at a path.
#[cycle(walk)]
fn push_member_schemas(
    alloc: Global,
    path: &SchemaPath,
    members: &Map<String, Value>,
    paths: &mut Vec<SchemaPath>,
) -> Result<(), OutOfMemory>
    ensures added { OnOk result (paths.new.items ≡ paths.old.items ++ schemas_in_members path.now (members_view members.now.entries)) }
    ensures fit { OnOk result (StaysFit path.now paths.old.items paths.new.items) }
{
    for (name, member) in members.iter() {
        let step = SchemaStep::Member(RcStr::from_str(alloc, name.as_str())?);
        let below = one_below(path, step)?;
        push_schemas(alloc, &below, member, paths)?;
        drop(below);
    }
    Ok(())
}
