//! The children of `if`.
ghost use Rattle.std.specs.Prelude.{IfOk, OnOk};
ghost use Rattle.keyword_makers.specs.Branches.{branch_child, has_branch, AddsBranch, HasElse, HasIfPlaces, HasThen};
ghost use Rattle.schema_traits.specs.Showing.{Yields};
ghost use Rattle.schema_traits.specs.Readings.{fields};

use crate::paths::{value_in, value_of};
use schema_reports::OutOfMemory;
use schema_traits::SchemaPath;
use serde_json::{Map, Value};
use std::alloc::Global;

/// The children of `if`: its own value, which comes first, and its branches.
#[derive(Drop)]
pub struct Branches {
    /// The paths of the children, in order.
    pub paths: Vec<SchemaPath>,
    /// The number of the child under `then`, if there is one.
    pub accepted: Option<usize>,
    /// The number of the child under `else`, if there is one.
    pub refused: Option<usize>,
}

/// Adds the path of a member and returns its number, if the object has it.
fn push_branch(
    alloc: Global,
    object: &Map<String, Value>,
    name: &str,
    paths: &mut Vec<SchemaPath>,
    number: usize,
) -> Result<Option<usize>, OutOfMemory>
    ensures paths { OnOk result (AddsBranch name.now (fields object.now) paths.old.items paths.new.items) }
    ensures child { Yields result (branch_child (has_branch name.now (fields object.now)) number) }
{
    match value_in(object, name) {
        None => Ok(None),
        Some(_) => {
            paths.push(value_of(alloc, name)?)?;
            Ok(Some(number))
        }
    }
}

/// Returns the children of `if` in an object. `name` is the keyword's name.
pub fn branches_of(
    alloc: Global,
    name: &str,
    object: &Map<String, Value>,
) -> Result<Branches, OutOfMemory>
    ensures paths { IfOk result (HasIfPlaces name.now (fields object.now)) }
    ensures accepted { IfOk result (HasThen (fields object.now)) }
    ensures refused { IfOk result (HasElse (fields object.now)) }
{
    let mut paths = Vec::new(alloc);
    paths.push(value_of(alloc, name)?)?;
    let accepted = push_branch(alloc, object, "then", &mut paths, 1)?;
    let last = if accepted.is_some() { 2 } else { 1 };
    let refused = push_branch(alloc, object, "else", &mut paths, last)?;
    Ok(Branches {
        paths,
        accepted,
        refused,
    })
}
