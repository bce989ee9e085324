//! The members of an object that is a keyword's value: their names and paths.
ghost use Rattle.std.specs.Prelude.{◌∷◌, [], map, string_bytes};
ghost use Rattle.std.specs.Rc.{rc_str_bytes};
ghost use Rattle.theory_definitions.specs.Instance.{to_member};
ghost use Rattle.keyword_makers.specs.Members.{names_of, values_below};
ghost use Rattle.schema_traits.specs.Readings.{AddsTexts, Lists, ListsTexts, fields};
ghost use Rattle.schema_traits.specs.Showing.{Yields};

use crate::paths::step_below;
use schema_reports::OutOfMemory;
use schema_traits::{SchemaPath, SchemaStep};
use serde_json::{Map, Value};
use std::alloc::Global;
use std::rc::RcStr;

/// Adds a string with this text.
pub fn push_text(alloc: Global, text: &str, texts: &mut Vec<String>) -> Result<(), OutOfMemory>
    ensures pushed { AddsTexts texts.old.items texts.new.items (text.now ∷ []) result }
{
    texts.push(String::from_str(alloc, text)?)?;
    Ok(())
}

/// Returns the names of the members, in order.
pub fn names_of(alloc: Global, members: &Map<String, Value>) -> Result<Vec<String>, OutOfMemory>
    ensures names { ListsTexts result (names_of (fields members.now)) }
{
    let mut names = Vec::new(alloc);
    for (name, _) in members {
        push_text(alloc, name.as_str(), &mut names)?;
    }
    Ok(names)
}

/// Returns the paths of the values with these names, below a keyword.
///
/// The paths share the keyword's name.
pub fn values_below(
    alloc: Global,
    keyword: &str,
    names: &[String],
) -> Result<Vec<SchemaPath>, OutOfMemory>
    ensures paths { Lists result (values_below keyword.now (map string_bytes names.now)) }
{
    let first = RcStr::from_str(alloc, keyword)?;
    let mut paths = Vec::with_capacity(alloc, names.len())?;
    for name in names {
        paths.push(member_of(alloc, &first, name.as_str())?)?;
    }
    Ok(paths)
}

/// Returns the paths of the values with these names, below a keyword.
///
/// The paths share the keyword's name, and each of them also shares the name that is given for it.
pub fn values_of(
    alloc: Global,
    keyword: &str,
    names: &[RcStr],
) -> Result<Vec<SchemaPath>, OutOfMemory>
    ensures paths { Lists result (values_below keyword.now (map rc_str_bytes names.now)) }
{
    let first = RcStr::from_str(alloc, keyword)?;
    let mut paths = Vec::with_capacity(alloc, names.len())?;
    for name in names {
        paths.push(step_below(alloc, &first, SchemaStep::Member(name.clone()?))?)?;
    }
    Ok(paths)
}

/// Returns the path of the value with this name, below a keyword.
pub fn member_below(alloc: Global, keyword: &str, name: &str) -> Result<SchemaPath, OutOfMemory>
    ensures path { Yields result (to_member keyword.now ∷ to_member name.now ∷ []) }
{
    let first = RcStr::from_str(alloc, keyword)?;
    member_of(alloc, &first, name)
}

/// The path shares the keyword's name.
fn member_of(alloc: Global, keyword: &RcStr, name: &str) -> Result<SchemaPath, OutOfMemory>
    ensures path { Yields result (to_member (rc_str_bytes keyword.now) ∷ to_member name.now ∷ []) }
{
    let step = SchemaStep::Member(RcStr::from_str(alloc, name)?);
    step_below(alloc, keyword, step)
}
