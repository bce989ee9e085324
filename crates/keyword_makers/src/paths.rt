//! The values of members, and paths below a keyword.
ghost use Rattle.std.specs.Prelude.{◌≡◌, ◌∷◌, []};
ghost use Rattle.std.specs.Rc.{rc_str_bytes};
ghost use Rattle.serde_json.specs.Find.{get_member};
ghost use Rattle.serde_json.specs.View.{items_view};
ghost use Rattle.theory_definitions.specs.Instance.{to_member};
ghost use Rattle.schema_traits.specs.SchemaViews.{schema_step_of};
ghost use Rattle.keyword_makers.specs.Making.{items_from};
ghost use Rattle.schema_traits.specs.Readings.{Lists, fields, value_read};
ghost use Rattle.schema_traits.specs.Showing.{Yields};

use schema_reports::OutOfMemory;
use schema_traits::{SchemaPath, SchemaStep};
use serde_json::{Map, Value};
use std::alloc::Global;
use std::rc::RcStr;

/// Returns the value with this name in an object.
pub fn value_in<'o>(object: &'o Map<String, Value>, name: &str) -> Option<&'o Value>
    ensures value { value_read result ≡ get_member name.now (fields object.now) }
{
    object.get(name)
}

/// Returns the path of a keyword's own value.
pub fn value_of(alloc: Global, keyword: &str) -> Result<SchemaPath, OutOfMemory>
    ensures path { Yields result (to_member keyword.now ∷ []) }
{
    let name = RcStr::from_str(alloc, keyword)?;
    let mut path = SchemaPath::with_capacity(alloc, 1)?;
    path.push(SchemaStep::Member(name))?;
    Ok(path)
}

/// Returns the path one step below a keyword, whose name it shares.
pub(crate) fn step_below(
    alloc: Global,
    keyword: &RcStr,
    step: SchemaStep,
) -> Result<SchemaPath, OutOfMemory>
    ensures path { Yields result (to_member (rc_str_bytes keyword.now) ∷ schema_step_of step ∷ []) }
{
    let mut path = SchemaPath::with_capacity(alloc, 2)?;
    path.push(SchemaStep::Member(keyword.clone()?))?;
    path.push(step)?;
    Ok(path)
}

/// Returns the paths of an array's items below a keyword, whose name they share.
pub fn items_below(
    alloc: Global,
    keyword: &str,
    items: &[Value],
) -> Result<Vec<SchemaPath>, OutOfMemory>
    ensures paths { Lists result (items_from keyword.now 0 (items_view items.now)) }
{
    let first = RcStr::from_str(alloc, keyword)?;
    let mut paths = Vec::with_capacity(alloc, items.len())?;
    for (index, _item) in items.iter().enumerate() {
        paths.push(step_below(alloc, &first, SchemaStep::Item(index))?)?;
    }
    Ok(paths)
}
