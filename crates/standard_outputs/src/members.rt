//! The members of objects.
ghost use Rattle.serde_json.specs.Data.{put, string};
ghost use Rattle.serde_json.specs.View.{view};
ghost use Rattle.standard_outputs.specs.CodeViews.{Makes};

use schema_reports::OutOfMemory;
use serde_json::{Map, Value};
use std::alloc::Global;

/// Sets the value of a name, and replaces one that is there.
pub(crate) fn put_value(
    alloc: Global,
    object: &mut Map<String, Value>,
    name: &str,
    value: Value,
) -> Result<(), OutOfMemory>
    ensures put { Makes result object.old.entries object.new.entries (put name.now (view value)) }
{
    let name = String::from_str(alloc, name)?;
    drop(object.insert(name, value)?);
    Ok(())
}

/// Sets the text of a name, and replaces a value that is there.
pub(crate) fn put_text(
    alloc: Global,
    object: &mut Map<String, Value>,
    name: &str,
    text: &str,
) -> Result<(), OutOfMemory>
    ensures put { Makes result object.old.entries object.new.entries (put name.now (string text.now)) }
{
    let text = String::from_str(alloc, text)?;
    put_value(alloc, object, name, Value::String(text))
}
