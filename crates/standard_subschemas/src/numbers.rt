//! Lists whose elements are found by a text.
ghost use Rattle.std.specs.Prelude.{OnOk};
ghost use Rattle.std.specs.HashMap.{get_by_text};
ghost use Rattle.schema_traits.specs.Readings.{text_read};
ghost use Rattle.standard_subschemas.specs.DocumentKeys.{NumbersNext};

use schema_reports::OutOfMemory;
use std::alloc::Global;
use std::collections::HashMap;

/// Records the number of the next element under its text.
///
/// An earlier element with the same text keeps its entry.
///
/// # Errors
///
/// Out of memory.
pub fn add_number(
    alloc: Global,
    numbers: &mut HashMap<String, usize>,
    text: Option<&str>,
    number: usize,
) -> Result<(), OutOfMemory>
    ensures added { OnOk result (NumbersNext (get_by_text numbers.old) (get_by_text numbers.new) number (text_read text.entry)) }
{
    if let Some(text) = text {
        if numbers.get(text).is_none() {
            numbers.insert(String::from_str(alloc, text)?, number)?;
        }
    }
    Ok(())
}
