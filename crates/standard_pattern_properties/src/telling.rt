//! The error of `additionalProperties`.
ghost use Rattle.std.specs.Prelude.{◌≡◌, [], map, string_bytes};
ghost use Rattle.standard_pattern_properties.specs.GatedKeywords.{in_quotes, unexpected_text, were_unexpected};
ghost use Rattle.schema_traits.specs.Showing.{Shows};
ghost use Rattle.schema_reports.specs.Showing.{Adds};

use schema_reports::OutOfMemory;
use std::alloc::Global;

/// Appends the names, each in quotes, with commas between them.
fn push_quoted(names: &[String], text: &mut String) -> Result<(), OutOfMemory>
    ensures pushed { Adds result text.old text.new (in_quotes [] (map string_bytes names.now)) }
{
    let mut before = "";
    for name in names {
        text.push_str(before)?;
        text.push_str("'")?;
        text.push_str(name.as_str())?;
        text.push_str("'")?;
        before = ", ";
    }
    Ok(())
}

/// Returns the end of the text, by the number of names.
fn were_unexpected(names: &[String]) -> &'static str
    ensures ends { result.now ≡ were_unexpected (map string_bytes names.now) }
{
    if names.len() == 1 {
        " was unexpected)"
    } else {
        " were unexpected)"
    }
}

/// Returns the error's text, which shows the unexpected names.
pub fn unexpected_text(alloc: Global, names: &[String]) -> Result<String, OutOfMemory>
    ensures text { Shows string_bytes result (unexpected_text (map string_bytes names.now)) }
{
    let mut text = String::from_str(alloc, "Additional properties are not allowed (")?;
    push_quoted(names, &mut text)?;
    text.push_str(were_unexpected(names))?;
    Ok(text)
}
