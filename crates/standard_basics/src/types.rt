//! The keyword `type`.
ghost use Rattle.std.specs.Prelude.{◌≡◌, ◌++◌, codes, IfOk};
ghost use Rattle.schema_reports.specs.InstanceViews.{subject_of};
ghost use Rattle.standard_basics.specs.TypeNames.{fits_one, type_name};
ghost use Rattle.standard_basics.specs.Words.{more_names, names_text, type_text, types_text};
ghost use Rattle.standard_basics.specs.BasicShape.{has_type, has_types};
ghost use Rattle.keyword_authoring.specs.TextWords.{ShowsText};
ghost use Rattle.standard_basics.specs.Telling.{Adds, TellsOwn};
ghost use Rattle.keyword_authoring.specs.Borrowing.{Retains};

use crate::type_names::TypeName;
use keyword_authoring::{note, refuse};
use schema_reports::{Instance, OutOfMemory};
use schema_traits::{Answer, Mode};
use std::alloc::Global;

/// Reports an error unless the instance has the type.
pub fn tell_type<'i>(
    alloc: Global,
    name: TypeName,
    mode: Mode,
    instance: Instance<'i>,
    answer: &mut Answer<'i>,
) -> Result<(), OutOfMemory>
    ensures told { TellsOwn (has_type name) instance.entry mode answer.old answer.new result }
    ensures borrows { Retains answer.old answer.new result }
{
    if name.fits(instance) {
        return Ok(());
    }
    if mode == Mode::Verdict {
        refuse(alloc, answer);
        return Ok(());
    }
    let text = type_text(alloc, name, instance)?;
    note(alloc, mode, "type", text, answer)
}

/// Returns the error's text for one type.
pub fn type_text(
    alloc: Global,
    name: TypeName,
    instance: Instance<'_>,
) -> Result<String, OutOfMemory>
    ensures text { IfOk result (ShowsText instance.entry (type_text name)) }
{
    let mut text = instance.text(alloc)?;
    text.push_str(" is not of type \"")?;
    text.push_str(name.as_str())?;
    text.push_str("\"")?;
    Ok(text)
}

/// Reports an error unless the instance has one of the types.
pub fn tell_types<'i>(
    alloc: Global,
    names: &[TypeName],
    mode: Mode,
    instance: Instance<'i>,
    answer: &mut Answer<'i>,
) -> Result<(), OutOfMemory>
    ensures told { TellsOwn (has_types names.now) instance.entry mode answer.old answer.new result }
    ensures borrows { Retains answer.old answer.new result }
{
    if fits_one(names, instance) {
        return Ok(());
    }
    if mode == Mode::Verdict {
        refuse(alloc, answer);
        return Ok(());
    }
    let text = types_text(alloc, names, instance)?;
    note(alloc, mode, "type", text, answer)
}

/// Returns whether the instance has one of the types.
pub fn fits_one(names: &[TypeName], instance: Instance<'_>) -> bool
    ensures fits { result ≡ fits_one names.now (subject_of instance.entry) }
{
    names.iter().any(|name| name.fits(instance))
}

/// Returns the error's text for a list of types.
pub fn types_text(
    alloc: Global,
    names: &[TypeName],
    instance: Instance<'_>,
) -> Result<String, OutOfMemory>
    ensures text { IfOk result (ShowsText instance.entry (types_text names.now)) }
{
    let mut text = instance.text(alloc)?;
    text.push_str(" is not of types ")?;
    push_names(names, &mut text)?;
    Ok(text)
}

/// Appends the names, each in quotes, with commas between them.
fn push_names(names: &[TypeName], text: &mut String) -> Result<(), OutOfMemory>
    ensures pushed { Adds result text.old text.new (names_text names.now) }
{
    if names.is_empty() {
        return Ok(());
    }
    push_name("\"", names[0], text)?;
    push_more(&names[1..], text)
}

/// Appends the names after the first.
fn push_more(names: &[TypeName], text: &mut String) -> Result<(), OutOfMemory>
    ensures pushed { Adds result text.old text.new (more_names names.now) }
{
    for name in names {
        push_name(", \"", *name, text)?;
    }
    Ok(())
}

fn push_name(before: &str, name: TypeName, text: &mut String) -> Result<(), OutOfMemory>
    ensures pushed { Adds result text.old text.new (before.now ++ type_name name ++ codes "\"") }
{
    text.push_str(before)?;
    text.push_str(name.as_str())?;
    text.push_str("\"")
}
