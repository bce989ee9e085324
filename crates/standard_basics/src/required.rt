//! The keyword `required`.
ghost use Rattle.std.specs.Prelude.{◌≡◌, map, string_bytes};
ghost use Rattle.schema_reports.specs.InstanceViews.{subject_of};
ghost use Rattle.standard_basics.specs.Words.{required_text, lacks};
ghost use Rattle.standard_basics.specs.Telling.{TellsMissing, lacks_one};
ghost use Rattle.schema_traits.specs.Showing.{Shows};
ghost use Rattle.keyword_authoring.specs.Borrowing.{Retains};

use keyword_authoring::{has_member, is_object, note, refuse};
use schema_reports::{Instance, OutOfMemory};
use schema_traits::{Answer, Mode};
use std::alloc::Global;

/// Reports an error for each name that the object lacks, in order.
pub fn tell_required<'i>(
    alloc: Global,
    names: &[String],
    mode: Mode,
    instance: Instance<'i>,
    answer: &mut Answer<'i>,
) -> Result<(), OutOfMemory>
    ensures told { TellsMissing (map string_bytes names.now) instance.entry mode answer.old answer.new result }
    ensures borrows { Retains answer.old answer.new result }
{
    if mode == Mode::Verdict {
        if lacks_one(names, instance) {
            refuse(alloc, answer);
        }
        return Ok(());
    }
    for name in names {
        if is_missing(name, instance) {
            let text = required_text(alloc, name.as_str())?;
            note(alloc, mode, "required", text, answer)?;
        }
    }
    Ok(())
}

/// Returns whether the instance is an object that lacks one of these members.
pub fn lacks_one(names: &[String], instance: Instance<'_>) -> bool
    ensures lacks { result ≡ lacks_one names.now instance.entry }
{
    names.iter().any(|name| is_missing(name, instance))
}

/// Returns whether the instance is an object without this member.
fn is_missing(name: &String, instance: Instance<'_>) -> bool
    ensures missing { result ≡ lacks (string_bytes name.now) (subject_of instance.entry) }
{
    is_object(instance) && !has_member(instance, name.as_str())
}

/// Returns the error's text.
pub fn required_text(alloc: Global, name: &str) -> Result<String, OutOfMemory>
    ensures text { Shows string_bytes result (required_text name.now) }
{
    let mut text = Instance::Name(name).text(alloc)?;
    text.push_str(" is a required property")?;
    Ok(text)
}
