//! The text of an error that `anyOf` and `oneOf` share.
ghost use Rattle.std.specs.Prelude.{IfOk};
ghost use Rattle.schema_applicators.specs.Words.{none_text};
ghost use Rattle.keyword_authoring.specs.TextWords.{ShowsText};

use schema_reports::{Instance, OutOfMemory};
use std::alloc::Global;

/// Returns the error's text for an instance that no schema of a list accepts.
pub fn none_text(alloc: Global, name: &str, instance: Instance<'_>) -> Result<String, OutOfMemory>
    ensures text { IfOk result (ShowsText instance.entry (none_text name.now)) }
{
    let mut text = instance.text(alloc)?;
    text.push_str(" is not valid under any of the schemas listed in the '")?;
    text.push_str(name)?;
    text.push_str("' keyword")?;
    Ok(text)
}
