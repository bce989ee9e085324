//! `multipleOf` (JSON Schema Validation 2020-12, 6.2.1).
ghost use Rattle.std.specs.Prelude.{◌≡◌};
ghost use Rattle.serde_json.specs.Find.{is_float};
ghost use Rattle.schema_reports.specs.InstanceViews.{subject_of};
ghost use Rattle.standard_assertions.specs.Multiples.{is_multiple, multiple_text};
ghost use Rattle.standard_assertions.specs.ShownTexts.{ShowsUnless};

use crate::numbers::HeldNumber;
use json_decimals::is_multiple_of;
use schema_reports::{Instance, OutOfMemory};
use std::alloc::Global;

/// Returns whether an instance is a multiple of the divisor, or is no number.
///
/// Each number stands for the decimal that was written, so 4.35 is a multiple of 0.01, and the
/// quotient is not rounded.
pub fn is_multiple(divisor: &HeldNumber, instance: Instance<'_>) -> bool
    ensures multiple { result ≡ is_multiple divisor.now (subject_of instance.entry) }
{
    match instance {
        Instance::Name(_) => true,
        Instance::Value(value) => match value.as_number() {
            Some(number) => is_multiple_of(number, divisor.as_number()),
            None => true,
        },
    }
}

/// Returns the error's text.
///
/// # Errors
///
/// Out of memory.
pub fn multiple_text(
    alloc: Global,
    divisor: &HeldNumber,
    instance: Instance<'_>,
) -> Result<String, OutOfMemory>
    ensures text { ShowsUnless (is_float divisor.now) instance.entry (multiple_text divisor.now) result }
{
    let mut text = instance.text(alloc)?;
    text.push_str(" is not a multiple of ")?;
    let divisor = divisor.text(alloc)?;
    text.push_str(divisor.as_str())?;
    Ok(text)
}
