//! The limits of numbers (JSON Schema Validation 2020-12, 6.2.2 to 6.2.5).
//!
//! They are `minimum`, `maximum`, `exclusiveMinimum` and `exclusiveMaximum`.
ghost use Rattle.std.specs.Prelude.{◌≡◌};
ghost use Rattle.serde_json.specs.Find.{is_float};
ghost use Rattle.serde_json.specs.View.{number_view};
ghost use Rattle.schema_reports.specs.InstanceViews.{subject_of};
ghost use Rattle.standard_assertions.specs.Limits.{is_within, keeps_limit, limit_name, limit_text, limit_words};
ghost use Rattle.standard_assertions.specs.ShownTexts.{ShowsUnless};

use crate::numbers::HeldNumber;
use json_values::{is_at_most, is_less};
use schema_reports::{Instance, OutOfMemory};
use serde_json::Number;
use std::alloc::Global;

/// A keyword that limits numbers.
#[derive(Clone, Copy)]
pub enum LimitKind {
    Minimum,
    Maximum,
    ExclusiveMinimum,
    ExclusiveMaximum,
    /// Draft 4's `minimum` beside an `exclusiveMinimum` that is true.
    MinimumExcluded,
    /// Draft 4's `maximum` beside an `exclusiveMaximum` that is true.
    MaximumExcluded,
}

impl LimitKind {
    /// Returns the keyword's name.
    pub fn name(self) -> &'static str
        ensures name { result.now ≡ limit_name self }
    {
        match self {
            LimitKind::Minimum | LimitKind::MinimumExcluded => "minimum",
            LimitKind::Maximum | LimitKind::MaximumExcluded => "maximum",
            LimitKind::ExclusiveMinimum => "exclusiveMinimum",
            LimitKind::ExclusiveMaximum => "exclusiveMaximum",
        }
    }

    /// Returns the words before the limit in the error's text.
    fn words(self) -> &'static str
        ensures words { result.now ≡ limit_words self }
    {
        match self {
            LimitKind::Minimum => " is less than the minimum of ",
            LimitKind::Maximum => " is greater than the maximum of ",
            LimitKind::ExclusiveMinimum | LimitKind::MinimumExcluded => {
                " is less than or equal to the minimum of "
            }
            LimitKind::ExclusiveMaximum | LimitKind::MaximumExcluded => {
                " is greater than or equal to the maximum of "
            }
        }
    }

    /// Returns whether a number is on the right side of the limit.
    fn is_within(self, limit: &Number, number: &Number) -> bool
        ensures within { result ≡ is_within self (number_view limit.now) (number_view number.now) }
    {
        match self {
            LimitKind::Minimum => is_at_most(limit, number),
            LimitKind::Maximum => is_at_most(number, limit),
            LimitKind::ExclusiveMinimum | LimitKind::MinimumExcluded => is_less(limit, number),
            LimitKind::ExclusiveMaximum | LimitKind::MaximumExcluded => is_less(number, limit),
        }
    }
}

/// Returns whether an instance is within a limit, or is no number.
pub fn keeps_limit(kind: LimitKind, limit: &HeldNumber, instance: Instance<'_>) -> bool
    ensures keeps { result ≡ keeps_limit kind limit.now (subject_of instance.entry) }
{
    match instance {
        Instance::Name(_) => true,
        Instance::Value(value) => match value.as_number() {
            Some(number) => kind.is_within(limit.as_number(), number),
            None => true,
        },
    }
}

/// Returns the error's text.
///
/// # Errors
///
/// Out of memory.
pub fn limit_text(
    alloc: Global,
    kind: LimitKind,
    limit: &HeldNumber,
    instance: Instance<'_>,
) -> Result<String, OutOfMemory>
    ensures text { ShowsUnless (is_float limit.now) instance.entry (limit_text kind limit.now) result }
{
    let mut text = instance.text(alloc)?;
    text.push_str(kind.words())?;
    let limit = limit.text(alloc)?;
    text.push_str(limit.as_str())?;
    Ok(text)
}
