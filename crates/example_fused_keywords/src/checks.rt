//! Checks of an array apart from its items.
ghost use Rattle.std.specs.Prelude.{◌≡◌, IfOk, decimal, OnOk};
ghost use Rattle.schema_reports.specs.InstanceViews.{subject_of};
ghost use Rattle.example_fused_keywords.specs.Checks.{counted_items, error_text, holds, name};
ghost use Rattle.keyword_authoring.specs.TextWords.{Adds, ShowsText};
ghost use Rattle.example_fused_keywords.specs.Borrowing.{KeepsAll};
ghost use Rattle.keyword_authoring.specs.Borrowing.{AlwaysBorrows};
ghost use Rattle.example_fused_keywords.specs.CheckWords.{IsAbsorbedUnit, IsErrorAt, IsOwnUnit, PushesError};

use keyword_authoring::{is_list, item_count};
use schema_reports::{AbsorbedResult, ErrorDescription, EvaluationResult, Instance, OutOfMemory};
use schema_traits::{Fault, OwnError};
use std::alloc::Global;

/// A check of an instance.
#[derive(Clone, Copy)]
pub enum Check {
    /// The instance is an array: `type` with the value "array".
    IsArray,
    /// The instance has at least this many items, or is no array: `minItems`.
    HasLeast(u64),
}

/// Returns the part of an error's text after the limit.
fn counted_items(limit: u64) -> &'static str
    ensures counted { result.now ≡ counted_items limit }
{
    if limit == 1 { " item" } else { " items" }
}

fn push_decimal(text: &mut String, number: u64) -> Result<(), OutOfMemory>
    ensures decimal { OnOk result (Adds (decimal number) text.old text.new) }
{
    write!(text, "{number}")
}

/// Returns an error of this name, at the keyword or at the absorbed one.
fn own_fault<'i>(
    alloc: Global,
    absorbed: bool,
    name: &str,
    text: String,
) -> Result<Fault<'i>, OutOfMemory>
    ensures own { IfOk result (IsErrorAt absorbed name.now text) }
    ensures borrows { IfOk result AlwaysBorrows }
{
    let at = if absorbed {
        Some(String::from_str(alloc, name)?)
    } else {
        None
    };
    Ok(Fault::Own(OwnError {
        absorbed: at,
        path: String::new(alloc),
        below: Vec::new(alloc),
        keyword: String::from_str(alloc, name)?,
        text,
    }))
}

impl Check {
    /// Returns the name of the check's keyword.
    pub fn name(self) -> &'static str
        ensures name { result.now ≡ name self }
    {
        match self {
            Check::IsArray => "type",
            Check::HasLeast(_) => "minItems",
        }
    }

    /// Returns whether the instance passes the check.
    pub fn holds(self, instance: Instance<'_>) -> bool
        ensures holds { result ≡ holds self (subject_of instance.entry) }
    {
        match self {
            Check::IsArray => is_list(instance),
            Check::HasLeast(limit) => !is_list(instance) || limit <= item_count(instance) as u64,
        }
    }

    /// Returns the text of the check's error.
    fn text(self, alloc: Global, instance: Instance<'_>) -> Result<String, OutOfMemory>
        ensures text { IfOk result (ShowsText instance.entry (error_text self)) }
    {
        let mut text = instance.text(alloc)?;
        match self {
            Check::IsArray => {
                text.push_str(" is not of type \"array\"")?;
                Ok(text)
            }
            Check::HasLeast(limit) => {
                text.push_str(" has less than ")?;
                push_decimal(&mut text, limit)?;
                text.push_str(counted_items(limit))?;
                Ok(text)
            }
        }
    }

    /// Adds the check's error, if the instance does not pass it.
    ///
    /// The error is at the keyword itself, or at the one that it absorbs.
    pub fn push_error<'i>(
        self,
        alloc: Global,
        absorbed: bool,
        instance: Instance<'i>,
        faults: &mut Vec<Fault<'i>>,
    ) -> Result<(), OutOfMemory>
        ensures pushed { OnOk result (PushesError absorbed self instance.entry faults.old.items faults.new.items) }
        ensures borrows { OnOk result (KeepsAll faults.old.items faults.new.items) }
    {
        if self.holds(instance) {
            return Ok(());
        }
        let text = self.text(alloc, instance)?;
        faults.push(own_fault(alloc, absorbed, self.name(), text)?)?;
        Ok(())
    }

    /// Returns the result of the check in an evaluation.
    pub fn result(
        self,
        alloc: Global,
        instance: Instance<'_>,
    ) -> Result<EvaluationResult, OutOfMemory>
        ensures unit { IfOk result (IsOwnUnit self instance.entry) }
    {
        if self.holds(instance) {
            return Ok(EvaluationResult::valid_empty(alloc));
        }
        let text = self.text(alloc, instance)?;
        let keyword = String::from_str(alloc, self.name())?;
        let mut errors = Vec::new(alloc);
        errors.push(ErrorDescription { keyword, text })?;
        Ok(EvaluationResult::invalid_empty(alloc, errors))
    }

    /// Returns the result of the check as that of an absorbed keyword.
    pub fn absorbed_result(
        self,
        alloc: Global,
        instance: Instance<'_>,
    ) -> Result<AbsorbedResult, OutOfMemory>
        ensures unit { IfOk result (IsAbsorbedUnit self instance.entry) }
    {
        Ok(AbsorbedResult {
            keyword: String::from_str(alloc, self.name())?,
            result: self.result(alloc, instance)?,
        })
    }
}
