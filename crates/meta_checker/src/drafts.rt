//! Meta validators with a checker for each draft that has one.
ghost use Rattle.std.specs.Prelude.{◌≡◌, Bool, IfOk, IfSome, is_some, option_copied, option_map, true, false};
ghost use Rattle.serde_json.specs.Written.{has_float};
ghost use Rattle.serde_json.specs.View.{view};
ghost use Rattle.schema_drafts.specs.KeywordViews.{draft_of};
ghost use Rattle.schema_reports.specs.ReportViews.{BorrowsItsPlace, error_of};
ghost use Rattle.meta_checker.specs.DraftChecks.{first_of, no_programs, program_of, unchecked_error, with_program};

use crate::checker::Checker;
use schema_drafts::Draft;
use schema_reports::{Instance, Location, OutOfMemory, Place, ValidationError};
use schema_traits::{Matcher, MetaValidators, Validate};
use serde_json::Value;
use std::alloc::Global;
use std::marker::Model;

/// A checker for each draft that has one. An unknown draft has the checker of 2020-12.
///
/// A draft without a checker accepts no schema but those that need no check.
#[derive(Drop)]
pub struct DraftCheckers<K: Validate, M: Matcher> {
    draft4: Option<Checker<K, M>>,
    draft6: Option<Checker<K, M>>,
    draft7: Option<Checker<K, M>>,
    draft2019_09: Option<Checker<K, M>>,
    draft2020_12: Option<Checker<K, M>>,
}

impl<K: Validate, M: Matcher> Model for DraftCheckers<K, M> {
    ghost use Rattle.std.specs.Coded.{codes};
    ghost use Rattle.serde_json.specs.contracts.value.Value as value;
    ghost use Rattle.meta_checker.specs.DraftChecks.{DraftPrograms};

    ghost Value = { DraftPrograms K M };

    ghost coded = { Prim.hlevel (codes, value.the_row.coded) };

    ghost view = { λ m. record {
      of_draft_4 = m.draft4;
      of_draft_6 = m.draft6;
      of_draft_7 = m.draft7;
      of_2019_09 = m.draft2019_09;
      of_2020_12 = m.draft2020_12;
    } };
}

/// Returns the error of the schema `false` about this schema.
fn refuse<'v>(alloc: Global, schema: &'v Value) -> Result<ValidationError<'v>, OutOfMemory>
    ensures error { IfOk result (λ e. (texts : Bool) → (texts ≡ true → has_float (view schema.now) ≡ false)
        → error_of texts e ≡ unchecked_error texts (view schema.now)) }
    ensures borrows { IfOk result (BorrowsItsPlace (view schema.now)) }
{
    let place = Place::root(alloc);
    let schema_path = Location::new(alloc);
    let path = Location::new(alloc);
    let instance = Instance::Value(schema);
    ValidationError::false_schema(alloc, instance, place, schema_path, path, None)
}

/// Returns the first error of a schema by a checker; without one there is an error.
fn check_by<'v, K: Validate, M: Matcher>(
    alloc: Global,
    checker: Option<&Checker<K, M>>,
    schema: &'v Value,
) -> Result<Option<ValidationError<'v>>, OutOfMemory>
    ensures checked { IfOk result (λ o. (texts : Bool) → (texts ≡ true → has_float (view schema.now) ≡ false)
        → option_map (error_of texts) o ≡ first_of K.Validate M.Matcher.own (option_copied checker.entry) texts (view schema.now)) }
    ensures borrows { IfOk result (λ o. IfSome o (BorrowsItsPlace (view schema.now))) }
{
    match checker {
        Some(checker) => checker.check(alloc, schema),
        None => Ok(Some(refuse(alloc, schema)?)),
    }
}

impl<K: Validate, M: Matcher> DraftCheckers<K, M> {
    /// Creates a value in which no draft has a checker. Does not allocate.
    pub fn new() -> DraftCheckers<K, M>
        ensures none { result ≡ no_programs }
    {
        DraftCheckers {
            draft4: None,
            draft6: None,
            draft7: None,
            draft2019_09: None,
            draft2020_12: None,
        }
    }

    /// Sets the checker of a draft.
    pub fn set(&mut self, draft: Draft, checker: Checker<K, M>)
        ensures set { self.new ≡ with_program self.old (draft_of draft) checker }
    {
        match draft {
            Draft::Draft4 => self.draft4 = Some(checker),
            Draft::Draft6 => self.draft6 = Some(checker),
            Draft::Draft7 => self.draft7 = Some(checker),
            Draft::Draft201909 => self.draft2019_09 = Some(checker),
            Draft::Draft202012 | Draft::Unknown => self.draft2020_12 = Some(checker),
        }
    }

    /// Returns whether a draft has a checker.
    pub fn has(&self, draft: Draft) -> bool
        ensures has { result ≡ is_some (program_of self.now (draft_of draft)) }
    {
        match self.of_draft(draft) {
            Some(_) => true,
            None => false,
        }
    }

    fn of_draft(&self, draft: Draft) -> Option<&Checker<K, M>>
        ensures program { option_copied result ≡ program_of self.now (draft_of draft) }
    {
        match draft {
            Draft::Draft4 => self.draft4.as_ref(),
            Draft::Draft6 => self.draft6.as_ref(),
            Draft::Draft7 => self.draft7.as_ref(),
            Draft::Draft201909 => self.draft2019_09.as_ref(),
            Draft::Draft202012 | Draft::Unknown => self.draft2020_12.as_ref(),
        }
    }
}

impl<K: Validate, M: Matcher> MetaValidators for DraftCheckers<K, M> {
    ghost use Rattle.meta_checker.specs.DraftChecks.{checked_by};

    ghost checked = { checked_by K.Validate M.Matcher.own };

    fn check<'v>(
        &self,
        alloc: Global,
        draft: Draft,
        schema: &'v Value,
    ) -> Result<Option<ValidationError<'v>>, OutOfMemory> {
        check_by(alloc, self.of_draft(draft), schema)
    }
}
