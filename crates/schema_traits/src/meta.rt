//! The meta validators, which check schemas against their meta-schemas.
ghost use Rattle.std.specs.Prelude.{◌≡◌, Bool, Option, IfOk, IfSome, option_map, true, false};
ghost use Rattle.serde_json.specs.Data.{Data};
ghost use Rattle.serde_json.specs.Written.{has_float};
ghost use Rattle.serde_json.specs.View.{view};
ghost use Rattle.theory_definitions.specs.Drafts as drafts;
ghost use Rattle.theory_definitions.specs.Reports.{Error};
ghost use Rattle.schema_drafts.specs.KeywordViews.{draft_of};
ghost use Rattle.schema_reports.specs.ReportViews.{BorrowsItsPlace, error_of};

use schema_drafts::Draft;
use schema_reports::{OutOfMemory, ValidationError};
use serde_json::Value;
use std::alloc::Global;

/// A check of schemas against the meta-schemas of their drafts.
///
/// Its result is a function of its arguments. The contract covers the texts of its errors if the
/// schema holds no fraction.
pub trait MetaValidators {
    ghost checked: { Self → Bool → drafts.Draft → Data → Option Error };

    /// Returns the error of a schema, or `None` if its meta-schema accepts it.
    ///
    /// The error's instance is the value at its place in the schema.
    fn check<'v>(
        &self,
        alloc: Global,
        draft: Draft,
        schema: &'v Value,
    ) -> Result<Option<ValidationError<'v>>, OutOfMemory>
        ensures checked { IfOk result (λ o. (texts : Bool) → (texts ≡ true → has_float (view schema.now) ≡ false)
            → option_map (error_of texts) o ≡ checked self.now texts (draft_of draft) (view schema.now)) }
        ensures borrows { IfOk result (λ o. IfSome o (BorrowsItsPlace (view schema.now))) };
}
