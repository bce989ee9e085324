//! Meta validators that check nothing.
use schema_drafts::Draft;
use schema_reports::{OutOfMemory, ValidationError};
use schema_traits::MetaValidators;
use serde_json::Value;
use std::alloc::Global;

/// Accepts every schema.
///
/// The meta-schemas are built with it, since their build requests no check.
#[derive(Drop)]
pub(crate) struct NoMeta {}

impl MetaValidators for NoMeta {
    ghost use Rattle.std.specs.Prelude.{None};

    ghost checked = { λ _ _ _ _. None };

    fn check<'v>(
        &self,
        alloc: Global,
        draft: Draft,
        schema: &'v Value,
    ) -> Result<Option<ValidationError<'v>>, OutOfMemory> {
        Ok(None)
    }
}
