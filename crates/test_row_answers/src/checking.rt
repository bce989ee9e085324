//! The check of a schema by the meta validators alone.

use crate::refusals::refusal;
use crate::setting::{default_draft, resolver_of};
use bench_parts::BenchMeta;
use schema_engine::OutOfMemory;
use schema_keys::{BuildError, validate_schema};
use serde_json::Value;
use standard_resolver::root_place;
use std::alloc::Global;
use test_rows::{Case, text_or_null};

// Checks a case's schema, as one of its default draft, by the meta validators.
fn check_of(alloc: Global, case: &Case<'_>) -> Result<(), BuildError> {
    let resolver = resolver_of(alloc, case)?;
    let draft = default_draft(case);
    validate_schema(alloc, &resolver, &BenchMeta {}, draft, &root_place(alloc))
}

// Returns the instance path of the error by which the meta validators refuse a case's schema, or
// `null` if they accept it.
pub(crate) fn checked(alloc: Global, case: &Case<'_>) -> Result<Value, OutOfMemory> {
    match check_of(alloc, case) {
        Ok(()) => Ok(Value::Null),
        Err(BuildError::MetaSchema(error)) => {
            let path = text_or_null(alloc, Some(error.instance_path.as_str()));
            drop(error);
            path
        }
        Err(error) => refusal(alloc, error),
    }
}
