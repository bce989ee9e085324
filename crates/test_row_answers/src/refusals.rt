//! The reasons why there is no validator.

use schema_engine::OutOfMemory;
use schema_keys::BuildError;
use serde_json::{Value, json};
use std::alloc::{AllocError, Global};
use test_rows::text_or_null;

// Returns the place of a refusal that has one: a location in the schema, the schema path of a
// table's error, or an instance path of the meta validators.
fn place_of(error: &BuildError) -> Option<&str> {
    match error {
        BuildError::NotASchema(location) => Some(location.as_str()),
        BuildError::ReferenceNotText(location) => Some(location.as_str()),
        BuildError::KeywordRefused(error) => Some(error.schema_path.as_str()),
        BuildError::MetaSchema(error) => Some(error.instance_path.as_str()),
        _ => None,
    }
}

// Returns the number, the place and the text of a refusal.
fn parts_of(alloc: Global, error: &BuildError) -> Result<Value, OutOfMemory> {
    if matches!(error, BuildError::OutOfMemory) {
        return Err(AllocError);
    }
    let number = error.number();
    let place = text_or_null(alloc, place_of(error))?;
    let text = format!(in alloc; "{error}")?;
    json!(in alloc; {"refused": number, "at": place, "text": text})
}

pub(crate) fn refusal(alloc: Global, error: BuildError) -> Result<Value, OutOfMemory> {
    let parts = parts_of(alloc, &error);
    drop(error);
    parts
}
