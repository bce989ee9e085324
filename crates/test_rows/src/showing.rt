//! The results of the engine, as values.

use schema_output::Evaluation;
use schema_reports::{ErrorIterator, OutOfMemory, ValidationError};
use serde_json::{Value, json};
use std::alloc::Global;

/// Returns a text, or `null` if there is none.
pub fn text_or_null(alloc: Global, text: Option<&str>) -> Result<Value, OutOfMemory> {
    match text {
        Some(text) => Value::try_from_str(alloc, text),
        None => Ok(Value::Null),
    }
}

// Returns these texts, as values.
fn texts_of(alloc: Global, texts: &[&str]) -> Result<Vec<Value>, OutOfMemory> {
    let mut values = Vec::new(alloc);
    for text in texts {
        values.push(Value::try_from_str(alloc, *text)?)?;
    }
    Ok(values)
}

// Returns the instance path, the schema path, the evaluation path and the text of an error.
fn texts_in(alloc: Global, error: &ValidationError<'_>) -> Result<Vec<Value>, OutOfMemory> {
    let place = error.instance_path(alloc)?;
    let texts = texts_of(
        alloc,
        &[
            place.as_str(),
            error.schema_path.as_str(),
            error.evaluation_path.as_str(),
            error.text.as_str(),
        ],
    );
    drop(place);
    texts
}

// Returns the absolute location of an error, or `null`.
fn absolute_of(alloc: Global, error: &ValidationError<'_>) -> Result<Value, OutOfMemory> {
    match &error.absolute_keyword_location {
        Some(location) => Value::try_from_str(alloc, location.as_str()),
        None => Ok(Value::Null),
    }
}

// Returns the columns of an error: its instance path, schema path, evaluation path, text, absolute
// location or `null`, and instance.
fn columns_of(alloc: Global, error: &ValidationError<'_>) -> Result<Value, OutOfMemory> {
    let mut columns = texts_in(alloc, error)?;
    columns.push(absolute_of(alloc, error)?)?;
    columns.push(error.instance.to_value(alloc)?)?;
    Ok(Value::Array(columns))
}

/// Returns the error that refuses an instance, or `null`.
pub fn first_in(
    alloc: Global,
    verdict: Result<(), ValidationError<'_>>,
) -> Result<Value, OutOfMemory> {
    match verdict {
        Ok(()) => Ok(Value::Null),
        Err(error) => columns_of(alloc, &error),
    }
}

/// Returns all errors.
pub fn errors_in(alloc: Global, errors: ErrorIterator<'_>) -> Result<Vec<Value>, OutOfMemory> {
    let mut values = Vec::new(alloc);
    for error in errors {
        values.push(columns_of(alloc, &error)?)?;
    }
    Ok(values)
}

/// Returns the list of an evaluation if its verdict is `valid`.
///
/// Otherwise returns both verdicts.
pub fn list_in(alloc: Global, evaluation: &Evaluation, valid: bool) -> Result<Value, OutOfMemory> {
    let evaluated = evaluation.is_valid();
    if evaluated == valid {
        return evaluation.list(alloc);
    }
    json!(in alloc; {"disagree": {"is_valid": valid, "evaluate": evaluated}})
}

/// Returns the errors of an evaluation, each with its evaluation path and text.
pub fn shown_in(alloc: Global, evaluation: &Evaluation) -> Result<Value, OutOfMemory> {
    let mut errors = Vec::new(alloc);
    for entry in evaluation.iter_errors(alloc)? {
        let path = entry.unit.evaluation_path.as_str();
        let texts = texts_of(alloc, &[path, entry.error.text.as_str()])?;
        errors.push(Value::Array(texts))?;
    }
    Ok(Value::Array(errors))
}

// Returns a copy of a value, or `null` if there is none.
fn copy_of(value: Option<&Value>) -> Result<Value, OutOfMemory> {
    match value {
        Some(value) => value.clone(),
        None => Ok(Value::Null),
    }
}

/// Returns the number of errors, and the first and the last of them, or `null`.
pub fn counted(alloc: Global, errors: &[Value]) -> Result<Value, OutOfMemory> {
    let mut parts = Vec::new(alloc);
    parts.push(Value::from(errors.len()))?;
    parts.push(copy_of(errors.first())?)?;
    parts.push(copy_of(errors.last())?)?;
    Ok(Value::Array(parts))
}

// Returns the units of a list.
fn units_of(list: &Value) -> &[Value] {
    match list.get("details").and_then(Value::as_array) {
        Some(units) => units.as_slice(),
        None => &[],
    }
}

/// Returns how many units a list has, how many have errors, and the last one.
///
/// The last one is shown by its evaluation path, or `null`.
pub fn units_counted(alloc: Global, list: &Value) -> Result<Value, OutOfMemory> {
    let units = units_of(list);
    let refused = units
        .iter()
        .filter(|unit| unit.get("errors").is_some())
        .count();
    let last = match units.last() {
        Some(unit) => unit.get("evaluationPath").and_then(Value::as_str),
        None => None,
    };
    let mut parts = Vec::new(alloc);
    parts.push(Value::from(units.len()))?;
    parts.push(Value::from(refused))?;
    parts.push(text_or_null(alloc, last)?)?;
    Ok(Value::Array(parts))
}
