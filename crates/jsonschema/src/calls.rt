//! Building and asking in one call, by the standard's parts and the default options.
ghost use Rattle.std.specs.Prelude.{◌≡◌, IfErr, IfOk};
ghost use Rattle.jsonschema.specs.BuildOptions.{no_options};
ghost use Rattle.jsonschema.specs.Calls.{AreErrorsOf, IsEvaluationOf, IsFirstErrorOf, IsVerdictOf};
ghost use Rattle.jsonschema.specs.Checked.{IsNoValidatorOf, IsValidatorOf};
ghost use Rattle.jsonschema.specs.Refusing.{IsUnrefused};

use crate::build_options::options;
use crate::building::StandardValidator;
use crate::error::BuildError;
use schema_engine::{
    ErrorIterator, Evaluation, KeywordTable, OutOfMemory, Resolver, Validate, ValidationError,
};
use serde_json::Value;
use standard_keywords::{StandardKeyword, StandardTable};
use standard_resolver::DocumentResolver;
use std::alloc::Global;

/// Returns the answer of a call of a validator. Its only error is want of memory.
fn told_call<A: Drop>(answer: Result<A, OutOfMemory>) -> Result<A, BuildError>
    ensures same { IfOk result (λ a. answer ≡ Ok a) }
    ensures unrefused { IfErr result IsUnrefused }
{
    match answer {
        Ok(answer) => Ok(answer),
        Err(_refused) => Err(BuildError::OutOfMemory),
    }
}

/// Builds a validator of a schema, by the default options.
///
/// The validator borrows nothing. The meta-schema of its draft checks the schema first.
///
/// # Errors
///
/// The schema, or one that it reaches, is refused; its meta-schema refuses it; or out of memory.
pub fn validator_for(alloc: Global, schema: &Value) -> Result<StandardValidator, BuildError>
    ensures built { IfOk result (IsValidatorOf ⟦<DocumentResolver<'static> as Resolver>⟧ ⟦<StandardTable as KeywordTable<StandardKeyword>>⟧
        ⟦<StandardKeyword as Validate>⟧ no_options schema.now) }
    ensures refused { IfErr result (IsNoValidatorOf ⟦<DocumentResolver<'static> as Resolver>⟧ ⟦<StandardTable as KeywordTable<StandardKeyword>>⟧
        ⟦<StandardKeyword as Validate>⟧ no_options schema.now) }
{
    options(alloc).build(schema)
}

/// Returns whether a schema accepts the instance.
///
/// # Errors
///
/// As for `validator_for`.
pub fn is_valid(alloc: Global, schema: &Value, instance: &Value) -> Result<bool, BuildError>
    ensures answer { IfOk result (IsVerdictOf ⟦<DocumentResolver<'static> as Resolver>⟧ ⟦<StandardTable as KeywordTable<StandardKeyword>>⟧
        ⟦<StandardKeyword as Validate>⟧ schema.now instance.now) }
    ensures refused { IfErr result (IsNoValidatorOf ⟦<DocumentResolver<'static> as Resolver>⟧ ⟦<StandardTable as KeywordTable<StandardKeyword>>⟧
        ⟦<StandardKeyword as Validate>⟧ no_options schema.now) }
{
    match validator_for(alloc, schema) {
        Ok(validator) => {
            let answer = validator.is_valid(alloc, instance);
            drop(validator);
            told_call(answer)
        }
        Err(refused) => Err(refused),
    }
}

/// Returns the first error as an inner `Err`, or an inner `Ok` if a schema accepts the instance.
///
/// # Errors
///
/// As for `validator_for`.
pub fn validate<'i>(
    alloc: Global,
    schema: &Value,
    instance: &'i Value,
) -> Result<Result<(), ValidationError<'i>>, BuildError>
    ensures answer { IfOk result (IsFirstErrorOf ⟦<DocumentResolver<'static> as Resolver>⟧ ⟦<StandardTable as KeywordTable<StandardKeyword>>⟧
        ⟦<StandardKeyword as Validate>⟧ schema.now instance.now) }
    ensures refused { IfErr result (IsNoValidatorOf ⟦<DocumentResolver<'static> as Resolver>⟧ ⟦<StandardTable as KeywordTable<StandardKeyword>>⟧
        ⟦<StandardKeyword as Validate>⟧ no_options schema.now) }
{
    match validator_for(alloc, schema) {
        Ok(validator) => {
            let answer = validator.validate(alloc, instance);
            drop(validator);
            told_call(answer)
        }
        Err(refused) => Err(refused),
    }
}

/// Returns all errors in order, or none if a schema accepts the instance.
///
/// # Errors
///
/// As for `validator_for`.
pub fn iter_errors<'i>(
    alloc: Global,
    schema: &Value,
    instance: &'i Value,
) -> Result<ErrorIterator<'i>, BuildError>
    ensures answer { IfOk result (AreErrorsOf ⟦<DocumentResolver<'static> as Resolver>⟧ ⟦<StandardTable as KeywordTable<StandardKeyword>>⟧
        ⟦<StandardKeyword as Validate>⟧ schema.now instance.now) }
    ensures refused { IfErr result (IsNoValidatorOf ⟦<DocumentResolver<'static> as Resolver>⟧ ⟦<StandardTable as KeywordTable<StandardKeyword>>⟧
        ⟦<StandardKeyword as Validate>⟧ no_options schema.now) }
{
    match validator_for(alloc, schema) {
        Ok(validator) => {
            let answer = validator.iter_errors(alloc, instance);
            drop(validator);
            told_call(answer)
        }
        Err(refused) => Err(refused),
    }
}

/// Returns the evaluation of the instance by a schema, with the standard's output units.
///
/// # Errors
///
/// As for `validator_for`.
pub fn evaluate(alloc: Global, schema: &Value, instance: &Value) -> Result<Evaluation, BuildError>
    ensures answer { IfOk result (IsEvaluationOf ⟦<DocumentResolver<'static> as Resolver>⟧ ⟦<StandardTable as KeywordTable<StandardKeyword>>⟧
        ⟦<StandardKeyword as Validate>⟧ schema.now instance.now) }
    ensures refused { IfErr result (IsNoValidatorOf ⟦<DocumentResolver<'static> as Resolver>⟧ ⟦<StandardTable as KeywordTable<StandardKeyword>>⟧
        ⟦<StandardKeyword as Validate>⟧ no_options schema.now) }
{
    match validator_for(alloc, schema) {
        Ok(validator) => {
            let answer = validator.evaluate(alloc, instance);
            drop(validator);
            told_call(answer)
        }
        Err(refused) => Err(refused),
    }
}
