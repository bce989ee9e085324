//! The four calls that build with the default options and validate in one.

use crate::refusals::refusal;
use crate::setting::Setting;
use bench_parts::BenchMeta;
use schema_engine::{
    ErrorIterator, KeywordTable, OutOfMemory, Validate, ValidationError, evaluate, is_valid,
    iter_errors, validate,
};
use schema_keys::BuildError;
use schema_output::Evaluation;
use serde_json::Value;
use std::alloc::Global;
use test_rows::{Answers, Case, agreed, errors_in, first_in};

fn accepts<K: Validate, T: KeywordTable<K>>(
    alloc: Global,
    case: &Case<'_>,
    setting: &Setting<'_>,
    table: &T,
) -> Result<bool, BuildError> {
    is_valid::<_, T, K, _, _>(
        alloc,
        case.schema,
        case.instance,
        table,
        &setting.resolver,
        &setting.matcher,
        &BenchMeta {},
    )
}

fn refuses<'c, K: Validate, T: KeywordTable<K>>(
    alloc: Global,
    case: &Case<'c>,
    setting: &Setting<'_>,
    table: &T,
) -> Result<Result<(), ValidationError<'c>>, BuildError> {
    validate::<_, T, K, _, _>(
        alloc,
        case.schema,
        case.instance,
        table,
        &setting.resolver,
        &setting.matcher,
        &BenchMeta {},
    )
}

fn all_errors<'c, K: Validate, T: KeywordTable<K>>(
    alloc: Global,
    case: &Case<'c>,
    setting: &Setting<'_>,
    table: &T,
) -> Result<ErrorIterator<'c>, BuildError> {
    iter_errors::<_, T, K, _, _>(
        alloc,
        case.schema,
        case.instance,
        table,
        &setting.resolver,
        &setting.matcher,
        &BenchMeta {},
    )
}

fn evaluation<K: Validate, T: KeywordTable<K>>(
    alloc: Global,
    case: &Case<'_>,
    setting: &Setting<'_>,
    table: &T,
) -> Result<Evaluation, BuildError> {
    evaluate::<_, T, K, _, _>(
        alloc,
        case.schema,
        case.instance,
        table,
        &setting.resolver,
        &setting.matcher,
        &BenchMeta {},
    )
}

// Returns a verdict, or the reason why the schema is refused.
fn verdict(alloc: Global, valid: Result<bool, BuildError>) -> Result<Value, OutOfMemory> {
    match valid {
        Ok(valid) => Ok(Value::Bool(valid)),
        Err(error) => refusal(alloc, error),
    }
}

// Returns the first error, or `null`, or the reason why the schema is refused.
fn first(
    alloc: Global,
    verdict: Result<Result<(), ValidationError<'_>>, BuildError>,
) -> Result<Value, OutOfMemory> {
    match verdict {
        Ok(verdict) => first_in(alloc, verdict),
        Err(error) => refusal(alloc, error),
    }
}

// Returns all errors, or the reason why the schema is refused.
fn list(
    alloc: Global,
    errors: Result<ErrorIterator<'_>, BuildError>,
) -> Result<Value, OutOfMemory> {
    match errors {
        Ok(errors) => Ok(Value::Array(errors_in(alloc, errors)?)),
        Err(error) => refusal(alloc, error),
    }
}

// Returns the verdict of the evaluation, or the reason why the schema is refused.
fn evaluated(
    alloc: Global,
    evaluation: Result<Evaluation, BuildError>,
) -> Result<Value, OutOfMemory> {
    match evaluation {
        Ok(evaluation) => {
            let valid = evaluation.is_valid();
            drop(evaluation);
            Ok(Value::Bool(valid))
        }
        Err(error) => refusal(alloc, error),
    }
}

fn four_answers<K: Validate, T: KeywordTable<K>>(
    alloc: Global,
    case: &Case<'_>,
    setting: &Setting<'_>,
    table: &T,
) -> Result<Answers, OutOfMemory> {
    Ok(Answers {
        valid: verdict(alloc, accepts(alloc, case, setting, table))?,
        first: first(alloc, refuses(alloc, case, setting, table))?,
        errors: list(alloc, all_errors(alloc, case, setting, table))?,
        evaluated: evaluated(alloc, evaluation(alloc, case, setting, table))?,
    })
}

// Returns the answer of the four calls if they agree, or the reason why they refuse.
pub(crate) fn answered_free<K: Validate, T: KeywordTable<K>>(
    alloc: Global,
    case: &Case<'_>,
    table: &T,
) -> Result<Value, OutOfMemory> {
    let setting = Setting::of(alloc, case)?;
    let answers = four_answers(alloc, case, &setting, table);
    drop(setting);
    agreed(alloc, answers?)
}
