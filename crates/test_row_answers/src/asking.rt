//! The answers of a validator for an instance.

use bench_parts::BenchMatcher;
use schema_engine::{OutOfMemory, Validate, Validator};
use serde_json::Value;
use std::alloc::Global;
use test_rows::{
    Answers, Question, agreed, counted, errors_in, first_in, list_in, number_of, shown_in,
    units_counted,
};

fn first_error<K: Validate>(
    alloc: Global,
    validator: &Validator<K, BenchMatcher>,
    instance: &Value,
) -> Result<Value, OutOfMemory> {
    first_in(alloc, validator.validate(alloc, instance)?)
}

pub(crate) fn all_errors<K: Validate>(
    alloc: Global,
    validator: &Validator<K, BenchMatcher>,
    instance: &Value,
) -> Result<Vec<Value>, OutOfMemory> {
    errors_in(alloc, validator.iter_errors(alloc, instance)?)
}

fn evaluated<K: Validate>(
    alloc: Global,
    validator: &Validator<K, BenchMatcher>,
    instance: &Value,
) -> Result<bool, OutOfMemory> {
    let evaluation = validator.evaluate(alloc, instance)?;
    let valid = evaluation.is_valid();
    drop(evaluation);
    Ok(valid)
}

// Returns the list of the evaluation if its verdict is the validator's, and otherwise both.
fn listed<K: Validate>(
    alloc: Global,
    validator: &Validator<K, BenchMatcher>,
    instance: &Value,
) -> Result<Value, OutOfMemory> {
    let valid = validator.is_valid(alloc, instance)?;
    let evaluation = validator.evaluate(alloc, instance)?;
    let list = list_in(alloc, &evaluation, valid);
    drop(evaluation);
    list
}

// Returns the errors of the evaluation, each with its unit's evaluation path and its text.
fn evaluation_errors<K: Validate>(
    alloc: Global,
    validator: &Validator<K, BenchMatcher>,
    instance: &Value,
) -> Result<Value, OutOfMemory> {
    let evaluation = validator.evaluate(alloc, instance)?;
    let errors = shown_in(alloc, &evaluation);
    drop(evaluation);
    errors
}

fn four_answers<K: Validate>(
    alloc: Global,
    validator: &Validator<K, BenchMatcher>,
    instance: &Value,
) -> Result<Answers, OutOfMemory> {
    let valid = validator.is_valid(alloc, instance)?;
    let evaluated = evaluated(alloc, validator, instance)?;
    let first = first_error(alloc, validator, instance)?;
    let errors = Value::Array(all_errors(alloc, validator, instance)?);
    Ok(Answers {
        valid: Value::Bool(valid),
        first,
        errors,
        evaluated: Value::Bool(evaluated),
    })
}

fn entries<K: Validate>(validator: &Validator<K, BenchMatcher>) -> usize {
    let root = validator.root();
    if root.0 >= validator.nodes().len() {
        return 0;
    }
    validator.nodes().validators(root).count()
}

// Returns the number of errors, and the first and the last of them.
fn errors_count<K: Validate>(
    alloc: Global,
    validator: &Validator<K, BenchMatcher>,
    instance: &Value,
) -> Result<Value, OutOfMemory> {
    let errors = all_errors(alloc, validator, instance)?;
    let count = counted(alloc, errors.as_slice());
    drop(errors);
    count
}

// Returns the number of units in the list, how many have errors, and the path of the last one.
fn list_count<K: Validate>(
    alloc: Global,
    validator: &Validator<K, BenchMatcher>,
    instance: &Value,
) -> Result<Value, OutOfMemory> {
    let list = listed(alloc, validator, instance)?;
    let count = units_counted(alloc, &list);
    drop(list);
    count
}

pub(crate) fn asked<K: Validate>(
    alloc: Global,
    validator: &Validator<K, BenchMatcher>,
    question: Question,
    instance: &Value,
) -> Result<Value, OutOfMemory> {
    match question {
        Question::Errors => agreed(alloc, four_answers(alloc, validator, instance)?),
        Question::Valid => Ok(Value::Bool(validator.is_valid(alloc, instance)?)),
        Question::First => first_error(alloc, validator, instance),
        Question::IterErrors => Ok(Value::Array(all_errors(alloc, validator, instance)?)),
        Question::Evaluate => Ok(Value::Bool(evaluated(alloc, validator, instance)?)),
        Question::List => listed(alloc, validator, instance),
        Question::EvaluationErrors => evaluation_errors(alloc, validator, instance),
        Question::ListCount => list_count(alloc, validator, instance),
        Question::ErrorsCount => errors_count(alloc, validator, instance),
        Question::Build => Ok(Value::Bool(true)),
        Question::Draft => Ok(Value::from(number_of(validator.draft()))),
        Question::Entries => Ok(Value::from(entries(validator))),
        Question::Monotone => Ok(Value::Bool(validator.is_monotone())),
    }
}
