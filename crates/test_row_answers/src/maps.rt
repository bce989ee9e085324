//! Maps of validators.

use crate::asking::all_errors;
use crate::refusals::refusal;
use crate::setting::Setting;
use bench_parts::{BenchMatcher, BenchMeta};
use schema_engine::{KeywordTable, OutOfMemory, Validate, Validator, ValidatorMap};
use schema_keys::BuildError;
use serde_json::{Value, json};
use std::alloc::Global;
use test_rows::{Case, MapQuestion, number_of};

fn map_by<K: Validate, T: KeywordTable<K>>(
    alloc: Global,
    schema: &Value,
    setting: &Setting<'_>,
    table: &T,
) -> Result<ValidatorMap<K, BenchMatcher>, BuildError> {
    let resolver = &setting.resolver;
    let matcher = &setting.matcher;
    let metas = &BenchMeta {};
    setting
        .options
        .build_map(alloc, schema, table, resolver, matcher, metas)
}

fn mapped<K: Validate, T: KeywordTable<K>>(
    alloc: Global,
    case: &Case<'_>,
    table: &T,
) -> Result<ValidatorMap<K, BenchMatcher>, BuildError> {
    let setting = Setting::of(alloc, case)?;
    let map = map_by(alloc, case.schema, &setting, table);
    drop(setting);
    map
}

fn push_names<K: Validate>(
    alloc: Global,
    map: &ValidatorMap<K, BenchMatcher>,
    names: &mut Vec<Value>,
) -> Result<(), OutOfMemory> {
    for name in map.keys() {
        names.push(Value::try_from_str(alloc, name.as_str())?)?;
    }
    Ok(())
}

// Returns whether `contains_key` holds for each name of a map.
fn contains_each<K: Validate>(map: &ValidatorMap<K, BenchMatcher>) -> bool {
    for name in map.keys() {
        if !map.contains_key(name.as_str()) {
            return false;
        }
    }
    true
}

// Returns the names of a map if its other answers agree with them, and otherwise all its answers.
fn names_beside(
    alloc: Global,
    names: Vec<Value>,
    contained: bool,
    length: usize,
    empty: bool,
) -> Result<Value, OutOfMemory> {
    if contained && length == names.len() && empty == names.is_empty() {
        return Ok(Value::Array(names));
    }
    json!(in alloc; {"disagree": {"keys": names, "contains_key": contained, "len": length, "is_empty": empty}})
}

fn names<K: Validate>(
    alloc: Global,
    map: &ValidatorMap<K, BenchMatcher>,
) -> Result<Value, OutOfMemory> {
    let mut names = Vec::new(alloc);
    push_names(alloc, map, &mut names)?;
    names_beside(alloc, names, contains_each(map), map.len(), map.is_empty())
}

// Returns the answer of the validator under a name.
fn asked_of_entry<K: Validate>(
    alloc: Global,
    validator: &Validator<K, BenchMatcher>,
    question: MapQuestion,
    instance: &Value,
) -> Result<Value, OutOfMemory> {
    match question {
        MapQuestion::Draft => Ok(Value::from(number_of(validator.draft()))),
        _ => Ok(Value::Array(all_errors(alloc, validator, instance)?)),
    }
}

// Returns the answer of a map, or `null` if it has no validator under the case's name.
fn asked_of_map<K: Validate>(
    alloc: Global,
    map: &ValidatorMap<K, BenchMatcher>,
    question: MapQuestion,
    case: &Case<'_>,
) -> Result<Value, OutOfMemory> {
    if question == MapQuestion::Names {
        return names(alloc, map);
    }
    match map.get(case.text("entry").unwrap_or("")) {
        Some(validator) => asked_of_entry(alloc, validator, question, case.instance),
        None => Ok(Value::Null),
    }
}

// Returns the answer of the map of a case's schema, or the reason why there is none.
pub(crate) fn answered_by_map<K: Validate, T: KeywordTable<K>>(
    alloc: Global,
    case: &Case<'_>,
    table: &T,
    question: MapQuestion,
) -> Result<Value, OutOfMemory> {
    match mapped(alloc, case, table) {
        Ok(map) => {
            let answer = asked_of_map(alloc, &map, question, case);
            drop(map);
            answer
        }
        Err(error) => refusal(alloc, error),
    }
}
