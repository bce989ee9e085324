//! Building validators.

use crate::asking::asked;
use crate::refusals::refusal;
use crate::setting::Setting;
use bench_parts::{BenchMatcher, BenchMeta};
use schema_engine::{KeywordTable, OutOfMemory, Validate, Validator};
use schema_keys::BuildError;
use serde_json::Value;
use std::alloc::Global;
use test_rows::{Case, Question};

fn built_by<K: Validate, T: KeywordTable<K>>(
    alloc: Global,
    schema: &Value,
    setting: &Setting<'_>,
    table: &T,
) -> Result<Validator<K, BenchMatcher>, BuildError> {
    let resolver = &setting.resolver;
    let matcher = &setting.matcher;
    let metas = &BenchMeta {};
    match setting.nested {
        None => setting
            .options
            .build(alloc, schema, table, resolver, matcher, metas),
        Some(nested) => setting
            .options
            .build_nested(alloc, schema, table, resolver, matcher, metas, nested),
    }
}

pub(crate) fn built<K: Validate, T: KeywordTable<K>>(
    alloc: Global,
    case: &Case<'_>,
    table: &T,
) -> Result<Validator<K, BenchMatcher>, BuildError> {
    let setting = Setting::of(alloc, case)?;
    let built = built_by(alloc, case.schema, &setting, table);
    drop(setting);
    built
}

// Returns the answer of the validator of a case's schema, or the reason why there is none.
pub(crate) fn answered<K: Validate, T: KeywordTable<K>>(
    alloc: Global,
    case: &Case<'_>,
    table: &T,
    question: Question,
) -> Result<Value, OutOfMemory> {
    match built(alloc, case, table) {
        Ok(validator) => {
            let answer = asked(alloc, &validator, question, case.instance);
            drop(validator);
            answer
        }
        Err(error) => refusal(alloc, error),
    }
}
