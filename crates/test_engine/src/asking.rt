//! Builds validators and requests their answers.
//!
//! Most of the calls that the tests make of the engine are here.
use bench_parts::{BenchMatcher, BenchMeta};
use bench_program::narrow_resolver;
use schema_drafts::{Draft, VocabularySet};
use schema_engine::{ValidationOptions, Validator};
use schema_keys::BuildError;
use schema_reports::{ErrorIterator, OutOfMemory};
use schema_traits::{KeywordTable, Matcher, Resolver, Validate};
use serde_json::Value;
use standard_basics::{BasicKeyword, BasicTable};
use standard_resolver::DocumentResolver;
use std::alloc::{AllocError, Global};
use test_rows::{column, list_at, number_at, push_all, texts_of};

/// The resolver of a row's schema, and the matcher for the row's patterns.
///
/// The matcher leaves the matches of these patterns unfinished.
#[derive(Drop)]
pub(crate) struct Parts<'r> {
    pub resolver: DocumentResolver<'r>,
    pub matcher: BenchMatcher,
}

/// Returns the parts of a row.
///
/// Column 1 is the schema, and column 4 the list of the patterns.
pub(crate) fn parts_of(alloc: Global, row: &Value) -> Result<Parts<'_>, OutOfMemory> {
    let matcher = BenchMatcher::new(texts_of(alloc, list_at(row, 4))?);
    let vocabularies = VocabularySet::new(alloc);
    match narrow_resolver(alloc, Draft::Draft202012, column(row, 1), vocabularies) {
        Ok(resolver) => Ok(Parts { resolver, matcher }),
        Err(failed) => {
            drop(matcher);
            Err(failed)
        }
    }
}

/// Builds the validator of a row's schema.
///
/// The options are the default ones, with the node limit in column 3 if there is one.
pub(crate) fn built<K: Validate, T: KeywordTable<K>, R: Resolver, M: Matcher>(
    alloc: Global,
    table: &T,
    resolver: &R,
    matcher: &M,
    row: &Value,
) -> Result<Validator<K, M>, BuildError> {
    let schema = column(row, 1);
    match number_at(row, 3) {
        None => Validator::new(alloc, schema, table, resolver, matcher, &BenchMeta {}),
        Some(limit) => ValidationOptions::new(alloc)
            .with_node_limit(limit)
            .build(alloc, schema, table, resolver, matcher, &BenchMeta {}),
    }
}

/// Builds the validator of a row's schema with the row's own parts.
pub(crate) fn built_by<K: Validate, T: KeywordTable<K>>(
    alloc: Global,
    table: &T,
    row: &Value,
) -> Result<Validator<K, BenchMatcher>, BuildError> {
    let parts = parts_of(alloc, row)?;
    let built = built::<K, T, DocumentResolver, BenchMatcher>(
        alloc,
        table,
        &parts.resolver,
        &parts.matcher,
        row,
    );
    drop(parts);
    built
}

/// Adds that the schema was refused, or that it was refused by the limit.
pub(crate) fn push_refusal(error: BuildError, log: &mut String) -> Result<(), OutOfMemory> {
    let number = error.number();
    drop(error);
    match number {
        8 => log.push_str("refused by the limit"),
        9 => Err(AllocError),
        _ => log.push_str("refused"),
    }
}

fn push_verdict<K: Validate, M: Matcher>(
    alloc: Global,
    validator: &Validator<K, M>,
    instance: &Value,
    log: &mut String,
) -> Result<(), OutOfMemory> {
    log.push_str(if validator.is_valid(alloc, instance)? {
        "yes"
    } else {
        "no"
    })
}

/// Adds the text of the first error after a colon, if there is one.
fn push_first<K: Validate, M: Matcher>(
    alloc: Global,
    validator: &Validator<K, M>,
    instance: &Value,
    log: &mut String,
) -> Result<(), OutOfMemory> {
    match validator.validate(alloc, instance)? {
        Ok(()) => Ok(()),
        Err(error) => {
            let pushed = push_all(log, &[": ", error.text.as_str()]);
            drop(error);
            pushed
        }
    }
}

/// Adds the text of each error after a semicolon.
fn push_texts(errors: ErrorIterator<'_>, log: &mut String) -> Result<(), OutOfMemory> {
    for error in errors {
        push_all(log, &["; ", error.text.as_str()])?;
    }
    Ok(())
}

/// Adds the text of each error of an instance after a semicolon.
fn push_errors<K: Validate, M: Matcher>(
    alloc: Global,
    validator: &Validator<K, M>,
    instance: &Value,
    log: &mut String,
) -> Result<(), OutOfMemory> {
    push_texts(validator.iter_errors(alloc, instance)?, log)
}

/// Adds the verdict, the first error and all errors.
pub(crate) fn push_answers<K: Validate, M: Matcher>(
    alloc: Global,
    validator: &Validator<K, M>,
    instance: &Value,
    log: &mut String,
) -> Result<(), OutOfMemory> {
    push_verdict(alloc, validator, instance, log)?;
    push_first(alloc, validator, instance, log)?;
    push_errors(alloc, validator, instance, log)
}

/// Adds the answers to an empty log.
///
/// If memory runs out, the answers are requested once more.
pub(crate) fn push_answers_again<K: Validate, M: Matcher>(
    alloc: Global,
    validator: &Validator<K, M>,
    instance: &Value,
    log: &mut String,
) -> Result<(), OutOfMemory> {
    if push_answers(alloc, validator, instance, log).is_ok() {
        return Ok(());
    }
    log.clear();
    push_answers(alloc, validator, instance, log)
}

/// Adds the answers for the instance in column 2, or why there is no validator.
pub(crate) fn tell_with<K: Validate, T: KeywordTable<K>, R: Resolver, M: Matcher>(
    alloc: Global,
    table: &T,
    resolver: &R,
    matcher: &M,
    row: &Value,
    log: &mut String,
) -> Result<(), OutOfMemory> {
    match built::<K, T, R, M>(alloc, table, resolver, matcher, row) {
        Ok(validator) => {
            let told = push_answers_again(alloc, &validator, column(row, 2), log);
            drop(validator);
            told
        }
        Err(error) => push_refusal(error, log),
    }
}

/// Adds the answers of a row, with a table and the row's parts.
pub(crate) fn tell_by<K: Validate, T: KeywordTable<K>>(
    alloc: Global,
    table: &T,
    row: &Value,
    log: &mut String,
) -> Result<(), OutOfMemory> {
    let parts = parts_of(alloc, row)?;
    let told = tell_with::<K, T, DocumentResolver, BenchMatcher>(
        alloc,
        table,
        &parts.resolver,
        &parts.matcher,
        row,
        log,
    );
    drop(parts);
    told
}

fn list_of<K: Validate, M: Matcher>(
    alloc: Global,
    validator: &Validator<K, M>,
    instance: &Value,
) -> Result<Value, OutOfMemory> {
    let evaluation = validator.evaluate(alloc, instance)?;
    let list = evaluation.list(alloc);
    drop(evaluation);
    list
}

/// Returns the list for the instance in column 2.
///
/// The validator has the table of `bench_parts`, and the row's schema and parts. Returns null if
/// the schema is refused.
pub(crate) fn listed(alloc: Global, row: &Value) -> Result<Value, OutOfMemory> {
    match built_by::<BasicKeyword, BasicTable>(alloc, &BasicTable {}, row) {
        Ok(validator) => {
            let list = list_of(alloc, &validator, column(row, 2));
            drop(validator);
            list
        }
        Err(error) => {
            drop(error);
            Ok(Value::Null)
        }
    }
}
