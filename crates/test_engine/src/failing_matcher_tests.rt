//! A matcher whose engine fails, and which runs out of memory once, at a chosen question.
//!
//! The matcher of the rows of `test_check_rows` does neither.
use crate::asking::{built, push_answers, push_refusal};
use bench_parts::BenchMeta;
use bench_program::narrow_resolver;
use schema_drafts::{Draft, VocabularySet};
use schema_engine::{Validator, validate};
use schema_keys::BuildError;
use schema_reports::{OutOfMemory, ValidationError};
use schema_traits::{KeywordTable, Matcher, Resolver, Validate};
use serde_json::Value;
use standard_basics::{BasicKeyword, BasicTable};
use standard_resolver::DocumentResolver;
use std::alloc::Global;
use std::cell::Cell;
use test_parts::FailingMatcher;
use test_rows::{column, number_at};

/// Returns the first error of a row's instance.
///
/// The call builds the validator too.
fn first_of<'r, K: Validate, T: KeywordTable<K>, R: Resolver, M: Matcher>(
    alloc: Global,
    table: &T,
    resolver: &R,
    matcher: &M,
    row: &'r Value,
) -> Result<Result<(), ValidationError<'r>>, BuildError> {
    let (schema, instance) = (column(row, 1), column(row, 2));
    validate::<R, T, K, M, BenchMeta>(
        alloc,
        schema,
        instance,
        table,
        resolver,
        matcher,
        &BenchMeta {},
    )
}

/// Adds the text of an error, or why there is no validator.
fn push_told(
    told: Result<Result<(), ValidationError<'_>>, BuildError>,
    log: &mut String,
) -> Result<(), OutOfMemory> {
    match told {
        Ok(Ok(())) => Ok(()),
        Ok(Err(error)) => {
            let pushed = log.push_str(error.text.as_str());
            drop(error);
            pushed
        }
        Err(error) => push_refusal(error, log),
    }
}

/// Adds the first error of a row, with the matcher that fails.
pub(crate) fn tell_failure(
    alloc: Global,
    row: &Value,
    log: &mut String,
) -> Result<(), OutOfMemory> {
    let vocabularies = VocabularySet::new(alloc);
    let resolver = narrow_resolver(alloc, Draft::Draft202012, column(row, 1), vocabularies)?;
    let matcher = FailingMatcher { left: Cell::new(0) };
    let told = first_of::<BasicKeyword, BasicTable, DocumentResolver, FailingMatcher>(
        alloc,
        &BasicTable {},
        &resolver,
        &matcher,
        row,
    );
    drop(matcher);
    drop(resolver);
    push_told(told, log)
}

// The first error, schema, instance.
pub(crate) const FAILURES: &str = r##"[
["Regex engine failed to evaluate pattern 'q'", {"pattern":"q"}, "abc"]
]"##;

/// Adds the answers of a validator, with the evaluation's verdict.
fn push_four<K: Validate, M: Matcher>(
    alloc: Global,
    validator: &Validator<K, M>,
    instance: &Value,
    log: &mut String,
) -> Result<(), OutOfMemory> {
    push_answers(alloc, validator, instance, log)?;
    let evaluation = validator.evaluate(alloc, instance)?;
    let valid = evaluation.is_valid();
    drop(evaluation);
    log.push_str(if valid { "; valid" } else { "; invalid" })
}

/// Adds the answers of a validator until memory runs out.
///
/// Then adds `!`, and the answers to the same calls once more.
fn push_again<K: Validate, M: Matcher>(
    alloc: Global,
    validator: &Validator<K, M>,
    instance: &Value,
    log: &mut String,
) -> Result<(), OutOfMemory> {
    if push_four(alloc, validator, instance, log).is_ok() {
        return Ok(());
    }
    log.push('!')?;
    push_four(alloc, validator, instance, log)
}

/// Adds these answers for a row's instance, or why there is no validator.
fn tell_again<K: Validate, T: KeywordTable<K>, R: Resolver, M: Matcher>(
    alloc: Global,
    table: &T,
    resolver: &R,
    matcher: &M,
    row: &Value,
    log: &mut String,
) -> Result<(), OutOfMemory> {
    match built::<K, T, R, M>(alloc, table, resolver, matcher, row) {
        Ok(validator) => {
            let told = push_again(alloc, &validator, column(row, 2), log);
            drop(validator);
            told
        }
        Err(error) => push_refusal(error, log),
    }
}

/// Adds these answers, with a matcher that runs out of memory.
///
/// It does so at the question whose number is in column 4.
pub(crate) fn tell_wanting(
    alloc: Global,
    row: &Value,
    log: &mut String,
) -> Result<(), OutOfMemory> {
    let vocabularies = VocabularySet::new(alloc);
    let resolver = narrow_resolver(alloc, Draft::Draft202012, column(row, 1), vocabularies)?;
    let matcher = FailingMatcher {
        left: Cell::new(number_at(row, 4).unwrap_or(0)),
    };
    let told = tell_again::<BasicKeyword, BasicTable, DocumentResolver, FailingMatcher>(
        alloc,
        &BasicTable {},
        &resolver,
        &matcher,
        row,
        log,
    );
    drop(matcher);
    drop(resolver);
    told
}

// The answers until memory runs out, and then those to the same calls once more; schema, instance,
// nothing, and the question at which memory runs out. For the list as instance, the verdict takes 8
// questions, the first error 21, all errors 23 and the evaluation 21; for the first text each call
// takes 5. For the second text each run requests all six matches, which have more outcomes than a
// call looks at, so each call takes exactly 384 questions if it makes 64 runs.
pub(crate) const WANTING: &str = r##"[
["!no: Regex engine failed to evaluate pattern 'q'; Regex engine failed to evaluate pattern 'q'; invalid",
 {"items":{"pattern":"q"}}, ["a", "b"], null, 1],
["!no: Regex engine failed to evaluate pattern 'q'; Regex engine failed to evaluate pattern 'q'; invalid",
 {"items":{"pattern":"q"}}, ["a", "b"], null, 8],
["no!no: Regex engine failed to evaluate pattern 'q'; Regex engine failed to evaluate pattern 'q'; invalid",
 {"items":{"pattern":"q"}}, ["a", "b"], null, 9],
["no!no: Regex engine failed to evaluate pattern 'q'; Regex engine failed to evaluate pattern 'q'; invalid",
 {"items":{"pattern":"q"}}, ["a", "b"], null, 29],
["no: Regex engine failed to evaluate pattern 'q'; Regex engine failed to evaluate pattern 'q'; invalid",
 {"items":{"pattern":"q"}}, ["a", "b"], null, 74],
["!yes; valid", {"anyOf":[{"pattern":"q"},{"not":{"pattern":"q"}}]}, "a", null, 1],
["!yes; valid", {"anyOf":[{"pattern":"q"},{"not":{"pattern":"q"}}]}, "a", null, 5],
["yes!yes; valid", {"anyOf":[{"pattern":"q"},{"not":{"pattern":"q"}}]}, "a", null, 6],
["yes!yes; valid", {"anyOf":[{"pattern":"q"},{"not":{"pattern":"q"}}]}, "a", null, 10],
["yes!yes; valid", {"anyOf":[{"pattern":"q"},{"not":{"pattern":"q"}}]}, "a", null, 11],
["yes!yes; valid", {"anyOf":[{"pattern":"q"},{"not":{"pattern":"q"}}]}, "a", null, 15],
["yes!yes; valid", {"anyOf":[{"pattern":"q"},{"not":{"pattern":"q"}}]}, "a", null, 16],
["yes!yes; valid", {"anyOf":[{"pattern":"q"},{"not":{"pattern":"q"}}]}, "a", null, 20],
["yes; valid", {"anyOf":[{"pattern":"q"},{"not":{"pattern":"q"}}]}, "a", null, 21],
["!no: Regex engine failed to evaluate pattern 'd'; Regex engine failed to evaluate pattern 'd'; invalid",
 {"allOf":[{"anyOf":[{"pattern":"d"},true]}, {"anyOf":[{"pattern":"e"},true]}, {"anyOf":[{"pattern":"f"},true]},
  {"anyOf":[{"pattern":"g"},true]}, {"anyOf":[{"pattern":"h"},true]}, {"anyOf":[{"pattern":"i"},true]}]}, "abc", null, 384],
["no!no: Regex engine failed to evaluate pattern 'd'; Regex engine failed to evaluate pattern 'd'; invalid",
 {"allOf":[{"anyOf":[{"pattern":"d"},true]}, {"anyOf":[{"pattern":"e"},true]}, {"anyOf":[{"pattern":"f"},true]},
  {"anyOf":[{"pattern":"g"},true]}, {"anyOf":[{"pattern":"h"},true]}, {"anyOf":[{"pattern":"i"},true]}]}, "abc", null, 385],
[["no: Regex engine failed to evaluate pattern 'd'; Regex engine failed to evaluate pattern 'd'!",
  "no: Regex engine failed to evaluate pattern 'd'; Regex engine failed to evaluate pattern 'd'; invalid"],
 {"allOf":[{"anyOf":[{"pattern":"d"},true]}, {"anyOf":[{"pattern":"e"},true]}, {"anyOf":[{"pattern":"f"},true]},
  {"anyOf":[{"pattern":"g"},true]}, {"anyOf":[{"pattern":"h"},true]}, {"anyOf":[{"pattern":"i"},true]}]}, "abc", null, 1536],
["no: Regex engine failed to evaluate pattern 'd'; Regex engine failed to evaluate pattern 'd'; invalid",
 {"allOf":[{"anyOf":[{"pattern":"d"},true]}, {"anyOf":[{"pattern":"e"},true]}, {"anyOf":[{"pattern":"f"},true]},
  {"anyOf":[{"pattern":"g"},true]}, {"anyOf":[{"pattern":"h"},true]}, {"anyOf":[{"pattern":"i"},true]}]}, "abc", null, 1537]
]"##;
