//! Clones of validators.
//!
//! A clone answers as its source does, and each of them still answers after the other is dropped.

use crate::asking::asked;
use crate::building::built;
use crate::refusals::refusal;
use bench_parts::BenchMatcher;
use schema_engine::{OutOfMemory, Validator};
use serde_json::Value;
use standard_basics::{BasicKeyword, BasicTable};
use std::alloc::Global;
use test_rows::{Case, Question, disagreement};

// Returns the answer of a clone, or `null` if its root or its draft is not its source's.
fn asked_of_clone(
    alloc: Global,
    source: &Validator<BasicKeyword, BenchMatcher>,
    copy: &Validator<BasicKeyword, BenchMatcher>,
    question: Question,
    instance: &Value,
) -> Result<Value, OutOfMemory> {
    if copy.root() != source.root() || copy.draft() != source.draft() {
        return Ok(Value::Null);
    }
    asked(alloc, copy, question, instance)
}

// Returns the answer of a clone while its source lives.
fn beside_source(
    alloc: Global,
    source: &Validator<BasicKeyword, BenchMatcher>,
    question: Question,
    instance: &Value,
) -> Result<Value, OutOfMemory> {
    let copy = source.clone(alloc)?;
    let answer = asked_of_clone(alloc, source, &copy, question, instance);
    drop(copy);
    answer
}

// Returns the answer of a clone after its source is dropped.
fn after_source(
    alloc: Global,
    source: Validator<BasicKeyword, BenchMatcher>,
    question: Question,
    instance: &Value,
) -> Result<Value, OutOfMemory> {
    let copy = source.clone(alloc);
    drop(source);
    let copy = copy?;
    let answer = asked(alloc, &copy, question, instance);
    drop(copy);
    answer
}

// Returns the answer of a clone of a clone after both of its sources are dropped.
fn after_sources(
    alloc: Global,
    source: Validator<BasicKeyword, BenchMatcher>,
    question: Question,
    instance: &Value,
) -> Result<Value, OutOfMemory> {
    let copy = source.clone(alloc);
    drop(source);
    after_source(alloc, copy?, question, instance)
}

// Returns three answers: of a clone while its source lives, of the source after that clone is
// dropped, and of a clone of a clone.
fn answers_of(
    alloc: Global,
    source: Validator<BasicKeyword, BenchMatcher>,
    question: Question,
    instance: &Value,
) -> [Result<Value, OutOfMemory>; 3] {
    let of_clone = beside_source(alloc, &source, question, instance);
    let of_source = asked(alloc, &source, question, instance);
    let after = after_sources(alloc, source, question, instance);
    [of_clone, of_source, after]
}

// Returns the answer if all three are the same, and otherwise each answer.
fn alike(
    alloc: Global,
    of_clone: Value,
    of_source: Value,
    after: Value,
) -> Result<Value, OutOfMemory> {
    if of_clone == of_source && after == of_source {
        return Ok(of_source);
    }
    let answers = vec![in alloc; of_clone, of_source, after]?;
    disagreement(alloc, "clone, source, clone of a clone", answers)
}

// Returns the answer of a validator and its clones if they agree, and otherwise each answer.
fn answered_by_each(
    alloc: Global,
    source: Validator<BasicKeyword, BenchMatcher>,
    question: Question,
    instance: &Value,
) -> Result<Value, OutOfMemory> {
    let [of_clone, of_source, after] = answers_of(alloc, source, question, instance);
    alike(alloc, of_clone?, of_source?, after?)
}

// Returns the answer of a case's validator and its clones, with the table of `bench_parts`, or the
// reason why there is no validator.
pub(crate) fn answered_alike(
    alloc: Global,
    case: &Case<'_>,
    question: Question,
) -> Result<Value, OutOfMemory> {
    match built(alloc, case, &BasicTable {}) {
        Ok(source) => answered_by_each(alloc, source, question, case.instance),
        Err(error) => refusal(alloc, error),
    }
}
