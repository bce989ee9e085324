//! A leaf computes its verdict before its errors.
//!
//! The test has a keyword type of its own, which requests more matches for errors than for the
//! verdict. The rows of `test_check_rows` have no such keyword.
use crate::asking::push_answers_again;
use bench_parts::BenchMatcher;
use schema_drafts::Draft;
use schema_engine::Validator;
use schema_reports::OutOfMemory;
use schema_traits::{SchemaNode, Validate};
use serde_json::Value;
use standard_basics::BasicKeyword;
use std::alloc::Global;
use test_parts::{DetourKeyword, nodes_of};
use test_rows::{column, list_at, text_at, texts_of};

/// Returns the keyword `pattern` of a row, whose value is column 1.
///
/// It takes a detour over the patterns in column 4.
fn keyword_of(alloc: Global, row: &Value) -> Result<DetourKeyword, OutOfMemory> {
    let patterns = texts_of(alloc, list_at(row, 4))?;
    let own = String::from_str(alloc, text_at(row, 1))?;
    Ok(DetourKeyword {
        patterns,
        keyword: BasicKeyword::Pattern(own),
    })
}

/// Builds the validator of a schema with this keyword alone.
fn validator_of(
    alloc: Global,
    keyword: DetourKeyword,
    matcher: BenchMatcher,
    is_leaf: bool,
) -> Result<Validator<DetourKeyword, BenchMatcher>, OutOfMemory> {
    match nodes_of(alloc, keyword, is_leaf) {
        Ok(nodes) => Ok(Validator::of_nodes(nodes, SchemaNode(0), Draft::Draft202012, matcher)),
        Err(failed) => {
            drop(matcher);
            Err(failed)
        }
    }
}

/// Adds the answers of a validator for the instance.
fn tell_of<K: Validate>(
    alloc: Global,
    validator: Validator<K, BenchMatcher>,
    instance: &Value,
    log: &mut String,
) -> Result<(), OutOfMemory> {
    let told = push_answers_again(alloc, &validator, instance, log);
    drop(validator);
    told
}

/// Adds the answers of the row's keyword for the instance in column 2.
///
/// The keyword is a leaf if column 3 is true. The matcher leaves each pattern of the detour
/// unfinished.
pub(crate) fn tell_leaf(alloc: Global, row: &Value, log: &mut String) -> Result<(), OutOfMemory> {
    let is_leaf = column(row, 3).as_bool() == Some(true);
    let matcher = BenchMatcher::new(texts_of(alloc, list_at(row, 4))?);
    let keyword = keyword_of(alloc, row)?;
    let validator = validator_of(alloc, keyword, matcher, is_leaf)?;
    tell_of(alloc, validator, column(row, 2), log)
}

// The answers, the keyword's value, instance, whether it is a leaf, patterns of the detour. In the
// first row the pattern matches, so a leaf never requests the six matches, which would have more
// outcomes than a call looks at. A keyword that is not a leaf requests them at once. If the pattern
// does not match, a leaf computes errors too, and then requests the six.
pub(crate) const LEAVES: &str = r##"[
["yes", "b", "abc", true, ["d","e","f","g","h","i"]],
["yes: Error executing regex: Max limit for backtracking count exceeded; Error executing regex: Max limit for backtracking count exceeded",
 "b", "abc", false, ["d","e","f","g","h","i"]],
["no: Error executing regex: Max limit for backtracking count exceeded; Error executing regex: Max limit for backtracking count exceeded",
 "b", "acd", true, ["d","e","f","g","h","i"]]
]"##;
