//! A custom resolver, whose state grows by one with each lookup.
//!
//! With it, a schema that refers to itself never reaches a key twice. The rows of `test_check_rows`
//! have no such resolver.
use crate::asking::{Parts, parts_of, tell_with};
use bench_parts::BenchMatcher;
use schema_reports::OutOfMemory;
use serde_json::Value;
use standard_basics::{BasicKeyword, BasicTable};
use std::alloc::Global;
use test_parts::GrowingResolver;

/// Adds the answers with a resolver whose states grow.
pub(crate) fn tell_growing(
    alloc: Global,
    row: &Value,
    log: &mut String,
) -> Result<(), OutOfMemory> {
    let Parts { resolver, matcher } = parts_of(alloc, row)?;
    let resolver = GrowingResolver { document: resolver };
    let told = tell_with::<BasicKeyword, BasicTable, GrowingResolver, BenchMatcher>(
        alloc,
        &BasicTable {},
        &resolver,
        &matcher,
        row,
        log,
    );
    drop(resolver);
    drop(matcher);
    told
}

// The answers, schema, instance, limit of keys, no patterns. Each lookup reaches a new key, so no
// limit is enough. Without a reference there are two keys.
pub(crate) const GROWING: &str = r##"[
["refused by the limit", {"properties":{"n":{"$ref":"#"}}}, null, 1, []],
["refused by the limit", {"properties":{"n":{"$ref":"#"}}}, null, 7, []],
["refused by the limit", {"properties":{"n":{"$ref":"#"}}}, null, 1000, []],
["yes", {"properties":{"n":{}}}, null, 2, []]
]"##;
