//! A vocabulary that only one draft requires, which no member of a row can express.
//!
//! A map checks the vocabularies that its root requires, but not those that its entries require.
use crate::asking::push_refusal;
use bench_parts::{BenchMatcher, BenchMeta};
use bench_program::narrow_resolver;
use schema_engine::{Draft, ValidationOptions, ValidatorMap, VocabularySet};
use schema_keys::BuildError;
use schema_reports::OutOfMemory;
use schema_traits::{KeywordTable, Matcher, Resolver, Validate};
use serde_json::Value;
use standard_basics::{BasicKeyword, BasicTable};
use standard_resolver::DocumentResolver;
use std::alloc::Global;
use test_parts::requiring_in_2019_09;
use test_rows::{column, text_at};

/// Builds the map of a row's schema.
fn map_of<K: Validate, T: KeywordTable<K>, R: Resolver, M: Matcher>(
    alloc: Global,
    table: &T,
    resolver: &R,
    matcher: &M,
    row: &Value,
) -> Result<ValidatorMap<K, M>, BuildError> {
    let options = ValidationOptions::new(alloc);
    let map = options.build_map::<R, T, K, M, BenchMeta>(
        alloc,
        column(row, 1),
        table,
        resolver,
        matcher,
        &BenchMeta {},
    );
    drop(options);
    map
}

/// Adds whether the map has the name in column 2, or why there is no map.
fn tell_name<K: Validate, T: KeywordTable<K>, R: Resolver, M: Matcher>(
    alloc: Global,
    table: &T,
    resolver: &R,
    matcher: &M,
    row: &Value,
    log: &mut String,
) -> Result<(), OutOfMemory> {
    match map_of::<K, T, R, M>(alloc, table, resolver, matcher, row) {
        Ok(map) => {
            let has = map.contains_key(text_at(row, 2));
            drop(map);
            log.push_str(if has { "yes" } else { "no" })
        }
        Err(error) => push_refusal(error, log),
    }
}

/// Like `tell_name`, with a vocabulary that only 2019-09 requires.
pub(crate) fn tell_names(alloc: Global, row: &Value, log: &mut String) -> Result<(), OutOfMemory> {
    let by_draft = requiring_in_2019_09(alloc)?;
    let vocabularies = VocabularySet::new(alloc);
    match narrow_resolver(alloc, Draft::Draft202012, column(row, 1), vocabularies) {
        Ok(plain) => {
            let resolver = plain.with_draft_vocabularies(by_draft);
            let matcher = BenchMatcher::new(Vec::new(alloc));
            let told = tell_name::<BasicKeyword, BasicTable, DocumentResolver, BenchMatcher>(
                alloc,
                &BasicTable {},
                &resolver,
                &matcher,
                row,
                log,
            );
            drop(matcher);
            drop(resolver);
            told
        }
        Err(failed) => {
            drop(by_draft);
            Err(failed)
        }
    }
}

// Whether the map has the name, schema, name. The subschema `a` requires the vocabulary. It is in
// the map, even if another schema refers to it; the schema that refers to it is not.
pub(crate) const VOCABULARIES: &str = r##"[
["yes", {"$defs":{"a":{"$schema":"https://json-schema.org/draft/2019-09/schema"}}}, "#/$defs/a"],
["yes", {"$defs":{"a":{"$schema":"https://json-schema.org/draft/2019-09/schema"},"b":{"$ref":"#/$defs/a"}}}, "#/$defs/a"],
["no", {"$defs":{"a":{"$schema":"https://json-schema.org/draft/2019-09/schema"},"b":{"$ref":"#/$defs/a"}}}, "#/$defs/b"]
]"##;
