//! `x-items`, whose runs mark the number that its maker was given.
//!
//! A maker of the same object, reached in another resource before the first one has ended, is given
//! the number that the first one reserved. The numbers are in keywords of a custom type, so the
//! rows of `test_check_rows` do not see them.
use crate::asking::{built_by, push_refusal};
use schema_reports::OutOfMemory;
use schema_traits::KeywordTable;
use serde_json::Value;
use std::alloc::Global;
use test_parts::{Numbered, push_nodes};

/// Adds the nodes of a row's schema, or why there are none.
pub(crate) fn tell_numbers<K: Numbered, T: KeywordTable<K>>(
    alloc: Global,
    table: &T,
    row: &Value,
    log: &mut String,
) -> Result<(), OutOfMemory> {
    match built_by(alloc, table, row) {
        Ok(validator) => {
            let told = push_nodes(validator.nodes(), log);
            drop(validator);
            told
        }
        Err(error) => push_refusal(error, log),
    }
}

// A stroke for each node, and the number that each keyword that marks was given; schema, nothing,
// nothing, no patterns. (The answers for this schema are tested by rows of `test_check_rows`.)
pub(crate) const RESERVATIONS: &str = r##"[
["||||| first first",
 {"$ref":"#/$defs/e/$defs/t","$defs":{"e":{"$id":"http://x/e","$defs":{"t":{"type":"array","x-items":{"$ref":"#/$defs/t"}}}}}},
 null, null, []]
]"##;
