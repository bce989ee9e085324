//! The engine's answers to cases.
ghost use Rattle.std.specs.Prelude.{◌≡◌, IfOk};
ghost use Rattle.serde_json.specs.View.{view};
ghost use Rattle.test_rows.specs.Calls.{no_case};
ghost use Rattle.test_rows.specs.Cases.{IsNoCase};

use crate::building::answered;
use crate::checking::checked;
use crate::clones::answered_alike;
use crate::free_calls::answered_free;
use crate::maps::answered_by_map;
use example_fused_keywords::FusedTable;
use example_keywords::StringTable;
use keyword_joins::BothTable;
use keyword_makers::TableByValue;
use schema_engine::{KeywordTable, OutOfMemory, Validate};
use serde_json::{Value, json};
use standard_basics::BasicTable;
use std::alloc::Global;
use test_laws::ItemsTable;
use test_rows::{Call, Case, Table};

// Returns the engine's answer to a case by a table.
fn answer_by<K: Validate, T: KeywordTable<K>>(
    alloc: Global,
    case: &Case<'_>,
    table: &T,
) -> Result<Value, OutOfMemory> {
    match case.call {
        Call::Validator(question) => answered(alloc, case, table, question),
        Call::Clones(question) => answered_alike(alloc, case, question),
        Call::Map(question) => answered_by_map(alloc, case, table, question),
        Call::Free => answered_free(alloc, case, table),
        Call::Check => checked(alloc, case),
    }
}

// Returns the table of `x-suffix`, `x-both` and `x-contains-between`; all other names are those of
// `bench_parts`.
fn strings_table() -> BothTable<TableByValue<StringTable>, BasicTable> {
    BothTable {
        first: TableByValue {
            keywords: StringTable {},
        },
        first_names: &["x-suffix", "x-both", "x-contains-between"],
        second: BasicTable {},
    }
}

/// Returns the engine's answer to a case.
///
/// The answer is the one that the case's call requests, or one of these:
///
/// - If the schema is refused, it is `{"refused": number, "at": place, "text": text}`. The place is
///   `null` for refusals that have none.
/// - If calls that should agree do not, it is `{"disagree": ..}`.
/// - If the value is not a case, it is `{"fault": text}`.
///
/// The table of the standard's keywords is in a crate that this one does not depend on, so it is
/// passed in. It answers a case whose table is `standard`.
///
/// # Errors
///
/// Out of memory.
pub fn answer<K: Validate, T: KeywordTable<K>>(
    alloc: Global,
    case: &Value,
    standard: &T,
) -> Result<Value, OutOfMemory>
    ensures fault { IfOk result (λ v. IsNoCase (view case.now) → view v ≡ no_case) }
{
    let Some(case) = Case::read(case) else {
        return json!(in alloc; {"fault": "no case"});
    };
    match case.table {
        Table::Bench => answer_by(alloc, &case, &BasicTable {}),
        Table::Fused => answer_by(alloc, &case, &FusedTable {}),
        Table::Items => answer_by(alloc, &case, &ItemsTable {}),
        Table::Strings => answer_by(alloc, &case, &strings_table()),
        Table::Standard => answer_by(alloc, &case, standard),
    }
}
