//! How many evaluation paths are kept.
//!
//! None of the first 4,095 paths under a reference is kept; from then on each path that is
//! requested is kept once. Clauses state which path a call returns, but not how many are kept.
use schema_reports::{Location, OutOfMemory};
use schema_run_context::{EvaluationPath, KeptPaths};
use serde_json::Value;
use std::alloc::Global;
use test_rows::{column, list_at, text_at};

/// Requests the path of a turn's keyword as many times as the turn says.
///
/// The keyword's path continues `path`. Then adds how many paths are kept.
fn push_kept(
    alloc: Global,
    kept: &mut KeptPaths,
    path: &EvaluationPath<'_>,
    turn: &Value,
    log: &mut String,
) -> Result<(), OutOfMemory> {
    for _ in 0..column(turn, 2).as_u64().unwrap_or(0) {
        let _path = kept.evaluation_path(alloc, path, text_at(turn, 1), "/0")?;
    }
    let count = kept.len();
    write!(log, "{count};")
}

/// Like `push_kept`, for the path that a turn names.
fn push_turn(
    alloc: Global,
    kept: &mut KeptPaths,
    start: &Location,
    reference: &Location,
    turn: &Value,
    log: &mut String,
) -> Result<(), OutOfMemory> {
    let plain = EvaluationPath::given(start);
    let under = plain.under_reference();
    let target = under.across(reference);
    match text_at(turn, 0) {
        "target" => push_kept(alloc, kept, &target, turn, log),
        "under" => push_kept(alloc, kept, &under, turn, log),
        _ => push_kept(alloc, kept, &plain, turn, log),
    }
}

/// Adds how many paths are kept after each turn of a row.
pub(crate) fn tell_kept(alloc: Global, row: &Value, log: &mut String) -> Result<(), OutOfMemory> {
    let start = Location::from_escaped(alloc, "/allOf/0")?;
    let reference = Location::from_escaped(alloc, "/$ref")?;
    let mut kept = KeptPaths::new(alloc);
    for turn in list_at(row, 1) {
        push_turn(alloc, &mut kept, &start, &reference, turn, log)?;
    }
    Ok(())
}

// The number of kept paths after each turn, and the turns: which path, the keyword, and how many
// calls. Paths under no reference are not counted, and not kept past the threshold. Past it, each
// further path and each further keyword adds one, and repeated ones add none.
pub(crate) const KEPT: &str = r##"[
["0;0;1;1;",
 [["target", "x~y", 1], ["target", "x~y", 4094], ["target", "x~y", 1], ["target", "x~y", 904]]],
["0;0;0;1;1;",
 [["plain", "x~y", 5000], ["target", "x~y", 4095], ["plain", "x~y", 10], ["target", "x~y", 1], ["plain", "x~y", 10]]],
["1;1;2;3;3;3;3;",
 [["target", "type", 5000], ["target", "type", 1], ["target", "enum", 1], ["under", "type", 1], ["target", "type", 1],
  ["target", "enum", 1], ["under", "type", 1]]]
]"##;
