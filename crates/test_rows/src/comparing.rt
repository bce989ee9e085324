//! Whether an answer is the one that a row wants.
ghost use Rattle.std.specs.Prelude.{◌≡◌};
ghost use Rattle.serde_json.specs.View.{items_view, view};
ghost use Rattle.test_rows.specs.Wanted.{are_errors, are_these_errors, begins_with, has_columns, is_count, is_error, is_this_count, ends_as_wanted};
ghost use Rattle.test_rows.specs.Wanted.{are_in, are_names, are_these_names, is_as_wanted, is_in, is_refusal};
ghost use Rattle.test_rows.specs.Wanted.{is_answer, is_answer_of, is_map_answer, is_wanted};

use crate::call::{Call, MapQuestion, Question};
use crate::equality::is_same;
use serde_json::Value;

// Returns whether the columns of an error begin with those that a row names.
fn begins_with(columns: &[Value], names: &[Value]) -> bool
    ensures begins { result ≡ begins_with (items_view columns.now) (items_view names.now) }
{
    let mut others = columns.iter();
    for name in names {
        match others.next() {
            Some(column) => {
                if !is_same(column, name) {
                    return false;
                }
            }
            None => return false,
        }
    }
    true
}

// Like `begins_with`, but the row has to name at least one column.
#[tactic(auto, using(crate::proofs::Lists::has_columns_where_named))]
fn has_columns(columns: &[Value], names: &[Value]) -> bool
    ensures columns { result ≡ has_columns (items_view columns.now) (items_view names.now) }
{
    !names.is_empty() && begins_with(columns, names)
}

// Returns whether an error has the columns that a row names; a row may leave out the last ones.
fn is_error(given: &Value, want: &Value) -> bool
    ensures error { result ≡ is_error (view given.now) (view want.now) }
{
    let Some(names) = want.as_array() else {
        return is_same(given, want);
    };
    let Some(columns) = given.as_array() else {
        return false;
    };
    has_columns(columns.as_slice(), names.as_slice())
}

// Returns whether these errors have the columns that a row names, in order.
fn are_these_errors(errors: &[Value], wanted: &[Value]) -> bool
    ensures errors { result ≡ are_these_errors (items_view errors.now) (items_view wanted.now) }
{
    let mut others = wanted.iter();
    for error in errors {
        match others.next() {
            Some(other) => {
                if !is_error(error, other) {
                    return false;
                }
            }
            None => return false,
        }
    }
    others.next().is_none()
}

fn are_errors(given: &Value, want: &Value) -> bool
    ensures errors { result ≡ are_errors (view given.now) (view want.now) }
{
    let Some(wanted) = want.as_array() else {
        return is_same(given, want);
    };
    let Some(errors) = given.as_array() else {
        return false;
    };
    are_these_errors(errors.as_slice(), wanted.as_slice())
}

// Returns whether a count and two errors are those that a row names.
fn is_this_count(parts: &[Value], wanted: &[Value]) -> bool
    ensures count { result ≡ is_this_count (items_view parts.now) (items_view wanted.now) }
{
    let [count, first, last] = parts else {
        return false;
    };
    let [wanted_count, wanted_first, wanted_last] = wanted else {
        return false;
    };
    is_same(count, wanted_count) && is_error(first, wanted_first) && is_error(last, wanted_last)
}

fn is_count(given: &Value, want: &Value) -> bool
    ensures count { result ≡ is_count (view given.now) (view want.now) }
{
    let Some(wanted) = want.as_array() else {
        return is_same(given, want);
    };
    let Some(parts) = given.as_array() else {
        return false;
    };
    is_this_count(parts.as_slice(), wanted.as_slice())
}

fn is_in(value: &Value, all: &[Value]) -> bool
    ensures within { result ≡ is_in (view value.now) (items_view all.now) }
{
    for other in all {
        if is_same(value, other) {
            return true;
        }
    }
    false
}

fn are_in(values: &[Value], all: &[Value]) -> bool
    ensures within { result ≡ are_in (items_view values.now) (items_view all.now) }
{
    for value in values {
        if !is_in(value, all) {
            return false;
        }
    }
    true
}

// Returns whether these are the names of a row, in any order: as many, each one wanted, and each
// wanted one present.
#[tactic(auto, using(crate::proofs::Lists::same_count))]
fn are_these_names(names: &[Value], wanted: &[Value]) -> bool
    ensures names { result ≡ are_these_names (items_view names.now) (items_view wanted.now) }
{
    names.len() == wanted.len() && are_in(wanted, names) && are_in(names, wanted)
}

// Returns whether these are the names of a row, in any order.
fn are_names(given: &Value, want: &Value) -> bool
    ensures names { result ≡ are_names (view given.now) (view want.now) }
{
    let Some(wanted) = want.as_array() else {
        return is_same(given, want);
    };
    let Some(names) = given.as_array() else {
        return false;
    };
    are_these_names(names.as_slice(), wanted.as_slice())
}

// Returns whether a member is as the row wants it, if the row has it.
fn is_as_wanted(given: &Value, want: &Value, name: &str) -> bool
    ensures member { result ≡ is_as_wanted name.now (view given.now) (view want.now) }
{
    let Some(wanted) = want.get(name) else {
        return true;
    };
    match given.get(name) {
        Some(value) => is_same(value, wanted),
        None => false,
    }
}

// Returns whether the text of a refusal ends as the row wants it, if the row says so.
fn ends_as_wanted(given: &Value, want: &Value) -> bool
    ensures ends { result ≡ ends_as_wanted (view given.now) (view want.now) }
{
    let Some(end) = want.get("ends") else {
        return true;
    };
    let Some(text) = given.get("text").and_then(Value::as_str) else {
        return false;
    };
    match end.as_str() {
        Some(end) => text.ends_with(end),
        None => false,
    }
}

fn is_refusal(given: &Value, want: &Value) -> bool
    ensures refusal { result ≡ is_refusal (view given.now) (view want.now) }
{
    given.get("refused").is_some()
        && is_as_wanted(given, want, "refused")
        && is_as_wanted(given, want, "at")
        && is_as_wanted(given, want, "text")
        && ends_as_wanted(given, want)
}

fn is_answer(question: Question, given: &Value, want: &Value) -> bool
    ensures answer { result ≡ is_answer question (view given.now) (view want.now) }
{
    match question {
        Question::Errors | Question::IterErrors => are_errors(given, want),
        Question::First => is_error(given, want),
        Question::ErrorsCount => is_count(given, want),
        _ => is_same(given, want),
    }
}

fn is_map_answer(question: MapQuestion, given: &Value, want: &Value) -> bool
    ensures answer { result ≡ is_map_answer question (view given.now) (view want.now) }
{
    match question {
        MapQuestion::Names => are_names(given, want),
        MapQuestion::Errors => are_errors(given, want),
        MapQuestion::Draft => is_same(given, want),
    }
}

// Returns whether the answer to a call is the one that a row wants, if it wants no refusal.
fn is_answer_of(call: Call, given: &Value, want: &Value) -> bool
    ensures answer { result ≡ is_answer_of call (view given.now) (view want.now) }
{
    match call {
        Call::Validator(question) => is_answer(question, given, want),
        Call::Clones(question) => is_answer(question, given, want),
        Call::Map(question) => is_map_answer(question, given, want),
        Call::Free => are_errors(given, want),
        Call::Check => is_same(given, want),
    }
}

/// Returns whether the answer to a call is the wanted one.
///
/// A wanted error may leave out its last columns, and a wanted refusal everything but its number;
/// the wanted names of a map may come in any order. Does not allocate.
pub fn is_wanted(call: Call, given: &Value, want: &Value) -> bool
    ensures wanted { result ≡ is_wanted call (view given.now) (view want.now) }
{
    if want.get("refused").is_some() {
        is_refusal(given, want)
    } else {
        is_answer_of(call, given, want)
    }
}
