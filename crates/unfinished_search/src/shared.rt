//! Combines the results of a search into one verdict or one list of errors.
ghost use Rattle.std.specs.Prelude.{◌≡◌, ◌++◌, ◌∷◌, [], IfOk, filter, map, option_map, OnOk};
ghost use Rattle.std.specs.List.{list_all};
ghost use Rattle.unfinished_search.specs.Outcomes.{AreErrors, is_yes};
ghost use Rattle.unfinished_search.specs.SharedResults.{AreShared, IsSharedBy, OneError};
ghost use Rattle.unfinished_search.specs.SharedResults.{in_each_of, is_empty, or_none};
ghost use Rattle.serde_json.specs.View.{view};

use super::keyed::{KeyedErrors, is_in_each, keyed};
use super::search::Outcomes;
use schema_reports::{OutOfMemory, ValidationError};
use serde_json::Value;
use std::alloc::Global;
use unfinished_matches::MatchFailure;

fn all_valid(results: &[bool]) -> bool
    ensures { result ≡ list_all (λ b. b) results.now }
{
    for (i, valid) in results.iter().enumerate() {
        if !*valid {
            return false;
        }
    }
    true
}

/// Returns `true` if every result is `true`.
///
/// Returns `false` if there were too many combinations.
pub fn validity(outcomes: Outcomes<'_, bool>) -> bool
    ensures yes { result ≡ is_yes outcomes.entry }
{
    match outcomes {
        Outcomes::Assumed { results, failure } => {
            drop(failure);
            all_valid(&results)
        }
        Outcomes::Undecided(failure) => {
            drop(failure);
            false
        }
    }
}

fn are_empty(results: &[Vec<ValidationError<'_>>]) -> bool
    ensures { result ≡ list_all is_empty (map (λ r. r.items) results.now) }
{
    for (i, one) in results.iter().enumerate() {
        if !one.is_empty() {
            return false;
        }
    }
    true
}

// Pushes the error if each of the results has its key.
fn keep_shared<'i>(
    alloc: Global,
    kept: &mut Vec<ValidationError<'i>>,
    error: ValidationError<'i>,
    results: &[KeyedErrors<'i>],
) -> Result<(), OutOfMemory>
    ensures kept { OnOk result (kept.new.items ≡ kept.old.items ++ filter (in_each_of results.now) (error.entry ∷ [])) }
{
    if is_in_each(alloc, results, &error)? {
        kept.push(error)?;
    } else {
        drop(error);
    }
    Ok(())
}

// Returns, in order, the errors whose key occurs in each of the results.
fn kept<'i>(
    alloc: Global,
    errors: Vec<ValidationError<'i>>,
    results: &[KeyedErrors<'i>],
) -> Result<Vec<ValidationError<'i>>, OutOfMemory>
    ensures kept { IfOk result (λ k. k.items ≡ filter (in_each_of results.now) errors.entry.items) }
{
    let mut kept = Vec::new(alloc);
    let mut left = errors;
    left.reverse();
    while let Some(error) = left.pop() {
        keep_shared(alloc, &mut kept, error, results)?;
    }
    Ok(kept)
}

fn all_empty(others: &[Vec<ValidationError<'_>>], last: &[ValidationError<'_>]) -> bool
    ensures { result ≡ list_all is_empty (map (λ r. r.items) others.now ++ last.now ∷ []) }
{
    are_empty(others) && last.is_empty()
}

// Returns `None` if no error is shared although some result has one.
fn or_none<'i>(shared: Vec<ValidationError<'i>>, empty: bool) -> Option<Vec<ValidationError<'i>>>
    ensures { option_map (λ r. r.items) result ≡ or_none shared.entry.items empty }
{
    if shared.is_empty() && !empty {
        None
    } else {
        Some(shared)
    }
}

// Returns the errors that all results share, or `None` if they share none although one has errors.
fn shared_errors<'i>(
    alloc: Global,
    results: Vec<Vec<ValidationError<'i>>>,
) -> Result<Option<Vec<ValidationError<'i>>>, OutOfMemory>
    ensures shared { IfOk result (λ o. IsSharedBy (map (λ r. r.items) results.entry.items) (option_map (λ r. r.items) o)) }
{
    let mut others = results;
    let Some(last) = others.pop() else {
        return Ok(Some(Vec::new(alloc)));
    };
    let empty = all_empty(&others, &last);
    let others = keyed(alloc, others)?;
    let shared = kept(alloc, last, &others)?;
    Ok(or_none(shared, empty))
}

// Returns the failure as the only error.
fn failure_alone<'i>(
    alloc: Global,
    failure: MatchFailure<'i>,
    root: &'i Value,
) -> Result<Vec<ValidationError<'i>>, OutOfMemory>
    ensures alone { IfOk result (λ es. OneError (view root.now) failure.entry es.items) }
{
    let error = failure.into_error(alloc, root)?;
    let mut alone = Vec::new(alloc);
    alone.push(error)?;
    Ok(alone)
}

// Returns the shared errors, or the failure alone if none are shared although a result has errors.
fn shared_or_failure<'i>(
    alloc: Global,
    results: Vec<Vec<ValidationError<'i>>>,
    failure: MatchFailure<'i>,
    root: &'i Value,
) -> Result<Vec<ValidationError<'i>>, OutOfMemory>
    ensures shared { IfOk result (λ es. AreShared (view root.now) failure.entry (map (λ r. r.items) results.entry.items) es.items) }
{
    match shared_errors(alloc, results) {
        Ok(Some(shared)) => {
            drop(failure);
            Ok(shared)
        }
        Ok(None) => failure_alone(alloc, failure, root),
        Err(error) => {
            drop(failure);
            Err(error)
        }
    }
}

/// Returns the errors that every result has, in the order of the last result.
///
/// Returns the failure alone if no error is shared although some result has one, or if there were
/// too many combinations.
pub fn errors<'i>(
    alloc: Global,
    outcomes: Outcomes<'i, Vec<ValidationError<'i>>>,
    root: &'i Value,
) -> Result<Vec<ValidationError<'i>>, OutOfMemory>
    ensures shared { IfOk result (λ es. AreErrors (view root.now) outcomes.entry es.items) }
{
    match outcomes {
        Outcomes::Undecided(failure) => failure_alone(alloc, failure, root),
        Outcomes::Assumed { results, failure } => shared_or_failure(alloc, results, failure, root),
    }
}
