//! The search over the outcomes of unfinished matches.
//!
//! The search borrows its runs as a function. So it knows no nodes, and its contracts count the
//! calls of that function.
ghost use Rattle.std.specs.Prelude.{[], IfOk, IsSome, None, Ok, Some, false, true, ◌++◌, ◌∷◌, ◌≡◌, ◌≤◌, OnOk};
ghost use Rattle.theory_definitions.specs.Cover.{assuming};
ghost use Rattle.theory_meaning.specs.Search.{UsesBelow};
ghost use Rattle.theory_definitions.specs.Unfinished.{Failure, FirstIsNew, located_by, starting};
ghost use Rattle.unfinished_search.specs.Outcomes.{AreOutcomes, by_run};

use schema_reports::OutOfMemory;
use std::alloc::Global;
use unfinished_matches::{AssumedOutcomes, MatchAssumptions, MatchFailure, UnfinishedMatch};

/// The default limit on the number of runs that a call makes.
///
/// It includes the first run, and suffices for 32 combinations of outcomes.
pub const MAX_ASSUMED_RUNS: u32 = 64;

/// The result of a search.
#[derive(Drop)]
pub enum Outcomes<'i, T> {
    /// One result for each combination of outcomes.
    ///
    /// The failure is reported if the results share no error.
    Assumed {
        results: Vec<T>,
        failure: MatchFailure<'i>,
    },
    /// There are more combinations than the search may try.
    ///
    /// The failure is reported.
    Undecided(MatchFailure<'i>),
}

// Pushes the list that also assumes this outcome of the match.
fn push_one(
    alloc: Global,
    pending: &mut Vec<AssumedOutcomes>,
    assumed: &AssumedOutcomes,
    unfinished: &UnfinishedMatch,
    matches: bool,
) -> Result<(), OutOfMemory>
    ensures { OnOk result (pending.new.items
        ≡ pending.old.items ++ (record { pair = unfinished.now; outcome = matches } ∷ assumed.now) ∷ []) }
{
    let unfinished = unfinished.clone()?;
    pending.push(assumed.clone()?.with(unfinished, matches)?)?;
    Ok(())
}

// Pushes the two lists that also assume an outcome of the match: first yes, then no.
fn push_both(
    alloc: Global,
    pending: &mut Vec<AssumedOutcomes>,
    assumed: &AssumedOutcomes,
    unfinished: &UnfinishedMatch,
) -> Result<(), OutOfMemory>
    ensures { OnOk result (pending.new.items ≡ pending.old.items ++ (record { pair = unfinished.now; outcome = true } ∷ assumed.now) ∷ []
        ++ (record { pair = unfinished.now; outcome = false } ∷ assumed.now) ∷ []) }
{
    push_one(alloc, pending, assumed, unfinished, true)?;
    push_one(alloc, pending, assumed, unfinished, false)
}

// Returns the two lists that follow from the first run, and the failure.
//
// The failure is the match that the run met, located by the sites that it remembers.
fn begin<'i>(
    alloc: Global,
    first: MatchAssumptions<'i>,
) -> Result<(Vec<AssumedOutcomes>, MatchFailure<'i>), OutOfMemory>
    requires met { IsSome first.unassumed }
    ensures pending { (u : Failure) → first.entry.unassumed ≡ Some u → IfOk result (λ r. r.0.items
        ≡ assuming u.met true first.entry.assumptions ∷ assuming u.met false first.entry.assumptions ∷ []) }
    ensures failure { (u : Failure) → first.entry.unassumed ≡ Some u → IfOk result (λ r. r.1 ≡ located_by u first.entry.located) }
    ensures is_new { FirstIsNew first.entry }
{
    let (assumed, unassumed, located) = first.into_parts();
    let mut failure = unassumed.unwrap();
    failure.locate(located);
    let mut pending = Vec::new(alloc);
    let pushed = push_both(alloc, &mut pending, &assumed, failure.unfinished());
    drop(assumed);
    match pushed {
        Ok(()) => Ok((pending, failure)),
        Err(error) => {
            drop((pending, failure));
            Err(error)
        }
    }
}

// Returns the match that the run met and did not assume.
//
// If the failure has no instance path, it moves to the first site of its match that the run
// remembers.
fn take_met<'i>(
    met: MatchAssumptions<'i>,
    failure: &mut MatchFailure<'i>,
) -> Option<MatchFailure<'i>>
    ensures unassumed { result ≡ met.entry.unassumed }
    ensures located { failure.new ≡ located_by failure.old met.entry.located }
    ensures is_new { FirstIsNew met.entry }
{
    let (_, unassumed, located) = met.into_parts();
    failure.locate(located);
    unassumed
}

fn run_from<
    'i,
    T,
    F: FnMut(MatchAssumptions<'i>) -> Result<(MatchAssumptions<'i>, T), OutOfMemory>,
>(
    alloc: Global,
    run: &mut F,
    outcomes: &AssumedOutcomes,
) -> Result<(MatchAssumptions<'i>, T), OutOfMemory>
    requires callable { F.IsAlwaysCallable run.old }
    ensures callable { F.IsAlwaysCallable run.new }
    ensures made { IfOk result (λ r. F.step run.old (starting outcomes.now) (Ok r) run.new) }
    ensures used { UsesBelow 2 F.step run.old run.new }
{
    let start = outcomes.start(alloc)?;
    run(start)
}

// Processes the return value of a run that assumed these outcomes.
//
// The sites of the run locate the failure. If the run met a match that it did not assume, then the
// two lists that also assume an outcome of that match are pushed; otherwise the result of the run
// is one of the search's results.
fn take<'i, T: Drop>(
    alloc: Global,
    outcomes: &AssumedOutcomes,
    given: (MatchAssumptions<'i>, T),
    pending: &mut Vec<AssumedOutcomes>,
    results: &mut Vec<T>,
    failure: &mut MatchFailure<'i>,
) -> Result<(), OutOfMemory>
    ensures located { failure.new ≡ located_by failure.old given.entry.0.located }
    ensures is_new { FirstIsNew given.entry.0 }
    ensures whole { given.entry.0.unassumed ≡ None → IfOk result
        (λ _. (pending.new.items ≡ pending.old.items) × (results.new.items ≡ results.old.items ++ given.entry.1 ∷ [])) }
    ensures branches { (u : Failure) → given.entry.0.unassumed ≡ Some u → IfOk result (λ _. (pending.new.items
        ≡ pending.old.items ++ assuming u.met true outcomes.now ∷ [] ++ assuming u.met false outcomes.now ∷ [])
        × (results.new.items ≡ results.old.items)) }
{
    let (met, result) = given;
    match take_met(met, failure) {
        None => {
            results.push(result)?;
            Ok(())
        }
        Some(next) => {
            drop(result);
            let pushed = push_both(alloc, pending, outcomes, next.unfinished());
            drop(next);
            pushed
        }
    }
}

/// Makes the runs that unfinished matches require, but at most `run_limit` runs.
///
/// The limit includes the first run, which has been made and has met such a match, and holds also
/// if a run fails. If the result is `Assumed`, then `run` was called for these runs only, and not
/// again after the last of them.
///
/// # Errors
///
/// Out of memory, here or in a run.
pub fn assume_within<
    'i,
    T: Drop,
    F: FnMut(MatchAssumptions<'i>) -> Result<(MatchAssumptions<'i>, T), OutOfMemory>,
>(
    alloc: Global,
    run: &mut F,
    first: MatchAssumptions<'i>,
    run_limit: u32,
) -> Result<Outcomes<'i, T>, OutOfMemory>
    requires callable { F.IsAlwaysCallable run.old }
    requires met { IsSome first.unassumed }
    requires limit { 1 ≤ run_limit }
    ensures outcomes { IfOk result (AreOutcomes (by_run F.step) first.entry run.old run_limit run.new) }
    ensures uses { UsesBelow run_limit F.step run.old run.new }
{
    let (mut pending, mut failure) = begin(alloc, first)?;
    let mut results = Vec::new(alloc);
    let mut runs = 1;
    while let Some(outcomes) = pending.pop() {
        if runs == run_limit {
            drop((outcomes, pending, results));
            return Ok(Outcomes::Undecided(failure));
        }
        runs += 1;
        let given = match run_from(alloc, run, &outcomes) {
            Ok(given) => given,
            Err(error) => {
                drop((outcomes, pending, results, failure));
                return Err(error);
            }
        };
        let taken = take(
            alloc,
            &outcomes,
            given,
            &mut pending,
            &mut results,
            &mut failure,
        );
        drop(outcomes);
        if let Err(error) = taken {
            drop((pending, results, failure));
            return Err(error);
        }
    }
    drop(pending);
    Ok(Outcomes::Assumed { results, failure })
}

/// Runs once for each combination of outcomes, and returns the results.
///
/// Returns `Undecided` if that takes more than `run_limit` runs, including the first one, which has
/// been made and has met an unfinished match. The limit holds also if a run fails. If the result is
/// `Assumed`, then `run` was called for these runs only, and not again after the last of them.
///
/// # Errors
///
/// Out of memory, here or in a run.
pub fn assume_each_outcome<
    'i,
    T: Drop,
    F: FnMut(MatchAssumptions<'i>) -> Result<(MatchAssumptions<'i>, T), OutOfMemory>,
>(
    alloc: Global,
    run: &mut F,
    first: (MatchAssumptions<'i>, T),
    run_limit: u32,
) -> Result<Outcomes<'i, T>, OutOfMemory>
    requires callable { F.IsAlwaysCallable run.old }
    requires met { IsSome first.0.unassumed }
    requires limit { 1 ≤ run_limit }
    ensures outcomes { IfOk result (AreOutcomes (by_run F.step) first.entry.0 run.old run_limit run.new) }
    ensures uses { UsesBelow run_limit F.step run.old run.new }
{
    let (first, result) = first;
    drop(result);
    assume_within(alloc, run, first, run_limit)
}
