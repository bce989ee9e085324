//! The answers of calls that search over the outcomes of unfinished matches.
//!
//! If the runs of the search are those of a sense, then the answer is what the sense says under
//! every combination of outcomes.
ghost use Rattle.std.specs.Prelude.{Bool, IfOk, IsSome, true, ◌↔◌, ◌≡◌, ◌≤◌, OnOk};
ghost use Rattle.serde_json.specs.View.{view};
ghost use Rattle.theory_definitions.specs.Cover.{Call, Decides, Sense, validate};
ghost use Rattle.theory_meaning.specs.Headline.{ErrorsOf, FirstSays, VerdictSays};
ghost use Rattle.theory_meaning.specs.Members.{Follows, verdict_of};
ghost use Rattle.unfinished_search.specs.Outcomes.{by_run, errors_in, none_in};
ghost use Rattle.theory_definitions.specs.Runs.{first_error};
ghost use Rattle.theory_meaning.specs.Search.{UsesBelow};
ghost use Rattle.theory_meaning.specs.Searched.{IsRunOf, Reaches, WantsAllLater};
ghost use Rattle.unfinished_search.specs.RunCounts.{MakesFurther};
ghost use Rattle.unfinished_search.specs.RunsOf.{OfFollowed, OfRuns, has_none};
ghost use Rattle.unfinished_search.specs.SearchGives.{GivesErrors};
ghost use Rattle.theory_meaning.specs.Shared.{EachAccepts, errors_of};

use super::search::assume_each_outcome;
use super::shared::{errors, validity};
use schema_reports::{OutOfMemory, ValidationError};
use serde_json::Value;
use std::alloc::Global;
use unfinished_matches::MatchAssumptions;

/// Returns whether the instance is valid under each combination of outcomes.
///
/// Also returns `false` if the call cannot decide within `run_limit` runs. The limit includes the
/// first run, which has been made and has met an unfinished match, and holds also if a run fails.
/// The function makes as many runs as the call does for the sense that these runs belong to, one
/// after another, and leaves `run` in the state after the last one.
///
/// # Errors
///
/// Out of memory, here or in a run.
pub fn validity_under_each<
    'i,
    F: FnMut(MatchAssumptions<'i>) -> Result<(MatchAssumptions<'i>, bool), OutOfMemory>,
>(
    alloc: Global,
    run: &mut F,
    first: (MatchAssumptions<'i>, bool),
    run_limit: u32,
) -> Result<bool, OutOfMemory>
    requires callable { F.IsAlwaysCallable run.old }
    requires met { IsSome first.0.unassumed }
    requires limit { 1 ≤ run_limit }
    ensures says { OfFollowed (by_run F.step) first.entry.0 run.old (λ (b : Bool). b) verdict_of
        (λ v call. IfOk result (VerdictSays v run_limit call)) }
    ensures exactly { OfFollowed (by_run F.step) first.entry.0 run.old (λ (b : Bool). b) verdict_of
        (λ v call. IfOk result (λ b. (b ≡ true) ↔ (Decides v run_limit call × EachAccepts v))) }
    ensures makes { OfRuns (by_run F.step) first.entry.0 run.old (λ (b : Bool). b) verdict_of
        (λ v call. OnOk result (MakesFurther v run_limit call (by_run F.step) run.old run.new)) }
    ensures reaches { OnOk result (Reaches (by_run F.step) run.old run.new) }
    ensures uses { UsesBelow run_limit F.step run.old run.new }
{
    Ok(validity(assume_each_outcome(alloc, run, first, run_limit)?))
}

/// Returns the errors that hold under each combination of outcomes.
///
/// Returns one failure if there is no such error although the instance is not always valid, or if
/// the call cannot decide within `run_limit` runs. The limit includes the first run, which has been
/// made and has met an unfinished match, and holds also if a run fails. The function makes as many
/// runs as the call does for the sense that these runs belong to, one after another, and leaves
/// `run` in the state after the last one.
///
/// # Errors
///
/// Out of memory, here or in a run.
pub fn errors_under_each<
    'i,
    F: FnMut(
        MatchAssumptions<'i>,
    ) -> Result<(MatchAssumptions<'i>, Vec<ValidationError<'i>>), OutOfMemory>,
>(
    alloc: Global,
    run: &mut F,
    first: (MatchAssumptions<'i>, Vec<ValidationError<'i>>),
    run_limit: u32,
    root: &'i Value,
) -> Result<Vec<ValidationError<'i>>, OutOfMemory>
    requires callable { F.IsAlwaysCallable run.old }
    requires met { IsSome first.0.unassumed }
    requires limit { 1 ≤ run_limit }
    ensures errors { (v : Sense) (call : Call) → WantsAllLater call → Follows v
        → IsRunOf v call (by_run F.step) first.entry.0 run.old errors_in (errors_of v)
        → IfOk result (λ es. ErrorsOf v run_limit call (errors_in es)) }
    ensures first { (v : Sense) → Follows v → IsRunOf v validate (by_run F.step) first.entry.0 run.old errors_in (errors_of v)
        → IfOk result (λ es. FirstSays v run_limit (first_error (errors_in es))) }
    ensures verdict { OfFollowed (by_run F.step) first.entry.0 run.old none_in has_none
        (λ v call. IfOk result (λ es. VerdictSays v run_limit call (none_in es))) }
    ensures gives { OfRuns (by_run F.step) first.entry.0 run.old none_in has_none
        (λ v call. IfOk result (λ es. GivesErrors v call run_limit (by_run F.step) run.old (view root.now) es.items)) }
    ensures makes { OfRuns (by_run F.step) first.entry.0 run.old none_in has_none
        (λ v call. OnOk result (MakesFurther v run_limit call (by_run F.step) run.old run.new)) }
    ensures reaches { OnOk result (Reaches (by_run F.step) run.old run.new) }
    ensures uses { UsesBelow run_limit F.step run.old run.new }
{
    let outcomes = assume_each_outcome(alloc, run, first, run_limit)?;
    Ok(errors(alloc, outcomes, root)?)
}
