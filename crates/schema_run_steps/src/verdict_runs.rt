//! Helpers for a keyword's run for its verdict.
//!
//! A run takes stack space for each level of an instance, so rare steps are functions that are not
//! inlined.
ghost use Rattle.std.specs.Prelude.{◌≡◌, Bool};
ghost use Rattle.schema_traits.specs.KeywordViews.{reply_of};
ghost use Rattle.schema_run_steps.specs.FaultWords.{IsVerdictOf};
ghost use Rattle.schema_run_steps.specs.VerdictRuns.{told_reply};

use crate::faults::is_accepting;
use schema_traits::{Answer, Reply};

/// Returns the verdict of an answer.
#[inline(always)]
pub fn verdict_of(answer: Answer<'_>) -> bool
    ensures verdict { IsVerdictOf answer.entry result }
{
    match answer {
        Answer::Verdict(valid) => valid,
        other => other_verdict(other),
    }
}

// Returns the verdict of an answer in another mode. Not inlined, to keep the caller's stack frame
// small.
#[inline(never)]
fn other_verdict(answer: Answer<'_>) -> bool
    ensures verdict { IsVerdictOf answer.entry result }
{
    is_accepting(answer)
}

/// Drops an answer.
// Not inlined, to keep the caller's stack frame small.
#[inline(never)]
pub fn dropped(answer: Answer<'_>) {
    drop(answer);
}

/// Returns the reply that a turn gets: nothing, or a verdict.
#[inline(always)]
pub fn reply_with<'i>(told: Option<bool>) -> Reply<'i>
    ensures told { (texts : Bool) → reply_of texts result ≡ told_reply told }
{
    match told {
        None => Reply::Nothing,
        Some(truth) => Reply::Truth(truth),
    }
}
