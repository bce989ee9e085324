//! Runs that request a match.
//!
//! Such a run asks whether a pattern matches a text, and reports an error if it does not.
ghost use Rattle.std.specs.Prelude.{◌≡◌};
ghost use Rattle.theory_definitions.specs.Keywords.{match_text};
ghost use Rattle.schema_traits.specs.KeywordViews.{turn_of};
ghost use Rattle.keyword_authoring.specs.MatchTurns.{TurnsMatch, StepsMatch};
ghost use Rattle.keyword_authoring.specs.Ways.{is_located, match_point};

use crate::answers::says_yes;
use crate::run::{Progress, Stage};
use schema_traits::{Mode, Reply, Step};

/// What a turn of a run that requests a match does.
#[derive(Clone, Copy)]
pub enum MatchTurn {
    /// It asks whether the pattern matches.
    Asks,
    /// It ends the run. The Boolean says whether the pattern matched.
    Answered(bool),
    /// The run had ended already.
    Over,
}

/// Takes a turn of a run that requests a match.
#[inline(always)]
pub fn match_on(run: &mut Progress, reply: Reply<'_>) -> MatchTurn
    ensures turns { TurnsMatch run.old reply.entry result run.new }
    ensures steps { StepsMatch run.old reply.entry result }
{
    let matches = says_yes(&reply);
    match run.stage {
        Stage::Begun => {
            run.stage = Stage::Asked(0);
            MatchTurn::Asks
        }
        Stage::Asked(_) => {
            run.stage = Stage::Ended;
            MatchTurn::Answered(matches)
        }
        _ => {
            run.stage = Stage::Ended;
            MatchTurn::Over
        }
    }
}

/// Returns the step that asks, at the keyword, whether a pattern matches a text.
pub fn ask_match<'s>(pattern: &'s str, text: &'s str, mode: Mode) -> Step<'s>
    ensures step { turn_of result ≡ match_text (record { pattern = pattern.now; subject = text.now }) (match_point mode pattern.now) }
{
    Step::Match(pattern, text, is_located(mode))
}

/// A match is shown with path and place unless only the verdict is wanted.
fn is_located(mode: Mode) -> bool
    ensures located { result ≡ is_located mode }
{
    mode != Mode::Verdict
}
