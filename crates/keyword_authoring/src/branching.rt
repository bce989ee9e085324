//! Runs that branch.
//!
//! Such a run asks whether one child accepts. It then asks the child of the branch that this
//! verdict selects, and passes on its answer.
ghost use Rattle.std.specs.Prelude.{◌≡◌};
ghost use Rattle.schema_traits.specs.KeywordViews.{turn_of};
ghost use Rattle.keyword_authoring.specs.Ways.{asked};
ghost use Rattle.keyword_authoring.specs.TurnWords.{Turns, Steps};
ghost use Rattle.keyword_authoring.specs.Branching.{branches_here, chosen_here, StandsAtBranch};
ghost use Rattle.keyword_authoring.specs.Borrowing.{Borrows};

use crate::answers::{says_yes, take};
use crate::run::{Progress, Stage};
use schema_reports::OutOfMemory;
use schema_traits::{Answer, Below, Mode, Reply, Step};
use std::alloc::Global;

/// Asks the branch that a verdict selects, or ends the run if there is none.
fn ask_branch<'s>(
    accepts: bool,
    accepted: Option<usize>,
    refused: Option<usize>,
    run: &mut Progress,
) -> Step<'s>
    ensures stage { StandsAtBranch accepts accepted refused run.old run.new }
    ensures step { turn_of result ≡ asked run.old.mode (chosen_here accepts accepted refused) }
{
    let branch = if accepts { accepted } else { refused };
    match branch {
        Some(child) => {
            run.stage = Stage::Asked(if accepts { 1 } else { 2 });
            Step::Ask(child, Below::Here, run.mode)
        }
        None => {
            run.stage = Stage::Ended;
            Step::Done
        }
    }
}

/// Takes a turn of a run that branches.
///
/// The run asks whether its first child accepts. It then asks the branch that this verdict selects,
/// and passes on its answer. A branch is the number of a child, or `None` if there is no branch.
#[inline(always)]
pub fn branch_on<'s, 'i>(
    alloc: Global,
    accepted: Option<usize>,
    refused: Option<usize>,
    run: &mut Progress,
    reply: Reply<'i>,
    answer: &mut Answer<'i>,
) -> Result<Step<'s>, OutOfMemory>
    ensures turns { Turns (branches_here accepted refused) run.old answer.old reply.entry run.new answer.new result }
    ensures steps { Steps (branches_here accepted refused) run.old answer.old reply.entry result }
    ensures borrows { Borrows reply.entry answer.old answer.new result }
{
    match run.stage {
        Stage::Begun => {
            drop(reply);
            run.stage = Stage::Asked(0);
            Ok(Step::Ask(0, Below::Here, Mode::Verdict))
        }
        Stage::Asked(place) => {
            if place == 0 {
                return Ok(ask_branch(says_yes(&reply), accepted, refused, run));
            }
            run.stage = Stage::Ended;
            take(alloc, reply, answer)?;
            Ok(Step::Done)
        }
        _ => {
            drop(reply);
            run.stage = Stage::Ended;
            Ok(Step::Done)
        }
    }
}
