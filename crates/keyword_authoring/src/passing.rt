//! Runs that pass on.
//!
//! Such a run asks one question after the other, and passes on the answers.
ghost use Rattle.std.specs.Prelude.{◌≡◌, ◌+◌, ◌^◌, ◌<◌, option_map, IfOk, OnOk};
ghost use Rattle.schema_traits.specs.KeywordViews.{turn_of};
ghost use Rattle.keyword_authoring.specs.Items.{child_here};
ghost use Rattle.keyword_authoring.specs.Ways.{asked};
ghost use Rattle.keyword_authoring.specs.Borrowing.{Borrows};
ghost use Rattle.keyword_authoring.specs.PassingWords.{IsNextPlace, IsNextStart, IsNumberAt, PassesReply, PassesReplyIn, StandsAtNumber, StepsByNumber, TurnsByNumber};

use crate::answers::{goes_on, take};
use crate::run::{Progress, Stage};
use schema_reports::OutOfMemory;
use schema_traits::{Answer, Below, Mode, Reply, Step};
use std::alloc::Global;

/// Takes the reply to a question, if one was asked.
fn take_asked<'i>(
    alloc: Global,
    stage: Stage,
    reply: Reply<'i>,
    answer: &mut Answer<'i>,
) -> Result<(), OutOfMemory>
    ensures answered { OnOk result (PassesReply stage reply.entry answer.old answer.new) }
    ensures borrows { Borrows reply.entry answer.old answer.new result }
{
    match stage {
        Stage::Asked(_) => take(alloc, reply, answer),
        _ => {
            drop(reply);
            Ok(())
        }
    }
}

/// Takes a reply, and returns the position of the next question.
///
/// If not every number has a question, the result is the number from which to look for the next
/// question. There are at most `limit` numbers.
#[inline(always)]
pub fn onward<'i>(
    alloc: Global,
    limit: usize,
    run: &Progress,
    reply: Reply<'i>,
    answer: &mut Answer<'i>,
) -> Result<Option<usize>, OutOfMemory>
    ensures answered { OnOk result (PassesReplyIn run.now reply.entry answer.old answer.new) }
    ensures next { IfOk result (IsNextPlace limit run.now.stage reply.entry) }
    ensures next_from { IfOk result (IsNextStart limit run.now.stage reply.entry) }
    ensures borrows { Borrows reply.entry answer.old answer.new result }
{
    let onward = goes_on(&reply);
    take_asked(alloc, run.stage, reply, answer)?;
    match run.stage {
        Stage::Begun => Ok(Some(0)),
        Stage::Asked(last) => {
            if !onward {
                return Ok(None);
            }
            if last < limit {
                Ok(Some(last + 1))
            } else {
                Ok(None)
            }
        }
        Stage::Counted(_, _) => Ok(None),
        Stage::Ended => Ok(None),
    }
}

/// Returns the number of the next question, or ends the run if there is none.
#[tactic(auto, using(crate::proofs::EachQuestion::nth_each, crate::proofs::EachQuestion::nth_each_past))]
fn number_at(place: Option<usize>, first: usize, count: usize, run: &mut Progress) -> Option<usize>
    requires { first + count < 2 ^ 64 }
    ensures stage { StandsAtNumber first count place run.old run.new }
    ensures number { IsNumberAt first count place result }
{
    if let Some(place) = place {
        if place < count {
            run.stage = Stage::Asked(place);
            return Some(first + place);
        }
    }
    run.stage = Stage::Ended;
    None
}

/// Takes a turn of a run that passes on the answers to numbered questions.
///
/// There are `count` questions, numbered from `first` on. Takes the reply, and returns the number
/// of the next question. If there is none, the run ends.
pub fn next_number<'i>(
    alloc: Global,
    first: usize,
    count: usize,
    run: &mut Progress,
    reply: Reply<'i>,
    answer: &mut Answer<'i>,
) -> Result<Option<usize>, OutOfMemory>
    requires { first + count < 2 ^ 64 }
    ensures turns { OnOk result (TurnsByNumber first count run.old answer.old reply.entry run.new answer.new) }
    ensures steps { IfOk result (StepsByNumber first count run.old answer.old reply.entry) }
    ensures borrows { Borrows reply.entry answer.old answer.new result }
{
    let place = onward(alloc, count, run, reply, answer)?;
    Ok(number_at(place, first, count, run))
}

/// Returns the step that asks a child at the keyword's own place.
pub fn ask_here<'s>(number: Option<usize>, mode: Mode) -> Step<'s>
    ensures step { turn_of result ≡ asked mode (option_map child_here number) }
{
    match number {
        Some(child) => Step::Ask(child, Below::Here, mode),
        None => Step::Done,
    }
}
