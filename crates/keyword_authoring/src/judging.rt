//! Runs that judge.
//!
//! Such a run asks numbered questions one after the other, and reports errors depending on how many
//! are accepted.
ghost use Rattle.std.specs.Prelude.{◌≡◌, IfOk, min, OnOk};
ghost use Rattle.keyword_authoring.specs.Tallies.{Tally, asked_in, counted, is_settled, wants_units};
ghost use Rattle.keyword_authoring.specs.Borrowing.{Retains};
ghost use Rattle.keyword_authoring.specs.Judging.{AnswersAtPlace, AsksAtPlace, CountsAnswer, CountsPlaceAfter, CountsStage, CountsStep, IsPlaceAfter};
ghost use Rattle.keyword_authoring.specs.Judging.{JudgesAnywhere, JudgesHere, JudgesStageAnywhere, JudgesStageHere, JudgesStepAnywhere, JudgesStepHere, StandsAtPlace};

use crate::answers::says_yes;
use crate::run::{Progress, Stage};
use crate::units::keep_child;
use schema_reports::OutOfMemory;
use schema_traits::{Answer, Mode, Reply};
use std::alloc::Global;

/// What a turn of a run that judges does.
#[derive(Clone, Copy)]
pub enum Judging {
    /// It asks the question with this number, in this mode.
    Asks(usize, Mode),
    /// It ends the run. This many questions were accepted.
    Judged(usize),
    /// The run had ended already.
    Over,
}

/// How a keyword judges an instance.
#[derive(Clone, Copy)]
pub struct Judge {
    /// The number of its questions.
    pub count: usize,
    /// The number of accepted questions after which further ones change nothing.
    ///
    /// Any number may be given: the keyword judges by the number of accepted questions, or by this
    /// number if there are more. For a keyword that requires at least n accepted questions, n is
    /// enough; for one that allows at most n, n + 1 is. The number of its questions is always
    /// enough.
    pub enough: usize,
    /// Whether it returns the units of its questions.
    pub shows: bool,
}

fn wants_units(shows: bool, mode: Mode) -> bool
    ensures units { (t : Tally) → t.shows ≡ shows → result ≡ wants_units t mode }
{
    match mode {
        Mode::Verdict => false,
        Mode::First => false,
        Mode::All => false,
        Mode::Evaluate => shows,
    }
}

fn asked_in(units: bool) -> Mode
    ensures mode { result ≡ asked_in units }
{
    if units { Mode::Evaluate } else { Mode::Verdict }
}

/// Returns the number of accepted questions after one more, at most `enough`.
fn tallied(enough: usize, accepts: bool, before: usize) -> usize
    ensures tallied { result ≡ min enough (counted accepts before) }
{
    if accepts && before < enough {
        before + 1
    } else {
        enough.min(before)
    }
}

/// Returns whether further answers change nothing.
fn is_settled(units: bool, enough: usize, accepted: usize) -> bool
    ensures settled { result ≡ is_settled units enough accepted }
{
    !units && enough <= accepted
}

/// Asks the question at this position, or ends the run if there is none.
#[tactic(auto, using(crate::proofs::EachQuestion::nth_each_here, crate::proofs::EachQuestion::nth_each_past))]
fn judge_at(
    place: Option<usize>,
    accepted: usize,
    count: usize,
    units: bool,
    run: &mut Progress,
) -> Judging
    ensures stage { StandsAtPlace count accepted place run.old run.new }
    ensures step { AsksAtPlace count place units result }
    ensures answer { AnswersAtPlace count accepted place result }
{
    if let Some(place) = place {
        if place < count {
            run.stage = Stage::Counted(place, accepted);
            return Judging::Asks(place, asked_in(units));
        }
    }
    run.stage = Stage::Ended;
    Judging::Judged(accepted)
}

#[tactic(auto, using(crate::proofs::EachQuestion::nth_each_past))]
fn place_after(last: usize, count: usize, settled: bool) -> Option<usize>
    ensures next { IsPlaceAfter last count settled result }
    ensures stage { CountsPlaceAfter last count settled result }
{
    if settled {
        return None;
    }
    if last < count { Some(last + 1) } else { None }
}

/// Counts a reply, which accepts or not, and returns what the turn does.
fn count_on(judge: Judge, run: &mut Progress, yes: bool) -> Judging
    ensures stage { CountsStage judge yes run.old run.new }
    ensures step { CountsStep judge yes run.old result }
    ensures answer { CountsAnswer judge yes run.old result }
{
    let units = wants_units(judge.shows, run.mode);
    match run.stage {
        Stage::Begun => judge_at(Some(0), 0, judge.count, units, run),
        Stage::Counted(last, before) => {
            let accepted = tallied(judge.enough, yes, before);
            let settled = is_settled(units, judge.enough, accepted);
            let place = place_after(last, judge.count, settled);
            judge_at(place, accepted, judge.count, units, run)
        }
        _ => {
            run.stage = Stage::Ended;
            Judging::Over
        }
    }
}

/// Takes a turn of a run that judges, whatever its questions are.
///
/// A unit that a child returned goes into the answer.
pub fn judge_on<'i>(
    alloc: Global,
    judge: Judge,
    run: &mut Progress,
    reply: Reply<'i>,
    answer: &mut Answer<'i>,
) -> Result<Judging, OutOfMemory>
    ensures stage { OnOk result (JudgesStageAnywhere judge run.old reply.entry run.new) }
    ensures step { IfOk result (JudgesStepAnywhere judge run.old reply.entry) }
    ensures answer { IfOk result (JudgesAnywhere judge run.old reply.entry answer.old answer.new) }
    ensures borrows { Retains answer.old answer.new result }
{
    let yes = says_yes(&reply);
    keep_child(alloc, run.stage, reply, answer)?;
    Ok(count_on(judge, run, yes))
}

/// Takes a turn of a run that judges its children, at the keyword's own place.
///
/// A unit that a child returned goes into the answer.
pub fn judge_children<'i>(
    alloc: Global,
    judge: Judge,
    run: &mut Progress,
    reply: Reply<'i>,
    answer: &mut Answer<'i>,
) -> Result<Judging, OutOfMemory>
    ensures stage { OnOk result (JudgesStageHere judge run.old reply.entry run.new) }
    ensures step { IfOk result (JudgesStepHere judge run.old reply.entry) }
    ensures answer { IfOk result (JudgesHere judge run.old reply.entry answer.old answer.new) }
    ensures borrows { Retains answer.old answer.new result }
{
    judge_on(alloc, judge, run, reply, answer)
}
