//! Changes to the answer of a run.
ghost use Rattle.std.specs.Prelude.{◌≡◌, ◌++◌, [], IfOk, map, OnOk};
ghost use Rattle.schema_traits.specs.declared.keyword.Fault.TheVariants.{Passed};
ghost use Rattle.schema_traits.specs.FaultViews.{faults_in};
ghost use Rattle.keyword_authoring.specs.FaultLists.{first_kept};
ghost use Rattle.keyword_authoring.specs.Tallies.{says_yes};
ghost use Rattle.keyword_authoring.specs.Ways.{goes_on};
ghost use Rattle.keyword_authoring.specs.Borrowing.{KeepsBorrows, TakesBorrows, Borrows, Retains, AlwaysBorrows};
ghost use Rattle.keyword_authoring.specs.AnswerWords.{Refuses, Notes, Takes};
ghost use Rattle.schema_traits.specs.Readings.{Lists};
ghost use Rattle.schema_traits.specs.Showing.{Shows};
ghost use Rattle.keyword_authoring.specs.FaultWords.{AreErrorsOf, Evaluates, IsOfReply, IsOwnFault, PassesErrors, TakesFirst};

use crate::units::{invalidate, with_unit};
use schema_reports::{ErrorDescription, OutOfMemory, ValidationError};
use schema_traits::{Answer, Fault, Mode, OwnError, Reply};
use std::alloc::Global;
use std::mem;

fn refused<'i>(alloc: Global, answer: Answer<'i>) -> Answer<'i>
    ensures refused { Refuses answer.entry result }
    ensures faults { faults_in result ≡ faults_in answer.entry }
{
    match answer {
        Answer::Verdict(_) => Answer::Verdict(false),
        Answer::First(first) => match first {
            None => Answer::Verdict(false),
            Some(fault) => Answer::First(Some(fault)),
        },
        Answer::All(faults) => {
            if faults.is_empty() {
                drop(faults);
                Answer::Verdict(false)
            } else {
                Answer::All(faults)
            }
        }
        Answer::Evaluation(mut found) => {
            invalidate(alloc, &mut found.own);
            Answer::Evaluation(found)
        }
    }
}

/// Returns the answer with this error as its first, unless it has one already.
fn with_first<'i>(answer: Answer<'i>, fault: Box<Fault<'i>>) -> Answer<'i>
    ensures first { TakesFirst fault.entry.value answer.entry result }
    ensures faults { faults_in result ≡ first_kept (faults_in answer.entry) fault.entry.value }
{
    match answer {
        Answer::Verdict(_) => Answer::First(Some(fault)),
        Answer::First(first) => match first {
            None => Answer::First(Some(fault)),
            Some(kept) => {
                drop(fault);
                Answer::First(Some(kept))
            }
        },
        Answer::All(faults) => {
            if faults.is_empty() {
                drop(faults);
                Answer::First(Some(fault))
            } else {
                drop(fault);
                Answer::All(faults)
            }
        }
        Answer::Evaluation(found) => {
            drop(found);
            Answer::First(Some(fault))
        }
    }
}

fn faults_of<'i>(alloc: Global, answer: Answer<'i>) -> Result<Vec<Fault<'i>>, OutOfMemory>
    ensures errors { IfOk result (λ faults. AreErrorsOf answer.entry faults.items) }
    ensures faults { Lists result (faults_in answer.entry) }
{
    match answer {
        Answer::Verdict(_) => Ok(Vec::new(alloc)),
        Answer::First(first) => {
            let mut faults = Vec::new(alloc);
            if let Some(fault) = first {
                faults.push(Box::into_inner(fault))?;
            }
            Ok(faults)
        }
        Answer::All(faults) => Ok(faults),
        Answer::Evaluation(found) => {
            drop(found);
            Ok(Vec::new(alloc))
        }
    }
}

/// Returns the answer as a refusal, with an error in the keyword's own unit.
fn evaluated<'i>(
    alloc: Global,
    keyword: &str,
    text: String,
    before: Answer<'i>,
) -> Result<Answer<'i>, OutOfMemory>
    ensures evaluated { IfOk result (Evaluates keyword.now text before.entry) }
    ensures faults { Shows faults_in result [] }
{
    let mut found = before.into_evaluation(alloc)?;
    let keyword = String::from_str(alloc, keyword)?;
    found
        .own
        .mark_errored(alloc, ErrorDescription { keyword, text })?;
    Ok(Answer::Evaluation(found))
}

/// Turns the answer into a refusal, without adding an error.
///
/// A keyword that refuses does this if only the verdict is wanted. Allocates nothing.
pub fn refuse<'i>(alloc: Global, answer: &mut Answer<'i>)
    ensures refused { Refuses answer.old answer.new }
    ensures borrows { KeepsBorrows answer.old answer.new }
{
    let before = mem::replace(answer, Answer::Verdict(false));
    *answer = refused(alloc, before);
}

/// Adds an error of the keyword itself to the answer.
///
/// In a run for the verdict the answer only becomes a refusal. In an evaluation the error goes into
/// the unit.
pub fn note<'i>(
    alloc: Global,
    mode: Mode,
    keyword: &str,
    text: String,
    answer: &mut Answer<'i>,
) -> Result<(), OutOfMemory>
    ensures noted { OnOk result (Notes mode keyword.now text answer.old answer.new) }
    ensures borrows { Retains answer.old answer.new result }
{
    let before = mem::replace(answer, Answer::Verdict(false));
    *answer = with_own(alloc, mode, keyword, text, before)?;
    Ok(())
}

fn with_own<'i>(
    alloc: Global,
    mode: Mode,
    keyword: &str,
    text: String,
    before: Answer<'i>,
) -> Result<Answer<'i>, OutOfMemory>
    ensures noted { IfOk result (Notes mode keyword.now text before.entry) }
    ensures borrows { IfOk result (KeepsBorrows before.entry) }
{
    match mode {
        Mode::Verdict => {
            drop(text);
            Ok(refused(alloc, before))
        }
        Mode::Evaluate => evaluated(alloc, keyword, text, before),
        Mode::First => with_own_first(alloc, keyword, text, before),
        Mode::All => with_own_last(alloc, keyword, text, before),
    }
}

fn with_own_first<'i>(
    alloc: Global,
    keyword: &str,
    text: String,
    before: Answer<'i>,
) -> Result<Answer<'i>, OutOfMemory>
    ensures noted { IfOk result (Notes Mode.First keyword.now text before.entry) }
    ensures borrows { IfOk result (KeepsBorrows before.entry) }
{
    let fault = own_fault(alloc, keyword, text)?;
    Ok(with_first(before, Box::new(alloc, fault)?))
}

fn with_own_last<'i>(
    alloc: Global,
    keyword: &str,
    text: String,
    before: Answer<'i>,
) -> Result<Answer<'i>, OutOfMemory>
    ensures noted { IfOk result (Notes Mode.All keyword.now text before.entry) }
    ensures borrows { IfOk result (KeepsBorrows before.entry) }
{
    let mut faults = faults_of(alloc, before)?;
    faults.push(own_fault(alloc, keyword, text)?)?;
    Ok(Answer::All(faults))
}

/// Returns an error at the keyword itself.
fn own_fault<'i>(alloc: Global, keyword: &str, text: String) -> Result<Fault<'i>, OutOfMemory>
    ensures own { IfOk result (IsOwnFault keyword.now text) }
    ensures borrows { IfOk result AlwaysBorrows }
{
    Ok(Fault::Own(OwnError {
        absorbed: None,
        path: String::new(alloc),
        below: Vec::new(alloc),
        keyword: String::from_str(alloc, keyword)?,
        text,
    }))
}

/// Returns whether a run goes on after this reply.
pub fn goes_on(reply: &Reply<'_>) -> bool
    ensures goes_on { IsOfReply goes_on reply.now result }
{
    match reply {
        Reply::Nothing => true,
        Reply::Truth(holds) => *holds,
        Reply::First(first) => first.is_none(),
        Reply::All(_) => true,
        Reply::Unit(_) => true,
    }
}

/// Returns whether a reply is an accepting verdict or a valid unit.
pub fn says_yes(reply: &Reply<'_>) -> bool
    ensures yes { IsOfReply says_yes reply.now result }
{
    match reply {
        Reply::Nothing => false,
        Reply::Truth(yes) => *yes,
        Reply::First(_) => false,
        Reply::All(_) => false,
        Reply::Unit(node) => node.report.valid,
    }
}

/// Adds a child's reply to the answer.
///
/// An accepting verdict leaves the answer where it is.
pub fn take<'i>(alloc: Global, reply: Reply<'i>, answer: &mut Answer<'i>) -> Result<(), OutOfMemory>
    ensures taken { OnOk result (Takes reply.entry answer.old answer.new) }
    ensures borrows { Borrows reply.entry answer.old answer.new result }
{
    match reply {
        Reply::Truth(holds) => {
            if !holds {
                refuse(alloc, answer);
            }
            Ok(())
        }
        told => take_told(alloc, told, answer),
    }
}

/// Not inlined, so that a verdict does not pay for its stack frame.
#[inline(never)]
fn take_told<'i>(
    alloc: Global,
    reply: Reply<'i>,
    answer: &mut Answer<'i>,
) -> Result<(), OutOfMemory>
    ensures taken { OnOk result (Takes reply.entry answer.old answer.new) }
    ensures borrows { Borrows reply.entry answer.old answer.new result }
{
    let before = mem::replace(answer, Answer::Verdict(false));
    *answer = with_reply(alloc, reply, before)?;
    Ok(())
}

fn with_reply<'i>(
    alloc: Global,
    reply: Reply<'i>,
    before: Answer<'i>,
) -> Result<Answer<'i>, OutOfMemory>
    ensures taken { IfOk result (Takes reply.entry before.entry) }
    ensures borrows { IfOk result (TakesBorrows reply.entry before.entry) }
{
    match reply {
        Reply::Nothing => Ok(before),
        Reply::Truth(holds) => {
            if holds {
                Ok(before)
            } else {
                Ok(refused(alloc, before))
            }
        }
        Reply::First(first) => match first {
            None => Ok(before),
            Some(error) => {
                let fault = Fault::Passed(Box::into_inner(error));
                Ok(with_first(before, Box::new(alloc, fault)?))
            }
        },
        Reply::All(errors) => {
            let mut faults = faults_of(alloc, before)?;
            pass_all(errors, &mut faults)?;
            Ok(Answer::All(faults))
        }
        Reply::Unit(node) => with_unit(alloc, Box::into_inner(node), before),
    }
}

/// Adds errors as passed on, in order.
fn pass_all<'i>(
    errors: Vec<ValidationError<'i>>,
    faults: &mut Vec<Fault<'i>>,
) -> Result<(), OutOfMemory>
    ensures passed { OnOk result (PassesErrors errors.entry.items faults.old.items faults.new.items) }
    ensures added { OnOk result (faults.new.items ≡ faults.old.items ++ map Passed errors.entry.items) }
{
    for error in errors {
        faults.push(Fault::Passed(error))?;
    }
    Ok(())
}
