//! An answer that refuses.
ghost use Rattle.std.specs.Prelude.{[], IfOk, OnOk};
ghost use Rattle.keyword_authoring.specs.Borrowing.{Retains, AlwaysBorrows};
ghost use Rattle.test_laws.specs.RefusalWords.{BorrowsAll, IsRefusal, RefusesLike, RefusesUnless};

use schema_reports::{ErrorDescription, EvaluationResult, OutOfMemory};
use schema_traits::{Answer, Fault, Found, OwnError};
use std::alloc::Global;
use std::mem;

/// Returns the error, at the keyword itself.
fn refusal<'i>(alloc: Global) -> Result<Fault<'i>, OutOfMemory>
    ensures refusal { IfOk result IsRefusal }
    ensures borrows { IfOk result AlwaysBorrows }
{
    let keyword = String::from_str(alloc, "refusal")?;
    let text = String::from_str(alloc, "is refused")?;
    Ok(Fault::Own(OwnError {
        absorbed: None,
        path: String::new(alloc),
        below: Vec::new(alloc),
        keyword,
        text,
    }))
}

/// Returns the answer of the same mode that refuses with the error.
fn refused<'i>(alloc: Global, before: Answer<'i>) -> Result<Answer<'i>, OutOfMemory>
    ensures refused { IfOk result (RefusesLike before.entry) }
    ensures borrows { IfOk result BorrowsAll }
{
    match before {
        Answer::Verdict(_) => Ok(Answer::Verdict(false)),
        Answer::First(first) => {
            drop(first);
            let fault = refusal(alloc)?;
            Ok(Answer::First(Some(Box::new(alloc, fault)?)))
        }
        Answer::All(others) => {
            drop(others);
            let mut faults = Vec::new(alloc);
            faults.push(refusal(alloc)?)?;
            Ok(Answer::All(faults))
        }
        Answer::Evaluation(found) => {
            drop(found);
            let mut errors = Vec::new(alloc);
            errors.push(ErrorDescription {
                keyword: String::from_str(alloc, "refusal")?,
                text: String::from_str(alloc, "is refused")?,
            })?;
            let own = EvaluationResult::invalid_empty(alloc, errors);
            let absorbed = Vec::new(alloc);
            let found = Box::new(alloc, Found { own, absorbed })?;
            Ok(Answer::Evaluation(found))
        }
    }
}

/// Keeps the answer if the keyword holds, and otherwise makes it refuse.
pub fn tell<'i>(alloc: Global, holds: bool, answer: &mut Answer<'i>) -> Result<(), OutOfMemory>
    ensures told { OnOk result (RefusesUnless holds answer.old answer.new) }
    ensures borrows { Retains answer.old answer.new result }
{
    if !holds {
        let before = mem::replace(answer, Answer::Verdict(false));
        *answer = refused(alloc, before)?;
    }
    Ok(())
}
