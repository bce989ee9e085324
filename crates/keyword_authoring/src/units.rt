//! The units that children return, in the answer of a run.
ghost use Rattle.std.specs.Prelude.{◌≡◌, [], IfOk, OnOk};
ghost use Rattle.schema_traits.specs.FaultViews.{faults_in};
ghost use Rattle.keyword_authoring.specs.AnswerWords.{KeepsUnit};
ghost use Rattle.keyword_authoring.specs.Borrowing.{Retains};
ghost use Rattle.schema_traits.specs.Showing.{Shows};
ghost use Rattle.keyword_authoring.specs.UnitWords.{Invalidates, KeepsReply, PutsInside, TakesUnit};

use crate::run::Stage;
use schema_reports::{ChildList, EvaluationNode, EvaluationResult, OutOfMemory};
use schema_traits::{Answer, Reply};
use std::alloc::Global;
use std::mem;

/// Makes the result of an evaluation invalid.
///
/// Its annotations, units and errors stay.
pub fn invalidate(alloc: Global, own: &mut EvaluationResult)
    ensures invalid { Invalidates own.old own.new }
{
    match own {
        EvaluationResult::Valid(annotations, children) => {
            let kept = annotations.take();
            let inside = mem::replace(children, ChildList::new(alloc));
            *own = EvaluationResult::Invalid(Vec::new(alloc), kept, inside);
        }
        EvaluationResult::Invalid(_, _, _) => {}
    }
}

/// Adds a unit after the others. The verdict stays.
fn push_unit(own: &mut EvaluationResult, node: EvaluationNode) -> Result<(), OutOfMemory>
    ensures inside { OnOk result (PutsInside node own.old own.new) }
{
    match own {
        EvaluationResult::Valid(_, children) => children.push(node),
        EvaluationResult::Invalid(_, _, children) => children.push(node),
    }
}

/// Returns the answer with a child's unit, as a refusal if the unit is invalid.
pub fn with_unit<'i>(
    alloc: Global,
    node: EvaluationNode,
    before: Answer<'i>,
) -> Result<Answer<'i>, OutOfMemory>
    ensures taken { IfOk result (TakesUnit node before.entry) }
    ensures faults { Shows faults_in result [] }
{
    let accepts = node.report.valid;
    let mut found = before.into_evaluation(alloc)?;
    push_unit(&mut found.own, node)?;
    if !accepts {
        invalidate(alloc, &mut found.own);
    }
    Ok(Answer::Evaluation(found))
}

/// Returns the answer with a child's unit. The verdict stays.
fn with_kept<'i>(
    alloc: Global,
    node: EvaluationNode,
    before: Answer<'i>,
) -> Result<Answer<'i>, OutOfMemory>
    ensures kept { IfOk result (KeepsUnit node before.entry) }
    ensures faults { Shows faults_in result [] }
{
    let mut found = before.into_evaluation(alloc)?;
    push_unit(&mut found.own, node)?;
    Ok(Answer::Evaluation(found))
}

/// Not inlined, so that a verdict does not pay for its stack frame.
#[inline(never)]
fn keep_unit<'i>(
    alloc: Global,
    node: EvaluationNode,
    answer: &mut Answer<'i>,
) -> Result<(), OutOfMemory>
    ensures kept { OnOk result (KeepsUnit node answer.old answer.new) }
    ensures faults { OnOk result (faults_in answer.new ≡ []) }
{
    let before = mem::replace(answer, Answer::Verdict(false));
    *answer = with_kept(alloc, node, before)?;
    Ok(())
}

/// Puts a child's reply into the answer, if it is a unit and the run counts.
pub fn keep_child<'i>(
    alloc: Global,
    stage: Stage,
    reply: Reply<'i>,
    answer: &mut Answer<'i>,
) -> Result<(), OutOfMemory>
    ensures kept { OnOk result (KeepsReply stage reply.entry answer.old answer.new) }
    ensures borrows { Retains answer.old answer.new result }
{
    match stage {
        Stage::Counted(_, _) => match reply {
            Reply::Unit(node) => keep_unit(alloc, Box::into_inner(node), answer),
            _ => Ok(()),
        },
        _ => Ok(()),
    }
}
