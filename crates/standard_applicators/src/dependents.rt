//! `dependentSchemas`: each child is evaluated if its member is present.
ghost use Rattle.std.specs.Prelude.{◌≡◌, option_map};
ghost use Rattle.keyword_authoring.specs.Items.{child_here};
ghost use Rattle.keyword_authoring.specs.Somes.{some_from};
ghost use Rattle.keyword_authoring.specs.Ways.{passes_some};
ghost use Rattle.keyword_authoring.specs.SomeWords.{AsksSome, StandsAtSome};
ghost use Rattle.standard_applicators.specs.RunWays.{dependents_asked};
ghost use Rattle.standard_applicators.specs.TakenTurns.{IsTurn};
ghost use Rattle.keyword_authoring.specs.Borrowing.{Borrows};

use keyword_authoring::{Progress, Stage, has_member, onward};
use schema_reports::{Instance, OutOfMemory};
use schema_traits::{Answer, Below, Reply, Step};
use std::alloc::Global;

/// Takes a turn of `dependentSchemas`.
///
/// The keyword evaluates each child whose member is present.
#[inline(always)]
pub fn turn_dependents<'s, 'i>(
    alloc: Global,
    names: &'s [String],
    run: &mut Progress,
    instance: Instance<'i>,
    reply: Reply<'i>,
    answer: &mut Answer<'i>,
) -> Result<Step<'s>, OutOfMemory>
    ensures turn { IsTurn (passes_some (dependents_asked names.now instance.entry)) run.old answer.old reply.entry run.new answer.new
        result }
    ensures borrows { Borrows reply.entry answer.old answer.new result }
{
    let start = onward(alloc, names.len(), run, reply, answer)?;
    Ok(ask_dependent(names, start, run, instance))
}

/// Evaluates the next child whose member is present.
///
/// The search begins at child `start`. The run ends if there is none.
fn ask_dependent<'s>(
    names: &[String],
    start: Option<usize>,
    run: &mut Progress,
    instance: Instance<'_>,
) -> Step<'s>
    ensures stage { StandsAtSome (dependents_asked names.now instance.entry) start run.old run.new }
    ensures step { AsksSome (dependents_asked names.now instance.entry) start run.old.mode result }
{
    match start {
        None => {
            run.stage = Stage::Ended;
            Step::Done
        }
        Some(start) => match first_present(names, start, instance) {
            None => {
                run.stage = Stage::Ended;
                Step::Done
            }
            Some(child) => {
                run.stage = Stage::Asked(child);
                Step::Ask(child, Below::Here, run.mode)
            }
        },
    }
}

/// Returns the next child whose member is present.
///
/// The search begins at child `start`.
#[tactic(auto, using(crate::proofs::NextDependents::dependents_from_drop))]
fn first_present(names: &[String], start: usize, instance: Instance<'_>) -> Option<usize>
    ensures present { option_map (λ i. (i, child_here i)) result ≡ some_from start (dependents_asked names.now instance.entry) }
{
    for child in start..names.len() {
        if has_member(instance, names[child].as_str()) {
            return Some(child);
        }
    }
    None
}
