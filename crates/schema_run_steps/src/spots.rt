//! Steps below the place of a keyword, to its children, errors and matches.
ghost use Rattle.std.specs.Prelude.{◌≡◌, IfOk, IfSome, MatchOption, Some, is_some, map, option_map, true};
ghost use Rattle.schema_reports.specs.InstanceViews.{step_of, subject_of};
ghost use Rattle.theory_definitions.specs.Keywords.{down, here};
ghost use Rattle.theory_definitions.specs.Laws.{IsPresent, steps_below};
ghost use Rattle.schema_traits.specs.KeywordViews.{below_of};
ghost use Rattle.schema_run_steps.specs.PlaceWords.{HasSteps, LeadsBelow, place_under, subject_after};

use crate::evaluation_place::EvaluationPlace;
use schema_reports::{Instance, InstanceStep, OutOfMemory, Place};
use schema_traits::Below;
use std::alloc::Global;

/// Returns the step to a child's instance; `None` if it is the keyword's own.
pub fn step_below<'s>(below: Below<'s>) -> Option<InstanceStep<'s>>
    ensures step { MatchOption result (below_of below.entry ≡ here) (λ s. below_of below.entry ≡ down (step_of s)) }
{
    match below {
        Below::Here => None,
        Below::Member(name) => Some(InstanceStep::Member(name)),
        Below::Item(index) => Some(InstanceStep::Item(index)),
        Below::NameOf(name) => Some(InstanceStep::NameOf(name)),
    }
}

/// Returns what a step leads to, if it leads anywhere.
///
/// The step is returned with a name that the instance owns.
pub fn after<'i>(
    instance: Instance<'i>,
    step: InstanceStep<'_>,
) -> Option<(Instance<'i>, InstanceStep<'i>)>
    ensures after { option_map (λ r. subject_of r.0) result ≡ subject_after step.entry instance.entry }
    ensures step { IfSome result (λ r. step_of r.1 ≡ step_of step.entry) }
{
    match step {
        InstanceStep::Member(name) => instance.member(name),
        InstanceStep::Item(index) => instance.item(index),
        InstanceStep::NameOf(name) => instance.name_of(name),
    }
}

/// Returns what is one step below, with the step; `None` for `Below::Here`.
#[inline(always)]
pub fn one_below<'i>(
    instance: Instance<'i>,
    below: Below<'_>,
) -> Option<(Instance<'i>, InstanceStep<'i>)>
    requires present { IsPresent (subject_of instance) (steps_below (below_of below)) }
    ensures below { LeadsBelow instance.entry below.entry result }
{
    let step = step_below(below)?;
    match after(instance, step) {
        Some(lower) => Some(lower),
        None => unreachable!(),
    }
}

// Like `after`, for a step that leads somewhere.
fn own_step<'i>(instance: Instance<'i>, step: InstanceStep<'_>) -> (Instance<'i>, InstanceStep<'i>)
    requires present { is_some (subject_after step instance) ≡ true }
    ensures after { subject_after step.entry instance.entry ≡ Some (subject_of result.0) }
    ensures step { step_of result.1 ≡ step_of step.entry }
{
    match after(instance, step) {
        Some(lower) => lower,
        None => unreachable!(),
    }
}

/// Returns the same steps, with names that the instance owns.
///
/// # Errors
///
/// Out of memory.
pub fn own_steps<'i>(
    alloc: Global,
    instance: Instance<'i>,
    steps: &[InstanceStep<'_>],
) -> Result<Vec<InstanceStep<'i>>, OutOfMemory>
    requires present { HasSteps instance steps.now }
    ensures same { IfOk result (λ own. map step_of own.items ≡ map step_of steps.now) }
{
    let mut own = Vec::new(alloc);
    let mut current = instance;
    for step in steps {
        let (inner, same) = own_step(current, *step);
        own.push(same)?;
        current = inner;
    }
    Ok(own)
}

/// Returns the place some steps below another one.
///
/// # Errors
///
/// Out of memory.
pub fn place_below<'i>(
    place: &EvaluationPlace<'_, 'i>,
    steps: &[InstanceStep<'i>],
) -> Result<Place<'i>, OutOfMemory>
    ensures below { IfOk result (λ p. p ≡ place_under place.now steps.now) }
{
    let mut lower = place.with_room(steps.len())?;
    for step in steps {
        lower.push(*step)?;
    }
    Ok(lower)
}
