//! The keyword `propertyNames`.
ghost use Rattle.std.specs.Prelude.{◌≡◌, Some, option_map};
ghost use Rattle.schema_reports.specs.InstanceViews.{subject_of};
ghost use Rattle.keyword_authoring.specs.Members.{at_name, only_if};
ghost use Rattle.keyword_authoring.specs.Somes.{some_from};
ghost use Rattle.standard_basics.specs.Words.{is_named, name_asked};
ghost use Rattle.keyword_authoring.specs.SomeWords.{AsksSome, StandsAtSome};
ghost use Rattle.standard_basics.specs.RunWays.{at_names, on_names};
ghost use Rattle.standard_basics.specs.TakenTurns.{IsTurnBy};
ghost use Rattle.keyword_authoring.specs.Borrowing.{Borrows};
ghost use Rattle.schema_traits.specs.Readings.{fields};

use keyword_authoring::{Progress, Stage, onward};
use schema_reports::{Instance, OutOfMemory};
use schema_traits::{Answer, Below, Reply, Step};
use serde_json::{Map, Value};
use std::alloc::Global;

/// Returns the member's name as the object stores it.
fn name_among<'i>(members: &'i Map<String, Value>, name: &str) -> Option<&'i str>
    ensures name { option_map (λ k. at_name k.now) result ≡ only_if (is_named name.now (Some (fields members.now))) (at_name name.now) }
{
    match members.get_key_value(name) {
        Some((key, _)) => Some(key.as_str()),
        None => None,
    }
}

/// Returns the member's name as the instance stores it.
fn name_in<'i>(instance: Instance<'i>, name: &str) -> Option<&'i str>
    ensures name { option_map (λ k. at_name k.now) result ≡ name_asked (subject_of instance.entry) name.now }
{
    match instance {
        Instance::Name(_) => None,
        Instance::Value(value) => match value.as_object() {
            Some(members) => name_among(members, name),
            None => None,
        },
    }
}

/// Returns the next name that a member has, with its index.
///
/// The search begins at index `start`.
#[tactic(auto, using(crate::proofs::NamesAsked::asked_drop))]
fn first_name<'i>(
    names: &[String],
    start: usize,
    instance: Instance<'i>,
) -> Option<(usize, &'i str)>
    ensures name { option_map (λ p. (p.0, at_name p.1.now)) result ≡ some_from start (at_names names.now instance.entry) }
{
    for place in start..names.len() {
        if let Some(name) = name_in(instance, names[place].as_str()) {
            return Some((place, name));
        }
    }
    None
}

/// Evaluates the child at the next name that a member has.
///
/// The search begins at index `start`. The run ends if there is none.
#[inline(always)]
fn ask_name<'i>(
    names: &[String],
    start: Option<usize>,
    run: &mut Progress,
    instance: Instance<'i>,
) -> Step<'i>
    ensures stage { StandsAtSome (at_names names.now instance.entry) start run.old run.new }
    ensures step { AsksSome (at_names names.now instance.entry) start run.old.mode result }
{
    match start {
        None => {
            run.stage = Stage::Ended;
            Step::Done
        }
        Some(start) => match first_name(names, start, instance) {
            None => {
                run.stage = Stage::Ended;
                Step::Done
            }
            Some((place, name)) => {
                run.stage = Stage::Asked(place);
                Step::Ask(0, Below::NameOf(name), run.mode)
            }
        },
    }
}

/// IsTurnBy a turn of `propertyNames`.
///
/// The keyword evaluates its child at each of the names that a member has.
#[inline(always)]
pub fn turn_property_names<'i>(
    alloc: Global,
    names: &[String],
    run: &mut Progress,
    instance: Instance<'i>,
    reply: Reply<'i>,
    answer: &mut Answer<'i>,
) -> Result<Step<'i>, OutOfMemory>
    ensures turn { IsTurnBy (on_names names.now) instance.entry run.old answer.old reply.entry run.new answer.new result }
    ensures borrows { Borrows reply.entry answer.old answer.new result }
{
    let start = onward(alloc, names.len(), run, reply, answer)?;
    Ok(ask_name(names, start, run, instance))
}
