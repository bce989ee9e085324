//! The keyword `properties`.
ghost use Rattle.std.specs.Prelude.{◌≡◌, None, option_map, true};
ghost use Rattle.std.specs.Rc.{rc_str_bytes};
ghost use Rattle.keyword_authoring.specs.Somes.{some_from};
ghost use Rattle.keyword_authoring.specs.SomeWords.{AsksSome, StandsAtSome};
ghost use Rattle.standard_basics.specs.RunWays.{at_members, member_asked, on_members};
ghost use Rattle.standard_basics.specs.TakenTurns.{IsTurnBy};
ghost use Rattle.keyword_authoring.specs.Borrowing.{Borrows};

use keyword_authoring::{Progress, Stage, has_member, onward};
use schema_reports::{Instance, OutOfMemory};
use schema_traits::{Answer, Below, Reply, Step};
use std::alloc::Global;
use std::rc::RcStr;

/// IsTurnBy a turn of `properties`.
///
/// The keyword evaluates a child at each named member that is present.
#[inline(always)]
pub fn turn_properties<'s, 'i>(
    alloc: Global,
    names: &'s [RcStr],
    run: &mut Progress,
    instance: Instance<'i>,
    reply: Reply<'i>,
    answer: &mut Answer<'i>,
) -> Result<Step<'s>, OutOfMemory>
    ensures turn { IsTurnBy (on_members rc_str_bytes names.now) instance.entry run.old answer.old reply.entry run.new answer.new result }
    ensures borrows { Borrows reply.entry answer.old answer.new result }
{
    let start = onward(alloc, names.len(), run, reply, answer)?;
    Ok(ask_member(names, start, run, instance))
}

/// Returns whether the instance has no members, so that no child is evaluated.
pub fn asks_none(names: &[RcStr], instance: Instance<'_>) -> bool
    ensures none { result ≡ true → some_from 0 (at_members rc_str_bytes names.now instance.entry) ≡ None }
{
    !may_have_members(instance) && first_present(names, 0, instance).is_none()
}

/// Returns whether the instance is an object with a member.
fn may_have_members(instance: Instance<'_>) -> bool {
    match instance {
        Instance::Value(value) => match value.as_object() {
            Some(members) => !members.is_empty(),
            None => false,
        },
        Instance::Name(_) => false,
    }
}

/// Evaluates the next child whose member is present.
///
/// The search begins at child `start`. The run ends if there is none.
#[inline(always)]
fn ask_member<'s>(
    names: &'s [RcStr],
    start: Option<usize>,
    run: &mut Progress,
    instance: Instance<'_>,
) -> Step<'s>
    ensures stage { StandsAtSome (at_members rc_str_bytes names.now instance.entry) start run.old run.new }
    ensures step { AsksSome (at_members rc_str_bytes names.now instance.entry) start run.old.mode result }
{
    match start {
        None => {
            run.stage = Stage::Ended;
            Step::Done
        }
        Some(start) => match first_present(names, start, instance) {
            None => {
                run.stage = Stage::Ended;
                Step::Done
            }
            Some((child, name)) => {
                run.stage = Stage::Asked(child);
                Step::Ask(child, Below::Member(name), run.mode)
            }
        },
    }
}

/// Returns the next child whose member is present, and its name.
///
/// The search begins at child `start`.
#[tactic(auto, using(keyword_authoring::proofs::NextQuestions::members_from_drop))]
fn first_present<'s>(
    names: &'s [RcStr],
    start: usize,
    instance: Instance<'_>,
) -> Option<(usize, &'s str)>
    ensures present { option_map (λ p. (p.0, member_asked p.0 p.1.now)) result
        ≡ some_from start (at_members rc_str_bytes names.now instance.entry) }
{
    for child in start..names.len() {
        let name = names[child].as_str();
        if has_member(instance, name) {
            return Some((child, name));
        }
    }
    None
}
