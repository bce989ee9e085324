//! The keywords that evaluate items in order: `items` and `additionalItems`.
ghost use Rattle.std.specs.Prelude.{◌≡◌, ◌+◌, ◌-◌, ◌^◌, ◌<◌, min, option_map};
ghost use Rattle.schema_reports.specs.InstanceViews.{subject_of};
ghost use Rattle.schema_traits.specs.KeywordViews.{turn_of};
ghost use Rattle.keyword_authoring.specs.Items.{child_at_item, first_at_item, item_count};
ghost use Rattle.keyword_authoring.specs.Ways.{asked};
ghost use Rattle.standard_applicators.specs.RunWays.{at_later, at_listed};
ghost use Rattle.standard_applicators.specs.TakenTurns.{IsTurn};
ghost use Rattle.keyword_authoring.specs.Borrowing.{Borrows};

use keyword_authoring::{Progress, item_count, next_number};
use schema_reports::{Instance, OutOfMemory};
use schema_traits::{Answer, Below, Mode, Reply, Step};
use std::alloc::Global;

/// Returns the step that evaluates child `number` at item `number`.
fn ask_child_at_item<'s>(number: Option<usize>, mode: Mode) -> Step<'s>
    ensures step { turn_of result ≡ asked mode (option_map child_at_item number) }
{
    match number {
        Some(child) => Step::Ask(child, Below::Item(child), mode),
        None => Step::Done,
    }
}

/// Returns the step that evaluates the only child at item `number`.
fn ask_first_at_item<'s>(number: Option<usize>, mode: Mode) -> Step<'s>
    ensures step { turn_of result ≡ asked mode (option_map first_at_item number) }
{
    match number {
        Some(item) => Step::Ask(0, Below::Item(item), mode),
        None => Step::Done,
    }
}

/// Takes a turn of `items` with a list, which evaluates child N at item N.
pub fn turn_listed_items<'s, 'i>(
    alloc: Global,
    children: usize,
    run: &mut Progress,
    instance: Instance<'i>,
    reply: Reply<'i>,
    answer: &mut Answer<'i>,
) -> Result<Step<'s>, OutOfMemory>
    ensures turn { IsTurn (at_listed children instance.entry) run.old answer.old reply.entry run.new answer.new result }
    ensures borrows { Borrows reply.entry answer.old answer.new result }
{
    let count = listed_count(children, instance);
    let mode = run.mode;
    let number = next_number(alloc, 0, count, run, reply, answer)?;
    Ok(ask_child_at_item(number, mode))
}

/// Takes a turn of `items` with one schema, or of `additionalItems`.
///
/// The keyword evaluates its child at each item after the first `before`.
pub fn turn_later_items<'s, 'i>(
    alloc: Global,
    before: usize,
    run: &mut Progress,
    instance: Instance<'i>,
    reply: Reply<'i>,
    answer: &mut Answer<'i>,
) -> Result<Step<'s>, OutOfMemory>
    ensures turn { IsTurn (at_later before instance.entry) run.old answer.old reply.entry run.new answer.new result }
    ensures borrows { Borrows reply.entry answer.old answer.new result }
{
    let count = items_after(before, instance);
    let mode = run.mode;
    let number = next_number(alloc, before, count, run, reply, answer)?;
    Ok(ask_first_at_item(number, mode))
}

/// Returns the number of items after the first `before`.
fn items_after(before: usize, instance: Instance<'_>) -> usize
    ensures count { result ≡ item_count (subject_of instance.entry) - before }
    ensures fits { before + result < 2 ^ 64 }
{
    let all = item_count(instance);
    if before < all { all - before } else { 0 }
}

/// Returns the number of items that have a child of their own.
fn listed_count(children: usize, instance: Instance<'_>) -> usize
    ensures count { result ≡ min children (item_count (subject_of instance.entry)) }
{
    children.min(item_count(instance))
}
