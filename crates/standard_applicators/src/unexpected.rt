//! `additionalItems` with the value `false`: there are no later items.
ghost use Rattle.std.specs.Prelude.{◌≡◌};
ghost use Rattle.serde_json.specs.View.{items_view};
ghost use Rattle.schema_reports.specs.InstanceViews.{subject_of};
ghost use Rattle.standard_applicators.specs.Unexpected.{items_after, subject_items, were};
ghost use Rattle.standard_applicators.specs.UnexpectedWords.{AddsShown, ShowsListed};

use keyword_authoring::{LeafKeyword, item_count};
use schema_reports::{Instance, OutOfMemory};
use serde_json::Value;
use std::alloc::Global;

/// The number of items that a list may have at most.
#[derive(Clone, Copy)]
pub struct NoLaterItems {
    pub before: usize,
}

fn push_shown(
    alloc: Global,
    before: &str,
    item: &Value,
    text: &mut String,
) -> Result<(), OutOfMemory>
    ensures pushed { AddsShown before.now item.now text.old text.new result }
{
    let shown = item.to_string(alloc)?;
    text.push_str(before)?;
    text.push_str(shown.as_str())?;
    Ok(())
}

/// Returns the texts of the values, with commas between them.
fn listed(alloc: Global, items: &[Value]) -> Result<String, OutOfMemory>
    ensures text { ShowsListed items.now result }
{
    let mut text = String::new(alloc);
    let mut between = "";
    for item in items {
        push_shown(alloc, between, item, &mut text)?;
        between = ", ";
    }
    Ok(text)
}

/// Returns the items after the first `before`.
#[tactic(auto, using(crate::proofs::LaterItems::items_dropped, crate::proofs::LaterItems::items_past))]
fn items_after(list: &[Value], before: usize) -> &[Value]
    ensures items { items_view result.now ≡ items_after before (items_view list.now) }
{
    if before <= list.len() {
        &list[before..]
    } else {
        &[]
    }
}

/// Returns the instance's items after the first `before`.
///
/// There are none if the instance is no list.
fn later_items<'i>(instance: Instance<'i>, before: usize) -> &'i [Value]
    ensures items { items_view result.now ≡ items_after before (subject_items (subject_of instance.entry)) }
{
    match instance {
        Instance::Name(_) => &[],
        Instance::Value(value) => match value.as_array() {
            Some(items) => items_after(items.as_slice(), before),
            None => &[],
        },
    }
}

/// Returns the end of the error's text for this number of unexpected items.
fn were(count: usize) -> &'static str
    ensures were { result.now ≡ were count }
{
    if count == 1 {
        " was unexpected)"
    } else {
        " were unexpected)"
    }
}

impl LeafKeyword for NoLaterItems {
    ghost use Rattle.standard_applicators.specs.Unexpected.{accepts, called, error_text};

    type Shape = NoLaterItems;

    ghost shape = { λ k. k };

    ghost called = { called };

    ghost accepts = { accepts };

    ghost error_text = { error_text };

    fn name(&self) -> &str {
        "additionalItems"
    }

    fn holds(&self, instance: Instance<'_>) -> bool {
        item_count(instance) <= self.before
    }

    #[tactic(auto, using(crate::proofs::LaterItems::later_whole))]
    fn text(&self, alloc: Global, instance: Instance<'_>) -> Result<String, OutOfMemory> {
        let shown = listed(alloc, later_items(instance, self.before))?;
        let count = item_count(instance).saturating_sub(self.before);
        let mut text = String::from_str(alloc, "Additional items are not allowed (")?;
        text.push_str(shown.as_str())?;
        text.push_str(were(count))?;
        Ok(text)
    }
}
