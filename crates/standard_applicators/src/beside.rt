//! The effect of the draft and of neighbouring members on the items' keywords.
ghost use Rattle.std.specs.Prelude.{◌≡◌};
ghost use Rattle.serde_json.specs.View.{view};
ghost use Rattle.schema_drafts.specs.KeywordViews.{draft_of};
ghost use Rattle.standard_applicators.specs.Makers.{has_prefix, is_false, is_older_list, items_before, listed_beside, prefix_length};
ghost use Rattle.schema_traits.specs.Readings.{fields};

use keyword_makers::{list_length, value_in};
use schema_drafts::Draft;
use serde_json::{Map, Value};

/// Returns whether the draft has `prefixItems`, after which `items` continues.
///
/// Such a draft has no `additionalItems`.
pub fn has_prefix(draft: Draft) -> bool
    ensures prefix { result ≡ has_prefix (draft_of draft) }
{
    match draft {
        Draft::Draft202012 => true,
        Draft::Unknown => true,
        _ => false,
    }
}

/// Returns whether a value of `items` is a list of schemas.
///
/// Only some drafts allow a list there.
pub fn is_older_list(draft: Draft, value: &Value) -> bool
    ensures older { result ≡ is_older_list (draft_of draft) (view value.now) }
{
    !has_prefix(draft) && value.is_array()
}

/// Returns the number of schemas in `prefixItems`.
fn prefix_length(object: &Map<String, Value>) -> usize
    ensures length { result ≡ prefix_length (fields object.now) }
{
    match value_in(object, "prefixItems") {
        Some(value) => list_length(value),
        None => 0,
    }
}

/// Returns the number of items that `items` with one schema skips.
///
/// It is the number of schemas in `prefixItems`, in the drafts that have it.
pub fn items_before(draft: Draft, object: &Map<String, Value>) -> usize
    ensures before { result ≡ items_before (draft_of draft) (fields object.now) }
{
    if has_prefix(draft) {
        prefix_length(object)
    } else {
        0
    }
}

/// Returns the number of schemas in `items`, if it is a list of schemas.
///
/// Only some drafts allow a list there.
#[tactic(auto, using(keyword_authoring::proofs::MemberCounts::items_count_length))]
pub fn listed_beside(draft: Draft, object: &Map<String, Value>) -> Option<usize>
    ensures listed { result ≡ listed_beside (draft_of draft) (fields object.now) }
{
    if has_prefix(draft) {
        return None;
    }
    match value_in(object, "items") {
        Some(value) => match value.as_array() {
            Some(items) => Some(items.len()),
            None => None,
        },
        None => None,
    }
}

/// Returns whether a value is `false`.
pub fn is_false(value: &Value) -> bool
    ensures is_false { result ≡ is_false (view value.now) }
{
    match value {
        Value::Bool(holds) => !*holds,
        _ => false,
    }
}
