//! What `items` takes from the neighbouring members.
ghost use Rattle.std.specs.Prelude.{◌≡◌};
ghost use Rattle.serde_json.specs.View.{view};
ghost use Rattle.schema_drafts.specs.KeywordViews.{draft_of};
ghost use Rattle.standard_basics.specs.Makers.{has_prefix, is_older_list, items_before, prefix_length};
ghost use Rattle.schema_traits.specs.Readings.{fields};

use keyword_makers::{list_length, value_in};
use schema_drafts::Draft;
use serde_json::{Map, Value};

/// Returns whether `items` continues after `prefixItems` in this draft.
fn has_prefix(draft: Draft) -> bool
    ensures prefix { result ≡ has_prefix (draft_of draft) }
{
    match draft {
        Draft::Draft202012 => true,
        Draft::Unknown => true,
        _ => false,
    }
}

/// Returns whether `items` is a list that makes no keyword in this draft.
pub fn is_older_list(draft: Draft, value: &Value) -> bool
    ensures older { result ≡ is_older_list (draft_of draft) (view value.now) }
{
    !has_prefix(draft) && value.is_array()
}

/// Returns the number of items that `items` skips.
///
/// This is the number of schemas of `prefixItems`, in the drafts that have it.
pub fn items_before(draft: Draft, object: &Map<String, Value>) -> usize
    ensures before { result ≡ items_before (draft_of draft) (fields object.now) }
{
    if has_prefix(draft) {
        prefix_length(object)
    } else {
        0
    }
}

/// Returns the number of schemas of `prefixItems`.
fn prefix_length(object: &Map<String, Value>) -> usize
    ensures length { result ≡ prefix_length (fields object.now) }
{
    match value_in(object, "prefixItems") {
        Some(value) => list_length(value),
        None => 0,
    }
}
