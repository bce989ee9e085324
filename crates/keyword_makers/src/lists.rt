//! Keywords whose value is an array of schemas.
ghost use Rattle.std.specs.Prelude.{◌≡◌, IfOk};
ghost use Rattle.serde_json.specs.Find.{as_array};
ghost use Rattle.serde_json.specs.View.{view};
ghost use Rattle.keyword_authoring.specs.Items.{count_in};
ghost use Rattle.keyword_makers.specs.Making.{each_schema};
ghost use Rattle.keyword_makers.specs.MakerViews.{Begins};

use crate::maker::{PathsMaker, each_item};
use crate::refusals::malformed;
use schema_reports::OutOfMemory;
use schema_traits::Validate;
use serde_json::Value;
use std::alloc::Global;

/// Returns the number of items of a value, or 0 if it is not an array.
#[tactic(auto, using(keyword_authoring::proofs::MemberCounts::items_count_length))]
pub fn list_length(value: &Value) -> usize
    ensures length { result ≡ count_in (as_array (view value.now)) }
{
    match value.as_array() {
        Some(items) => items.len(),
        None => 0,
    }
}

/// Returns a maker that requests each schema of the array.
///
/// It refuses a value that is not an array.
pub fn each_schema<K: Validate>(
    alloc: Global,
    name: &str,
    value: &Value,
    keyword: K,
) -> Result<PathsMaker<K>, OutOfMemory>
    ensures maker { IfOk result (Begins K.shape (each_schema name.now (view value.now) (K.shape keyword))) }
{
    match value.as_array() {
        Some(items) => each_item(alloc, name, items.as_slice(), keyword),
        None => malformed(alloc, name, value),
    }
}
