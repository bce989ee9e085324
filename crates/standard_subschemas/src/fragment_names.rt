//! Names in fragments, which the standard's rule decodes.
ghost use Rattle.std.specs.Prelude.{option_map, string_bytes};
ghost use Rattle.serde_json.specs.View.{view};
ghost use Rattle.schema_drafts.specs.KeywordViews.{draft_of};
ghost use Rattle.standard_subschemas.specs.FragmentNames.{name_in_fragment, name_read, schema_name};
ghost use Rattle.schema_traits.specs.Showing.{Shows};

use crate::identifiers::plain_name;
use crate::pointers::decoded;
use crate::rules::Rule;
use schema_drafts::Draft;
use schema_reports::OutOfMemory;
use serde_json::Value;
use std::alloc::Global;

/// Returns the name that a fragment means.
///
/// By the standard's rule it is percent-decoded.
///
/// # Errors
///
/// Out of memory.
pub fn name_in_fragment(alloc: Global, rule: Rule, fragment: &str) -> Result<String, OutOfMemory>
    ensures name { Shows string_bytes result (name_in_fragment rule fragment.now) }
{
    match rule {
        Rule::Narrow => String::from_str(alloc, fragment),
        Rule::Standard => decoded(alloc, fragment),
    }
}

/// Returns a name as it is read: in drafts 4 to 7 it is a fragment.
fn name_read(alloc: Global, rule: Rule, draft: Draft, name: &str) -> Result<String, OutOfMemory>
    ensures name { Shows string_bytes result (name_read rule (draft_of draft) name.now) }
{
    if draft.is_before_2019_09() {
        name_in_fragment(alloc, rule, name)
    } else {
        String::from_str(alloc, name)
    }
}

/// Returns the name of a schema, if it has one.
///
/// # Errors
///
/// Out of memory.
pub fn schema_name(
    alloc: Global,
    rule: Rule,
    draft: Draft,
    value: &Value,
) -> Result<Option<String>, OutOfMemory>
    ensures name { Shows (option_map string_bytes) result (schema_name rule (draft_of draft) (view value.now)) }
{
    match plain_name(rule, draft, value) {
        Some(name) => Ok(Some(name_read(alloc, rule, draft, name)?)),
        None => Ok(None),
    }
}
