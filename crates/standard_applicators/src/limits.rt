//! The limits beside `contains`.
ghost use Rattle.std.specs.Prelude.{◌≡◌};
ghost use Rattle.serde_json.specs.View.{view};
ghost use Rattle.schema_drafts.specs.KeywordViews.{draft_of};
ghost use Rattle.standard_applicators.specs.Limits.{contains_in, has_limits, limit_beside, limit_in, limit_of, refused_limit};
ghost use Rattle.schema_traits.specs.Readings.{fields, value_read};

use crate::contains::Contains;
use json_values::natural_of;
use keyword_makers::value_in;
use schema_drafts::Draft;
use serde_json::{Map, Value};

/// Returns whether a draft has `minContains` and `maxContains`.
fn has_limits(draft: Draft) -> bool
    ensures limits { result ≡ has_limits (draft_of draft) }
{
    match draft {
        Draft::Draft4 => false,
        Draft::Draft6 => false,
        Draft::Draft7 => false,
        _ => true,
    }
}

/// Returns the limit, if the value is one.
fn limit_of(value: &Value) -> Option<usize>
    ensures limit { result ≡ limit_of (view value.now) }
{
    match natural_of(value.as_number()?) {
        Some(limit) => Some(limit as usize),
        None => None,
    }
}

/// Returns the value of a limit beside `contains`, if the draft has it.
fn limit_beside<'o>(draft: Draft, name: &str, object: &'o Map<String, Value>) -> Option<&'o Value>
    ensures value { value_read result ≡ limit_beside (draft_of draft) name.now (fields object.now) }
{
    if has_limits(draft) {
        value_in(object, name)
    } else {
        None
    }
}

/// Returns the limit with this name beside `contains`.
fn limit_in(draft: Draft, name: &str, object: &Map<String, Value>) -> Option<usize>
    ensures limit { result ≡ limit_in (draft_of draft) name.now (fields object.now) }
{
    match limit_beside(draft, name, object) {
        Some(value) => limit_of(value),
        None => None,
    }
}

/// Returns the value of a limit beside `contains` if it is no natural number.
pub fn refused_limit<'o>(
    draft: Draft,
    name: &str,
    object: &'o Map<String, Value>,
) -> Option<&'o Value>
    ensures refused { value_read result ≡ refused_limit (draft_of draft) name.now (fields object.now) }
{
    match limit_beside(draft, name, object) {
        Some(value) => match limit_of(value) {
            Some(_) => None,
            None => Some(value),
        },
        None => None,
    }
}

/// Returns the `contains` of an object, with the limits beside it.
pub fn contains_in(draft: Draft, object: &Map<String, Value>) -> Contains
    ensures contains { result ≡ contains_in (draft_of draft) (fields object.now) }
{
    let least = limit_in(draft, "minContains", object).unwrap_or(1);
    let most = limit_in(draft, "maxContains", object);
    Contains { least, most }
}
