//! Schemas that name a draft somewhere inside.
//!
//! Any other schema is read in one draft throughout.
ghost use Rattle.std.specs.Prelude.{◌≡◌, ◌&&◌, ◌||◌, codes, is_some};
ghost use Rattle.serde_json.specs.Data.{object};
ghost use Rattle.serde_json.specs.View.{items_view, view};
ghost use Rattle.standard_subschemas.specs.SubschemaRules.{text_member};
ghost use Rattle.standard_subschemas.specs.NamedDrafts.{items_name_draft, members_name_draft, names_draft_inside};
ghost use Rattle.schema_traits.specs.Readings.{fields};

use serde_json::{Map, Value};

/// Returns whether a value inside this one, at any depth, has a `$schema`.
///
/// The `$schema` of the value itself does not count.
pub fn names_draft_inside(value: &Value) -> bool
    ensures names { result ≡ names_draft_inside (view value.now) }
{
    names_draft(value, false)
}

// Like `names_draft_inside`, but the value's own `$schema` counts if `counts` is true.
#[cycle(names)]
fn names_draft(value: &Value, counts: bool) -> bool
    ensures names { result ≡ (counts && is_some (text_member (codes "$schema") (view value.now)) || names_draft_inside (view value.now)) }
{
    match value {
        Value::Array(items) => items_name_draft(items),
        Value::Object(members) => members_name_draft(members, counts),
        _ => false,
    }
}

// The items' own `$schema` counts.
#[cycle(names)]
fn items_name_draft(items: &Vec<Value>) -> bool
    ensures names { result ≡ items_name_draft (items_view items.now.items) }
{
    for item in items {
        if names_draft(item, true) {
            return true;
        }
    }
    false
}

// Like `names_draft`, for an object with these members.
#[cycle(names)]
fn members_name_draft(members: &Map<String, Value>, counts: bool) -> bool
    ensures names { result ≡ (counts && is_some (text_member (codes "$schema") (object (fields members.now))) || members_name_draft
        (fields members.now)) }
{
    let mut asked = counts;
    for (name, member) in members {
        if asked && name.as_str() == "$schema" {
            if member.is_string() {
                return true;
            }
            asked = false;
        }
        if names_draft(member, true) {
            return true;
        }
    }
    false
}
