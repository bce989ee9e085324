//! Whether a value contains a fraction: a number that is read as a float.
ghost use Rattle.std.specs.Prelude.{◌≡◌};
ghost use Rattle.serde_json.specs.Written.{has_float, items_have_float, members_have_float};
ghost use Rattle.serde_json.specs.View.{items_view, members_view, view};

use serde_json::{Map, Value};

/// Returns whether a value contains a number that is a float.
#[cycle(walk)]
pub fn has_fraction(value: &Value) -> bool
    ensures fraction { result ≡ has_float (view value.now) }
{
    match value {
        Value::Null => false,
        Value::Bool(_) => false,
        Value::Number(number) => number.is_f64(),
        Value::String(_) => false,
        Value::Array(items) => items_have_fraction(items),
        Value::Object(members) => members_have_fraction(members),
    }
}

#[cycle(walk)]
fn items_have_fraction(items: &Vec<Value>) -> bool
    ensures fraction { result ≡ items_have_float (items_view items.now.items) }
{
    for item in items {
        if has_fraction(item) {
            return true;
        }
    }
    false
}

#[cycle(walk)]
fn members_have_fraction(members: &Map<String, Value>) -> bool
    ensures fraction { result ≡ members_have_float (members_view members.now.entries) }
{
    for (_, member) in members.iter() {
        if has_fraction(member) {
            return true;
        }
    }
    false
}
