//! Whether two values are the same data.
ghost use Rattle.std.specs.Prelude.{◌≡◌};
ghost use Rattle.serde_json.specs.View.{items_view, members_view, number_view, view};
ghost use Rattle.test_rows.specs.Equality.{are_same_items, are_same_members, is_same, is_same_number};

use serde_json::{Map, Number, Value};

/// Returns whether both are the same data. Does not allocate.
#[cycle(same)]
pub fn is_same(left: &Value, right: &Value) -> bool
    ensures same { result ≡ is_same (view left.now) (view right.now) }
{
    match left {
        Value::Null => right.is_null(),
        Value::Bool(truth) => right.as_bool() == Some(*truth),
        Value::Number(number) => match right.as_number() {
            Some(other) => is_same_number(number, other),
            None => false,
        },
        Value::String(text) => right.as_str() == Some(text.as_str()),
        Value::Array(items) => match right.as_array() {
            Some(others) => are_same_items(items, others),
            None => false,
        },
        Value::Object(members) => match right.as_object() {
            Some(others) => are_same_members(members, others),
            None => false,
        },
    }
}

fn is_same_number(left: &Number, right: &Number) -> bool
    ensures same { result ≡ is_same_number (number_view left.now) (number_view right.now) }
{
    if left.is_f64() || right.is_f64() {
        return left.is_f64() && right.is_f64() && left.as_f64() == right.as_f64();
    }
    left.as_u64() == right.as_u64() && left.as_i64() == right.as_i64()
}

#[cycle(same)]
fn are_same_items(left: &Vec<Value>, right: &Vec<Value>) -> bool
    ensures same { result ≡ are_same_items (items_view left.now.items) (items_view right.now.items) }
{
    let mut others = right.iter();
    for item in left {
        match others.next() {
            Some(other) => {
                if !is_same(item, other) {
                    return false;
                }
            }
            None => return false,
        }
    }
    others.next().is_none()
}

#[cycle(same)]
fn are_same_members(left: &Map<String, Value>, right: &Map<String, Value>) -> bool
    ensures same { result ≡ are_same_members (members_view left.now.entries) (members_view right.now.entries) }
{
    let mut others = right.iter();
    for (name, member) in left.iter() {
        match others.next() {
            Some((other_name, other)) => {
                if name.as_str() != other_name.as_str() || !is_same(member, other) {
                    return false;
                }
            }
            None => return false,
        }
    }
    others.next().is_none()
}
