//! Equality of JSON values, for `enum`, `const` and `uniqueItems`.
//!
//! JSON Schema Core 2020-12, 4.2.2, defines it.
ghost use Rattle.std.specs.Prelude.{◌≡◌, ◌==◌};
ghost use Rattle.serde_json.specs.Data.{string};
ghost use Rattle.serde_json.specs.Events.{members_len};
ghost use Rattle.std.specs.List.Sorted.{IsStrictlySortedBy};
ghost use Rattle.std.specs.Map.{keys_of};
ghost use Rattle.std.specs.String.{string_cmp};
ghost use Rattle.serde_json.specs.View.{items_view, members_view, view};
ghost use Rattle.json_values.specs.Equality.{all_distinct, equal, equal_items, equal_members, has_equal, members_walk};

use crate::numbers::is_same_number;
use serde_json::{Map, Value};

/// Returns whether two values are equal.
///
/// 1 equals 1.0, arrays are equal if their items are, in the same order, and the order of an
/// object's members does not matter. `const` requires this equality (JSON Schema Validation
/// 2020-12, 6.1.3). Allocates nothing.
#[cycle(equal)]
pub fn is_equal(left: &Value, right: &Value) -> bool
    ensures equal { result ≡ equal (view left.now) (view right.now) }
{
    match left {
        Value::Null => right.is_null(),
        Value::Bool(truth) => right.as_bool() == Some(*truth),
        Value::Number(number) => match right.as_number() {
            Some(other) => is_same_number(number, other),
            None => false,
        },
        Value::String(text) => right.as_str() == Some(text.as_str()),
        Value::Array(items) => match right.as_array() {
            Some(others) => are_equal_items(items, others),
            None => false,
        },
        Value::Object(members) => match right.as_object() {
            Some(others) => are_equal_members(members, others),
            None => false,
        },
    }
}

#[cycle(equal)]
fn are_equal_items(left: &Vec<Value>, right: &Vec<Value>) -> bool
    ensures items { result ≡ equal_items (items_view left.now.items) (items_view right.now.items) }
{
    let mut others = right.iter();
    for item in left {
        match others.next() {
            Some(other) => {
                if !is_equal(item, other) {
                    return false;
                }
            }
            None => return false,
        }
    }
    others.next().is_none()
}

// A map holds its members in the order of their names, so the members are compared pair by pair.
#[cycle(equal)]
fn are_equal_members(left: &Map<String, Value>, right: &Map<String, Value>) -> bool
    ensures members { result ≡ equal_members (members_view left.now.entries) (members_view right.now.entries) }
{
    are_as_many(left, right) && are_equal_in_order(left, right)
}

#[cycle(equal)]
fn are_equal_in_order(left: &Map<String, Value>, right: &Map<String, Value>) -> bool
    ensures walk { result ≡ members_walk (members_view left.now.entries) (members_view right.now.entries) }
{
    let mut others = right.iter();
    for (name, member) in left.iter() {
        match others.next() {
            Some((other_name, other)) => {
                if name.as_str() != other_name.as_str() || !is_equal(member, other) {
                    return false;
                }
            }
            None => return false,
        }
    }
    others.next().is_none()
}

#[tactic(auto, using(crate::proofs::Counts::member_count))]
fn are_as_many(left: &Map<String, Value>, right: &Map<String, Value>) -> bool
    ensures left_ordered { IsStrictlySortedBy string_cmp (keys_of left.now.entries) }
    ensures right_ordered { IsStrictlySortedBy string_cmp (keys_of right.now.entries) }
    ensures as_many { result ≡ (members_len (members_view left.now.entries) == members_len (members_view right.now.entries)) }
{
    left.len() == right.len()
}

/// Returns whether no two of the values are equal, by comparing pairs.
///
/// `uniqueItems` requires this (JSON Schema Validation 2020-12, 6.4.3).
/// `distinct::are_all_distinct` is faster for many values, but allocates; this function does not.
pub fn are_all_distinct_by_pairs(values: &[Value]) -> bool
    ensures distinct { result ≡ all_distinct (items_view values.now) }
{
    let mut rest = values;
    while let Some((first, others)) = rest.split_first() {
        if is_among(first, others) {
            return false;
        }
        rest = others;
    }
    true
}

/// Returns whether one of the others equals this value.
///
/// `enum` requires this (JSON Schema Validation 2020-12, 6.1.2). Allocates nothing.
pub fn is_among(value: &Value, others: &[Value]) -> bool
    ensures among { result ≡ has_equal (view value.now) (items_view others.now) }
{
    if let Value::String(text) = value {
        return is_text_among(text.as_str(), others);
    }
    for other in others {
        if is_equal(value, other) {
            return true;
        }
    }
    false
}

fn is_text_among(text: &str, values: &[Value]) -> bool
    ensures among { result ≡ has_equal (string text.now) (items_view values.now) }
{
    for value in values {
        if let Value::String(other) = value {
            if other.len() == text.len() && other.as_str() == text {
                return true;
            }
        }
    }
    false
}
