//! The members of instances.
ghost use Rattle.std.specs.Prelude.{◌≡◌, [], IfSome, is_some, option_map, slice_index_or};
ghost use Rattle.serde_json.specs.Data.{object};
ghost use Rattle.serde_json.specs.Find.{get_member};
ghost use Rattle.theory_definitions.specs.Instance.{a_value};
ghost use Rattle.schema_reports.specs.InstanceViews.{subject_of};
ghost use Rattle.keyword_authoring.specs.Members.{has_member, is_object, member_count, name_at, names_in, names_of_any, subject_names};
ghost use Rattle.schema_traits.specs.Readings.{fields};

use schema_reports::Instance;
use serde_json::{Map, Value};

/// Returns whether the instance is an object.
pub fn is_object(instance: Instance<'_>) -> bool
    ensures object { result ≡ is_object (subject_of instance.entry) }
{
    match instance {
        Instance::Value(value) => value.is_object(),
        Instance::Name(_) => false,
    }
}

fn is_named(members: &Map<String, Value>, name: &str) -> bool
    ensures named { result ≡ is_some (get_member name.now (fields members.now)) }
{
    members.contains_key(name)
}

/// Returns whether the instance has a member with this name.
#[inline(always)]
pub fn has_member(instance: Instance<'_>, name: &str) -> bool
    ensures member { result ≡ has_member name.now (subject_of instance.entry) }
{
    match instance {
        Instance::Value(value) => match value.as_object() {
            Some(members) => is_named(members, name),
            None => false,
        },
        Instance::Name(_) => false,
    }
}

/// Returns the number of members of the instance, or 0 if it is not an object.
#[tactic(auto, using(crate::proofs::MemberCounts::names_in_length))]
pub fn member_count(instance: Instance<'_>) -> usize
    ensures count { result ≡ member_count (subject_of instance.entry) }
{
    match instance {
        Instance::Name(_) => 0,
        Instance::Value(value) => match value.as_object() {
            Some(members) => members.len(),
            None => 0,
        },
    }
}

/// Returns the name of the member with this number, or an empty text.
fn name_among(members: &Map<String, Value>, number: usize) -> &str
    ensures name { result.now ≡ slice_index_or (names_in (fields members.now)) number [] }
{
    let mut left = number;
    for (name, _) in members {
        if left == 0 {
            return name.as_str();
        }
        left -= 1;
    }
    ""
}

/// Returns the name of the instance's member with this number.
///
/// Members are numbered in the object's order. If there is no such member, the text is empty.
/// Iterates over the members before it.
pub fn name_at<'i>(instance: Instance<'i>, number: usize) -> &'i str
    ensures name { result.now ≡ name_at (subject_of instance.entry) number }
{
    match instance {
        Instance::Name(_) => "",
        Instance::Value(value) => match value.as_object() {
            Some(members) => name_among(members, number),
            None => "",
        },
    }
}

/// Returns the members of the instance, if it is an object.
#[inline(always)]
pub fn members_of<'i>(instance: Instance<'i>) -> Option<&'i Map<String, Value>>
    ensures members { IfSome result (λ members. subject_of instance.entry ≡ a_value (object (fields members.now))) }
    ensures names { names_of_any (option_map (λ m. fields m.now) result) ≡ subject_names (subject_of instance.entry) }
{
    match instance {
        Instance::Name(_) => None,
        Instance::Value(value) => match value {
            Value::Object(members) => Some(members),
            _ => None,
        },
    }
}
