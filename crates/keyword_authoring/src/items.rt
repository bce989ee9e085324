//! The items of instances.
ghost use Rattle.std.specs.Prelude.{◌≡◌, IfSome};
ghost use Rattle.serde_json.specs.Data.{array};
ghost use Rattle.serde_json.specs.View.{items_view};
ghost use Rattle.theory_definitions.specs.Instance.{a_value};
ghost use Rattle.schema_reports.specs.InstanceViews.{subject_of};
ghost use Rattle.keyword_authoring.specs.Items.{is_list, item_count};

use schema_reports::Instance;
use serde_json::Value;

/// Returns whether the instance is an array.
pub fn is_list(instance: Instance<'_>) -> bool
    ensures list { result ≡ is_list (subject_of instance.entry) }
{
    match instance {
        Instance::Value(value) => value.is_array(),
        Instance::Name(_) => false,
    }
}

/// Returns the number of items of the instance, or 0 if it is not an array.
#[tactic(auto, using(crate::proofs::MemberCounts::items_count_length))]
pub fn item_count(instance: Instance<'_>) -> usize
    ensures count { result ≡ item_count (subject_of instance.entry) }
{
    match instance {
        Instance::Name(_) => 0,
        Instance::Value(value) => match value.as_array() {
            Some(items) => items.len(),
            None => 0,
        },
    }
}

/// Returns the items of the instance, if it is an array.
#[inline(always)]
pub fn items_of<'i>(instance: Instance<'i>) -> Option<&'i [Value]>
    ensures items { IfSome result (λ items. subject_of instance.entry ≡ a_value (array (items_view items.now))) }
{
    match instance {
        Instance::Name(_) => None,
        Instance::Value(value) => match value {
            Value::Array(items) => Some(items.as_slice()),
            _ => None,
        },
    }
}
