//! Meta validators for tests.
ghost use Rattle.std.specs.Prelude.{◌≡◌, [], Bool, IfOk, Some, true, false, is_some, string_bytes};
ghost use Rattle.serde_json.specs.Data.{Data, array, object};
ghost use Rattle.serde_json.specs.Find.{as_array};
ghost use Rattle.serde_json.specs.Written.{has_float, items_have_float, members_have_float};
ghost use Rattle.serde_json.specs.View.{items_view, view};
ghost use Rattle.theory_definitions.specs.Instance.{a_value, subject_at};
ghost use Rattle.schema_drafts.specs.KeywordViews.{draft_of};
ghost use Rattle.schema_reports.specs.ReportViews.{BorrowsItsPlace, error_of};
ghost use Rattle.bench_parts.specs.BenchMeta.{HasNoFaultInside, HasNoFaultItself};
ghost use Rattle.bench_parts.specs.BenchMeta.{fault_in, fault_in_items, fault_in_members, is_2020_12, is_schema, member_fault};
ghost use Rattle.bench_parts.specs.BenchMeta.{is_list_of_items, is_no_length, mistyped, type_text};
ghost use Rattle.bench_parts.specs.FaultWords.{FaultBorrows, FaultIs};
ghost use Rattle.bench_parts.specs.MetaPlaces.{steps_to};
ghost use Rattle.schema_traits.specs.Readings.{fields};

use crate::meta_place::MetaPlace;
use schema_drafts::Draft;
use schema_reports::{Instance, InstanceStep, Location, OutOfMemory, Place, ValidationError};
use schema_traits::MetaValidators;
use serde_json::{Map, Value};
use std::alloc::Global;

/// Meta validators that check the type of documents, `minLength` and `items`.
#[derive(Clone, Copy)]
pub struct BenchMeta {}

/// Returns the text of an error for a value that is of none of these types.
fn type_text(alloc: Global, value: &Value, types: &str) -> Result<String, OutOfMemory>
    ensures text { IfOk result (λ text. has_float (view value.now) ≡ false → string_bytes text ≡ type_text (view value.now) types.now) }
{
    let mut text = Instance::Value(value).text(alloc)?;
    text.push_str(" is not of ")?;
    text.push_str(types)?;
    Ok(text)
}

/// Returns the error for a value that is of none of these types.
fn mistyped<'v>(
    alloc: Global,
    place: Place<'v>,
    value: &'v Value,
    types: &str,
) -> Result<ValidationError<'v>, OutOfMemory>
    ensures error { IfOk result (λ e. (texts : Bool) → (texts ≡ true → has_float (view value.now) ≡ false)
        → error_of texts e ≡ mistyped texts place.entry (view value.now) types.now) }
    ensures borrows { IfOk result (λ e. (root : Data) → subject_at root place.entry ≡ Some (a_value (view value.now))
        → BorrowsItsPlace root e) }
{
    let text = type_text(alloc, value, types)?;
    Ok(ValidationError {
        instance: Instance::Value(value),
        place,
        schema_path: Location::from_escaped(alloc, "/type")?,
        evaluation_path: Location::from_escaped(alloc, "/type")?,
        absolute_keyword_location: None,
        keyword: String::from_str(alloc, "type")?,
        text,
    })
}

/// Returns whether a value is an object or a boolean.
fn is_schema(value: &Value) -> bool
    ensures schema { result ≡ is_schema (view value.now) }
{
    value.is_object() || value.is_boolean()
}

/// Returns whether `items` takes only a single schema in the draft.
fn is_2020_12(draft: Draft) -> bool
    ensures later { result ≡ is_2020_12 (draft_of draft) }
{
    matches!(draft, Draft::Draft202012 | Draft::Unknown)
}

/// Returns whether a member is a `minLength` that is not a number.
fn is_no_length(name: &str, member: &Value) -> bool
    ensures no_length { result ≡ is_no_length name.now (view member.now) }
{
    name == "minLength" && !member.is_number()
}

/// Returns whether a member is an `items` list, in a draft that allows none.
fn is_list_of_items(draft: Draft, name: &str, member: &Value) -> bool
    ensures list { result ≡ is_list_of_items (draft_of draft) name.now (view member.now) }
{
    name == "items" && is_2020_12(draft) && member.is_array()
}

/// Returns whether a value has values inside, in which there may be an error.
fn has_inside(value: &Value) -> bool
    ensures none { result ≡ false → HasNoFaultInside (view value.now) }
    ensures no_list { result ≡ false → is_some (as_array (view value.now)) ≡ false }
{
    matches!(value, Value::Array(_) | Value::Object(_))
}

/// Returns whether there may be an error of a member or inside it.
#[tactic(auto, using(crate::proofs::NoFaults::none_itself))]
fn may_have_fault(name: &str, member: &Value) -> bool
    ensures own { result ≡ false → HasNoFaultItself name.now (view member.now) }
    ensures inside { result ≡ false → HasNoFaultInside (view member.now) }
{
    has_inside(member) || is_no_length(name, member)
}

/// Returns the error of a member itself, at its place.
fn member_fault<'v>(
    alloc: Global,
    draft: Draft,
    place: &MetaPlace<'_, 'v>,
    name: &str,
    member: &'v Value,
) -> Result<Option<ValidationError<'v>>, OutOfMemory>
    ensures fault { IfOk result (FaultIs (has_float (view member.now))
        (λ texts. member_fault texts (draft_of draft) (steps_to place.now) name.now (view member.now))) }
    ensures borrows { IfOk result (FaultBorrows (steps_to place.now) (view member.now)) }
{
    if is_no_length(name, member) {
        return Ok(Some(mistyped(alloc, place.made(alloc)?, member, "type \"number\"")?));
    }
    if is_list_of_items(draft, name, member) {
        return Ok(Some(mistyped(
            alloc,
            place.made(alloc)?,
            member,
            "types \"boolean\", \"object\"",
        )?));
    }
    Ok(None)
}

/// Returns the first error inside the value at a place.
#[cycle(walk)]
fn fault_in<'v>(
    alloc: Global,
    draft: Draft,
    place: &MetaPlace<'_, 'v>,
    value: &'v Value,
) -> Result<Option<ValidationError<'v>>, OutOfMemory>
    ensures fault { IfOk result (FaultIs (has_float (view value.now))
        (λ texts. fault_in texts (draft_of draft) (steps_to place.now) (view value.now))) }
    ensures borrows { IfOk result (FaultBorrows (steps_to place.now) (view value.now)) }
{
    match value {
        Value::Array(items) => fault_in_items(alloc, draft, place, items),
        Value::Object(members) => fault_in_members(alloc, draft, place, members),
        _ => Ok(None),
    }
}

/// Returns the first error inside items, in order.
#[cycle(walk)]
fn fault_in_items<'v>(
    alloc: Global,
    draft: Draft,
    place: &MetaPlace<'_, 'v>,
    items: &'v Vec<Value>,
) -> Result<Option<ValidationError<'v>>, OutOfMemory>
    ensures fault { IfOk result (FaultIs (items_have_float (items_view items.now.items))
        (λ texts. fault_in_items texts (draft_of draft) (steps_to place.now) 0 (items_view items.now.items))) }
    ensures borrows { IfOk result (FaultBorrows (steps_to place.now) (array (items_view items.now.items))) }
{
    for (index, item) in items.iter().enumerate() {
        if !has_inside(item) {
            continue;
        }
        let below = (&*place).below(InstanceStep::Item(index));
        if let Some(error) = fault_in(alloc, draft, &below, item)? {
            return Ok(Some(error));
        }
    }
    Ok(None)
}

/// Returns the first error of members or inside them, in the order of names.
#[cycle(walk)]
fn fault_in_members<'v>(
    alloc: Global,
    draft: Draft,
    place: &MetaPlace<'_, 'v>,
    members: &'v Map<String, Value>,
) -> Result<Option<ValidationError<'v>>, OutOfMemory>
    ensures fault { IfOk result (FaultIs (members_have_float (fields members.now)) (λ texts. fault_in_members texts (draft_of draft)
        (steps_to place.now) (fields members.now))) }
    ensures borrows { IfOk result (FaultBorrows (steps_to place.now) (object (fields members.now))) }
{
    for (name, member) in members.iter() {
        let named = name.as_str();
        if !may_have_fault(named, member) {
            continue;
        }
        let below = (&*place).below(InstanceStep::Member(named));
        if let Some(error) = member_fault(alloc, draft, &below, named, member)? {
            return Ok(Some(error));
        }
        if let Some(error) = fault_in(alloc, draft, &below, member)? {
            return Ok(Some(error));
        }
    }
    Ok(None)
}

impl MetaValidators for BenchMeta {
    ghost use Rattle.bench_parts.specs.BenchMeta.{document_fault};

    ghost checked = { λ _. document_fault };

    fn check<'v>(
        &self,
        alloc: Global,
        draft: Draft,
        schema: &'v Value,
    ) -> Result<Option<ValidationError<'v>>, OutOfMemory> {
        if is_schema(schema) {
            return fault_in(alloc, draft, &MetaPlace::Root, schema);
        }
        Ok(Some(mistyped(
            alloc,
            Place::root(alloc),
            schema,
            "types \"boolean\", \"object\"",
        )?))
    }
}
