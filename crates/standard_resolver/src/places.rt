//! Places in documents, and the values there.
ghost use Rattle.std.specs.Prelude.{◌≡◌, ◌<◌, length, map};
ghost use Rattle.serde_json.specs.Data.{object};
ghost use Rattle.serde_json.specs.View.{view};
ghost use Rattle.theory_definitions.specs.Instance.{after_step, a_value, subject_from};
ghost use Rattle.schema_traits.specs.SchemaViews.{schema_step_of};
ghost use Rattle.schema_traits.specs.ResolverViews.{place_of};
ghost use Rattle.standard_subschemas.specs.SubschemaRules.{root_place};
ghost use Rattle.standard_subschemas.specs.Subjects.{subject_read};
ghost use Rattle.standard_resolver.specs.DocumentViews.{held};
ghost use Rattle.standard_resolver.specs.ResolverDocuments.{StandsInside};
ghost use Rattle.schema_traits.specs.Readings.{fields, value_read};

use crate::documents::Documents;
use schema_traits::{SchemaPath, SchemaPlace, SchemaStep};
use serde_json::{Map, Value};
use standard_subschemas::value_below;
use std::alloc::Global;

/// Returns the place of the first document's root.
pub fn root_place(alloc: Global) -> SchemaPlace
    ensures root { place_of result ≡ root_place }
{
    SchemaPlace {
        document: 0,
        path: SchemaPath::root(alloc),
    }
}

/// Returns the value that steps lead to.
pub fn value_after<'v>(value: &'v Value, steps: &[SchemaStep]) -> Option<&'v Value>
    ensures after { subject_read result ≡ subject_from (map schema_step_of steps.now) (a_value (view value.now)) }
{
    let mut reached = value;
    for step in steps {
        match value_below(reached, step) {
            Some(below) => reached = below,
            None => return None,
        }
    }
    Some(reached)
}

fn member_below<'v>(members: &'v Map<String, Value>, step: &SchemaStep) -> Option<&'v Value>
    ensures below { subject_read result ≡ after_step (schema_step_of step.now) (a_value (object (fields members.now))) }
{
    match step {
        SchemaStep::Member(name) => members.get(name.as_str()),
        SchemaStep::Item(_) => None,
    }
}

/// Returns the value that steps lead to from an object with these members.
fn value_after_member<'v>(
    members: &'v Map<String, Value>,
    steps: &[SchemaStep],
) -> Option<&'v Value>
    requires step { 0 < length steps.now }
    ensures after { subject_read result ≡ subject_from (map schema_step_of steps.now) (a_value (object (fields members.now))) }
{
    match member_below(members, &steps[0]) {
        Some(value) => value_after(value, &steps[1..]),
        None => None,
    }
}

/// Returns the value at a place below an object with these members.
///
/// `path` leads from the object to the place, so the search begins at the members.
pub fn value_inside<'v>(
    documents: &'v Documents<'_>,
    members: &'v Map<String, Value>,
    path: &SchemaPath,
    place: &SchemaPlace,
) -> Option<&'v Value>
    ensures value { StandsInside (held documents.now) members.now.entries path.now (place_of place.now) (value_read result) }
{
    let steps = path.steps();
    if steps.len() == 0 {
        return documents.value_at(place);
    }
    value_after_member(members, steps)
}
