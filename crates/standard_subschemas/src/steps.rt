//! Steps from a value to a value inside it.
ghost use Rattle.std.specs.Prelude.{◌≡◌};
ghost use Rattle.serde_json.specs.View.{view};
ghost use Rattle.theory_definitions.specs.Instance.{after_step, a_value};
ghost use Rattle.schema_traits.specs.SchemaViews.{schema_step_of};
ghost use Rattle.standard_subschemas.specs.Subjects.{subject_read};

use schema_traits::SchemaStep;
use serde_json::Value;

/// Returns the value one step below.
pub fn value_below<'v>(value: &'v Value, step: &SchemaStep) -> Option<&'v Value>
    ensures below { subject_read result ≡ after_step (schema_step_of step.now) (a_value (view value.now)) }
{
    match step {
        SchemaStep::Member(name) => value.get(name.as_str()),
        SchemaStep::Item(index) => value.get(*index),
    }
}
