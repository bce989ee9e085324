//! The output of an evaluation in the list format. (Core 2020-12, 12.4.2)
ghost use Rattle.std.specs.Prelude.{◌≡◌, ◌++◌, IfOk, map, true, option_map, OnOk};
ghost use Rattle.schema_reports.specs.Showing.{Shows};
ghost use Rattle.serde_json.specs.Data.{put, string};
ghost use Rattle.serde_json.specs.View.{members_view, view};
ghost use Rattle.schema_reports.specs.UnitViews.{described_of, report_in, unit_of};
ghost use Rattle.schema_output.specs.EntryViews.{Makes, list_by, object_by};
ghost use Rattle.schema_output.specs.Output.{errors_by_name, reports_in, schema_location, unit_object};
ghost use Rattle.schema_output.specs.Output.{with_annotations, with_errors};

use schema_reports::{Annotations, ErrorDescription, EvaluationNode, OutOfMemory, UnitReport};
use serde_json::{Map, Value};
use std::alloc::Global;

// Sets the value of a name, and replaces one that is there.
fn put_value(
    alloc: Global,
    object: &mut Map<String, Value>,
    name: &str,
    value: Value,
) -> Result<(), OutOfMemory>
    ensures put { Makes result object.old.entries object.new.entries (put name.now (view value)) }
{
    let name = String::from_str(alloc, name)?;
    drop(object.insert(name, value)?);
    Ok(())
}

// Sets the text of a name, and replaces a value that is there.
fn put_text(
    alloc: Global,
    object: &mut Map<String, Value>,
    name: &str,
    text: &str,
) -> Result<(), OutOfMemory>
    ensures put { Makes result object.old.entries object.new.entries (put name.now (string text.now)) }
{
    let text = String::from_str(alloc, text)?;
    put_value(alloc, object, name, Value::String(text))
}

// Returns the texts of errors by the names of their keywords. The first error of a name is inserted
// last, so it is the one that remains.
fn errors_by_name(
    alloc: Global,
    errors: &[ErrorDescription],
) -> Result<Map<String, Value>, OutOfMemory>
    ensures errors { IfOk result (λ m. members_view m.entries ≡ errors_by_name (map (described_of true) errors.now)) }
{
    let mut object = Map::new(alloc);
    for error in errors.iter().rev() {
        put_text(
            alloc,
            &mut object,
            error.keyword.as_str(),
            error.text.as_str(),
        )?;
    }
    Ok(object)
}

// Adds the errors of a unit to its object, if there are any.
fn put_errors(
    alloc: Global,
    object: &mut Map<String, Value>,
    errors: &[ErrorDescription],
) -> Result<(), OutOfMemory>
    ensures put { Makes result object.old.entries object.new.entries (with_errors (map (described_of true) errors.now)) }
{
    if errors.is_empty() {
        return Ok(());
    }
    let errors = errors_by_name(alloc, errors)?;
    put_value(alloc, object, "errors", Value::Object(errors))
}

// Adds the annotations of a unit to its object, if there are any. An invalid unit has them
// as dropped annotations.
fn put_annotations(
    alloc: Global,
    object: &mut Map<String, Value>,
    valid: bool,
    annotations: &Option<Annotations>,
) -> Result<(), OutOfMemory>
    ensures put { Makes result object.old.entries object.new.entries (with_annotations valid (option_map view annotations.now)) }
{
    match annotations {
        None => Ok(()),
        Some(value) => {
            let name = if valid {
                "annotations"
            } else {
                "droppedAnnotations"
            };
            put_value(alloc, object, name, value.clone()?)
        }
    }
}

/// Returns a unit's place in the schema: its URI, or else its pointer.
pub(crate) fn schema_location(report: &UnitReport) -> &str
    ensures location { result.now ≡ schema_location (report_in true report.now) }
{
    match &report.absolute_keyword_location {
        Some(uri) => uri.as_str(),
        None => report.schema_location.as_str(),
    }
}

/// Returns the object of a unit.
pub(crate) fn unit_object(alloc: Global, report: &UnitReport) -> Result<Value, OutOfMemory>
    ensures object { Shows view result (object_by report.now) }
{
    let mut object = Map::new(alloc);
    put_value(alloc, &mut object, "valid", Value::Bool(report.valid))?;
    put_text(
        alloc,
        &mut object,
        "evaluationPath",
        report.evaluation_path.as_str(),
    )?;
    put_text(
        alloc,
        &mut object,
        "schemaLocation",
        schema_location(report),
    )?;
    put_text(
        alloc,
        &mut object,
        "instanceLocation",
        report.instance_location.as_str(),
    )?;
    put_annotations(alloc, &mut object, report.valid, &report.annotations)?;
    put_errors(alloc, &mut object, report.errors.as_slice())?;
    Ok(Value::Object(object))
}

// Appends an object for the unit, and one for each unit inside it.
fn push_objects(
    alloc: Global,
    node: &EvaluationNode,
    objects: &mut Vec<Value>,
) -> Result<(), OutOfMemory>
    ensures pushed { OnOk result (map view objects.new.items
        ≡ map view objects.old.items ++ map unit_object (reports_in (unit_of true node.now))) }
{
    objects.push(unit_object(alloc, &node.report)?)?;
    for child in &node.children {
        push_objects(alloc, child, objects)?;
    }
    Ok(())
}

/// Returns the output of an evaluation with this outermost unit.
pub(crate) fn output_list(alloc: Global, root: &EvaluationNode) -> Result<Value, OutOfMemory>
    ensures list { Shows view result (list_by root.now) }
{
    let mut objects = Vec::new(alloc);
    push_objects(alloc, root, &mut objects)?;
    let mut object = Map::new(alloc);
    put_value(alloc, &mut object, "valid", Value::Bool(root.report.valid))?;
    put_value(alloc, &mut object, "details", Value::Array(objects))?;
    Ok(Value::Object(object))
}
