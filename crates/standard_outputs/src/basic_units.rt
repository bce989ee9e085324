//! The output formats `flag` and `basic`. (Core 2020-12, 12.4.1 and 12.4.2)
ghost use Rattle.std.specs.Prelude.{◌≡◌, ◌++◌, ◌∷◌, [], Bool, IfOk, false, map, option_map, string_bytes, true};
ghost use Rattle.schema_reports.specs.Showing.{Shows};
ghost use Rattle.serde_json.specs.View.{members_view, view};
ghost use Rattle.serde_json.specs.Written.{compact_text};
ghost use Rattle.theory_definitions.specs.Plan.{encoded};
ghost use Rattle.theory_definitions.specs.Pointer.{escaped};
ghost use Rattle.schema_reports.specs.UnitViews.{described_of, report_in, unit_of};
ghost use Rattle.schema_output.specs.Texts.{IsJsonText};
ghost use Rattle.standard_outputs.specs.Basic.{accepted_objects, annotation_object, annotation_objects, basic_output};
ghost use Rattle.standard_outputs.specs.Basic.{error_object, error_objects, flag_output, keyword_report, keyword_uri};
ghost use Rattle.standard_outputs.specs.Basic.{listed, located, member_objects, objects_in, place_members, plain_object};
ghost use Rattle.standard_outputs.specs.Basic.{refused_objects, unit_objects, with_absolute, with_fragment};
ghost use Rattle.standard_outputs.specs.CodeViews.{Appends, Makes, outer_of};

use crate::keyword_units::{is_keyword_in, outer_for};
use crate::members::{put_text, put_value};
use schema_node_table::push_fragment;
use schema_reports::{EvaluationNode, Location, LocationSegment, OutOfMemory, UnitReport};
use serde_json::{Map, Value};
use std::alloc::Global;

/// Returns the verdict of the outermost unit, as JSON: the format `flag`.
pub fn flag_text(root: &EvaluationNode) -> &'static str
    ensures text { result.now ≡ compact_text (flag_output (unit_of true root.now)) }
{
    if root.report.valid {
        "{\"valid\":true}"
    } else {
        "{\"valid\":false}"
    }
}

/// Sets the absolute location, if there is one.
fn put_absolute(
    alloc: Global,
    object: &mut Map<String, Value>,
    uri: &Option<String>,
) -> Result<(), OutOfMemory>
    ensures put { Makes result object.old.entries object.new.entries (with_absolute (option_map string_bytes uri.now)) }
{
    match uri {
        Some(uri) => put_text(alloc, object, "absoluteKeywordLocation", uri.as_str()),
        None => Ok(()),
    }
}

/// Returns the verdict and the locations that each unit has.
fn located(
    alloc: Global,
    valid: bool,
    path: &str,
    uri: &Option<String>,
    place: &str,
) -> Result<Map<String, Value>, OutOfMemory>
    ensures members { IfOk result (λ m. members_view m.entries
        ≡ located valid path.now (option_map string_bytes uri.now) place.now) }
{
    let mut object = Map::new(alloc);
    put_value(alloc, &mut object, "valid", Value::Bool(valid))?;
    put_text(alloc, &mut object, "keywordLocation", path)?;
    put_absolute(alloc, &mut object, uri)?;
    put_text(alloc, &mut object, "instanceLocation", place)?;
    Ok(object)
}

fn place_members(alloc: Global, report: &UnitReport) -> Result<Map<String, Value>, OutOfMemory>
    ensures members { IfOk result (λ m. members_view m.entries ≡ place_members (report_in true report.now)) }
{
    located(
        alloc,
        report.valid,
        report.evaluation_path.as_str(),
        &report.absolute_keyword_location,
        report.instance_location.as_str(),
    )
}

fn error_object(alloc: Global, report: &UnitReport, text: &str) -> Result<Value, OutOfMemory>
    ensures object { Shows view result (error_object (report_in true report.now) text.now) }
{
    let mut object = place_members(alloc, report)?;
    put_text(alloc, &mut object, "error", text)?;
    Ok(Value::Object(object))
}

fn annotation_object(
    alloc: Global,
    report: &UnitReport,
    annotation: &Value,
) -> Result<Value, OutOfMemory>
    ensures object { Shows view result (annotation_object (report_in true report.now) (view annotation.now)) }
{
    let mut object = place_members(alloc, report)?;
    put_value(alloc, &mut object, "annotation", annotation.clone()?)?;
    Ok(Value::Object(object))
}

fn plain_object(alloc: Global, report: &UnitReport) -> Result<Value, OutOfMemory>
    ensures object { Shows view result (plain_object (report_in true report.now)) }
{
    Ok(Value::Object(place_members(alloc, report)?))
}

/// Appends a unit once for each of its errors.
fn push_errors(
    alloc: Global,
    report: &UnitReport,
    objects: &mut Vec<Value>,
) -> Result<(), OutOfMemory>
    ensures pushed { Appends result objects.old.items objects.new.items
        (error_objects (report_in true report.now) (map (described_of true) report.now.errors.items)) }
{
    for error in &report.errors {
        objects.push(error_object(alloc, report, error.text.as_str())?)?;
    }
    Ok(())
}

/// Appends an invalid unit.
fn push_refused(
    alloc: Global,
    report: &UnitReport,
    objects: &mut Vec<Value>,
) -> Result<(), OutOfMemory>
    ensures pushed { Appends result objects.old.items objects.new.items
        (refused_objects (report_in true report.now) (map (described_of true) report.now.errors.items)) }
{
    if report.errors.is_empty() {
        objects.push(error_object(alloc, report, "A subschema had errors.")?)?;
        Ok(())
    } else {
        push_errors(alloc, report, objects)
    }
}

/// Returns a segment as a URI's fragment has it.
fn encoded(alloc: Global, segment: &str) -> Result<String, OutOfMemory>
    ensures encoded { Shows string_bytes result (encoded segment.now) }
{
    let mut fragment = String::new(alloc);
    push_fragment(&mut fragment, segment, 0)?;
    match fragment.as_str().strip_prefix('#') {
        Some(text) => String::from_str(alloc, text),
        None => Ok(String::new(alloc)),
    }
}

/// Returns a URI with a fragment, which is empty if there was none.
fn with_fragment(alloc: Global, uri: &str) -> Result<String, OutOfMemory>
    ensures uri { Shows string_bytes result (with_fragment uri.now) }
{
    let mut whole = String::from_str(alloc, uri)?;
    if !uri.as_bytes().contains(&b'#') {
        whole.push_str("#")?;
    }
    Ok(whole)
}

/// Returns the URI of the keyword of this name in the schema object with this one.
fn keyword_uri(
    alloc: Global,
    uri: &Option<String>,
    name: &str,
) -> Result<Option<String>, OutOfMemory>
    ensures uri { Shows (option_map string_bytes) result (option_map (keyword_uri name.now) (option_map string_bytes uri.now)) }
{
    let Some(uri) = uri else {
        return Ok(None);
    };
    let mut whole = with_fragment(alloc, uri.as_str())?;
    let segment = Location::new(alloc).join(LocationSegment::Property(name))?;
    whole.push_str(encoded(alloc, segment.as_str())?.as_str())?;
    Ok(Some(whole))
}

/// Returns the unit of the keyword of this name, with its annotation.
fn member_object(
    alloc: Global,
    report: &UnitReport,
    name: &str,
    annotation: &Value,
) -> Result<Value, OutOfMemory>
    ensures object { Shows view result
        (annotation_object (keyword_report (report_in true report.now) name.now) (view annotation.now)) }
{
    let outer = Location::from_escaped(alloc, report.evaluation_path.as_str())?;
    let path = outer.join(LocationSegment::Property(name))?;
    let uri = keyword_uri(alloc, &report.absolute_keyword_location, name)?;
    let place = report.instance_location.as_str();
    let mut object = located(alloc, report.valid, path.as_str(), &uri, place)?;
    put_value(alloc, &mut object, "annotation", annotation.clone()?)?;
    Ok(Value::Object(object))
}

/// Appends the annotations of a schema object, each of the keyword that has its name.
fn push_members(
    alloc: Global,
    report: &UnitReport,
    members: &Map<String, Value>,
    objects: &mut Vec<Value>,
) -> Result<(), OutOfMemory>
    ensures pushed { Appends result objects.old.items objects.new.items
        (member_objects (report_in true report.now) (members_view members.now.entries)) }
{
    for (name, annotation) in members.iter() {
        objects.push(member_object(alloc, report, name.as_str(), annotation)?)?;
    }
    Ok(())
}

/// Appends a schema object's unit with these annotations.
fn push_annotations(
    alloc: Global,
    report: &UnitReport,
    annotations: &Value,
    objects: &mut Vec<Value>,
) -> Result<(), OutOfMemory>
    ensures pushed { Appends result objects.old.items objects.new.items
        (annotation_objects (report_in true report.now) (view annotations.now)) }
{
    match annotations {
        Value::Object(members) => {
            objects.push(plain_object(alloc, report)?)?;
            push_members(alloc, report, members, objects)
        }
        annotation => {
            objects.push(annotation_object(alloc, report, annotation)?)?;
            Ok(())
        }
    }
}

/// Appends a valid unit.
fn push_accepted(
    alloc: Global,
    is_keyword: bool,
    report: &UnitReport,
    objects: &mut Vec<Value>,
) -> Result<(), OutOfMemory>
    ensures pushed { Appends result objects.old.items objects.new.items
        (accepted_objects is_keyword (report_in true report.now) (option_map view report.now.annotations)) }
{
    match &report.annotations {
        None => objects.push(plain_object(alloc, report)?)?,
        Some(annotation) if is_keyword => {
            objects.push(annotation_object(alloc, report, annotation)?)?
        }
        Some(annotations) => push_annotations(alloc, report, annotations, objects)?,
    }
    Ok(())
}

fn push_unit(
    alloc: Global,
    is_keyword: bool,
    report: &UnitReport,
    objects: &mut Vec<Value>,
) -> Result<(), OutOfMemory>
    ensures pushed { Appends result objects.old.items objects.new.items (unit_objects is_keyword (report_in true report.now)) }
{
    if report.valid {
        push_accepted(alloc, is_keyword, report, objects)
    } else {
        push_refused(alloc, report, objects)
    }
}

/// Appends a unit and the units inside it, if they have this verdict.
fn push_objects(
    alloc: Global,
    valid: bool,
    outer: Option<&UnitReport>,
    node: &EvaluationNode,
    objects: &mut Vec<Value>,
) -> Result<(), OutOfMemory>
    ensures pushed { Appends result objects.old.items objects.new.items
        (objects_in valid (outer_of outer.entry) (unit_of true node.now)) }
{
    if node.report.valid != valid {
        return Ok(());
    }
    push_unit(
        alloc,
        is_keyword_in(outer, &node.report),
        &node.report,
        objects,
    )?;
    let inner = outer_for(outer, &node.report);
    for child in &node.children {
        push_objects(alloc, valid, inner, child, objects)?;
    }
    Ok(())
}

fn listed(valid: bool) -> &'static str
    ensures name { result.now ≡ listed valid }
{
    if valid { "annotations" } else { "errors" }
}

/// Returns the output in the format `basic`.
///
/// It is an object with the verdict and the locations of the outermost unit, and with `annotations`
/// if it is valid, else with `errors`: the units that have its verdict, a unit before the units
/// inside it. The units inside one of the other verdict are left out. A unit has `valid`,
/// `keywordLocation`, `absoluteKeywordLocation` if its schema has a URI, and `instanceLocation`.
///
/// An invalid unit stands once for each of its errors, with the text as `error`. The annotations of
/// a schema object are those of its keywords by their names: after its unit comes one for each of
/// them, with the value as `annotation`.
///
/// # Errors
///
/// Out of memory.
pub fn basic(alloc: Global, root: &EvaluationNode) -> Result<Value, OutOfMemory>
    ensures basic { Shows view result (basic_output (unit_of true root.now)) }
{
    let valid = root.report.valid;
    let mut objects = Vec::new(alloc);
    push_objects(alloc, valid, None, root, &mut objects)?;
    let mut object = place_members(alloc, &root.report)?;
    put_value(alloc, &mut object, listed(valid), Value::Array(objects))?;
    Ok(Value::Object(object))
}

/// Returns the text of `basic` as JSON without spaces.
///
/// # Errors
///
/// Out of memory.
pub fn basic_text(alloc: Global, root: &EvaluationNode) -> Result<String, OutOfMemory>
    ensures text { IfOk result (λ text. IsJsonText (basic_output (unit_of true root.now)) (string_bytes text)) }
{
    basic(alloc, root)?.to_string(alloc)
}
