//! The output format `hierarchical`: a unit for each schema object that was evaluated.
ghost use Rattle.std.specs.Prelude.{◌≡◌, ◌++◌, Bool, IfOk, OnOk, map, option_map, string_bytes, true};
ghost use Rattle.schema_reports.specs.Showing.{Shows};
ghost use Rattle.serde_json.specs.Find.{as_object};
ghost use Rattle.serde_json.specs.View.{members_view, view};
ghost use Rattle.theory_definitions.specs.Reports.{children_of, report_of};
ghost use Rattle.theory_definitions.specs.Units.{object_of};
ghost use Rattle.schema_reports.specs.UnitViews.{described_of, report_in, unit_of};
ghost use Rattle.schema_output.specs.Output.{errors_by_name, schema_location, with_annotations, with_errors};
ghost use Rattle.schema_output.specs.Texts.{IsJsonText};
ghost use Rattle.standard_outputs.specs.CodeViews.{Appends, Makes, errors_seen, outer_of};
ghost use Rattle.standard_outputs.specs.Hierarchical.{annotations_shown, errors_from, hierarchical_output, keyword_errors};
ghost use Rattle.standard_outputs.specs.Hierarchical.{node_members, node_object, nodes_for, with_annotation, with_details};
ghost use Rattle.standard_outputs.specs.Hierarchical.{with_keyword_annotations, without_last_hash};
ghost use Rattle.standard_outputs.specs.KeywordUnits.{keyword_of};

use crate::keyword_units::{is_keyword_in, keyword_of};
use crate::members::{put_text, put_value};
use schema_reports::{Annotations, ErrorDescription, EvaluationNode, OutOfMemory, UnitReport};
use serde_json::{Map, Value};
use std::alloc::Global;

/// Returns a URI without a `#` at its end.
fn without_last_hash(uri: &str) -> &str
    ensures uri { result.now ≡ without_last_hash uri.now }
{
    match uri.strip_suffix('#') {
        Some(rest) => rest,
        None => uri,
    }
}

/// Returns a unit's place in the schema: its URI, or else its pointer.
fn schema_location(report: &UnitReport) -> &str
    ensures location { result.now ≡ schema_location (report_in true report.now) }
{
    match &report.absolute_keyword_location {
        Some(uri) => uri.as_str(),
        None => report.schema_location.as_str(),
    }
}

/// Returns the verdict and the locations that each unit has.
fn node_members(alloc: Global, report: &UnitReport) -> Result<Map<String, Value>, OutOfMemory>
    ensures members { IfOk result (λ m. members_view m.entries ≡ node_members (report_in true report.now)) }
{
    let mut object = Map::new(alloc);
    put_value(alloc, &mut object, "valid", Value::Bool(report.valid))?;
    let path = report.evaluation_path.as_str();
    put_text(alloc, &mut object, "evaluationPath", path)?;
    let uri = without_last_hash(schema_location(report));
    put_text(alloc, &mut object, "schemaLocation", uri)?;
    let place = report.instance_location.as_str();
    put_text(alloc, &mut object, "instanceLocation", place)?;
    Ok(object)
}

/// Appends the errors of a unit.
fn push_errors<'e>(
    report: &'e UnitReport,
    errors: &mut Vec<&'e ErrorDescription>,
) -> Result<(), OutOfMemory>
    ensures pushed { OnOk result (errors_seen errors.new.items ≡ errors_seen errors.old.items ++ (report_in true report.now).errors) }
{
    for error in &report.errors {
        errors.push(error)?;
    }
    Ok(())
}

/// Appends the errors of a unit inside a schema object's if it is that of a keyword.
fn push_keyword_errors<'e>(
    outer: &UnitReport,
    report: &'e UnitReport,
    errors: &mut Vec<&'e ErrorDescription>,
) -> Result<(), OutOfMemory>
    ensures pushed { OnOk result (errors_seen errors.new.items
        ≡ errors_seen errors.old.items ++ errors_from (report_in true outer.now) (report_in true report.now)) }
{
    match keyword_of(outer, report) {
        Some(_) => push_errors(report, errors),
        None => Ok(()),
    }
}

/// Returns the errors of a schema object and of its keywords, in order.
fn errors_of(alloc: Global, node: &EvaluationNode) -> Result<Vec<&ErrorDescription>, OutOfMemory>
    ensures errors { IfOk result (λ es. errors_seen es.items ≡ (report_of (unit_of true node.now)).errors
        ++ keyword_errors (report_of (unit_of true node.now)) (children_of (unit_of true node.now))) }
{
    let mut errors = Vec::new(alloc);
    push_errors(&node.report, &mut errors)?;
    for child in &node.children {
        push_keyword_errors(&node.report, &child.report, &mut errors)?;
    }
    Ok(errors)
}

/// Returns the texts of errors by the names of their keywords: of one name, the first.
fn errors_by_name(
    alloc: Global,
    errors: &[&ErrorDescription],
) -> Result<Map<String, Value>, OutOfMemory>
    ensures errors { IfOk result (λ m. members_view m.entries ≡ errors_by_name (errors_seen errors.now)) }
{
    let mut object = Map::new(alloc);
    for error in errors.iter().rev() {
        let keyword = error.keyword.as_str();
        put_text(alloc, &mut object, keyword, error.text.as_str())?;
    }
    Ok(object)
}

/// Sets the errors, if there are any.
fn put_errors(
    alloc: Global,
    object: &mut Map<String, Value>,
    errors: &[&ErrorDescription],
) -> Result<(), OutOfMemory>
    ensures put { Makes result object.old.entries object.new.entries (with_errors (errors_seen errors.now)) }
{
    if errors.is_empty() {
        return Ok(());
    }
    let errors = errors_by_name(alloc, errors)?;
    put_value(alloc, object, "errors", Value::Object(errors))
}

/// Sets the annotation of a unit inside a schema object's if it is that of a keyword.
fn put_annotation(
    alloc: Global,
    outer: &UnitReport,
    report: &UnitReport,
    annotations: &mut Map<String, Value>,
) -> Result<(), OutOfMemory>
    ensures put { Makes result annotations.old.entries annotations.new.entries
        (with_annotation (keyword_of (report_in true outer.now) (report_in true report.now)) (option_map view report.now.annotations)) }
{
    match (keyword_of(outer, report), &report.annotations) {
        (Some(name), Some(annotation)) => put_value(alloc, annotations, name, annotation.clone()?),
        _ => Ok(()),
    }
}

/// Returns these members with the annotations of the keywords of a schema object.
fn with_keyword_annotations(
    alloc: Global,
    node: &EvaluationNode,
    own: Map<String, Value>,
) -> Result<Map<String, Value>, OutOfMemory>
    ensures members { IfOk result (λ m. members_view m.entries ≡ with_keyword_annotations (report_of (unit_of true node.now))
        (children_of (unit_of true node.now)) (members_view own.entries)) }
{
    let mut annotations = own;
    for child in &node.children {
        put_annotation(alloc, &node.report, &child.report, &mut annotations)?;
    }
    Ok(annotations)
}

/// Returns the members as an object, if there are any.
fn object_of(members: Map<String, Value>) -> Option<Value>
    ensures object { option_map view result ≡ object_of (members_view members.entries) }
{
    if members.is_empty() {
        None
    } else {
        Some(Value::Object(members))
    }
}

fn merged_annotations(
    alloc: Global,
    node: &EvaluationNode,
    own: Map<String, Value>,
) -> Result<Option<Value>, OutOfMemory>
    ensures annotations { Shows (option_map view) result (object_of (with_keyword_annotations (report_of (unit_of true node.now))
        (children_of (unit_of true node.now)) (members_view own.entries))) }
{
    Ok(object_of(with_keyword_annotations(alloc, node, own)?))
}

/// Returns a value's members, if it is an object.
fn members_in(value: Value) -> Option<Map<String, Value>>
    ensures members { option_map (λ m. members_view m.entries) result ≡ as_object (view value) }
{
    match value {
        Value::Object(members) => Some(members),
        _ => None,
    }
}

/// Returns the annotations of a schema object that has these, and of its keywords.
///
/// What is no object is returned as it is.
fn annotations_shown(
    alloc: Global,
    node: &EvaluationNode,
    own: &Option<Annotations>,
) -> Result<Option<Value>, OutOfMemory>
    ensures annotations { Shows (option_map view) result (annotations_shown (report_of (unit_of true node.now))
        (children_of (unit_of true node.now)) (option_map view own.now)) }
{
    let Some(value) = own else {
        return merged_annotations(alloc, node, Map::new(alloc));
    };
    match members_in(value.clone()?) {
        Some(members) => merged_annotations(alloc, node, members),
        None => Ok(Some(value.clone()?)),
    }
}

/// Sets the annotations, if there are any. Those of an invalid unit are dropped.
fn put_annotations(
    alloc: Global,
    object: &mut Map<String, Value>,
    valid: bool,
    annotations: Option<Value>,
) -> Result<(), OutOfMemory>
    ensures put { Makes result object.old.entries object.new.entries (with_annotations valid (option_map view annotations)) }
{
    match annotations {
        None => Ok(()),
        Some(value) => {
            let name = if valid {
                "annotations"
            } else {
                "droppedAnnotations"
            };
            put_value(alloc, object, name, value)
        }
    }
}

/// Sets the units inside, if there are any.
fn put_details(
    alloc: Global,
    object: &mut Map<String, Value>,
    inside: Vec<Value>,
) -> Result<(), OutOfMemory>
    ensures put { Makes result object.old.entries object.new.entries (with_details (map view inside.items)) }
{
    if inside.is_empty() {
        return Ok(());
    }
    put_value(alloc, object, "details", Value::Array(inside))
}

/// Returns the unit of a schema object, with these inside it.
fn node_object(
    alloc: Global,
    node: &EvaluationNode,
    inside: Vec<Value>,
) -> Result<Value, OutOfMemory>
    ensures object { Shows view result
        (node_object (report_of (unit_of true node.now)) (children_of (unit_of true node.now)) (map view inside.items)) }
{
    let mut object = node_members(alloc, &node.report)?;
    let annotations = annotations_shown(alloc, node, &node.report.annotations)?;
    put_annotations(alloc, &mut object, node.report.valid, annotations)?;
    let errors = errors_of(alloc, node)?;
    put_errors(alloc, &mut object, errors.as_slice())?;
    put_details(alloc, &mut object, inside)?;
    Ok(Value::Object(object))
}

/// Appends what stands for a unit: for that of a keyword, the units inside it.
fn push_nodes(
    alloc: Global,
    outer: Option<&UnitReport>,
    node: &EvaluationNode,
    nodes: &mut Vec<Value>,
) -> Result<(), OutOfMemory>
    ensures pushed { Appends result nodes.old.items nodes.new.items (nodes_for (outer_of outer.entry) (unit_of true node.now)) }
{
    if is_keyword_in(outer, &node.report) {
        for child in &node.children {
            push_nodes(alloc, None, child, nodes)?;
        }
        return Ok(());
    }
    let mut inside = Vec::new(alloc);
    for child in &node.children {
        push_nodes(alloc, Some(&node.report), child, &mut inside)?;
    }
    nodes.push(node_object(alloc, node, inside)?)?;
    Ok(())
}

/// Returns the output in the format `hierarchical`.
///
/// It is a unit for each schema object that was evaluated, inside that of the schema object which
/// led to it, as an object with `valid`, `evaluationPath`, `schemaLocation` (its URI if it has one,
/// else its pointer) and `instanceLocation`. A unit has `errors` and `annotations` by the names of
/// the keywords if there are any; those of an invalid one are `droppedAnnotations`. The units inside
/// it are `details`. Of several errors of a keyword the first is shown.
///
/// A keyword whose name has a `/` or a `~` has a unit of its own.
///
/// # Errors
///
/// Out of memory.
pub fn hierarchical(alloc: Global, root: &EvaluationNode) -> Result<Value, OutOfMemory>
    ensures hierarchical { Shows view result (hierarchical_output (unit_of true root.now)) }
{
    let mut inside = Vec::new(alloc);
    for child in &root.children {
        push_nodes(alloc, Some(&root.report), child, &mut inside)?;
    }
    node_object(alloc, root, inside)
}

/// Returns the text of `hierarchical` as JSON without spaces.
///
/// # Errors
///
/// Out of memory.
pub fn hierarchical_text(alloc: Global, root: &EvaluationNode) -> Result<String, OutOfMemory>
    ensures text { IfOk result (λ text. IsJsonText (hierarchical_output (unit_of true root.now)) (string_bytes text)) }
{
    hierarchical(alloc, root)?.to_string(alloc)
}
