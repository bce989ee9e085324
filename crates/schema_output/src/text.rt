//! The text of the list format, written unit by unit. (Core 2020-12, 12.4.2)
ghost use Rattle.std.specs.Prelude.{◌≡◌, ◌++◌, ◌∷◌, ◌≤◌, IfOk, None, length, string_bytes, true, OnOk};
ghost use Rattle.schema_reports.specs.Showing.{Adds};
ghost use Rattle.json.specs.Print.{escape, quoted};
ghost use Rattle.serde_json.specs.Written.{compact_text};
ghost use Rattle.theory_definitions.specs.Instance.{Text};
ghost use Rattle.schema_reports.specs.UnitViews.{described_of, report_in, unit_of};
ghost use Rattle.schema_output.specs.EntryViews.{list_by, object_by};
ghost use Rattle.schema_output.specs.Output.{schema_location};
ghost use Rattle.schema_output.specs.Texts.{Follow, IsJsonText, Prints};
ghost use Rattle.schema_output.specs.Texts.{closing, error_text, objects_below, places_text, plain_places_text, valid_text};

use crate::list::{schema_location, unit_object};
use schema_reports::{ErrorDescription, EvaluationNode, OutOfMemory, UnitReport, is_plain};
use serde_json::Value;
use std::alloc::Global;

// Appends a text in quotes.
fn push_quoted(alloc: Global, out: &mut String, text: &str) -> Result<(), OutOfMemory>
    ensures quoted { Adds result out.old out.new (quoted text.now) }
{
    if is_plain(text.as_bytes()) {
        out.push_str("\"")?;
        out.push_str(text)?;
        return out.push_str("\"");
    }
    let value = Value::String(String::from_str(alloc, text)?);
    out.push_str(value.to_string(alloc)?.as_str())
}

// Returns the last member that every unit has, with the end of its object.
fn valid_text(valid: bool) -> &'static str
    ensures text { result.now ≡ valid_text valid }
{
    if valid {
        ",\"valid\":true}"
    } else {
        ",\"valid\":false}"
    }
}

// Returns the same with the quote before it.
fn ending_text(valid: bool) -> &'static str
    ensures text { result.now ≡ 34 ∷ valid_text valid }
{
    if valid {
        "\",\"valid\":true}"
    } else {
        "\",\"valid\":false}"
    }
}

// Appends the members that every unit has, whose texts need no escapes, and closes the object.
fn push_plain_places(
    out: &mut String,
    path: &str,
    place: &str,
    schema: &str,
    valid: bool,
) -> Result<(), OutOfMemory>
    ensures places { Adds result out.old out.new (plain_places_text path.now place.now schema.now valid) }
{
    out.push_str("\"evaluationPath\":\"")?;
    out.push_str(path)?;
    out.push_str("\",\"instanceLocation\":\"")?;
    out.push_str(place)?;
    out.push_str("\",\"schemaLocation\":\"")?;
    out.push_str(schema)?;
    out.push_str(ending_text(valid))
}

// Returns whether the schema location of a unit needs no escapes.
fn is_plain_schema(report: &UnitReport) -> bool
    ensures plain { result ≡ true → escape (schema_location (report_in true report.now)) ≡ schema_location (report_in true report.now) }
{
    match &report.absolute_keyword_location {
        Some(uri) => is_plain(uri.as_bytes()),
        None => report.schema_location.is_plain(),
    }
}

// Appends the members that every unit has, and closes the object.
fn push_places(alloc: Global, out: &mut String, report: &UnitReport) -> Result<(), OutOfMemory>
    ensures places { Adds result out.old out.new (places_text (report_in true report.now)) }
{
    let path = report.evaluation_path.as_str();
    let place = report.instance_location.as_str();
    let schema = schema_location(report);
    if report.evaluation_path.is_plain()
        && report.instance_location.is_plain()
        && is_plain_schema(report)
    {
        return push_plain_places(out, path, place, schema, report.valid);
    }
    out.push_str("\"evaluationPath\":")?;
    push_quoted(alloc, out, path)?;
    out.push_str(",\"instanceLocation\":")?;
    push_quoted(alloc, out, place)?;
    out.push_str(",\"schemaLocation\":")?;
    push_quoted(alloc, out, schema)?;
    out.push_str(valid_text(report.valid))
}

// Appends the member of a unit's one error.
fn push_error(alloc: Global, out: &mut String, error: &ErrorDescription) -> Result<(), OutOfMemory>
    ensures error { Adds result out.old out.new (error_text (described_of true error.now)) }
{
    out.push_str("\"errors\":{")?;
    push_quoted(alloc, out, error.keyword.as_str())?;
    out.push_str(":")?;
    push_quoted(alloc, out, error.text.as_str())?;
    out.push_str("},")
}

// Appends the object of a unit that has no annotations and at most one error.
fn push_short(alloc: Global, out: &mut String, report: &UnitReport) -> Result<(), OutOfMemory>
    requires short { (report.now.annotations ≡ None) × (length report.now.errors.items ≤ 1) }
    ensures pushed { Adds result out.old out.new (compact_text (object_by report.now)) }
{
    out.push_str("{")?;
    if let Some(error) = report.errors.first() {
        push_error(alloc, out, error)?;
    }
    push_places(alloc, out, report)
}

// Appends the object of a unit, by way of a value.
fn push_value(alloc: Global, out: &mut String, report: &UnitReport) -> Result<(), OutOfMemory>
    ensures pushed { OnOk result ((text : Text) × Prints (object_by report.now) text
        × (string_bytes out.new ≡ string_bytes out.old ++ text)) }
{
    let text = unit_object(alloc, report)?.to_string(alloc)?;
    out.push_str(text.as_str())
}

// Appends the object of a unit.
fn push_unit(alloc: Global, out: &mut String, report: &UnitReport) -> Result<(), OutOfMemory>
    ensures pushed { OnOk result ((text : Text) × Prints (object_by report.now) text
        × (string_bytes out.new ≡ string_bytes out.old ++ text)) }
{
    if report.annotations.is_none() && report.errors.len() <= 1 {
        push_short(alloc, out, report)
    } else {
        push_value(alloc, out, report)
    }
}

// Appends the objects of the units inside a unit, each after a comma.
fn push_below(alloc: Global, out: &mut String, node: &EvaluationNode) -> Result<(), OutOfMemory>
    ensures pushed { OnOk result (Follow (objects_below (unit_of true node.now)) (string_bytes out.old) (string_bytes out.new)) }
{
    for child in &node.children {
        out.push_str(",")?;
        push_unit(alloc, out, &child.report)?;
        push_below(alloc, out, child)?;
    }
    Ok(())
}

// Returns the text after the last unit.
fn closing(valid: bool) -> &'static str
    ensures text { result.now ≡ closing valid }
{
    if valid {
        "],\"valid\":true}"
    } else {
        "],\"valid\":false}"
    }
}

/// Returns the text of the output of an evaluation with this outermost unit.
pub(crate) fn output_text(alloc: Global, root: &EvaluationNode) -> Result<String, OutOfMemory>
    ensures text { IfOk result (λ text. IsJsonText (list_by root.now) (string_bytes text)) }
{
    let mut out = String::from_str(alloc, "{\"details\":[")?;
    push_unit(alloc, &mut out, &root.report)?;
    push_below(alloc, &mut out, root)?;
    out.push_str(closing(root.report.valid))?;
    Ok(out)
}
