//! The output for programs: a JSON object on a line for each instance or line.
ghost use Rattle.std.specs.Prelude.{◌≡◌, string_bytes};
ghost use Rattle.json.specs.Print.{quoted};
ghost use Rattle.command_line.specs.Envelopes.{answered_for, front_for, line_text, members_for, unanswered_for};
ghost use Rattle.command_line.specs.Verdicts.{flag_text};
ghost use Rattle.schema_reports.specs.Showing.{Shows, Adds};

use crate::options::Output;
use schema_reports::OutOfMemory;
use serde_json::Value;
use std::alloc::Global;

/// An instance and the schema that it is validated against.
///
/// The instance is a file, or a line of a file.
#[derive(Clone, Copy)]
pub struct Subject<'s> {
    pub schema: &'s str,
    pub instance: &'s str,
    /// Counted from 1.
    pub line: Option<u64>,
}

fn quoted_text(alloc: Global, part: &str) -> Result<String, OutOfMemory>
    ensures text { Shows string_bytes result (quoted part.now) }
{
    let value = Value::String(String::from_str(alloc, part)?);
    value.to_string(alloc)
}

fn push_quoted(text: &mut String, alloc: Global, part: &str) -> Result<(), OutOfMemory>
    ensures quoted { Adds result text.old text.new (quoted part.now) }
{
    let shown = quoted_text(alloc, part)?;
    text.push_str(shown.as_str())
}

/// Adds the member for a line, if there is one.
fn push_line(text: &mut String, line: Option<u64>) -> Result<(), OutOfMemory>
    ensures line { Adds result text.old text.new (line_text line) }
{
    match line {
        Some(number) => write!(text, ",\"line\":{number}"),
        None => Ok(()),
    }
}

/// Adds the members for the schema, the instance and its line.
fn push_subject(text: &mut String, alloc: Global, subject: Subject<'_>) -> Result<(), OutOfMemory>
    ensures subject { Adds result text.old text.new (members_for subject.entry) }
{
    text.push_str(",\"schema\":")?;
    push_quoted(text, alloc, subject.schema)?;
    text.push_str(",\"instance\":")?;
    push_quoted(text, alloc, subject.instance)?;
    push_line(text, subject.line)
}

/// Returns the front of an object.
///
/// It has the names of the output, the schema and the instance, and the line number.
fn envelope_front(
    alloc: Global,
    output: Output,
    subject: Subject<'_>,
) -> Result<String, OutOfMemory>
    ensures front { Shows string_bytes result (front_for output subject.entry) }
{
    let mut text = String::from_str(alloc, "{\"output\":")?;
    push_quoted(&mut text, alloc, output.name())?;
    push_subject(&mut text, alloc, subject)?;
    Ok(text)
}

/// Returns the object printed for an instance, with the engine's output.
///
/// That output is JSON.
///
/// # Errors
///
/// Out of memory.
pub fn answered(
    alloc: Global,
    output: Output,
    subject: Subject<'_>,
    payload: &str,
) -> Result<String, OutOfMemory>
    ensures text { Shows string_bytes result (answered_for output subject.entry payload.now) }
{
    let mut text = envelope_front(alloc, output, subject)?;
    text.push_str(",\"payload\":")?;
    text.push_str(payload)?;
    text.push_str("}\n")?;
    Ok(text)
}

/// Returns the engine's output in the flag format.
pub fn flag(valid: bool) -> &'static str
    ensures flag { result.now ≡ flag_text valid }
{
    if valid {
        "{\"valid\":true}"
    } else {
        "{\"valid\":false}"
    }
}

/// Returns the object printed for an instance without an answer, with the reason.
///
/// # Errors
///
/// Out of memory.
pub fn unanswered(
    alloc: Global,
    output: Output,
    subject: Subject<'_>,
    why: &str,
) -> Result<String, OutOfMemory>
    ensures text { Shows string_bytes result (unanswered_for output subject.entry why.now) }
{
    let mut text = envelope_front(alloc, output, subject)?;
    text.push_str(",\"error\":")?;
    push_quoted(&mut text, alloc, why)?;
    text.push_str("}\n")?;
    Ok(text)
}
