//! The output for people: the text printed for instances and lines.
ghost use Rattle.std.specs.Prelude.{◌≡◌};
ghost use Rattle.command_line.specs.Verdicts.{verdict_text};
ghost use Rattle.schema_reports.specs.Showing.{Adds};

use crate::envelopes::Subject;
use crate::styles::{Paint, Style};
use schema_reports::{ErrorIterator, OutOfMemory, ValidationError};
use std::alloc::Global;

/// Returns the word for a verdict, green or red if it is coloured.
fn verdict_word(paint: Paint, accepted: bool) -> &'static str
    ensures word { result.now ≡ verdict_text paint accepted }
{
    match (paint, accepted) {
        (Paint::Plain, true) => "VALID",
        (Paint::Plain, false) => "INVALID",
        (Paint::Coloured, true) => "\u{1b}[32mVALID\u{1b}[0m",
        (Paint::Coloured, false) => "\u{1b}[31mINVALID\u{1b}[0m",
    }
}

fn push_verdict(text: &mut String, paint: Paint, accepted: bool) -> Result<(), OutOfMemory>
    ensures verdict { Adds result text.old text.new (verdict_text paint accepted) }
{
    text.push_str(verdict_word(paint, accepted))
}

/// Adds a character, or its number if it controls a terminal or ends a line.
///
/// A number is added as `\u{a}`.
fn push_shown_char(text: &mut String, c: char) -> Result<(), OutOfMemory> {
    if c.is_control() {
        let number = u32::from(c);
        write!(text, "\\u{{{number:x}}}")
    } else {
        text.push(c)
    }
}

/// Adds a text with nothing in it that controls a terminal.
fn push_shown(text: &mut String, part: &str) -> Result<(), OutOfMemory> {
    for c in part.chars() {
        push_shown_char(text, c)?;
    }
    Ok(())
}

/// The number of characters of a long text that are shown at each of its ends.
const SHOWN: usize = 80;

/// Adds a text of an error, on one line.
///
/// Unless it is to be shown whole, a long text loses what stands between its ends.
fn push_told(text: &mut String, style: Style, told: &str) -> Result<(), OutOfMemory> {
    let count = told.chars().count();
    if style.whole || count <= 2 * SHOWN {
        return push_shown(text, told);
    }
    for c in told.chars().take(SHOWN) {
        push_shown_char(text, c)?;
    }
    text.push_str(" … ")?;
    for c in told.chars().skip(count - SHOWN) {
        push_shown_char(text, c)?;
    }
    Ok(())
}

/// Adds a pointer, or `(root)` if it is empty.
fn push_pointer(text: &mut String, pointer: &str) -> Result<(), OutOfMemory> {
    if pointer.is_empty() {
        text.push_str("(root)")
    } else {
        push_shown(text, pointer)
    }
}

/// Adds the place of an error: `instance: /age; schema: /properties/age/type`.
fn push_place(
    text: &mut String,
    alloc: Global,
    error: &ValidationError,
) -> Result<(), OutOfMemory> {
    text.push_str("instance: ")?;
    push_pointer(text, error.instance_path(alloc)?.as_str())?;
    text.push_str("; schema: ")?;
    push_pointer(text, error.schema_path.as_str())
}

/// Adds an error: its number and its text, and on a second line its place.
fn push_error(
    text: &mut String,
    alloc: Global,
    style: Style,
    number: u64,
    error: &ValidationError,
) -> Result<(), OutOfMemory> {
    write!(text, "{number}. ")?;
    push_told(text, style, error.text.as_str())?;
    text.push_str("\n   ")?;
    push_place(text, alloc, error)?;
    text.push_str("\n")
}

/// Returns the text for a file with these errors.
///
/// It is `FILE - VALID`, or `FILE - INVALID. Errors:` and each error.
///
/// # Errors
///
/// Out of memory.
pub fn file_report(
    alloc: Global,
    style: Style,
    subject: Subject<'_>,
    errors: ErrorIterator,
) -> Result<String, OutOfMemory> {
    let accepted = errors.size_hint().0 == 0;
    let mut text = subject_front(alloc, subject)?;
    push_verdict(&mut text, style.paint, accepted)?;
    text.push_str(if accepted { "\n" } else { ". Errors:\n" })?;
    let mut number = 0u64;
    for error in errors {
        number = number.saturating_add(1);
        push_error(&mut text, alloc, style, number, &error)?;
    }
    Ok(text)
}

/// Returns the front of the text for an instance: `FILE - `, or `FILE:12 - ` for a line.
fn subject_front(alloc: Global, subject: Subject<'_>) -> Result<String, OutOfMemory> {
    let mut text = String::new(alloc);
    push_shown(&mut text, subject.instance)?;
    if let Some(number) = subject.line {
        write!(text, ":{number}")?;
    }
    text.push_str(" - ")?;
    Ok(text)
}

/// Returns the text for a line that is refused.
///
/// It is `FILE:12 - INVALID. `, the error's text, and its place.
///
/// # Errors
///
/// Out of memory.
pub fn line_report(
    alloc: Global,
    style: Style,
    subject: Subject<'_>,
    error: &ValidationError,
) -> Result<String, OutOfMemory> {
    let mut text = subject_front(alloc, subject)?;
    push_verdict(&mut text, style.paint, false)?;
    text.push_str(". ")?;
    push_told(&mut text, style, error.text.as_str())?;
    text.push_str(" (")?;
    push_place(&mut text, alloc, error)?;
    text.push_str(")\n")?;
    Ok(text)
}

/// Adds the text of a fault without its place.
fn push_fault(text: &mut String, told: &str) -> Result<(), OutOfMemory> {
    match told.split_once(" at line ") {
        Some((what, _place)) => text.push_str(what),
        None => text.push_str(told),
    }
}

/// Returns the fault of a line that is not JSON: `invalid JSON at column 7`.
///
/// The column counts bytes from 1.
///
/// # Errors
///
/// Out of memory.
pub fn line_fault(alloc: Global, fault: &serde_json::Error) -> Result<String, OutOfMemory> {
    let told = format!(in alloc; "{fault}")?;
    let column = fault.column();
    let mut text = String::new(alloc);
    push_fault(&mut text, told.as_str())?;
    write!(text, " at column {column}")?;
    Ok(text)
}

/// Returns the text for an instance without an answer: a word for it, and the reason.
fn missing_report(
    alloc: Global,
    subject: Subject<'_>,
    word: &str,
    why: &str,
) -> Result<String, OutOfMemory> {
    let mut text = subject_front(alloc, subject)?;
    text.push_str(word)?;
    text.push_str(". ")?;
    push_shown(&mut text, why)?;
    text.push_str("\n")?;
    Ok(text)
}

/// Returns the text for an instance that no answer was found for.
///
/// It is `FILE - NO ANSWER. ` or `FILE:12 - NO ANSWER. `, and the reason.
///
/// # Errors
///
/// Out of memory.
pub fn unanswered_report(
    alloc: Global,
    subject: Subject<'_>,
    why: &str,
) -> Result<String, OutOfMemory> {
    missing_report(alloc, subject, "NO ANSWER", why)
}

/// Returns the text for a line that is not JSON.
///
/// It is `FILE:12 - NOT JSON. `, and the fault.
///
/// # Errors
///
/// Out of memory.
pub fn unread_report(
    alloc: Global,
    subject: Subject<'_>,
    fault: &str,
) -> Result<String, OutOfMemory> {
    missing_report(alloc, subject, "NOT JSON", fault)
}

/// Returns the text printed if there is no answer.
///
/// It is `FILE` and the reason, and on a second line what to do next.
///
/// # Errors
///
/// Out of memory.
pub fn fault_report(
    alloc: Global,
    file: &str,
    why: &str,
    hint: &str,
) -> Result<String, OutOfMemory> {
    let mut text = String::new(alloc);
    push_shown(&mut text, file)?;
    text.push_str(" ")?;
    push_shown(&mut text, why)?;
    text.push_str("\nhint: ")?;
    text.push_str(hint)?;
    text.push_str("\n")?;
    Ok(text)
}
