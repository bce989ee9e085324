//! Whether the answer to a row is the one that the row wants.
ghost use Rattle.std.specs.Prelude.{◌≡◌, IfOk, None, count_by, false, is_none, not, string_bytes, OnOk};
ghost use Rattle.serde_json.specs.Read.{read as read_text};
ghost use Rattle.serde_json.specs.View.{view};
ghost use Rattle.test_rows.specs.Rows.{is_right, is_right_answer};
ghost use Rattle.test_rows.specs.Tallies.{Counts, summary_text};

use crate::asking::{Answering, Line, RowAnswer, line_in};
use crate::case::Case;
use crate::comparing::is_wanted;
use serde_json::Value;
use std::alloc::{AllocError, Global};
use std::collections::BTreeSet;

/// A wrong row: its name, if one could be read, and its result.
///
/// The result is the answer instead of the wanted one, as JSON, or the fault of the row itself.
#[derive(Drop)]
pub struct Wrong {
    pub name: Option<String>,
    pub given: String,
}

/// The results of the rows so far.
#[derive(Drop)]
pub struct Tally {
    /// For each row, whether it is right.
    pub verdicts: Vec<bool>,
    /// The names of rows.
    pub names: BTreeSet<String>,
}

fn is_right(row: &Value, given: &Value) -> bool
    ensures right { result ≡ is_right (view row.now) (view given.now) }
{
    let Some(case) = Case::read(row) else {
        return false;
    };
    match row.get("want") {
        Some(want) => is_wanted(case.call, given, want),
        None => false,
    }
}

fn is_right_answer(answer: &RowAnswer) -> bool
    ensures right { result ≡ is_right_answer answer.now }
{
    match answer {
        RowAnswer::Fault(_) => false,
        RowAnswer::Given(row, given) => is_right(row, given),
    }
}

// Returns the fault of a row itself, or the answer to it, as JSON.
fn given_in(alloc: Global, answer: &RowAnswer) -> Result<String, AllocError> {
    match answer {
        RowAnswer::Fault(fault) => fault.clone(),
        RowAnswer::Given(_, given) => given.to_string(alloc),
    }
}

// Returns the name of a line's row, and its result.
fn wrong_in(alloc: Global, line: &Line) -> Result<Wrong, AllocError> {
    let name = line.name.clone()?;
    let given = given_in(alloc, &line.answer)?;
    Ok(Wrong { name, given })
}

impl Tally {
    // Counts the result of a line. Returns the fault, if there is one.
    fn count(&mut self, alloc: Global, line: &Line) -> Result<Option<Wrong>, AllocError>
        ensures counted { OnOk result (Counts (is_right_answer line.now.answer) self.old self.new) }
        ensures wrong { IfOk result (λ wrong. is_none wrong ≡ is_right_answer line.now.answer) }
    {
        let right = is_right_answer(&line.answer);
        self.verdicts.push(right)?;
        if right {
            return Ok(None);
        }
        Ok(Some(wrong_in(alloc, line)?))
    }

    /// Judges and counts the row on a line.
    ///
    /// Returns what is wrong with it, or `None` if its answer is the wanted one.
    ///
    /// # Errors
    ///
    /// Out of memory.
    pub fn judge<A: Answering>(
        &mut self,
        alloc: Global,
        cases: &A,
        text: &str,
    ) -> Result<Option<Wrong>, AllocError>
        ensures counted { IfOk result (λ wrong. Counts (is_none wrong) self.old self.new) }
        ensures unread { IfOk result (λ wrong. read_text text.now ≡ None → is_none wrong ≡ false) }
    {
        let line = line_in(alloc, cases, &mut self.names, text)?;
        self.count(alloc, &line)
    }
}

/// Returns how many rows are wrong.
pub fn count_wrong(verdicts: &[bool]) -> usize
    ensures count { result ≡ count_by not verdicts.now }
{
    verdicts.iter().filter(|right| !**right).count()
}

/// Returns the last line: the number of rows, and how many of them are wrong.
///
/// # Errors
///
/// Out of memory.
pub fn summary(alloc: Global, verdicts: &[bool]) -> Result<String, AllocError>
    ensures text { IfOk result (λ text. string_bytes text ≡ summary_text verdicts.now) }
{
    let rows = verdicts.len();
    let wrong = count_wrong(verdicts);
    format!(in alloc; "{rows} rows, {wrong} wrong")
}
