//! The errors of an evaluation, one by one, each with its unit.
ghost use Rattle.std.specs.Prelude.{◌≡◌, IfSome, Some, length};
ghost use Rattle.std.specs.Iterator.{UpTo, YieldsFirst, at_most, item_count};
ghost use Rattle.std.specs.Iterator.SizeHint.{IsWithinCount};
ghost use Rattle.schema_reports.specs.UnitViews.{report_in, unit_of};
ghost use Rattle.schema_output.specs.EntryViews.{AddsShown};
ghost use Rattle.schema_output.specs.Output.{shown_by, shown_in};

use schema_reports::{ErrorDescription, EvaluationNode, OutOfMemory, UnitReport};
use std::marker::Model;
use std::vec::IntoIter;

/// An error of an evaluation, with the report of its unit.
#[derive(Clone, Copy)]
pub struct ErrorEntry<'e> {
    pub unit: &'e UnitReport,
    pub error: &'e ErrorDescription,
}

/// An iterator over the errors of an evaluation, in their order.
///
/// Contracts see the remaining errors.
#[derive(Drop)]
pub struct EvaluationErrors<'e> {
    entries: IntoIter<ErrorEntry<'e>>,
}

impl<'e> Model for EvaluationErrors<'e> {
    ghost use Rattle.std.specs.Prelude.{◌≡◌, List, length};
    ghost use Rattle.std.specs.Coded.{codes};
    ghost use Rattle.std.specs.Vec.Iter.{into_iter_items, into_iter_len};
    ghost use Rattle.schema_output.specs.declared.errors.ErrorEntry.{ErrorEntry};
    ghost use Rattle.serde_json.specs.contracts.value.Value as value;

    ghost Value = { List ErrorEntry };

    ghost coded = { Prim.hlevel (codes, value.the_row.coded) };

    ghost view = { λ e. into_iter_items e.entries };

    ghost invariant = { λ e. into_iter_len e.entries ≡ length (into_iter_items e.entries) };
}

impl<'e> EvaluationErrors<'e> {
    /// Returns an iterator over these errors, in their order.
    pub(crate) fn new(entries: Vec<ErrorEntry<'e>>) -> EvaluationErrors<'e>
        ensures entries { result ≡ entries.entry.items }
    {
        EvaluationErrors {
            entries: entries.into_iter(),
        }
    }
}

impl<'e> Iterator for EvaluationErrors<'e> {
    type Item = ErrorEntry<'e>;

    ghost next_gives = { YieldsFirst (λ s. s) };

    ghost remaining = { item_count (λ s. s) };

    fn next(&mut self) -> Option<ErrorEntry<'e>> {
        self.entries.next()
    }

    /// Returns the number of remaining errors, as both bounds.
    fn size_hint(&self) -> (usize, Option<usize>)
        ensures lower { IsWithinCount result.0 (at_most (length self.now)) }
        ensures upper { IfSome result.1 (UpTo (at_most (length self.now))) }
        ensures exact { result ≡ (length self.now, Some (length self.now)) }
    {
        let left = self.entries.len();
        (left, Some(left))
    }
}

// Appends the errors of one unit.
fn push_own_errors<'e>(
    report: &'e UnitReport,
    entries: &mut Vec<ErrorEntry<'e>>,
) -> Result<(), OutOfMemory>
    ensures pushed { AddsShown result entries.old.items entries.new.items (λ texts. shown_by (report_in texts report.now)) }
{
    for error in &report.errors {
        entries.push(ErrorEntry {
            unit: report,
            error,
        })?;
    }
    Ok(())
}

/// Appends the errors of a unit and of the units inside it.
pub(crate) fn push_errors<'e>(
    node: &'e EvaluationNode,
    entries: &mut Vec<ErrorEntry<'e>>,
) -> Result<(), OutOfMemory>
    ensures pushed { AddsShown result entries.old.items entries.new.items (λ texts. shown_in (unit_of texts node.now)) }
{
    push_own_errors(&node.report, entries)?;
    for child in &node.children {
        push_errors(child, entries)?;
    }
    Ok(())
}
