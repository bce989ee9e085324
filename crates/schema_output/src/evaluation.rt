//! An evaluation of an instance: its units, and their output. (Core 2020-12, 12.4)
ghost use Rattle.std.specs.Prelude.{◌≡◌, ◌≤◌, Bool, IfOk, Some, false, map, string_bytes};
ghost use Rattle.schema_reports.specs.Showing.{Shows};
ghost use Rattle.json.specs.Lex.{tokens};
ghost use Rattle.json.specs.Print.{print};
ghost use Rattle.serde_json.specs.Data.{depth};
ghost use Rattle.serde_json.specs.Read.{max_depth, read};
ghost use Rattle.serde_json.specs.View.{view};
ghost use Rattle.serde_json.specs.Written.{IsInOrder, compact_text, has_float};
ghost use Rattle.theory_definitions.specs.Reports.{report_of};
ghost use Rattle.schema_reports.specs.UnitViews.{unit_of};
ghost use Rattle.schema_output.specs.EntryViews.{list_by, shown_of};
ghost use Rattle.schema_output.specs.Output.{shown_in};

use crate::errors::{EvaluationErrors, push_errors};
use crate::list::output_list;
use crate::text::output_text;
use schema_reports::{EvaluationNode, OutOfMemory};
use serde_json::Value;
use std::alloc::Global;
use std::marker::Model;

/// The result of evaluating an instance: a unit, with units inside it.
///
/// Contracts see the outermost unit.
#[derive(Drop)]
pub struct Evaluation {
    root: EvaluationNode,
}

impl Model for Evaluation {
    ghost use Rattle.schema_reports.specs.declared.evaluation.EvaluationNode.{EvaluationNode};
    ghost use Rattle.schema_reports.specs.contracts.evaluation.EvaluationNode as node;

    ghost Value = { EvaluationNode };

    ghost coded = { node.the_row.coded };

    ghost view = { λ e. e.root };
}

impl Evaluation {
    /// Returns the evaluation with this outermost unit.
    pub fn new(root: EvaluationNode) -> Evaluation
        ensures root { result ≡ root }
    {
        Evaluation { root }
    }

    /// Returns the outermost unit.
    pub fn root(&self) -> &EvaluationNode
        ensures root { result.now ≡ self.now }
    {
        &self.root
    }

    /// Returns the verdict of the outermost unit: whether the instance is valid.
    pub fn is_valid(&self) -> bool
        ensures verdict { (texts : Bool) → result ≡ (report_of (unit_of texts self.now)).valid }
    {
        self.root.report.valid
    }

    /// Returns the output in the list format.
    ///
    /// It is an object with the verdict, `valid`, and with `details`, an object for each unit, a
    /// unit before the units inside it. The object of a unit has `valid`, `evaluationPath`,
    /// `schemaLocation` (the absolute location if there is one), and `instanceLocation`. It has
    /// `errors` if there are any, with the text of the first error of each keyword. It has
    /// `annotations` if there are any; in an invalid unit they are `droppedAnnotations`.
    ///
    /// # Errors
    ///
    /// Out of memory.
    pub fn list(&self, alloc: Global) -> Result<Value, OutOfMemory>
        ensures list { Shows view result (list_by self.now) }
    {
        output_list(alloc, &self.root)
    }

    /// Returns the text of `list` as JSON without spaces.
    ///
    /// It does not build the value of the whole list, so it is cheaper than writing that value.
    ///
    /// # Errors
    ///
    /// Out of memory.
    pub fn list_text(&self, alloc: Global) -> Result<String, OutOfMemory>
        ensures text { IfOk result (λ s. has_float (list_by self.now) ≡ false → string_bytes s ≡ compact_text (list_by self.now)) }
        ensures compact { IfOk result (λ s. string_bytes s ≡ print (tokens (string_bytes s))) }
        ensures order { IfOk result (λ s. IsInOrder (string_bytes s) (list_by self.now)) }
        ensures reads_back { IfOk result (λ s. depth (list_by self.now) ≤ max_depth → read (string_bytes s) ≡ Some (list_by self.now)) }
    {
        output_text(alloc, &self.root)
    }

    /// Returns an iterator over the errors of the units, each with its unit.
    ///
    /// The errors of a unit come in their order, before those of the units inside it.
    ///
    /// # Errors
    ///
    /// Out of memory.
    pub fn iter_errors(&self, alloc: Global) -> Result<EvaluationErrors<'_>, OutOfMemory>
        ensures errors { IfOk result (λ es. (texts : Bool) → map (shown_of texts) es ≡ shown_in (unit_of texts self.now)) }
    {
        let mut entries = Vec::new(alloc);
        push_errors(&self.root, &mut entries)?;
        Ok(EvaluationErrors::new(entries))
    }
}
