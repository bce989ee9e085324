//! Answers for instances, one by one.
ghost use Rattle.std.specs.Prelude.{IfOk, Option, ℕ};
ghost use Rattle.serde_json.specs.declared.value.Value.{Value};
ghost use Rattle.command_line.specs.Tallies.{Counts, IsRight, NoBetter};
ghost use Rattle.command_line.specs.declared.options.Output.{Output};
ghost use Rattle.command_line.specs.declared.outcomes.Outcome.{Outcome};

use crate::desk::{Desk, Stop};
use crate::envelopes::Subject;
use crate::files::answer_files;
use crate::line_files::answer_lines;
use crate::options::Options;
use crate::outcomes::Outcome;
use crate::styles::Style;
use schema_reports::OutOfMemory;
use serde_json::Value;
use std::alloc::Global;

/// The outcome for an instance, and the text that is printed about it.
pub type Answer = Result<(Outcome, String), OutOfMemory>;

/// Validates instances against one schema, and returns the texts to print.
pub trait Answerer {
    /// Which outcome is right for an instance, by the output that is asked for and, where the
    /// instance is a line, the line's number.
    ghost right: { Self → Output → Option ℕ → Value → Outcome → Type 0 };

    /// Answers for an instance; nothing is printed if the text is empty.
    ///
    /// For an instance that is a file, the text lists every error; for one that is a line, the
    /// first error. An instance stays without an answer only at a limit; the text says which.
    ///
    /// # Errors
    ///
    /// Out of memory.
    fn answer(&self, alloc: Global, style: Style, subject: Subject<'_>, instance: &Value) -> Answer
        ensures right { IfOk result (λ a. Self.right self.now style.output subject.entry.line instance.now a.0) };
}

#[tactic(auto, using(crate::proofs::Counting::counts_on, crate::proofs::Counting::counts_no_better))]
/// Answers for each file that the options name.
///
/// Then answers for the lines, if the options name a file of lines. The desk's tally counts each
/// instance.
pub fn answer_by<A: Answerer>(
    rt: &HostRuntime,
    desk: &mut Desk,
    options: &Options<'_>,
    answerer: &A,
) -> Result<(), Stop>
    ensures counts { Counts (IsRight (A.Answerer.right answerer.now)) desk.old.tally desk.new.tally }
    ensures no_better { NoBetter desk.old.tally desk.new.tally }
{
    answer_files(rt, desk, options, answerer)?;
    match options.lines {
        Some(file) => answer_lines(rt, desk, options, answerer, file),
        None => Ok(()),
    }
}
