//! `dependencies`: a member may require other members, or a schema.
//!
//! The keyword reports its own errors before those of its schemas. So if a first error is requested
//! and a member is missing, no child is evaluated.
ghost use Rattle.std.specs.Prelude.{◌≡◌, IfOk};
ghost use Rattle.standard_applicators.specs.Courses.{wants_one};
ghost use Rattle.standard_applicators.specs.RunWays.{StepsCourse, TurnsCourse, dependencies_course};
ghost use Rattle.standard_applicators.specs.UnmetWords.{AskUnless, EndsByUnmet, TellsUnmet};
ghost use Rattle.keyword_authoring.specs.Borrowing.{Borrows, Retains};

use crate::dependents::turn_dependents;
use crate::wants::{Want, has_unmet, tell_unmet};
use keyword_authoring::{Progress, Stage};
use schema_reports::{Instance, OutOfMemory};
use schema_traits::{Answer, Mode, Reply, Step};
use std::alloc::Global;

/// Returns whether an error that is known at once ends a run in this mode.
fn wants_one(mode: Mode) -> bool
    ensures one { result ≡ wants_one mode }
{
    match mode {
        Mode::Verdict => true,
        Mode::First => true,
        Mode::All => false,
        Mode::Evaluate => false,
    }
}

/// Reports the errors of missing members in the first turn.
///
/// Returns whether they end the run.
fn tell_first<'i>(
    alloc: Global,
    wants: &[Want],
    run: &Progress,
    instance: Instance<'i>,
    answer: &mut Answer<'i>,
) -> Result<bool, OutOfMemory>
    ensures told { TellsUnmet wants.now instance.entry run.now answer.old answer.new result }
    ensures ends { IfOk result (EndsByUnmet wants.now instance.entry run.now) }
    ensures borrows { Retains answer.old answer.new result }
{
    match run.stage {
        Stage::Begun => {
            tell_unmet(alloc, wants, run.mode, instance, answer)?;
            Ok(wants_one(run.mode) && has_unmet(wants, instance))
        }
        _ => Ok(false),
    }
}

/// Returns the names whose schemas are evaluated: none if the run ends.
fn asked_names(ends: bool, names: &[String]) -> &[String]
    ensures asked { AskUnless ends names.now result.now }
{
    if ends { &[] } else { names }
}

/// Takes a turn of `dependencies`.
///
/// The first turn reports an error for each missing member. Then each child is evaluated whose name
/// is a member of the instance.
pub fn turn_dependencies<'s, 'i>(
    alloc: Global,
    wants: &[Want],
    names: &'s [String],
    run: &mut Progress,
    instance: Instance<'i>,
    reply: Reply<'i>,
    answer: &mut Answer<'i>,
) -> Result<Step<'s>, OutOfMemory>
    ensures turns { IfOk result (λ _. TurnsCourse (dependencies_course wants.now names.now instance.entry) run.old answer.old reply.entry
        run.new answer.new) }
    ensures steps { IfOk result (StepsCourse (dependencies_course wants.now names.now instance.entry) run.old answer.old reply.entry) }
    ensures borrows { Borrows reply.entry answer.old answer.new result }
{
    let ends = tell_first(alloc, wants, run, instance, answer)?;
    let asked = asked_names(ends, names);
    turn_dependents(alloc, asked, run, instance, reply, answer)
}
