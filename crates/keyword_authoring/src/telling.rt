//! Runs that ask nothing, and note the keyword's own errors in their first turn.
ghost use Rattle.std.specs.Prelude.{◌≡◌};
ghost use Rattle.keyword_authoring.specs.declared.run.Stage.TheVariants.{Ended};
ghost use Rattle.keyword_authoring.specs.TurnWords.{TellsIfFirst};

use crate::run::{Progress, Stage};

/// Takes a turn of such a run, and returns whether the errors are noted in it.
///
/// They are noted in the first turn only.
pub fn tell_on(run: &mut Progress) -> bool
    ensures stage { run.new ≡ record run.old { stage = Ended } }
    ensures first { TellsIfFirst run.old.stage result }
{
    let first = matches!(run.stage, Stage::Begun);
    run.stage = Stage::Ended;
    first
}
