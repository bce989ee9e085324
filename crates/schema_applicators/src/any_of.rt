//! The keyword `anyOf`.
ghost use Rattle.std.specs.Prelude.{true};
ghost use Rattle.schema_applicators.specs.Words.{any_of_tally};
ghost use Rattle.keyword_authoring.specs.TurnWords.{StepsBy, TellsTurnBy};
ghost use Rattle.schema_applicators.specs.RunWays.{TellsTally, judges_any_of};
ghost use Rattle.keyword_authoring.specs.Borrowing.{Borrows, Retains};

use crate::texts::none_text;
use keyword_authoring::{Judge, Judging, Progress, judge_children, note, refuse};
use schema_reports::{Instance, OutOfMemory};
use schema_traits::{Answer, Below, Mode, Reply, Step};
use std::alloc::Global;

/// Reports an error if no child accepts.
fn tell_any_of<'i>(
    alloc: Global,
    accepted: usize,
    mode: Mode,
    instance: Instance<'i>,
    answer: &mut Answer<'i>,
) -> Result<(), OutOfMemory>
    ensures told { TellsTally true any_of_tally accepted instance.entry mode answer.old answer.new result }
    ensures borrows { Retains answer.old answer.new result }
{
    if accepted > 0 {
        return Ok(());
    }
    if mode == Mode::Verdict {
        refuse(alloc, answer);
        return Ok(());
    }
    let text = none_text(alloc, "anyOf", instance)?;
    note(alloc, mode, "anyOf", text, answer)
}

/// Takes a turn of `anyOf`, which holds if at least one child accepts.
///
/// If units are requested, then each child is evaluated for its units.
#[inline(always)]
pub fn turn_any_of<'s, 'i>(
    alloc: Global,
    count: usize,
    run: &mut Progress,
    instance: Instance<'i>,
    reply: Reply<'i>,
    answer: &mut Answer<'i>,
) -> Result<Step<'s>, OutOfMemory>
    ensures turns { TellsTurnBy true (judges_any_of count) instance.entry run.old answer.old reply.entry run.new answer.new result }
    ensures steps { StepsBy (judges_any_of count) instance.entry run.old answer.old reply.entry result }
    ensures borrows { Borrows reply.entry answer.old answer.new result }
{
    let mode = run.mode;
    let judge = Judge {
        count,
        enough: 1,
        shows: true,
    };
    let judging = judge_children(alloc, judge, run, reply, answer)?;
    match judging {
        Judging::Asks(child, asked) => Ok(Step::Ask(child, Below::Here, asked)),
        Judging::Judged(accepted) => {
            tell_any_of(alloc, accepted, mode, instance, answer)?;
            Ok(Step::Done)
        }
        Judging::Over => Ok(Step::Done),
    }
}
