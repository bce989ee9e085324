//! The keyword `oneOf`.
ghost use Rattle.std.specs.Prelude.{true, IfOk};
ghost use Rattle.schema_applicators.specs.Words.{many_text, one_of_tally};
ghost use Rattle.keyword_authoring.specs.TextWords.{ShowsText};
ghost use Rattle.keyword_authoring.specs.TurnWords.{StepsBy, TellsTurnBy};
ghost use Rattle.schema_applicators.specs.RunWays.{TellsTally, judges_one_of};
ghost use Rattle.keyword_authoring.specs.Borrowing.{Borrows, Retains};

use crate::texts::none_text;
use keyword_authoring::{Judge, Judging, Progress, judge_children, note, refuse};
use schema_reports::{Instance, OutOfMemory};
use schema_traits::{Answer, Below, Mode, Reply, Step};
use std::alloc::Global;

/// Returns the error's text if more than one child accepts.
fn many_text(alloc: Global, instance: Instance<'_>) -> Result<String, OutOfMemory>
    ensures text { IfOk result (ShowsText instance.entry many_text) }
{
    let mut text = instance.text(alloc)?;
    text.push_str(" is valid under more than one of the schemas listed in the 'oneOf' keyword")?;
    Ok(text)
}

/// Reports an error if no child accepts, or if more than one does.
fn tell_one_of<'i>(
    alloc: Global,
    accepted: usize,
    mode: Mode,
    instance: Instance<'i>,
    answer: &mut Answer<'i>,
) -> Result<(), OutOfMemory>
    ensures told { TellsTally true one_of_tally accepted instance.entry mode answer.old answer.new result }
    ensures borrows { Retains answer.old answer.new result }
{
    if accepted == 1 {
        return Ok(());
    }
    if mode == Mode::Verdict {
        refuse(alloc, answer);
        return Ok(());
    }
    let text = if accepted == 0 {
        none_text(alloc, "oneOf", instance)?
    } else {
        many_text(alloc, instance)?
    };
    note(alloc, mode, "oneOf", text, answer)
}

/// Takes a turn of `oneOf`, which holds if exactly one child accepts.
///
/// If units are requested, then each child is evaluated for its units.
#[inline(always)]
pub fn turn_one_of<'s, 'i>(
    alloc: Global,
    count: usize,
    run: &mut Progress,
    instance: Instance<'i>,
    reply: Reply<'i>,
    answer: &mut Answer<'i>,
) -> Result<Step<'s>, OutOfMemory>
    ensures turns { TellsTurnBy true (judges_one_of count) instance.entry run.old answer.old reply.entry run.new answer.new result }
    ensures steps { StepsBy (judges_one_of count) instance.entry run.old answer.old reply.entry result }
    ensures borrows { Borrows reply.entry answer.old answer.new result }
{
    let mode = run.mode;
    let judge = Judge {
        count,
        enough: 2,
        shows: true,
    };
    let judging = judge_children(alloc, judge, run, reply, answer)?;
    match judging {
        Judging::Asks(child, asked) => Ok(Step::Ask(child, Below::Here, asked)),
        Judging::Judged(accepted) => {
            tell_one_of(alloc, accepted, mode, instance, answer)?;
            Ok(Step::Done)
        }
        Judging::Over => Ok(Step::Done),
    }
}
