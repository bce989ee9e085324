//! The keyword `not`.
ghost use Rattle.keyword_authoring.specs.TurnWords.{StepsBy, TellsTurnBy};
ghost use Rattle.schema_applicators.specs.RunWays.{ShowsNot, TellsTally, is_whole, judges_not, tally_of_not};
ghost use Rattle.keyword_authoring.specs.Borrowing.{Borrows, Retains};

use keyword_authoring::{Judge, Judging, Progress, judge_children, note, refuse};
use schema_reports::{Instance, OutOfMemory};
use schema_traits::{Answer, Below, Mode, Reply, Step};
use serde_json::Value;
use std::alloc::Global;

/// Returns the error's text.
fn not_text(alloc: Global, schema: &Value, instance: Instance<'_>) -> Result<String, OutOfMemory>
    ensures text { ShowsNot schema.now instance.entry result }
{
    let mut text = schema.to_string(alloc)?;
    text.push_str(" is not allowed for ")?;
    let shown = instance.text(alloc)?;
    text.push_str(shown.as_str())?;
    Ok(text)
}

/// Reports an error if the schema accepts.
fn tell_not<'i>(
    alloc: Global,
    schema: &Value,
    accepted: usize,
    mode: Mode,
    instance: Instance<'i>,
    answer: &mut Answer<'i>,
) -> Result<(), OutOfMemory>
    ensures told { TellsTally (is_whole schema.now) (tally_of_not schema.now) accepted instance.entry mode answer.old answer.new
        result }
    ensures borrows { Retains answer.old answer.new result }
{
    if accepted == 0 {
        return Ok(());
    }
    if mode == Mode::Verdict {
        refuse(alloc, answer);
        return Ok(());
    }
    let text = not_text(alloc, schema, instance)?;
    note(alloc, mode, "not", text, answer)
}

/// Takes a turn of `not`, which holds if its child refuses.
#[inline(always)]
pub fn turn_not<'s, 'i>(
    alloc: Global,
    schema: &Value,
    run: &mut Progress,
    instance: Instance<'i>,
    reply: Reply<'i>,
    answer: &mut Answer<'i>,
) -> Result<Step<'s>, OutOfMemory>
    ensures turns { TellsTurnBy (is_whole schema.now) (judges_not schema.now) instance.entry run.old answer.old reply.entry run.new
        answer.new result }
    ensures steps { StepsBy (judges_not schema.now) instance.entry run.old answer.old reply.entry result }
    ensures borrows { Borrows reply.entry answer.old answer.new result }
{
    let mode = run.mode;
    let judge = Judge {
        count: 1,
        enough: 1,
        shows: false,
    };
    let judging = judge_children(alloc, judge, run, reply, answer)?;
    match judging {
        Judging::Asks(child, asked) => Ok(Step::Ask(child, Below::Here, asked)),
        Judging::Judged(accepted) => {
            tell_not(alloc, schema, accepted, mode, instance, answer)?;
            Ok(Step::Done)
        }
        Judging::Over => Ok(Step::Done),
    }
}
