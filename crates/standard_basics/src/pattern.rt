//! The keyword `pattern`.
ghost use Rattle.std.specs.Prelude.{true, IfOk};
ghost use Rattle.standard_basics.specs.Words.{pattern_text};
ghost use Rattle.standard_basics.specs.BasicShape.{has_pattern};
ghost use Rattle.keyword_authoring.specs.TextWords.{ShowsText};
ghost use Rattle.standard_basics.specs.Telling.{TellsMatch};
ghost use Rattle.keyword_authoring.specs.TurnWords.{StepsBy, TellsTurnBy};
ghost use Rattle.standard_basics.specs.RunWays.{as_shape, to_match};
ghost use Rattle.keyword_authoring.specs.Borrowing.{Borrows, Retains};

use crate::texts::text_of;
use keyword_authoring::{MatchTurn, Progress, Stage, ask_match, match_on, note, refuse};
use schema_reports::{Instance, OutOfMemory};
use schema_traits::{Answer, Mode, Reply, Step};
use std::alloc::Global;

/// Returns the error's text.
fn pattern_text(alloc: Global, pattern: &str, instance: Instance<'_>) -> Result<String, OutOfMemory>
    ensures text { IfOk result (ShowsText instance.entry (pattern_text pattern.now)) }
{
    let mut text = instance.text(alloc)?;
    text.push_str(" does not match \"")?;
    text.push_str(pattern)?;
    text.push_str("\"")?;
    Ok(text)
}

/// Reports an error unless the pattern matches.
#[inline(always)]
fn tell_pattern<'i>(
    alloc: Global,
    pattern: &str,
    matches: bool,
    mode: Mode,
    instance: Instance<'i>,
    answer: &mut Answer<'i>,
) -> Result<(), OutOfMemory>
    ensures told { TellsMatch matches pattern.now instance.entry mode answer.old answer.new result }
    ensures borrows { Retains answer.old answer.new result }
{
    if matches {
        return Ok(());
    }
    if mode == Mode::Verdict {
        refuse(alloc, answer);
        return Ok(());
    }
    let text = pattern_text(alloc, pattern, instance)?;
    note(alloc, mode, "pattern", text, answer)
}

/// Takes a turn of `pattern` at an instance with this text.
///
/// The first turn asks for the match. The next one reports an error unless the pattern matches.
#[inline(always)]
fn turn_of_text<'s, 'i>(
    alloc: Global,
    pattern: &'s str,
    text: &'s str,
    run: &mut Progress,
    instance: Instance<'i>,
    reply: Reply<'i>,
    answer: &mut Answer<'i>,
) -> Result<Step<'s>, OutOfMemory>
    ensures turns { TellsTurnBy true (to_match pattern.now text.now) instance.entry run.old answer.old reply.entry run.new answer.new
        result }
    ensures steps { StepsBy (to_match pattern.now text.now) instance.entry run.old answer.old reply.entry result }
    ensures borrows { Borrows reply.entry answer.old answer.new result }
{
    let mode = run.mode;
    match match_on(run, reply) {
        MatchTurn::Asks => Ok(ask_match(pattern, text, mode)),
        MatchTurn::Answered(matches) => {
            tell_pattern(alloc, pattern, matches, mode, instance, answer)?;
            Ok(Step::Done)
        }
        MatchTurn::Over => Ok(Step::Done),
    }
}

/// Takes a turn of `pattern`.
///
/// The keyword matches a text or a name, and accepts any other instance.
#[inline(always)]
pub fn turn_pattern<'s, 'i: 's>(
    alloc: Global,
    pattern: &'s str,
    run: &mut Progress,
    instance: Instance<'i>,
    reply: Reply<'i>,
    answer: &mut Answer<'i>,
) -> Result<Step<'s>, OutOfMemory>
    ensures turns { TellsTurnBy true (as_shape (has_pattern pattern.now)) instance.entry run.old answer.old reply.entry run.new answer.new
        result }
    ensures steps { StepsBy (as_shape (has_pattern pattern.now)) instance.entry run.old answer.old reply.entry result }
    ensures borrows { Borrows reply.entry answer.old answer.new result }
{
    match text_of(instance) {
        Some(text) => turn_of_text(alloc, pattern, text, run, instance, reply, answer),
        None => {
            drop(reply);
            run.stage = Stage::Ended;
            Ok(Step::Done)
        }
    }
}
