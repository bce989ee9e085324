//! The keyword `allOf`.
ghost use Rattle.keyword_authoring.specs.TurnWords.{Steps, Turns};
ghost use Rattle.schema_applicators.specs.RunWays.{asks_each};
ghost use Rattle.keyword_authoring.specs.Borrowing.{Borrows};

use keyword_authoring::{Progress, ask_here, next_number};
use schema_reports::OutOfMemory;
use schema_traits::{Answer, Reply, Step};
use std::alloc::Global;

/// Takes a turn of `allOf`, which evaluates each child at its own place.
pub fn turn_all_of<'s, 'i>(
    alloc: Global,
    count: usize,
    run: &mut Progress,
    reply: Reply<'i>,
    answer: &mut Answer<'i>,
) -> Result<Step<'s>, OutOfMemory>
    ensures turns { Turns (asks_each count) run.old answer.old reply.entry run.new answer.new result }
    ensures steps { Steps (asks_each count) run.old answer.old reply.entry result }
    ensures borrows { Borrows reply.entry answer.old answer.new result }
{
    let mode = run.mode;
    let number = next_number(alloc, 0, count, run, reply, answer)?;
    Ok(ask_here(number, mode))
}
