//! The command, over an engine that builds validators of schemas.

use crate::desk::{Desk, Stop};
use crate::options::Options;
use crate::outcomes::Outcome;
use crate::supplies::{Supply, supply_of};
use crate::words::{given_words, options_in, say};

/// Builds validators of schemas.
pub trait Engine {
    /// Answers by a validator of the schema, as `answer_by` does.
    ///
    /// If no validator is built, the reason is reported.
    fn answer(
        &self,
        rt: &HostRuntime,
        desk: &mut Desk,
        options: &Options<'_>,
        supply: &Supply<'_>,
    ) -> Result<(), Stop>;
}

fn answer<E: Engine>(
    rt: &HostRuntime,
    desk: &mut Desk,
    options: &Options<'_>,
    engine: &E,
) -> Result<(), Stop> {
    let supply = supply_of(rt, options)?;
    let answered = engine.answer(rt, desk, options, &supply);
    drop(supply);
    answered
}

/// Answers as the options request, and reports why if there is no answer.
fn run<E: Engine>(rt: &HostRuntime, options: &Options<'_>, engine: &E) -> Outcome {
    let mut desk = Desk::new(rt, options);
    let answered = answer(rt, &mut desk, options, engine);
    let outcome = desk.outcome_of(rt, answered);
    drop(desk);
    outcome
}

fn obey<E: Engine>(rt: &HostRuntime, words: &[String], engine: &E) -> Outcome {
    match options_in(rt.alloc(), words) {
        Ok(options) => {
            let outcome = run(rt, &options, engine);
            drop(options);
            outcome
        }
        Err(told) => say(rt, told),
    }
}

/// Answers as the words of the call request, and returns the call's outcome.
pub fn answer_call<E: Engine>(rt: &HostRuntime, engine: &E) -> Outcome {
    match given_words(rt) {
        Ok(words) => {
            let outcome = obey(rt, words.as_slice(), engine);
            drop(words);
            outcome
        }
        Err(fault) => {
            let _ = eprintln!(rt;
                "the words of the call cannot be read: {fault}\nhint: give them in UTF-8"
            );
            Outcome::Unanswered
        }
    }
}
