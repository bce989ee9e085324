//! Answers for instances with a validator.
ghost use Rattle.std.specs.Prelude.{◌≡◌, IfOk};
ghost use Rattle.command_line.specs.declared.outcomes.Outcome.TheVariants as outcome;
ghost use Rattle.standard_meta.specs.DraftMeanings.{regexes};
ghost use Rattle.jsonschema_cli.specs.Answered.{AnswersBy, HasAnswer, HasErrors, HasFirst, HasLimit, HasUnit, HasVerdict};

use command_line::{
    Answer, Answerer, Outcome, Output, Style, Subject, answered, file_report, flag, line_report,
    unanswered, unanswered_report,
};
use jsonschema::StandardValidator;
use schema_engine::{CallError, CallLimit, Evaluation, OutOfMemory, Validate, limit_text};
use serde_json::Value;
use standard_keywords::StandardKeyword;
use standard_outputs::{basic_text, hierarchical_text};
use std::alloc::{AllocError, Global};

/// Answers for instances with this validator.
#[derive(Clone, Copy)]
pub(crate) struct Validating<'v> {
    pub(crate) validator: &'v StandardValidator,
}

/// Returns the text for an instance on which the validator stopped at a limit.
fn limit_report(
    alloc: Global,
    style: Style,
    subject: Subject<'_>,
    limit: CallLimit,
) -> Result<String, OutOfMemory> {
    let why = limit_text(alloc, limit)?;
    let text = match style.output {
        Output::Text => unanswered_report(alloc, subject, why.as_str()),
        output => unanswered(alloc, output, subject, why.as_str()),
    };
    drop(why);
    text
}

/// Returns the units of an evaluation in the format of an output, or else as a list.
fn units_text(
    alloc: Global,
    output: Output,
    evaluation: &Evaluation,
) -> Result<String, OutOfMemory> {
    match output {
        Output::Basic => basic_text(alloc, evaluation.root()),
        Output::Hierarchical => hierarchical_text(alloc, evaluation.root()),
        _ => evaluation.list_text(alloc),
    }
}

impl Validating<'_> {
    /// Answers for an instance on which a call failed.
    fn stopped(
        &self,
        alloc: Global,
        style: Style,
        subject: Subject<'_>,
        failure: CallError,
    ) -> Answer
        ensures unanswered { IfOk result (λ a. a.0 ≡ outcome.Unanswered) }
        ensures limit { IfOk result (λ a. HasLimit self.now.validator.now) }
    {
        let Some(limit) = self.validator.limit_named(failure) else {
            return Err(AllocError);
        };
        let text = limit_report(alloc, style, subject, limit)?;
        Ok((Outcome::Unanswered, text))
    }

    /// Returns all errors of an instance, as text.
    fn errors(&self, alloc: Global, style: Style, subject: Subject<'_>, instance: &Value) -> Answer
        ensures errors { IfOk result (λ a. AnswersBy self.now.validator.now
            (HasErrors ⟦<StandardKeyword as Validate>⟧ regexes self.now.validator.now instance.now) a.0) }
    {
        let mut work = self.validator.budget();
        match self
            .validator
            .iter_errors_within(alloc, instance, &mut work)
        {
            Ok(errors) => {
                let outcome = Outcome::of(errors.size_hint().0 == 0);
                let text = file_report(alloc, style, subject, errors)?;
                Ok((outcome, text))
            }
            Err(failure) => self.stopped(alloc, style, subject, failure),
        }
    }

    /// Returns the first error of a line as text.
    ///
    /// The text is empty if there is no error.
    fn first_error(
        &self,
        alloc: Global,
        style: Style,
        subject: Subject<'_>,
        instance: &Value,
    ) -> Answer
        ensures first { IfOk result (λ a. AnswersBy self.now.validator.now
            (HasFirst ⟦<StandardKeyword as Validate>⟧ regexes self.now.validator.now instance.now) a.0) }
    {
        let mut work = self.validator.budget();
        match self.validator.validate_within(alloc, instance, &mut work) {
            Ok(Ok(())) => Ok((Outcome::Accepted, String::new(alloc))),
            Ok(Err(error)) => {
                let text = line_report(alloc, style, subject, &error);
                drop(error);
                Ok((Outcome::Refused, text?))
            }
            Err(failure) => self.stopped(alloc, style, subject, failure),
        }
    }

    /// Returns the verdict on an instance, in JSON.
    fn verdict(&self, alloc: Global, style: Style, subject: Subject<'_>, instance: &Value) -> Answer
        ensures verdict { IfOk result (λ a. AnswersBy self.now.validator.now
            (HasVerdict ⟦<StandardKeyword as Validate>⟧ regexes self.now.validator.now instance.now) a.0) }
    {
        let mut work = self.validator.budget();
        match self.validator.is_valid_within(alloc, instance, &mut work) {
            Ok(accepted) => {
                let text = answered(alloc, Output::Flag, subject, flag(accepted))?;
                if accepted {
                    Ok((Outcome::Accepted, text))
                } else {
                    Ok((Outcome::Refused, text))
                }
            }
            Err(failure) => self.stopped(alloc, style, subject, failure),
        }
    }

    /// Returns an instance's units, in JSON.
    fn units(&self, alloc: Global, style: Style, subject: Subject<'_>, instance: &Value) -> Answer
        ensures unit { IfOk result (λ a. AnswersBy self.now.validator.now
            (HasUnit ⟦<StandardKeyword as Validate>⟧ regexes self.now.validator.now instance.now) a.0) }
    {
        let mut work = self.validator.budget();
        match self.validator.evaluate_within(alloc, instance, &mut work) {
            Ok(evaluation) => {
                let accepted = evaluation.is_valid();
                let units = units_text(alloc, style.output, &evaluation);
                drop(evaluation);
                let text = answered(alloc, style.output, subject, units?.as_str())?;
                Ok((Outcome::of(accepted), text))
            }
            Err(failure) => self.stopped(alloc, style, subject, failure),
        }
    }
}

impl Answerer for Validating<'_> {
    ghost right = { λ v output line instance. AnswersBy v.validator.now
        (HasAnswer ⟦<StandardKeyword as Validate>⟧ regexes v.validator.now instance output line) };

    fn answer(
        &self,
        alloc: Global,
        style: Style,
        subject: Subject<'_>,
        instance: &Value,
    ) -> Answer {
        match style.output {
            Output::Text => match subject.line {
                None => self.errors(alloc, style, subject, instance),
                Some(_line) => self.first_error(alloc, style, subject, instance),
            },
            Output::Flag => self.verdict(alloc, style, subject, instance),
            Output::List => self.units(alloc, style, subject, instance),
            Output::Basic => self.units(alloc, style, subject, instance),
            Output::Hierarchical => self.units(alloc, style, subject, instance),
        }
    }
}
