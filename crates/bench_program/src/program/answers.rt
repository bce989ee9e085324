//! What the program prints about an instance.
ghost use Rattle.std.specs.Prelude.{◌≡◌, ◌++◌, true, IfOk, string_bytes};
ghost use Rattle.serde_json.specs.Data.{Data};
ghost use Rattle.serde_json.specs.View.{view};
ghost use Rattle.theory_definitions.specs.Making.{Table};
ghost use Rattle.theory_definitions.specs.Matching.{Matcher};
ghost use Rattle.theory_definitions.specs.Resolving.{Resolver};
ghost use Rattle.schema_output.specs.Output.{output_list};
ghost use Rattle.schema_reports.specs.ReportViews.{error_of};
ghost use Rattle.schema_reports.specs.UnitViews.{unit_of};
ghost use Rattle.schema_validator.specs.Handed.{Options};
ghost use Rattle.standard_resolver.specs.DocumentStates.{Point};
ghost use Rattle.standard_basics.specs.BasicShape.{BasicShape};
ghost use Rattle.schema_traits.specs.Showing.{Shows};
ghost use Rattle.bench_program.specs.ProgramMeaning.{AnswersPlainly, BenchHasUnits, BenchMeans, FromDepth, InEverySense};
ghost use Rattle.bench_program.specs.ProgramRuns.{answer_status};
ghost use Rattle.bench_program.specs.ProgramTexts.{IsJsonLine, error_line, verdict_text};
ghost use Rattle.bench_program.specs.declared.program.requests.Call.TheVariants.{Evaluate, IsValid, IterErrors, Validate};

use crate::program::Status;
use crate::program::requests::Call;
use bench_parts::BenchMatcher;
use schema_engine::{Validator, Work};
use schema_output::Evaluation;
use schema_reports::{OutOfMemory, ValidationError};
use serde_json::Value;
use standard_basics::BasicKeyword;
use std::alloc::{AllocError, Global};

/// What the program prints about an instance, and whether it is accepted.
#[derive(Drop)]
pub struct Answer {
    pub accepted: bool,
    /// Lines, each with its line feed.
    pub text: String,
}

impl Answer {
    /// Returns the status with which the program ends. Allocates nothing.
    pub fn status(&self) -> Status
        ensures status { result ≡ answer_status self.now.accepted }
    {
        if self.accepted {
            Status::Accepted
        } else {
            Status::Refused
        }
    }
}

/// Adds the line of an error.
///
/// The line has the instance path, schema path, evaluation path and text, separated by tabs.
fn push_error(text: &mut String, alloc: Global, error: &ValidationError) -> Result<(), OutOfMemory>
    ensures line { IfOk result (λ _. string_bytes text.new ≡ string_bytes text.old ++ error_line (error_of true error.now)) }
{
    text.push_str(error.instance_path(alloc)?.as_str())?;
    text.push_str("\t")?;
    text.push_str(error.schema_path.as_str())?;
    text.push_str("\t")?;
    text.push_str(error.evaluation_path.as_str())?;
    text.push_str("\t")?;
    text.push_str(error.text.as_str())?;
    text.push_str("\n")
}

/// The text is `true` or `false`.
fn verdict(
    alloc: Global,
    validator: &Validator<BasicKeyword, BenchMatcher>,
    instance: &Value,
) -> Result<Answer, OutOfMemory>
    ensures senses { InEverySense validator.now (view instance.now) IsValid result }
    ensures depth { FromDepth validator.now (view instance.now) IsValid result }
{
    let mut work = Work::unlimited();
    let accepted = match validator.is_valid_within(alloc, instance, &mut work) {
        Ok(accepted) => accepted,
        Err(_) => return Err(AllocError),
    };
    let text = verdict_text(alloc, accepted)?;
    Ok(Answer { accepted, text })
}

fn verdict_text(alloc: Global, accepted: bool) -> Result<String, OutOfMemory>
    ensures text { Shows string_bytes result (verdict_text accepted) }
{
    if accepted {
        String::from_str(alloc, "true\n")
    } else {
        String::from_str(alloc, "false\n")
    }
}

/// The text is the first error of the instance, or `ok`.
fn first(
    alloc: Global,
    validator: &Validator<BasicKeyword, BenchMatcher>,
    instance: &Value,
) -> Result<Answer, OutOfMemory>
    ensures senses { InEverySense validator.now (view instance.now) Validate result }
    ensures depth { FromDepth validator.now (view instance.now) Validate result }
{
    let mut work = Work::unlimited();
    let refusal = match validator.validate_within(alloc, instance, &mut work) {
        Ok(refusal) => refusal,
        Err(_) => return Err(AllocError),
    };
    match refusal {
        Ok(()) => Ok(Answer {
            accepted: true,
            text: String::from_str(alloc, "ok\n")?,
        }),
        Err(error) => {
            let mut text = String::new(alloc);
            push_error(&mut text, alloc, &error)?;
            Ok(Answer {
                accepted: false,
                text,
            })
        }
    }
}

/// The text has a line for each error of the instance.
fn errors(
    alloc: Global,
    validator: &Validator<BasicKeyword, BenchMatcher>,
    instance: &Value,
) -> Result<Answer, OutOfMemory>
    ensures senses { InEverySense validator.now (view instance.now) IterErrors result }
    ensures depth { FromDepth validator.now (view instance.now) IterErrors result }
{
    let mut accepted = true;
    let mut text = String::new(alloc);
    let mut work = Work::unlimited();
    let errors = match validator.iter_errors_within(alloc, instance, &mut work) {
        Ok(errors) => errors,
        Err(_) => return Err(AllocError),
    };
    for error in errors {
        accepted = false;
        push_error(&mut text, alloc, &error)?;
    }
    Ok(Answer { accepted, text })
}

/// The text is the list output of the instance's evaluation.
fn evaluation(
    alloc: Global,
    validator: &Validator<BasicKeyword, BenchMatcher>,
    instance: &Value,
) -> Result<Answer, OutOfMemory>
    ensures senses { InEverySense validator.now (view instance.now) Evaluate result }
    ensures depth { FromDepth validator.now (view instance.now) Evaluate result }
{
    let mut work = Work::unlimited();
    let evaluation = match validator.evaluate_within(alloc, instance, &mut work) {
        Ok(evaluation) => evaluation,
        Err(_) => return Err(AllocError),
    };
    let accepted = evaluation.is_valid();
    let text = list_line(alloc, &evaluation)?;
    Ok(Answer { accepted, text })
}

/// Returns the list output of an evaluation as a line of JSON.
fn list_line(alloc: Global, evaluation: &Evaluation) -> Result<String, OutOfMemory>
    ensures line { IfOk result (λ text. IsJsonLine (output_list (unit_of true evaluation.now)) (string_bytes text)) }
{
    let mut text = evaluation.list_text(alloc)?;
    text.push_str("\n")?;
    Ok(text)
}

/// Returns the answer of a call of the validator about an instance.
///
/// The call may visit any number of nodes, whatever limit the validator has.
///
/// # Errors
///
/// Out of memory.
#[tactic(auto, using(crate::proofs::MeantAnswers::answered_plainly))]
pub fn ask(
    alloc: Global,
    validator: &Validator<BasicKeyword, BenchMatcher>,
    call: Call,
    instance: &Value,
) -> Result<Answer, OutOfMemory>
    ensures senses { InEverySense validator.now (view instance.now) call result }
    ensures means { IfOk result
        (λ a. (resolver : Resolver Point) (table : Table BasicShape) (matcher : Matcher) (options : Options) (schema : Data)
        → BenchMeans resolver table matcher options schema validator.now
        → BenchHasUnits resolver table matcher options schema validator.now
        → AnswersPlainly resolver table matcher options schema validator.now.runs
        (view instance.now) call a.accepted (string_bytes a.text)) }
    ensures depth { FromDepth validator.now (view instance.now) call result }
{
    match call {
        Call::IsValid => verdict(alloc, validator, instance),
        Call::Validate => first(alloc, validator, instance),
        Call::IterErrors => errors(alloc, validator, instance),
        Call::Evaluate => evaluation(alloc, validator, instance),
    }
}
