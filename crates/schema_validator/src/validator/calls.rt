//! The calls of a validator, within its limits.
ghost use Rattle.std.specs.Prelude.{◌≡◌, IfOk, IfSome, None, is_some, true};
ghost use Rattle.serde_json.specs.View.{view};
ghost use Rattle.schema_compiled.specs.Asked.{DecidesFromSomeDepth, ErrorsFromSomeDepth, FirstFromSomeDepth};
ghost use Rattle.schema_compiled.specs.Asked.{DecidesInEverySense, ErrorsInEverySense, FirstInEverySense};
ghost use Rattle.schema_compiled.specs.Asked.{ErrorsPointAsNodes, FirstPointsAsNodes};
ghost use Rattle.schema_compiled.specs.Asked.{EvaluatesFromSomeDepth, EvaluatesInEverySense};
ghost use Rattle.schema_compiled.specs.Asked.{UnitsFromSomeDepth, UnitsInEverySense};
ghost use Rattle.schema_validator.specs.CallWords.{AreSoOrGiveLimit, AreSoOrTell, EachBorrows, FirstBorrows, FirstIsSo, FirstIsSoOrTells, IsSoOrNo};
ghost use Rattle.schema_run_context.specs.Works.{allowed, down_to};
ghost use Rattle.schema_validator.specs.Budgets.{IsNamedBy};
ghost use Rattle.schema_validator.specs.Greatest.{DecidesAccepted, ErrorsAccepted, EvaluatesAccepted, FirstAccepted};
ghost use Rattle.schema_compiled.specs.Solved.{IsDecidedWithin};
ghost use Rattle.schema_compiled.specs.Stopped.{IsOneOf};
ghost use Rattle.schema_compiled.specs.Taken.{MakesRunsWithin};
ghost use Rattle.theory_definitions.specs.Cover.{evaluate, is_valid, iter_errors, validate};

use crate::call_error::CallError;
use crate::validator::Validator;
use schema_compiled::{CallLimit, limit_failure, limit_failure_alone};
use schema_output::{Evaluation, unit_of_errors};
use schema_reports::{ErrorIterator, OutOfMemory, ValidationError};
use schema_run_context::Work;
use schema_traits::{Matcher, Validate};
use serde_json::Value;
use std::alloc::{AllocError, Global};

impl<K: Validate, M: Matcher> Validator<K, M> {
    /// Returns the budget of a call, by the validator's limits.
    pub fn budget(&self) -> Work
        ensures budget { result ≡ down_to self.now.depth (allowed self.now.work) }
    {
        Work::within(self.work_limit()).with_depth(self.depth_limit())
    }

    /// Returns the validator's limit because of which a call failed, if it did because of one.
    pub fn limit_named(&self, failure: CallError) -> Option<CallLimit>
        ensures limit { IfSome result (IsOneOf self.now.work self.now.depth) }
        ensures named { IfSome result (IsNamedBy failure) }
        ensures steps { failure ≡ CallError.WorkLimit → is_some result ≡ is_some self.now.work }
        ensures depth { failure ≡ CallError.DepthLimit → is_some result ≡ is_some self.now.depth }
    {
        match failure {
            CallError::WorkLimit => match self.work_limit() {
                Some(limit) => Some(CallLimit::Steps(limit)),
                None => None,
            },
            CallError::DepthLimit => match self.depth_limit() {
                Some(limit) => Some(CallLimit::Depth(limit)),
                None => None,
            },
            CallError::OutOfMemory => None,
        }
    }

    /// Returns whether the instance is valid.
    ///
    /// If the matcher leaves matches unfinished, returns whether the instance is valid under every
    /// outcome of them, and `false` if finding out takes more runs than the limit. If each keyword
    /// is monotone and the runs are within the limit, returns `true` exactly if the greatest
    /// solution of the nodes accepts, even if chains of references return.
    ///
    /// With a limit on steps (`with_work_limit`) or on depth (`with_depth_limit`), returns `false` if
    /// the call needs more. Without one on depth, the limit on steps is enough if the matcher says
    /// that it finishes every match, each keyword says that it is monotone, and there is a solver for
    /// which that many pairs are enough (`solve_within`). Then a `false` is a verdict.
    ///
    /// # Errors
    ///
    /// Out of memory.
    pub fn is_valid(&self, alloc: Global, instance: &Value) -> Result<bool, OutOfMemory>
        ensures depth { IfOk result (IsSoOrNo K.Validate M.Matcher.own self.now instance.now DecidesFromSomeDepth) }
        ensures senses { IfOk result (IsSoOrNo K.Validate M.Matcher.own self.now instance.now DecidesInEverySense) }
        ensures greatest { IfOk result (IsSoOrNo K.Validate M.Matcher.own self.now instance.now DecidesAccepted) }
        ensures works { IfOk result (IsSoOrNo K.Validate M.Matcher.own self.now instance.now (MakesRunsWithin is_valid)) }
        ensures decides { self.now.depth ≡ None → IfSome self.now.work (IsDecidedWithin K.Validate M.Matcher.own self.now instance.now)
            → IfOk result (DecidesFromSomeDepth K.Validate M.Matcher.own self.now (view instance.now)) }
    {
        let mut work = self.budget();
        match self.is_valid_within(alloc, instance, &mut work) {
            Ok(valid) => Ok(valid),
            Err(failure) => match self.limit_named(failure) {
                Some(_limit) => Ok(false),
                None => Err(AllocError),
            },
        }
    }

    /// Returns the first error as an inner `Err`, or an inner `Ok` if the instance is valid.
    ///
    /// If the matcher leaves matches unfinished, the error is the first that all outcomes of them
    /// share. It reports such a match instead if some outcome refuses and they share no error, or
    /// if finding out takes more runs than the limit. Any other error is one that the nodes produce
    /// under some outcome, so it points at a keyword and a value as the build promises. If each
    /// keyword is monotone and the runs are within the limit, there is no error exactly if the
    /// greatest solution of the nodes accepts.
    ///
    /// If the matcher says that it finishes every match, the call looks for the verdict first, and
    /// for the error only if the instance is invalid. With a limit on steps (`with_work_limit`) or on
    /// depth (`with_depth_limit`), the error reports the limit if the call needs more.
    ///
    /// # Errors
    ///
    /// Out of memory.
    pub fn validate<'i>(
        &self,
        alloc: Global,
        instance: &'i Value,
    ) -> Result<Result<(), ValidationError<'i>>, OutOfMemory>
        ensures depth { IfOk result (FirstIsSoOrTells K.Validate M.Matcher.own self.now instance.now FirstFromSomeDepth) }
        ensures senses { IfOk result (FirstIsSoOrTells K.Validate M.Matcher.own self.now instance.now FirstInEverySense) }
        ensures greatest { IfOk result (FirstIsSoOrTells K.Validate M.Matcher.own self.now instance.now FirstAccepted) }
        ensures points { IfOk result (FirstIsSoOrTells K.Validate M.Matcher.own self.now instance.now FirstPointsAsNodes) }
        ensures borrows { IfOk result (FirstBorrows instance.now) }
        ensures works { IfOk result (FirstIsSoOrTells K.Validate M.Matcher.own self.now instance.now (MakesRunsWithin validate)) }
        ensures decides { self.now.depth ≡ None → IfSome self.now.work (IsDecidedWithin K.Validate M.Matcher.own self.now instance.now)
            → DecidesFromSomeDepth K.Validate M.Matcher.own self.now (view instance.now) true
            → IfOk result (FirstIsSo K.Validate M.Matcher.own self.now instance.now FirstFromSomeDepth) }
    {
        let mut work = self.budget();
        match self.validate_within(alloc, instance, &mut work) {
            Ok(refusal) => Ok(refusal),
            Err(failure) => match self.limit_named(failure) {
                Some(limit) => Ok(Err(limit_failure(alloc, limit, instance)?)),
                None => Err(AllocError),
            },
        }
    }

    /// Returns all errors in order, or none if the instance is valid.
    ///
    /// If the matcher leaves matches unfinished, these are the errors that all outcomes of them
    /// share. There is one error, which reports such a match, if some outcome refuses and they
    /// share no error, or if finding out takes more runs than the limit. Any other error is one
    /// that the nodes produce under some outcome, so it points at a keyword and a value as the
    /// build promises. If each keyword is monotone and the runs are within the limit, there is no
    /// error exactly if the greatest solution of the nodes accepts.
    ///
    /// If the matcher says that it finishes every match, the call looks for the verdict first, and
    /// for errors only if the instance is invalid. With a limit on steps (`with_work_limit`) or on
    /// depth (`with_depth_limit`), the one error reports the limit if the call needs more.
    ///
    /// # Errors
    ///
    /// Out of memory.
    pub fn iter_errors<'i>(
        &self,
        alloc: Global,
        instance: &'i Value,
    ) -> Result<ErrorIterator<'i>, OutOfMemory>
        ensures depth { IfOk result (AreSoOrTell K.Validate M.Matcher.own self.now instance.now ErrorsFromSomeDepth) }
        ensures senses { IfOk result (AreSoOrTell K.Validate M.Matcher.own self.now instance.now ErrorsInEverySense) }
        ensures greatest { IfOk result (AreSoOrTell K.Validate M.Matcher.own self.now instance.now ErrorsAccepted) }
        ensures points { IfOk result (AreSoOrTell K.Validate M.Matcher.own self.now instance.now ErrorsPointAsNodes) }
        ensures borrows { IfOk result (EachBorrows instance.now) }
        ensures works { IfOk result (AreSoOrTell K.Validate M.Matcher.own self.now instance.now (MakesRunsWithin iter_errors)) }
        ensures decides { self.now.depth ≡ None → IfSome self.now.work (IsDecidedWithin K.Validate M.Matcher.own self.now instance.now)
            → DecidesFromSomeDepth K.Validate M.Matcher.own self.now (view instance.now) true
            → IfOk result (ErrorsFromSomeDepth K.Validate M.Matcher.own self.now (view instance.now)) }
    {
        let mut work = self.budget();
        match self.iter_errors_within(alloc, instance, &mut work) {
            Ok(errors) => Ok(errors),
            Err(failure) => match self.limit_named(failure) {
                Some(limit) => Ok(ErrorIterator::new(limit_failure_alone(alloc, limit, instance)?)),
                None => Err(AllocError),
            },
        }
    }

    /// Returns the evaluation of the instance, with a unit for each schema and keyword evaluated.
    ///
    /// If the run meets no unfinished match, these are the units of the nodes. A build promises
    /// them to be the plain ones if no chain of references returns.
    ///
    /// If the run meets unfinished matches, the evaluation is made of the errors that all outcomes
    /// of them share. It has one unit for each error, at its paths, without absolute locations and
    /// annotations, inside a unit at empty locations. There is one error, which reports such a
    /// match, if some outcome refuses and they share no error, or if finding out takes more runs
    /// than the limit. If the runs are within the limit, the outermost unit is valid exactly if the
    /// instance is valid under every outcome; if each keyword is monotone, exactly if the greatest
    /// solution of the nodes accepts.
    ///
    /// With a limit on steps (`with_work_limit`) or on depth (`with_depth_limit`), the evaluation is
    /// made of the one error that reports the limit if the call needs more.
    ///
    /// # Errors
    ///
    /// Out of memory.
    pub fn evaluate(&self, alloc: Global, instance: &Value) -> Result<Evaluation, OutOfMemory>
        ensures depth { IfOk result (AreSoOrGiveLimit K.Validate M.Matcher.own self.now instance.now EvaluatesFromSomeDepth) }
        ensures senses { IfOk result (AreSoOrGiveLimit K.Validate M.Matcher.own self.now instance.now EvaluatesInEverySense) }
        ensures greatest { IfOk result (AreSoOrGiveLimit K.Validate M.Matcher.own self.now instance.now EvaluatesAccepted) }
        ensures units { IfOk result (AreSoOrGiveLimit K.Validate M.Matcher.own self.now instance.now UnitsFromSomeDepth) }
        ensures plain { IfOk result (AreSoOrGiveLimit K.Validate M.Matcher.own self.now instance.now UnitsInEverySense) }
        ensures works { IfOk result (AreSoOrGiveLimit K.Validate M.Matcher.own self.now instance.now (MakesRunsWithin evaluate)) }
    {
        let mut work = self.budget();
        match self.evaluate_within(alloc, instance, &mut work) {
            Ok(evaluation) => Ok(evaluation),
            Err(failure) => match self.limit_named(failure) {
                Some(limit) => {
                    let failure = limit_failure_alone(alloc, limit, instance)?;
                    Ok(Evaluation::new(unit_of_errors(alloc, failure)?))
                }
                None => Err(AllocError),
            },
        }
    }
}
