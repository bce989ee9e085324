//! A validator whose first error is a function of the instance.
ghost use Rattle.std.specs.Prelude.{◌≡◌, ◌<◌, ◌≤◌, Bool, IfOk, IfSome, IsSome, false, length, option_map, true};
ghost use Rattle.serde_json.specs.Written.{has_float};
ghost use Rattle.serde_json.specs.View.{view};
ghost use Rattle.schema_traits.specs.MatcherViews.{FinishesEach};
ghost use Rattle.schema_reports.specs.ReportViews.{BorrowsItsPlace, error_of};
ghost use Rattle.schema_compiled.specs.Answers.{refusal_of};
ghost use Rattle.meta_checker.specs.Checks.{Checks, first_by};

use crate::nodes::{TellsFractions, show_no_fraction};
use schema_reports::{OutOfMemory, ValidationError};
use schema_traits::{Matcher, Validate};
use schema_validator::Validator;
use serde_json::Value;
use std::alloc::Global;
use std::marker::Model;

/// A validator whose first error is a function of the instance.
///
/// Its calls have no limit on steps, its matcher finishes every match, and its keywords show no
/// fraction of the schema. The text of the error is a function of the instance too if the instance
/// contains no fraction.
#[derive(Drop)]
pub struct Checker<K: Validate, M: Matcher> {
    validator: Validator<K, M>,
}

impl<K: Validate, M: Matcher> Model for Checker<K, M> {
    ghost use Rattle.std.specs.Coded.{codes};
    ghost use Rattle.serde_json.specs.contracts.value.Value as value;
    ghost use Rattle.schema_compiled.specs.Program.{Program};
    ghost use Rattle.meta_checker.specs.Checks.{Checks};

    ghost Value = { Program K M };

    ghost coded = { Prim.hlevel (codes, value.the_row.coded) };

    ghost view = { λ c. c.validator };

    ghost invariant = { λ c. Checks K.Validate M.Matcher c.validator };
}

fn error_in<'v>(refusal: Result<(), ValidationError<'v>>) -> Option<ValidationError<'v>>
    ensures error { result ≡ refusal_of refusal.entry }
{
    match refusal {
        Ok(()) => None,
        Err(error) => Some(error),
    }
}

impl<K: Validate, M: Matcher> Checker<K, M> {
    /// Creates a checker from a validator.
    ///
    /// Returns `None` if the validator has a limit on work or on depth, or if one of its keywords
    /// shows a fraction of the schema. Does not allocate.
    pub fn of<F: TellsFractions<K>>(
        fractions: &F,
        validator: Validator<K, M>,
    ) -> Option<Checker<K, M>>
        requires finishes { FinishesEach (M.matching validator.matcher) }
        requires inside { validator.root < length validator.nodes }
        requires some { 1 ≤ validator.runs }
        ensures is { IfSome result (λ c. c ≡ validator) }
        ensures made { Checks K.Validate M.Matcher.own validator → IsSome result }
    {
        let nodes = validator.nodes();
        nodes.assert_ordered();
        if !show_no_fraction(fractions, nodes) {
            return None;
        }
        if validator.work_limit().is_some() {
            return None;
        }
        if validator.depth_limit().is_some() {
            return None;
        }
        Some(Checker { validator })
    }

    /// Creates a checker from a validator with the help of a matcher.
    ///
    /// The validator's matcher must finish every match if `matcher` does. Returns `None` if
    /// `matcher` does not say that it finishes every match, if the validator's calls make no runs
    /// or have a limit on work or on depth, if its root is not among its nodes, or if one of its keywords shows a
    /// fraction of the schema. Does not allocate.
    pub fn by_matcher<F: TellsFractions<K>>(
        fractions: &F,
        matcher: &M,
        validator: Validator<K, M>,
    ) -> Option<Checker<K, M>>
        requires finishes { FinishesEach (M.matching matcher.now) → FinishesEach (M.matching validator.matcher) }
        ensures is { IfSome result (λ c. c ≡ validator) }
        ensures made { M.finishing matcher.now ≡ true → Checks K.Validate M.Matcher.own validator → IsSome result }
    {
        if !matcher.finishes() || validator.run_limit() == 0 {
            return None;
        }
        if validator.root().0 >= validator.nodes().len() {
            return None;
        }
        Checker::of(fractions, validator)
    }

    /// Returns the first error of an instance, or `None` if it is accepted.
    ///
    /// # Errors
    ///
    /// Out of memory.
    pub fn check<'v>(
        &self,
        alloc: Global,
        instance: &'v Value,
    ) -> Result<Option<ValidationError<'v>>, OutOfMemory>
        ensures checked { IfOk result (λ o. (texts : Bool) → (texts ≡ true → has_float (view instance.now) ≡ false)
            → option_map (error_of texts) o ≡ first_by K.Validate M.Matcher.own self.now texts (view instance.now)) }
        ensures borrows { IfOk result (λ o. IfSome o (BorrowsItsPlace (view instance.now))) }
    {
        let refusal = self.validator.validate(alloc, instance)?;
        Ok(error_in(refusal))
    }
}
