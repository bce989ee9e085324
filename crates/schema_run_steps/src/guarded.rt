//! The pair of a node and a place that a guarded question asks about.
//!
//! Questions to shared nodes have such a pair too. The verdict is looked up before the pair is
//! entered, so a remembered verdict leaves the context as it was. The contracts here state
//! everything that the functions that run nodes rely on, so a wrong body leaves the goal of one
//! clause open.
ghost use Rattle.std.specs.Prelude.{◌≡◌, IfOk, OnErr, OnOk, Some, false, is_some, true};
ghost use Rattle.serde_json.specs.View.{view};
ghost use Rattle.theory_definitions.specs.Instance.{subject_at};
ghost use Rattle.schema_run_context.specs.Progress.{Context, OnlyPairs, places_in};
ghost use Rattle.schema_run_context.specs.Verdicts.{OnlyVerdicts};
ghost use Rattle.schema_run_steps.specs.EvaluationPlaces.{CarriesItsNumber, steps_to};
ghost use Rattle.schema_run_steps.specs.GuardedPairs.{ComesLast, HasNumberIn, IsLastIn, MayKeepIn, RemembersPair, is_busy_in, place_of};
ghost use Rattle.schema_run_steps.specs.GuardedPairs.{read_in, remembered_in};

use crate::evaluation_place::EvaluationPlace;
use schema_reports::{Instance, OutOfMemory};
use schema_run_context::ValidationContext;
use schema_traits::SchemaNode;

/// A node that is evaluated at a place, and the place's number.
#[derive(Clone, Copy)]
pub struct GuardedPair<'q, 'i> {
    node: SchemaNode,
    place: &'q EvaluationPlace<'q, 'i>,
    number: usize,
}

impl<'q, 'i> GuardedPair<'q, 'i> {
    /// Returns the pair of a node and a place.
    ///
    /// The places of the context's instance are numbered, if they are not yet.
    ///
    /// # Errors
    ///
    /// Out of memory. Then nothing has changed.
    pub fn new(
        context: &mut ValidationContext<'i>,
        node: SchemaNode,
        place: &'q EvaluationPlace<'q, 'i>,
    ) -> Result<GuardedPair<'q, 'i>, OutOfMemory>
        requires carries { CarriesItsNumber (places_in context.old) place.now }
        requires stands { is_some (subject_at (view context.old.root) (steps_to place.now)) ≡ true }
        ensures node { IfOk result (λ p. p.node ≡ node) }
        ensures place { IfOk result (λ p. place_of p ≡ steps_to place.now) }
        ensures numbered { IfOk result (λ p. HasNumberIn p context.old) }
        ensures unchanged { context.new ≡ context.old }
    {
        let places = context.places()?;
        match place.number(places) {
            Some(number) => Ok(GuardedPair {
                node,
                place,
                number,
            }),
            None => unreachable!(),
        }
    }

    /// Returns the place, which carries its number.
    pub fn numbered_place(&self) -> EvaluationPlace<'q, 'i>
        ensures same { steps_to result ≡ place_of self.now }
        ensures carries { (context : Context) → HasNumberIn self.now context → CarriesItsNumber (places_in context) result }
    {
        self.place.numbered(self.number)
    }

    /// Returns whether the pair is in progress. Allocates nothing.
    pub fn is_in_progress(&self, context: &ValidationContext<'i>) -> bool
        requires numbered { HasNumberIn self.now context.now }
        ensures found { result ≡ is_busy_in self.now context.now }
    {
        context.is_in_progress(self.node, self.number)
    }

    /// Enters a pair that is not in progress.
    ///
    /// # Errors
    ///
    /// Out of memory. Then nothing has changed.
    pub fn enter(&self, context: &mut ValidationContext<'i>) -> Result<(), OutOfMemory>
        requires numbered { HasNumberIn self.now context.old }
        requires is_new { is_busy_in self.now context.old ≡ false }
        ensures entered { OnOk result (ComesLast self.now context.old context.new) }
        ensures unchanged { OnErr result (context.new ≡ context.old) }
        ensures frame { OnlyPairs context.old context.new }
    {
        let _was_there = context.enter(self.node, self.number)?;
        Ok(())
    }

    /// Removes the pair, which must be the last one entered.
    ///
    /// Allocates nothing.
    pub fn exit(&self, context: &mut ValidationContext<'i>)
        requires numbered { HasNumberIn self.now context.old }
        requires last { IsLastIn self.now context.old }
        ensures left { ComesLast self.now context.new context.old }
        ensures frame { OnlyPairs context.old context.new }
    {
        context.exit(self.node, self.number);
    }

    /// Returns the verdict of the pair, if it is known without a run.
    ///
    /// It is `true` if the pair is in progress. Otherwise it is the remembered one, unless another
    /// node is in progress at its place. Allocates nothing.
    pub fn known_verdict(&self, context: &ValidationContext<'i>) -> Option<bool>
        requires numbered { HasNumberIn self.now context.now }
        ensures busy { is_busy_in self.now context.now ≡ true → result ≡ Some true }
        ensures read { is_busy_in self.now context.now ≡ false → result ≡ read_in self.now context.now }
    {
        if self.is_in_progress(context) {
            return Some(true);
        }
        self.remembered_verdict(context)
    }

    // Returns the remembered verdict of the pair, unless another node is in progress at its place.
    fn remembered_verdict(&self, context: &ValidationContext<'i>) -> Option<bool>
        requires numbered { HasNumberIn self.now context.now }
        ensures read { result ≡ read_in self.now context.now }
    {
        context.get_cached_result(self.node, self.number)
    }

    /// Returns the remembered verdict of the pair, whatever is in progress.
    ///
    /// Allocates nothing.
    pub fn lasting_verdict(&self, context: &ValidationContext<'i>) -> Option<bool>
        requires numbered { HasNumberIn self.now context.now }
        ensures read { result ≡ remembered_in self.now context.now }
    {
        context.remembered_verdict(self.node, self.number)
    }

    /// Remembers the verdict of the pair.
    ///
    /// # Errors
    ///
    /// Out of memory. Then nothing has changed.
    pub fn remember_verdict(
        &self,
        context: &mut ValidationContext<'i>,
        verdict: bool,
    ) -> Result<(), OutOfMemory>
        requires numbered { HasNumberIn self.now context.old }
        ensures kept { OnOk result (RemembersPair self.now context.old context.new verdict) }
        ensures frame { OnlyVerdicts context.old context.new }
        ensures unchanged { OnErr result (context.new ≡ context.old) }
    {
        context.remember_verdict(self.node, self.number, verdict)
    }

    /// Remembers the verdict of the pair, if it was expensive.
    ///
    /// It is remembered if the instance is an array or an object, no other node is in progress at
    /// the place, and enough visits were counted since the mark. Otherwise nothing changes.
    ///
    /// # Errors
    ///
    /// Out of memory. Then nothing has changed.
    pub fn keep_verdict(
        &self,
        context: &mut ValidationContext<'i>,
        instance: Instance<'i>,
        verdict: bool,
        mark: u64,
    ) -> Result<(), OutOfMemory>
        requires numbered { HasNumberIn self.now context.old }
        ensures kept { OnOk result (MayKeepIn self.now context.old instance.entry mark
            → RemembersPair self.now context.old context.new verdict) }
        ensures others { OnOk result (¬ MayKeepIn self.now context.old instance.entry mark → context.new ≡ context.old) }
        ensures frame { OnlyVerdicts context.old context.new }
        ensures unchanged { OnErr result (context.new ≡ context.old) }
    {
        context.cache_result(self.node, self.number, instance, verdict, mark)
    }
}
