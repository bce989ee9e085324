//! A pair of a node and a place, about which a solver may know something.
ghost use Rattle.std.specs.Prelude.{◌≡◌, IfOk, IfSome, None, OnErr, OnOk, length};
ghost use Rattle.schema_traits.specs.Showing.{Shows, Yields};
ghost use Rattle.schema_run_steps.specs.EvaluationPlaces.{steps_to};
ghost use Rattle.schema_solver_state.specs.Contexts.{Solver};
ghost use Rattle.schema_solver_state.specs.Answering.{IsApart, OnlyPairs};
ghost use Rattle.schema_solver_state.specs.AtNumbers.{HasOwnNumbers};
ghost use Rattle.schema_solver_state.specs.SolverPairs.{CarriesNumber, HasItsNumber, IsFree, IsIdle, IsInside, IsLast, IsUnknown, place_of};
ghost use Rattle.schema_solver_state.specs.SolverPairs.{KeepsAnswer, PairBegins, PairIsFound, PairLeaves};

use crate::context::SolverContext;
use crate::said::Said;
use schema_reports::OutOfMemory;
use schema_run_steps::EvaluationPlace;
use schema_traits::SchemaNode;

/// A node that is evaluated at a place, with the place's number.
#[derive(Clone, Copy)]
pub struct SolverPair<'q, 'i> {
    node: SchemaNode,
    place: &'q EvaluationPlace<'q, 'i>,
    number: usize,
}

impl<'q, 'i> SolverPair<'q, 'i> {
    /// Returns the pair of a node and a place.
    ///
    /// # Errors
    ///
    /// Out of memory, and then nothing has changed. The first pair needs memory to number the
    /// places of the instance.
    pub fn new(
        context: &mut SolverContext<'i>,
        node: SchemaNode,
        place: &'q EvaluationPlace<'q, 'i>,
    ) -> Result<SolverPair<'q, 'i>, OutOfMemory>
        requires carries { CarriesNumber context.old place.now }
        requires stands { IsInside context.old place.now }
        ensures node { IfOk result (λ p. p.node ≡ node) }
        ensures place { Shows place_of result (steps_to place.now) }
        ensures numbered { IfOk result (λ p. HasItsNumber p context.old) }
        ensures own { OnOk result (HasOwnNumbers context.old) }
        ensures unchanged { context.new ≡ context.old }
    {
        let places = context.places()?;
        match place.number(places) {
            Some(number) => Ok(SolverPair {
                node,
                place,
                number,
            }),
            None => unreachable!(),
        }
    }

    /// Returns the place, which carries its number.
    pub fn numbered_place(&self) -> EvaluationPlace<'q, 'i>
        ensures same { steps_to result ≡ place_of self.now }
        ensures carries { (context : Solver) → HasItsNumber self.now context → CarriesNumber context result }
    {
        self.place.numbered(self.number)
    }

    /// Returns what is known of the pair.
    ///
    /// It is the known verdict, or a provisional "valid" if the pair is in progress or assumed, or
    /// nothing.
    pub fn state(&self, context: &SolverContext<'i>) -> Option<Said>
        requires numbered { HasItsNumber self.now context.now }
        ensures known { IfSome result (PairIsFound self.now context.now) }
        ensures unknown { result ≡ None → IsUnknown self.now context.now }
        ensures idle { result ≡ None → IsIdle self.now context.now }
        ensures free { result ≡ None → IsFree self.now context.now }
    {
        context.state(self.node, self.number)
    }

    /// Enters the pair, which is not in progress, and returns the mark for `keep_answer`.
    ///
    /// The pair counts as begun. The mark is the number of assumed pairs.
    ///
    /// # Errors
    ///
    /// Out of memory, and then nothing has changed.
    pub fn enter(&self, context: &mut SolverContext<'i>) -> Result<usize, OutOfMemory>
        requires numbered { HasItsNumber self.now context.old }
        requires is_new { IsIdle self.now context.old }
        ensures mark { Yields result (length context.old.assumed) }
        ensures begins { OnOk result (PairBegins self.now context.old context.new) }
        ensures unchanged { OnErr result (context.new ≡ context.old) }
    {
        context.enter(self.node, self.number)
    }

    /// Removes the pair, which must be the last one entered.
    pub fn exit(&self, context: &mut SolverContext<'i>)
        requires numbered { HasItsNumber self.now context.old }
        requires last { IsLast self.now context.old }
        ensures left { PairLeaves self.now context.old context.new }
        ensures frame { OnlyPairs context.old context.new }
    {
        context.exit(self.node, self.number);
    }

    /// Keeps the answer of the pair's node, and returns the answer of the pair from then on.
    ///
    /// `SolverContext::keep_answer` says what is kept.
    ///
    /// # Errors
    ///
    /// Out of memory. Then nothing has changed if the answer was "invalid". If it was "valid", the
    /// assumptions are unchanged, and some of the verdicts may be remembered.
    pub fn keep_answer(
        &self,
        context: &mut SolverContext<'i>,
        mark: usize,
        said: Said,
    ) -> Result<Said, OutOfMemory>
        requires numbered { HasItsNumber self.now context.old }
        requires own { HasOwnNumbers context.old }
        requires apart { IsApart mark context.old }
        ensures { KeepsAnswer self.now mark said context.old context.new result }
    {
        context.keep_answer(self.node, self.number, mark, said)
    }
}
