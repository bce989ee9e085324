//! Validators: compiled schemas that validate instances.
//!
//! `is_valid` returns no context, and so no count of pairs. `solve` evaluates the same nodes, by
//! the same function.
ghost use Rattle.std.specs.Prelude.{◌≡◌, ◌↔◌, ◌<◌, ◌≤◌, true, None, IfErr, IfOk, OnErr, length, OnOk};
ghost use Rattle.serde_json.specs.View.{view};
ghost use Rattle.theory_definitions.specs.Cover.{evaluate, is_valid, iter_errors, validate};
ghost use Rattle.schema_drafts.specs.KeywordViews.{draft_of};
ghost use Rattle.schema_run_context.specs.Works.{Spends};
ghost use Rattle.schema_traits.specs.MatcherViews.{FinishesEach};
ghost use Rattle.schema_compiled.specs.Answers.{refusal_of};
ghost use Rattle.schema_compiled.specs.Asked.{DecidesFromSomeDepth, ErrorsFromSomeDepth, FirstFromSomeDepth};
ghost use Rattle.schema_compiled.specs.Asked.{DecidesInEverySense, ErrorsInEverySense, FirstInEverySense};
ghost use Rattle.schema_compiled.specs.Asked.{ErrorsPointAsNodes, FirstPointsAsNodes};
ghost use Rattle.schema_compiled.specs.Asked.{EvaluatesFromSomeDepth, EvaluatesInEverySense};
ghost use Rattle.schema_compiled.specs.Asked.{UnitsFromSomeDepth, UnitsInEverySense};
ghost use Rattle.schema_validator.specs.CallWords.{AllAreMonotone, EachBorrows, FindsBySolver, FindsOnlyBySolver};
ghost use Rattle.schema_validator.specs.CallWords.{FindsVerdict, FindsWith, FirstBorrows, FirstIsSo};
ghost use Rattle.schema_validator.specs.Budgets.{NamesLimit, StaysUnstopped};
ghost use Rattle.schema_compiled.specs.Program.{program_with};
ghost use Rattle.schema_validator.specs.Greatest.{DecidesAccepted, ErrorsAccepted, EvaluatesAccepted, FirstAccepted};
ghost use Rattle.schema_validator.specs.Handed.{default_runs};
ghost use Rattle.schema_compiled.specs.Solved.{AllSayMonotone, AreEnough, BeganFew, IsCountedIn};
ghost use Rattle.schema_compiled.specs.Solved.{IsDecidedWithin, RestsOnContext, StopsOnlyLate};
ghost use Rattle.schema_compiled.specs.Taken.{TakesByRuns};
ghost use Rattle.theory_meaning.specs.Numbered.{Ranked};
ghost use Rattle.schema_node_table.specs.NodeTable.{numbered};

mod calls;
mod cloning;

use crate::call_error::{CallError, charge, charge_failure, copy_for_call};
pub use schema_compiled::CallLimits;
use schema_compiled::CompiledSchema;
use schema_drafts::Draft;
use schema_node_table::Nodes;
use schema_output::Evaluation;
use schema_reports::{ErrorIterator, OutOfMemory, ValidationError};
use schema_run_context::Work;
pub use schema_solver::SolvedVerdict;
use schema_solver::{Solver, is_monotone};
use schema_traits::{Matcher, SchemaNode, Validate};
use serde_json::Value;
use std::alloc::{AllocError, Global};
use std::marker::Model;
use unfinished_search::MAX_ASSUMED_RUNS;

/// A compiled schema.
///
/// It validates any number of instances, and no call changes it.
#[derive(Drop)]
pub struct Validator<K: Validate, M> {
    schema: CompiledSchema<K, M>,
}

impl<K: Validate, M> Model for Validator<K, M> {
    ghost use Rattle.schema_compiled.specs.Program.{Program};
    ghost use Rattle.serde_json.specs.contracts.value.Value as value;
    ghost use Rattle.std.specs.Coded.{codes};

    ghost Value = { Program K M };

    ghost coded = { Prim.hlevel (codes, value.the_row.coded) };

    ghost view = { λ v. v.schema };
}

fn unless_refused<'i>(error: Option<ValidationError<'i>>) -> Result<(), ValidationError<'i>>
    ensures refusal { refusal_of result ≡ error.entry }
{
    match error {
        Some(error) => Err(error),
        None => Ok(()),
    }
}

impl<K: Validate, M: Matcher> Validator<K, M> {
    /// Returns a validator of compiled nodes.
    ///
    /// The arguments are the nodes, the number of the root's node, the root's draft, and the
    /// matcher. The validator's calls make at most 64 runs for unfinished matches, take any number of
    /// steps and open any number of evaluations at once, and it has no solver.
    pub fn of_nodes(nodes: Nodes<K>, root: SchemaNode, draft: Draft, matcher: M) -> Validator<K, M>
        requires inside { root.0 < length nodes }
        ensures made { result ≡ program_with nodes root.0 (draft_of draft) matcher default_runs None None None }
    {
        Validator::of_nodes_within(
            nodes,
            root,
            draft,
            matcher,
            CallLimits {
                runs: MAX_ASSUMED_RUNS,
                work: None,
                depth: None,
            },
            Solver::none(),
        )
    }

    // Returns a validator of compiled nodes, with these limits on its calls and this solver.
    pub(crate) fn of_nodes_within(
        nodes: Nodes<K>,
        root: SchemaNode,
        draft: Draft,
        matcher: M,
        limits: CallLimits,
        finder: Solver,
    ) -> Validator<K, M>
        requires inside { root.0 < length nodes }
        requires limit { 1 ≤ limits.runs }
        ensures made { result ≡ program_with nodes root.0 (draft_of draft) matcher limits.runs limits.work limits.depth finder }
    {
        Validator {
            schema: CompiledSchema::of_nodes(nodes, root, draft, matcher, limits, finder),
        }
    }

    /// Returns how many runs a call makes at most for unfinished matches.
    ///
    /// The first run counts as one.
    pub fn run_limit(&self) -> u32
        ensures runs { result ≡ self.now.runs }
    {
        self.schema.run_limit()
    }

    /// Returns how many steps a call takes at most, if there is a limit.
    pub fn work_limit(&self) -> Option<u64>
        ensures work { result ≡ self.now.work }
    {
        self.schema.work_limit()
    }

    /// Returns how many evaluations a call has open at once at most, if there is a limit.
    pub fn depth_limit(&self) -> Option<usize>
        ensures depth { result ≡ self.now.depth }
    {
        self.schema.depth_limit()
    }

    /// Returns the draft of the schema's root.
    pub fn draft(&self) -> Draft
        ensures draft { draft_of result ≡ self.now.draft }
    {
        self.schema.draft()
    }

    /// Returns the number of the root's node.
    pub fn root(&self) -> SchemaNode
        ensures root { result.0 ≡ self.now.root }
    {
        self.schema.root()
    }

    /// Returns the nodes.
    pub fn nodes(&self) -> &Nodes<K>
        ensures nodes { result.now ≡ self.now.nodes }
    {
        self.schema.nodes()
    }

    /// Returns whether each keyword of each node says that it is monotone.
    ///
    /// A keyword is monotone if one more "valid" among the answers to its questions never turns its
    /// own "valid" into "invalid". References count as monotone.
    ///
    /// If it returns `true`, calls that decide answer by the greatest solution of the nodes, even
    /// if chains of references return. That is the largest set of pairs of a number and a place in
    /// which each pair accepts exactly if those of the set do.
    pub fn is_monotone(&self) -> bool
        ensures exactly { (result ≡ true) ↔ AllSayMonotone K.Validate self.now }
        ensures monotone { result ≡ true → AllAreMonotone K.Validate self.now }
    {
        is_monotone(self.nodes())
    }

    // States that the root is a node, and that unguarded edges fall in rank. Does nothing when it
    // runs.
    fn assert_ranked(&self)
        ensures inside { self.now.root < length self.now.nodes }
        ensures ranked { Ranked (numbered K.shape self.now.nodes) (length self.now.nodes) }
    {
        self.schema.assert_ranked();
    }

    /// Like `is_valid`, but takes its steps from `work`, and no more.
    ///
    /// `ValidationOptions::with_work_limit` says what a step is. Each run that it makes for
    /// unfinished matches after the first takes at least one step. It is not stopped if the matcher
    /// says that it finishes every match, each keyword says that it is monotone, and there is a
    /// solver for which that many pairs are enough (`solve_within`).
    ///
    /// # Errors
    ///
    /// `OutOfMemory`; `WorkLimit`, if the call needs one more step than `work` has left; or
    /// `DepthLimit`, if it needs one more evaluation open at once than `work` allows. In the second
    /// case `work` has a limit on steps, says that it is stopped, and allows no more. In the third
    /// it has a limit on depth, and says that the call tried to exceed it; it says so in no other
    /// case of an error. No more is left of it than before in any case.
    pub fn is_valid_within(
        &self,
        alloc: Global,
        instance: &Value,
        work: &mut Work,
    ) -> Result<bool, CallError>
        ensures depth { IfOk result (DecidesFromSomeDepth K.Validate M.Matcher.own self.now (view instance.now)) }
        ensures senses { IfOk result (DecidesInEverySense K.Validate M.Matcher.own self.now (view instance.now)) }
        ensures greatest { IfOk result (DecidesAccepted K.Validate M.Matcher.own self.now (view instance.now)) }
        ensures works { OnOk result (TakesByRuns K.Validate M.Matcher.own self.now (view instance.now) is_valid work.old work.new) }
        ensures spends { Spends work.old work.new }
        ensures fails { IfErr result (NamesLimit work.old work.new) }
        ensures decides { IsDecidedWithin K.Validate M.Matcher.own self.now instance.now work.old.left
            → OnErr result (StaysUnstopped work.old work.new) }
    {
        self.assert_ranked();
        let mut copy = copy_for_call(*work);
        match self.schema.valid_under_each(alloc, instance, &mut copy) {
            Ok(valid) => {
                charge(work, copy);
                Ok(valid)
            }
            Err(_) => Err(charge_failure(work, copy)),
        }
    }

    /// Returns the verdict that the solver finds, with its context.
    ///
    /// It returns `None` if the validator has no solver, or if the solver gives up. The solver
    /// gives up if a keyword that does not say that it is monotone gets a provisional "valid", one
    /// that depends on a pair in progress or assumed. So it never gives up if each keyword says
    /// that it is monotone. The matcher has to finish every match. If it says that it does,
    /// `is_valid`, `validate` and `iter_errors` use the solver first.
    ///
    /// The verdict rests on the context: each verdict in it is what the nodes say of this instance.
    /// If each keyword is monotone, everything in it is true, and the verdict is `true` exactly if
    /// the greatest solution of the nodes accepts.
    ///
    /// Let g be the number of nodes that a guarded edge leads to or that are not inlined, and p the
    /// number of places of the instance. The context began at most g * p * g pairs of them, even
    /// with reference cycles (`SolverContext::begun`). The call begins as many pairs as it needs,
    /// as deep as it needs, and they do not count against the validator's limits.
    ///
    /// # Errors
    ///
    /// Out of memory.
    pub fn solve<'i>(
        &self,
        alloc: Global,
        instance: &'i Value,
    ) -> Result<Option<SolvedVerdict<'i>>, OutOfMemory>
        requires finishes { FinishesEach (M.matching self.now.matcher) }
        ensures exactly { AllSayMonotone K.Validate self.now → IfOk result (FindsBySolver self.now) }
        ensures only { IfOk result (FindsOnlyBySolver self.now) }
        ensures depth { IfOk result (FindsVerdict (DecidesFromSomeDepth K.Validate M.Matcher.own self.now (view instance.now))) }
        ensures greatest { IfOk result (FindsVerdict (DecidesAccepted K.Validate M.Matcher.own self.now (view instance.now))) }
        ensures rests { IfOk result (FindsWith (RestsOnContext K.Validate M.Matcher.own self.now instance.now)) }
        ensures few { IfOk result (FindsWith (BeganFew K.Validate M.Matcher.own self.now instance.now)) }
    {
        let mut work = Work::unlimited();
        match self.solve_within(alloc, instance, &mut work) {
            Ok(found) => Ok(found),
            Err(_) => Err(AllocError),
        }
    }

    /// Like `solve`, but takes one step from `work` for each pair that begins.
    ///
    /// If the call is stopped, one pair more than `work` allowed is within the bound g * p * g of
    /// `solve`. So if `work` allows that many or more, the call is not stopped. If each keyword
    /// also says that it is monotone, the call then finds the verdict, unless it is out of memory.
    ///
    /// # Errors
    ///
    /// `OutOfMemory`; `WorkLimit`, if the call needs to begin one more pair than `work` has left; or
    /// `DepthLimit`, if it needs one more evaluation under way at once than `work` allows. In the
    /// second case `work` has a limit on steps, and says that it is stopped. In the third it has a
    /// limit on depth, and says that the call tried to exceed it; it says so in no other case of an
    /// error.
    pub fn solve_within<'i>(
        &self,
        alloc: Global,
        instance: &'i Value,
        work: &mut Work,
    ) -> Result<Option<SolvedVerdict<'i>>, CallError>
        requires finishes { FinishesEach (M.matching self.now.matcher) }
        ensures exactly { AllSayMonotone K.Validate self.now → IfOk result (FindsBySolver self.now) }
        ensures only { IfOk result (FindsOnlyBySolver self.now) }
        ensures depth { IfOk result (FindsVerdict (DecidesFromSomeDepth K.Validate M.Matcher.own self.now (view instance.now))) }
        ensures greatest { IfOk result (FindsVerdict (DecidesAccepted K.Validate M.Matcher.own self.now (view instance.now))) }
        ensures rests { IfOk result (FindsWith (RestsOnContext K.Validate M.Matcher.own self.now instance.now)) }
        ensures few { IfOk result (FindsWith (BeganFew K.Validate M.Matcher.own self.now instance.now)) }
        ensures spends { Spends work.old work.new }
        ensures fails { IfErr result (NamesLimit work.old work.new) }
        ensures counted { IfOk result (FindsWith (λ v. IsCountedIn v work.old work.new)) }
        ensures late { OnErr result (StopsOnlyLate K.Validate M.Matcher.own self.now instance.now work.old work.new) }
        ensures decides { AreEnough K.Validate M.Matcher.own self.now instance.now work.old.left
            → OnErr result (StaysUnstopped work.old work.new) }
    {
        self.assert_ranked();
        let mut copy = copy_for_call(*work);
        match self.schema.solved(alloc, true, instance, &mut copy) {
            Ok(found) => {
                charge(work, copy);
                Ok(found)
            }
            Err(_) => Err(charge_failure(work, copy)),
        }
    }

    /// Like `validate`, but takes its steps from `work`, and no more.
    ///
    /// Each run that it makes for unfinished matches after the first takes at least one step. It
    /// is not stopped if the nodes accept the instance, and `is_valid_within` would not be, for the
    /// reasons that stand there.
    ///
    /// # Errors
    ///
    /// `OutOfMemory`; `WorkLimit`, if the call needs one more step than `work` has left; or
    /// `DepthLimit`, if it needs one more evaluation open at once than `work` allows. In the second
    /// case `work` has a limit on steps, says that it is stopped, and allows no more. In the third
    /// it has a limit on depth, and says that the call tried to exceed it; it says so in no other
    /// case of an error. No more is left of it than before in any case.
    pub fn validate_within<'i>(
        &self,
        alloc: Global,
        instance: &'i Value,
        work: &mut Work,
    ) -> Result<Result<(), ValidationError<'i>>, CallError>
        ensures depth { IfOk result (FirstIsSo K.Validate M.Matcher.own self.now instance.now FirstFromSomeDepth) }
        ensures senses { IfOk result (FirstIsSo K.Validate M.Matcher.own self.now instance.now FirstInEverySense) }
        ensures greatest { IfOk result (FirstIsSo K.Validate M.Matcher.own self.now instance.now FirstAccepted) }
        ensures points { IfOk result (FirstIsSo K.Validate M.Matcher.own self.now instance.now FirstPointsAsNodes) }
        ensures borrows { IfOk result (FirstBorrows instance.now) }
        ensures works { OnOk result (TakesByRuns K.Validate M.Matcher.own self.now (view instance.now) validate work.old work.new) }
        ensures spends { Spends work.old work.new }
        ensures fails { IfErr result (NamesLimit work.old work.new) }
        ensures decides { IsDecidedWithin K.Validate M.Matcher.own self.now instance.now work.old.left
            → DecidesFromSomeDepth K.Validate M.Matcher.own self.now (view instance.now) true
            → OnErr result (StaysUnstopped work.old work.new) }
    {
        self.assert_ranked();
        let mut copy = copy_for_call(*work);
        match self.schema.first_under_each(alloc, instance, &mut copy) {
            Ok(error) => {
                charge(work, copy);
                Ok(unless_refused(error))
            }
            Err(_) => Err(charge_failure(work, copy)),
        }
    }

    /// Like `iter_errors`, but takes its steps from `work`, and no more.
    ///
    /// Each run that it makes for unfinished matches after the first takes at least one step. It
    /// is not stopped if the nodes accept the instance, and `is_valid_within` would not be, for the
    /// reasons that stand there.
    ///
    /// # Errors
    ///
    /// `OutOfMemory`; `WorkLimit`, if the call needs one more step than `work` has left; or
    /// `DepthLimit`, if it needs one more evaluation open at once than `work` allows. In the second
    /// case `work` has a limit on steps, says that it is stopped, and allows no more. In the third
    /// it has a limit on depth, and says that the call tried to exceed it; it says so in no other
    /// case of an error. No more is left of it than before in any case.
    pub fn iter_errors_within<'i>(
        &self,
        alloc: Global,
        instance: &'i Value,
        work: &mut Work,
    ) -> Result<ErrorIterator<'i>, CallError>
        ensures depth { IfOk result (ErrorsFromSomeDepth K.Validate M.Matcher.own self.now (view instance.now)) }
        ensures senses { IfOk result (ErrorsInEverySense K.Validate M.Matcher.own self.now (view instance.now)) }
        ensures greatest { IfOk result (ErrorsAccepted K.Validate M.Matcher.own self.now (view instance.now)) }
        ensures points { IfOk result (ErrorsPointAsNodes K.Validate M.Matcher.own self.now (view instance.now)) }
        ensures borrows { IfOk result (EachBorrows instance.now) }
        ensures works { OnOk result (TakesByRuns K.Validate M.Matcher.own self.now (view instance.now) iter_errors work.old work.new) }
        ensures spends { Spends work.old work.new }
        ensures fails { IfErr result (NamesLimit work.old work.new) }
        ensures decides { IsDecidedWithin K.Validate M.Matcher.own self.now instance.now work.old.left
            → DecidesFromSomeDepth K.Validate M.Matcher.own self.now (view instance.now) true
            → OnErr result (StaysUnstopped work.old work.new) }
    {
        self.assert_ranked();
        let mut copy = copy_for_call(*work);
        match self.schema.all_under_each(alloc, instance, &mut copy) {
            Ok(errors) => {
                charge(work, copy);
                Ok(ErrorIterator::new(errors))
            }
            Err(_) => Err(charge_failure(work, copy)),
        }
    }

    /// Like `evaluate`, but takes its steps from `work`, and no more.
    ///
    /// Each run that it makes for unfinished matches after the first takes at least one step.
    ///
    /// # Errors
    ///
    /// `OutOfMemory`; `WorkLimit`, if the call needs one more step than `work` has left; or
    /// `DepthLimit`, if it needs one more evaluation open at once than `work` allows. In the second
    /// case `work` has a limit on steps, says that it is stopped, and allows no more. In the third
    /// it has a limit on depth, and says that the call tried to exceed it; it says so in no other
    /// case of an error. No more is left of it than before in any case.
    pub fn evaluate_within(
        &self,
        alloc: Global,
        instance: &Value,
        work: &mut Work,
    ) -> Result<Evaluation, CallError>
        ensures depth { IfOk result (EvaluatesFromSomeDepth K.Validate M.Matcher.own self.now (view instance.now)) }
        ensures senses { IfOk result (EvaluatesInEverySense K.Validate M.Matcher.own self.now (view instance.now)) }
        ensures greatest { IfOk result (EvaluatesAccepted K.Validate M.Matcher.own self.now (view instance.now)) }
        ensures units { IfOk result (UnitsFromSomeDepth K.Validate M.Matcher.own self.now (view instance.now)) }
        ensures plain { IfOk result (UnitsInEverySense K.Validate M.Matcher.own self.now (view instance.now)) }
        ensures works { OnOk result (TakesByRuns K.Validate M.Matcher.own self.now (view instance.now) evaluate work.old work.new) }
        ensures spends { Spends work.old work.new }
        ensures fails { IfErr result (NamesLimit work.old work.new) }
    {
        self.assert_ranked();
        let mut copy = copy_for_call(*work);
        match self.schema.evaluated_under_each(alloc, instance, &mut copy) {
            Ok(unit) => {
                charge(work, copy);
                Ok(Evaluation::new(unit))
            }
            Err(_) => Err(charge_failure(work, copy)),
        }
    }
}
