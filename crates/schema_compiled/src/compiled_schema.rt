//! Compiled schemas, and the answers of their runs and of their solver.
//!
//! `validate` and `iter_errors` find the verdict first if the matcher finishes every match, because
//! a run for a verdict takes two thirds of the time of a run for errors.
ghost use Rattle.std.specs.Prelude.{◌≡◌, ◌&&◌, ◌<◌, ◌≤◌, [], false, true, None, Option, IfOk, All, IfSome, IsSome, OnErr, OnOk};
ghost use Rattle.std.specs.Prelude.{is_some, length, slice_get};
ghost use Rattle.schema_traits.specs.Showing.{Shows};
ghost use Rattle.serde_json.specs.View.{view};
ghost use Rattle.schema_drafts.specs.KeywordViews.{draft_of};
ghost use Rattle.schema_run_context.specs.Works.{Asks, Spends};
ghost use Rattle.theory_definitions.specs.Unfinished.{starting};
ghost use Rattle.schema_reports.specs.ReportViews.{BorrowsItsPlace};
ghost use Rattle.schema_traits.specs.FaultViews.{errors_in};
ghost use Rattle.schema_traits.specs.KeywordViews.{mode_of, reply_of};
ghost use Rattle.schema_traits.specs.MatcherViews.{FinishesEach};
ghost use Rattle.schema_run_steps.specs.ReplyModes.{reply_by};
ghost use Rattle.theory_definitions.specs.Cover.{evaluate, is_valid, iter_errors, validate};
ghost use Rattle.theory_definitions.specs.Reports.{Outcome};
ghost use Rattle.theory_definitions.specs.Keywords.{for_all, for_first, for_units, for_verdict};
ghost use Rattle.schema_compiled.specs.Asked.{DecidesFromSomeDepth, ErrorsFromSomeDepth, FirstFromSomeDepth};
ghost use Rattle.schema_compiled.specs.Asked.{EvaluatesFromSomeDepth, IfYes};
ghost use Rattle.schema_compiled.specs.Asked.{RunGivesUnit, UnitsFromSomeDepth};
ghost use Rattle.schema_compiled.specs.SharedErrors.{AreShared, TakesAsBegun};
ghost use Rattle.schema_compiled.specs.Solved.{AllSayMonotone, BeganFew, IsCountedIn, IsDecidedWithin, RestsOnContext, StopsOnlyLate};
ghost use Rattle.schema_compiled.specs.Program.{program_with};
ghost use Rattle.schema_compiled.specs.Taken.{TakesByRuns};
ghost use Rattle.schema_compiled.specs.Asked.{RunDecides, RunFindsFirst, RunListsErrors, RunMeets, RunReplies};
ghost use Rattle.theory_meaning.specs.Numbered.{Ranked};
ghost use Rattle.schema_solver.specs.Calls.{IfFound};
ghost use Rattle.schema_node_table.specs.NodeTable.{numbered};

mod cloning;

use schema_drafts::Draft;
use schema_node::{FirstQuestion, RunNodes};
use schema_node_table::Nodes;
use schema_output::unit_of_errors;
use schema_places::PlacesOnDemand;
use schema_reports::{EvaluationNode, Instance, Location, OutOfMemory, Place, ValidationError};
use schema_run_context::{ValidationContext, Work};
use schema_solver::{SolvedVerdict, Solver};
use schema_traits::{Matcher, Mode, Reply, SchemaNode, Validate};
use serde_json::Value;
use std::alloc::Global;
use std::marker::Model;
use unfinished_matches::MatchAssumptions;
use unfinished_search::{errors_under_each, validity_under_each};

/// The limits of a call: on runs, and on steps and on depth if there are such limits.
///
/// `with_work_limit` of the options says what a step is, and `with_depth_limit` what depth is.
#[derive(Clone, Copy)]
pub struct CallLimits {
    pub runs: u32,
    pub work: Option<u64>,
    pub depth: Option<usize>,
}

/// A compiled schema.
///
/// It has the nodes, the number of the root's node, the root's draft, the matcher, the limits of a
/// call, and a solver, if there is one. It validates any number of instances, and no call changes
/// it.
#[derive(Drop)]
pub struct CompiledSchema<K: Validate, M> {
    nodes: Nodes<K>,
    root: SchemaNode,
    draft: Draft,
    matcher: M,
    run_limit: u32,
    work_limit: Option<u64>,
    depth_limit: Option<usize>,
    // finds verdicts without a run
    finder: Solver,
}

impl<K: Validate, M> Model for CompiledSchema<K, M> {
    ghost use Rattle.schema_drafts.specs.KeywordViews.{draft_of};
    ghost use Rattle.schema_compiled.specs.Program.{Program};
    ghost use Rattle.std.specs.Prelude.{◌<◌, ◌≤◌, length};
    ghost use Rattle.serde_json.specs.contracts.value.Value as value;
    ghost use Rattle.std.specs.Coded.{codes};

    ghost Value = { Program K M };

    ghost coded = { Prim.hlevel (codes, value.the_row.coded) };

    ghost view = { λ v. record {
      nodes = v.nodes;
      root = v.root.0;
      draft = draft_of v.draft;
      matcher = v.matcher;
      runs = v.run_limit;
      work = v.work_limit;
      depth = v.depth_limit;
      followed = v.finder;
    } };

    ghost invariant = { λ v. (v.root.0 < length v.nodes) × (1 ≤ v.run_limit) };
}

fn first_of<'i>(errors: Vec<ValidationError<'i>>) -> Option<ValidationError<'i>>
    ensures first { result ≡ slice_get errors.entry.items 0 }
{
    let mut errors = errors;
    if errors.is_empty() {
        None
    } else {
        Some(errors.remove(0))
    }
}

impl<K: Validate, M: Matcher> CompiledSchema<K, M> {
    /// Returns a compiled schema of these parts.
    pub fn of_nodes(
        nodes: Nodes<K>,
        root: SchemaNode,
        draft: Draft,
        matcher: M,
        limits: CallLimits,
        finder: Solver,
    ) -> CompiledSchema<K, M>
        requires inside { root.0 < length nodes }
        requires limit { 1 ≤ limits.runs }
        ensures made { result ≡ program_with nodes root.0 (draft_of draft) matcher limits.runs limits.work limits.depth finder }
    {
        CompiledSchema {
            nodes,
            root,
            draft,
            matcher,
            run_limit: limits.runs,
            work_limit: limits.work,
            depth_limit: limits.depth,
            finder,
        }
    }

    /// Returns how many runs a call makes at most for unfinished matches.
    ///
    /// The first run counts as one.
    pub fn run_limit(&self) -> u32
        ensures runs { result ≡ self.now.runs }
    {
        self.run_limit
    }

    /// Returns how many steps a call takes at most, if there is a limit.
    pub fn work_limit(&self) -> Option<u64>
        ensures work { result ≡ self.now.work }
    {
        self.work_limit
    }

    /// Returns how many evaluations a call has open at once at most, if there is a limit.
    pub fn depth_limit(&self) -> Option<usize>
        ensures depth { result ≡ self.now.depth }
    {
        self.depth_limit
    }

    /// Returns the draft of the schema's root.
    pub fn draft(&self) -> Draft
        ensures draft { draft_of result ≡ self.now.draft }
    {
        self.draft
    }

    /// Returns the number of the root's node.
    pub fn root(&self) -> SchemaNode
        ensures root { result.0 ≡ self.now.root }
    {
        self.root
    }

    /// Returns the nodes.
    pub fn nodes(&self) -> &Nodes<K>
        ensures nodes { result.now ≡ self.now.nodes }
    {
        &self.nodes
    }

    /// States that the root is a node, and that unguarded edges fall in rank.
    ///
    /// Does nothing when it runs.
    pub fn assert_ranked(&self)
        ensures inside { self.now.root < length self.now.nodes }
        ensures ranked { Ranked (numbered K.shape self.now.nodes) (length self.now.nodes) }
    {
        self.nodes.assert_ordered();
    }

    // Returns the reply of the root's node, under these assumptions about unfinished matches.
    fn asked<'i>(
        &self,
        alloc: Global,
        instance: &'i Value,
        mode: Mode,
        matches: MatchAssumptions<'i>,
        work: &mut Work,
    ) -> Result<(MatchAssumptions<'i>, Reply<'i>), OutOfMemory>
        requires wanted { ¬ (mode_of mode ≡ for_units) }
        ensures says { IfOk result (λ r. RunReplies
            K.Validate M.Matcher.own self.now (view instance.now) mode matches.entry.assumptions r.1) }
        ensures meets { IfOk result (λ r. RunMeets K.Validate M.Matcher.own self.now (view instance.now) (mode_of mode) matches.entry r.0) }
        ensures assumes { IfOk result (λ r. r.0.assumptions ≡ matches.entry.assumptions) }
        ensures makes_one { OnOk result (1 ≤ self.now.runs) }
        ensures works { OnOk result (Asks work.old work.new) }
        ensures speaks { IfOk result (λ r. (o : Outcome) × (reply_of false r.1 ≡ reply_by (mode_of mode) o)) }
        ensures borrows { IfOk result (λ r. All (BorrowsItsPlace (view instance.now)) (errors_in r.1)) }
    {
        let place = Place::root(alloc);
        let path = Location::new(alloc);
        let mut context = ValidationContext::assuming(alloc, PlacesOnDemand::of(instance), matches);
        context.allow(*work);
        let question = FirstQuestion {
            instance: Instance::Value(instance),
            place: &place,
            path: &path,
            mode,
        };
        let reply = self
            .nodes
            .run(alloc, &self.matcher, self.root, &question, &mut context);
        let left = context.work();
        *work = left;
        let met = context.into_matches();
        match reply {
            Ok(reply) => Ok((met, reply)),
            Err(refused) => {
                drop(met);
                Err(refused)
            }
        }
    }

    // Returns the verdict of the root's node, under these assumptions about unfinished matches.
    fn verdict<'i>(
        &self,
        alloc: Global,
        instance: &'i Value,
        matches: MatchAssumptions<'i>,
        work: &mut Work,
    ) -> Result<(MatchAssumptions<'i>, bool), OutOfMemory>
        ensures says { IfOk result (λ r. RunDecides K.Validate M.Matcher.own self.now (view instance.now) matches.entry.assumptions r.1) }
        ensures meets { IfOk result (λ r. RunMeets K.Validate M.Matcher.own self.now (view instance.now) for_verdict matches.entry r.0) }
        ensures assumes { IfOk result (λ r. r.0.assumptions ≡ matches.entry.assumptions) }
        ensures works { OnOk result (Asks work.old work.new) }
        ensures makes_one { OnOk result (1 ≤ self.now.runs) }
    {
        let (met, reply) = self.asked(alloc, instance, Mode::Verdict, matches, work)?;
        match reply {
            Reply::Truth(valid) => Ok((met, valid)),
            _ => unreachable!(),
        }
    }

    /// Returns the solver's verdict of the root's node, with its context.
    ///
    /// Nothing is assumed of unfinished matches. It returns `None` if there is no solver, if the
    /// matcher may leave a match unfinished, or if the solver gives up.
    ///
    /// # Errors
    ///
    /// Out of memory; or one more step or one more open evaluation is needed. In the second case
    /// `work` says which.
    pub fn solved<'i>(
        &self,
        alloc: Global,
        finishes: bool,
        instance: &'i Value,
        work: &mut Work,
    ) -> Result<Option<SolvedVerdict<'i>>, OutOfMemory>
        requires finishes { finishes ≡ true → FinishesEach (M.matching self.now.matcher) }
        ensures exactly { AllSayMonotone K.Validate self.now → Shows is_some result (is_some self.now.followed && finishes) }
        ensures only { IfOk result (λ found. is_some found ≡ true → (is_some self.now.followed && finishes) ≡ true) }
        ensures finishes { IfFound result (λ _. FinishesEach (M.matching self.now.matcher)) }
        ensures says { IfFound result (λ v. RunDecides K.Validate M.Matcher.own self.now (view instance.now) [] v.valid) }
        ensures depth { IfFound result (λ v. DecidesFromSomeDepth K.Validate M.Matcher.own self.now (view instance.now) v.valid) }
        ensures rests { IfFound result (RestsOnContext K.Validate M.Matcher.own self.now instance.now) }
        ensures few { IfFound result (BeganFew K.Validate M.Matcher.own self.now instance.now) }
        ensures works { OnOk result (Spends work.old work.new) }
        ensures counted { IfFound result (λ v. IsCountedIn v work.old work.new) }
        ensures late { OnErr result (StopsOnlyLate K.Validate M.Matcher.own self.now instance.now work.old work.new) }
    {
        self.finder.verdict(
            alloc,
            &self.nodes,
            &self.matcher,
            finishes,
            self.root,
            instance,
            work,
        )
    }

    /// Returns whether every outcome of the unfinished matches accepts.
    ///
    /// The verdict is the solver's, if it finds one.
    ///
    /// # Errors
    ///
    /// Out of memory; or one more step or one more open evaluation is needed. In the second case
    /// `work` says which.
    pub fn valid_under_each(
        &self,
        alloc: Global,
        instance: &Value,
        work: &mut Work,
    ) -> Result<bool, OutOfMemory>
        ensures works { OnOk result (TakesByRuns K.Validate M.Matcher.own self.now (view instance.now) is_valid work.old work.new) }
        ensures depth { IfOk result (DecidesFromSomeDepth K.Validate M.Matcher.own self.now (view instance.now)) }
        ensures decides { IsDecidedWithin K.Validate M.Matcher.own self.now instance.now work.old.left
            → OnErr result (work.old.stopped ≡ false → work.new.stopped ≡ false) }
    {
        if let Some(solved) = self.solved(alloc, self.matcher.finishes(), instance, work)? {
            return Ok(solved.valid);
        }
        let first = self.verdict(alloc, instance, MatchAssumptions::new(alloc), work)?;
        if !first.0.met_unassumed() {
            drop(first.0);
            return Ok(first.1);
        }
        validity_under_each(
            alloc,
            &mut |matches| self.verdict(alloc, instance, matches, work),
            first,
            self.run_limit,
        )
    }

    // Returns whether the matcher finishes every match and the root's node accepts the instance. If
    // so, there is no error. A `false` says nothing, unless the solver finds the verdict within what
    // is left.
    fn accepts_at_once(
        &self,
        alloc: Global,
        instance: &Value,
        work: &mut Work,
    ) -> Result<bool, OutOfMemory>
        ensures works { OnOk result (Spends work.old work.new) }
        ensures finishes { IfYes result (FinishesEach (M.matching self.now.matcher) × (1 ≤ self.now.runs)) }
        ensures first { IfYes result (FirstFromSomeDepth K.Validate M.Matcher.own self.now (view instance.now) None) }
        ensures errors { IfYes result (ErrorsFromSomeDepth K.Validate M.Matcher.own self.now (view instance.now) []) }
        ensures decides { IsDecidedWithin K.Validate M.Matcher.own self.now instance.now work.old.left
            → OnErr result (work.old.stopped ≡ false → work.new.stopped ≡ false) }
        ensures verdict { IsDecidedWithin K.Validate M.Matcher.own self.now instance.now work.old.left
            → IfOk result (DecidesFromSomeDepth K.Validate M.Matcher.own self.now (view instance.now)) }
    {
        if self.matcher.finishes() {
            if let Some(solved) = self.solved(alloc, true, instance, work)? {
                return Ok(solved.valid);
            }
            let (met, accepts) = self.verdict(alloc, instance, MatchAssumptions::new(alloc), work)?;
            drop(met);
            return Ok(accepts);
        }
        Ok(false)
    }

    // Returns the first error of the root's node. Nothing is assumed.
    fn first<'i>(
        &self,
        alloc: Global,
        instance: &'i Value,
        work: &mut Work,
    ) -> Result<(MatchAssumptions<'i>, Option<ValidationError<'i>>), OutOfMemory>
        ensures says { IfOk result (λ r. RunFindsFirst K.Validate M.Matcher.own self.now (view instance.now) [] r.1) }
        ensures meets { IfOk result (λ r. RunMeets K.Validate M.Matcher.own self.now (view instance.now) for_first (starting []) r.0) }
        ensures assumes { IfOk result (λ r. r.0.assumptions ≡ []) }
        ensures works { OnOk result (Asks work.old work.new) }
        ensures makes_one { OnOk result (1 ≤ self.now.runs) }
        ensures borrows { IfOk result (λ r. IfSome r.1 (BorrowsItsPlace (view instance.now))) }
    {
        let nothing = MatchAssumptions::new(alloc);
        let (met, reply) = self.asked(alloc, instance, Mode::First, nothing, work)?;
        match reply {
            Reply::First(Some(error)) => Ok((met, Some(Box::into_inner(error)))),
            Reply::First(None) => Ok((met, None)),
            _ => unreachable!(),
        }
    }

    // Returns all errors of the root's node, under these assumptions about unfinished matches.
    fn errors<'i>(
        &self,
        alloc: Global,
        instance: &'i Value,
        matches: MatchAssumptions<'i>,
        work: &mut Work,
    ) -> Result<(MatchAssumptions<'i>, Vec<ValidationError<'i>>), OutOfMemory>
        ensures says { IfOk result (λ r. RunListsErrors
            K.Validate M.Matcher.own self.now (view instance.now) matches.entry.assumptions r.1.items) }
        ensures meets { IfOk result (λ r. RunMeets K.Validate M.Matcher.own self.now (view instance.now) for_all matches.entry r.0) }
        ensures assumes { IfOk result (λ r. r.0.assumptions ≡ matches.entry.assumptions) }
        ensures works { OnOk result (Asks work.old work.new) }
        ensures makes_one { OnOk result (1 ≤ self.now.runs) }
        ensures borrows { IfOk result (λ r. All (BorrowsItsPlace (view instance.now)) r.1.items) }
    {
        let (met, reply) = self.asked(alloc, instance, Mode::All, matches, work)?;
        match reply {
            Reply::All(errors) => Ok((met, errors)),
            _ => unreachable!(),
        }
    }

    // Returns the errors that all outcomes share, after a first run that met an unfinished match.
    // The further runs produce all errors, whatever the first run produced.
    fn shared_errors<'i>(
        &self,
        alloc: Global,
        instance: &'i Value,
        first: (MatchAssumptions<'i>, Vec<ValidationError<'i>>),
        work: &mut Work,
    ) -> Result<Vec<ValidationError<'i>>, OutOfMemory>
        requires none { first.0.assumptions ≡ [] }
        requires met { IsSome first.0.unassumed }
        ensures shares { IfOk result (λ es. AreShared K.Validate M.Matcher.own self.now (view instance.now) first.entry.0 es.items) }
        ensures works { OnOk result (TakesAsBegun K.Validate M.Matcher.own self.now (view instance.now) first.entry.0 work.old work.new) }
    {
        let shared = errors_under_each(
            alloc,
            &mut |matches| self.errors(alloc, instance, matches, work),
            first,
            self.run_limit,
            instance,
        )?;
        Ok(shared)
    }

    /// Returns the first error that all outcomes of matches share, if any.
    ///
    /// If the matcher finishes every match, the call looks for the verdict first. If the first run
    /// meets an unfinished match, the further runs produce all errors.
    ///
    /// The call does not stop if the nodes accept, and the solver finds that within what is left.
    ///
    /// # Errors
    ///
    /// Out of memory; or one more step or one more open evaluation is needed. In the second case
    /// `work` says which.
    pub fn first_under_each<'i>(
        &self,
        alloc: Global,
        instance: &'i Value,
        work: &mut Work,
    ) -> Result<Option<ValidationError<'i>>, OutOfMemory>
        ensures depth { IfOk result (FirstFromSomeDepth K.Validate M.Matcher.own self.now (view instance.now)) }
        ensures borrows { IfOk result (λ e. IfSome e (BorrowsItsPlace (view instance.now))) }
        ensures works { OnOk result (TakesByRuns K.Validate M.Matcher.own self.now (view instance.now) validate work.old work.new) }
        ensures decides { IsDecidedWithin K.Validate M.Matcher.own self.now instance.now work.old.left
            → DecidesFromSomeDepth K.Validate M.Matcher.own self.now (view instance.now) true
            → OnErr result (work.old.stopped ≡ false → work.new.stopped ≡ false) }
    {
        let accepts = self.accepts_at_once(alloc, instance, work)?;
        if accepts {
            return Ok(None);
        }
        let (met, error) = self.first(alloc, instance, work)?;
        if !met.met_unassumed() {
            drop(met);
            return Ok(error);
        }
        drop(error);
        let shared = self.shared_errors(alloc, instance, (met, Vec::new(alloc)), work)?;
        Ok(first_of(shared))
    }

    /// Returns the errors that all outcomes of matches share, in order.
    ///
    /// If the matcher finishes every match, the call looks for the verdict first.
    ///
    /// The call does not stop if the nodes accept, and the solver finds that within what is left.
    ///
    /// # Errors
    ///
    /// Out of memory; or one more step or one more open evaluation is needed. In the second case
    /// `work` says which.
    pub fn all_under_each<'i>(
        &self,
        alloc: Global,
        instance: &'i Value,
        work: &mut Work,
    ) -> Result<Vec<ValidationError<'i>>, OutOfMemory>
        ensures depth { IfOk result (λ es. ErrorsFromSomeDepth K.Validate M.Matcher.own self.now (view instance.now) es.items) }
        ensures borrows { IfOk result (λ es. All (BorrowsItsPlace (view instance.now)) es.items) }
        ensures works { OnOk result (TakesByRuns K.Validate M.Matcher.own self.now (view instance.now) iter_errors work.old work.new) }
        ensures decides { IsDecidedWithin K.Validate M.Matcher.own self.now instance.now work.old.left
            → DecidesFromSomeDepth K.Validate M.Matcher.own self.now (view instance.now) true
            → OnErr result (work.old.stopped ≡ false → work.new.stopped ≡ false) }
    {
        let accepts = self.accepts_at_once(alloc, instance, work)?;
        if accepts {
            return Ok(Vec::new(alloc));
        }
        let (met, errors) = self.errors(alloc, instance, MatchAssumptions::new(alloc), work)?;
        if !met.met_unassumed() {
            drop(met);
            return Ok(errors);
        }
        self.shared_errors(alloc, instance, (met, errors), work)
    }

    // Returns the unit of the root's node. Nothing is assumed.
    fn unit<'i>(
        &self,
        alloc: Global,
        instance: &'i Value,
        work: &mut Work,
    ) -> Result<(MatchAssumptions<'i>, EvaluationNode), OutOfMemory>
        ensures says { IfOk result (λ r. RunGivesUnit K.Validate M.Matcher.own self.now (view instance.now) [] r.1) }
        ensures meets { IfOk result (λ r. RunMeets K.Validate M.Matcher.own self.now (view instance.now) for_units (starting []) r.0) }
        ensures assumes { IfOk result (λ r. r.0.assumptions ≡ []) }
        ensures works { OnOk result (Asks work.old work.new) }
        ensures makes_one { OnOk result (1 ≤ self.now.runs) }
    {
        let place = Place::root(alloc);
        let path = Location::new(alloc);
        let mut context = ValidationContext::new(alloc, PlacesOnDemand::of(instance));
        context.allow(*work);
        let unit = self.nodes.evaluate_instance(
            alloc,
            &self.matcher,
            self.root,
            Instance::Value(instance),
            &place,
            &path,
            &mut context,
        );
        *work = context.work();
        let met = context.into_matches();
        match unit {
            Ok(unit) => Ok((met, unit)),
            Err(refused) => {
                drop(met);
                Err(refused)
            }
        }
    }

    /// Returns the unit of the root's node.
    ///
    /// If its run meets an unfinished match, the unit is made of the errors that all outcomes
    /// share.
    ///
    /// # Errors
    ///
    /// Out of memory; or one more step or one more open evaluation is needed. In the second case
    /// `work` says which.
    pub fn evaluated_under_each(
        &self,
        alloc: Global,
        instance: &Value,
        work: &mut Work,
    ) -> Result<EvaluationNode, OutOfMemory>
        ensures depth { IfOk result (EvaluatesFromSomeDepth K.Validate M.Matcher.own self.now (view instance.now)) }
        ensures units { IfOk result (UnitsFromSomeDepth K.Validate M.Matcher.own self.now (view instance.now)) }
        ensures works { OnOk result (TakesByRuns K.Validate M.Matcher.own self.now (view instance.now) evaluate work.old work.new) }
    {
        let (met, unit) = self.unit(alloc, instance, work)?;
        if !met.met_unassumed() {
            drop(met);
            return Ok(unit);
        }
        drop(unit);
        let shared = self.shared_errors(alloc, instance, (met, Vec::new(alloc)), work)?;
        unit_of_errors(alloc, shared)
    }
}
