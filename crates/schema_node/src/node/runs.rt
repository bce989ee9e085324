//! The runs of a table of nodes, which a validator calls.
ghost use Rattle.std.specs.Prelude.{◌≡◌, ◌<◌, List, length};
ghost use Rattle.theory_definitions.specs.Keywords.{for_units};
ghost use Rattle.schema_traits.specs.KeywordViews.{mode_of};
ghost use Rattle.schema_node_table.specs.NodeTable.{NodeEntry};
ghost use Rattle.schema_run_context.specs.Progress.{NoDeeper};
ghost use Rattle.schema_node.specs.FirstQuestions.{asking_first, asking_unit};
ghost use Rattle.schema_node.specs.WholeRuns.{NodeIsEvaluated, NodeIsRun, NodeIsRunFurther, SubjectStandsIn};
ghost use Rattle.theory_runs.specs.RunStates.{GoesOn, setting_over};

use crate::node::evaluate::evaluate_root;
use crate::node::run::node_reply;
use schema_node_table::Nodes;
use schema_reports::{EvaluationNode, Instance, Location, OutOfMemory, Place};
use schema_run_context::{EvaluationPath, ValidationContext};
use schema_run_steps::{Engine, EvaluationPlace, Question};
use schema_traits::{Matcher, Mode, Reply, SchemaNode, Validate};
use std::alloc::Global;

/// The question that a run begins with.
#[derive(Clone, Copy)]
pub struct FirstQuestion<'q, 'i> {
    pub instance: Instance<'i>,
    pub place: &'q Place<'i>,
    pub path: &'q Location,
    pub mode: Mode,
}

/// A table of nodes that can be run.
///
/// It is a trait because the table belongs to the crate below.
pub trait RunNodes<K: Validate> {
    // the nodes, in the order of their numbers
    ghost table: { Self → List (NodeEntry K) };

    /// Runs a node over an instance, for its verdict or its errors.
    ///
    /// The reply is of the question's mode, and each error borrows the instance at its place. If
    /// the matcher leaves a match unfinished, its outcome is the one that the context assumes, or
    /// else "no match", and the context remembers the match.
    ///
    /// The context forgets the verdicts that it remembers first. Each verdict that it remembers
    /// after the run is the one that the node has at the place if only its own pair is in progress
    /// there. The pairs in progress and the marks are as before, except on `Err`.
    ///
    /// In the mode for the verdict, if the node's only entry is a guarded reference and the
    /// target's pair is not in progress, the visit is counted and the verdict is remembered as by
    /// `run_further`.
    ///
    /// # Errors
    ///
    /// Returns an error if memory or the context's work budget runs out, or if more questions would
    /// be open at once than that budget says.
    fn run<'i, M: Matcher>(
        &self,
        alloc: Global,
        matcher: &M,
        node: SchemaNode,
        question: &FirstQuestion<'_, 'i>,
        context: &mut ValidationContext<'i>,
    ) -> Result<Reply<'i>, OutOfMemory>
        requires known { node.0 < length (table self.now) }
        requires above { NoDeeper question.now.place.now context.old.in_progress }
        requires stands { SubjectStandsIn context.old (asking_first question.now) }
        requires wanted { ¬ (mode_of question.now.mode ≡ for_units) }
        ensures { NodeIsRun K.words K.is_whole K.shape M.matching (table self.now) matcher.now
            (asking_first question.now) node.0 context.old context.new result };

    /// Runs a node as a part of a run that has begun.
    ///
    /// It does what `run` does, but reads the verdicts that the context remembers, and keeps them.
    /// The number of visits never decreases.
    ///
    /// In the mode for the verdict, if the node's only entry is a guarded reference and the
    /// target's pair is not in progress, the verdict is the one that `get_cached_result` returns.
    /// Then the context stays the same, except that the node is counted. If it returns none, the
    /// visit is counted, and the verdict is remembered if it took enough visits, the instance is an
    /// array or an object, and no other node is in progress at the place.
    ///
    /// # Errors
    ///
    /// Returns an error if memory or the context's work budget runs out, or if more questions would
    /// be open at once than that budget says.
    fn run_further<'i, M: Matcher>(
        &self,
        alloc: Global,
        matcher: &M,
        node: SchemaNode,
        question: &FirstQuestion<'_, 'i>,
        context: &mut ValidationContext<'i>,
    ) -> Result<Reply<'i>, OutOfMemory>
        requires known { node.0 < length (table self.now) }
        requires above { NoDeeper question.now.place.now context.old.in_progress }
        requires stands { SubjectStandsIn context.old (asking_first question.now) }
        requires wanted { ¬ (mode_of question.now.mode ≡ for_units) }
        requires goes_on { GoesOn (setting_over K.words K.is_whole K.shape (table self.now) (M.matching matcher.now))
            (asking_first question.now) context.old }
        ensures { NodeIsRunFurther K.words K.is_whole K.shape M.matching (table self.now) matcher.now
            (asking_first question.now) node.0 context.old context.new result };

    /// Evaluates a node over an instance, and returns the node's unit.
    ///
    /// The unit has one child for each of the node's entries, in their order. If the matcher leaves
    /// a match unfinished, its outcome is the one that the context assumes, or else "no match", and
    /// the context remembers the match.
    ///
    /// The context forgets the verdicts that it remembers first. Each verdict that it remembers
    /// afterwards is the one that the node has at the place if only its own pair is in progress
    /// there. The pairs in progress and the marks are as before, except on `Err`.
    ///
    /// # Errors
    ///
    /// Returns an error if memory or the context's work budget runs out, or if more questions would
    /// be open at once than that budget says.
    fn evaluate_instance<'i, M: Matcher>(
        &self,
        alloc: Global,
        matcher: &M,
        node: SchemaNode,
        instance: Instance<'i>,
        place: &Place<'i>,
        path: &Location,
        context: &mut ValidationContext<'i>,
    ) -> Result<EvaluationNode, OutOfMemory>
        requires known { node.0 < length (table self.now) }
        requires above { NoDeeper place.now context.old.in_progress }
        requires stands { SubjectStandsIn context.old (asking_unit instance place.now path.now) }
        ensures { NodeIsEvaluated K.words K.is_whole K.shape M.matching (table self.now) matcher.now
            (asking_unit instance.entry place.now path.now) node.0 context.old context.new result };
}

impl<K: Validate> RunNodes<K> for Nodes<K> {
    ghost table = { λ n. n };

    fn run<'i, M: Matcher>(
        &self,
        alloc: Global,
        matcher: &M,
        node: SchemaNode,
        question: &FirstQuestion<'_, 'i>,
        context: &mut ValidationContext<'i>,
    ) -> Result<Reply<'i>, OutOfMemory> {
        context.forget_verdicts();
        self.run_further(alloc, matcher, node, question, context)
    }

    fn run_further<'i, M: Matcher>(
        &self,
        alloc: Global,
        matcher: &M,
        node: SchemaNode,
        question: &FirstQuestion<'_, 'i>,
        context: &mut ValidationContext<'i>,
    ) -> Result<Reply<'i>, OutOfMemory> {
        self.assert_ordered();
        let place = EvaluationPlace::given(question.place);
        let path = EvaluationPath::given(question.path);
        let engine = Engine {
            nodes: self,
            alloc,
            matcher,
            deepest: context.work().depth_limit(),
        };
        let asked = Question {
            instance: question.instance,
            place: &place,
            path: &path,
            mode: question.mode,
            depth: 0,
        };
        node_reply(&engine, node, &asked, context)
    }

    fn evaluate_instance<'i, M: Matcher>(
        &self,
        alloc: Global,
        matcher: &M,
        node: SchemaNode,
        instance: Instance<'i>,
        place: &Place<'i>,
        path: &Location,
        context: &mut ValidationContext<'i>,
    ) -> Result<EvaluationNode, OutOfMemory> {
        self.assert_ordered();
        context.forget_verdicts();
        let place = EvaluationPlace::given(place);
        let path = EvaluationPath::given(path);
        let engine = Engine {
            nodes: self,
            alloc,
            matcher,
            deepest: context.work().depth_limit(),
        };
        let question = Question {
            instance,
            place: &place,
            path: &path,
            mode: Mode::Evaluate,
            depth: 0,
        };
        evaluate_root(&engine, node, &question, context)
    }
}
