//! Runs nodes over instances for the verdict alone.
//!
//! A level of an instance takes little stack space, because no reply is moved, only a truth value.
//! That is why these functions form a cycle of their own. If they were shared with the runs for
//! errors, each level would hold room for errors.
//!
//! Only the functions of shared and guarded edges read and remember verdicts. The contracts state
//! this for a node whose only entry is a guarded reference. They do not state it for what a
//! keyword's turns request, so a body that remembers nothing there could be proved too, but would
//! be slower.
ghost use Rattle.schema_traits.specs.KeywordViews.{below_of};
ghost use Rattle.schema_traits.specs.EdgeViews.{edge_of};
ghost use Rattle.schema_run_context.specs.Works.{HasRoom};
ghost use Rattle.theory_runs.specs.Answered.{a_guarded, a_node, a_plan, a_shared};
ghost use Rattle.theory_runs.specs.Answered.{the_child, the_entries};
ghost use Rattle.schema_node.specs.Premises.{EdgeIsAsked, EntryIsAsked, VerdictIsAsked};
ghost use Rattle.schema_node.specs.RunAnswers.{EdgeIsTold, EntryIsTold, VerdictIsTold};

use crate::node::verdict_asking::asked_verdict;
use crate::node::verdict_turns::keyword_verdict;
use schema_node_table::{Entry, EntryForm, NodeForm};
use schema_reports::OutOfMemory;
use schema_run_context::{ValidationContext, child_edge};
use schema_run_steps::{Engine, GuardedPair, NamedKeyword, Question, one_below, open_question};
use schema_traits::{Below, Edge, Matcher, SchemaNode, Validate};

// Returns the verdict of a node at a place. Counts the node, and stops if too many questions are
// open.
#[cycle(verdict)]
pub(crate) fn verdict_node<'i, K: Validate, M: Matcher>(
    engine: &Engine<'_, K, M>,
    node: SchemaNode,
    question: &Question<'_, 'i>,
    context: &mut ValidationContext<'i>,
) -> Result<bool, OutOfMemory>
    requires { VerdictIsAsked K.Validate M.Matcher.own engine.now question.now (a_node node.0) context.old }
    ensures { VerdictIsTold K.Validate M.Matcher.own engine.now question.now (a_node node.0) context.old context.new result }
{
    open_question(engine, question, context)?;
    verdict_plan(engine, node, question, context)
}

#[cycle(verdict)]
#[inline(always)]
fn verdict_plan<'i, K: Validate, M: Matcher>(
    engine: &Engine<'_, K, M>,
    node: SchemaNode,
    question: &Question<'_, 'i>,
    context: &mut ValidationContext<'i>,
) -> Result<bool, OutOfMemory>
    requires asked { VerdictIsAsked K.Validate M.Matcher.own engine.now question.now (a_plan node.0) context.old }
    requires room { HasRoom engine.now.deepest question.now.depth }
    ensures { VerdictIsTold K.Validate M.Matcher.own engine.now question.now (a_plan node.0) context.old context.new result }
{
    match &engine.nodes.node(node).form {
        None => Ok(true),
        Some(form) => match form {
            NodeForm::Always => Ok(true),
            NodeForm::Never => Ok(false),
            NodeForm::Keywords(entries) => verdict_entries(
                engine,
                node,
                entries.as_slice(),
                question,
                context,
            ),
        },
    }
}

// Returns the verdict of the entries, in their order. Stops at the first one that is invalid.
#[cycle(verdict)]
fn verdict_entries<'i, K: Validate, M: Matcher>(
    engine: &Engine<'_, K, M>,
    node: SchemaNode,
    entries: &[Entry<K>],
    question: &Question<'_, 'i>,
    context: &mut ValidationContext<'i>,
) -> Result<bool, OutOfMemory>
    requires { VerdictIsAsked K.Validate M.Matcher.own engine.now question.now (the_entries K.shape node.0 entries.now) context.old }
    ensures { VerdictIsTold K.Validate M.Matcher.own engine.now question.now (the_entries K.shape node.0 entries.now) context.old
        context.new result }
{
    for entry in entries {
        let valid = verdict_form(engine, node, entry, question, context)?;
        if !valid {
            return Ok(false);
        }
    }
    Ok(true)
}

// Returns the verdict of an entry's keyword, or of the node that its reference leads to. A keyword
// that reports its verdict at once needs no run.
#[cycle(verdict)]
pub(crate) fn verdict_form<'i, K: Validate, M: Matcher>(
    engine: &Engine<'_, K, M>,
    node: SchemaNode,
    entry: &Entry<K>,
    question: &Question<'_, 'i>,
    context: &mut ValidationContext<'i>,
) -> Result<bool, OutOfMemory>
    requires { EntryIsAsked K.Validate M.Matcher.own engine.now question.now node.0 entry.now context.old }
    ensures { EntryIsTold K.Validate M.Matcher.own engine.now question.now node.0 entry.now context.old context.new result }
{
    match &entry.form {
        EntryForm::Keyword(keyword, children) => {
            if let Some(valid) = keyword.is_valid_at_once(question.instance) {
                return Ok(valid);
            }
            if engine.matcher.finishes() {
                return verdict_keyword(engine, node, entry, question, context);
            }
            let named = NamedKeyword {
                name: &entry.name,
                keyword,
                children: children.as_slice(),
            };
            keyword_verdict(engine, node, &named, question, context)
        }
        EntryForm::Reference(edge) => verdict_reference(engine, edge, question, context),
    }
}

// Returns the verdict of an entry by the questions that its keyword asks up front, or by a run if
// it asks none. Not inlined, so that a keyword that reports its verdict at once does not pay for
// its stack frame. It takes the whole entry and matches its form again, so that the caller can make
// this call its last one and release its own frame first.
#[cycle(verdict)]
#[inline(never)]
fn verdict_keyword<'i, K: Validate, M: Matcher>(
    engine: &Engine<'_, K, M>,
    node: SchemaNode,
    entry: &Entry<K>,
    question: &Question<'_, 'i>,
    context: &mut ValidationContext<'i>,
) -> Result<bool, OutOfMemory>
    requires { EntryIsAsked K.Validate M.Matcher.own engine.now question.now node.0 entry.now context.old }
    ensures { EntryIsTold K.Validate M.Matcher.own engine.now question.now node.0 entry.now context.old context.new result }
{
    match &entry.form {
        EntryForm::Keyword(keyword, children) => {
            let named = NamedKeyword {
                name: &entry.name,
                keyword,
                children: children.as_slice(),
            };
            asked_verdict(engine, node, &named, question, context)
        }
        EntryForm::Reference(edge) => verdict_reference(engine, edge, question, context),
    }
}

// Returns the verdict of the node that a reference leads to. Not inlined, for the same reason.
#[cycle(verdict)]
#[inline(never)]
fn verdict_reference<'i, K: Validate, M: Matcher>(
    engine: &Engine<'_, K, M>,
    edge: &Edge,
    question: &Question<'_, 'i>,
    context: &mut ValidationContext<'i>,
) -> Result<bool, OutOfMemory>
    requires { EdgeIsAsked K.Validate M.Matcher.own engine.now question.now edge.now context.old }
    ensures { EdgeIsTold K.Validate M.Matcher.own engine.now question.now edge.now context.old context.new result }
{
    let path = question.path.under_reference();
    let asked = Question {
        path: &path,
        ..*question
    };
    verdict_edge(engine, edge, &asked, context)
}

// Returns the verdict of a keyword's child, at the same place or one step below. It is `true` if
// the keyword's request got no child.
#[cycle(verdict)]
#[inline(always)]
pub(crate) fn verdict_child<'i, K: Validate, M: Matcher>(
    engine: &Engine<'_, K, M>,
    node: SchemaNode,
    children: &[Option<Edge>],
    child: usize,
    below: Below<'_>,
    question: &Question<'_, 'i>,
    context: &mut ValidationContext<'i>,
) -> Result<bool, OutOfMemory>
    requires { VerdictIsAsked K.Validate M.Matcher.own engine.now question.now (the_child node.0 children.now child (below_of below))
        context.old }
    ensures { VerdictIsTold K.Validate M.Matcher.own engine.now question.now (the_child node.0 children.now child (below_of below.entry))
        context.old context.new result }
{
    match child_edge(children, child) {
        None => Ok(true),
        Some(edge) => match one_below(question.instance, below) {
            None => verdict_edge(engine, edge, question, context),
            Some((inner, step)) => {
                let lower = question.place.below(step);
                let asked = Question {
                    instance: inner,
                    place: &lower,
                    ..*question
                };
                verdict_edge(engine, edge, &asked, context)
            }
        },
    }
}

// Returns the verdict of the node that an edge leads to. It is `true` if the edge is guarded and
// the pair is in progress. A shared node is evaluated once for each place.
#[cycle(verdict)]
pub(crate) fn verdict_edge<'i, K: Validate, M: Matcher>(
    engine: &Engine<'_, K, M>,
    edge: &Edge,
    question: &Question<'_, 'i>,
    context: &mut ValidationContext<'i>,
) -> Result<bool, OutOfMemory>
    requires { EdgeIsAsked K.Validate M.Matcher.own engine.now question.now edge.now context.old }
    ensures { EdgeIsTold K.Validate M.Matcher.own engine.now question.now edge.now context.old context.new result }
{
    if edge.guarded {
        return guarded_verdict(engine, edge, question, context);
    }
    let whole = question.path.across(&edge.path);
    let depth = question.depth_below();
    let asked = Question {
        path: &whole,
        depth,
        ..*question
    };
    if engine.nodes.is_shared(edge.node) {
        return shared_verdict(engine, edge.node, &asked, context);
    }
    verdict_node(engine, edge.node, &asked, context)
}

// Returns the verdict of a shared node. It does not depend on what is in progress at the place, so
// the node is evaluated there once and its verdict is remembered. Not inlined, so that other nodes
// do not pay for its stack frame.
#[cycle(verdict)]
#[inline(never)]
fn shared_verdict<'i, K: Validate, M: Matcher>(
    engine: &Engine<'_, K, M>,
    node: SchemaNode,
    question: &Question<'_, 'i>,
    context: &mut ValidationContext<'i>,
) -> Result<bool, OutOfMemory>
    requires { VerdictIsAsked K.Validate M.Matcher.own engine.now question.now (a_shared node.0) context.old }
    ensures { VerdictIsTold K.Validate M.Matcher.own engine.now question.now (a_shared node.0) context.old context.new result }
{
    let pair = GuardedPair::new(context, node, question.place)?;
    if let Some(valid) = pair.lasting_verdict(context) {
        return Ok(valid);
    }
    let place = pair.numbered_place();
    let asked = Question {
        place: &place,
        ..*question
    };
    let valid = verdict_node(engine, node, &asked, context)?;
    pair.remember_verdict(context, valid)?;
    Ok(valid)
}

// Returns the verdict of the node that a guarded edge leads to. It is `true` if the pair is in
// progress, or else the remembered one, if there is one. A new verdict is remembered if it may be.
// Not inlined, so that other edges do not pay for its stack frame.
#[cycle(verdict)]
#[inline(never)]
fn guarded_verdict<'i, K: Validate, M: Matcher>(
    engine: &Engine<'_, K, M>,
    edge: &Edge,
    question: &Question<'_, 'i>,
    context: &mut ValidationContext<'i>,
) -> Result<bool, OutOfMemory>
    requires { VerdictIsAsked K.Validate M.Matcher.own engine.now question.now (a_guarded (edge_of edge.now)) context.old }
    ensures { VerdictIsTold K.Validate M.Matcher.own engine.now question.now (a_guarded (edge_of edge.now)) context.old context.new result }
{
    let pair = GuardedPair::new(context, edge.node, question.place)?;
    if let Some(valid) = pair.known_verdict(context) {
        return Ok(valid);
    }
    pair.enter(context)?;
    let place = pair.numbered_place();
    let whole = question.path.across(&edge.path);
    let depth = question.depth_below();
    let asked = Question {
        place: &place,
        path: &whole,
        depth,
        ..*question
    };
    let mark = context.start_ref_visit();
    let valid = verdict_node(engine, edge.node, &asked, context)?;
    pair.keep_verdict(context, question.instance, valid, mark)?;
    pair.exit(context);
    Ok(valid)
}
