//! The verdict of a node and of its entries, by a solver.
ghost use Rattle.std.specs.Prelude.{IfSome};
ghost use Rattle.schema_reports.specs.InstanceViews.{subject_of};
ghost use Rattle.schema_run_context.specs.Works.{HasRoom};
ghost use Rattle.schema_solver.specs.Solved.{a_node, the_edge, the_entries, the_entry};
ghost use Rattle.schema_solver.specs.Calls.{Answers, CanAsk};
ghost use Rattle.schema_solver.specs.ToldAtOnce.{TellsAtOnce};

use crate::question::{Asked, SolverEngine};
use crate::solve::asking::solve_asked;
use crate::solve::edges::solve_edge;
use crate::told::Told;
use schema_node_table::{Entry, EntryForm, NodeForm};
use schema_reports::Instance;
use schema_solver_state::SolverContext;
use schema_traits::{Edge, Matcher, SchemaNode, Validate};

// Returns the verdict of a node at a place.
#[cycle(verdict)]
#[inline(always)]
pub(crate) fn solve_node<'i, K: Validate, M: Matcher>(
    engine: &SolverEngine<'_, K, M>,
    node: SchemaNode,
    question: &Asked<'_, 'i>,
    context: &mut SolverContext<'i>,
) -> Told
    requires can_ask { CanAsk K.Validate M.Matcher.own engine.now question.now (a_node node.0) context.old }
    requires room { HasRoom engine.now.deepest question.now.depth }
    ensures { Answers K.Validate M.Matcher.own engine.now question.now (a_node node.0) context.old context.new result }
{
    match &engine.nodes.node(node).form {
        None => Told::settled(true),
        Some(form) => match form {
            NodeForm::Always => Told::settled(true),
            NodeForm::Never => Told::settled(false),
            NodeForm::Keywords(entries) => {
                solve_entries(engine, node, entries.as_slice(), question, context)
            }
        },
    }
}

// Returns whether an entry accepts the instance, if its keyword decides without questions.
#[inline(always)]
fn told_at_once<K: Validate>(entry: &Entry<K>, instance: Instance<'_>) -> Option<bool>
    ensures tells { IfSome result (TellsAtOnce K.words K.is_whole K.shape (subject_of instance.entry) entry.now) }
{
    match &entry.form {
        EntryForm::Keyword(keyword, _) => keyword.is_valid_at_once(instance),
        EntryForm::Reference(_) => None,
    }
}

// Returns the verdict of the entries; nothing is evaluated after an "invalid". Keywords that decide
// without questions are evaluated here, even after the first one that has questions. So a node with
// no other keywords needs no further stack frame, and if only one entry has questions, its call is
// the last. If there are more, they are evaluated one after another.
#[cycle(verdict)]
#[inline(always)]
fn solve_entries<'i, K: Validate, M: Matcher>(
    engine: &SolverEngine<'_, K, M>,
    node: SchemaNode,
    entries: &[Entry<K>],
    question: &Asked<'_, 'i>,
    context: &mut SolverContext<'i>,
) -> Told
    requires { CanAsk K.Validate M.Matcher.own engine.now question.now (the_entries K.shape node.0 entries.now) context.old }
    ensures { Answers K.Validate M.Matcher.own engine.now question.now (the_entries K.shape node.0 entries.now)
        context.old context.new result }
{
    let mut waits: Option<usize> = None;
    for (place, entry) in entries.iter().enumerate() {
        match told_at_once(entry, question.instance) {
            None => match waits {
                None => waits = Some(place),
                Some(first) => return solve_left(
                    engine,
                    node,
                    &entries[first..],
                    question,
                    context,
                ),
            },
            Some(valid) => {
                if !valid {
                    return Told::settled(false);
                }
            },
        }
    }
    match waits {
        None => Told::settled(true),
        Some(first) => solve_keyword(engine, node, &entries[first], question, context),
    }
}

// Returns the verdict of the entries, in order; nothing is evaluated after an "invalid". A "valid"
// is provisional if one of theirs is. Not inlined, so that the fast path does not pay for its stack
// frame.
#[cycle(verdict)]
#[inline(never)]
fn solve_left<'i, K: Validate, M: Matcher>(
    engine: &SolverEngine<'_, K, M>,
    node: SchemaNode,
    entries: &[Entry<K>],
    question: &Asked<'_, 'i>,
    context: &mut SolverContext<'i>,
) -> Told
    requires { CanAsk K.Validate M.Matcher.own engine.now question.now (the_entries K.shape node.0 entries.now) context.old }
    ensures { Answers K.Validate M.Matcher.own engine.now question.now (the_entries K.shape node.0 entries.now)
        context.old context.new result }
{
    let mut leans = false;
    for entry in entries {
        let told = solve_form(engine, node, entry, question, context);
        if told.ends(true) {
            return told;
        }
        leans |= told.leans();
    }
    Told::of(true, leans)
}

// Returns the verdict of an entry's keyword, or of the node that its reference leads to. A keyword
// that decides without questions takes no run. The question of a reference counts, since other
// entries may come after it.
#[cycle(verdict)]
fn solve_form<'i, K: Validate, M: Matcher>(
    engine: &SolverEngine<'_, K, M>,
    node: SchemaNode,
    entry: &Entry<K>,
    question: &Asked<'_, 'i>,
    context: &mut SolverContext<'i>,
) -> Told
    requires { CanAsk K.Validate M.Matcher.own engine.now question.now (the_entry K.shape node.0 entry.now) context.old }
    ensures { Answers K.Validate M.Matcher.own engine.now question.now (the_entry K.shape node.0 entry.now) context.old context.new result }
{
    match &entry.form {
        EntryForm::Keyword(keyword, _) => {
            if let Some(valid) = keyword.is_valid_at_once(question.instance) {
                return Told::settled(valid);
            }
            solve_keyword(engine, node, entry, question, context)
        }
        EntryForm::Reference(edge) => {
            let depth = question.depth_below();
            let here = Asked { depth, ..*question };
            solve_edge(engine, edge, &here, context)
        }
    }
}

// Returns the verdict of an entry's keyword by the questions that it asks up front, or by a run.
// Not inlined, so that the fast path does not pay for its stack frame.
#[cycle(verdict)]
#[inline(never)]
fn solve_keyword<'i, K: Validate, M: Matcher>(
    engine: &SolverEngine<'_, K, M>,
    node: SchemaNode,
    entry: &Entry<K>,
    question: &Asked<'_, 'i>,
    context: &mut SolverContext<'i>,
) -> Told
    requires { CanAsk K.Validate M.Matcher.own engine.now question.now (the_entry K.shape node.0 entry.now) context.old }
    ensures { Answers K.Validate M.Matcher.own engine.now question.now (the_entry K.shape node.0 entry.now) context.old context.new result }
{
    match &entry.form {
        EntryForm::Keyword(keyword, children) => {
            solve_asked(
                engine,
                node,
                &entry.name,
                keyword,
                children,
                question,
                context,
            )
        },
        EntryForm::Reference(edge) => solve_reference(engine, edge, question, context),
    }
}

// Returns the verdict of the node that a reference leads to. Not inlined, so that a chain of
// references takes only small stack frames.
#[cycle(verdict)]
#[inline(never)]
fn solve_reference<'i, K: Validate, M: Matcher>(
    engine: &SolverEngine<'_, K, M>,
    edge: &Edge,
    question: &Asked<'_, 'i>,
    context: &mut SolverContext<'i>,
) -> Told
    requires { CanAsk K.Validate M.Matcher.own engine.now question.now (the_edge edge.now) context.old }
    ensures { Answers K.Validate M.Matcher.own engine.now question.now (the_edge edge.now) context.old context.new result }
{
    solve_edge(engine, edge, question, context)
}

// Returns the verdict of a node. Not inlined, so that the function that begins a pair has a smaller
// stack frame.
#[cycle(verdict)]
#[inline(never)]
pub(crate) fn solve_node_apart<'i, K: Validate, M: Matcher>(
    engine: &SolverEngine<'_, K, M>,
    node: SchemaNode,
    question: &Asked<'_, 'i>,
    context: &mut SolverContext<'i>,
) -> Told
    requires can_ask { CanAsk K.Validate M.Matcher.own engine.now question.now (a_node node.0) context.old }
    requires room { HasRoom engine.now.deepest question.now.depth }
    ensures { Answers K.Validate M.Matcher.own engine.now question.now (a_node node.0) context.old context.new result }
{
    solve_node(engine, node, question, context)
}
