//! Evaluates nodes over instances: builds their units.
//!
//! These functions form a cycle of their own and are not a further mode of `run`, because a run
//! never requests the unit of a child, by the law of the keyword type.
ghost use Rattle.std.specs.Prelude.{◌≡◌};
ghost use Rattle.schema_run_context.specs.Works.{HasRoom};
ghost use Rattle.schema_node.specs.Premises.{ChildMayEvaluate, EntriesMayEvaluate, EntryMayEvaluate, KeywordMayEvaluate, NodeMayEvaluate};
ghost use Rattle.schema_node.specs.RunAnswers.{UnitOfChild, UnitOfEdge, UnitOfNode, UnitOfPlan, UnitsOfEntries, UnitsOfEntry};
ghost use Rattle.schema_node.specs.RunAnswers.{UnitsOfKeyword};

use crate::node::turns::keyword_answer;
use schema_node_table::{Entry, EntryForm, NodeForm};
use schema_reports::{ChildList, EvaluationNode, OutOfMemory, SharedLocation};
use schema_run_context::{ValidationContext, child_edge};
use schema_run_steps::{
    Engine, EntryUnits, GuardedPair, NamedKeyword, Question, UnitsInOrder, accepting_unit,
    entries_unit, one_below, open_question, refusing_unit, unasked_unit, units_of_keyword,
    units_of_reference,
};
use schema_traits::{Below, Edge, Matcher, SchemaNode, Validate};

// Returns the unit of the node with which an evaluation begins. The engine has the context's limit
// on depth.
pub(crate) fn evaluate_root<'i, K: Validate, M: Matcher>(
    engine: &Engine<'_, K, M>,
    node: SchemaNode,
    question: &Question<'_, 'i>,
    context: &mut ValidationContext<'i>,
) -> Result<EvaluationNode, OutOfMemory>
    requires may_evaluate { NodeMayEvaluate K.Validate M.Matcher.own engine.now question.now context.old node.0 }
    requires limit { engine.now.deepest ≡ context.old.work.deepest }
    ensures { UnitOfNode K.Validate M.Matcher.own engine.now question.now node.0 context.old context.new result }
{
    evaluate_node(engine, node, question, context)
}

// Returns the unit of a node at a place. Counts the node, and stops if too many questions are open.
#[cycle(run)]
fn evaluate_node<'i, K: Validate, M: Matcher>(
    engine: &Engine<'_, K, M>,
    node: SchemaNode,
    question: &Question<'_, 'i>,
    context: &mut ValidationContext<'i>,
) -> Result<EvaluationNode, OutOfMemory>
    requires { NodeMayEvaluate K.Validate M.Matcher.own engine.now question.now context.old node.0 }
    ensures { UnitOfNode K.Validate M.Matcher.own engine.now question.now node.0 context.old context.new result }
{
    open_question(engine, question, context)?;
    evaluate_plan(engine, node, question, context)
}

#[cycle(run)]
#[inline(always)]
fn evaluate_plan<'i, K: Validate, M: Matcher>(
    engine: &Engine<'_, K, M>,
    node: SchemaNode,
    question: &Question<'_, 'i>,
    context: &mut ValidationContext<'i>,
) -> Result<EvaluationNode, OutOfMemory>
    requires may_evaluate { NodeMayEvaluate K.Validate M.Matcher.own engine.now question.now context.old node.0 }
    requires room { HasRoom engine.now.deepest question.now.depth }
    ensures { UnitOfPlan K.Validate M.Matcher.own engine.now question.now node.0 context.old context.new result }
{
    let found = engine.nodes.node(node);
    match &found.form {
        None => accepting_unit(engine.alloc, found, question, context),
        Some(form) => match form {
            NodeForm::Always => accepting_unit(engine.alloc, found, question, context),
            NodeForm::Never => refusing_unit(engine.alloc, found, question, context),
            NodeForm::Keywords(entries) => {
                let kept = context.node_texts(engine.alloc, question.path, &found.location)?;
                let place = question.place.pointer(engine.alloc)?;
                let pointer = SharedLocation::new(engine.alloc, place)?;
                let path = question.path.kept(&kept);
                let asked = Question {
                    path: &path,
                    ..*question
                };
                let children = evaluate_entries(
                    engine,
                    node,
                    entries.as_slice(),
                    &asked,
                    &pointer,
                    context,
                )?;
                entries_unit(engine.alloc, found, kept, pointer, children)
            }
        },
    }
}

// Returns the units of the entries, in their order. Every entry is evaluated, and none is checked
// for its verdict first.
#[cycle(run)]
fn evaluate_entries<'i, K: Validate, M: Matcher>(
    engine: &Engine<'_, K, M>,
    node: SchemaNode,
    entries: &[Entry<K>],
    question: &Question<'_, 'i>,
    pointer: &SharedLocation,
    context: &mut ValidationContext<'i>,
) -> Result<ChildList, OutOfMemory>
    requires { EntriesMayEvaluate K.Validate M.Matcher.own engine.now question.now context.old node.0 entries.now pointer.now }
    ensures { UnitsOfEntries K.Validate M.Matcher.own engine.now question.now node.0 entries.now context.old context.new result }
{
    let mut units = UnitsInOrder::new(engine.alloc, entries.len())?;
    for entry in entries {
        let given = evaluate_entry(engine, node, entry, question, pointer, context)?;
        units.place(entry.priority, given)?;
    }
    units.into_children()
}

#[cycle(run)]
fn evaluate_entry<'i, K: Validate, M: Matcher>(
    engine: &Engine<'_, K, M>,
    node: SchemaNode,
    entry: &Entry<K>,
    question: &Question<'_, 'i>,
    pointer: &SharedLocation,
    context: &mut ValidationContext<'i>,
) -> Result<EntryUnits, OutOfMemory>
    requires { EntryMayEvaluate K.Validate M.Matcher.own engine.now question.now context.old node.0 entry.now pointer.now }
    ensures { UnitsOfEntry K.Validate M.Matcher.own engine.now question.now node.0 entry.now context.old context.new result }
{
    match &entry.form {
        EntryForm::Keyword(keyword, children) => {
            let named = NamedKeyword {
                name: &entry.name,
                keyword,
                children: children.as_slice(),
            };
            evaluate_keyword(engine, node, &named, question, pointer, context)
        }
        EntryForm::Reference(edge) => {
            let path = question.path.under_reference();
            let asked = Question {
                path: &path,
                ..*question
            };
            let unit = evaluate_edge(engine, edge, &asked, context)?;
            units_of_reference(engine.alloc, &entry.name, question, unit, context)
        }
    }
}

#[cycle(run)]
fn evaluate_keyword<'i, K: Validate, M: Matcher>(
    engine: &Engine<'_, K, M>,
    node: SchemaNode,
    keyword: &NamedKeyword<'_, K>,
    question: &Question<'_, 'i>,
    pointer: &SharedLocation,
    context: &mut ValidationContext<'i>,
) -> Result<EntryUnits, OutOfMemory>
    requires { KeywordMayEvaluate K.Validate M.Matcher.own engine.now question.now context.old node.0 keyword.now pointer.now }
    ensures { UnitsOfKeyword K.Validate M.Matcher.own engine.now question.now node.0 keyword.now context.old context.new result }
{
    let answer = keyword_answer(engine, node, keyword, question, context)?;
    units_of_keyword(
        engine.alloc,
        engine.nodes.node(node),
        keyword.name,
        question,
        pointer,
        answer,
        context,
    )
}

// Returns the unit of a keyword's child, at the same place or one step below. If the keyword's
// request got no child, it is a valid unit at empty locations.
#[cycle(run)]
pub(crate) fn evaluate_child<'i, K: Validate, M: Matcher>(
    engine: &Engine<'_, K, M>,
    node: SchemaNode,
    children: &[Option<Edge>],
    child: usize,
    below: Below<'_>,
    question: &Question<'_, 'i>,
    context: &mut ValidationContext<'i>,
) -> Result<EvaluationNode, OutOfMemory>
    requires { ChildMayEvaluate K.Validate M.Matcher.own engine.now question.now context.old node.0 children.now below }
    ensures { UnitOfChild K.Validate M.Matcher.own engine.now question.now node.0 children.now child below.entry context.old context.new
        result }
{
    match child_edge(children, child) {
        None => unasked_unit(engine.alloc),
        Some(edge) => match one_below(question.instance, below) {
            None => evaluate_edge(engine, edge, question, context),
            Some((inner, step)) => {
                let lower = question.place.below(step);
                let asked = Question {
                    instance: inner,
                    place: &lower,
                    ..*question
                };
                evaluate_edge(engine, edge, &asked, context)
            }
        },
    }
}

// Returns the unit of the node that an edge leads to. If the edge is guarded and the pair is in
// progress, it is the unit of a node that accepts every instance.
#[cycle(run)]
fn evaluate_edge<'i, K: Validate, M: Matcher>(
    engine: &Engine<'_, K, M>,
    edge: &Edge,
    question: &Question<'_, 'i>,
    context: &mut ValidationContext<'i>,
) -> Result<EvaluationNode, OutOfMemory>
    requires { NodeMayEvaluate K.Validate M.Matcher.own engine.now question.now context.old edge.now.node.0 }
    ensures { UnitOfEdge K.Validate M.Matcher.own engine.now question.now edge.now context.old context.new result }
{
    let whole = question.path.across(&edge.path);
    if !edge.guarded {
        let depth = question.depth_below();
        let asked = Question {
            path: &whole,
            depth,
            ..*question
        };
        return evaluate_node(engine, edge.node, &asked, context);
    }
    let pair = GuardedPair::new(context, edge.node, question.place)?;
    let place = pair.numbered_place();
    let depth = question.depth_below();
    let asked = Question {
        place: &place,
        path: &whole,
        depth,
        ..*question
    };
    if pair.is_in_progress(context) {
        return accepting_unit(engine.alloc, engine.nodes.node(edge.node), &asked, context);
    }
    pair.enter(context)?;
    let unit = evaluate_node(engine, edge.node, &asked, context)?;
    pair.exit(context);
    Ok(unit)
}
