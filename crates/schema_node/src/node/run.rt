//! Runs nodes over instances, for the first error or for all errors.
//!
//! Some items of arrays are checked for their verdict first, so that items without errors cost no
//! more than a verdict. This is done only if the matcher finishes every match, because a run for
//! the verdict may meet matches that a run for errors does not meet. It is also done only if the
//! replies to the earlier children let a valid item be expected, which `turns` counts. An item that
//! is validated twice counts twice as work.
ghost use Rattle.std.specs.Prelude.{◌≡◌, true};
ghost use Rattle.schema_run_context.specs.Works.{HasRoom};
ghost use Rattle.schema_node.specs.Premises.{ChildMayRun, EntriesMayRun, EntryMayRun, FinishesAll, KeywordMayRun, NodeMayBeRefused};
ghost use Rattle.schema_node.specs.Premises.{NodeMayReply, NodeMayRun};
ghost use Rattle.schema_node.specs.RunAnswers.{AnswerOfNode, ReplyOfChild, ReplyOfEdge, ReplyOfEntries, ReplyOfEntry, ReplyOfForm};
ghost use Rattle.schema_node.specs.RunAnswers.{ReplyOfKeyword, ReplyOfNode, ReplyOfPlan};

use crate::node::turns::keyword_answer;
use crate::node::verdict::{verdict_edge, verdict_form, verdict_node};
use schema_node_table::{Entry, EntryForm, NodeForm};
use schema_reports::{InstanceStep, OutOfMemory};
use schema_run_context::{ValidationContext, child_edge};
use schema_run_steps::{
    Engine, EvaluationPlace, GuardedPair, NamedKeyword, Question, accepted, finished, is_settled,
    joined, one_below, open_question, refused, stamped_reply,
};
use schema_traits::{Below, Edge, Matcher, Mode, Reply, SchemaNode, Validate};

// Returns the reply of a node at a place: its verdict or its errors, by the mode. The engine has the
// context's limit on depth.
pub(crate) fn node_reply<'i, K: Validate, M: Matcher>(
    engine: &Engine<'_, K, M>,
    node: SchemaNode,
    question: &Question<'_, 'i>,
    context: &mut ValidationContext<'i>,
) -> Result<Reply<'i>, OutOfMemory>
    requires may_reply { NodeMayReply K.Validate M.Matcher.own engine.now question.now context.old node.0 }
    requires limit { engine.now.deepest ≡ context.old.work.deepest }
    ensures { AnswerOfNode K.Validate M.Matcher.own engine.now question.now node.0 context.old context.new result }
{
    match question.mode {
        Mode::Verdict => {
            let valid = verdict_node(engine, node, question, context)?;
            Ok(Reply::Truth(valid))
        }
        _ => run_node(engine, node, question, context),
    }
}

// Returns the reply of a node at a place, in a mode for errors. Counts the node, and stops if too
// many questions are open.
#[cycle(run)]
fn run_node<'i, K: Validate, M: Matcher>(
    engine: &Engine<'_, K, M>,
    node: SchemaNode,
    question: &Question<'_, 'i>,
    context: &mut ValidationContext<'i>,
) -> Result<Reply<'i>, OutOfMemory>
    requires { NodeMayRun K.Validate M.Matcher.own engine.now question.now context.old node.0 }
    ensures { ReplyOfNode K.Validate M.Matcher.own engine.now question.now node.0 context.old context.new result }
{
    open_question(engine, question, context)?;
    run_plan(engine, node, question, context)
}

#[cycle(run)]
#[inline(always)]
fn run_plan<'i, K: Validate, M: Matcher>(
    engine: &Engine<'_, K, M>,
    node: SchemaNode,
    question: &Question<'_, 'i>,
    context: &mut ValidationContext<'i>,
) -> Result<Reply<'i>, OutOfMemory>
    requires may_run { NodeMayRun K.Validate M.Matcher.own engine.now question.now context.old node.0 }
    requires room { HasRoom engine.now.deepest question.now.depth }
    ensures { ReplyOfPlan K.Validate M.Matcher.own engine.now question.now node.0 context.old context.new result }
{
    let found = engine.nodes.node(node);
    match &found.form {
        None => Ok(accepted(engine.alloc, question.mode)),
        Some(form) => match form {
            NodeForm::Always => Ok(accepted(engine.alloc, question.mode)),
            NodeForm::Never => refused(engine.alloc, found, question),
            NodeForm::Keywords(entries) => run_entries(
                engine,
                node,
                entries.as_slice(),
                question,
                context,
            ),
        },
    }
}

// Returns the joined reply of the entries, in their order. Stops once the reply is final.
#[cycle(run)]
fn run_entries<'i, K: Validate, M: Matcher>(
    engine: &Engine<'_, K, M>,
    node: SchemaNode,
    entries: &[Entry<K>],
    question: &Question<'_, 'i>,
    context: &mut ValidationContext<'i>,
) -> Result<Reply<'i>, OutOfMemory>
    requires { EntriesMayRun K.Validate M.Matcher.own engine.now question.now context.old node.0 entries.now }
    ensures { ReplyOfEntries K.Validate M.Matcher.own engine.now question.now node.0 entries.now context.old context.new result }
{
    let mut found = accepted(engine.alloc, question.mode);
    for entry in entries {
        let more = run_entry(engine, node, entry, question, context)?;
        found = joined(found, more)?;
        if is_settled(&found) {
            return Ok(found);
        }
    }
    Ok(found)
}

// Returns the reply of an entry. A leaf is checked for its verdict first, and for errors only if it
// is invalid.
#[cycle(run)]
fn run_entry<'i, K: Validate, M: Matcher>(
    engine: &Engine<'_, K, M>,
    node: SchemaNode,
    entry: &Entry<K>,
    question: &Question<'_, 'i>,
    context: &mut ValidationContext<'i>,
) -> Result<Reply<'i>, OutOfMemory>
    requires { EntryMayRun K.Validate M.Matcher.own engine.now question.now context.old node.0 entry.now }
    ensures { ReplyOfEntry K.Validate M.Matcher.own engine.now question.now node.0 entry.now context.old context.new result }
{
    if entry.is_leaf {
        let asked = Question {
            mode: Mode::Verdict,
            ..*question
        };
        let valid = verdict_form(engine, node, entry, &asked, context)?;
        if valid {
            return Ok(accepted(engine.alloc, question.mode));
        }
        return run_form(engine, node, entry, question, context);
    }
    run_form(engine, node, entry, question, context)
}

#[cycle(run)]
fn run_form<'i, K: Validate, M: Matcher>(
    engine: &Engine<'_, K, M>,
    node: SchemaNode,
    entry: &Entry<K>,
    question: &Question<'_, 'i>,
    context: &mut ValidationContext<'i>,
) -> Result<Reply<'i>, OutOfMemory>
    requires { EntryMayRun K.Validate M.Matcher.own engine.now question.now context.old node.0 entry.now }
    ensures { ReplyOfForm K.Validate M.Matcher.own engine.now question.now node.0 entry.now context.old context.new result }
{
    match &entry.form {
        EntryForm::Keyword(keyword, children) => {
            let named = NamedKeyword {
                name: &entry.name,
                keyword,
                children: children.as_slice(),
            };
            run_keyword(engine, node, &named, question, context)
        }
        EntryForm::Reference(edge) => {
            let path = question.path.under_reference();
            let asked = Question {
                path: &path,
                ..*question
            };
            let reply = run_edge(engine, edge, &asked, context)?;
            stamped_reply(engine.alloc, engine.nodes.node(node), &entry.name, reply)
        }
    }
}

#[cycle(run)]
fn run_keyword<'i, K: Validate, M: Matcher>(
    engine: &Engine<'_, K, M>,
    node: SchemaNode,
    keyword: &NamedKeyword<'_, K>,
    question: &Question<'_, 'i>,
    context: &mut ValidationContext<'i>,
) -> Result<Reply<'i>, OutOfMemory>
    requires { KeywordMayRun K.Validate M.Matcher.own engine.now question.now context.old node.0 keyword.now }
    ensures { ReplyOfKeyword K.Validate M.Matcher.own engine.now question.now node.0 keyword.now context.old context.new result }
{
    let answer = keyword_answer(engine, node, keyword, question, context)?;
    finished(
        engine.alloc,
        engine.nodes.node(node),
        keyword.name,
        question,
        answer,
        context,
    )
}

// Returns the reply of a keyword's child, at the same place or one step below. It is "valid" if the
// keyword's request got no child. Not inlined, so that the turns of a verdict do not pay for its
// stack frame.
#[cycle(run)]
#[inline(never)]
pub(crate) fn run_child<'i, K: Validate, M: Matcher>(
    engine: &Engine<'_, K, M>,
    node: SchemaNode,
    children: &[Option<Edge>],
    child: usize,
    below: Below<'_>,
    expects_valid: bool,
    question: &Question<'_, 'i>,
    context: &mut ValidationContext<'i>,
) -> Result<Reply<'i>, OutOfMemory>
    requires { ChildMayRun K.Validate M.Matcher.own engine.now question.now context.old node.0 children.now below }
    ensures { ReplyOfChild K.Validate M.Matcher.own engine.now question.now node.0 children.now child below.entry context.old context.new
        result }
{
    match child_edge(children, child) {
        None => Ok(accepted(engine.alloc, question.mode)),
        Some(edge) => match one_below(question.instance, below) {
            None => run_edge(engine, edge, question, context),
            Some((inner, step)) => {
                let lower = question.place.below(step);
                let asked = Question {
                    instance: inner,
                    place: &lower,
                    ..*question
                };
                if is_asked_first(engine, expects_valid, below, &lower) {
                    return run_refused(engine, edge, &asked, context);
                }
                run_edge(engine, edge, &asked, context)
            }
        },
    }
}

// Returns `more`, plus the number of array items on the way to a place from the one that the caller
// supplied.
fn items_above(place: &EvaluationPlace<'_, '_>, more: usize) -> usize {
    match place {
        EvaluationPlace::Given(_) => more,
        EvaluationPlace::Below(above, step) => match step {
            InstanceStep::Item(_) => items_above(above, more.saturating_add(1)),
            _ => items_above(above, more),
        },
        EvaluationPlace::Numbered(same, _) => items_above(same, more),
    }
}

// Returns whether a child is checked for its verdict before it is run for errors. This is so for an
// item of an array if it is expected to be valid, no match can stay unfinished, and the number of
// items on the way to it is a power of two. Other depths skip the check, so that few of the places
// above one another are validated twice.
fn is_asked_first<K, M: Matcher>(
    engine: &Engine<'_, K, M>,
    expects_valid: bool,
    below: Below<'_>,
    place: &EvaluationPlace<'_, '_>,
) -> bool
    ensures finishes { result ≡ true → FinishesAll M.matching engine.now }
{
    if !expects_valid || !engine.matcher.finishes() {
        return false;
    }
    match below {
        Below::Item(_) => {
            let items = items_above(place, 0);
            items & items.saturating_sub(1) == 0
        }
        _ => false,
    }
}

// Returns the reply of the node that an edge leads to. The node is checked for its verdict first,
// and run for errors only if it is invalid. No match can stay unfinished, so the verdict meets the
// same matches as the errors.
#[cycle(run)]
fn run_refused<'i, K: Validate, M: Matcher>(
    engine: &Engine<'_, K, M>,
    edge: &Edge,
    question: &Question<'_, 'i>,
    context: &mut ValidationContext<'i>,
) -> Result<Reply<'i>, OutOfMemory>
    requires { NodeMayBeRefused K.Validate M.Matcher.own engine.now question.now context.old edge.now.node.0 }
    ensures { ReplyOfEdge K.Validate M.Matcher.own engine.now question.now edge.now context.old context.new result }
{
    let asked = Question {
        mode: Mode::Verdict,
        ..*question
    };
    let valid = verdict_edge(engine, edge, &asked, context)?;
    if valid {
        return Ok(accepted(engine.alloc, question.mode));
    }
    run_edge(engine, edge, question, context)
}

// Returns the reply of the node that an edge leads to. It is "valid" if the edge is guarded and the
// pair is in progress.
#[cycle(run)]
fn run_edge<'i, K: Validate, M: Matcher>(
    engine: &Engine<'_, K, M>,
    edge: &Edge,
    question: &Question<'_, 'i>,
    context: &mut ValidationContext<'i>,
) -> Result<Reply<'i>, OutOfMemory>
    requires { NodeMayRun K.Validate M.Matcher.own engine.now question.now context.old edge.now.node.0 }
    ensures { ReplyOfEdge K.Validate M.Matcher.own engine.now question.now edge.now context.old context.new result }
{
    let whole = question.path.across(&edge.path);
    if !edge.guarded {
        let depth = question.depth_below();
        let asked = Question {
            path: &whole,
            depth,
            ..*question
        };
        return run_node(engine, edge.node, &asked, context);
    }
    let pair = GuardedPair::new(context, edge.node, question.place)?;
    if pair.is_in_progress(context) {
        return Ok(accepted(engine.alloc, question.mode));
    }
    pair.enter(context)?;
    let place = pair.numbered_place();
    let depth = question.depth_below();
    let asked = Question {
        place: &place,
        path: &whole,
        depth,
        ..*question
    };
    let reply = run_node(engine, edge.node, &asked, context)?;
    pair.exit(context);
    Ok(reply)
}
