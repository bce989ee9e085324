//! The verdict of a keyword that asks its questions up front, by a solver.
//!
//! Each kind of asking has a function of its own, so that the kind need not be tested again at each
//! question.
ghost use Rattle.std.specs.Prelude.{◌≡◌, true};
ghost use Rattle.serde_json.specs.Data.{object};
ghost use Rattle.serde_json.specs.View.{members_view};
ghost use Rattle.theory_definitions.specs.Instance.{a_value};
ghost use Rattle.schema_reports.specs.InstanceViews.{subject_of};
ghost use Rattle.schema_traits.specs.Members.{at_their_names};
ghost use Rattle.schema_traits.specs.Questions.{StandsThere, at_names};
ghost use Rattle.schema_solver.specs.Solved.{the_question, the_asker};
ghost use Rattle.schema_solver.specs.Calls.{Answers, CanAsk, HasMembers, SaysBy};

use crate::question::{Asked, SolverEngine, Stopped};
use crate::solve::edges::solve_edge;
use crate::solve::turns::solver_answer;
use crate::told::Told;
use schema_node_table::KeywordName;
use schema_run_context::child_edge;
use schema_run_steps::{NamedKeyword, finished_match};
use schema_solver_state::SolverContext;
use schema_traits::{
    AscendingNames, AskedQuestion, Asking, CountedQuestions, Edge, Matcher, MembersQuestions,
    NamesQuestions, SchemaNode, Validate,
};
use serde_json::{Map, Value};

// Returns the verdict of a keyword by the questions that it asks up front, or else by its turns.
// Its children are passed as they are stored, in one word, so that the arguments of a call by
// members fit into registers.
#[cycle(verdict)]
#[inline(always)]
pub(crate) fn solve_asked<'i, K: Validate, M: Matcher>(
    engine: &SolverEngine<'_, K, M>,
    node: SchemaNode,
    name: &KeywordName,
    keyword: &K,
    children: &Vec<Option<Edge>>,
    question: &Asked<'_, 'i>,
    context: &mut SolverContext<'i>,
) -> Told
    requires { CanAsk K.Validate M.Matcher.own engine.now question.now (the_asker K.shape node.0 keyword.now children.now.items)
        context.old }
    ensures { Answers K.Validate M.Matcher.own engine.now question.now (the_asker K.shape node.0 keyword.now children.now.items)
        context.old context.new result }
{
    let asking = keyword.asking(question.instance);
    let kept = children.as_slice();
    match asking {
        Asking::ByTurns => {
            let named = NamedKeyword {
                name,
                keyword,
                children: kept,
            };
            solver_answer(engine, node, &named, question, context)
        },
        Asking::Match(pattern, subject) => {
            match finished_match(engine.alloc, engine.matcher, pattern, subject) {
                Ok(matches) => Told::settled(matches),
                Err(_) => Told::stopped(Stopped::OutOfMemory),
            }
        },
        Asking::Each(end) => {
            let questions = CountedQuestions::here(question.instance, end);
            solve_counted(
                engine, node, keyword, kept, true, questions, question, context,
            )
        },
        Asking::One(end) => {
            let questions = CountedQuestions::here(question.instance, end);
            solve_counted(
                engine, node, keyword, kept, false, questions, question, context,
            )
        },
        Asking::Items(next, items) => {
            let questions = CountedQuestions::items(next, items);
            solve_counted(
                engine, node, keyword, kept, true, questions, question, context,
            )
        },
        Asking::Listed(count, items) => {
            let questions = CountedQuestions::listed(count, items);
            solve_counted(
                engine, node, keyword, kept, true, questions, question, context,
            )
        },
        Asking::Members(names, members) => {
            solve_members(
                engine, node, keyword, children, names, members, question, context,
            )
        },
        Asking::Names(members) => {
            solve_names(engine, node, keyword, kept, members, question, context)
        },
    }
}

// Returns the verdict of a keyword by questions of its children here, or of items. If all have to
// accept, nothing is evaluated after an "invalid"; if one has to, nothing after a "valid". A
// "valid" is provisional if one that it depends on is.
#[cycle(verdict)]
#[inline(always)]
fn solve_counted<'i, K: Validate, M: Matcher>(
    engine: &SolverEngine<'_, K, M>,
    node: SchemaNode,
    keyword: &K,
    children: &[Option<Edge>],
    all: bool,
    mut questions: CountedQuestions<'i>,
    question: &Asked<'_, 'i>,
    context: &mut SolverContext<'i>,
) -> Told
    requires may_ask { CanAsk K.Validate M.Matcher.own engine.now question.now (the_asker K.shape node.0 keyword.now children.now)
        context.old }
    requires there { questions.subject ≡ subject_of question.now.instance }
    requires says { SaysBy K.Validate keyword.now question.now all questions.left }
    ensures { Answers K.Validate M.Matcher.own engine.now question.now (the_asker K.shape node.0 keyword.now children.now)
        context.old context.new result }
{
    let mut leans = false;
    while let Some(asked) = questions.next() {
        let told = solve_there(engine, node, children, asked, question, context);
        if told.ends(all) {
            return told;
        }
        leans |= told.leans();
    }
    Told::of(all, leans)
}

// Does the same by questions of its children at the members that have their names. Not inlined, so
// that the other kinds do not pay for its stack frame.
#[cycle(verdict)]
#[inline(never)]
fn solve_members<'i, K: Validate, M: Matcher>(
    engine: &SolverEngine<'_, K, M>,
    node: SchemaNode,
    keyword: &K,
    children: &Vec<Option<Edge>>,
    names: &AscendingNames,
    members: &'i Map<String, Value>,
    question: &Asked<'_, 'i>,
    context: &mut SolverContext<'i>,
) -> Told
    requires may_ask { CanAsk K.Validate M.Matcher.own engine.now question.now (the_asker K.shape node.0 keyword.now children.now.items)
        context.old }
    requires there { HasMembers question.now members.now.entries }
    requires says { SaysBy K.Validate keyword.now question.now true
        (at_names (a_value (object (members_view members.now.entries))) 0 names.now) }
    ensures { Answers K.Validate M.Matcher.own engine.now question.now (the_asker K.shape node.0 keyword.now children.now.items)
        context.old context.new result }
{
    let kept = children.as_slice();
    let mut questions = MembersQuestions::of(names, members);
    let mut leans = false;
    while let Some(asked) = questions.next() {
        let told = solve_there(engine, node, kept, asked, question, context);
        if told.ends(true) {
            return told;
        }
        leans |= told.leans();
    }
    Told::of(true, leans)
}

// Does the same by questions of its first child at the names of members. Not inlined either.
#[cycle(verdict)]
#[inline(never)]
fn solve_names<'i, K: Validate, M: Matcher>(
    engine: &SolverEngine<'_, K, M>,
    node: SchemaNode,
    keyword: &K,
    children: &[Option<Edge>],
    members: &'i Map<String, Value>,
    question: &Asked<'_, 'i>,
    context: &mut SolverContext<'i>,
) -> Told
    requires may_ask { CanAsk K.Validate M.Matcher.own engine.now question.now (the_asker K.shape node.0 keyword.now children.now)
        context.old }
    requires there { HasMembers question.now members.now.entries }
    requires says { SaysBy K.Validate keyword.now question.now true (at_their_names members.now.entries) }
    ensures { Answers K.Validate M.Matcher.own engine.now question.now (the_asker K.shape node.0 keyword.now children.now)
        context.old context.new result }
{
    let mut questions = NamesQuestions::of(members);
    let mut leans = false;
    while let Some(asked) = questions.next() {
        let told = solve_there(engine, node, children, asked, question, context);
        if told.ends(true) {
            return told;
        }
        leans |= told.leans();
    }
    Told::of(true, leans)
}

// Returns the verdict of a keyword's child, at this value or below it; "valid" if its request got
// no child.
#[cycle(verdict)]
#[inline(always)]
fn solve_there<'i, K: Validate, M: Matcher>(
    engine: &SolverEngine<'_, K, M>,
    node: SchemaNode,
    children: &[Option<Edge>],
    asked: AskedQuestion<'i>,
    question: &Asked<'_, 'i>,
    context: &mut SolverContext<'i>,
) -> Told
    requires may_ask { CanAsk K.Validate M.Matcher.own engine.now question.now (the_question node.0 children.now asked) context.old }
    requires there { StandsThere (subject_of question.now.instance) asked }
    ensures { Answers K.Validate M.Matcher.own engine.now question.now (the_question node.0 children.now asked.entry)
        context.old context.new result }
{
    match child_edge(children, asked.child) {
        None => Told::settled(true),
        Some(edge) => match asked.below {
            None => {
                let depth = question.depth_below();
                let here = Asked { depth, ..*question };
                solve_edge(engine, edge, &here, context)
            }
            Some((inner, step)) => {
                let lower = question.place.below(step);
                let depth = question.depth_below();
                let there = Asked {
                    instance: inner,
                    place: &lower,
                    depth,
                };
                solve_edge(engine, edge, &there, context)
            }
        },
    }
}
