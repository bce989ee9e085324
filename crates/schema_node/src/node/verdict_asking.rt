//! The verdict of a keyword that asks its questions up front.
//!
//! The questions are used only if the matcher finishes every match. Turns meet unfinished matches
//! in an order of their own, which a run has to keep.
ghost use Rattle.std.specs.Prelude.{◌≡◌, Bool, true};
ghost use Rattle.schema_reports.specs.InstanceViews.{subject_of};
ghost use Rattle.schema_traits.specs.AskedAtOnce.{HoldsAsTold, tells_at_once};
ghost use Rattle.schema_traits.specs.KeywordViews.{Tells};
ghost use Rattle.schema_traits.specs.Questions.{StandsThere, question_in};
ghost use Rattle.theory_runs.specs.Answered.{the_question};
ghost use Rattle.schema_node.specs.Premises.{FinishesAll, KeywordIsAsked, QuestionsAreAsked, VerdictIsAsked};
ghost use Rattle.schema_node.specs.RunAnswers.{KeywordIsTold, VerdictIsTold};

use crate::node::verdict::verdict_edge;
use crate::node::verdict_turns::keyword_verdict;
use schema_reports::{Instance, OutOfMemory};
use schema_run_context::{ValidationContext, child_edge};
use schema_run_steps::{Engine, NamedKeyword, Question, finished_match};
use schema_traits::{
    AskedQuestion, Asking, CountedQuestions, Edge, Matcher, MembersQuestions, NamesQuestions,
    SchemaNode, Validate,
};

// Returns the questions that a keyword asks up front, if the matcher finishes every match, or else
// `ByTurns`.
#[inline(always)]
fn finished_asking<'s, 'i, K: Validate, M: Matcher>(
    engine: &Engine<'_, K, M>,
    keyword: &'s K,
    instance: Instance<'i>,
) -> Asking<'s, 'i>
    ensures asks { (texts : Bool) → Tells texts (K.is_whole (K.shape keyword.now)) (subject_of instance.entry)
        → HoldsAsTold (K.words texts) (K.shape keyword.now) (subject_of instance.entry) result }
    ensures finishes { tells_at_once result ≡ true → FinishesAll M.matching engine.now }
{
    if engine.matcher.finishes() {
        keyword.asking(instance)
    } else {
        Asking::ByTurns
    }
}

// Returns the verdict of a keyword by the questions that it asks up front, if no match can stay
// unfinished, or else by its turns.
#[cycle(verdict)]
#[inline(always)]
pub(crate) fn asked_verdict<'i, K: Validate, M: Matcher>(
    engine: &Engine<'_, K, M>,
    node: SchemaNode,
    keyword: &NamedKeyword<'_, K>,
    question: &Question<'_, 'i>,
    context: &mut ValidationContext<'i>,
) -> Result<bool, OutOfMemory>
    requires { KeywordIsAsked K.Validate M.Matcher.own engine.now question.now node.0 keyword.now context.old }
    ensures { KeywordIsTold K.Validate M.Matcher.own engine.now question.now node.0 keyword.now context.old context.new result }
{
    match finished_asking(engine, keyword.keyword, question.instance) {
        Asking::ByTurns => keyword_verdict(engine, node, keyword, question, context),
        Asking::Match(pattern, subject) => {
            let matches = finished_match(engine.alloc, engine.matcher, pattern, subject)?;
            Ok(matches)
        },
        Asking::Each(end) => {
            let questions = CountedQuestions::here(question.instance, end);
            verdict_counted(engine, node, keyword, true, questions, question, context)
        },
        Asking::One(end) => {
            let questions = CountedQuestions::here(question.instance, end);
            verdict_counted(engine, node, keyword, false, questions, question, context)
        },
        Asking::Items(next, items) => {
            let questions = CountedQuestions::items(next, items);
            verdict_counted(engine, node, keyword, true, questions, question, context)
        },
        Asking::Listed(count, items) => {
            let questions = CountedQuestions::listed(count, items);
            verdict_counted(engine, node, keyword, true, questions, question, context)
        },
        Asking::Members(names, members) => {
            let questions = MembersQuestions::of(names, members);
            verdict_members(engine, node, keyword, questions, question, context)
        },
        Asking::Names(members) => {
            let questions = NamesQuestions::of(members);
            verdict_names(engine, node, keyword, questions, question, context)
        },
    }
}

// Returns the verdict of a keyword by questions about the same instance or about items. If all
// children have to be valid, the walk stops at the first invalid one. If one has to be, it stops at
// the first valid one.
#[cycle(verdict)]
#[inline(always)]
fn verdict_counted<'i, K: Validate, M: Matcher>(
    engine: &Engine<'_, K, M>,
    node: SchemaNode,
    keyword: &NamedKeyword<'_, K>,
    all: bool,
    mut questions: CountedQuestions<'i>,
    question: &Question<'_, 'i>,
    context: &mut ValidationContext<'i>,
) -> Result<bool, OutOfMemory>
    requires { QuestionsAreAsked K.Validate M.Matcher.own engine.now question.now context.old node.0 keyword.now all questions }
    ensures { KeywordIsTold K.Validate M.Matcher.own engine.now question.now node.0 keyword.now context.old context.new result }
{
    let children = keyword.children;
    while let Some(asked) = questions.next() {
        let valid = verdict_there(engine, node, children, asked, question, context)?;
        if valid != all {
            return Ok(valid);
        }
    }
    Ok(all)
}

// Returns the verdict of a keyword by questions about members, each for the child of its name.
#[cycle(verdict)]
#[inline(always)]
fn verdict_members<'i, K: Validate, M: Matcher>(
    engine: &Engine<'_, K, M>,
    node: SchemaNode,
    keyword: &NamedKeyword<'_, K>,
    mut questions: MembersQuestions<'_, 'i>,
    question: &Question<'_, 'i>,
    context: &mut ValidationContext<'i>,
) -> Result<bool, OutOfMemory>
    requires { QuestionsAreAsked K.Validate M.Matcher.own engine.now question.now context.old node.0 keyword.now true questions }
    ensures { KeywordIsTold K.Validate M.Matcher.own engine.now question.now node.0 keyword.now context.old context.new result }
{
    let children = keyword.children;
    while let Some(asked) = questions.next() {
        let valid = verdict_there(engine, node, children, asked, question, context)?;
        if !valid {
            return Ok(valid);
        }
    }
    Ok(true)
}

// Returns the verdict of a keyword by questions about the names of members, all for its first
// child.
#[cycle(verdict)]
#[inline(always)]
fn verdict_names<'i, K: Validate, M: Matcher>(
    engine: &Engine<'_, K, M>,
    node: SchemaNode,
    keyword: &NamedKeyword<'_, K>,
    mut questions: NamesQuestions<'i>,
    question: &Question<'_, 'i>,
    context: &mut ValidationContext<'i>,
) -> Result<bool, OutOfMemory>
    requires { QuestionsAreAsked K.Validate M.Matcher.own engine.now question.now context.old node.0 keyword.now true questions }
    ensures { KeywordIsTold K.Validate M.Matcher.own engine.now question.now node.0 keyword.now context.old context.new result }
{
    let children = keyword.children;
    while let Some(asked) = questions.next() {
        let valid = verdict_there(engine, node, children, asked, question, context)?;
        if !valid {
            return Ok(valid);
        }
    }
    Ok(true)
}

// Returns the verdict of a keyword's child for one question. It is `true` if the keyword's request
// got no child.
#[cycle(verdict)]
#[inline(always)]
fn verdict_there<'i, K: Validate, M: Matcher>(
    engine: &Engine<'_, K, M>,
    node: SchemaNode,
    children: &[Option<Edge>],
    asked: AskedQuestion<'i>,
    question: &Question<'_, 'i>,
    context: &mut ValidationContext<'i>,
) -> Result<bool, OutOfMemory>
    requires asked { VerdictIsAsked K.Validate M.Matcher.own engine.now question.now
        (the_question node.0 children.now (question_in asked)) context.old }
    requires there { StandsThere (subject_of question.now.instance) asked }
    ensures { VerdictIsTold K.Validate M.Matcher.own engine.now question.now (the_question node.0 children.now (question_in asked.entry))
        context.old context.new result }
{
    match child_edge(children, asked.child) {
        None => Ok(true),
        Some(edge) => match asked.below {
            None => verdict_edge(engine, edge, question, context),
            Some((inner, step)) => {
                let lower = question.place.below(step);
                let there = Question {
                    instance: inner,
                    place: &lower,
                    ..*question
                };
                verdict_edge(engine, edge, &there, context)
            }
        },
    }
}
