//! The verdicts of edges' targets and of pairs, by a solver.
ghost use Rattle.std.specs.Prelude.{◌≡◌, ◌<◌, ◌≤◌, ℕ, IfErr, OnOk, Some};
ghost use Rattle.schema_solver.specs.Solved.{a_pair, the_child, the_edge};
ghost use Rattle.schema_solver.specs.Calls.{Answers, CanAsk, PairMayBegin};

use crate::question::{Asked, SolverEngine, Stopped};
use crate::solve::entries::{solve_node, solve_node_apart};
use crate::told::Told;
use schema_run_context::child_edge;
use schema_run_steps::one_below;
use schema_solver_state::{SolverContext, SolverPair};
use schema_traits::{Below, Edge, Matcher, SchemaNode, Validate};

// Returns the verdict of a keyword's child, here or one step below; "valid" if its request got no
// child.
#[cycle(verdict)]
pub(crate) fn solve_child<'i, K: Validate, M: Matcher>(
    engine: &SolverEngine<'_, K, M>,
    node: SchemaNode,
    children: &[Option<Edge>],
    child: usize,
    below: Below<'_>,
    question: &Asked<'_, 'i>,
    context: &mut SolverContext<'i>,
) -> Told
    requires { CanAsk K.Validate M.Matcher.own engine.now question.now (the_child node.0 children.now child below) context.old }
    ensures { Answers K.Validate M.Matcher.own engine.now question.now (the_child node.0 children.now child below.entry)
        context.old context.new result }
{
    match child_edge(children, child) {
        None => Told::settled(true),
        Some(edge) => match one_below(question.instance, below) {
            None => {
                let depth = question.depth_below();
                let here = Asked { depth, ..*question };
                solve_edge(engine, edge, &here, context)
            }
            Some((inner, step)) => {
                let lower = question.place.below(step);
                let depth = question.depth_below();
                let asked = Asked {
                    instance: inner,
                    place: &lower,
                    depth,
                };
                solve_edge(engine, edge, &asked, context)
            }
        },
    }
}

// Returns the verdict of the node that an edge leads to. If the edge is guarded, or its number is
// not inlined, the pair is looked up first. It stops if too many evaluations are under way.
#[cycle(verdict)]
#[inline(always)]
pub(crate) fn solve_edge<'i, K: Validate, M: Matcher>(
    engine: &SolverEngine<'_, K, M>,
    edge: &Edge,
    question: &Asked<'_, 'i>,
    context: &mut SolverContext<'i>,
) -> Told
    requires { CanAsk K.Validate M.Matcher.own engine.now question.now (the_edge edge.now) context.old }
    ensures { Answers K.Validate M.Matcher.own engine.now question.now (the_edge edge.now) context.old context.new result }
{
    if edge.guarded || !engine.followed.is_followed(edge.node) {
        return solve_pair(engine, edge.node, question, context);
    }
    if !engine.has_room(question.depth) {
        return Told::stopped(Stopped::Depth);
    }
    solve_node(engine, edge.node, question, context)
}

// Lets one more pair begin, or stops if the limit on pairs is reached.
#[inline(always)]
fn may_begin<K, M>(
    engine: &SolverEngine<'_, K, M>,
    context: &SolverContext<'_>,
) -> Result<(), Stopped>
    ensures room { OnOk result ((most : ℕ) → engine.now.most ≡ Some most → context.now.begun < most) }
    ensures stops { IfErr result (λ e. (e ≡ Stopped.Limit) × ((most : ℕ) × (engine.now.most ≡ Some most) × (most ≤ context.now.begun))) }
{
    if let Some(most) = engine.most {
        if context.begun() >= most {
            return Err(Stopped::Limit);
        }
    }
    Ok(())
}

// Returns the answer for a pair: its known verdict; a provisional "valid" if it is in progress or
// assumed; and else the verdict of its node. Most pairs are known, so the rest is a function of its
// own, and the fast path does not pay for its stack frame.
#[cycle(verdict)]
#[inline(never)]
fn solve_pair<'i, K: Validate, M: Matcher>(
    engine: &SolverEngine<'_, K, M>,
    node: SchemaNode,
    question: &Asked<'_, 'i>,
    context: &mut SolverContext<'i>,
) -> Told
    requires { CanAsk K.Validate M.Matcher.own engine.now question.now (a_pair node.0) context.old }
    ensures { Answers K.Validate M.Matcher.own engine.now question.now (a_pair node.0) context.old context.new result }
{
    let pair = match SolverPair::new(context, node, question.place) {
        Ok(pair) => pair,
        Err(_) => return Told::stopped(Stopped::OutOfMemory),
    };
    if let Some(said) = pair.state(context) {
        return Told::said(said);
    }
    begin_pair(engine, node, &pair, question, context)
}

// Returns the answer for a pair about which nothing is known. The pair is in progress while its
// node is evaluated; if no more pairs may begin, or too many evaluations are under way, it stops.
//
// An "invalid" is remembered, and what was assumed since is dropped. A "valid" is remembered, with
// all that was assumed since, if no other pair is in progress at the place. Otherwise it alone is
// remembered if it is final, and assumed if it is provisional.
#[cycle(verdict)]
#[inline(never)]
fn begin_pair<'i, K: Validate, M: Matcher>(
    engine: &SolverEngine<'_, K, M>,
    node: SchemaNode,
    pair: &SolverPair<'_, 'i>,
    question: &Asked<'_, 'i>,
    context: &mut SolverContext<'i>,
) -> Told
    requires { PairMayBegin K.Validate M.Matcher.own engine.now question.now node.0 pair.now context.old }
    ensures { Answers K.Validate M.Matcher.own engine.now question.now (a_pair node.0) context.old context.new result }
{
    if let Err(stopped) = may_begin(engine, context) {
        return Told::stopped(stopped);
    }
    let depth = question.depth_below();
    if !engine.has_room(depth) {
        return Told::stopped(Stopped::Depth);
    }
    let mark = match pair.enter(context) {
        Ok(mark) => mark,
        Err(_) => return Told::stopped(Stopped::OutOfMemory),
    };
    let place = pair.numbered_place();
    let asked = Asked {
        instance: question.instance,
        place: &place,
        depth,
    };
    let said = match solve_node_apart(engine, node, &asked, context).result() {
        Ok(said) => said,
        Err(stopped) => return Told::stopped(stopped),
    };
    pair.exit(context);
    match pair.keep_answer(context, mark, said) {
        Ok(kept) => Told::said(kept),
        Err(_) => Told::stopped(Stopped::OutOfMemory),
    }
}
