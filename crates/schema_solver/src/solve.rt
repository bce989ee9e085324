//! The verdict of a node by a solver.
//!
//! What the solver finds holds for all answers of the edges that agree with what is known. A
//! "valid" that depends on an assumption holds under that assumption. So no step has to know why a
//! pair was answered. The definition is by edges: in a run, a guarded edge to a node in progress is
//! answered, and an edge without a guard is evaluated. Each call has a context of its own, so
//! nothing that it finds reaches the next call.
ghost use Rattle.std.specs.Prelude.{◌<◌, ◌≡◌, length};
ghost use Rattle.schema_traits.specs.MatcherViews.{FinishesEach};
ghost use Rattle.schema_solver.specs.Calls.{SolvesRoot};
ghost use Rattle.schema_solver_state.specs.Answering.{fresh};

mod asking;
mod edges;
mod entries;
mod turns;

use crate::question::{Asked, SolverEngine, Stopped};
use crate::solve::entries::solve_node;
use schema_reports::{Instance, Place};
use schema_run_steps::EvaluationPlace;
use schema_solver_state::SolverContext;
use schema_traits::{Matcher, SchemaNode, Validate};
use serde_json::Value;

/// Returns the verdict of a node of an instance, at the root place.
///
/// It is what the nodes say if a guarded pair in progress counts as valid, so it is the greatest
/// solution if each keyword is monotone. `None` means that the solver gave up, because a keyword
/// that does not say that it is monotone got a provisional "valid", one that depends on a pair in
/// progress or assumed. If each keyword says that it is monotone, the solver does not give up.
///
/// The matcher has to finish every match. The context has to be fresh, because what a run found of
/// another instance or by other nodes says nothing here.
///
/// With a verdict, the context keeps the facts that it rests on, and each verdict in it is what the
/// nodes say. With g numbers that a guarded edge leads to or that are not inlined, and p places, at
/// most g * p * g pairs of such a number and a place were begun. Without a verdict, pairs may be
/// left in progress, and the context is of no more use.
///
/// # Errors
///
/// `OutOfMemory`; `Limit`, if the engine has a limit on pairs and one more is needed, which happens
/// only if the limit is less than g * p * g; or `Depth`, if it has a limit on the evaluations that
/// are under way at once and one more is needed.
pub fn solve_root<'i, K: Validate, M: Matcher>(
    engine: &SolverEngine<'_, K, M>,
    node: SchemaNode,
    instance: &'i Value,
    context: &mut SolverContext<'i>,
) -> Result<Option<bool>, Stopped>
    requires known { node.0 < length engine.now.nodes.now }
    requires finishes { FinishesEach (M.matching engine.now.matcher.now) }
    requires fresh { context.old ≡ fresh instance.now }
    ensures { SolvesRoot K.Validate M.Matcher.own engine.now instance.now node.0 context.new result }
{
    engine.nodes.assert_ordered();
    let root = Place::root(engine.alloc);
    let place = EvaluationPlace::given(&root);
    let asked = Asked {
        instance: Instance::Value(instance),
        place: &place,
        depth: 0,
    };
    if !engine.has_room(0) {
        return Err(Stopped::Depth);
    }
    match solve_node(engine, node, &asked, context).result() {
        Ok(said) => Ok(Some(said.valid())),
        Err(stopped) => match stopped {
            Stopped::Leans => Ok(None),
            Stopped::OutOfMemory => Err(Stopped::OutOfMemory),
            Stopped::Limit => Err(Stopped::Limit),
            Stopped::Depth => Err(Stopped::Depth),
        },
    }
}
