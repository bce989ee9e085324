//! The solver of some nodes, and the verdicts that it finds.
//!
//! The solver is used only if the matcher finishes every match, because a solver meets other
//! matches than the guarded run does.
ghost use Rattle.std.specs.Prelude.{◌≡◌, ◌<◌, ◌+◌, ◌&&◌, [], IfOk, IfSome, None, OnErr, false, is_some, length, true};
ghost use Rattle.serde_json.specs.View.{view};
ghost use Rattle.schema_solver_state.specs.Following.{IsFollowing};
ghost use Rattle.schema_traits.specs.MatcherViews.{FinishesEach};
ghost use Rattle.schema_node_table.specs.NodeTable.{numbered};
ghost use Rattle.schema_solver.specs.Asked.{solver_over};
ghost use Rattle.schema_solver.specs.Calls.{IfFound};
ghost use Rattle.schema_solver.specs.Solving.{BeginsFew, EachSays, LimitWithinBound, SaysAsNodes};
ghost use Rattle.schema_run_context.specs.Works.{Spends};
ghost use Rattle.schema_traits.specs.Showing.{Shows, Yields};
ghost use Rattle.schema_solver.specs.Finding.{IsFoundAt};

use crate::question::{SolverEngine, Stopped};
use crate::solve::solve_root;
use schema_node_table::Nodes;
use schema_places::PlacesOnDemand;
use schema_reports::OutOfMemory;
use schema_run_context::Work;
use schema_solver_state::{Followed, SolverContext};
use schema_traits::{Matcher, SchemaNode, Validate};
use serde_json::Value;
use std::alloc::{AllocError, Global};
use std::marker::Model;

/// A verdict that a solver found, and the context in which it found it.
///
/// The context has the facts that the verdict rests on, and how many pairs were begun for it
/// (`SolverContext::begun`).
#[derive(Drop)]
pub struct SolvedVerdict<'i> {
    pub valid: bool,
    pub context: SolverContext<'i>,
}

/// Finds verdicts of some nodes.
///
/// It finds a verdict if the matcher finishes every match and the solver does not give up.
/// Contracts see which numbers the solver inlines, if there is a solver.
#[derive(Drop)]
pub struct Solver {
    followed: Option<Followed>,
}

impl Model for Solver {
    ghost use Rattle.std.specs.Prelude.{Bool, List, Option};

    ghost Value = { Option (List Bool) };

    ghost view = { λ f. f.followed };
}

// Records in a call's work that a solver stopped at one of its limits, if it did.
fn stop_at_limit(work: &mut Work, stopped: Stopped)
    ensures limit { stopped ≡ Stopped.Limit → work.old.limited ≡ true → work.new ≡ record work.old { left = 0; stopped = true } }
    ensures other { stopped ≡ Stopped.OutOfMemory → work.new ≡ work.old }
    ensures depth { stopped ≡ Stopped.Depth → work.new ≡ record work.old { too_deep = work.new.too_deep } }
{
    match stopped {
        Stopped::Limit => work.stop(),
        Stopped::Depth => work.stop_at_depth(),
        Stopped::OutOfMemory => (),
        Stopped::Leans => (),
    }
}

impl Solver {
    /// Returns a solver that finds no verdict.
    pub fn none() -> Solver
        ensures none { result ≡ None }
    {
        Solver { followed: None }
    }

    /// Returns the solver of these nodes.
    ///
    /// # Errors
    ///
    /// Out of memory.
    pub fn of<K: Validate>(alloc: Global, nodes: &Nodes<K>) -> Result<Solver, OutOfMemory>
        ensures made { Shows is_some result true }
        ensures follows { IfOk result (λ f. IfSome f (IsFollowing nodes.now)) }
    {
        let numbers = Followed::of(alloc, nodes)?;
        Ok(Solver {
            followed: Some(numbers),
        })
    }

    /// Returns a clone of the solver.
    ///
    /// # Errors
    ///
    /// Out of memory.
    pub fn clone(&self) -> Result<Solver, OutOfMemory>
        ensures same { Yields result self.now }
    {
        match &self.followed {
            Some(numbers) => Ok(Solver {
                followed: Some(numbers.clone()?),
            }),
            None => Ok(Solver::none()),
        }
    }

    /// Returns a node's verdict, with the context in which it was found.
    ///
    /// It returns `None` if this solver finds no verdict, if the matcher is not said to finish
    /// every match, or if the solver gives up, which it never does if each keyword says that it is
    /// monotone.
    ///
    /// The context speaks of this instance. Each verdict in it is what the nodes say, and the
    /// returned verdict is what the node says under each set that has all pairs the context accepts
    /// and none that it refuses. If each keyword is monotone, everything in it is true of every set
    /// that supports itself. With g numbers that a guarded edge leads to or that are not inlined,
    /// and p places, the context began at most g * p * g pairs. Which numbers are inlined does not
    /// change the verdict, so `says` names none.
    ///
    /// The call deducts the pairs that it begins from the work. If the work has a limit, it begins
    /// no more than are left.
    ///
    /// # Errors
    ///
    /// Out of memory, and then the work is unchanged; or one more pair is needed than the work has
    /// left, and then the work says that it is stopped; or one more evaluation has to be under way at
    /// once than the work allows, and then the work says so, and is otherwise unchanged. The second
    /// happens only if less than that bound is left.
    pub fn verdict<'i, K: Validate, M: Matcher>(
        &self,
        alloc: Global,
        nodes: &Nodes<K>,
        matcher: &M,
        finishes: bool,
        node: SchemaNode,
        instance: &'i Value,
        work: &mut Work,
    ) -> Result<Option<SolvedVerdict<'i>>, OutOfMemory>
        requires known { node.0 < length nodes.now }
        requires finishes { finishes ≡ true → FinishesEach (M.matching matcher.now) }
        ensures exactly { EachSays K.says_monotone (numbered K.shape nodes.now) (length nodes.now)
            → Shows is_some result (is_some self.now && finishes) }
        ensures only { IfOk result (λ found. is_some found ≡ true → (is_some self.now && finishes) ≡ true) }
        ensures finishes { IfFound result (λ _. FinishesEach (M.matching matcher.now)) }
        ensures says { IfFound result (λ v. SaysAsNodes
            (solver_over K.words K.is_whole K.shape nodes.now [] (M.matching matcher.now)) (view instance.now) node.0 v.valid) }
        ensures rests { IfFound result (λ v. IfSome self.now (λ followed. IsFoundAt
            (solver_over K.words K.is_whole K.shape nodes.now followed (M.matching matcher.now)) instance.now node.0 v)) }
        ensures few { IfFound result (λ v. IfSome self.now (λ followed. BeginsFew
            (solver_over K.words K.is_whole K.shape nodes.now followed (M.matching matcher.now)) instance.now v.context.begun)) }
        ensures unasked { (is_some self.now && finishes) ≡ false → work.new ≡ work.old }
        ensures works { IfOk result (λ _. Spends work.old work.new) }
        ensures counted { IfFound result (λ v. work.old.limited ≡ true → v.context.begun + work.new.left ≡ work.old.left) }
        ensures late { OnErr result (work.old.stopped ≡ false → work.new.stopped ≡ true
            → IfSome self.now (λ followed. LimitWithinBound
            (solver_over K.words K.is_whole K.shape nodes.now followed (M.matching matcher.now)) instance.now work.old.left)) }
        ensures stays { OnErr result (work.new.stopped ≡ false → work.new ≡ record work.old { too_deep = work.new.too_deep }) }
    {
        if let Some(followed) = &self.followed {
            if finishes {
                let engine = SolverEngine {
                    nodes,
                    alloc,
                    matcher,
                    followed,
                    most: work.left(),
                    deepest: work.depth_limit(),
                };
                let mut context = SolverContext::new(alloc, PlacesOnDemand::of(instance));
                match solve_root(&engine, node, instance, &mut context) {
                    Ok(found) => {
                        work.spend(context.begun());
                        if let Some(valid) = found {
                            return Ok(Some(SolvedVerdict { valid, context }));
                        }
                        return Ok(None);
                    }
                    Err(stopped) => {
                        stop_at_limit(work, stopped);
                        return Err(AllocError);
                    }
                }
            }
        }
        Ok(None)
    }
}
